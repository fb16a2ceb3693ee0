//! A run of a whole script over a fresh desk.

ghost use Rattle.std.specs.Prelude.{◌≡◌, ◌≤◌, true, IfOk, IsErrOf};
ghost use Rattle.rh_defs.specs.Memory.{fresh};
ghost use Rattle.rh_defs.specs.Runs.{start};
ghost use Rattle.rh_defs.specs.Script.{ended_text, script_text};
ghost use Rattle.rh_run.specs.Safely.{RanSafely};
ghost use Rattle.rh_session.specs.Outcome.{Answered, Finished, BrokeOff};
ghost use Rattle.rh_defs.specs.declared.sizes.TheConstants.{MAX_PAGES, MIN_PAGES, MOST_READS};

use crate::native::{give_back, native_memory};
use crate::world::ScriptWorld;
use rh_defs::Files;
use rh_lines::{Sink, Source};
use rh_session::{Buffers, RunFault, Status, run_script};
use rh_store::Store;
use rh_tasks::{NamedFiles, World};
use std::alloc::Global;

/// Runs a script over a fresh desk on a store that nobody has used, of 8 to 1,024 pages, and writes the answer of each
/// line before it reads on. It takes no memory, and gives up after 1,000,000 reads that gave bytes.
pub fn run_over<S: Store + Drop, F: NamedFiles + Drop, R: Source, W: Sink>(
    store: S,
    files: F,
    reader: &mut R,
    writer: &mut W,
    buffers: &mut Buffers,
) -> Result<Status, RunFault>
    requires fresh { S.memory store ≡ fresh (S.memory store).pages }
    requires least { MIN_PAGES ≤ (S.memory store).pages }
    requires most { (S.memory store).pages ≤ MAX_PAGES }
    requires unread { (R.input reader.old).reads ≡ 0 }

    // The whole script was read, and its text was written.
    ensures ok { IfOk result (λ status. Finished (start (S.memory store).pages (F.contents files)) (R.input reader.old)
        (R.input reader.new) (W.output writer.old) (W.output writer.new) status) }

    // No schedule in the script that was read lost a byte, or gave a wrong one.
    ensures safe { IfOk result (λ status. RanSafely script_text (start (S.memory store).pages (F.contents files))
        (R.input reader.old) (R.input reader.new) (W.output writer.old) (W.output writer.new)) }

    // It takes no memory.
    ensures had_memory { IsErrOf result RunFault.NoMemory → ⊥ }

    // The complete lines that were read have been answered, and are as safe.
    ensures read_failed { IsErrOf result RunFault.ReadFailed → (R.input reader.new).failed ≡ true }
    ensures read_answered { IsErrOf result RunFault.ReadFailed
        → Answered (start (S.memory store).pages (F.contents files)) (R.input reader.old) (R.input reader.new)
        (W.output writer.old) (W.output writer.new) }
    ensures read_safe { IsErrOf result RunFault.ReadFailed → RanSafely ended_text (start (S.memory store).pages
        (F.contents files)) (R.input reader.old) (R.input reader.new) (W.output writer.old) (W.output writer.new) }
    ensures too_long { IsErrOf result RunFault.TooLong → ((R.input reader.new).reads ≡ MOST_READS)
        × ((R.input reader.new).failed ≡ (R.input reader.old).failed) }
    ensures long_answered { IsErrOf result RunFault.TooLong → Answered (start (S.memory store).pages
        (F.contents files)) (R.input reader.old) (R.input reader.new) (W.output writer.old) (W.output writer.new) }
    ensures long_safe { IsErrOf result RunFault.TooLong → RanSafely ended_text (start (S.memory store).pages
        (F.contents files)) (R.input reader.old) (R.input reader.new) (W.output writer.old) (W.output writer.new) }

    // The writer failed, and took a front of the script's text.
    ensures write_failed { IsErrOf result RunFault.WriteFailed
        → BrokeOff (start (S.memory store).pages (F.contents files)) (R.input reader.old) (W.output writer.old)
        (W.output writer.new) }

    // However it ends, at most so many reads gave bytes.
    ensures reads { (R.input reader.new).reads ≤ MOST_READS }
{
    let mut world = World::new(store, files);
    let world = ScriptWorld { world: &mut world };
    run_script(world, reader, writer, buffers)
}

/// Runs a script over a fresh desk of 8 to 1,024 pages, and writes the answer of each line before it reads on.
/// It takes memory before its first read only, and gives up after 1,000,000 reads that gave bytes.
#[inline(never)]
pub fn run<R: Source, W: Sink>(
    alloc: Global,
    files: Files,
    reader: &mut R,
    writer: &mut W,
    pages: u32,
) -> Result<Status, RunFault>
    requires least { MIN_PAGES ≤ pages }
    requires most { pages ≤ MAX_PAGES }
    requires fresh { (R.input reader.old).reads ≡ 0 }

    // The whole script was read, and its text was written.
    ensures ok { IfOk result (λ status. Finished (start pages files) (R.input reader.old) (R.input reader.new)
        (W.output writer.old) (W.output writer.new) status) }

    // No schedule in the script that was read lost a byte, or gave a wrong one.
    ensures safe { IfOk result (λ status. RanSafely script_text (start pages files) (R.input reader.old)
        (R.input reader.new) (W.output writer.old) (W.output writer.new)) }

    // Nothing was read or written.
    ensures no_memory { IsErrOf result RunFault.NoMemory → (R.input reader.new ≡ R.input reader.old)
        × (W.output writer.new ≡ W.output writer.old) }

    // The complete lines that were read have been answered, and are as safe.
    ensures read_failed { IsErrOf result RunFault.ReadFailed → (R.input reader.new).failed ≡ true }
    ensures read_answered { IsErrOf result RunFault.ReadFailed
        → Answered (start pages files) (R.input reader.old) (R.input reader.new) (W.output writer.old)
        (W.output writer.new) }
    ensures read_safe { IsErrOf result RunFault.ReadFailed
        → RanSafely ended_text (start pages files) (R.input reader.old) (R.input reader.new) (W.output writer.old)
        (W.output writer.new) }
    ensures too_long { IsErrOf result RunFault.TooLong → ((R.input reader.new).reads ≡ MOST_READS)
        × ((R.input reader.new).failed ≡ (R.input reader.old).failed) }
    ensures long_answered { IsErrOf result RunFault.TooLong
        → Answered (start pages files) (R.input reader.old) (R.input reader.new) (W.output writer.old)
        (W.output writer.new) }
    ensures long_safe { IsErrOf result RunFault.TooLong
        → RanSafely ended_text (start pages files) (R.input reader.old) (R.input reader.new) (W.output writer.old)
        (W.output writer.new) }

    // The writer failed, and took a front of the script's text.
    ensures write_failed { IsErrOf result RunFault.WriteFailed
        → BrokeOff (start pages files) (R.input reader.old) (W.output writer.old) (W.output writer.new) }

    // However it ends, at most so many reads gave bytes.
    ensures reads { (R.input reader.new).reads ≤ MOST_READS }
{
    match native_memory(alloc, files, pages) {
        Ok((mut world, mut buffers)) => {
            let desktop = ScriptWorld { world: &mut world };
            let ended = run_script(desktop, reader, writer, &mut buffers);
            give_back(world, buffers);
            ended
        }
        Err(_) => Err(RunFault::NoMemory),
    }
}
