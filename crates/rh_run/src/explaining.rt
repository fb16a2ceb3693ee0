//! The explanations of a whole script over a fresh desk.

ghost use Rattle.std.specs.Prelude.{◌≡◌, ◌≤◌, [], length, true, IfErr, IfOk, IsErrOf};
ghost use Rattle.rh_defs.specs.Memory.{fresh};
ghost use Rattle.rh_defs.specs.Runs.{start};
ghost use Rattle.rh_defs.specs.declared.sizes.TheConstants.{MAX_PAGES, MIN_PAGES, MOST_READS};
ghost use Rattle.rh_explained.specs.Explained.{Explained, ExplainedSoFar, ExplainedUntil};
ghost use Rattle.rh_lines.specs.Flow.{unread};
ghost use Rattle.rh_session.specs.declared.feeding.TheConstants.{LONGEST_SCRIPT};

use crate::native::{give_back, native_memory};
use crate::world::ScriptWorld;
use rh_defs::{Anchor, Files, Incoming, Name, Outgoing};
use rh_explained::{DeskFacts, explain_script, explain_whole};
use rh_lines::{Sink, Source, WriteFailed};
use rh_session::{Buffers, RunFault, Status};
use rh_store::Store;
use rh_tasks::{NamedFiles, World};
use std::alloc::Global;

impl<'a, S: Store + Drop, F: NamedFiles + Drop> DeskFacts for ScriptWorld<'a, S, F> {
    fn transfers(&self, name: &Name) -> Option<(&[Outgoing], &[Incoming])> {
        match self.world.status(name) {
            Ok((_, sending, taking)) => Some((sending, taking)),
            Err(_) => None,
        }
    }

    fn block_size(&self, name: &Name, anchor: Anchor) -> Option<u32> {
        if !anchor.is_valid() {
            return None;
        }
        self.world.show(name, anchor, 0, &mut []).ok()
    }

    fn free_pages(&self) -> u32 {
        self.world.free_pages()
    }
}

/// Runs a script over a fresh desk on a store that nobody has used, of 8 to 1,024 pages, and explains each bad line and
/// each refused command before it reads on. It takes no memory, and gives up after 1,000,000 reads that gave bytes.
pub fn explain_over<S: Store + Drop, F: NamedFiles + Drop, R: Source, W: Sink>(
    store: S,
    files: F,
    reader: &mut R,
    writer: &mut W,
    buffers: &mut Buffers,
) -> Result<Status, RunFault>
    requires fresh { S.memory store ≡ fresh (S.memory store).pages }
    requires least { MIN_PAGES ≤ (S.memory store).pages }
    requires most { (S.memory store).pages ≤ MAX_PAGES }
    requires unread { (R.input reader.old).reads ≡ 0 }

    // The whole script was read, and its explanations were written.
    ensures ok { IfOk result (λ status. Explained (start (S.memory store).pages (F.contents files)) (R.input reader.old)
        (R.input reader.new) (W.output writer.old) (W.output writer.new) status) }

    // It takes no memory.
    ensures had_memory { IsErrOf result RunFault.NoMemory → ⊥ }

    // The complete lines that were read have been explained.
    ensures read_failed { IsErrOf result RunFault.ReadFailed → (R.input reader.new).failed ≡ true }
    ensures read_explained { IsErrOf result RunFault.ReadFailed
        → ExplainedSoFar (start (S.memory store).pages (F.contents files)) (R.input reader.old) (R.input reader.new)
        (W.output writer.old) (W.output writer.new) }
    ensures too_long { IsErrOf result RunFault.TooLong → ((R.input reader.new).reads ≡ MOST_READS)
        × ((R.input reader.new).failed ≡ (R.input reader.old).failed) }
    ensures long_explained { IsErrOf result RunFault.TooLong → ExplainedSoFar (start (S.memory store).pages
        (F.contents files)) (R.input reader.old) (R.input reader.new) (W.output writer.old) (W.output writer.new) }

    // The writer failed, and took a front of the script's explanations.
    ensures write_failed { IsErrOf result RunFault.WriteFailed
        → ExplainedUntil (start (S.memory store).pages (F.contents files)) (R.input reader.old) (W.output writer.old)
        (W.output writer.new) }

    // However it ends, at most so many reads gave bytes.
    ensures reads { (R.input reader.new).reads ≤ MOST_READS }
{
    let mut world = World::new(store, files);
    let world = ScriptWorld { world: &mut world };
    explain_script(world, reader, writer, buffers)
}

/// Runs a script over a fresh desk of 8 to 1,024 pages, and explains each bad line and each refused command before it
/// reads on. It takes memory before its first read only, and gives up after 1,000,000 reads that gave bytes.
#[inline(never)]
pub fn explain<R: Source, W: Sink>(
    alloc: Global,
    files: Files,
    reader: &mut R,
    writer: &mut W,
    pages: u32,
) -> Result<Status, RunFault>
    requires least { MIN_PAGES ≤ pages }
    requires most { pages ≤ MAX_PAGES }
    requires fresh { (R.input reader.old).reads ≡ 0 }

    // The whole script was read, and its explanations were written.
    ensures ok { IfOk result (λ status. Explained (start pages files) (R.input reader.old) (R.input reader.new)
        (W.output writer.old) (W.output writer.new) status) }

    // Nothing was read or written.
    ensures no_memory { IsErrOf result RunFault.NoMemory → (R.input reader.new ≡ R.input reader.old)
        × (W.output writer.new ≡ W.output writer.old) }

    // The complete lines that were read have been explained.
    ensures read_failed { IsErrOf result RunFault.ReadFailed → (R.input reader.new).failed ≡ true }
    ensures read_explained { IsErrOf result RunFault.ReadFailed
        → ExplainedSoFar (start pages files) (R.input reader.old) (R.input reader.new) (W.output writer.old)
        (W.output writer.new) }
    ensures too_long { IsErrOf result RunFault.TooLong → ((R.input reader.new).reads ≡ MOST_READS)
        × ((R.input reader.new).failed ≡ (R.input reader.old).failed) }
    ensures long_explained { IsErrOf result RunFault.TooLong
        → ExplainedSoFar (start pages files) (R.input reader.old) (R.input reader.new) (W.output writer.old)
        (W.output writer.new) }

    // The writer failed, and took a front of the script's explanations.
    ensures write_failed { IsErrOf result RunFault.WriteFailed
        → ExplainedUntil (start pages files) (R.input reader.old) (W.output writer.old) (W.output writer.new) }

    // However it ends, at most so many reads gave bytes.
    ensures reads { (R.input reader.new).reads ≤ MOST_READS }
{
    match native_memory(alloc, files, pages) {
        Ok((mut world, mut buffers)) => {
            let desktop = ScriptWorld { world: &mut world };
            let ended = explain_script(desktop, reader, writer, &mut buffers);
            give_back(world, buffers);
            ended
        }
        Err(_) => Err(RunFault::NoMemory),
    }
}

/// Explains a script that lies in memory, over a store that nobody has used, of 8 to 1,024 pages. It takes no
/// memory, and fails only where the writer failed or took none of what it was offered.
pub fn explanations_of<S: Store + Drop, F: NamedFiles + Drop, W: Sink>(
    store: S,
    files: F,
    script: &[u8],
    writer: &mut W,
) -> Result<Status, WriteFailed>
    requires fresh { S.memory store ≡ fresh (S.memory store).pages }
    requires least { MIN_PAGES ≤ (S.memory store).pages }
    requires most { (S.memory store).pages ≤ MAX_PAGES }
    requires short { length script.now ≤ LONGEST_SCRIPT }

    // The script's explanations were written.
    ensures ok { IfOk result (λ status. Explained (start (S.memory store).pages (F.contents files)) (unread script.now)
        (unread []) (W.output writer.old) (W.output writer.new) status) }

    // The writer failed, and took a front of the script's explanations.
    ensures write_failed { IfErr result (λ fault. ExplainedUntil (start (S.memory store).pages (F.contents files))
        (unread script.now) (W.output writer.old) (W.output writer.new)) }
{
    let mut world = World::new(store, files);
    let world = ScriptWorld { world: &mut world };
    explain_whole(world, script, writer)
}
