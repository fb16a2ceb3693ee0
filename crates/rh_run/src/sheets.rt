//! The sheet of a whole script over a fresh desk.

ghost use Rattle.std.specs.Prelude.{◌≡◌, ◌≤◌, true, IfOk, IfSome, IsErrOf};
ghost use Rattle.rh_defs.specs.Memory.{fresh};
ghost use Rattle.rh_defs.specs.Runs.{start};
ghost use Rattle.rh_defs.specs.declared.sizes.TheConstants.{MAX_PAGES, MIN_PAGES, MOST_READS};
ghost use Rattle.rh_pictures.specs.LensSizes.{IsLensSize};
ghost use Rattle.rh_pictures.specs.Painted.{Painted, PaintedSoFar, PaintedUntil};

use crate::native::{give_back, native_memory};
use crate::world::ScriptWorld;
use rh_defs::Files;
use rh_lines::{Sink, Source};
use rh_pictures::{SheetForm, paint_script};
use rh_session::{Buffers, RunFault, Status};
use rh_store::Sited;
use rh_tasks::{NamedFiles, World};
use std::alloc::Global;

/// Runs a script with a name over a fresh desk on a store that nobody has used, of 8 to 1,024 pages, and writes its
/// sheet: its beginning, and each step, or marked steps alone, each before it reads on. It takes no memory, and gives
/// up after 1,000,000 reads that gave bytes.
pub fn sheet_over<S: Sited + Drop, F: NamedFiles + Drop, R: Source, W: Sink>(
    store: S,
    files: F,
    reader: &mut R,
    writer: &mut W,
    form: SheetForm,
    name: &[u8],
    buffers: &mut Buffers,
) -> Result<Status, RunFault>
    requires fresh { S.memory store ≡ fresh (S.memory store).pages }
    requires least { MIN_PAGES ≤ (S.memory store).pages }
    requires most { (S.memory store).pages ≤ MAX_PAGES }
    requires unread { (R.input reader.old).reads ≡ 0 }
    requires lens { IfSome form.lens IsLensSize }

    // The whole script was read, and its sheet was written.
    ensures ok { IfOk result (λ status. Painted form name.now (start (S.memory store).pages (F.contents files))
        (R.input reader.old) (R.input reader.new) (W.output writer.old) (W.output writer.new) status) }

    // It takes no memory.
    ensures had_memory { IsErrOf result RunFault.NoMemory → ⊥ }

    // The sheet of the complete lines that were read has been written, without its end.
    ensures read_failed { IsErrOf result RunFault.ReadFailed → (R.input reader.new).failed ≡ true }
    ensures read_painted { IsErrOf result RunFault.ReadFailed
        → PaintedSoFar form name.now (start (S.memory store).pages (F.contents files)) (R.input reader.old)
        (R.input reader.new) (W.output writer.old) (W.output writer.new) }
    ensures too_long { IsErrOf result RunFault.TooLong → ((R.input reader.new).reads ≡ MOST_READS)
        × ((R.input reader.new).failed ≡ (R.input reader.old).failed) }
    ensures long_painted { IsErrOf result RunFault.TooLong → PaintedSoFar form name.now (start (S.memory store).pages
        (F.contents files)) (R.input reader.old) (R.input reader.new) (W.output writer.old) (W.output writer.new) }

    // The writer failed, and took a front of the sheet of some lines.
    ensures write_failed { IsErrOf result RunFault.WriteFailed
        → PaintedUntil form name.now (start (S.memory store).pages (F.contents files)) (R.input reader.old)
        (R.input reader.new) (W.output writer.old) (W.output writer.new) }

    // However it ends, at most so many reads gave bytes.
    ensures reads { (R.input reader.new).reads ≤ MOST_READS }
{
    let mut world = World::new(store, files);
    let world = ScriptWorld { world: &mut world };
    paint_script(world, form, name, reader, writer, buffers)
}

/// Runs a script with a name over a fresh desk of 8 to 1,024 pages, and writes its sheet: its beginning, and each step,
/// or marked steps alone, each before it reads on. It takes memory before it writes or reads only, and gives up after
/// 1,000,000 reads that gave bytes.
#[inline(never)]
pub fn draw_sheet<R: Source, W: Sink>(
    alloc: Global,
    files: Files,
    reader: &mut R,
    writer: &mut W,
    pages: u32,
    form: SheetForm,
    name: &[u8],
) -> Result<Status, RunFault>
    requires least { MIN_PAGES ≤ pages }
    requires most { pages ≤ MAX_PAGES }
    requires fresh { (R.input reader.old).reads ≡ 0 }
    requires lens { IfSome form.lens IsLensSize }

    // The whole script was read, and its sheet was written.
    ensures ok { IfOk result (λ status. Painted form name.now (start pages files) (R.input reader.old)
        (R.input reader.new) (W.output writer.old) (W.output writer.new) status) }

    // Nothing was read or written.
    ensures no_memory { IsErrOf result RunFault.NoMemory → (R.input reader.new ≡ R.input reader.old)
        × (W.output writer.new ≡ W.output writer.old) }

    // The sheet of the complete lines that were read has been written, without its end.
    ensures read_failed { IsErrOf result RunFault.ReadFailed → (R.input reader.new).failed ≡ true }
    ensures read_painted { IsErrOf result RunFault.ReadFailed
        → PaintedSoFar form name.now (start pages files) (R.input reader.old) (R.input reader.new)
        (W.output writer.old) (W.output writer.new) }
    ensures too_long { IsErrOf result RunFault.TooLong → ((R.input reader.new).reads ≡ MOST_READS)
        × ((R.input reader.new).failed ≡ (R.input reader.old).failed) }
    ensures long_painted { IsErrOf result RunFault.TooLong
        → PaintedSoFar form name.now (start pages files) (R.input reader.old) (R.input reader.new)
        (W.output writer.old) (W.output writer.new) }

    // The writer failed, and took a front of the sheet of some lines.
    ensures write_failed { IsErrOf result RunFault.WriteFailed
        → PaintedUntil form name.now (start pages files) (R.input reader.old) (R.input reader.new)
        (W.output writer.old) (W.output writer.new) }

    // However it ends, at most so many reads gave bytes.
    ensures reads { (R.input reader.new).reads ≤ MOST_READS }
{
    match native_memory(alloc, files, pages) {
        Ok((mut world, mut buffers)) => {
            let desktop = ScriptWorld { world: &mut world };
            let ended = paint_script(desktop, form, name, reader, writer, &mut buffers);
            give_back(world, buffers);
            ended
        }
        Err(_) => Err(RunFault::NoMemory),
    }
}
