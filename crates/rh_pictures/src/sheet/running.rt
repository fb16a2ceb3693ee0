//! The sheet of a whole script.

ghost use Rattle.std.specs.Prelude.{◌≡◌, ◌≤◌, [], length, true, IfErr, IfOk, IfSome, IsErrOf};
ghost use Rattle.rh_defs.specs.declared.sizes.TheConstants.{MOST_READS};
ghost use Rattle.rh_defs.specs.Desk.{Desk};
ghost use Rattle.rh_session.specs.declared.feeding.TheConstants.{LONGEST_SCRIPT};
ghost use Rattle.rh_lines.specs.Flow.{unread};
ghost use Rattle.rh_pictures.specs.LensSizes.{IsLensSize};
ghost use Rattle.rh_pictures.specs.Painted.{Painted, PaintedSoFar, PaintedUntil};

use crate::drawn::Drawn;
use crate::sheet::form::SheetForm;
use crate::sheet::painter::Painter;
use rh_lines::{Sink, Source, WriteFailed};
use rh_session::{Buffers, PIECE, RunFault, Status, feed_all, feed_whole, run_fault};

/// Runs a script with a name over what can be drawn, and writes its sheet: its beginning, and each step, or marked
/// steps alone, each before it reads on, with areas drawn as its form says. It gives up after 1,000,000 reads that gave
/// bytes.
#[inline(never)]
pub fn paint_script<D: Drawn, R: Source, W: Sink>(
    drawn: D,
    form: SheetForm,
    name: &[u8],
    reader: &mut R,
    writer: &mut W,
    buffers: &mut Buffers,
) -> Result<Status, RunFault>
    requires fresh { (R.input reader.old).reads ≡ 0 }
    requires lens { IfSome form.lens IsLensSize }

    // The whole script was read, and its sheet was written.
    ensures ok { IfOk result (λ status. (d : Desk) → D.spells drawn d →
        Painted form name.now d (R.input reader.old) (R.input reader.new) (W.output writer.old)
        (W.output writer.new) status) }

    // It takes no memory.
    ensures had_memory { IsErrOf result RunFault.NoMemory → ⊥ }

    // The sheet of the complete lines that were read has been written, without its end.
    ensures read_failed { IsErrOf result RunFault.ReadFailed → (R.input reader.new).failed ≡ true }
    ensures read_painted { IsErrOf result RunFault.ReadFailed → (d : Desk) → D.spells drawn d →
        PaintedSoFar form name.now d (R.input reader.old) (R.input reader.new) (W.output writer.old)
        (W.output writer.new) }
    ensures too_long { IsErrOf result RunFault.TooLong →
        ((R.input reader.new).reads ≡ MOST_READS) × ((R.input reader.new).failed ≡ (R.input reader.old).failed) }
    ensures long_painted { IsErrOf result RunFault.TooLong → (d : Desk) → D.spells drawn d →
        PaintedSoFar form name.now d (R.input reader.old) (R.input reader.new) (W.output writer.old)
        (W.output writer.new) }

    // The writer failed, and took a front of the sheet of some lines.
    ensures write_failed { IsErrOf result RunFault.WriteFailed → (d : Desk) → D.spells drawn d →
        PaintedUntil form name.now d (R.input reader.old) (R.input reader.new) (W.output writer.old)
        (W.output writer.new) }

    // However it ends, at most so many reads gave bytes.
    ensures reads { (R.input reader.new).reads ≤ MOST_READS }
{
    let mut painter = Painter::new(drawn, form);
    if painter.begin(name, writer).is_err() {
        return Err(RunFault::WriteFailed);
    }
    let mut piece = [0; PIECE];
    match feed_all(&mut painter, reader, &mut piece, writer, &mut buffers.held) {
        Ok(()) => Ok(painter.status()),
        Err(fault) => Err(run_fault(fault)),
    }
}

/// Runs a script with a name that lies in memory over what can be drawn, and writes its sheet: its beginning, and each
/// step, or marked steps alone. Fails only where the writer failed or took none of what it was offered.
pub fn paint_whole<D: Drawn, W: Sink>(
    drawn: D,
    form: SheetForm,
    name: &[u8],
    script: &[u8],
    writer: &mut W,
) -> Result<Status, WriteFailed>
    requires short { length script.now ≤ LONGEST_SCRIPT }
    requires lens { IfSome form.lens IsLensSize }

    // The script's sheet was written.
    ensures ok { IfOk result (λ status. (d : Desk) → D.spells drawn d →
        Painted form name.now d (unread script.now) (unread []) (W.output writer.old) (W.output writer.new) status) }

    // The writer failed, and took a front of the sheet of some lines.
    ensures write_failed { IfErr result (λ fault. (d : Desk) → D.spells drawn d →
        PaintedUntil form name.now d (unread script.now) (unread []) (W.output writer.old) (W.output writer.new)) }
{
    let mut painter = Painter::new(drawn, form);
    painter.begin(name, writer)?;
    feed_whole(&mut painter, script, writer)?;
    Ok(painter.status())
}
