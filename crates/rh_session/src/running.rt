//! A run of a whole script.

ghost use Rattle.std.specs.Prelude.{◌≡◌, ◌≤◌, [], true, IfErr, IfOk, IsErrOf};
ghost use Rattle.rh_defs.specs.declared.sizes.TheConstants.{MOST_READS};
ghost use Rattle.rh_defs.specs.Desk.{Desk};
ghost use Rattle.rh_lines.specs.Flow.{unread};
ghost use Rattle.rh_session.specs.Outcome.{Answered, Finished, BrokeOff};

use crate::buffers::Buffers;
use crate::desktop::Desktop;
use crate::feeding::{feed_all, feed_whole};
use crate::session::Session;
use crate::status::{RunFault, Status, run_fault};
use rh_lines::{Sink, Source, WriteFailed};

/// Runs a script over a desktop, and writes the answer of each line before it reads on.
/// It gives up after `MOST_READS` reads that gave bytes.
pub fn run_script<D: Desktop, R: Source, W: Sink>(
    desktop: D,
    reader: &mut R,
    writer: &mut W,
    buffers: &mut Buffers,
) -> Result<Status, RunFault>
    requires { (R.input reader.old).reads ≡ 0 }

    // The whole script was read, and its text was written.
    ensures ok { IfOk result (λ status. (d : Desk) → D.spells desktop d → Finished d (R.input reader.old)
        (R.input reader.new) (W.output writer.old) (W.output writer.new) status) }

    // It takes no memory.
    ensures had_memory { IsErrOf result RunFault.NoMemory → ⊥ }

    // The complete lines that were read have been answered.
    ensures read_failed { IsErrOf result RunFault.ReadFailed → (R.input reader.new).failed ≡ true }
    ensures read_answered { IsErrOf result RunFault.ReadFailed → (d : Desk) → D.spells desktop d
        → Answered d (R.input reader.old) (R.input reader.new) (W.output writer.old) (W.output writer.new) }
    ensures too_long { IsErrOf result RunFault.TooLong → ((R.input reader.new).reads ≡ MOST_READS)
        × ((R.input reader.new).failed ≡ (R.input reader.old).failed) }
    ensures long_answered { IsErrOf result RunFault.TooLong → (d : Desk) → D.spells desktop d
        → Answered d (R.input reader.old) (R.input reader.new) (W.output writer.old) (W.output writer.new) }

    // The writer failed, and took a front of the script's text.
    ensures write_failed { IsErrOf result RunFault.WriteFailed → (d : Desk) → D.spells desktop d
        → BrokeOff d (R.input reader.old) (W.output writer.old) (W.output writer.new) }

    // However it ends, at most so many reads gave bytes.
    ensures reads { (R.input reader.new).reads ≤ MOST_READS }
{
    let mut session = Session::new(desktop);
    let piece = &mut buffers.piece;
    match feed_all(&mut session, reader, piece, writer, &mut buffers.held) {
        Ok(()) => Ok(session.status()),
        Err(fault) => Err(run_fault(fault)),
    }
}

/// Runs a script that lies in memory over a desktop, and writes the answer of each line. Fails only where the writer
/// failed or took none of what it was offered.
pub fn run_whole<D: Desktop, W: Sink>(
    desktop: D,
    script: &[u8],
    writer: &mut W,
) -> Result<Status, WriteFailed>
    // The script's text was written.
    ensures ok { IfOk result (λ status. (d : Desk) → D.spells desktop d → Finished d (unread script.now) (unread [])
        (W.output writer.old) (W.output writer.new) status) }

    // The writer failed, and took a front of the script's text.
    ensures write_failed { IfErr result (λ fault. (d : Desk) → D.spells desktop d → BrokeOff d (unread script.now)
        (W.output writer.old) (W.output writer.new)) }
{
    let mut session = Session::new(desktop);
    feed_whole(&mut session, script, writer)?;
    Ok(session.status())
}
