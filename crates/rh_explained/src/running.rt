//! The explanations of a whole script.

ghost use Rattle.std.specs.Prelude.{◌≡◌, ◌≤◌, [], length, true, IfErr, IfOk, IsErrOf};
ghost use Rattle.rh_defs.specs.declared.sizes.TheConstants.{MOST_READS};
ghost use Rattle.rh_defs.specs.Desk.{Desk};
ghost use Rattle.rh_explained.specs.Explained.{Explained, ExplainedSoFar, ExplainedUntil};
ghost use Rattle.rh_session.specs.declared.feeding.TheConstants.{LONGEST_SCRIPT};
ghost use Rattle.rh_lines.specs.Flow.{unread};

use crate::desk_facts::DeskFacts;
use crate::explainer::Explainer;
use rh_lines::{Sink, Source, WriteFailed};
use rh_session::{Buffers, PIECE, RunFault, Status, feed_all, feed_whole, run_fault};

/// Runs a script over a desktop, and explains each bad line and each refused command before it reads on. It gives up
/// after 1,000,000 reads that gave bytes.
pub fn explain_script<D: DeskFacts, R: Source, W: Sink>(
    desktop: D,
    reader: &mut R,
    writer: &mut W,
    buffers: &mut Buffers,
) -> Result<Status, RunFault>
    requires { (R.input reader.old).reads ≡ 0 }

    // The whole script was read, and its explanations were written.
    ensures ok { IfOk result (λ status. (d : Desk) → D.spells desktop d → Explained d (R.input reader.old)
        (R.input reader.new) (W.output writer.old) (W.output writer.new) status) }

    // It takes no memory.
    ensures had_memory { IsErrOf result RunFault.NoMemory → ⊥ }

    // The complete lines that were read have been explained.
    ensures read_failed { IsErrOf result RunFault.ReadFailed → (R.input reader.new).failed ≡ true }
    ensures read_explained { IsErrOf result RunFault.ReadFailed → (d : Desk) → D.spells desktop d
        → ExplainedSoFar d (R.input reader.old) (R.input reader.new) (W.output writer.old) (W.output writer.new) }
    ensures too_long { IsErrOf result RunFault.TooLong → ((R.input reader.new).reads ≡ MOST_READS)
        × ((R.input reader.new).failed ≡ (R.input reader.old).failed) }
    ensures long_explained { IsErrOf result RunFault.TooLong → (d : Desk) → D.spells desktop d
        → ExplainedSoFar d (R.input reader.old) (R.input reader.new) (W.output writer.old) (W.output writer.new) }

    // The writer failed, and took a front of the script's explanations.
    ensures write_failed { IsErrOf result RunFault.WriteFailed → (d : Desk) → D.spells desktop d
        → ExplainedUntil d (R.input reader.old) (W.output writer.old) (W.output writer.new) }

    // However it ends, at most so many reads gave bytes.
    ensures reads { (R.input reader.new).reads ≤ MOST_READS }
{
    let mut explainer = Explainer::new(desktop);
    let mut piece = [0; PIECE];
    match feed_all(
        &mut explainer,
        reader,
        &mut piece,
        writer,
        &mut buffers.held,
    ) {
        Ok(()) => Ok(explainer.status()),
        Err(fault) => Err(run_fault(fault)),
    }
}

/// Runs a script that lies in memory over a desktop, and explains each bad line and each refused command. Fails only
/// where the writer failed or took none of what it was offered.
pub fn explain_whole<D: DeskFacts, W: Sink>(
    desktop: D,
    script: &[u8],
    writer: &mut W,
) -> Result<Status, WriteFailed>
    requires short { length script.now ≤ LONGEST_SCRIPT }

    // The script's explanations were written.
    ensures ok { IfOk result (λ status. (d : Desk) → D.spells desktop d → Explained d (unread script.now) (unread [])
        (W.output writer.old) (W.output writer.new) status) }

    // The writer failed, and took a front of the script's explanations.
    ensures write_failed { IfErr result (λ fault. (d : Desk) → D.spells desktop d → ExplainedUntil d
        (unread script.now) (W.output writer.old) (W.output writer.new)) }
{
    let mut explainer = Explainer::new(desktop);
    feed_whole(&mut explainer, script, writer)?;
    Ok(explainer.status())
}
