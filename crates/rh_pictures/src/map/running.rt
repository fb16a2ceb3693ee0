//! The map of a whole script.

ghost use Rattle.std.specs.Prelude.{◌≡◌, ◌≤◌, [], false, length, true, IfErr, IfOk, IsErrOf};
ghost use Rattle.rh_defs.specs.declared.sizes.TheConstants.{MOST_READS};
ghost use Rattle.rh_defs.specs.Desk.{Desk};
ghost use Rattle.rh_pictures.specs.Mapped.{Mapped, MappedSoFar, MappedUntil};
ghost use Rattle.rh_session.specs.declared.feeding.TheConstants.{LONGEST_SCRIPT};
ghost use Rattle.rh_figure.specs.Map.{place};
ghost use Rattle.rh_lines.specs.Flow.{unread};

use crate::drawn::Drawn;
use crate::map::mapper::Mapper;
use rh_lines::{Sink, Source, WriteFailed};
use rh_session::{Buffers, PIECE, RunFault, Status, feed_all, feed_whole, run_fault};

/// Runs a script over what can be drawn, and writes its map: each step, or marked steps alone, each before it reads
/// on. It gives up after 1,000,000 reads that gave bytes.
#[inline(never)]
pub fn map_script<D: Drawn, R: Source, W: Sink>(
    drawn: D,
    marked: bool,
    reader: &mut R,
    writer: &mut W,
    buffers: &mut Buffers,
) -> Result<Status, RunFault>
    requires { (R.input reader.old).reads ≡ 0 }

    // The whole script was read, and its map was written.
    ensures ok { IfOk result (λ status. (d : Desk) → D.spells drawn d → Mapped marked (place d 0 false)
        (R.input reader.old) (R.input reader.new) (W.output writer.old) (W.output writer.new) status) }

    // It takes no memory.
    ensures had_memory { IsErrOf result RunFault.NoMemory → ⊥ }

    // The map of the complete lines that were read has been written.
    ensures read_failed { IsErrOf result RunFault.ReadFailed → (R.input reader.new).failed ≡ true }
    ensures read_mapped { IsErrOf result RunFault.ReadFailed → (d : Desk) → D.spells drawn d
        → MappedSoFar marked (place d 0 false) (R.input reader.old) (R.input reader.new) (W.output writer.old)
        (W.output writer.new) }
    ensures too_long { IsErrOf result RunFault.TooLong → ((R.input reader.new).reads ≡ MOST_READS)
        × ((R.input reader.new).failed ≡ (R.input reader.old).failed) }
    ensures long_mapped { IsErrOf result RunFault.TooLong → (d : Desk) → D.spells drawn d
        → MappedSoFar marked (place d 0 false) (R.input reader.old) (R.input reader.new) (W.output writer.old)
        (W.output writer.new) }

    // The writer failed, and took a front of the map of some lines.
    ensures write_failed { IsErrOf result RunFault.WriteFailed → (d : Desk) → D.spells drawn d
        → MappedUntil marked (place d 0 false) (R.input reader.old) (R.input reader.new) (W.output writer.old)
        (W.output writer.new) }

    // However it ends, at most so many reads gave bytes.
    ensures reads { (R.input reader.new).reads ≤ MOST_READS }
{
    let mut mapper = Mapper::new(drawn, marked);
    let mut piece = [0; PIECE];
    match feed_all(&mut mapper, reader, &mut piece, writer, &mut buffers.held) {
        Ok(()) => Ok(mapper.status()),
        Err(fault) => Err(run_fault(fault)),
    }
}

/// Runs a script that lies in memory over what can be drawn, and writes its map: each step, or marked steps alone.
/// Fails only where the writer failed or took none of what it was offered.
pub fn map_whole<D: Drawn, W: Sink>(
    drawn: D,
    marked: bool,
    script: &[u8],
    writer: &mut W,
) -> Result<Status, WriteFailed>
    requires short { length script.now ≤ LONGEST_SCRIPT }

    // The script's map was written.
    ensures ok { IfOk result (λ status. (d : Desk) → D.spells drawn d → Mapped marked (place d 0 false)
        (unread script.now) (unread []) (W.output writer.old) (W.output writer.new) status) }

    // The writer failed, and took a front of the map of some lines.
    ensures write_failed { IfErr result (λ fault. (d : Desk) → D.spells drawn d → MappedUntil marked (place d 0 false)
        (unread script.now) (unread []) (W.output writer.old) (W.output writer.new)) }
{
    let mut mapper = Mapper::new(drawn, marked);
    feed_whole(&mut mapper, script, writer)?;
    Ok(mapper.status())
}
