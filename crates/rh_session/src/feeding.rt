//! A script read to its end, and its lines handed on.

ghost use Rattle.std.specs.Prelude.{◌≡◌, ◌<◌, ◌≤◌, ◌*◌, ◌+◌, [], ◌++◌, ℕ, List, length, true, IsErrOf, OnErr, OnOk};
ghost use Rattle.rh_defs.specs.declared.sizes.TheConstants.{MOST_READS};
ghost use Rattle.rh_defs.specs.Script.{ended};
ghost use Rattle.rh_session.specs.Lines.{kept, kept_lines, kept_rest};
ghost use Rattle.rh_session.specs.Taken.{Fed, FedAll, FedUntil, Gives, TookAll, TookFront};
ghost use Rattle.rh_lines.specs.Flow.{Puts, unread};
ghost use Rattle.rh_lines.specs.Pens.{begun_of, offered_of, text_of, writer_of};

use crate::buffers::MOST_HELD;
use crate::fault::FeedFault;
use crate::line::LineBuffer;
use crate::taker::LineTaker;
use memchr::memchr;
use rh_defs::sizes::MOST_READS;
use rh_lines::{Sink, Source, WriteFailed, WriterPen};

/// Of lines that are counted in 32 bits so many bytes are read at a time: a script has less than 2^32 bytes then.
pub const PIECE: usize = 4_096;

/// Reads a script to its end, piece by piece, and hands each of its lines to the taker; at last what stands behind the
/// last line feed. The text of each piece is held in lent bytes, and is written before it reads on. It gives up after
/// `MOST_READS` reads that gave bytes.
pub fn feed_all<T: LineTaker, R: Source, W: Sink>(
    taker: &mut T,
    reader: &mut R,
    piece: &mut [u8],
    writer: &mut W,
    held: &mut [u8],
) -> Result<(), FeedFault>
    requires fresh { (R.input reader.old).reads ≡ 0 }
    requires some { 0 < length piece.old }
    requires room { MOST_READS * length piece.old < T.room taker.old }

    // The whole script was read, and each of its lines was taken.
    ensures ok { OnOk result (FedAll T.took T.took_rest (R.input reader.old) (R.input reader.new) taker.old taker.new
        (W.output writer.old) (W.output writer.new)) }

    // The complete lines that were read have been taken.
    ensures read_failed { IsErrOf result FeedFault.ReadFailed → (R.input reader.new).failed ≡ true }
    ensures read_taken { IsErrOf result FeedFault.ReadFailed
        → Fed T.took (R.input reader.old) (R.input reader.new) taker.old taker.new (W.output writer.old)
        (W.output writer.new) }
    ensures too_long { IsErrOf result FeedFault.TooLong → ((R.input reader.new).reads ≡ MOST_READS)
        × ((R.input reader.new).failed ≡ (R.input reader.old).failed) }
    ensures long_taken { IsErrOf result FeedFault.TooLong
        → Fed T.took (R.input reader.old) (R.input reader.new) taker.old taker.new (W.output writer.old)
        (W.output writer.new) }

    // The writer failed, and took a front of what the lines gave.
    ensures write_failed { IsErrOf result FeedFault.WriteFailed
        → FedUntil T.took T.took_rest (R.input reader.old) (R.input reader.new) taker.old (W.output writer.old)
        (W.output writer.new) }

    // However it ends, at most so many reads gave bytes.
    ensures reads { (R.input reader.new).reads ≤ MOST_READS }
{
    let mut pen = WriterPen::new(writer, held);
    let mut line = LineBuffer::new();
    for _turn in 0..MOST_READS {
        let count = match reader.read(piece) {
            Ok(count) => count,
            Err(_) => return Err(FeedFault::ReadFailed),
        };
        if count == 0 {
            taker.take_rest(line.as_slice(), &mut pen);
            match pen.finish() {
                Ok(()) => return Ok(()),
                Err(_) => return Err(FeedFault::WriteFailed),
            }
        }
        match feed(taker, &mut line, &piece[..count], &mut pen) {
            Ok(()) => {}
            Err(_) => return Err(FeedFault::WriteFailed),
        }
    }
    Err(FeedFault::TooLong)
}

/// The most bytes of a script that lies in memory and whose lines are counted in 32 bits.
pub const LONGEST_SCRIPT: usize = u32::MAX as usize - 1;

/// Hands each line of a script that lies in memory to the taker, and at last what stands behind the last line feed.
/// Fails only where the writer failed or took none of what it was offered.
pub fn feed_whole<T: LineTaker, W: Sink>(
    taker: &mut T,
    script: &[u8],
    writer: &mut W,
) -> Result<(), WriteFailed>
    requires room { length script.now < T.room taker.old }

    // Each line of the script was taken.
    ensures ok { OnOk result (FedAll T.took T.took_rest (unread script.now) (unread []) taker.old taker.new
        (W.output writer.old) (W.output writer.new)) }

    // The writer failed, and took a front of what the lines gave.
    ensures write_failed { OnErr result (FedUntil T.took T.took_rest (unread script.now) (unread []) taker.old
        (W.output writer.old) (W.output writer.new)) }
{
    let mut held = [0; MOST_HELD];
    let mut pen = WriterPen::new(writer, &mut held);
    let mut line = LineBuffer::new();
    feed(taker, &mut line, script, &mut pen)?;
    taker.take_rest(line.as_slice(), &mut pen);
    pen.finish()
}

/// Hands on each line that ends in these bytes until the writer has failed, keeps the rest of them, and writes what the
/// lines gave. Before them stood a front of a line, of which `line` has what counts.
fn feed<T: LineTaker, W: Sink>(
    taker: &mut T,
    line: &mut LineBuffer,
    bytes: &[u8],
    pen: &mut WriterPen<'_, W>,
) -> Result<(), WriteFailed>
    requires { length bytes.now ≤ T.room taker.old }
    ensures taken { (front : List ℕ) → ended front ≡ [] → line.old ≡ kept front → OnOk result
        (Gives (TookAll T.took taker.old (kept_lines (front ++ bytes.now)) taker.new) (offered_of pen.old)
        (offered_of pen.new)) }
    ensures rest { (front : List ℕ) → ended front ≡ [] → line.old ≡ kept front → OnOk result
        (line.new ≡ kept_rest (front ++ bytes.now)) }
    ensures stopped { (front : List ℕ) → ended front ≡ [] → line.old ≡ kept front → OnErr result
        (Gives (TookFront T.took taker.old (front ++ bytes.now)) (offered_of pen.old) (offered_of pen.new)) }
    ensures written { Puts (begun_of pen.new) (W.output (writer_of pen.new).now) result (text_of pen.new) }
    ensures room { OnOk result (T.room taker.old ≤ T.room taker.new + length bytes.now) }
{
    let mut rest = bytes;
    while let Some(end) = memchr(b'\n', rest) {
        pen.check()?;
        taker.take_line(line.whole(&rest[..end]), pen);
        line.clear();
        rest = &rest[end..][1..];
    }
    line.add(rest);
    pen.finish()
}
