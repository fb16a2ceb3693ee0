//! What replies are written to, and whole writes.

ghost use Rattle.std.specs.Prelude.{◌≡◌, length, ◌||◌};
ghost use Rattle.std.specs.Io.{WritesAtMost};
ghost use Rattle.std.specs.Io.KnownBytes.{WriteAppends};
ghost use Rattle.rh_lines.specs.Flow.{Output, bytes_taken, count_after, write_failed, Puts};

use thiserror::Error;

/// The writer failed, or took none of the bytes that it was offered.
#[derive(Clone, Copy, Debug, PartialEq, Eq, Error)]
#[error("write failed")]
pub struct WriteFailed;

/// What bytes are written to.
pub trait Sink {
    // The bytes taken so far, their count, and whether a call failed.
    ghost output: { Self → Output };

    /// Takes some of the bytes from the front, and says how many. Fails only where the writer
    /// does; a flag stays set once it failed, or took none of the bytes that it was offered.
    fn write(&mut self, bytes: &[u8]) -> Result<usize, WriteFailed>
        ensures bound { WritesAtMost result bytes.now }
        ensures taken { WriteAppends (output self.old).taken (output self.new).taken result bytes.now }
        ensures counted { (output self.new).count ≡ count_after (output self.old).count (bytes_taken result) }
        ensures failed { (output self.new).failed ≡ ((output self.old).failed || write_failed result
            (length bytes.now)) };
}

/// Writes all of the bytes. Fails only where the writer failed or took none of what it was
/// offered; a front of the bytes is then written.
pub fn put<W: Sink>(writer: &mut W, bytes: &[u8]) -> Result<(), WriteFailed>
    ensures { Puts (W.output writer.old) (W.output writer.new) result bytes.now }
{
    let mut rest = bytes;
    while !rest.is_empty() {
        let taken = writer.write(rest)?;
        if taken == 0 {
            return Err(WriteFailed);
        }
        rest = &rest[taken..];
    }
    Ok(())
}
