//! What a script is read from.

ghost use Rattle.std.specs.Prelude.{◌≡◌, ◌||◌, is_err, IfOk, OnErr};
ghost use Rattle.std.specs.Io.{ReadsAtMost};
ghost use Rattle.std.specs.Io.KnownBytes.{ReadConsumes};
ghost use Rattle.rh_lines.specs.Flow.{Input, reads_after};

use thiserror::Error;

/// The reader failed.
#[derive(Clone, Copy, Debug, PartialEq, Eq, Error)]
#[error("read failed")]
pub struct ReadFailed;

/// What bytes are read from.
pub trait Source {
    // The bytes left, whether a call failed, and how many reads gave bytes.
    ghost input: { Self → Input };

    /// Fills the front of the buffer with the next bytes, and says how many: none, for a buffer
    /// with room, only at the end. Fails only where the reader does, and then a flag stays set.
    fn read(&mut self, buffer: &mut [u8]) -> Result<usize, ReadFailed>
        ensures bound { ReadsAtMost result buffer.new }
        ensures left { ReadConsumes (input self.old).left (input self.new).left result buffer.new }
        ensures failed { (input self.new).failed ≡ ((input self.old).failed || is_err result) }
        ensures given { IfOk result (λ n. (input self.new).reads ≡ reads_after (input self.old).reads n) }
        ensures none { OnErr result ((input self.new).reads ≡ (input self.old).reads) };
}
