//! What a script and its text pass through.

ghost use Rattle.std.specs.Prelude.{◌≡◌, replicate};
ghost use Rattle.rh_session.specs.declared.buffers.TheConstants.{LONGEST_PIECE, MOST_HELD};

/// A script is read in pieces of at most so many bytes.
pub const LONGEST_PIECE: usize = 65_536;

/// So many bytes of text are held before they are written.
pub const MOST_HELD: usize = 65_536;

/// The bytes that a run works with beside its desk: a piece of the script, and the text that waits to be written. They
/// are more than a small stack has, so that they are lent.
#[derive(Drop)]
pub struct Buffers {
    pub piece: [u8; LONGEST_PIECE],
    pub held: [u8; MOST_HELD],
}

impl Buffers {
    /// All bytes are 0.
    pub fn new() -> Buffers
        ensures piece { result.piece ≡ replicate LONGEST_PIECE 0 }
        ensures held { result.held ≡ replicate MOST_HELD 0 }
    {
        Buffers {
            piece: [0; LONGEST_PIECE],
            held: [0; MOST_HELD],
        }
    }
}
