//! A short text that is built from its end.

ghost use Rattle.std.specs.Prelude.{◌≡◌, ◌<◌, [], ◌∷◌, length};
ghost use Rattle.rh_lines.specs.declared.suffix.TheConstants.{SUFFIX};

use std::marker::Model;

/// A suffix has room for so many bytes.
pub const SUFFIX: usize = 16;

/// The end of a line, of up to 16 bytes, while it is built from its last byte on. It takes no memory.
#[derive(Drop)]
pub struct Suffix {
    bytes: [u8; SUFFIX],
    at: usize,
}

impl Model for Suffix {
    ghost use Rattle.std.specs.Prelude.{List, ℕ, drop, ◌≤◌};
    ghost use Rattle.rh_lines.specs.declared.suffix.TheConstants.{SUFFIX};

    ghost Value = { List ℕ };

    ghost view = { λ s. drop s.at s.bytes };

    ghost invariant = { λ s. s.at ≤ SUFFIX };
}

impl Suffix {
    /// No bytes.
    #[inline(always)]
    pub fn new() -> Suffix
        ensures { result ≡ [] }
    {
        Suffix {
            bytes: [0; SUFFIX],
            at: SUFFIX,
        }
    }

    /// The bytes so far.
    #[inline(always)]
    pub fn as_slice(&self) -> &[u8]
        ensures { result.now ≡ self.now }
    {
        &self.bytes[self.at..]
    }

    /// Puts a byte before the others.
    #[inline(always)]
    pub fn byte(&mut self, byte: u8)
        requires { length self.old < SUFFIX }
        ensures { self.new ≡ byte ∷ self.old }
    {
        let at = self.at - 1;
        self.bytes[at] = byte;
        self.at = at;
    }
}
