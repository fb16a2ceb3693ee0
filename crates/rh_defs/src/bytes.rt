//! The bytes of a `put`.

ghost use Rattle.std.specs.Prelude.{◌≡◌, ◌≤◌, length};
ghost use Rattle.rh_defs.specs.declared.sizes.TheConstants.{MOST_BYTES};

use crate::sizes::MOST_BYTES;
use arrayvec::ArrayVec;
use std::marker::Model;

/// The bytes that a `put` of a line writes: there is room for 512, of which a line spells 507 at most.
#[derive(Debug, Drop, PartialEq, Eq)]
pub struct Bytes {
    bytes: ArrayVec<u8, MOST_BYTES>,
}

impl Model for Bytes {
    ghost use Rattle.std.specs.Prelude.{ℕ, List};

    ghost Value = { List ℕ };

    ghost view = { λ b. b.bytes.items };

    ghost inverse = { λ xs. record { bytes = record { items = xs } } };
}

impl Bytes {
    /// The bytes of a `put`.
    pub fn new(bytes: ArrayVec<u8, MOST_BYTES>) -> Bytes
        ensures { result ≡ bytes.items }
    {
        Bytes { bytes }
    }

    /// The bytes as a slice.
    pub fn as_slice(&self) -> &[u8]
        ensures value { result.now ≡ self.now }
        ensures short { length self.now ≤ MOST_BYTES }
    {
        self.bytes.as_slice()
    }
}
