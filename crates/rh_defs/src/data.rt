//! The data of message blocks.

ghost use Rattle.std.specs.Prelude.{◌≡◌, ◌≤◌, length};
ghost use Rattle.rh_defs.specs.declared.sizes.TheConstants.{LONGEST_DATA};
ghost use Rattle.rh_defs.specs.OtherBodies.{is_whole};

use crate::sizes::{LONGEST_DATA, WORD};
use arrayvec::ArrayVec;
use std::marker::Model;

/// What stands in a message block behind the action: at most 236 bytes, which are whole words in a message.
#[derive(Debug, Drop, PartialEq, Eq)]
pub struct Data {
    bytes: ArrayVec<u8, LONGEST_DATA>,
}

impl Model for Data {
    ghost use Rattle.std.specs.Prelude.{ℕ, List};

    ghost Value = { List ℕ };

    ghost view = { λ d. d.bytes.items };

    ghost inverse = { λ xs. record { bytes = record { items = xs } } };
}

impl Data {
    /// The data with these bytes.
    pub fn new(bytes: ArrayVec<u8, LONGEST_DATA>) -> Data
        ensures { result ≡ bytes.items }
    {
        Data { bytes }
    }

    /// The bytes as a slice.
    pub fn as_slice(&self) -> &[u8]
        ensures value { result.now ≡ self.now }
        ensures short { length self.now ≤ LONGEST_DATA }
    {
        self.bytes.as_slice()
    }

    /// Whether these are whole words, as many as a message block has room for.
    pub fn is_whole(&self) -> bool
        ensures { result ≡ is_whole self.now }
    {
        self.bytes.len() % WORD == 0
    }

    /// The data once more, which takes no memory.
    pub fn copied(&self) -> Data
        ensures { result ≡ self.now }
    {
        let mut bytes = ArrayVec::new();
        bytes.try_extend_from_slice(self.bytes.as_slice()).unwrap();
        Data { bytes }
    }
}
