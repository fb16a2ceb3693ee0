//! The names that file messages carry.

ghost use Rattle.std.specs.Prelude.{◌≡◌, ◌↔◌, ◌≤◌, true, length, IsSome, IfSome};
ghost use Rattle.rh_defs.specs.Pathnames.{is_pathname, is_plain as is_plain_of};

use crate::sizes::LONGEST_PATHNAME;
use arrayvec::ArrayVec;
use std::marker::Model;

/// A leafname or pathname in a message: as many bytes as its message has room for, none of them 0.
#[derive(Debug, Drop, PartialEq, Eq)]
pub struct Pathname {
    bytes: ArrayVec<u8, LONGEST_PATHNAME>,
}

impl Model for Pathname {
    ghost use Rattle.std.specs.Prelude.{◌≡◌, ℕ, List, true};
    ghost use Rattle.rh_defs.specs.Pathnames.{is_pathname};

    ghost Value = { List ℕ };

    ghost view = { λ p. p.bytes.items };

    ghost inverse = { λ xs. record { bytes = record { items = xs } } };

    ghost invariant = { λ p. is_pathname p.bytes.items ≡ true };
}

fn is_plain(bytes: &[u8]) -> bool
    ensures { result ≡ is_plain_of bytes.now }
{
    bytes.iter().all(|b| 0 < *b)
}

impl Pathname {
    /// The name with these bytes: none where there are more than the most, or one of them is 0.
    pub fn new(bytes: &[u8]) -> Option<Pathname>
        ensures found { IsSome result ↔ (is_pathname bytes.now ≡ true) }
        ensures value { IfSome result (λ name. name ≡ bytes.now) }
    {
        if bytes.len() > LONGEST_PATHNAME || !is_plain(bytes) {
            return None;
        }
        let mut letters = ArrayVec::new();
        letters.try_extend_from_slice(bytes).unwrap();
        Some(Pathname { bytes: letters })
    }

    /// The bytes of the name.
    pub fn as_bytes(&self) -> &[u8]
        ensures value { result.now ≡ self.now }
        ensures valid { is_pathname self.now ≡ true }
    {
        self.bytes.as_slice()
    }

    /// The name once more, which takes no memory.
    pub fn copied(&self) -> Pathname
        ensures { result ≡ self.now }
    {
        let mut letters = ArrayVec::new();
        letters
            .try_extend_from_slice(self.bytes.as_slice())
            .unwrap();
        Pathname { bytes: letters }
    }
}
