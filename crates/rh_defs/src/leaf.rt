//! Leafnames.

ghost use Rattle.std.specs.Prelude.{◌≡◌, ◌≤◌, length};
ghost use Rattle.std.specs.List.{list_all};
ghost use Rattle.rh_defs.specs.declared.sizes.TheConstants.{LONGEST_LEAF};
ghost use Rattle.rh_defs.specs.Forms.{is_graphic, is_leaf};

use crate::sizes::LONGEST_LEAF;
use arrayvec::ArrayVec;
use std::marker::Model;

/// The leafname that a task gives to what it saves: at most 10 bytes.
#[derive(Debug, Drop, PartialEq, Eq)]
pub struct Leaf {
    letters: ArrayVec<u8, LONGEST_LEAF>,
}

impl Model for Leaf {
    ghost use Rattle.std.specs.Prelude.{ℕ, List};

    ghost Value = { List ℕ };

    ghost view = { λ l. l.letters.items };

    ghost inverse = { λ xs. record { letters = record { items = xs } } };
}

impl Leaf {
    /// The leafname of these bytes, whatever they are: `is_valid` tests them.
    pub fn new(letters: ArrayVec<u8, LONGEST_LEAF>) -> Leaf
        ensures { result ≡ letters.items }
    {
        Leaf { letters }
    }

    /// The bytes of the leafname.
    pub fn as_slice(&self) -> &[u8]
        ensures value { result.now ≡ self.now }
        ensures short { length self.now ≤ LONGEST_LEAF }
    {
        self.letters.as_slice()
    }

    /// Whether these are 1 to 10 bytes from &21 to &7E.
    pub fn is_valid(&self) -> bool
        ensures { result ≡ is_leaf self.now }
    {
        spells_leaf(self.letters.as_slice())
    }
}

fn spells_leaf(letters: &[u8]) -> bool
    ensures { result ≡ is_leaf letters.now }
{
    !letters.is_empty() && letters.len() <= LONGEST_LEAF && are_graphic(letters)
}

fn are_graphic(letters: &[u8]) -> bool
    ensures { result ≡ list_all is_graphic letters.now }
{
    letters.iter().all(|b| *b >= 0x21 && *b <= 0x7e)
}
