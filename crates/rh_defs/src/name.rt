//! The names of tasks and files.

ghost use Rattle.std.specs.Prelude.{◌≡◌, ◌↔◌, ◌≤◌, ◌<◌, length, IsTrue, IsSome, IfSome};
ghost use Rattle.std.specs.List.{list_all};
ghost use Rattle.std.specs.Char.{is_ascii_alphanumeric};
ghost use Rattle.rh_defs.specs.declared.sizes.TheConstants.{LONGEST_NAME};
ghost use Rattle.rh_defs.specs.Forms.{is_name};

use crate::sizes::LONGEST_NAME;
use arrayvec::ArrayVec;
use std::marker::Model;

/// The name of a task or a file: 1 to 12 bytes. By default it has none, and is nobody's.
#[derive(Debug, Drop, PartialEq, Eq, Hash)]
pub struct Name {
    letters: ArrayVec<u8, LONGEST_NAME>,
}

impl Model for Name {
    ghost use Rattle.std.specs.Prelude.{ℕ, List};

    ghost Value = { List ℕ };

    ghost view = { λ n. n.letters.items };

    ghost inverse = { λ xs. record { letters = record { items = xs } } };
}

impl Default for Name {
    ghost use Rattle.std.specs.Prelude.{◌≡◌, []};

    ghost is_default = { λ n. n ≡ [] };

    /// No letters, which no task and no file has.
    fn default() -> Name {
        Name {
            letters: ArrayVec::new(),
        }
    }
}

impl Name {
    /// The name with these bytes: none unless there are 1 to 12.
    pub fn new(bytes: &[u8]) -> Option<Name>
        ensures found { IsSome result ↔ ((0 < length bytes.now) × (length bytes.now ≤ LONGEST_NAME)) }
        ensures value { IfSome result (λ name. name ≡ bytes.now) }
    {
        if bytes.is_empty() || bytes.len() > LONGEST_NAME {
            return None;
        }
        let mut letters = ArrayVec::new();
        letters.try_extend_from_slice(bytes).unwrap();
        Some(Name { letters })
    }

    /// The bytes of the name.
    pub fn as_bytes(&self) -> &[u8]
        ensures value { result.now ≡ self.now }
        ensures short { length self.now ≤ LONGEST_NAME }
    {
        self.letters.as_slice()
    }

    /// The name once more, which takes no memory.
    pub fn copied(&self) -> Name
        ensures { result ≡ self.now }
    {
        let mut letters = ArrayVec::new();
        letters
            .try_extend_from_slice(self.letters.as_slice())
            .unwrap();
        Name { letters }
    }

    /// Whether this is an ASCII letter and up to 11 ASCII letters or digits.
    pub fn is_valid(&self) -> bool
        ensures { result ≡ is_name self.now }
    {
        spells_name(self.letters.as_slice())
    }
}

fn spells_name(letters: &[u8]) -> bool
    ensures { result ≡ is_name letters.now }
{
    if letters.is_empty() || letters.len() > LONGEST_NAME {
        return false;
    }
    letters[0].is_ascii_alphabetic() && are_letters_or_digits(letters)
}

fn are_letters_or_digits(letters: &[u8]) -> bool
    ensures { result ≡ list_all is_ascii_alphanumeric letters.now }
{
    letters.iter().all(|c| c.is_ascii_alphanumeric())
}
