//! What messages say that aren't one of the six kinds of a transfer, or are spelled otherwise.

ghost use Rattle.std.specs.Prelude.{◌≡◌, ◌↔◌, ◌+◌, ◌^◌, ◌<◌, ◌==◌, true, length, Some, IsSome, IfSome};
ghost use Rattle.std.specs.List.{list_all, position};
ghost use Rattle.rh_defs.specs.OtherBodies.{ends_at as ends_at_of, is_exact, is_name_data, is_other};
ghost use Rattle.rh_defs.specs.Pieces.{round_up};

use crate::data::Data;
use crate::sizes::WORD;
use std::marker::Model;

/// The bytes of the words that stand in a message about a file before its name.
const FILE_WORDS: usize = 6 * WORD;

/// An action, by its number, and the bytes of its data: those that no message of the six kinds spells byte for byte.
#[derive(Debug, Drop, PartialEq, Eq)]
pub struct OtherBody {
    action: u32,
    bytes: Data,
}

impl Model for OtherBody {
    ghost use Rattle.std.specs.Prelude.{◌≡◌, ℕ, List, true};
    ghost use Rattle.rh_defs.specs.OtherBodies.{is_other};

    ghost Value = { ℕ × List ℕ };

    ghost view = { λ b. (b.action, b.bytes) };

    ghost inverse = { λ v. record { action = v.0; bytes = v.1 } };

    ghost invariant = { λ b. is_other b.action b.bytes ≡ true };
}

/// The place of the first zero byte.
fn first_zero(bytes: &[u8]) -> Option<usize>
    ensures { result ≡ position (λ x. x == 0) bytes.now }
{
    bytes.iter().position(|b| *b == 0)
}

fn are_zeros(bytes: &[u8]) -> bool
    ensures { result ≡ list_all (λ x. x == 0) bytes.now }
{
    bytes.iter().all(|b| *b == 0)
}

/// The bytes that a name of so many takes with its zero byte, in whole words.
fn name_room(n: usize) -> usize
    requires { n < 2 ^ 32 }
    ensures { result ≡ round_up 4 (n + 1) }
{
    (n + 1).next_multiple_of(WORD)
}

/// Whether a name of so many bytes ends these: its zero byte, and zeros up to whole words.
fn ends_at(bytes: &[u8], n: usize) -> bool
    requires short { length bytes.now < 2 ^ 32 }
    requires within { n < length bytes.now }
    ensures { result ≡ ends_at_of bytes.now (Some n) }
{
    bytes.len() == name_room(n) && are_zeros(&bytes[n..])
}

/// Whether a name ends these bytes.
fn is_name(bytes: &[u8]) -> bool
    requires { length bytes.now < 2 ^ 32 }
    ensures { result ≡ is_name_data bytes.now }
{
    let Some(n) = first_zero(bytes) else {
        return false;
    };
    ends_at(bytes, n)
}

/// Whether a message of one of the six kinds has just these bytes.
fn spells_kind(action: u32, bytes: &[u8]) -> bool
    requires { length bytes.now < 2 ^ 32 }
    ensures { result ≡ is_exact action bytes.now }
{
    match action {
        6 | 7 => bytes.len() == 2 * WORD,
        1..=4 => bytes.len() > FILE_WORDS && is_name(&bytes[FILE_WORDS..]),
        _ => false,
    }
}

impl OtherBody {
    /// What these bytes say: none where a message of one of the six kinds has just these, or they aren't whole words.
    pub fn new(action: u32, bytes: Data) -> Option<OtherBody>
        ensures found { IsSome result ↔ (is_other action bytes ≡ true) }
        ensures value { IfSome result (λ body. body ≡ (action, bytes)) }
    {
        if !bytes.is_whole() || spells_kind(action, bytes.as_slice()) {
            return None;
        }
        Some(OtherBody { action, bytes })
    }

    /// The number of the action.
    pub fn action(&self) -> u32
        ensures { result ≡ self.now.0 }
    {
        self.action
    }

    /// The bytes of the data.
    pub fn data(&self) -> &Data
        ensures value { result.now ≡ self.now.1 }
        ensures valid { is_other self.now.0 self.now.1 ≡ true }
    {
        &self.bytes
    }

    /// The same once more, which takes no memory.
    pub fn copied(&self) -> OtherBody
        ensures { result ≡ self.now }
    {
        OtherBody {
            action: self.action,
            bytes: self.bytes.copied(),
        }
    }
}
