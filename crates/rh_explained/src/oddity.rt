//! What is odd about a bad line.

ghost use Rattle.std.specs.Prelude.{◌≡◌, ◌++◌, find};
ghost use Rattle.rh_explained.specs.Explanations.{foreign_says, is_foreign, odd_says, oddity as odd_of};

use crate::numbers::put_address;
use rh_lines::Pen;

const CARRIAGE_RETURN: u8 = 13;

const TAB: u8 = 9;

/// What is odd about a line, whatever its words are.
#[derive(Clone, Copy)]
pub enum Oddity {
    /// A carriage return ends it.
    Return,
    /// A tab stands in it.
    Tab,
    /// Another byte stands in it that no word may have.
    Foreign(u8),
}

impl Oddity {
    /// What is odd about a line: its end, or else the first byte that no word may have.
    pub fn of(line: &[u8]) -> Option<Oddity>
        ensures { result ≡ odd_of line.now }
    {
        if let [.., CARRIAGE_RETURN] = line {
            return Some(Oddity::Return);
        }
        match first_foreign(line) {
            Some(TAB) => Some(Oddity::Tab),
            Some(byte) => Some(Oddity::Foreign(byte)),
            None => None,
        }
    }

    /// Says it, and what helps.
    pub fn put<P: Pen>(self, pen: &mut P)
        ensures { P.offered pen.new ≡ P.offered pen.old ++ odd_says self }
    {
        match self {
            Oddity::Return => {
                pen.put(b": a carriage return at its end; end lines with a line feed alone");
            }
            Oddity::Tab => pen.put(b": a tab; part words by spaces"),
            Oddity::Foreign(byte) => put_foreign(byte, pen),
        }
    }
}

/// Says which byte no word may have, and which bytes words have.
fn put_foreign<P: Pen>(byte: u8, pen: &mut P)
    ensures { P.offered pen.new ≡ P.offered pen.old ++ foreign_says byte }
{
    pen.put(b": the byte ");
    put_address(u32::from(byte), pen);
    pen.put(b"; words have characters from ! to ~ alone");
}

fn first_foreign(line: &[u8]) -> Option<u8>
    ensures { result ≡ find is_foreign line.now }
{
    for byte in line {
        if is_foreign(*byte) {
            return Some(*byte);
        }
    }
    None
}

fn is_foreign(byte: u8) -> bool
    ensures { result ≡ is_foreign byte }
{
    byte < b' ' || byte > b'~'
}
