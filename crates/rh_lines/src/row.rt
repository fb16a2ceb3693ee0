//! A line of text while it is built.

ghost use Rattle.std.specs.Prelude.{◌≡◌, ◌≤◌, ◌<◌, ◌+◌, ◌*◌, ◌/◌, ◌%◌, [], ◌∷◌, ◌++◌, length};
ghost use Rattle.std.specs.Fmt.{decimal};
ghost use Rattle.hex.specs.Hex.{encode_lower};
ghost use Rattle.rh_defs.specs.Text.{address};
ghost use Rattle.rh_lines.specs.declared.row.TheConstants.{ROW};

use crate::hexadecimal::put_hex_number;
use crate::suffix::Suffix;
use itoa::Buffer;
use std::marker::Model;

/// A row has room for so many bytes.
pub const ROW: usize = 256;

/// A line, or several short ones, of up to 256 bytes in all while they are built, which takes no memory.
#[derive(Drop)]
pub struct Row {
    bytes: [u8; ROW],
    len: usize,
}

impl Model for Row {
    ghost use Rattle.std.specs.Prelude.{List, ℕ, take, ◌≤◌};
    ghost use Rattle.rh_lines.specs.declared.row.TheConstants.{ROW};

    ghost Value = { List ℕ };

    ghost view = { λ s. take s.len s.bytes };

    ghost invariant = { λ s. s.len ≤ ROW };
}

impl Row {
    /// An empty line.
    pub fn new() -> Row
        ensures { result ≡ [] }
    {
        Row {
            bytes: [0; ROW],
            len: 0,
        }
    }

    /// The bytes so far.
    pub fn as_slice(&self) -> &[u8]
        ensures { result.now ≡ self.now }
    {
        &self.bytes[..self.len]
    }

    /// Adds a byte.
    #[inline(always)]
    pub fn byte(&mut self, byte: u8)
        requires { length self.old < ROW }
        ensures { self.new ≡ self.old ++ byte ∷ [] }
    {
        let at = self.len;
        self.bytes[at] = byte;
        self.len = at + 1;
    }

    /// Adds some text.
    #[inline(always)]
    pub fn text(&mut self, text: &[u8])
        requires { length self.old + length text.now ≤ ROW }
        ensures { self.new ≡ self.old ++ text.now }
    {
        let end = self.len + text.len();
        self.bytes[self.len..end].copy_from_slice(text);
        self.len = end;
    }

    /// Adds the lower-case hexadecimal digits of some bytes, two for each byte.
    pub fn hex_digits(&mut self, bytes: &[u8])
        requires { length self.old + 2 * length bytes.now ≤ ROW }
        ensures { self.new ≡ self.old ++ encode_lower bytes.now }
    {
        let count = 2 * bytes.len();
        hex::encode_to_slice(bytes, &mut self.bytes[self.len..self.len + count]).unwrap();
        self.len += count;
    }

    /// Adds the two last digits of a number below 100.
    #[inline(always)]
    fn two_digits(&mut self, number: u32)
        requires small { number < 100 }
        requires room { length self.old + 2 ≤ ROW }
        ensures { self.new ≡ self.old ++ (48 + number / 10) ∷ (48 + number % 10) ∷ [] }
    {
        self.byte(b'0' + (number / 10) as u8);
        self.byte(b'0' + (number % 10) as u8);
    }

    /// Adds a number below 100 in decimal.
    #[tactic(auto, using(std::proofs::lemmas::Fmt::decimal_digit))]
    #[inline(always)]
    fn short_decimal(&mut self, number: u32)
        requires small { number < 100 }
        requires room { length self.old + 2 ≤ ROW }
        ensures value { self.new ≡ self.old ++ decimal number }
        ensures few { length self.new ≤ length self.old + 2 }
    {
        if number < 10 {
            self.byte(b'0' + number as u8);
        } else {
            self.two_digits(number);
        }
    }

    /// Adds a number in decimal. One of up to four digits is written with no copy.
    pub fn decimal(&mut self, number: u32)
        requires { length self.old + 11 ≤ ROW }
        ensures value { self.new ≡ self.old ++ decimal number }
        ensures few { length self.new ≤ length self.old + 11 }
    {
        if number < 100 {
            self.short_decimal(number);
        } else if number < 10_000 {
            self.short_decimal(number / 100);
            self.two_digits(number % 100);
        } else {
            let mut buffer = Buffer::new();
            self.text(buffer.format(number).as_bytes());
        }
    }

    /// Adds an address.
    #[tactic(auto, unfolding(rh_defs::specs::Text::address))]
    pub fn address(&mut self, number: u32)
        requires { length self.old + 11 ≤ ROW }
        ensures value { self.new ≡ self.old ++ address number }
        ensures few { length self.new ≤ length self.old + 11 }
    {
        let mut digits = Suffix::new();
        put_hex_number(number, &mut digits);
        self.byte(b'&');
        self.text(digits.as_slice());
    }
}
