//! The line that is being read.

ghost use Rattle.std.specs.Prelude.{◌≡◌, ◌+◌, ◌≤◌, [], ◌++◌, length};
ghost use Rattle.rh_session.specs.Lines.{kept};
ghost use Rattle.rh_defs.specs.declared.sizes.TheConstants.{LONGEST_LINE};

use rh_defs::sizes::LONGEST_LINE;
use std::marker::Model;

/// One byte more than a line may have shows that it has too many.
const ROOM: usize = LONGEST_LINE + 1;

/// The line so far, up to one byte more than a line may have, which lies in the value itself.
#[derive(Drop)]
pub struct LineBuffer {
    bytes: [u8; ROOM],
    len: usize,
}

impl Model for LineBuffer {
    ghost use Rattle.std.specs.Prelude.{List, ℕ, ◌+◌, ◌≤◌, take};
    ghost use Rattle.rh_defs.specs.declared.sizes.TheConstants.{LONGEST_LINE};

    ghost Value = { List ℕ };

    ghost view = { λ s. take s.len s.bytes };

    ghost invariant = { λ s. s.len ≤ LONGEST_LINE + 1 };
}

impl LineBuffer {
    /// An empty line, with room for 1,025 bytes.
    pub fn new() -> LineBuffer
        ensures { result ≡ [] }
    {
        LineBuffer {
            bytes: [0; ROOM],
            len: 0,
        }
    }

    /// The bytes that are kept.
    pub fn as_slice(&self) -> &[u8]
        ensures value { result.now ≡ self.now }
        ensures short { length self.now ≤ LONGEST_LINE + 1 }
    {
        &self.bytes[..self.len]
    }

    /// More bytes of the line. Those past the 1,025th are not kept: the line is too long anyway.
    pub fn add(&mut self, bytes: &[u8])
        ensures value { self.new ≡ kept (self.old ++ bytes.now) }
        ensures short { length self.old ≤ LONGEST_LINE + 1 }
    {
        let room = ROOM - self.len;
        self.push(&bytes[..room.min(bytes.len())]);
    }

    /// More bytes, for which there is room.
    fn push(&mut self, bytes: &[u8])
        requires { length self.old + length bytes.now ≤ LONGEST_LINE + 1 }
        ensures { self.new ≡ self.old ++ bytes.now }
    {
        let end = self.len + bytes.len();
        self.bytes[self.len..end].copy_from_slice(bytes);
        self.len = end;
    }

    /// The line that ends with these bytes, as far as its meaning goes: gathered, unless it lies whole in them.
    pub fn whole<'b>(&'b mut self, bytes: &'b [u8]) -> &'b [u8]
        ensures { kept result.now ≡ kept (self.old ++ bytes.now) }
    {
        if self.as_slice().is_empty() {
            return bytes;
        }
        self.add(bytes);
        self.as_slice()
    }

    /// The next line begins.
    pub fn clear(&mut self)
        ensures { self.new ≡ [] }
    {
        self.len = 0;
    }
}
