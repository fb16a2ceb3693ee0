//! The front of a reply, which is kept until it is shown, and how many lines the whole has.

ghost use Rattle.std.specs.Prelude.{◌≡◌, ◌≤◌, ◌^◌, ◌-◌, [], length, min};
ghost use Rattle.rh_defs.specs.Script.{ended};
ghost use Rattle.rh_map.specs.Replies.{front_of};

use memchr::memchr_iter;
use rh_lines::{GhostBytes, Pen};
use std::marker::Model;

/// So many bytes of a reply are kept.
const ROOM: usize = 4_096;

/// A text, of which the first 4,096 bytes lie in the value itself. Lines that aren't kept are counted.
#[derive(Drop)]
pub struct Front {
    bytes: [u8; ROOM],
    len: usize,
    lines: usize,
    text: GhostBytes,
}

impl Model for Front {
    ghost use Rattle.std.specs.Prelude.{◌≡◌, ◌≤◌, ◌^◌, ◌-◌, ℕ, List, length, min, take};
    ghost use Rattle.rh_defs.specs.Script.{ended};
    ghost use Rattle.rh_map.specs.declared.front.TheConstants.{ROOM};

    ghost Value = { List ℕ };

    ghost view = { λ s. s.text.bytes };

    ghost invariant = { λ s. (s.len ≤ ROOM) × ((take s.len s.bytes ≡ take ROOM s.text.bytes)
        × (s.lines ≡ min (length (ended s.text.bytes)) (2 ^ 64 - 1))) };
}

impl Front {
    /// No text.
    pub fn new() -> Front
        ensures { result ≡ [] }
    {
        Front {
            bytes: [0; ROOM],
            len: 0,
            lines: 0,
            text: GhostBytes::new(),
        }
    }

    /// The text, or the first 4,096 bytes of a longer one.
    pub fn as_slice(&self) -> &[u8]
        ensures { result.now ≡ front_of self.now }
    {
        &self.bytes[..self.len]
    }

    /// How many lines of the text end, or 2^32 - 1 where more do.
    pub fn lines(&self) -> u32
        ensures { result ≡ min (length (ended self.now)) (2 ^ 32 - 1) }
    {
        self.lines.min(u32::MAX as usize) as u32
    }

    /// Keeps no text.
    pub fn clear(&mut self)
        ensures { self.new ≡ [] }
    {
        self.len = 0;
        self.lines = 0;
        self.text = GhostBytes::new();
    }
}

impl Pen for Front {
    ghost offered = { λ text. text };

    fn put(&mut self, bytes: &[u8]) {
        let count = bytes.len().min(ROOM - self.len);
        let end = self.len + count;
        self.bytes[self.len..end].copy_from_slice(&bytes[..count]);
        self.len = end;
        self.lines = self.lines.saturating_add(count_lines(bytes));
        self.text.note(bytes);
    }
}

/// How many lines end in a text.
fn count_lines(text: &[u8]) -> usize
    ensures { result ≡ length (ended text.now) }
{
    memchr_iter(b'\n', text).count()
}
