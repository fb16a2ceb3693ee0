//! Texts in lent bytes.

ghost use Rattle.std.specs.Prelude.{◌≡◌, ◌≤◌, ◌<◌, ◌+◌, ◌-◌, ◌^◌, ◌&&◌, ◌++◌, [], false, drop, length, min, nat_lt};
ghost use Rattle.std.specs.Prelude.{take};

use crate::ghost_bytes::GhostBytes;
use crate::pen::Pen;
use crate::sink::{Sink, WriteFailed};

/// A text in lent bytes, from their first one on. No write of it fails: what finds no room is counted, and goes
/// nowhere.
#[derive(Drop)]
pub struct WholeText<'a> {
    bytes: &'a mut [u8],
    /// So many of the bytes are the text's.
    taken: usize,
    /// So many bytes were offered.
    count: usize,
    // the bytes as they were, and what found no room in them
    before: GhostBytes,
    beyond: GhostBytes,
    ghost fits: { taken ≤ length bytes.now },
    ghost same: { length bytes.now ≡ length before.bytes },
    // what wasn't written yet is as it was
    ghost rest: { drop taken bytes.now ≡ drop taken before.bytes },
    // where some bytes found no room, none is left
    ghost full: { (nat_lt taken (length bytes.now) && nat_lt 0 (length beyond.bytes)) ≡ false },
    ghost counted: { count ≡ min (taken + length beyond.bytes) (2 ^ 64 - 1) },
}

impl<'a> WholeText<'a> {
    ghost use Rattle.rh_lines.specs.WholeText.{before_of, whole_bytes, filled, whole_text};

    /// These bytes, in which no text is yet.
    pub fn new(bytes: &'a mut [u8]) -> WholeText<'a>
        ensures same_reference { (whole_bytes result).ghost_name ≡ bytes.entry.ghost_name }
        ensures before { before_of result ≡ bytes.entry.now }
        ensures text { whole_text result ≡ [] }
    {
        let mut before = GhostBytes::new();
        before.note(bytes);
        WholeText {
            bytes,
            taken: 0,
            count: 0,
            before,
            beyond: GhostBytes::new(),
        }
    }

    /// How many bytes the text has, or 2^64 - 1 where it has more. Those that have room lie in the lent bytes, and what
    /// stands behind them there is as it was.
    pub fn length(&self) -> usize
        ensures value { result ≡ min (length (whole_text self.now)) (2 ^ 64 - 1) }
        ensures bytes { (whole_bytes self.now).now ≡ filled (whole_text self.now) (before_of self.now) }
    {
        self.count
    }
}

impl WholeText<'_> {
    ghost use Rattle.rh_lines.specs.WholeText.{text_offered};

    /// Puts bytes behind the text.
    #[inline(always)]
    fn add(&mut self, bytes: &[u8])
        ensures { text_offered self.new ≡ text_offered self.old ++ bytes.now }
    {
        if bytes.len() < self.bytes.len() - self.taken {
            self.add_whole(bytes);
        } else {
            self.add_part(bytes);
        }
    }

    /// Puts bytes behind a text that leaves room for more.
    #[inline(always)]
    fn add_whole(&mut self, bytes: &[u8])
        requires { self.old.taken + length bytes.now < length self.old.bytes.now }
        ensures { text_offered self.new ≡ text_offered self.old ++ bytes.now }
    {
        let at = self.taken;
        let end = at + bytes.len();
        self.count = end;
        self.taken = end;
        let lent = &mut *self.bytes;
        put_at(lent, at, bytes);
    }

    /// Puts as many bytes behind the text as have room, and counts the others.
    #[inline(never)]
    fn add_part(&mut self, bytes: &[u8])
        ensures { text_offered self.new ≡ text_offered self.old ++ bytes.now }
    {
        let at = self.taken;
        let part = bytes.len().min(self.bytes.len() - at);
        self.beyond.note(&bytes[part..]);
        self.count = self.count.saturating_add(bytes.len());
        self.taken = at + part;
        let lent = &mut *self.bytes;
        put_at(lent, at, &bytes[..part]);
    }
}

impl Sink for WholeText<'_> {
    ghost use Rattle.rh_lines.specs.WholeText.{output_of};

    ghost output = { output_of };

    fn write(&mut self, bytes: &[u8]) -> Result<usize, WriteFailed> {
        self.add(bytes);
        Ok(bytes.len())
    }
}

impl Pen for WholeText<'_> {
    ghost use Rattle.rh_lines.specs.WholeText.{text_offered};

    ghost offered = { text_offered };

    fn put(&mut self, bytes: &[u8]) {
        self.add(bytes);
    }
}

/// Puts bytes in place of as many others, from a place on.
pub fn put_at(to: &mut [u8], at: usize, bytes: &[u8])
    requires { at + length bytes.now ≤ length to.old }
    ensures front { take (at + length bytes.now) to.new ≡ take at to.old ++ bytes.now }
    ensures rest { drop (at + length bytes.now) to.new ≡ drop (at + length bytes.now) to.old }
{
    to[at..at + bytes.len()].copy_from_slice(bytes);
}
