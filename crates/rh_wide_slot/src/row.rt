//! The anchors' words of a wide slot, and its blocks when many of them move.
ghost use Rattle.std.specs.Prelude.{◌≡◌, ◌-◌, ◌+◌, ◌*◌, ◌<◌, ◌≤◌, ◌^◌, length};
ghost use Rattle.rh_wide_slot.specs.Inner.Shifts.{Shifts, ToldBelow, any_from, with_entry};
ghost use Rattle.rh_wide_slot.specs.WideSlots.{IsWideSlot, row_place, row_size, wide_weight};

use crate::slot::WideSlot;
use rh_store::bytes::{put_word_in, slide_in, word_in};

/// The bytes of an anchor's two words.
const ENTRY: usize = 8;

/// Where the anchor's block begins, 0 where it has none, and how many bytes it has.
pub(crate) fn entry(bytes: &[u8], anchor: u32) -> (usize, usize)
    requires { 8 * anchor + 8 ≤ length bytes.now }
    ensures place { result.0 ≡ row_place bytes.now anchor }
    ensures size { result.1 ≡ row_size bytes.now anchor }
{
    let at = ENTRY * anchor as usize;
    (word_in(bytes, at) as usize, word_in(bytes, at + 4) as usize)
}

/// Writes both words of an anchor.
pub(crate) fn put_entry(bytes: &mut [u8], anchor: u32, place: usize, size: usize)
    requires within { 8 * anchor + 8 ≤ length bytes.old }
    requires place { place < 2 ^ 32 }
    requires size { size < 2 ^ 32 }
    ensures { bytes.new ≡ with_entry bytes.old anchor place size }
{
    let at = ENTRY * anchor as usize;
    put_word_in(bytes, at, place as u32);
    put_word_in(bytes, at + 4, size as u32);
}

/// What a block of n bytes takes.
pub(crate) fn wide_weight(n: usize) -> usize
    requires { n < 2 ^ 32 }
    ensures { result ≡ wide_weight n }
{
    8 * (n / 8 + 1)
}

/// Writes the places of blocks that have moved together from one place to another: those that began there or above.
/// Answers whether there is such a block.
fn tell_moved(bytes: &mut [u8], slot: WideSlot, from: usize, to: usize) -> bool
    requires slot { IsWideSlot bytes.old slot }
    requires within { to + (slot.top - from) ≤ length bytes.old }
    ensures told { ToldBelow bytes.old bytes.new from to slot.anchors }
    ensures moved { result ≡ any_from from slot.anchors bytes.old }
{
    let mut moved = false;
    let mut anchor = 0;
    'walk: while anchor < slot.anchors {
        let at = ENTRY * anchor as usize;
        let place = word_in(bytes, at) as usize;
        if place >= from {
            put_word_in(bytes, at, (to + (place - from)) as u32);
            moved = true;
        }
        anchor += 1;
    }
    moved
}

impl WideSlot {
    /// Moves all bytes from a place up to the top to another place, and the blocks that begin there with them.
    pub(crate) fn shift(&mut self, bytes: &mut [u8], from: usize, to: usize)
        requires slot { IsWideSlot bytes.old self.old }
        requires from { 8 * self.old.anchors ≤ from }
        requires to { 8 * self.old.anchors ≤ to }
        requires high { from ≤ self.old.top }
        requires within { to + (self.old.top - from) ≤ length bytes.old }
        ensures { Shifts bytes.old bytes.new self.old self.new from to }
    {
        let above = self.top - from;
        if above == 0 {
            self.top = to;
            return;
        }
        let moved = tell_moved(bytes, *self, from, to);
        slide_in(bytes, from, to, above);
        self.top = to + above;
        if moved {
            self.slides = self.slides.wrapping_add(1);
        }
    }
}
