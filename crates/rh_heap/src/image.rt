//! Images of heaps: whether bytes from anywhere spell a heap, and the segments of those that do.
ghost use Rattle.std.specs.Prelude.{◌≡◌, ◌↔◌, ℕ, ◌+◌, ◌*◌, ◌^◌, ◌<◌, ◌≤◌, length, true, IsOk, IfOk};
ghost use Rattle.std.specs.Iterator.{YieldsFirst, item_count};
ghost use Rattle.rh_defs.specs.Bytes.{word};
ghost use Rattle.rh_defs.specs.HeapImage.{IsImage, heap_of, is_size, is_link, next_place, has_descriptor, fault_of};
ghost use Rattle.rh_heap.specs.HeapChecks.{summary_of, fault_in, listed, left};
ghost use Rattle.rh_defs.specs.declared.sizes.TheConstants.{HEAP_BASE, HEAP_FIRST, HEAP_FREE, WORD};

mod segment_iter;

pub use crate::image::segment_iter::SegmentIter;
use crate::layout::{HOLE_HEADER, HOLE_SIZE, Segment};
use rh_defs::HeapFault;
use rh_defs::sizes::{
    HEAP_BASE, HEAP_END, HEAP_FIRST, HEAP_FREE, HEAP_SPECIAL, HEAP_UNIT, HEAP_WORD,
};

/// What a heap consists of. Sizes are those of whole segments, their own words among them.
#[derive(Clone, Copy, Debug, PartialEq, Eq)]
pub struct Summary {
    /// How many segments are used.
    pub used: usize,
    /// Their sizes in bytes, added up.
    pub used_bytes: usize,
    /// How many holes there are.
    pub holes: usize,
    /// Their sizes in bytes, added up.
    pub hole_bytes: usize,
    /// The bytes from the base to the end.
    pub top: usize,
}

/// The word of four bytes in little-endian order at a place.
#[tactic(auto, unfolding(rh_defs::specs::Bytes::word))]
pub fn word_in(image: &[u8], at: usize) -> usize
    requires { at + WORD ≤ length image.now }
    ensures value { result ≡ word image.now at }
    ensures bound { result < 2 ^ 32 }
{
    u32::from_le_bytes([image[at], image[at + 1], image[at + 2], image[at + 3]]) as usize
}

/// Whether a segment can have this size in bytes.
fn is_size(size: usize) -> bool
    ensures { result ≡ is_size size }
{
    0 < size && size % HEAP_UNIT == 0
}

/// Whether the length and the words of the descriptor are those of a heap.
fn has_descriptor(image: &[u8]) -> bool
    ensures { result ≡ has_descriptor image.now }
{
    let len = image.len();
    if len % HEAP_UNIT != 0 || len < HEAP_FIRST {
        return false;
    }
    let base = word_in(image, HEAP_BASE);
    word_in(image, HEAP_SPECIAL) == HEAP_WORD
        && word_in(image, HEAP_END) == len
        && base % HEAP_UNIT == 0
        && HEAP_FIRST <= base
        && base <= len
}

/// Whether the link at `from` is 0, or leads to a place from `least` on where a hole has room below `base`.
fn is_link(image: &[u8], base: usize, from: usize, least: usize) -> bool
    requires within { from + WORD ≤ length image.now }
    requires small { from < 2 ^ 40 }
    ensures { result ≡ is_link image.now base from least }
{
    let link = word_in(image, from);
    let place = from + link;
    link == 0 || (place % HEAP_UNIT == 0 && least <= place && place + HOLE_HEADER <= base)
}

/// Where the link at `from` leads, or `base` where there is none.
fn next_place(image: &[u8], base: usize, from: usize) -> usize
    requires within { from + WORD ≤ length image.now }
    requires small { from < 2 ^ 40 }
    ensures { result ≡ next_place image.now base from }
{
    let link = word_in(image, from);
    if link == 0 { base } else { from + link }
}

/// Answers what a heap consists of, where the bytes spell one, and else the first fault: of the descriptor
/// (`BadDescriptor`), of the link to the first hole (`BadLink`), and then place by place of a segment's size
/// (`BadSize`) or a hole's link (`BadLink`).
pub fn check(image: &[u8]) -> Result<Summary, HeapFault>
    ensures ok { IsOk result ↔ IsImage image.now (heap_of image.now 0) }
    ensures sums { IfOk result (λ sums. sums ≡ summary_of (heap_of image.now 0)) }
    ensures fault { fault_in result ≡ fault_of image.now }
{
    if !has_descriptor(image) {
        return Err(HeapFault::BadDescriptor);
    }
    let base = word_in(image, HEAP_BASE);
    if !is_link(image, base, HEAP_FREE, HEAP_FIRST) {
        return Err(HeapFault::BadLink);
    }
    check_segments(image, base)
}

/// Checks an image place by place, where the descriptor and the link to the first hole are right.
fn check_segments(image: &[u8], base: usize) -> Result<Summary, HeapFault>
    requires descriptor { has_descriptor image.now ≡ true }
    requires at_base { base ≡ word image.now HEAP_BASE }
    requires bound { base < 2 ^ 32 }
    requires link { is_link image.now base HEAP_FREE HEAP_FIRST ≡ true }
    ensures ok { IsOk result ↔ IsImage image.now (heap_of image.now 0) }
    ensures sums { IfOk result (λ sums. sums ≡ summary_of (heap_of image.now 0)) }
    ensures fault { fault_in result ≡ fault_of image.now }
{
    let mut sums = Summary {
        used: 0,
        used_bytes: 0,
        holes: 0,
        hole_bytes: 0,
        top: image.len() - base,
    };
    let mut from = HEAP_FREE;
    let mut place = HEAP_FIRST;
    'walk: while place < base {
        let next = next_place(image, base, from);
        if place < next {
            let size = word_in(image, place);
            if !is_size(size) || next < place + size {
                return Err(HeapFault::BadSize);
            }
            sums.used += 1;
            sums.used_bytes += size;
            place += size;
        } else {
            let size = word_in(image, place + HOLE_SIZE);
            if !is_size(size) || base <= place + size {
                return Err(HeapFault::BadSize);
            }
            if !is_link(image, base, place, place + size + 1) {
                return Err(HeapFault::BadLink);
            }
            sums.holes += 1;
            sums.hole_bytes += size;
            from = place;
            place += size;
        }
    }
    Ok(sums)
}

/// The segments of an image that `check` accepts.
pub fn segments(image: &[u8]) -> SegmentIter<'_>
    requires { IsImage image.now (heap_of image.now 0) }
    ensures { left result ≡ listed HEAP_FIRST (heap_of image.now 0).segments }
{
    let base = word_in(image, HEAP_BASE);
    SegmentIter {
        image,
        base,
        from: HEAP_FREE,
        place: HEAP_FIRST,
    }
}

impl Iterator for SegmentIter<'_> {
    type Item = Segment;

    ghost next_gives = { YieldsFirst left };

    ghost remaining = { item_count left };

    fn next(&mut self) -> Option<Segment> {
        let place = self.place;
        if place == self.base {
            return None;
        }
        let link = word_in(self.image, self.from);
        if self.from + link == place {
            let size = word_in(self.image, place + HOLE_SIZE);
            self.from = place;
            self.place = place + size;
            Some(Segment {
                place,
                size,
                used: false,
            })
        } else {
            let size = word_in(self.image, place);
            self.place = place + size;
            Some(Segment {
                place,
                size,
                used: true,
            })
        }
    }
}
