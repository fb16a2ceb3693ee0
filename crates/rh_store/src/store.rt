//! Areas of bytes that are made of pages.
ghost use Rattle.std.specs.Prelude.{◌≡◌, ℕ, ◌+◌, ◌-◌, ◌*◌, ◌/◌, ◌%◌, ◌<◌, ◌≤◌, ◌↔◌, ◌⊎◌, true, length, replicate};
ghost use Rattle.std.specs.Prelude.{IsTrue, IsNone, IfOk, IfSome, OnErr, OnOk, IsErr, IsErrOf};
ghost use Rattle.rh_defs.specs.Bytes.{word, with_part, put_word, part};
ghost use Rattle.rh_defs.specs.Memory.{Memory, IsOpen, Ledger, bytes, with_bytes, opened, closed, grown, shrunk};
ghost use Rattle.rh_defs.specs.Memory.{open_below};
ghost use Rattle.rh_defs.specs.HeapImage.{heap_of};
ghost use Rattle.rh_store.specs.Limits.{area_limit, pool_limit};
ghost use Rattle.rh_store.specs.Starts.{HasRows, IsIndex, IsKept, IsMapOf};
ghost use Rattle.rh_defs.specs.declared.sizes.TheConstants.{MAX_AREAS, PAGE};

use crate::starts::{Lines, Starts};
use rh_defs::sizes::MAX_AREAS;
use thiserror::Error;

/// The number of an open area, below `MAX_AREAS`.
#[derive(Clone, Copy, Debug, Default, PartialEq, Eq)]
pub struct AreaId(pub u8);

/// Why an area could not be opened or grown.
#[derive(Clone, Copy, Debug, PartialEq, Eq, Error)]
pub enum StoreFault {
    /// `MAX_AREAS` areas are open.
    #[error("too many areas are open")]
    TooManyAreas,
    /// Fewer pages are free than were asked for.
    #[error("too few pages are free")]
    NoPages,
}

/// Areas of bytes that are there, to be read: what a look at a heap needs of them.
///
/// Offsets and lengths are in bytes from the area's first one.
pub trait Words {
    /// What each area contains, the free pages, and the pages given at start.
    ghost memory: { Self → Memory };

    /// The word of four bytes in little-endian order at an offset, at any alignment.
    fn word(&self, id: AreaId, at: usize) -> u32
        requires opened { IsOpen (memory self.now) id.0 }
        requires within { at + 4 ≤ length (bytes (memory self.now) id.0) }
        ensures { result ≡ word (bytes (memory self.now) id.0) at };

    /// Fills a buffer that was lent with the bytes from an offset on.
    fn copy_out(&self, id: AreaId, at: usize, to: &mut [u8])
        requires opened { IsOpen (memory self.now) id.0 }
        requires within { at + length to.old ≤ length (bytes (memory self.now) id.0) }
        ensures { to.new ≡ part (bytes (memory self.now) id.0) at (length to.old) };

    /// Bytes of an area that lie side by side from an offset on, one at least.
    fn run(&self, id: AreaId, at: usize) -> &[u8]
        requires opened { IsOpen (memory self.now) id.0 }
        requires within { at < length (bytes (memory self.now) id.0) }
        ensures bytes { result.now ≡ part (bytes (memory self.now) id.0) at (length result.now) }
        ensures some { 0 < length result.now };

    /// An area's length in bytes.
    fn len(&self, id: AreaId) -> usize
        requires { IsOpen (memory self.now) id.0 }
        ensures { result ≡ length (bytes (memory self.now) id.0) };

    /// The map of where the segments of the heap at an offset of an area begin, where the store keeps one that is up to
    /// date.
    fn starts(&self, _id: AreaId, _at: usize) -> Option<&[u64]>
        ensures { IfSome result (λ starts. IsIndex starts.now (heap_of (bytes (memory self.now) _id.0) _at)) }
    {
        None
    }

    /// An area has at most 1 GiB, so sums of a few offsets and lengths can't wrap.
    ghost small: { (s : Self) (id : ℕ) → length (bytes (memory s) id) ≤ area_limit };
}

/// Areas of bytes that are there, to be read and written: what a heap needs of them.
///
/// No call changes an area's length, opens or closes one, or takes memory.
pub trait WordsMut: Words {
    /// The lines of the maps that the store keeps: `NoLines` where it keeps none.
    type Lines: Lines;

    /// Writes a word of four bytes in little-endian order at an offset, at any alignment.
    fn set_word(&mut self, id: AreaId, at: usize, w: u32)
        requires opened { IsOpen (Self.memory self.old) id.0 }
        requires within { at + 4 ≤ length (bytes (Self.memory self.old) id.0) }
        ensures { Self.memory self.new ≡ with_bytes (Self.memory self.old) id.0
            (put_word (bytes (Self.memory self.old) id.0) at w) };

    /// Moves n bytes within an area, from one offset to another. The two ranges may overlap.
    fn slide(&mut self, id: AreaId, from: usize, to: usize, n: usize)
        requires opened { IsOpen (Self.memory self.old) id.0 }
        requires source { from + n ≤ length (bytes (Self.memory self.old) id.0) }
        requires target { to + n ≤ length (bytes (Self.memory self.old) id.0) }
        ensures { Self.memory self.new ≡ with_bytes (Self.memory self.old) id.0
            (with_part (bytes (Self.memory self.old) id.0) to (part (bytes (Self.memory self.old) id.0) from n)) };

    /// Writes n zeros from an offset on.
    fn zero(&mut self, id: AreaId, at: usize, n: usize)
        requires opened { IsOpen (Self.memory self.old) id.0 }
        requires within { at + n ≤ length (bytes (Self.memory self.old) id.0) }
        ensures { Self.memory self.new ≡ with_bytes (Self.memory self.old) id.0
            (with_part (bytes (Self.memory self.old) id.0) at (replicate n 0)) };

    /// Writes bytes that were lent, from an offset on.
    fn copy_in(&mut self, id: AreaId, at: usize, from: &[u8])
        requires opened { IsOpen (Self.memory self.old) id.0 }
        requires within { at + length from.now ≤ length (bytes (Self.memory self.old) id.0) }
        ensures { Self.memory self.new ≡ with_bytes (Self.memory self.old) id.0
            (with_part (bytes (Self.memory self.old) id.0) at from.now) };

    /// Takes the map that the store keeps of an area, if it keeps one. It has lines for all of the area, and numbers
    /// for all of its tracts or none.
    fn take_starts(&mut self, _id: AreaId) -> Option<Starts<Self::Lines>>
        requires opened { IsOpen (Self.memory self.old) _id.0 }
        ensures same { Self.memory self.new ≡ Self.memory self.old }
        ensures kept { IfSome result (IsKept Self.Lines.words (bytes (Self.memory self.old) _id.0)) }
        ensures rows { IfSome result (λ starts. HasRows (Self.Lines.words starts.lines) starts.split
            (length (bytes (Self.memory self.old) _id.0))) }
    {
        None
    }

    /// Keeps the words of a map of an area that was taken: its lines, from word `split` on numbers of tracts, whether
    /// they are up to date, and from which offset of the area up to which the heap stands that they are of.
    fn keep_starts(
        &mut self,
        _id: AreaId,
        _lines: Self::Lines,
        _split: usize,
        _known: bool,
        _at: usize,
        _upper: usize,
    )
        requires rows { HasRows (Self.Lines.words _lines) _split 0 }
        requires map { _known ≡ true →
            IsMapOf (Self.Lines.words _lines) _split (bytes (Self.memory self.old) _id.0) _at _upper }
        ensures { Self.memory self.new ≡ Self.memory self.old }
    {}
}

/// Areas of whole pages of 4,096 bytes, to be read: what a look at a slot needs of them.
pub trait Paged: Words {
    /// The bytes of an area from an offset on, up to the end of the offset's page.
    fn rest_of_page(&self, id: AreaId, at: usize) -> &[u8]
        requires opened { IsOpen (Self.memory self.now) id.0 }
        requires within { at < length (bytes (Self.memory self.now) id.0) }
        ensures { result.now ≡ part (bytes (Self.memory self.now) id.0) at (PAGE - at % PAGE) };

    /// Each area is a whole number of pages.
    ghost whole: { (s : Self) (id : ℕ) → length (bytes (Self.memory s) id) % PAGE ≡ 0 };
}

/// Areas that grow and shrink by whole pages of 4,096 bytes.
///
/// Pages come from those that the areas share from the start. A refused call changes nothing.
pub trait Pages: Paged + WordsMut {
    /// Appends this many pages of zeros to an area, whole or not at all, as OS_ChangeDynamicArea
    /// grows one. Refused (`NoPages`) exactly where fewer are free.
    fn grow(&mut self, id: AreaId, pages: usize) -> Result<(), StoreFault>
        requires { IsOpen (Self.memory self.old) id.0 }
        ensures ok { OnOk result (Self.memory self.new ≡ grown (Self.memory self.old) id.0 pages) }
        ensures room { OnOk result (pages ≤ (Self.memory self.old).free) }
        ensures err { OnErr result (Self.memory self.new ≡ Self.memory self.old) }
        ensures refused { IsErr result ↔ ((Self.memory self.old).free < pages) }
        ensures reason { IsErr result → IsErrOf result StoreFault.NoPages };

    /// Whether `grow` by this many pages would be done.
    fn grow_check(&self, id: AreaId, pages: usize) -> bool
        requires { IsOpen (Self.memory self.now) id.0 }
        ensures { IsTrue result ↔ (pages ≤ (Self.memory self.now).free) };

    /// Cuts this many pages off an area's end, as OS_ChangeDynamicArea shrinks one. They are free
    /// from then on.
    fn shrink(&mut self, id: AreaId, pages: usize)
        requires opened { IsOpen (Self.memory self.old) id.0 }
        requires within { PAGE * pages ≤ length (bytes (Self.memory self.old) id.0) }
        ensures { Self.memory self.new ≡ shrunk (Self.memory self.old) id.0 pages };

    /// How many pages are free.
    fn free_pages(&self) -> usize
        ensures { result ≡ (Self.memory self.now).free };

    /// Free pages and the pages of all areas are those given at start, which no call changes.
    ghost ledger: { (s : Self) → Ledger (Self.memory s) MAX_AREAS };

    /// The free pages and an area's pages together are at most all pages.
    ghost within: { (s : Self) (id : ℕ) →
        PAGE * (Self.memory s).free + length (bytes (Self.memory s) id) ≤ PAGE * (Self.memory s).pages };

    /// A store has at most 262,144 pages: those of 1 GiB.
    ghost few: { (s : Self) → (Self.memory s).pages ≤ pool_limit };
}

/// Areas that are opened and closed, and bytes that go from one to another.
///
/// A refused call changes nothing.
pub trait Store: Pages {
    /// Opens the area with the least number that isn't open, with no pages. Refused
    /// (`TooManyAreas`) exactly where `MAX_AREAS` areas are open.
    fn open(&mut self) -> Result<AreaId, StoreFault>
        ensures ok { IfOk result (λ id. IsNone ((Self.memory self.old).area id.0) ×
            (Self.memory self.new ≡ opened (Self.memory self.old) id.0)) }
        ensures number { IfOk result (λ id. id.0 < MAX_AREAS) }
        ensures least { IfOk result (λ id. (k : ℕ) → k < id.0 → IsOpen (Self.memory self.old) k) }
        ensures err { OnErr result (Self.memory self.new ≡ Self.memory self.old) }
        ensures refused { IsErr result ↔ (open_below (Self.memory self.old).area MAX_AREAS ≡ MAX_AREAS) }
        ensures reason { IsErr result → IsErrOf result StoreFault.TooManyAreas };

    /// Closes an area, whose pages are free from then on.
    fn close(&mut self, id: AreaId)
        requires { IsOpen (Self.memory self.old) id.0 }
        ensures { Self.memory self.new ≡ closed (Self.memory self.old) id.0 };

    /// Copies n bytes from an offset of one area to one of another, or of the same where the two
    /// ranges don't overlap.
    fn copy(&mut self, id: AreaId, at: usize, id2: AreaId, at2: usize, n: usize)
        requires opened { IsOpen (Self.memory self.old) id.0 }
        requires opened2 { IsOpen (Self.memory self.old) id2.0 }
        requires source { at + n ≤ length (bytes (Self.memory self.old) id.0) }
        requires target { at2 + n ≤ length (bytes (Self.memory self.old) id2.0) }
        requires disjoint { id.0 ≡ id2.0 → (at + n ≤ at2) ⊎ (at2 + n ≤ at) }
        ensures { Self.memory self.new ≡ with_bytes (Self.memory self.old) id2.0
            (with_part (bytes (Self.memory self.old) id2.0) at2 (part (bytes (Self.memory self.old) id.0) at n)) };

    /// Open areas have numbers below `MAX_AREAS`.
    ghost numbered: { (s : Self) (id : ℕ) → IsOpen (Self.memory s) id → id < MAX_AREAS };
}
