//! Maps of where the segments of an area's heap begin, which a store may keep beside the area. A map consists of
//! lines of two words, each for 512 bytes of the heap: a bit for each 8 bytes, in one word for used segments and in
//! the other for holes. Behind its lines a map may have numbers of the heap's tracts, of 2,048 bytes each: bounds for
//! the bytes of the holes that begin there.
ghost use Rattle.std.specs.Prelude.{◌≡◌, ℕ, List, [], length};
ghost use Rattle.std.specs.Borrow.{Array, Lends, sem, u64 as word};
ghost use Rattle.std.proofs.Common.{rules};
ghost use Rattle.std.proofs.lemmas.Grind.{common_steps};

use arrayvec::ArrayVec;
use rh_defs::sizes::HEAP_UNIT;

/// The bits of a word of a map.
pub const BITS: usize = 64;

/// The bytes of a heap for which a map has one line, of two words.
pub const LINE_BYTES: usize = BITS * HEAP_UNIT;

/// The bytes of a tract of a heap: a map may have a number for each, no less than the bytes of each hole that begins in
/// it.
pub const TRACT_BYTES: usize = 4 * LINE_BYTES;

/// The lane of a map that has the places of used segments.
pub const USED: usize = 0;

/// The lane of a map that has the places of holes.
pub const HOLES: usize = 1;

/// The words of a map's lines, as a store keeps them.
pub trait Lines: Drop {
    /// The words, in order.
    ghost words: { Self → List ℕ };

    /// These lines with other words.
    ghost with_words: { Self → List ℕ → Self };

    /// The words, to be read.
    fn as_slice(&self) -> &[u64]
        ensures { result.now ≡ words self.now };

    /// The words, to be written.
    fn as_mut_slice(&mut self) -> &mut [u64]
        ensures* writes_back { sem 𝓛 (Lends Self.row (Array word 0) self.entry result (with_words self.entry.now)) }
        ensures value { result.now ≡ words self.old };

    /// Where as many words were written as the lines have, those are their words.
    ghost written: { (s : Self) (ws : List ℕ) → length ws ≡ length (words s) → words (with_words s ws) ≡ ws };
}

impl Lines for Vec<u64> {
    ghost use Rattle.std.specs.Vec.{with_items};

    ghost words = { λ v. v.items };

    ghost with_words = { with_items };

    fn as_slice(&self) -> &[u64] {
        Vec::as_slice(self)
    }

    fn as_mut_slice(&mut self) -> &mut [u64] {
        Vec::as_mut_slice(self)
    }

    ghost written = { λ s ws h. Prim.search (rules, common_steps) };
}

/// The lines of a store that keeps no maps: a row with room for no word.
#[derive(Drop)]
pub struct NoLines {
    words: ArrayVec<u64, 0>,
}

impl Lines for NoLines {
    ghost use Rattle.arrayvec.specs.ArrayVec.{with_items as with_row};

    ghost words = { λ s. s.words.items };

    ghost with_words = { λ s ws. record s { words = with_row s.words ws } };

    fn as_slice(&self) -> &[u64] {
        self.words.as_slice()
    }

    fn as_mut_slice(&mut self) -> &mut [u64] {
        self.words.as_mut_slice()
    }

    ghost written = { λ s ws h. Prim.search (rules, common_steps) };
}

/// The words of a map: its lines, and from word `split` on the numbers of tracts, if it has any.
#[derive(Drop)]
pub struct Rows<L> {
    pub lines: L,
    pub split: usize,
}

/// A map that a store keeps: its words, as `Rows` has them, whether they are up to date, and from which offset of the
/// area up to which the heap stands that they are of.
#[derive(Drop)]
pub struct Starts<L> {
    pub lines: L,
    pub split: usize,
    pub known: bool,
    pub at: usize,
    pub upper: usize,
}
