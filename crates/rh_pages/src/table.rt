//! Lists of page numbers: one for each area, and one of the free pages.

ghost use Rattle.std.specs.Prelude.{◌≡◌, ℕ, ◌*◌, ◌<◌, ◌≤◌, [], ◌∷◌, ◌++◌, List, get_or, length};
ghost use Rattle.std.specs.Prelude.{replicate, set, slice_index};
ghost use Rattle.rh_defs.specs.declared.sizes.TheConstants.{MAX_PAGES};
ghost use Rattle.rh_pages.specs.Pages.{list_at};
ghost use Rattle.rh_pages.specs.declared.table.TheConstants.{LISTS};

use crate::backing::Backing;
use rh_defs::sizes::{MAX_AREAS, MAX_PAGES};

/// How many lists a table has. A ground needs as many page numbers for each of its pages.
pub const LISTS: usize = MAX_AREAS + 1;

/// Which list is that of the free pages. Each list below it is that of the area of the same number.
pub const FREE: usize = MAX_AREAS;

/// How long each list is. Its numbers stand in a ground's row, which has a section for each list, with room for all
/// pages.
#[derive(Drop)]
pub struct PageTable {
    lengths: [usize; LISTS],
    room: usize,
    ghost few: { room ≤ MAX_PAGES },
    ghost count: { length lengths ≡ LISTS },
    ghost fits: { (k : ℕ) → get_or lengths k 0 ≤ room },
}

impl PageTable {
    ghost use Rattle.rh_pages.specs.Table.{lists_of};

    /// Empty lists, each with room for so many pages.
    pub fn new(room: usize) -> PageTable
        requires { room ≤ MAX_PAGES }
        ensures lists { (numbers : List ℕ) → lists_of numbers result ≡ replicate LISTS [] }
        ensures room { result.room ≡ room }
    {
        PageTable {
            lengths: [0; LISTS],
            room,
        }
    }

    /// How many numbers each list has room for.
    pub fn room(&self) -> usize
        ensures { result ≡ self.now.room }
    {
        self.room
    }

    /// How many numbers are in a list.
    pub fn len(&self, k: usize) -> usize
        requires { k < LISTS }
        ensures { (numbers : List ℕ) → LISTS * self.now.room ≤ length numbers →
            result ≡ length (list_at (lists_of numbers self.now) k) }
    {
        self.lengths[k]
    }

    /// The number at an index of a list.
    pub fn at<G: Backing>(&self, site: &G, k: usize, i: usize) -> u16
        requires list { k < LISTS }
        requires within { i < length (list_at (lists_of (G.numbers site.now) self.now) k) }
        ensures { result ≡ slice_index (list_at (lists_of (G.numbers site.now) self.now) k) i }
    {
        site.number(k * self.room + i)
    }

    /// Appends a number to a list.
    pub fn push<G: Backing>(&mut self, site: &mut G, to: usize, number: u16)
        requires list { to < LISTS }
        requires long { LISTS * self.old.room ≤ length (G.numbers site.old) }
        requires room { length (list_at (lists_of (G.numbers site.old) self.old) to) < self.old.room }
        ensures lists { lists_of (G.numbers site.new) self.new ≡ set (lists_of (G.numbers site.old) self.old) to
            (list_at (lists_of (G.numbers site.old) self.old) to ++ number ∷ []) }
        ensures room { self.new.room ≡ self.old.room }
        ensures len { length (G.numbers site.new) ≡ length (G.numbers site.old) }
        ensures bytes { G.bytes site.new ≡ G.bytes site.old }
    {
        let n = self.lengths[to];
        site.set_number(to * self.room + n, number);
        self.lengths[to] = n + 1;
    }

    /// Takes the last number off a list.
    pub fn pop<G: Backing>(&mut self, site: &G, from: usize) -> u16
        requires list { from < LISTS }
        requires long { LISTS * self.old.room ≤ length (G.numbers site.now) }
        requires some { 0 < length (list_at (lists_of (G.numbers site.now) self.old) from) }
        ensures last { list_at (lists_of (G.numbers site.now) self.old) from ≡
            list_at (lists_of (G.numbers site.now) self.new) from ++ result ∷ [] }
        ensures lists { lists_of (G.numbers site.now) self.new ≡ set (lists_of (G.numbers site.now) self.old) from
            (list_at (lists_of (G.numbers site.now) self.new) from) }
        ensures room { self.new.room ≡ self.old.room }
    {
        let n = self.lengths[from] - 1;
        self.lengths[from] = n;
        site.number(from * self.room + n)
    }
}
