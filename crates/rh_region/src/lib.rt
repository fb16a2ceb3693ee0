//! The one region of memory that all areas live in: pages of bytes, taken from the heap once and given back at the end.
//! The unsafe part is `raw`, and this file is safe code over it.
#![tactic(auto)]

ghost use Rattle.std.specs.Prelude.{◌≡◌, ◌+◌, ◌*◌, ◌^◌, ◌<◌, ◌≤◌, length, slice_range, IfOk};
ghost use Rattle.std.specs.Borrow.{sem};
ghost use Rattle.std.specs.Int.{to_le_bytes, w32};
ghost use Rattle.rh_region.specs.Patched.{with_run};
ghost use Rattle.rh_region.specs.Word.{word_at};
ghost use Rattle.rh_region.specs.Zeros.{zeros};

mod raw;

use crate::raw::Block;
use std::alloc::{AllocError, Global};
use std::marker::Model;

/// The bytes of a page.
pub const PAGE: usize = 4096;

/// A fixed number of pages of bytes, freed when it is dropped. Callers see it as the list of its bytes, and an address
/// is an index into that list, from 0. Words need no alignment.
pub struct Region {
    block: Block,
    alloc: Global,
}

impl Model for Region {
    ghost use Rattle.std.specs.Prelude.{ℕ, List};

    ghost Value = { List ℕ };

    ghost use Rattle.rh_region.specs.Region.{IsRegion};

    ghost view = { λ r. r.block.bytes };

    ghost invariant = { IsRegion };
}

impl Drop for Region {
    fn drop(self) {
        let Region { block, alloc } = self;
        raw::free(&alloc, block);
    }
}

impl Region {
    ghost use Rattle.rh_region.specs.RegionLends.{lends_run};

    /// A region of `pages` pages of zeros, in one block of the heap, which has to be below 2^63 bytes.
    /// `AllocError` where the heap has no such block, and then nothing is kept.
    pub fn new(alloc: Global, pages: usize) -> Result<Region, AllocError>
        requires { 4096 * pages < 2 ^ 63 }
        ensures zeros { IfOk result (λ r. r ≡ zeros (4096 * pages)) }
        ensures len { IfOk result (λ r. length r ≡ 4096 * pages) }
    {
        let block = raw::allocate(&alloc, PAGE * pages)?;
        Ok(Region { block, alloc })
    }

    /// How many bytes it has, which is 4096 for each page.
    pub fn len(&self) -> usize
        ensures { result ≡ length self.now }
    {
        self.block.as_slice().len()
    }

    /// The `n` bytes from the address `at` on.
    pub fn bytes(&self, at: usize, n: usize) -> &[u8]
        requires { at + n ≤ length self.now }
        ensures { result.now ≡ slice_range self.now at (at + n) }
    {
        &self.block.as_slice()[at..at + n]
    }

    /// The `n` bytes from the address `at` on, to be written. The region ends with what was written there.
    pub fn bytes_mut(&mut self, at: usize, n: usize) -> &mut [u8]
        requires { at + n ≤ length self.old }
        ensures* writes_back { sem 𝓛 (lends_run self.entry at n result) }
        ensures value { result.now ≡ slice_range self.old at (at + n) }
    {
        self.block.run_mut(at, n)
    }

    /// The word of the four bytes from the address `at` on, the lowest byte first.
    pub fn word(&self, at: usize) -> u32
        requires { at + 4 ≤ length self.now }
        ensures { result ≡ word_at self.now at }
    {
        let bytes = self.bytes(at, 4);
        u32::from_le_bytes([bytes[0], bytes[1], bytes[2], bytes[3]])
    }

    /// Writes a word to the four bytes from the address `at` on, its lowest byte first.
    pub fn set_word(&mut self, at: usize, word: u32)
        requires { at + 4 ≤ length self.old }
        ensures after { self.new ≡ with_run self.old at 4 (to_le_bytes w32 word) }
        ensures len { length self.new ≡ length self.old }
    {
        self.bytes_mut(at, 4).copy_from_slice(&word.to_le_bytes());
    }

    /// Moves the `n` bytes from the address `from` on to the address `to` on. The two runs may overlap: what arrives is
    /// the old bytes, and those at `from` that are not written over stay.
    pub fn slide(&mut self, from: usize, to: usize, n: usize)
        requires { (from + n ≤ length self.old) × (to + n ≤ length self.old) }
        ensures after { self.new ≡ with_run self.old to n (slice_range self.old from (from + n)) }
        ensures len { length self.new ≡ length self.old }
    {
        let len = self.len();
        self.bytes_mut(0, len).copy_within(from..from + n, to);
    }

    /// Writes zeros to the `n` bytes from the address `at` on.
    #[tactic(auto, unfolding(crate::specs::Zeros::zeros))]
    pub fn zero(&mut self, at: usize, n: usize)
        requires { at + n ≤ length self.old }
        ensures after { self.new ≡ with_run self.old at n (zeros n) }
        ensures len { length self.new ≡ length self.old }
    {
        self.bytes_mut(at, n).fill(0);
    }
}
