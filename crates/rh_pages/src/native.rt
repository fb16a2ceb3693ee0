//! The ground of a native program, which takes its memory from the heap.

ghost use Rattle.std.specs.Prelude.{◌≡◌, ◌*◌, ◌≤◌, length, IfOk};
ghost use Rattle.rh_defs.specs.declared.sizes.TheConstants.{MAX_PAGES, PAGE};
ghost use Rattle.rh_pages.specs.declared.table.TheConstants.{LISTS};

use crate::backing::Backing;
use crate::table::LISTS;
use rh_region::Region;
use rh_store::bytes::slide_in;
use std::alloc::{AllocError, Global};

/// A region, and page numbers in one vector.
#[derive(Drop)]
pub struct RegionBacking {
    region: Region,
    numbers: Vec<u16>,
}

impl RegionBacking {
    /// The ground of a store of this many pages. All memory is taken here: AllocError where it is refused.
    pub fn new(alloc: Global, pages: usize) -> Result<RegionBacking, AllocError>
        requires { pages ≤ MAX_PAGES }
        ensures bytes { IfOk result (λ site. length site.region ≡ PAGE * pages) }
        ensures numbers { IfOk result (λ site. length site.numbers.items ≡ LISTS * pages) }
    {
        let region = Region::new(alloc, pages)?;
        let numbers = vec![in alloc; 0; LISTS * pages]?;
        Ok(RegionBacking { region, numbers })
    }

    /// The region.
    pub(crate) fn region(&self) -> &Region
        ensures { result.now ≡ self.now.region }
    {
        &self.region
    }
}

impl Backing for RegionBacking {
    ghost bytes = { λ site. site.region };

    ghost numbers = { λ site. site.numbers.items };

    #[inline(always)]
    fn len(&self) -> usize {
        self.region.len()
    }

    #[inline(always)]
    fn bytes(&self, at: usize, n: usize) -> &[u8] {
        self.region.bytes(at, n)
    }

    #[inline(always)]
    fn word(&self, at: usize) -> u32 {
        self.region.word(at)
    }

    #[inline(always)]
    fn set_word(&mut self, at: usize, word: u32) {
        self.region.set_word(at, word);
    }

    #[inline(always)]
    fn copy_in(&mut self, at: usize, from: &[u8]) {
        self.region.bytes_mut(at, from.len()).copy_from_slice(from);
    }

    #[inline(always)]
    fn slide(&mut self, from: usize, to: usize, n: usize) {
        let len = self.region.len();
        slide_in(self.region.bytes_mut(0, len), from, to, n);
    }

    #[inline(always)]
    fn zero(&mut self, at: usize, n: usize) {
        self.region.zero(at, n);
    }

    #[inline(always)]
    fn number(&self, i: usize) -> u16 {
        self.numbers[i]
    }

    #[inline(always)]
    fn set_number(&mut self, at: usize, number: u16) {
        self.numbers[at] = number;
    }
}
