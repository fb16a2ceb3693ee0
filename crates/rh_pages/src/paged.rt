//! The paged store: one ground, and on it a page list for each area and the list of free pages.
#![tactic(auto, unfolding(rh_defs::specs::Memory::bytes, crate::specs::Paged::paged_memory))]

ghost use Rattle.std.specs.Prelude.{◌*◌, ◌≤◌, length};
ghost use Rattle.rh_defs.specs.declared.sizes.TheConstants.{MAX_AREAS, MAX_PAGES, PAGE};
ghost use Rattle.rh_pages.specs.declared.table.TheConstants.{LISTS};
ghost use Rattle.rh_pages.specs.Pages.{IsPagedStore, areas_in, free_in};
ghost use Rattle.rh_pages.specs.Table.{lists_of};

mod across;
mod moves;
mod parts;
mod store;

use crate::backing::Backing;
use crate::native::RegionBacking;
use crate::table::{FREE, PageTable};
use rh_defs::sizes::{MAX_AREAS, MAX_PAGES, MIN_PAGES, PAGE};
use rh_region::Region;
use rh_store::AreaId;
use std::alloc::{AllocError, Global};

/// A store whose areas share one ground: an area is a list of the ground's pages, and page k of the ground is its 4,096
/// bytes from the address 4096 * k on. Free pages are given from the lowest on: those of one area mostly stand side by
/// side. The pool counts its pages from the ground's end: its page 0 is the ground's last.
#[derive(Drop)]
pub struct PagedStore<G: Backing = RegionBacking> {
    site: G,
    table: PageTable,
    opened: [bool; MAX_AREAS],
    ghost few: { table.room ≤ MAX_PAGES },
    ghost long: { LISTS * table.room ≤ length (G.numbers site) },
    ghost kept: { IsPagedStore (G.bytes site) (areas_in (lists_of (G.numbers site) table)) opened
        (free_in (lists_of (G.numbers site) table)) table.room MAX_AREAS },
}

impl PagedStore {
    ghost use Rattle.std.specs.Prelude.{◌≡◌, IfOk};
    ghost use Rattle.rh_defs.specs.Memory.{fresh};
    ghost use Rattle.rh_pages.specs.Paged.{paged_memory};

    /// A store of this many pages, 8 to 1,024, all of them free. All memory is taken here: AllocError where it is
    /// refused.
    pub fn new(alloc: Global, pages: usize) -> Result<PagedStore, AllocError>
        requires least { MIN_PAGES ≤ pages }
        requires most { pages ≤ MAX_PAGES }
        ensures { IfOk result (λ s. paged_memory s ≡ fresh pages) }
    {
        let site = RegionBacking::new(alloc, pages)?;
        Ok(PagedStore::over(site, pages))
    }

    /// The region that holds the bytes of all areas, 4096 for each page of the store.
    pub fn region(&self) -> &Region
        ensures bytes { result.now ≡ self.now.site.region }
        ensures size { length result.now ≡ PAGE * (paged_memory self.now).pages }
    {
        self.site.region()
    }
}

impl<G: Backing> PagedStore<G> {
    ghost use Rattle.std.specs.Prelude.{◌≡◌, ℕ, ◌+◌, ◌*◌, ◌%◌, ◌<◌, ◌≤◌, get_or, length};
    ghost use Rattle.rh_defs.specs.Bytes.{part};
    ghost use Rattle.rh_defs.specs.Memory.{IsOpen, bytes, fresh};
    ghost use Rattle.rh_pages.specs.Inner.Spots.{spot_in};
    ghost use Rattle.rh_pages.specs.Pages.{list_at};
    ghost use Rattle.rh_pages.specs.Paged.{paged_memory, pages_of, place_of};

    /// A store of this many pages, at most 1,024, all of them free, on a ground of 4096 bytes for each page and `LISTS`
    /// page numbers for each, whatever they hold.
    pub fn over(site: G, pages: usize) -> PagedStore<G>
        requires most { pages ≤ MAX_PAGES }
        requires size { length (G.bytes site) ≡ PAGE * pages }
        requires numbers { LISTS * pages ≤ length (G.numbers site) }
        ensures { paged_memory result ≡ fresh pages }
    {
        let mut site = site;
        let mut table = PageTable::new(pages);
        for k in 0..pages {
            table.push(&mut site, FREE, (pages - 1 - k) as u16);
        }
        PagedStore {
            site,
            table,
            opened: [false; MAX_AREAS],
        }
    }

    /// The address on the ground of page i of an area, where the page's 4096 bytes stand together.
    /// It is a multiple of 4096, and no other page has it.
    pub fn place(&self, id: AreaId, i: usize) -> usize
        requires opened { IsOpen (paged_memory self.now) id.0 }
        requires within { PAGE * i < length (bytes (paged_memory self.now) id.0) }
        ensures value { result ≡ place_of self.now id.0 i }
        ensures whole { result % PAGE ≡ 0 }
        ensures within { result + PAGE ≤ length (G.bytes self.now.site) }
        ensures bytes { part (G.bytes self.now.site) result PAGE ≡
            part (bytes (paged_memory self.now) id.0) (PAGE * i) PAGE }
        ensures apart { (a j : ℕ) → IsOpen (paged_memory self.now) a → PAGE * j < length
            (bytes (paged_memory self.now) a) →
            place_of self.now a j ≡ result → (a ≡ id.0) × (j ≡ i) }
    {
        PAGE * self.table.at(&self.site, id.0 as usize, i) as usize
    }

    /// Which page of the ground page i of an area is.
    #[inline(always)]
    fn backing_page(&self, id: AreaId, i: usize) -> usize
        requires opened { IsOpen (paged_memory self.now) id.0 }
        requires within { PAGE * i < length (bytes (paged_memory self.now) id.0) }
        ensures value { result ≡ get_or (list_at (pages_of self.now) id.0) i 0 }
        ensures small { result < self.now.table.room }
    {
        self.table.at(&self.site, id.0 as usize, i) as usize
    }

    /// The address on the ground of the byte at an offset of an area.
    fn spot(&self, id: AreaId, at: usize) -> usize
        requires opened { IsOpen (paged_memory self.now) id.0 }
        requires within { at < length (bytes (paged_memory self.now) id.0) }
        ensures { result ≡ spot_in (pages_of self.now) id.0 at }
    {
        PAGE * self.table.at(&self.site, id.0 as usize, at / PAGE) as usize + at % PAGE
    }
}
