//! Moves of bytes that lie side by side on the ground, and moves of single pages between the lists.
#![tactic(auto, unfolding(rh_defs::specs::Memory::bytes, crate::specs::Paged::paged_memory))]

use super::PagedStore;
use crate::backing::Backing;
use crate::table::FREE;
use rh_defs::sizes::PAGE;
use rh_store::AreaId;

impl<G: Backing> PagedStore<G> {
    ghost use Rattle.std.specs.Prelude.{◌≡◌, ℕ, ◌+◌, ◌*◌, ◌%◌, ◌<◌, ◌≤◌, length, replicate};
    ghost use Rattle.rh_defs.specs.Bytes.{part, with_part};
    ghost use Rattle.rh_defs.specs.Memory.{IsOpen, bytes, with_bytes, grown, shrunk};
    ghost use Rattle.rh_defs.specs.declared.sizes.TheConstants.{PAGE};
    ghost use Rattle.rh_pages.specs.Inner.Spots.{IsTogether};
    ghost use Rattle.rh_pages.specs.Paged.{paged_memory, pages_of};

    /// Writes zeros to bytes of one page.
    pub(super) fn zero_part(&mut self, id: AreaId, at: usize, n: usize)
        requires opened { IsOpen (paged_memory self.old) id.0 }
        requires some { 0 < n }
        requires within { at + n ≤ length (bytes (paged_memory self.old) id.0) }
        requires fits { at % PAGE + n ≤ PAGE }
        ensures { paged_memory self.new ≡ with_bytes (paged_memory self.old) id.0
            (with_part (bytes (paged_memory self.old) id.0) at (replicate n 0)) }
    {
        let place = self.spot(id, at);
        self.site.zero(place, n);
    }

    /// Copies bytes that lie side by side on the ground to others that do. The two runs may overlap.
    pub(super) fn copy_part(&mut self, id: AreaId, at: usize, id2: AreaId, at2: usize, n: usize)
        requires opened { IsOpen (paged_memory self.old) id.0 }
        requires opened2 { IsOpen (paged_memory self.old) id2.0 }
        requires some { 0 < n }
        requires source { at + n ≤ length (bytes (paged_memory self.old) id.0) }
        requires source_together { IsTogether (pages_of self.old) id.0 at n }
        requires target { at2 + n ≤ length (bytes (paged_memory self.old) id2.0) }
        requires target_together { IsTogether (pages_of self.old) id2.0 at2 n }
        ensures { paged_memory self.new ≡ with_bytes (paged_memory self.old) id2.0
            (with_part (bytes (paged_memory self.old) id2.0) at2 (part (bytes (paged_memory self.old) id.0) at n)) }
    {
        let from = self.spot(id, at);
        let to = self.spot(id2, at2);
        self.site.slide(from, to, n);
    }

    /// Writes bytes that were lent to one page.
    pub(super) fn put_part(&mut self, id: AreaId, at: usize, from: &[u8])
        requires opened { IsOpen (paged_memory self.old) id.0 }
        requires some { 0 < length from.now }
        requires within { at + length from.now ≤ length (bytes (paged_memory self.old) id.0) }
        requires fits { at % PAGE + length from.now ≤ PAGE }
        ensures { paged_memory self.new ≡ with_bytes (paged_memory self.old) id.0
            (with_part (bytes (paged_memory self.old) id.0) at from.now) }
    {
        let place = self.spot(id, at);
        self.site.copy_in(place, from);
    }

    /// Fills a buffer that was lent with bytes of one page.
    pub(super) fn get_part(&self, id: AreaId, at: usize, to: &mut [u8])
        requires opened { IsOpen (paged_memory self.now) id.0 }
        requires some { 0 < length to.old }
        requires within { at + length to.old ≤ length (bytes (paged_memory self.now) id.0) }
        requires fits { at % PAGE + length to.old ≤ PAGE }
        ensures { to.new ≡ part (bytes (paged_memory self.now) id.0) at (length to.old) }
    {
        let place = self.spot(id, at);
        to.copy_from_slice(self.site.bytes(place, to.len()));
    }

    /// Zeroes a free page and appends it to an area.
    pub(super) fn grow_page(&mut self, id: AreaId)
        requires opened { IsOpen (paged_memory self.old) id.0 }
        requires some { 0 < (paged_memory self.old).free }
        ensures { paged_memory self.new ≡ grown (paged_memory self.old) id.0 1 }
    {
        let k = self.table.pop(&self.site, FREE);
        self.site.zero(PAGE * k as usize, PAGE);
        self.table.push(&mut self.site, id.0 as usize, k);
    }

    /// Takes an area's last page off and frees it.
    pub(super) fn shrink_page(&mut self, id: AreaId)
        requires opened { IsOpen (paged_memory self.old) id.0 }
        requires some { PAGE ≤ length (bytes (paged_memory self.old) id.0) }
        ensures { paged_memory self.new ≡ shrunk (paged_memory self.old) id.0 1 }
    {
        let k = self.table.pop(&self.site, id.0 as usize);
        self.table.push(&mut self.site, FREE, k);
    }
}
