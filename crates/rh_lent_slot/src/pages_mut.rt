//! Bytes that a caller lends to be written, whose first pages are the one area 0, and whose other whole pages are free.
#![tactic(auto, unfolding(crate::specs::LentPages::lent_pages_memory, crate::specs::LentPages::pages_memory_over))]

ghost use Rattle.std.specs.Prelude.{◌≡◌, ◌*◌, ◌≤◌, length};
ghost use Rattle.rh_defs.specs.declared.sizes.TheConstants.{PAGE};
ghost use Rattle.rh_store.specs.Limits.{area_limit};

use rh_defs::sizes::PAGE;
use rh_store::bytes::{copy_from, part_of, put_in, put_word_in, slide_in, word_in, zero_in};
use rh_store::{AreaId, NoLines, Paged, Pages, StoreFault, Words, WordsMut};

/// Bytes that a caller lends to be written, at most 1 GiB of them. Their first pages are the area 0, and the whole
/// pages behind are free.
#[derive(Drop)]
pub struct LentPagesMut<'a> {
    pub bytes: &'a mut [u8],
    pub pages: usize,
    pub ghost few: { length bytes.now ≤ area_limit },
    pub ghost within: { PAGE * pages ≤ length bytes.now },
}

impl Words for LentPagesMut<'_> {
    ghost use Rattle.rh_lent_slot.specs.LentPages.{lent_pages_memory};
    ghost use Rattle.rh_lent_slot.specs.Inner.LentPagesLaws.{lent_small_law};

    ghost memory = { lent_pages_memory };

    fn word(&self, _id: AreaId, at: usize) -> u32 {
        word_in(self.bytes, at)
    }

    fn copy_out(&self, _id: AreaId, at: usize, to: &mut [u8]) {
        copy_from(self.bytes, at, to);
    }

    fn run(&self, _id: AreaId, at: usize) -> &[u8] {
        let n = PAGE * self.pages - at;
        part_of(self.bytes, at, n)
    }

    fn len(&self, _id: AreaId) -> usize {
        PAGE * self.pages
    }

    ghost small = { lent_small_law };
}

impl WordsMut for LentPagesMut<'_> {
    type Lines = NoLines;

    fn set_word(&mut self, _id: AreaId, at: usize, w: u32) {
        let bytes = &mut *self.bytes;
        put_word_in(bytes, at, w);
    }

    fn slide(&mut self, _id: AreaId, from: usize, to: usize, n: usize) {
        let bytes = &mut *self.bytes;
        slide_in(bytes, from, to, n);
    }

    fn zero(&mut self, _id: AreaId, at: usize, n: usize) {
        let bytes = &mut *self.bytes;
        zero_in(bytes, at, n);
    }

    fn copy_in(&mut self, _id: AreaId, at: usize, from: &[u8]) {
        let bytes = &mut *self.bytes;
        put_in(bytes, at, from);
    }
}

impl Paged for LentPagesMut<'_> {
    ghost use Rattle.rh_lent_slot.specs.Inner.LentPagesLaws.{lent_whole_law};

    fn rest_of_page(&self, _id: AreaId, at: usize) -> &[u8] {
        part_of(self.bytes, at, PAGE - at % PAGE)
    }

    ghost whole = { lent_whole_law };
}

impl Pages for LentPagesMut<'_> {
    ghost use Rattle.rh_lent_slot.specs.Inner.LentPagesLaws.{lent_ledger_law, lent_within_law, lent_few_law};

    fn grow(&mut self, _id: AreaId, pages: usize) -> Result<(), StoreFault> {
        if self.free_pages() < pages {
            return Err(StoreFault::NoPages);
        }
        let from = PAGE * self.pages;
        let bytes = &mut *self.bytes;
        zero_in(bytes, from, PAGE * pages);
        self.pages += pages;
        Ok(())
    }

    fn grow_check(&self, _id: AreaId, pages: usize) -> bool {
        pages <= self.free_pages()
    }

    fn shrink(&mut self, _id: AreaId, pages: usize) {
        self.pages -= pages;
    }

    fn free_pages(&self) -> usize {
        self.bytes.len() / PAGE - self.pages
    }

    ghost ledger = { lent_ledger_law };

    ghost within = { lent_within_law };

    ghost few = { lent_few_law };
}
