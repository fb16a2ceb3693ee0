//! Bytes that a caller lends to be read, whose first pages are the one area 0.
#![tactic(auto, unfolding(crate::specs::LentPages::pages_memory_shown, crate::specs::LentPages::pages_memory_over))]

ghost use Rattle.std.specs.Prelude.{◌≡◌, ◌*◌, ◌≤◌, length};
ghost use Rattle.rh_defs.specs.declared.sizes.TheConstants.{PAGE};
ghost use Rattle.rh_store.specs.Limits.{area_limit};

use rh_defs::sizes::PAGE;
use rh_store::bytes::{copy_from, part_of, word_in};
use rh_store::{AreaId, Paged, Words};

/// Bytes that a caller lends to be read, at most 1 GiB of them. Their first pages are the area 0.
#[derive(Clone, Copy)]
pub struct LentPages<'a> {
    pub bytes: &'a [u8],
    pub pages: usize,
    pub ghost few: { length bytes.now ≤ area_limit },
    pub ghost within: { PAGE * pages ≤ length bytes.now },
}

impl Words for LentPages<'_> {
    ghost use Rattle.rh_lent_slot.specs.LentPages.{pages_memory_shown};
    ghost use Rattle.rh_lent_slot.specs.Inner.LentPagesLaws.{shown_pages_small_law};

    ghost memory = { pages_memory_shown };

    fn word(&self, _id: AreaId, at: usize) -> u32 {
        word_in(self.bytes, at)
    }

    fn copy_out(&self, _id: AreaId, at: usize, to: &mut [u8]) {
        copy_from(self.bytes, at, to);
    }

    fn run(&self, _id: AreaId, at: usize) -> &[u8] {
        let n = PAGE * self.pages - at;
        part_of(self.bytes, at, n)
    }

    fn len(&self, _id: AreaId) -> usize {
        PAGE * self.pages
    }

    ghost small = { shown_pages_small_law };
}

impl Paged for LentPages<'_> {
    ghost use Rattle.rh_lent_slot.specs.Inner.LentPagesLaws.{shown_whole_law};

    fn rest_of_page(&self, _id: AreaId, at: usize) -> &[u8] {
        part_of(self.bytes, at, PAGE - at % PAGE)
    }

    ghost whole = { shown_whole_law };
}
