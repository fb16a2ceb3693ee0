//! The calls of a store, over page lists.
#![tactic(auto, unfolding(rh_defs::specs::Memory::bytes, crate::specs::Paged::paged_memory))]

ghost use Rattle.std.specs.Prelude.{◌≡◌, ℕ, ◌<◌, true, false, get_or, length, unwrap_or, IfSome};

use super::PagedStore;
use crate::backing::Backing;
use crate::table::FREE;
use rh_defs::sizes::{PAGE, WORD};
use rh_store::{AreaId, NoLines, Paged, Pages, Sited, Store, StoreFault, Words, WordsMut};

/// The number of the first area that isn't open.
fn first_closed(opened: &[bool]) -> Option<usize>
    ensures closed { IfSome result (λ i. (i < length opened.now) × (get_or opened.now i false ≡ false)) }
    ensures least { (k : ℕ) → k < unwrap_or result (length opened.now) → get_or opened.now k false ≡ true }
{
    for (i, is_open) in opened.iter().enumerate() {
        if !*is_open {
            return Some(i);
        }
    }
    None
}

impl<G: Backing> Words for PagedStore<G> {
    ghost use Rattle.rh_pages.specs.Paged.{paged_memory};
    ghost use Rattle.rh_pages.specs.Inner.PagedLaws.{paged_small_law};

    ghost memory = { paged_memory };

    fn word(&self, id: AreaId, at: usize) -> u32 {
        let page = at / PAGE;
        let offset = at - PAGE * page;
        if offset <= PAGE - WORD {
            let start = self.place(id, page);
            self.site.word(start + offset)
        } else {
            self.word_across(id, at)
        }
    }

    fn copy_out(&self, id: AreaId, at: usize, to: &mut [u8]) {
        let n = to.len();
        let mut done = 0;
        while done < n {
            let source = at + done;
            let run = (n - done).min(PAGE - source % PAGE);
            self.get_part(id, source, &mut to[done..done + run]);
            done += run;
        }
    }

    fn run(&self, id: AreaId, at: usize) -> &[u8] {
        let first = self.spot(id, at);
        self.site.bytes(first, PAGE - at % PAGE)
    }

    fn len(&self, id: AreaId) -> usize {
        PAGE * self.table.len(id.0 as usize)
    }

    ghost small = { paged_small_law };
}

impl<G: Backing> WordsMut for PagedStore<G> {
    type Lines = NoLines;

    fn set_word(&mut self, id: AreaId, at: usize, w: u32) {
        let page = at / PAGE;
        let offset = at - PAGE * page;
        if offset <= PAGE - WORD {
            let start = self.place(id, page);
            self.site.set_word(start + offset, w);
        } else {
            self.set_word_across(id, at, w);
        }
    }

    fn slide(&mut self, id: AreaId, from: usize, to: usize, n: usize) {
        if to <= from {
            self.slide_down(id, from, to, n);
        } else {
            self.slide_up(id, from, to, n);
        }
    }

    fn zero(&mut self, id: AreaId, at: usize, n: usize) {
        let mut done = 0;
        while done < n {
            let target = at + done;
            let run = (n - done).min(PAGE - target % PAGE);
            self.zero_part(id, target, run);
            done += run;
        }
    }

    fn copy_in(&mut self, id: AreaId, at: usize, from: &[u8]) {
        let n = from.len();
        let mut done = 0;
        while done < n {
            let target = at + done;
            let run = (n - done).min(PAGE - target % PAGE);
            self.put_part(id, target, &from[done..done + run]);
            done += run;
        }
    }
}

impl<G: Backing> Paged for PagedStore<G> {
    ghost use Rattle.rh_pages.specs.Inner.PagedLaws.{paged_whole_law};

    fn rest_of_page(&self, id: AreaId, at: usize) -> &[u8] {
        let start = self.spot(id, at);
        self.site.bytes(start, PAGE - at % PAGE)
    }

    ghost whole = { paged_whole_law };
}

impl<G: Backing> Pages for PagedStore<G> {
    ghost use Rattle.rh_pages.specs.Inner.PagedLaws.{paged_ledger_law, paged_within_law, paged_few_law};

    fn grow(&mut self, id: AreaId, pages: usize) -> Result<(), StoreFault> {
        if self.table.len(FREE) < pages {
            return Err(StoreFault::NoPages);
        }
        for _page in 0..pages {
            self.grow_page(id);
        }
        Ok(())
    }

    fn grow_check(&self, id: AreaId, pages: usize) -> bool {
        pages <= self.table.len(FREE)
    }

    fn shrink(&mut self, id: AreaId, pages: usize) {
        for _page in 0..pages {
            self.shrink_page(id);
        }
    }

    fn free_pages(&self) -> usize {
        self.table.len(FREE)
    }

    ghost ledger = { paged_ledger_law };

    ghost within = { paged_within_law };

    ghost few = { paged_few_law };
}

impl<G: Backing> Store for PagedStore<G> {
    ghost use Rattle.rh_pages.specs.Inner.PagedLaws.{paged_numbered_law};

    fn open(&mut self) -> Result<AreaId, StoreFault> {
        match first_closed(&self.opened) {
            None => Err(StoreFault::TooManyAreas),
            Some(i) => {
                self.opened[i] = true;
                Ok(AreaId(i as u8))
            }
        }
    }

    fn close(&mut self, id: AreaId) {
        let pages = self.len(id) / PAGE;
        self.shrink(id, pages);
        self.opened[id.0 as usize] = false;
    }

    fn copy(&mut self, id: AreaId, at: usize, id2: AreaId, at2: usize, n: usize) {
        if id.0 == id2.0 {
            self.slide(id, at, at2, n);
        } else {
            self.copy_across(id, at, id2, at2, n);
        }
    }

    ghost numbered = { paged_numbered_law };
}

impl<G: Backing> Sited for PagedStore<G> {
    ghost use Rattle.rh_pages.specs.Paged.{numbers_of, free_numbers_of};
    ghost use Rattle.rh_pages.specs.Inner.PagedLaws.{shared_law};

    ghost pages_of = { numbers_of };

    ghost free_of = { free_numbers_of };

    fn page(&self, id: AreaId, i: usize) -> usize {
        self.table.room() - 1 - self.backing_page(id, i)
    }

    fn free_page(&self, i: usize) -> usize {
        self.table.room() - 1 - self.table.at(&self.site, FREE, i) as usize
    }

    ghost shared = { shared_law };
}
