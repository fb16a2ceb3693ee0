//! A store that keeps a vector for each area: the plain program that every other store is compared
//! with.
#![tactic(auto, unfolding(rh_defs::specs::Memory::bytes, crate::specs::Plain::memory_of))]

ghost use Rattle.std.specs.Prelude.{◌≤◌};
ghost use Rattle.rh_store.specs.declared.plain.TheConstants.{MOST_PLAIN_PAGES};
ghost use Rattle.rh_store.specs.Areas.{IsStore};
ghost use Rattle.rh_defs.specs.declared.sizes.TheConstants.{MAX_AREAS, MAX_PAGES};

use crate::area::{
    Area, close_at, copy_at, first_closed, lengthen_at, open_at, put_at, set_word_at, shorten_at,
    slide_at, zero_at,
};
use crate::bytes::{copy_from, part_of, word_in};
use crate::starts::NoLines;
use crate::store::{AreaId, Paged, Pages, Store, StoreFault, Words, WordsMut};
use rh_defs::sizes::{MAX_AREAS, MIN_PAGES, PAGE};
use std::alloc::{AllocError, Global};

/// The most pages of such a store, each of whose areas has room for all of them.
pub const MOST_PLAIN_PAGES: usize = 256;

/// A store that keeps a vector for each area, with room for all pages from the start.
#[derive(Drop)]
pub struct PlainStore {
    areas: Vec<Area>,
    free: usize,
    pages: usize,
    ghost few: { pages ≤ MAX_PAGES },
    ghost kept: { IsStore areas.items free pages MAX_AREAS },
}

impl PlainStore {
    ghost use Rattle.std.specs.Prelude.{◌≡◌, ◌≤◌, IfOk};
    ghost use Rattle.rh_store.specs.Plain.{memory_of};
    ghost use Rattle.rh_defs.specs.Memory.{fresh};

    /// A store of this many pages, all of them free. All memory is taken here: AllocError where it is
    /// refused.
    pub fn new(alloc: Global, pages: usize) -> Result<PlainStore, AllocError>
        requires least { MIN_PAGES ≤ pages }
        requires most { pages ≤ MOST_PLAIN_PAGES }
        ensures { IfOk result (λ s. memory_of s ≡ fresh pages) }
    {
        let mut areas = Vec::with_capacity(alloc, MAX_AREAS)?;
        for _k in 0..MAX_AREAS {
            let bytes = Vec::with_capacity(alloc, PAGE * pages)?;
            areas.push(Area {
                opened: false,
                bytes,
            })?;
        }
        Ok(PlainStore {
            areas,
            free: pages,
            pages,
        })
    }
}

impl Words for PlainStore {
    ghost use Rattle.rh_store.specs.Plain.{memory_of};
    ghost use Rattle.rh_store.specs.Inner.PlainLaws.{small_law};

    ghost memory = { memory_of };

    fn word(&self, id: AreaId, at: usize) -> u32 {
        word_in(&self.areas[id.0 as usize].bytes, at)
    }

    fn copy_out(&self, id: AreaId, at: usize, to: &mut [u8]) {
        copy_from(&self.areas[id.0 as usize].bytes, at, to);
    }

    fn run(&self, id: AreaId, at: usize) -> &[u8] {
        let bytes = &self.areas[id.0 as usize].bytes;
        part_of(bytes, at, bytes.len() - at)
    }

    fn len(&self, id: AreaId) -> usize {
        self.areas[id.0 as usize].bytes.len()
    }

    ghost small = { small_law };
}

impl WordsMut for PlainStore {
    type Lines = NoLines;

    fn set_word(&mut self, id: AreaId, at: usize, w: u32) {
        set_word_at(&mut self.areas, id.0 as usize, at, w);
    }

    fn slide(&mut self, id: AreaId, from: usize, to: usize, n: usize) {
        slide_at(&mut self.areas, id.0 as usize, from, to, n);
    }

    fn zero(&mut self, id: AreaId, at: usize, n: usize) {
        zero_at(&mut self.areas, id.0 as usize, at, n);
    }

    fn copy_in(&mut self, id: AreaId, at: usize, from: &[u8]) {
        put_at(&mut self.areas, id.0 as usize, at, from);
    }
}

impl Paged for PlainStore {
    ghost use Rattle.rh_store.specs.Inner.PlainLaws.{whole_law};

    fn rest_of_page(&self, id: AreaId, at: usize) -> &[u8] {
        part_of(&self.areas[id.0 as usize].bytes, at, PAGE - at % PAGE)
    }

    ghost whole = { whole_law };
}

impl Pages for PlainStore {
    ghost use Rattle.rh_store.specs.Inner.PlainLaws.{ledger_law, within_law, few_law};

    fn grow(&mut self, id: AreaId, pages: usize) -> Result<(), StoreFault> {
        if self.free < pages {
            return Err(StoreFault::NoPages);
        }
        let n = self.len(id) + PAGE * pages;
        self.free -= pages;
        lengthen_at(&mut self.areas, id.0 as usize, n);
        Ok(())
    }

    fn grow_check(&self, id: AreaId, pages: usize) -> bool {
        pages <= self.free
    }

    fn shrink(&mut self, id: AreaId, pages: usize) {
        let n = self.len(id) - PAGE * pages;
        self.free += pages;
        shorten_at(&mut self.areas, id.0 as usize, n);
    }

    fn free_pages(&self) -> usize {
        self.free
    }

    ghost ledger = { ledger_law };

    ghost within = { within_law };

    ghost few = { few_law };
}

impl Store for PlainStore {
    ghost use Rattle.rh_store.specs.Inner.PlainLaws.{numbered_law};

    fn open(&mut self) -> Result<AreaId, StoreFault> {
        match first_closed(&self.areas) {
            None => Err(StoreFault::TooManyAreas),
            Some(i) => {
                open_at(&mut self.areas, i);
                Ok(AreaId(i as u8))
            }
        }
    }

    fn close(&mut self, id: AreaId) {
        self.free += self.len(id) / PAGE;
        close_at(&mut self.areas, id.0 as usize);
    }

    fn copy(&mut self, id: AreaId, at: usize, id2: AreaId, at2: usize, n: usize) {
        if id.0 == id2.0 {
            slide_at(&mut self.areas, id.0 as usize, at, at2, n);
        } else {
            copy_at(&mut self.areas, id.0 as usize, at, id2.0 as usize, at2, n);
        }
    }

    ghost numbered = { numbered_law };
}
