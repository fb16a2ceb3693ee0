//! The store with its maps.
use crate::maps::{AREA_NUMBERS, Map, blank_maps, forget, is_enough, spoil, widened};
use crate::needs::Needs;
use rh_defs::sizes::{PAGE, WORD};
use rh_store::{
    AreaId, LINE_BYTES, Paged, Pages, Sited, Starts, Store, StoreFault, Words, WordsMut,
};
use std::alloc::{AllocError, Global};
use std::marker::Model;

/// A store, and for each area a map of its heap, with an offset above which that heap has no byte, and its pages. It is
/// seen as the store. A write that meets the heap makes the map stale; whoever changes a heap takes the map before, and
/// gives it back as it is then.
#[derive(Drop)]
pub struct IndexedStore<S: Store> {
    store: S,
    maps: Vec<Option<Map>>,
    needs: Needs,
    reach: [usize; AREA_NUMBERS],
}

impl<S: Store> Model for IndexedStore<S> {
    ghost use Rattle.rh_heap_index.specs.Maps.{AreTied};

    ghost Value = { S };

    ghost view = { λ s. s.store };

    ghost invariant = { λ s. AreTied (S.memory s.store) s.maps.items s.reach };
}

impl<S: Store + Drop> IndexedStore<S> {
    ghost use Rattle.std.specs.Prelude.{◌≡◌, IfOk};

    /// A store with a map for each area. The nth map has room for an area of the nth part of the pool, since the nth
    /// longest area has no more; the first of them have room for numbers too, if memory for that is granted. All memory
    /// is taken here: AllocError where it is refused, and then the store is dropped.
    #[tactic(auto, using(crate::proofs::KeptLaws::tied_stale))]
    pub fn new(alloc: Global, store: S) -> Result<IndexedStore<S>, AllocError>
        ensures { IfOk result (λ mapped. mapped ≡ store) }
    {
        let pages = store.free_pages();
        let needs = Needs::new(alloc)?;
        let maps = blank_maps(alloc, pages)?;
        Ok(IndexedStore {
            store,
            maps,
            needs,
            reach: [0; AREA_NUMBERS],
        })
    }
}

impl<S: Store> Words for IndexedStore<S> {
    ghost memory = { S.memory };

    #[inline(always)]
    fn word(&self, id: AreaId, at: usize) -> u32 {
        self.store.word(id, at)
    }

    fn copy_out(&self, id: AreaId, at: usize, to: &mut [u8]) {
        self.store.copy_out(id, at, to);
    }

    #[inline(always)]
    fn run(&self, id: AreaId, at: usize) -> &[u8] {
        self.store.run(id, at)
    }

    #[inline(always)]
    fn len(&self, id: AreaId) -> usize {
        self.store.len(id)
    }

    #[inline(always)]
    fn starts(&self, id: AreaId, at: usize) -> Option<&[u64]> {
        let k = id.0 as usize;
        if k >= self.maps.len() {
            return None;
        }
        match &self.maps[k] {
            Some(starts) => {
                if starts.known && starts.at == at {
                    Some(starts.lines.as_slice().split_at(starts.split).0)
                } else {
                    None
                }
            }
            None => None,
        }
    }

    ghost small = { S.small };
}

impl<S: Store> WordsMut for IndexedStore<S> {
    type Lines = Vec<u64>;

    #[inline(always)]
    fn set_word(&mut self, id: AreaId, at: usize, w: u32) {
        forget(&mut self.maps, &self.reach, id, at, at + WORD);
        self.store.set_word(id, at, w);
    }

    fn slide(&mut self, id: AreaId, from: usize, to: usize, n: usize) {
        forget(&mut self.maps, &self.reach, id, to, to + n);
        self.store.slide(id, from, to, n);
    }

    fn zero(&mut self, id: AreaId, at: usize, n: usize) {
        forget(&mut self.maps, &self.reach, id, at, at + n);
        self.store.zero(id, at, n);
    }

    fn copy_in(&mut self, id: AreaId, at: usize, from: &[u8]) {
        forget(&mut self.maps, &self.reach, id, at, at + from.len());
        self.store.copy_in(id, at, from);
    }

    #[inline(always)]
    fn take_starts(&mut self, id: AreaId) -> Option<Map> {
        let k = id.0 as usize;
        if k >= self.maps.len() {
            return None;
        }
        self.reach[k] = 0;
        let Some(starts) = self.maps[k].take() else {
            return None;
        };
        let words = 2 * self.store.len(id).div_ceil(LINE_BYTES);
        if is_enough(&starts, words) {
            return Some(starts);
        }
        widened(&mut self.maps, &self.needs, k, starts, words)
    }

    #[inline(always)]
    fn keep_starts(
        &mut self,
        id: AreaId,
        lines: Vec<u64>,
        split: usize,
        known: bool,
        at: usize,
        upper: usize,
    ) {
        let k = id.0 as usize;
        if k < self.maps.len() {
            self.reach[k] = upper;
            self.maps[k] = Some(Starts {
                lines,
                split,
                known,
                at,
                upper,
            });
        }
    }
}

impl<S: Store> Paged for IndexedStore<S> {
    #[inline(always)]
    fn rest_of_page(&self, id: AreaId, at: usize) -> &[u8] {
        self.store.rest_of_page(id, at)
    }

    ghost whole = { S.whole };
}

impl<S: Store> Pages for IndexedStore<S> {
    fn grow(&mut self, id: AreaId, pages: usize) -> Result<(), StoreFault> {
        self.store.grow(id, pages)?;
        self.needs.add(id.0 as usize, pages);
        Ok(())
    }

    fn grow_check(&self, id: AreaId, pages: usize) -> bool {
        self.store.grow_check(id, pages)
    }

    fn shrink(&mut self, id: AreaId, pages: usize) {
        let end = self.store.len(id);
        forget(&mut self.maps, &self.reach, id, end - PAGE * pages, end);
        self.store.shrink(id, pages);
        self.needs.subtract(id.0 as usize, pages);
    }

    fn free_pages(&self) -> usize {
        self.store.free_pages()
    }

    ghost ledger = { S.ledger };

    ghost within = { S.within };

    ghost few = { S.few };
}

impl<S: Store> Store for IndexedStore<S> {
    fn open(&mut self) -> Result<AreaId, StoreFault> {
        self.store.open()
    }

    fn close(&mut self, id: AreaId) {
        spoil(&mut self.maps, id.0 as usize);
        self.store.close(id);
        self.needs.clear(id.0 as usize);
    }

    fn copy(&mut self, id: AreaId, at: usize, id2: AreaId, at2: usize, n: usize) {
        forget(&mut self.maps, &self.reach, id2, at2, at2 + n);
        self.store.copy(id, at, id2, at2, n);
    }

    ghost numbered = { S.numbered };
}

impl<S: Sited> Sited for IndexedStore<S> {
    ghost pages_of = { S.pages_of };

    ghost free_of = { S.free_of };

    fn page(&self, id: AreaId, i: usize) -> usize {
        self.store.page(id, i)
    }

    fn free_page(&self, i: usize) -> usize {
        self.store.free_page(i)
    }

    ghost shared = { S.shared };
}
