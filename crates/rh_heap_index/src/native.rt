//! The store of a native program.
ghost use Rattle.std.specs.Prelude.{◌≡◌, ◌≤◌, IfOk};
ghost use Rattle.rh_defs.specs.Memory.{fresh};
ghost use Rattle.rh_defs.specs.declared.sizes.TheConstants.{MAX_PAGES, MIN_PAGES};
ghost use Rattle.rh_pages.specs.Paged.{paged_memory};

use crate::indexed_store::IndexedStore;
use rh_pages::PagedStore;
use std::alloc::{AllocError, Global};

/// Scattered pages, with a map beside each heap.
pub type PageStore = IndexedStore<PagedStore>;

/// A fresh store of 8 to 1,024 pages: AllocError where memory is refused. No other call takes memory.
pub fn page_store(alloc: Global, pages: u32) -> Result<PageStore, AllocError>
    requires least { MIN_PAGES ≤ pages }
    requires most { pages ≤ MAX_PAGES }
    ensures { IfOk result (λ store. paged_memory store ≡ fresh pages) }
{
    let store = PagedStore::new(alloc, pages as usize)?;
    IndexedStore::new(alloc, store)
}
