//! Fresh stores, in which an area can be opened: of 64 pages, and of 8.

ghost use Rattle.std.specs.Prelude.{◌<◌, IfOk};
ghost use Rattle.rh_defs.specs.Memory.{open_below};
ghost use Rattle.rh_pages.specs.Paged as pages;
ghost use Rattle.rh_store.specs.Plain as plain;
ghost use Rattle.rh_defs.specs.declared.sizes.TheConstants.{MAX_AREAS};

use rh_pages::PagedStore;
use rh_store::PlainStore;
use std::alloc::{AllocError, Global};

/// A store that keeps a vector for each area.
pub(crate) fn plain_store(alloc: Global) -> Result<PlainStore, AllocError>
    ensures { IfOk result (λ s. open_below (plain.memory_of s).area MAX_AREAS < MAX_AREAS) }
{
    let store = PlainStore::new(alloc, 64)?;
    Ok(store)
}

/// A store whose areas are scattered pages of one region.
pub(crate) fn paged_store(alloc: Global) -> Result<PagedStore, AllocError>
    ensures { IfOk result (λ s. open_below (pages.paged_memory s).area MAX_AREAS < MAX_AREAS) }
{
    let store = PagedStore::new(alloc, 64)?;
    Ok(store)
}

/// A plain store of 8 pages.
pub(crate) fn small_plain_store(alloc: Global) -> Result<PlainStore, AllocError> {
    PlainStore::new(alloc, 8)
}

/// A store of 8 scattered pages.
pub(crate) fn small_paged_store(alloc: Global) -> Result<PagedStore, AllocError> {
    PagedStore::new(alloc, 8)
}
