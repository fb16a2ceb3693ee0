//! Fresh stores of 64 pages.

ghost use Rattle.std.specs.Prelude.{◌≡◌, IfOk};
ghost use Rattle.rh_defs.specs.Memory.{fresh};
ghost use Rattle.rh_pages.specs.Paged as pages;
ghost use Rattle.rh_store.specs.Plain as plain;

use rh_pages::PagedStore;
use rh_store::PlainStore;
use std::alloc::{AllocError, Global};

/// A store that keeps a vector for each area.
pub(crate) fn plain_store(alloc: Global) -> Result<PlainStore, AllocError>
    ensures fresh { IfOk result (λ s. plain.memory_of s ≡ fresh (plain.memory_of s).pages) }
    ensures pages { IfOk result (λ s. (plain.memory_of s).pages ≡ 64) }
{
    let store = PlainStore::new(alloc, 64)?;
    Ok(store)
}

/// A store whose areas are scattered pages of one region.
pub(crate) fn paged_store(alloc: Global) -> Result<PagedStore, AllocError>
    ensures fresh { IfOk result (λ s. pages.paged_memory s ≡ fresh (pages.paged_memory s).pages) }
    ensures pages { IfOk result (λ s. (pages.paged_memory s).pages ≡ 64) }
{
    let store = PagedStore::new(alloc, 64)?;
    Ok(store)
}
