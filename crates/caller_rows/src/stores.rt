//! Fresh stores of 8 pages, and the module area in one.

ghost use Rattle.std.specs.Prelude.{◌≡◌, ◌<◌, IfOk};
ghost use Rattle.rh_defs.specs.Memory.{fresh, open_below};
ghost use Rattle.rh_module.specs.ModuleArea.{IsModule};
ghost use Rattle.rh_pages.specs.Paged as pages;
ghost use Rattle.rh_store.specs.Plain as plain;
ghost use Rattle.rh_defs.specs.declared.sizes.TheConstants.{MAX_AREAS};

use rh_module::Module;
use rh_pages::PagedStore;
use rh_store::{PlainStore, Store, StoreFault};
use std::alloc::{AllocError, Global};

/// A store that keeps a vector for each area.
pub(crate) fn plain_store(alloc: Global) -> Result<PlainStore, AllocError>
    ensures areas { IfOk result (λ s. open_below (plain.memory_of s).area MAX_AREAS < MAX_AREAS) }
    ensures fresh { IfOk result (λ s. plain.memory_of s ≡ fresh (plain.memory_of s).pages) }
    ensures pages { IfOk result (λ s. (plain.memory_of s).pages ≡ 8) }
{
    let store = PlainStore::new(alloc, 8)?;
    Ok(store)
}

/// A store whose areas are scattered pages of one region.
pub(crate) fn paged_store(alloc: Global) -> Result<PagedStore, AllocError>
    ensures areas { IfOk result (λ s. open_below (pages.paged_memory s).area MAX_AREAS < MAX_AREAS) }
    ensures fresh { IfOk result (λ s. pages.paged_memory s ≡ fresh (pages.paged_memory s).pages) }
    ensures pages { IfOk result (λ s. (pages.paged_memory s).pages ≡ 8) }
{
    let store = PagedStore::new(alloc, 8)?;
    Ok(store)
}

/// The module area in an area of one page.
#[tactic(auto, using(rh_defs::proofs::BytesLaws::word_laws, rh_defs::proofs::MemoryLaws::memory_laws, rh_defs::proofs::MemoryLaws::pool_laws))]
pub(crate) fn started<S: Store>(store: &mut S) -> Result<Module, StoreFault>
    ensures { IfOk result (IsModule (S.memory store.new)) }
{
    let area = store.open()?;
    store.grow(area, 1)?;
    Ok(Module::start(store, area))
}

/// Gives so many pages to an area of their own.
#[tactic(auto, using(rh_defs::proofs::MemoryLaws::memory_laws, rh_defs::proofs::MemoryLaws::pool_laws))]
pub(crate) fn take_pages<S: Store>(store: &mut S, pages: usize) -> Result<(), StoreFault> {
    let area = store.open()?;
    store.grow(area, pages)
}
