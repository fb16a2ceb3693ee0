//! The memory of a native run.

ghost use Rattle.std.specs.Prelude.{◌≡◌, ◌≤◌, IfOk};
ghost use Rattle.rh_defs.specs.Runs.{start};
ghost use Rattle.rh_defs.specs.declared.sizes.TheConstants.{MAX_PAGES, MIN_PAGES};

use rh_defs::Files;
use rh_heap_index::{PageStore, page_store};
use rh_session::Buffers;
use rh_tasks::World;
use std::alloc::{AllocError, Global};

/// The first desk over a fresh store of 8 to 1,024 pages, with these files, and the buffers of a run. All memory of a
/// run is taken here: AllocError where it is refused.
#[inline(never)]
pub fn native_memory(
    alloc: Global,
    files: Files,
    pages: u32,
) -> Result<(Box<World<PageStore>>, Box<Buffers>), AllocError>
    requires least { MIN_PAGES ≤ pages }
    requires most { pages ≤ MAX_PAGES }
    ensures { IfOk result (λ memory. memory.0.value.desk ≡ start pages files) }
{
    let store = page_store(alloc, pages)?;
    let buffers = Box::new(alloc, Buffers::new())?;
    match Box::new(alloc, World::new(store, files)) {
        Ok(world) => Ok((world, buffers)),
        Err(_) => Err(AllocError),
    }
}

/// Gives back the memory of a run. Each run calls this behind its end: a box that goes where it was used has its world
/// moved to the stack of its user.
#[inline(never)]
pub fn give_back(world: Box<World<PageStore>>, buffers: Box<Buffers>) {
    drop(world);
    drop(buffers);
}
