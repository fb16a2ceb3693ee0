//! The memory of a desk, which a caller lends.

ghost use Rattle.std.specs.Prelude.{◌≡◌, ◌≤◌, length, IsTrue};
ghost use Rattle.rh_defs.specs.Memory.{fresh};
ghost use Rattle.rh_defs.specs.declared.sizes.TheConstants.{MAX_PAGES, MIN_PAGES};
ghost use Rattle.rh_pages.specs.Paged.{paged_memory};
ghost use Rattle.vf_web.specs.Room.{has_room_for};

use rh_defs::sizes::{MAX_PAGES, MIN_PAGES, PAGE};
use rh_pages::{LISTS, LentBacking, PagedStore};

/// Whether there may be so many pages, and so many bytes and page numbers are enough for them.
pub fn has_room(pages: u32, bytes: usize, numbers: usize) -> bool
    ensures { result ≡ has_room_for pages bytes numbers }
{
    let pages = pages as usize;
    if pages < MIN_PAGES || pages > MAX_PAGES {
        return false;
    }
    PAGE * pages <= bytes && LISTS * pages <= numbers
}

/// A store of free pages in lent memory, whatever that holds.
#[tactic(auto, unfolding(rh_defs::specs::Memory::fresh))]
pub fn store_over<'a>(
    pages: u32,
    pool: &'a mut [u8],
    numbers: &'a mut [u16],
) -> PagedStore<LentBacking<'a>>
    requires { IsTrue (has_room_for pages (length pool.now) (length numbers.now)) }
    ensures fresh { paged_memory result ≡ fresh (paged_memory result).pages }
    ensures pages { (paged_memory result).pages ≡ pages }
    ensures least { MIN_PAGES ≤ (paged_memory result).pages }
    ensures most { (paged_memory result).pages ≤ MAX_PAGES }
{
    let pages = pages as usize;
    let ground = LentBacking::new(&mut pool[..PAGE * pages], numbers);
    PagedStore::over(ground, pages)
}
