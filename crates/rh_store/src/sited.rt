//! Stores that tell which page of their pool is whose.
ghost use Rattle.std.specs.Prelude.{◌≡◌, ℕ, ◌*◌, ◌<◌, List, [], get_or, length, slice_index};
ghost use Rattle.rh_defs.specs.Memory.{IsOpen, bytes};
ghost use Rattle.rh_defs.specs.declared.sizes.TheConstants.{PAGE};
ghost use Rattle.rh_store.specs.Shares.{SharesOut};

use crate::store::{AreaId, Store};

/// A store whose pool has pages with numbers, from 0 on. Which page an area gets is the store's own affair.
pub trait Sited: Store {
    /// The pages of each area from below, by the areas' numbers; a closed area has none.
    ghost pages_of: { Self → List (List ℕ) };

    /// The free pages.
    ghost free_of: { Self → List ℕ };

    /// The number of page i of an area.
    fn page(&self, id: AreaId, i: usize) -> usize
        requires opened { IsOpen (Self.memory self.now) id.0 }
        requires within { PAGE * i < length (bytes (Self.memory self.now) id.0) }
        ensures { result ≡ slice_index (get_or (pages_of self.now) id.0 []) i };

    /// The number of free page i; the last one is the next that an area gets.
    fn free_page(&self, i: usize) -> usize
        requires { i < (Self.memory self.now).free }
        ensures { result ≡ slice_index (free_of self.now) i };

    /// Each page of the pool is one area's or free, just once.
    ghost shared: { (s : Self) → SharesOut (Self.memory s) (pages_of s) (free_of s) };
}
