//! The store below the world, and whose its areas are.

ghost use Rattle.std.specs.Prelude.{◌≡◌, ℕ, ◌+◌, ◌≤◌, List, [], ◌++◌, length, map};
ghost use Rattle.rh_defs.specs.declared.sizes.TheConstants.{MAX_AREAS};
ghost use Rattle.rh_tasks.specs.declared.made.MadeArea.{MadeArea};
ghost use Rattle.rh_tasks.specs.declared.seat.Seat.{Seat};
ghost use Rattle.rh_tasks.specs.Shown.{Shown};
ghost use Rattle.rh_tasks.specs.Standing.{HaveEachPage, StandsIn, numbers};
ghost use Rattle.rh_tasks.specs.View.{fixed};

use crate::made::MadeAreas;
use crate::named_files::NamedFiles;
use crate::seat::Seats;
use crate::world::World;
use arrayvec::ArrayVec;
use rh_defs::sizes::{FIXED_AREAS, MAX_AREAS};
use rh_store::{AreaId, Sited, Store};

/// Puts areas 0 to 5 into an empty list.
fn push_fixed(areas: &mut ArrayVec<AreaId, MAX_AREAS>)
    requires { areas.old.items ≡ [] }
    ensures { numbers areas.new.items ≡ fixed }
{
    for number in 0..FIXED_AREAS {
        areas.push(AreaId(number as u8));
    }
}

/// Appends the areas of made areas.
fn push_made(made: &MadeAreas, areas: &mut ArrayVec<AreaId, MAX_AREAS>)
    requires { length areas.old.items + length made.now.items ≤ MAX_AREAS }
    ensures { areas.new.items ≡ areas.old.items ++ map (λ (a : MadeArea). a.area) made.now.items }
{
    for area in made.as_slice() {
        areas.push(area.area);
    }
}

/// Appends the areas of slots.
fn push_slots(seats: &Seats, areas: &mut ArrayVec<AreaId, MAX_AREAS>)
    requires { length areas.old.items + length seats.now.items ≤ MAX_AREAS }
    ensures { areas.new.items ≡ areas.old.items ++ map (λ (s : Seat). s.slot.area) seats.now.items }
{
    for seat in seats.as_slice() {
        areas.push(seat.slot.area);
    }
}

impl<S: Store, F: NamedFiles> World<S, F> {
    /// Lends the store, and puts its open areas into a list, in place of what it held, in the order of `areas`: areas 0
    /// to 5, the made areas in order of number, and the slots in order of handle.
    pub fn store(&self, areas: &mut ArrayVec<AreaId, MAX_AREAS>) -> &S
        ensures { StandsIn (S.memory result.now) (numbers areas.new.items) self.now }
    {
        areas.clear();
        push_fixed(areas);
        push_made(&self.made, areas);
        push_slots(&self.seats, areas);
        &self.store
    }
}

/// Where the pages of a store have numbers, each page of the pool is a page of one of the areas that `World::store`
/// lists, or free, just once. Nothing is done.
pub fn share_law<S: Sited>(store: &S)
    ensures { (ids : List ℕ) (s : Shown) → StandsIn (S.memory store.now) ids s
        → HaveEachPage (S.pages_of store.now) (S.free_of store.now) ids (S.memory store.now).pages }
{
    let _ = store;
}
