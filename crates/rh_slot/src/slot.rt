//! A slot: where it is, how it begins and ends, whether its blocks give way, and what lies inside it.
ghost use Rattle.std.specs.Prelude.{◌≡◌, ℕ, ◌<◌, true, IfOk, OnErr, IsNone};
ghost use Rattle.rh_defs.specs.Memory.{Memory, IsOpen, OnlyArea, closed, open_below};
ghost use Rattle.rh_defs.specs.Chain.{outcome_of};
ghost use Rattle.rh_defs.specs.Slot.{new_slot, slot_begin, slot_set_budge, holds};
ghost use Rattle.rh_defs.specs.declared.sizes.TheConstants.{MAX_AREAS};
ghost use Rattle.rh_slot.specs.SlotArea.{IsSlotIn, SpellsSlotIn, slot_in};

use rh_defs::Refusal;
use rh_defs::sizes::{C_HEAP_PLACE, C_HEAP_START, PAGE};
use rh_store::{AreaId, Store, Words};

/// A task's slot: the area that holds its anchor words, C heap and flex blocks, and whether budging is on.
#[derive(Clone, Copy, Debug, PartialEq, Eq)]
pub struct Slot {
    pub area: AreaId,
    pub budge: bool,
}

impl Slot {
    /// Opens an area and makes it a slot with no block, budging on. Refused (`NoRoom`), and nothing changed, where no
    /// page is free.
    pub fn start<S: Store>(store: &mut S) -> Result<Slot, Refusal>
        requires { open_below (S.memory store.old).area MAX_AREAS < MAX_AREAS }
        ensures answer { outcome_of result ≡ outcome_of (slot_begin (S.memory store.old).free) }
        ensures slot { IfOk result (λ slot. slot_in (S.memory store.new) slot ≡ new_slot) }
        ensures spells { IfOk result (λ slot. SpellsSlotIn (S.memory store.new) slot new_slot) }
        ensures still { IfOk result (IsSlotIn (S.memory store.new)) }
        ensures budge { IfOk result (λ slot. slot.budge ≡ true) }
        ensures closed { IfOk result (λ slot. IsNone ((S.memory store.old).area slot.area.0)) }
        ensures number { IfOk result (λ slot. slot.area.0 < MAX_AREAS) }
        ensures least { IfOk result (λ slot. (k : ℕ) → k < slot.area.0 → IsOpen (S.memory store.old) k) }
        ensures only { IfOk result (λ slot. OnlyArea (S.memory store.old) (S.memory store.new) slot.area.0) }
        ensures err { OnErr result (S.memory store.new ≡ S.memory store.old) }
    {
        if store.free_pages() == 0 {
            return Err(Refusal::NoRoom);
        }
        let area = store.open().unwrap();
        store.grow(area, 1).unwrap();
        let slot = Slot { area, budge: true };
        rh_heap::init(store, slot.span(), PAGE - C_HEAP_PLACE);
        Ok(slot)
    }

    /// Closes the slot's area; its pages are free from then on.
    pub fn end<S: Store>(self, store: &mut S)
        requires { IsOpen (S.memory store.old) self.area.0 }
        ensures { S.memory store.new ≡ closed (S.memory store.old) self.area.0 }
    {
        store.close(self.area);
    }

    /// Turns budging on or off, and answers whether it was on. (flex_set_budge.)
    pub fn set_budge(&mut self, on: bool) -> bool
        ensures slot { self.new ≡ record { area = self.old.area; budge = on } }
        ensures answer { result ≡ self.old.budge }
        ensures still { (m : Memory) → IsSlotIn m self.old → IsSlotIn m self.new }
        ensures spelled { (m : Memory) → (slot_in m self.new, result) ≡ slot_set_budge on (slot_in m self.old) }
    {
        let was = self.budge;
        self.budge = on;
        was
    }

    /// Whether the `n` bytes at an address lie whole in one block of the C heap or in one flex block. Any address and
    /// any `n` may be asked for.
    pub fn inside<S: Words>(self, store: &S, address: usize, n: usize) -> bool
        requires slot { IsSlotIn (S.memory store.now) self }
        ensures { result ≡ holds address n (slot_in (S.memory store.now) self) }
    {
        if self.in_flex(store, address, n) {
            return true;
        }
        C_HEAP_START <= address && rh_heap::holds(store, self.span(), address - C_HEAP_START, n)
    }
}
