//! A slot with one flex block.
ghost use Rattle.std.specs.Prelude.{◌≡◌, ◌^◌, ◌<◌, ℕ, List, Ok, length, nat_lt, IfOk, OnErr, OnOk};
ghost use Rattle.rh_defs.specs.Chain.{outcome_of, refuse_if, result_or};
ghost use Rattle.rh_defs.specs.Memory.{OnlyArea, open_below};
ghost use Rattle.rh_defs.specs.Slot.{new_slot, slot_free, slot_pages, slot_read, with_block};
ghost use Rattle.rh_slot.specs.SlotArea.{IsSlotIn, slot_in};
ghost use Rattle.rh_defs.specs.declared.sizes.TheConstants.{MAX_AREAS};
ghost use Rattle.callers.specs.NewAreas.{IsNewArea};

use rh_defs::{Anchor, Refusal};
use rh_slot::Slot;
use rh_store::Store;

/// Starts a slot, and gives it a flex block of these bytes at anchor 0. Refused (`NoRoom`), and nothing changed, where
/// fewer pages are free than the slot then has. (flex_alloc.)
pub fn hold_bytes<S: Store>(store: &mut S, bytes: &[u8]) -> Result<Slot, Refusal>
    requires areas { open_below (S.memory store.old).area MAX_AREAS < MAX_AREAS }
    requires fits { length bytes.now < 2 ^ 32 }
    ensures answer { outcome_of result ≡ refuse_if
        (nat_lt (S.memory store.old).free (slot_pages (with_block 0 bytes.now new_slot))) Refusal.NoRoom }
    ensures slot { IfOk result (IsSlotIn (S.memory store.new)) }
    ensures held { IfOk result (λ slot. slot_in (S.memory store.new) slot ≡ with_block 0 bytes.now new_slot) }
    ensures area { IfOk result (λ slot. IsNewArea (S.memory store.old) (S.memory store.new) slot.area.0) }
    ensures err { OnErr result (S.memory store.new ≡ S.memory store.old) }
{
    let slot = Slot::start(store)?;
    match slot.alloc(store, Anchor(0), bytes.len() as u32) {
        Ok(_address) => {
            slot.put(store, Anchor(0), 0, bytes).unwrap();
            Ok(slot)
        }
        Err(refusal) => {
            slot.end(store);
            Err(refusal)
        }
    }
}

/// Reads the first bytes of the block at anchor 0, and takes the block away. Refused, and nothing changed, as the read
/// is: `NoBlock`, `BadRange`. (flex_free.)
pub fn take_bytes<S: Store>(store: &mut S, slot: Slot, to: &mut [u8]) -> Result<(), Refusal>
    requires { IsSlotIn (S.memory store.old) slot }
    ensures answer { result ≡ outcome_of (slot_read 0 0 (length to.old) (slot_in (S.memory store.old) slot)) }
    ensures read { to.new ≡ result_or to.old (slot_read 0 0 (length to.old) (slot_in (S.memory store.old) slot)) }
    ensures slot { IsSlotIn (S.memory store.new) slot }
    ensures freed { OnOk result (slot_in (S.memory store.new) slot
        ≡ result_or (slot_in (S.memory store.old) slot) (slot_free 0 (slot_in (S.memory store.old) slot))) }
    ensures back { (bytes : List ℕ) → slot_in (S.memory store.old) slot ≡ with_block 0 bytes new_slot
        → length to.old ≡ length bytes
        → (result ≡ Ok tt) × (to.new ≡ bytes) × (slot_in (S.memory store.new) slot ≡ new_slot) }
    ensures only { OnlyArea (S.memory store.old) (S.memory store.new) slot.area.0 }
    ensures err { OnErr result ((S.memory store.new ≡ S.memory store.old) × (to.new ≡ to.old)) }
{
    slot.read(store, Anchor(0), 0, to)?;
    slot.free(store, Anchor(0)).unwrap();
    Ok(())
}
