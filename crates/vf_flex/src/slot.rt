//! How a slot begins, and whether its blocks give way.
ghost use Rattle.std.specs.Prelude.{◌≡◌, ◌≢◌, List, ℕ, length};
ghost use Rattle.rh_defs.specs.Slot.{new_slot, slot_set_budge};
ghost use Rattle.rh_lent_slot.specs.Slots.{IsSlotBytes, lent_slot_in};
ghost use Rattle.vf_flex.specs.SlotStatus.{length_status};

use crate::input::length_status;
use crate::status::{OK, refusal_status};
use rh_lent_slot::LentSlot;

/// Makes the first page a slot with no block, budging on. (flex_init.)
#[unsafe(no_mangle)]
pub extern "C" fn vf_flex_start(memory: &mut [u8], slot: &mut LentSlot) -> u32
    ensures status { result ≡ length_status (length memory.old) }
    ensures bytes { result ≡ 0 → IsSlotBytes memory.new slot.new }
    ensures slot { result ≡ 0 → lent_slot_in memory.new slot.new ≡ new_slot }
    ensures slides { result ≡ 0 → slot.new.slides ≡ 0 }
    ensures refused { result ≢ 0 → (memory.new ≡ memory.old) × (slot.new ≡ slot.old) }
{
    let status = length_status(memory.len());
    if status != OK {
        return status;
    }
    match LentSlot::start(memory) {
        Ok(started) => {
            *slot = started;
            OK
        }
        Err(refusal) => refusal_status(refusal),
    }
}

/// Turns budging on or off, and tells whether it was on. (flex_set_budge.)
#[unsafe(no_mangle)]
pub extern "C" fn vf_flex_set_budge(slot: &mut LentSlot, on: bool, was: &mut bool) -> u32
    ensures status { result ≡ 0 }
    ensures slot { slot.new ≡ record { pages = slot.old.pages; budge = on; slides = slot.old.slides } }
    ensures was { was.new ≡ slot.old.budge }
    ensures still { (b : List ℕ) → IsSlotBytes b slot.old → IsSlotBytes b slot.new }
    ensures spelled { (b : List ℕ) → (lent_slot_in b slot.new, was.new) ≡ slot_set_budge on (lent_slot_in b slot.old) }
{
    *was = slot.set_budge(on);
    OK
}
