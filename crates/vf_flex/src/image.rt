//! Whether bytes from anywhere begin with the pages of a slot.
ghost use Rattle.std.specs.Prelude.{◌≡◌, length};
ghost use Rattle.rh_lent_slot.specs.Slots.{IsSlotBytes};
ghost use Rattle.vf_flex.specs.SlotStatus.{anchor_status, checked_anchor_status, checked_place_status, image_status};
ghost use Rattle.vf_flex.specs.SlotStatus.{place_status, slot_status};

use crate::input::{anchor_status, place_status, slot_status};
use crate::status::{OK, fault_status};
use rh_lent_slot::LentSlot;

/// Whether the pages of a slot that was started lie in the bytes and spell one, and else what is wrong first.
pub fn image_status(memory: &[u8], slot: LentSlot) -> u32
    ensures status { result ≡ image_status memory.now slot }
    ensures slot { result ≡ 0 → IsSlotBytes memory.now slot }
    ensures pages { result ≡ 0 → slot_status (length memory.now) slot ≡ 0 }
{
    let status = slot_status(memory.len(), slot);
    if status != OK {
        return status;
    }
    match slot.check(memory) {
        Ok(_) => OK,
        Err(fault) => fault_status(fault),
    }
}

/// Whether besides the slot has this anchor.
pub fn checked_anchor_status(memory: &[u8], slot: LentSlot, anchor: u32) -> u32
    ensures status { result ≡ checked_anchor_status memory.now slot anchor }
    ensures slot { result ≡ 0 → IsSlotBytes memory.now slot }
    ensures anchor { result ≡ 0 → anchor_status (length memory.now) slot anchor ≡ 0 }
{
    match image_status(memory, slot) {
        OK => anchor_status(memory.len(), slot, anchor),
        fault => fault,
    }
}

/// Whether besides a place lies in the bytes.
pub fn checked_place_status(memory: &[u8], slot: LentSlot, place: usize) -> u32
    ensures status { result ≡ checked_place_status memory.now slot place }
    ensures slot { result ≡ 0 → IsSlotBytes memory.now slot }
    ensures place { result ≡ 0 → place_status (length memory.now) slot place ≡ 0 }
{
    match image_status(memory, slot) {
        OK => place_status(memory.len(), slot, place),
        fault => fault,
    }
}
