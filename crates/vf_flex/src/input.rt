//! Whether what a call is given can be looked at: how many bytes there are, and what is asked for by a number.
ghost use Rattle.std.specs.Prelude.{◌≡◌, ◌<◌};
ghost use Rattle.rh_defs.specs.declared.sizes.TheConstants.{ANCHORS};
ghost use Rattle.rh_slot.specs.declared.image.TheConstants.{LONGEST_SLOT};
ghost use Rattle.vf_flex.specs.SlotStatus.{anchor_status, length_status, place_status, slot_status};

use crate::status::{BAD_ANCHOR, BAD_LENGTH, NO_SLOT, NOT_A_BLOCK, OK, SHORT};
use rh_defs::sizes::{ANCHORS, PAGE};
use rh_lent_slot::LentSlot;
use rh_slot::LONGEST_SLOT;

/// Whether so many bytes may have a slot.
pub fn length_status(len: usize) -> u32
    ensures { result ≡ length_status len }
{
    if len < PAGE || LONGEST_SLOT < len {
        return BAD_LENGTH;
    }
    OK
}

/// Whether the pages of a slot that was started lie in so many bytes.
pub fn slot_status(len: usize, slot: LentSlot) -> u32
    ensures { result ≡ slot_status len slot }
{
    let status = length_status(len);
    if status != OK {
        return status;
    }
    if slot.pages == 0 {
        return NO_SLOT;
    }
    if len / PAGE < slot.pages {
        return SHORT;
    }
    OK
}

/// Whether besides the slot has this anchor.
pub fn anchor_status(len: usize, slot: LentSlot, anchor: u32) -> u32
    ensures status { result ≡ anchor_status len slot anchor }
    ensures slot { result ≡ 0 → slot_status len slot ≡ 0 }
    ensures anchor { result ≡ 0 → anchor < ANCHORS }
{
    match slot_status(len, slot) {
        OK if anchor as usize >= ANCHORS => BAD_ANCHOR,
        status => status,
    }
}

/// Whether besides a place lies in the bytes. No block begins elsewhere.
pub fn place_status(len: usize, slot: LentSlot, place: usize) -> u32
    ensures status { result ≡ place_status len slot place }
    ensures slot { result ≡ 0 → slot_status len slot ≡ 0 }
    ensures place { result ≡ 0 → place < LONGEST_SLOT }
{
    match slot_status(len, slot) {
        OK if place >= len => NOT_A_BLOCK,
        status => status,
    }
}
