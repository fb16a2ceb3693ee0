//! Where all blocks of a slot begin.
ghost use Rattle.std.specs.Prelude.{◌≡◌, ◌≢◌, length};
ghost use Rattle.rh_lent_slot.specs.Slots.{IsSlotBytes, lent_slot_in};
ghost use Rattle.vf_flex.specs.LentSlotCalls.{AreLeft};
ghost use Rattle.vf_flex.specs.SlotPlaces.{place_of, places_from};
ghost use Rattle.vf_flex.specs.SlotStatus.{image_status, slot_status};

use crate::image::image_status;
use crate::input::slot_status;
use crate::status::{OK, give_place};
use rh_defs::Anchor;
use rh_defs::sizes::ANCHORS;
use rh_lent_slot::LentSlot;

/// Tells for each anchor from 0 on, as many as `places` has room for, the place of the first byte of its block: its
/// address less &8000, or 0 where it has no block. Ask behind a call that may have moved blocks.
#[unsafe(no_mangle)]
pub extern "C" fn vf_flex_places(memory: &[u8], slot: &LentSlot, places: &mut [usize]) -> u32
    requires { AreLeft memory.now slot.now }
    ensures status { result ≡ slot_status (length memory.now) slot.now }
    ensures kept { result ≢ 0 → places.new ≡ places.old }
    ensures places { result ≡ 0 → places.new ≡ places_from (lent_slot_in memory.now slot.now) 0 (length places.old) }
{
    let status = slot_status(memory.len(), *slot);
    if status == OK {
        tell_places(memory, *slot, places);
    }
    status
}

/// Tells for each anchor from 0 on the place of its block's first byte, as `vf_flex_places` does, of any bytes.
#[unsafe(no_mangle)]
pub extern "C" fn vf_flex_checked_places(
    memory: &[u8],
    slot: &LentSlot,
    places: &mut [usize],
) -> u32
    ensures status { result ≡ image_status memory.now slot.now }
    ensures kept { result ≢ 0 → places.new ≡ places.old }
    ensures places { result ≡ 0 → places.new ≡ places_from (lent_slot_in memory.now slot.now) 0 (length places.old) }
{
    let status = image_status(memory, *slot);
    if status == OK {
        tell_places(memory, *slot, places);
    }
    status
}

/// Tells where the block of each anchor begins, from anchor 0 on.
fn tell_places(memory: &[u8], slot: LentSlot, places: &mut [usize])
    requires { IsSlotBytes memory.now slot }
    ensures { places.new ≡ places_from (lent_slot_in memory.now slot) 0 (length places.old) }
{
    for (anchor, place) in places.iter_mut().enumerate() {
        *place = place_of(memory, slot, anchor);
    }
}

/// Where the anchor's block begins in the bytes, or 0 where there is no such block.
fn place_of(memory: &[u8], slot: LentSlot, anchor: usize) -> usize
    requires { IsSlotBytes memory.now slot }
    ensures { result ≡ place_of (lent_slot_in memory.now slot) anchor }
{
    let mut place = 0;
    if anchor < ANCHORS {
        give_place(slot.address(memory, Anchor(anchor as u8)), &mut place);
    }
    place
}
