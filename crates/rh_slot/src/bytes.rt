//! Bytes that go into a slot's blocks from elsewhere in the store, and the anchors without a block.
ghost use Rattle.std.specs.Prelude.{◌≡◌, ◌≤◌, ◌<◌, ◌+◌, ◌-◌, ◌||◌, ◌⊎◌, true, length, is_some, Ok};
ghost use Rattle.rh_defs.specs.Bytes.{part};
ghost use Rattle.rh_defs.specs.Chain.{no_answer};
ghost use Rattle.rh_defs.specs.Memory.{IsOpen, bytes};
ghost use Rattle.rh_defs.specs.Places.{buffer_at, free_anchor as free_anchor_on, written_held, written_in};
ghost use Rattle.rh_defs.specs.Slot.{holds, slot_put, slot_start};
ghost use Rattle.rh_defs.specs.SlotImage.{flex_place};
ghost use Rattle.rh_defs.specs.declared.sizes.TheConstants.{ANCHORS, C_HEAP_PLACE};
ghost use Rattle.rh_slot.specs.SlotArea.{IsSlotIn, slot_in};
ghost use Rattle.rh_slot.specs.SlotCalls.{LeavesSlotIn};
ghost use Rattle.rh_slot.specs.Flex.{slot_append};

use crate::area::{room_for, write};
use crate::flex::fits;
use crate::row::shift;
use crate::slot::Slot;
use rh_defs::sizes::{ANCHORS, FLEX_HEADER, SLOT_START, WORD, flex_weight};
use rh_defs::{Anchor, Refusal};
use rh_heap::{keep_map, take_map};
use rh_store::{AreaId, Store, Words};

/// The lowest anchor without a block, `None` where all have one.
pub fn free_anchor<S: Words>(store: &S, slot: Slot) -> Option<Anchor>
    requires { IsSlotIn (S.memory store.now) slot }
    ensures { result ≡ free_anchor_on (slot_in (S.memory store.now) slot) }
{
    let mut k: u8 = 0;
    'walk: while (k as usize) < ANCHORS {
        let Some(_) = slot.locate(store, Anchor(k)) else {
            return Some(Anchor(k));
        };
        k += 1;
    }
    None
}

/// Writes `n` bytes of an area, none of them among the slot's flex blocks, into the anchor's block, from an offset on.
/// Refused: `NoBlock` where the anchor has none, `BadRange` where the bytes would go beyond the block's end.
pub fn put_from<S: Store>(
    store: &mut S,
    slot: Slot,
    anchor: Anchor,
    offset: usize,
    from: AreaId,
    place: usize,
    n: usize,
) -> Result<(), Refusal>
    requires slot { IsSlotIn (S.memory store.old) slot }
    requires anchor { anchor < ANCHORS }
    requires opened { IsOpen (S.memory store.old) from.0 }
    requires source { place + n ≤ length (bytes (S.memory store.old) from.0) }
    requires below { from.0 ≡ slot.area.0 → place + n ≤ flex_place (slot_in (S.memory store.old) slot) }
    ensures { LeavesSlotIn (S.memory store.old) (S.memory store.new) slot
        (no_answer (slot_put anchor offset (part (bytes (S.memory store.old) from.0) place n)
        (slot_in (S.memory store.old) slot))) result }
{
    let Some(spot) = slot.locate(store, anchor) else {
        return Err(Refusal::NoBlock);
    };
    if !fits(spot.size, offset, n) {
        return Err(Refusal::BadRange);
    }
    store.copy(from, place, slot.area, spot.place + FLEX_HEADER + offset, n);
    Ok(())
}

/// Puts `n` bytes of an area at the end of the anchor's block, none of them among the slot's anchor words and flex
/// blocks; those above it slide. Refused: `NoBlock` where the anchor has none, `NoRoom` where too few pages are free.
pub fn append_from<S: Store>(
    store: &mut S,
    slot: Slot,
    anchor: Anchor,
    from: AreaId,
    place: usize,
    n: usize,
) -> Result<(), Refusal>
    requires slot { IsSlotIn (S.memory store.old) slot }
    requires anchor { anchor < ANCHORS }
    requires opened { IsOpen (S.memory store.old) from.0 }
    requires source { place + n ≤ length (bytes (S.memory store.old) from.0) }
    requires above { from.0 ≡ slot.area.0 → 0 < n → C_HEAP_PLACE ≤ place }
    requires below { from.0 ≡ slot.area.0 → place + n ≤ flex_place (slot_in (S.memory store.old) slot) }
    ensures { LeavesSlotIn (S.memory store.old) (S.memory store.new) slot
        (no_answer (slot_append (S.memory store.old).free anchor (part (bytes (S.memory store.old) from.0) place n)
        (slot_in (S.memory store.old) slot))) result }
{
    let Some(spot) = slot.locate(store, anchor) else {
        return Err(Refusal::NoBlock);
    };
    let end = spot.place + flex_weight(spot.size);
    let size = spot.size + n;
    let to = spot.place + flex_weight(size);
    let over = slot.top_from(store, end) - end;
    let Ok(()) = room_for(store, slot.area, to + over) else {
        return Err(Refusal::NoRoom);
    };
    shift(store, slot.area, end, to, over);
    write(store, slot.area, spot.place + WORD, size);
    let tail = spot.place + FLEX_HEADER + spot.size;
    store.copy(from, place, slot.area, tail, n);
    Ok(())
}

/// Writes `n` bytes of an area at an address, where a block of the slot has so many bytes of room. In the slot's own
/// area the two ranges don't overlap.
pub fn write_from<S: Store>(
    store: &mut S,
    slot: Slot,
    address: usize,
    room: usize,
    from: AreaId,
    place: usize,
    n: usize,
)
    requires slot { IsSlotIn (S.memory store.old) slot }
    requires opened { IsOpen (S.memory store.old) from.0 }
    requires source { place + n ≤ length (bytes (S.memory store.old) from.0) }
    requires reach { (is_some (buffer_at address room (slot_in (S.memory store.old) slot)) || holds address room
        (slot_in (S.memory store.old) slot)) ≡ true }
    requires fits { n ≤ room }
    requires apart { from.0 ≡ slot.area.0 → (place + n ≤ address - slot_start) ⊎ (address - slot_start + n ≤ place) }
    ensures { LeavesSlotIn (S.memory store.old) (S.memory store.new) slot
        (no_answer (Ok (written_in address (part (bytes (S.memory store.old) from.0) place n)
        (buffer_at address room (slot_in (S.memory store.old) slot)) (slot_in (S.memory store.old) slot)))) (Ok tt) }
{
    let map = take_map(store, slot.span());
    store.copy(from, place, slot.area, address - SLOT_START, n);
    keep_map(store, slot.span(), map);
}

/// Writes bytes that were lent at an address, where one block of the slot has them all.
pub fn write_at<S: Store>(store: &mut S, slot: Slot, address: usize, from: &[u8])
    requires slot { IsSlotIn (S.memory store.old) slot }
    requires held { holds address (length from.now) (slot_in (S.memory store.old) slot) ≡ true }
    ensures { LeavesSlotIn (S.memory store.old) (S.memory store.new) slot
        (no_answer (Ok (written_held address from.now (slot_in (S.memory store.old) slot)))) (Ok tt) }
{
    let map = take_map(store, slot.span());
    store.copy_in(slot.area, address - SLOT_START, from);
    keep_map(store, slot.span(), map);
}
