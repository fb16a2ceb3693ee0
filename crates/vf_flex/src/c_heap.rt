//! The calls on the C heap of a slot. Where it is too short it grows, and the flex blocks slide up.
ghost use Rattle.std.specs.Prelude.{◌≡◌, ◌≢◌, length};
ghost use Rattle.rh_defs.specs.Chain.{answer_of};
ghost use Rattle.rh_defs.specs.Heap.{free_bytes, largest};
ghost use Rattle.rh_lent_slot.specs.SlotSlides.{CountsSlides};
ghost use Rattle.rh_lent_slot.specs.Slots.{lent_slot_in};
ghost use Rattle.vf_flex.specs.LentSlotCalls.{AreLeft, LeavesLentSlot, RefusesInput};
ghost use Rattle.vf_flex.specs.LentSlotCalls.{claim_granted, release_granted, resize_granted, size_at};
ghost use Rattle.vf_flex.specs.SlotStatus.{answer_or, answer_status, place_or, place_status, slot_status, status_of};

use crate::amount::{nearest, nearest_amount};
use crate::input::{place_status, slot_status};
use crate::status::{OK, give_number, give_place, outcome_status};
use rh_defs::sizes::SLOT_START;
use rh_lent_slot::LentSlot;

/// Claims a block of `n` bytes at least, all 0, and tells the place of its first byte. (OS_Heap 2.)
#[unsafe(no_mangle)]
pub extern "C" fn vf_flex_claim(
    memory: &mut [u8],
    slot: &mut LentSlot,
    n: usize,
    place: &mut usize,
) -> u32
    requires { AreLeft memory.old slot.old }
    ensures refused { RefusesInput memory.old memory.new slot.old slot.new
        (slot_status (length memory.old) slot.old) result }
    ensures kept { slot_status (length memory.old) slot.old ≢ 0 → place.new ≡ place.old }
    ensures status { slot_status (length memory.old) slot.old ≡ 0 →
        result ≡ status_of (claim_granted memory.old slot.old n) }
    ensures place { slot_status (length memory.old) slot.old ≡ 0 →
        place.new ≡ place_or (answer_of (claim_granted memory.old slot.old n)) place.old }
    ensures left { slot_status (length memory.old) slot.old ≡ 0 →
        LeavesLentSlot memory.old memory.new slot.old slot.new (claim_granted memory.old slot.old n) }
    ensures slides { slot_status (length memory.old) slot.old ≡ 0 →
        CountsSlides memory.old memory.new slot.old slot.new }
{
    match slot_status(memory.len(), *slot) {
        OK => give_place(slot.claim(memory, nearest(n)), place),
        status => status,
    }
}

/// Releases the block at a place. (OS_Heap 3.)
#[unsafe(no_mangle)]
pub extern "C" fn vf_flex_release(memory: &mut [u8], slot: &mut LentSlot, place: usize) -> u32
    requires { AreLeft memory.old slot.old }
    ensures refused { RefusesInput memory.old memory.new slot.old slot.new
        (place_status (length memory.old) slot.old place) result }
    ensures status { place_status (length memory.old) slot.old place ≡ 0 →
        result ≡ status_of (release_granted memory.old slot.old place) }
    ensures left { place_status (length memory.old) slot.old place ≡ 0 →
        LeavesLentSlot memory.old memory.new slot.old slot.new (release_granted memory.old slot.old place) }
    ensures slides { place_status (length memory.old) slot.old place ≡ 0 → slot.new.slides ≡ slot.old.slides }
{
    match place_status(memory.len(), *slot, place) {
        OK => outcome_status(slot.release(memory, SLOT_START + place)),
        status => status,
    }
}

/// Gives the block at a place `delta` bytes more, and tells where it is then. (OS_Heap 4.)
#[unsafe(no_mangle)]
pub extern "C" fn vf_flex_resize(
    memory: &mut [u8],
    slot: &mut LentSlot,
    place: usize,
    delta: isize,
    moved_to: &mut usize,
) -> u32
    requires { AreLeft memory.old slot.old }
    ensures refused { RefusesInput memory.old memory.new slot.old slot.new
        (place_status (length memory.old) slot.old place) result }
    ensures kept { place_status (length memory.old) slot.old place ≢ 0 → moved_to.new ≡ moved_to.old }
    ensures status { place_status (length memory.old) slot.old place ≡ 0 →
        result ≡ status_of (resize_granted memory.old slot.old place delta) }
    ensures place { place_status (length memory.old) slot.old place ≡ 0 →
        moved_to.new ≡ place_or (answer_of (resize_granted memory.old slot.old place delta)) moved_to.old }
    ensures left { place_status (length memory.old) slot.old place ≡ 0 →
        LeavesLentSlot memory.old memory.new slot.old slot.new (resize_granted memory.old slot.old place delta) }
    ensures slides { place_status (length memory.old) slot.old place ≡ 0 →
        CountsSlides memory.old memory.new slot.old slot.new }
{
    match place_status(memory.len(), *slot, place) {
        OK => give_place(
            slot.resize(memory, SLOT_START + place, nearest_amount(delta)),
            moved_to,
        ),
        status => status,
    }
}

/// Tells the bytes of the block at a place. (OS_Heap 6.)
#[unsafe(no_mangle)]
pub extern "C" fn vf_flex_block_size(
    memory: &[u8],
    slot: &LentSlot,
    place: usize,
    size: &mut usize,
) -> u32
    requires { AreLeft memory.now slot.now }
    ensures refused { place_status (length memory.now) slot.now place ≢ 0 →
        result ≡ place_status (length memory.now) slot.now place }
    ensures kept { place_status (length memory.now) slot.now place ≢ 0 → size.new ≡ size.old }
    ensures status { place_status (length memory.now) slot.now place ≡ 0 →
        result ≡ answer_status (size_at place (lent_slot_in memory.now slot.now)) }
    ensures size { place_status (length memory.now) slot.now place ≡ 0 →
        size.new ≡ answer_or (size_at place (lent_slot_in memory.now slot.now)) size.old }
{
    match place_status(memory.len(), *slot, place) {
        OK => give_number(slot.block_size(memory, SLOT_START + place), size),
        status => status,
    }
}

/// Tells the bytes of the largest block that could be claimed with no page more, and all free bytes. (OS_Heap 1.)
#[unsafe(no_mangle)]
pub extern "C" fn vf_flex_describe(
    memory: &[u8],
    slot: &LentSlot,
    most: &mut usize,
    free: &mut usize,
) -> u32
    requires { AreLeft memory.now slot.now }
    ensures status { result ≡ slot_status (length memory.now) slot.now }
    ensures refused { result ≢ 0 → (most.new ≡ most.old) × (free.new ≡ free.old) }
    ensures most { result ≡ 0 → most.new ≡ largest (lent_slot_in memory.now slot.now).heap }
    ensures free { result ≡ 0 → free.new ≡ free_bytes (lent_slot_in memory.now slot.now).heap }
{
    let status = slot_status(memory.len(), *slot);
    if status == OK {
        let (_, largest, total) = slot.describe(memory);
        *most = largest;
        *free = total;
    }
    status
}
