//! The calls on any bytes. Each looks at all of the slot first, and leaves bytes that are none.
ghost use Rattle.std.specs.Prelude.{◌≡◌, ◌≢◌, length};
ghost use Rattle.rh_defs.specs.Chain.{answer_of, outcome_of, result_or};
ghost use Rattle.rh_defs.specs.Heap.{free_bytes, largest};
ghost use Rattle.rh_defs.specs.Slot.{slot_address, slot_read, slot_size};
ghost use Rattle.rh_lent_slot.specs.SlotSlides.{CountsSlides};
ghost use Rattle.rh_lent_slot.specs.Slots.{IsSlotBytes, lent_slot_in};
ghost use Rattle.vf_flex.specs.LentSlotCalls.{LeavesLentSlot, RefusesInput, size_at};
ghost use Rattle.vf_flex.specs.LentSlotCalls.{alloc_granted, extend_granted, free_granted, mid_granted, put_granted};
ghost use Rattle.vf_flex.specs.LentSlotCalls.{claim_granted, release_granted, resize_granted};
ghost use Rattle.vf_flex.specs.SlotStatus.{answer_or, answer_status, place_or, status_of};
ghost use Rattle.vf_flex.specs.SlotStatus.{checked_anchor_status, checked_place_status, image_status};

use crate::image::{checked_anchor_status, checked_place_status, image_status};
use crate::status::OK;
use crate::{c_heap, flex};
use rh_lent_slot::LentSlot;

/// 0 where the pages of the slot lie in the bytes and spell one, and else what is wrong first.
#[unsafe(no_mangle)]
pub extern "C" fn vf_flex_check(memory: &[u8], slot: &LentSlot) -> u32
    ensures status { result ≡ image_status memory.now slot.now }
    ensures slot { result ≡ 0 → IsSlotBytes memory.now slot.now }
{
    image_status(memory, *slot)
}

/// Puts a block of `n` zeros on top, and tells the place of its first byte. (flex_alloc.)
#[unsafe(no_mangle)]
pub extern "C" fn vf_flex_checked_alloc(
    memory: &mut [u8],
    slot: &mut LentSlot,
    anchor: u32,
    n: usize,
    place: &mut usize,
) -> u32
    ensures refused { RefusesInput memory.old memory.new slot.old slot.new
        (checked_anchor_status memory.old slot.old anchor) result }
    ensures kept { checked_anchor_status memory.old slot.old anchor ≢ 0 → place.new ≡ place.old }
    ensures status { checked_anchor_status memory.old slot.old anchor ≡ 0 →
        result ≡ status_of (alloc_granted memory.old slot.old anchor n) }
    ensures place { checked_anchor_status memory.old slot.old anchor ≡ 0 →
        place.new ≡ place_or (answer_of (alloc_granted memory.old slot.old anchor n)) place.old }
    ensures left { checked_anchor_status memory.old slot.old anchor ≡ 0 →
        LeavesLentSlot memory.old memory.new slot.old slot.new (alloc_granted memory.old slot.old anchor n) }
    ensures slides { checked_anchor_status memory.old slot.old anchor ≡ 0 → slot.new.slides ≡ slot.old.slides }
{
    match checked_anchor_status(memory, *slot, anchor) {
        OK => flex::vf_flex_alloc(memory, slot, anchor, n, place),
        status => status,
    }
}

/// Tells how many bytes the anchor's block has. (flex_size.)
#[unsafe(no_mangle)]
pub extern "C" fn vf_flex_checked_size(
    memory: &[u8],
    slot: &LentSlot,
    anchor: u32,
    size: &mut usize,
) -> u32
    ensures refused { checked_anchor_status memory.now slot.now anchor ≢ 0 →
        result ≡ checked_anchor_status memory.now slot.now anchor }
    ensures kept { checked_anchor_status memory.now slot.now anchor ≢ 0 → size.new ≡ size.old }
    ensures status { checked_anchor_status memory.now slot.now anchor ≡ 0 →
        result ≡ answer_status (slot_size anchor (lent_slot_in memory.now slot.now)) }
    ensures size { checked_anchor_status memory.now slot.now anchor ≡ 0 →
        size.new ≡ answer_or (slot_size anchor (lent_slot_in memory.now slot.now)) size.old }
{
    match checked_anchor_status(memory, *slot, anchor) {
        OK => flex::vf_flex_size(memory, slot, anchor, size),
        status => status,
    }
}

/// Takes the anchor's block away; those above it come down. (flex_free.)
#[unsafe(no_mangle)]
pub extern "C" fn vf_flex_checked_free(memory: &mut [u8], slot: &mut LentSlot, anchor: u32) -> u32
    ensures refused { RefusesInput memory.old memory.new slot.old slot.new
        (checked_anchor_status memory.old slot.old anchor) result }
    ensures status { checked_anchor_status memory.old slot.old anchor ≡ 0 →
        result ≡ status_of (free_granted memory.old slot.old anchor) }
    ensures left { checked_anchor_status memory.old slot.old anchor ≡ 0 →
        LeavesLentSlot memory.old memory.new slot.old slot.new (free_granted memory.old slot.old anchor) }
    ensures slides { checked_anchor_status memory.old slot.old anchor ≡ 0 →
        CountsSlides memory.old memory.new slot.old slot.new }
{
    match checked_anchor_status(memory, *slot, anchor) {
        OK => flex::vf_flex_free(memory, slot, anchor),
        status => status,
    }
}

/// Cuts the anchor's block to `n` bytes, or gives it zeros up to `n`; those above it slide. (flex_extend.)
#[unsafe(no_mangle)]
pub extern "C" fn vf_flex_checked_extend(
    memory: &mut [u8],
    slot: &mut LentSlot,
    anchor: u32,
    n: usize,
) -> u32
    ensures refused { RefusesInput memory.old memory.new slot.old slot.new
        (checked_anchor_status memory.old slot.old anchor) result }
    ensures status { checked_anchor_status memory.old slot.old anchor ≡ 0 →
        result ≡ status_of (extend_granted memory.old slot.old anchor n) }
    ensures left { checked_anchor_status memory.old slot.old anchor ≡ 0 →
        LeavesLentSlot memory.old memory.new slot.old slot.new (extend_granted memory.old slot.old anchor n) }
    ensures slides { checked_anchor_status memory.old slot.old anchor ≡ 0 →
        CountsSlides memory.old memory.new slot.old slot.new }
{
    match checked_anchor_status(memory, *slot, anchor) {
        OK => flex::vf_flex_extend(memory, slot, anchor, n),
        status => status,
    }
}

/// Puts `by` zeros into the anchor's block at an offset, or takes as many bytes before it out. (flex_midextend.)
#[unsafe(no_mangle)]
pub extern "C" fn vf_flex_checked_midextend(
    memory: &mut [u8],
    slot: &mut LentSlot,
    anchor: u32,
    offset: usize,
    by: isize,
) -> u32
    ensures refused { RefusesInput memory.old memory.new slot.old slot.new
        (checked_anchor_status memory.old slot.old anchor) result }
    ensures status { checked_anchor_status memory.old slot.old anchor ≡ 0 →
        result ≡ status_of (mid_granted memory.old slot.old anchor offset by) }
    ensures left { checked_anchor_status memory.old slot.old anchor ≡ 0 →
        LeavesLentSlot memory.old memory.new slot.old slot.new (mid_granted memory.old slot.old anchor offset by) }
    ensures slides { checked_anchor_status memory.old slot.old anchor ≡ 0 →
        CountsSlides memory.old memory.new slot.old slot.new }
{
    match checked_anchor_status(memory, *slot, anchor) {
        OK => flex::vf_flex_midextend(memory, slot, anchor, offset, by),
        status => status,
    }
}

/// Tells the place of the first byte of the anchor's block, which is its address less &8000.
#[unsafe(no_mangle)]
pub extern "C" fn vf_flex_checked_place(
    memory: &[u8],
    slot: &LentSlot,
    anchor: u32,
    place: &mut usize,
) -> u32
    ensures refused { checked_anchor_status memory.now slot.now anchor ≢ 0 →
        result ≡ checked_anchor_status memory.now slot.now anchor }
    ensures kept { checked_anchor_status memory.now slot.now anchor ≢ 0 → place.new ≡ place.old }
    ensures status { checked_anchor_status memory.now slot.now anchor ≡ 0 →
        result ≡ answer_status (slot_address anchor (lent_slot_in memory.now slot.now)) }
    ensures place { checked_anchor_status memory.now slot.now anchor ≡ 0 →
        place.new ≡ place_or (slot_address anchor (lent_slot_in memory.now slot.now)) place.old }
{
    match checked_anchor_status(memory, *slot, anchor) {
        OK => flex::vf_flex_place(memory, slot, anchor, place),
        status => status,
    }
}

/// Writes bytes into the anchor's block, from an offset in it on.
#[unsafe(no_mangle)]
pub extern "C" fn vf_flex_checked_put(
    memory: &mut [u8],
    slot: &mut LentSlot,
    anchor: u32,
    offset: usize,
    from: &[u8],
) -> u32
    ensures refused { RefusesInput memory.old memory.new slot.old slot.new
        (checked_anchor_status memory.old slot.old anchor) result }
    ensures status { checked_anchor_status memory.old slot.old anchor ≡ 0 →
        result ≡ status_of (put_granted memory.old slot.old anchor offset from.now) }
    ensures left { checked_anchor_status memory.old slot.old anchor ≡ 0 →
        LeavesLentSlot memory.old memory.new slot.old slot.new
        (put_granted memory.old slot.old anchor offset from.now) }
    ensures slides { checked_anchor_status memory.old slot.old anchor ≡ 0 → slot.new.slides ≡ slot.old.slides }
{
    match checked_anchor_status(memory, *slot, anchor) {
        OK => flex::vf_flex_put(memory, slot, anchor, offset, from),
        status => status,
    }
}

/// Fills a buffer with bytes of the anchor's block, from an offset in it on.
#[unsafe(no_mangle)]
pub extern "C" fn vf_flex_checked_read(
    memory: &[u8],
    slot: &LentSlot,
    anchor: u32,
    offset: usize,
    to: &mut [u8],
) -> u32
    ensures refused { checked_anchor_status memory.now slot.now anchor ≢ 0 →
        result ≡ checked_anchor_status memory.now slot.now anchor }
    ensures kept { checked_anchor_status memory.now slot.now anchor ≢ 0 → to.new ≡ to.old }
    ensures status { checked_anchor_status memory.now slot.now anchor ≡ 0 →
        result ≡ answer_status (outcome_of (slot_read anchor offset (length to.old)
        (lent_slot_in memory.now slot.now))) }
    ensures buffer { checked_anchor_status memory.now slot.now anchor ≡ 0 →
        to.new ≡ result_or to.old (slot_read anchor offset (length to.old) (lent_slot_in memory.now slot.now)) }
{
    match checked_anchor_status(memory, *slot, anchor) {
        OK => flex::vf_flex_read(memory, slot, anchor, offset, to),
        status => status,
    }
}

/// Claims a block of `n` bytes at least, all 0, and tells the place of its first byte. (OS_Heap 2.)
#[unsafe(no_mangle)]
pub extern "C" fn vf_flex_checked_claim(
    memory: &mut [u8],
    slot: &mut LentSlot,
    n: usize,
    place: &mut usize,
) -> u32
    ensures refused { RefusesInput memory.old memory.new slot.old slot.new
        (image_status memory.old slot.old) result }
    ensures kept { image_status memory.old slot.old ≢ 0 → place.new ≡ place.old }
    ensures status { image_status memory.old slot.old ≡ 0 →
        result ≡ status_of (claim_granted memory.old slot.old n) }
    ensures place { image_status memory.old slot.old ≡ 0 →
        place.new ≡ place_or (answer_of (claim_granted memory.old slot.old n)) place.old }
    ensures left { image_status memory.old slot.old ≡ 0 →
        LeavesLentSlot memory.old memory.new slot.old slot.new (claim_granted memory.old slot.old n) }
    ensures slides { image_status memory.old slot.old ≡ 0 → CountsSlides memory.old memory.new slot.old slot.new }
{
    match image_status(memory, *slot) {
        OK => c_heap::vf_flex_claim(memory, slot, n, place),
        status => status,
    }
}

/// Releases the block at a place. (OS_Heap 3.)
#[unsafe(no_mangle)]
pub extern "C" fn vf_flex_checked_release(
    memory: &mut [u8],
    slot: &mut LentSlot,
    place: usize,
) -> u32
    ensures refused { RefusesInput memory.old memory.new slot.old slot.new
        (checked_place_status memory.old slot.old place) result }
    ensures status { checked_place_status memory.old slot.old place ≡ 0 →
        result ≡ status_of (release_granted memory.old slot.old place) }
    ensures left { checked_place_status memory.old slot.old place ≡ 0 →
        LeavesLentSlot memory.old memory.new slot.old slot.new (release_granted memory.old slot.old place) }
    ensures slides { checked_place_status memory.old slot.old place ≡ 0 → slot.new.slides ≡ slot.old.slides }
{
    match checked_place_status(memory, *slot, place) {
        OK => c_heap::vf_flex_release(memory, slot, place),
        status => status,
    }
}

/// Gives the block at a place `delta` bytes more, and tells where it is then. (OS_Heap 4.)
#[unsafe(no_mangle)]
pub extern "C" fn vf_flex_checked_resize(
    memory: &mut [u8],
    slot: &mut LentSlot,
    place: usize,
    delta: isize,
    moved_to: &mut usize,
) -> u32
    ensures refused { RefusesInput memory.old memory.new slot.old slot.new
        (checked_place_status memory.old slot.old place) result }
    ensures kept { checked_place_status memory.old slot.old place ≢ 0 → moved_to.new ≡ moved_to.old }
    ensures status { checked_place_status memory.old slot.old place ≡ 0 →
        result ≡ status_of (resize_granted memory.old slot.old place delta) }
    ensures place { checked_place_status memory.old slot.old place ≡ 0 →
        moved_to.new ≡ place_or (answer_of (resize_granted memory.old slot.old place delta)) moved_to.old }
    ensures left { checked_place_status memory.old slot.old place ≡ 0 →
        LeavesLentSlot memory.old memory.new slot.old slot.new (resize_granted memory.old slot.old place delta) }
    ensures slides { checked_place_status memory.old slot.old place ≡ 0 →
        CountsSlides memory.old memory.new slot.old slot.new }
{
    match checked_place_status(memory, *slot, place) {
        OK => c_heap::vf_flex_resize(memory, slot, place, delta, moved_to),
        status => status,
    }
}

/// Tells the bytes of the block at a place. (OS_Heap 6.)
#[unsafe(no_mangle)]
pub extern "C" fn vf_flex_checked_block_size(
    memory: &[u8],
    slot: &LentSlot,
    place: usize,
    size: &mut usize,
) -> u32
    ensures refused { checked_place_status memory.now slot.now place ≢ 0 →
        result ≡ checked_place_status memory.now slot.now place }
    ensures kept { checked_place_status memory.now slot.now place ≢ 0 → size.new ≡ size.old }
    ensures status { checked_place_status memory.now slot.now place ≡ 0 →
        result ≡ answer_status (size_at place (lent_slot_in memory.now slot.now)) }
    ensures size { checked_place_status memory.now slot.now place ≡ 0 →
        size.new ≡ answer_or (size_at place (lent_slot_in memory.now slot.now)) size.old }
{
    match checked_place_status(memory, *slot, place) {
        OK => c_heap::vf_flex_block_size(memory, slot, place, size),
        status => status,
    }
}

/// Tells the bytes of the largest block that could be claimed with no page more, and all free bytes. (OS_Heap 1.)
#[unsafe(no_mangle)]
pub extern "C" fn vf_flex_checked_describe(
    memory: &[u8],
    slot: &LentSlot,
    most: &mut usize,
    free: &mut usize,
) -> u32
    ensures status { result ≡ image_status memory.now slot.now }
    ensures refused { result ≢ 0 → (most.new ≡ most.old) × (free.new ≡ free.old) }
    ensures most { result ≡ 0 → most.new ≡ largest (lent_slot_in memory.now slot.now).heap }
    ensures free { result ≡ 0 → free.new ≡ free_bytes (lent_slot_in memory.now slot.now).heap }
{
    match image_status(memory, *slot) {
        OK => c_heap::vf_flex_describe(memory, slot, most, free),
        status => status,
    }
}
