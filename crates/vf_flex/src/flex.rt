//! The calls on flex blocks.
ghost use Rattle.std.specs.Prelude.{◌≡◌, ◌≢◌, length};
ghost use Rattle.rh_defs.specs.Chain.{answer_of, outcome_of, result_or};
ghost use Rattle.rh_defs.specs.Slot.{slot_address, slot_read, slot_size};
ghost use Rattle.rh_lent_slot.specs.SlotSlides.{CountsSlides};
ghost use Rattle.rh_lent_slot.specs.Slots.{lent_slot_in};
ghost use Rattle.vf_flex.specs.LentSlotCalls.{AreLeft, LeavesLentSlot, RefusesInput};
ghost use Rattle.vf_flex.specs.LentSlotCalls.{alloc_granted, extend_granted, free_granted, mid_granted, put_granted};
ghost use Rattle.vf_flex.specs.SlotStatus.{anchor_status, answer_or, answer_status, place_or, status_of};

use crate::amount::{nearest, nearest_amount};
use crate::input::anchor_status;
use crate::status::{OK, give_number, give_place, outcome_status};
use rh_defs::Anchor;
use rh_lent_slot::LentSlot;

/// Puts a block of `n` zeros on top, and tells the place of its first byte. (flex_alloc.)
#[unsafe(no_mangle)]
pub extern "C" fn vf_flex_alloc(
    memory: &mut [u8],
    slot: &mut LentSlot,
    anchor: u32,
    n: usize,
    place: &mut usize,
) -> u32
    requires { AreLeft memory.old slot.old }
    ensures refused { RefusesInput memory.old memory.new slot.old slot.new
        (anchor_status (length memory.old) slot.old anchor) result }
    ensures kept { anchor_status (length memory.old) slot.old anchor ≢ 0 → place.new ≡ place.old }
    ensures status { anchor_status (length memory.old) slot.old anchor ≡ 0 →
        result ≡ status_of (alloc_granted memory.old slot.old anchor n) }
    ensures place { anchor_status (length memory.old) slot.old anchor ≡ 0 →
        place.new ≡ place_or (answer_of (alloc_granted memory.old slot.old anchor n)) place.old }
    ensures left { anchor_status (length memory.old) slot.old anchor ≡ 0 →
        LeavesLentSlot memory.old memory.new slot.old slot.new (alloc_granted memory.old slot.old anchor n) }
    ensures slides { anchor_status (length memory.old) slot.old anchor ≡ 0 → slot.new.slides ≡ slot.old.slides }
{
    match anchor_status(memory.len(), *slot, anchor) {
        OK => give_place(slot.alloc(memory, Anchor(anchor as u8), nearest(n)), place),
        status => status,
    }
}

/// Tells how many bytes the anchor's block has. (flex_size.)
#[unsafe(no_mangle)]
pub extern "C" fn vf_flex_size(memory: &[u8], slot: &LentSlot, anchor: u32, size: &mut usize) -> u32
    requires { AreLeft memory.now slot.now }
    ensures refused { anchor_status (length memory.now) slot.now anchor ≢ 0 →
        result ≡ anchor_status (length memory.now) slot.now anchor }
    ensures kept { anchor_status (length memory.now) slot.now anchor ≢ 0 → size.new ≡ size.old }
    ensures status { anchor_status (length memory.now) slot.now anchor ≡ 0 →
        result ≡ answer_status (slot_size anchor (lent_slot_in memory.now slot.now)) }
    ensures size { anchor_status (length memory.now) slot.now anchor ≡ 0 →
        size.new ≡ answer_or (slot_size anchor (lent_slot_in memory.now slot.now)) size.old }
{
    match anchor_status(memory.len(), *slot, anchor) {
        OK => give_number(slot.size(memory, Anchor(anchor as u8)), size),
        status => status,
    }
}

/// Takes the anchor's block away; those above it come down. (flex_free.)
#[unsafe(no_mangle)]
pub extern "C" fn vf_flex_free(memory: &mut [u8], slot: &mut LentSlot, anchor: u32) -> u32
    requires { AreLeft memory.old slot.old }
    ensures refused { RefusesInput memory.old memory.new slot.old slot.new
        (anchor_status (length memory.old) slot.old anchor) result }
    ensures status { anchor_status (length memory.old) slot.old anchor ≡ 0 →
        result ≡ status_of (free_granted memory.old slot.old anchor) }
    ensures left { anchor_status (length memory.old) slot.old anchor ≡ 0 →
        LeavesLentSlot memory.old memory.new slot.old slot.new (free_granted memory.old slot.old anchor) }
    ensures slides { anchor_status (length memory.old) slot.old anchor ≡ 0 →
        CountsSlides memory.old memory.new slot.old slot.new }
{
    match anchor_status(memory.len(), *slot, anchor) {
        OK => outcome_status(slot.free(memory, Anchor(anchor as u8))),
        status => status,
    }
}

/// Cuts the anchor's block to `n` bytes, or gives it zeros up to `n`; those above it slide. (flex_extend.)
#[unsafe(no_mangle)]
pub extern "C" fn vf_flex_extend(
    memory: &mut [u8],
    slot: &mut LentSlot,
    anchor: u32,
    n: usize,
) -> u32
    requires { AreLeft memory.old slot.old }
    ensures refused { RefusesInput memory.old memory.new slot.old slot.new
        (anchor_status (length memory.old) slot.old anchor) result }
    ensures status { anchor_status (length memory.old) slot.old anchor ≡ 0 →
        result ≡ status_of (extend_granted memory.old slot.old anchor n) }
    ensures left { anchor_status (length memory.old) slot.old anchor ≡ 0 →
        LeavesLentSlot memory.old memory.new slot.old slot.new (extend_granted memory.old slot.old anchor n) }
    ensures slides { anchor_status (length memory.old) slot.old anchor ≡ 0 →
        CountsSlides memory.old memory.new slot.old slot.new }
{
    match anchor_status(memory.len(), *slot, anchor) {
        OK => outcome_status(slot.extend(memory, Anchor(anchor as u8), nearest(n))),
        status => status,
    }
}

/// Puts `by` zeros into the anchor's block at an offset, or takes as many bytes before it out. (flex_midextend.)
#[unsafe(no_mangle)]
pub extern "C" fn vf_flex_midextend(
    memory: &mut [u8],
    slot: &mut LentSlot,
    anchor: u32,
    offset: usize,
    by: isize,
) -> u32
    requires { AreLeft memory.old slot.old }
    ensures refused { RefusesInput memory.old memory.new slot.old slot.new
        (anchor_status (length memory.old) slot.old anchor) result }
    ensures status { anchor_status (length memory.old) slot.old anchor ≡ 0 →
        result ≡ status_of (mid_granted memory.old slot.old anchor offset by) }
    ensures left { anchor_status (length memory.old) slot.old anchor ≡ 0 →
        LeavesLentSlot memory.old memory.new slot.old slot.new (mid_granted memory.old slot.old anchor offset by) }
    ensures slides { anchor_status (length memory.old) slot.old anchor ≡ 0 →
        CountsSlides memory.old memory.new slot.old slot.new }
{
    match anchor_status(memory.len(), *slot, anchor) {
        OK => outcome_status(slot.mid(memory, Anchor(anchor as u8), offset, nearest_amount(by))),
        status => status,
    }
}

/// Tells the place of the first byte of the anchor's block, which is its address less &8000.
#[unsafe(no_mangle)]
pub extern "C" fn vf_flex_place(
    memory: &[u8],
    slot: &LentSlot,
    anchor: u32,
    place: &mut usize,
) -> u32
    requires { AreLeft memory.now slot.now }
    ensures refused { anchor_status (length memory.now) slot.now anchor ≢ 0 →
        result ≡ anchor_status (length memory.now) slot.now anchor }
    ensures kept { anchor_status (length memory.now) slot.now anchor ≢ 0 → place.new ≡ place.old }
    ensures status { anchor_status (length memory.now) slot.now anchor ≡ 0 →
        result ≡ answer_status (slot_address anchor (lent_slot_in memory.now slot.now)) }
    ensures place { anchor_status (length memory.now) slot.now anchor ≡ 0 →
        place.new ≡ place_or (slot_address anchor (lent_slot_in memory.now slot.now)) place.old }
{
    match anchor_status(memory.len(), *slot, anchor) {
        OK => give_place(slot.address(memory, Anchor(anchor as u8)), place),
        status => status,
    }
}

/// Writes bytes into the anchor's block, from an offset in it on.
#[unsafe(no_mangle)]
pub extern "C" fn vf_flex_put(
    memory: &mut [u8],
    slot: &mut LentSlot,
    anchor: u32,
    offset: usize,
    from: &[u8],
) -> u32
    requires { AreLeft memory.old slot.old }
    ensures refused { RefusesInput memory.old memory.new slot.old slot.new
        (anchor_status (length memory.old) slot.old anchor) result }
    ensures status { anchor_status (length memory.old) slot.old anchor ≡ 0 →
        result ≡ status_of (put_granted memory.old slot.old anchor offset from.now) }
    ensures left { anchor_status (length memory.old) slot.old anchor ≡ 0 →
        LeavesLentSlot memory.old memory.new slot.old slot.new
        (put_granted memory.old slot.old anchor offset from.now) }
    ensures slides { anchor_status (length memory.old) slot.old anchor ≡ 0 → slot.new.slides ≡ slot.old.slides }
{
    match anchor_status(memory.len(), *slot, anchor) {
        OK => outcome_status(slot.put(memory, Anchor(anchor as u8), offset, from)),
        status => status,
    }
}

/// Fills a buffer with bytes of the anchor's block, from an offset in it on.
#[unsafe(no_mangle)]
pub extern "C" fn vf_flex_read(
    memory: &[u8],
    slot: &LentSlot,
    anchor: u32,
    offset: usize,
    to: &mut [u8],
) -> u32
    requires { AreLeft memory.now slot.now }
    ensures refused { anchor_status (length memory.now) slot.now anchor ≢ 0 →
        result ≡ anchor_status (length memory.now) slot.now anchor }
    ensures kept { anchor_status (length memory.now) slot.now anchor ≢ 0 → to.new ≡ to.old }
    ensures status { anchor_status (length memory.now) slot.now anchor ≡ 0 →
        result ≡ answer_status (outcome_of (slot_read anchor offset (length to.old)
        (lent_slot_in memory.now slot.now))) }
    ensures buffer { anchor_status (length memory.now) slot.now anchor ≡ 0 →
        to.new ≡ result_or to.old (slot_read anchor offset (length to.old) (lent_slot_in memory.now slot.now)) }
{
    match anchor_status(memory.len(), *slot, anchor) {
        OK => outcome_status(slot.read(memory, Anchor(anchor as u8), offset, to)),
        status => status,
    }
}
