//! The calls on flex blocks of wide slots, which have up to 4,096 anchors.
#![tactic(auto, using(crate::proofs::WideLaws::wide_laws))]

ghost use Rattle.std.specs.Prelude.{◌≡◌, ◌≢◌, ◌*◌, ◌<◌, ℕ, length, slice_index, None};
ghost use Rattle.rh_defs.specs.Bytes.{with_part};
ghost use Rattle.rh_defs.specs.Chain.{answer_of, outcome_of, result_or};
ghost use Rattle.rh_defs.specs.Pieces.{zeros};
ghost use Rattle.rh_wide_slot.specs.WideCalls.{LeavesBudged, room_in, wide_alloc, wide_budge, wide_extend};
ghost use Rattle.rh_wide_slot.specs.WideCalls.{wide_free, wide_mid, wide_place, wide_put, wide_read, wide_size};
ghost use Rattle.rh_wide_slot.specs.WideSlots.{IsWideSlot, row_block, row_place};
ghost use Rattle.vf_flex.specs.LentSlotCalls.{nearest_amount};
ghost use Rattle.vf_flex.specs.SlotStatus.{answer_or, answer_status};
ghost use Rattle.vf_flex.specs.WideStatus.{AreWide, LeavesAs, RefusesWide, start_with_status, wide_anchor_status};
ghost use Rattle.vf_flex.specs.WideStatus.{wide_place_at, wide_status};

use crate::amount::nearest_amount;
use crate::status::{OK, give_number, outcome_status};
use crate::wide_input::{start_with_status, wide_anchor_status, wide_status};
use rh_wide_slot::WideSlot;

/// Makes the bytes a slot with so many anchors and no block. (flex_init.)
#[unsafe(no_mangle)]
pub extern "C" fn vf_flex_start_with(memory: &mut [u8], slot: &mut WideSlot, anchors: u32) -> u32
    ensures status { result ≡ start_with_status (length memory.old) anchors }
    ensures bytes { result ≡ 0 → IsWideSlot memory.new slot.new }
    ensures numbers { result ≡ 0 →
        slot.new ≡ record { base = 8 * anchors; top = 8 * anchors; anchors = anchors; slides = 0 } }
    ensures empty { result ≡ 0 → (k : ℕ) → k < anchors → row_block memory.new k ≡ None }
    ensures words { result ≡ 0 → memory.new ≡ with_part memory.old 0 (zeros (8 * anchors)) }
    ensures refused { result ≢ 0 → (memory.new ≡ memory.old) × (slot.new ≡ slot.old) }
{
    let status = start_with_status(memory.len(), anchors);
    if status == OK {
        *slot = WideSlot::start(memory, anchors);
    }
    status
}

/// Puts a block of `n` zeros on top, and tells the place of its first byte. (flex_alloc.)
#[unsafe(no_mangle)]
pub extern "C" fn vf_flex_wide_alloc(
    memory: &mut [u8],
    slot: &mut WideSlot,
    anchor: u32,
    n: usize,
    place: &mut usize,
) -> u32
    requires { AreWide memory.old slot.old }
    ensures refused { RefusesWide memory.old memory.new slot.old slot.new
        (wide_anchor_status (length memory.old) slot.old anchor) result }
    ensures status { wide_anchor_status (length memory.old) slot.old anchor ≡ 0 →
        result ≡ answer_status (wide_alloc (room_in memory.old slot.old) n (row_block memory.old anchor)) }
    ensures left { wide_anchor_status (length memory.old) slot.old anchor ≡ 0 →
        LeavesAs memory.old memory.new slot.old slot.new anchor
        (wide_alloc (room_in memory.old slot.old) n (row_block memory.old anchor)) }
    ensures place { result ≡ 0 → place.new ≡ row_place memory.new anchor }
    ensures kept { result ≢ 0 → place.new ≡ place.old }
{
    match wide_anchor_status(memory.len(), *slot, anchor) {
        OK => give_number(slot.alloc(memory, anchor, n), place),
        status => status,
    }
}

/// Takes the anchor's block away; those above it come down. (flex_free.)
#[unsafe(no_mangle)]
pub extern "C" fn vf_flex_wide_free(memory: &mut [u8], slot: &mut WideSlot, anchor: u32) -> u32
    requires { AreWide memory.old slot.old }
    ensures refused { RefusesWide memory.old memory.new slot.old slot.new
        (wide_anchor_status (length memory.old) slot.old anchor) result }
    ensures status { wide_anchor_status (length memory.old) slot.old anchor ≡ 0 →
        result ≡ answer_status (wide_free (row_block memory.old anchor)) }
    ensures left { wide_anchor_status (length memory.old) slot.old anchor ≡ 0 →
        LeavesAs memory.old memory.new slot.old slot.new anchor
        (wide_free (row_block memory.old anchor)) }
{
    match wide_anchor_status(memory.len(), *slot, anchor) {
        OK => outcome_status(slot.free(memory, anchor)),
        status => status,
    }
}

/// Cuts the anchor's block to `n` bytes, or gives it zeros up to `n`. (flex_extend.)
#[unsafe(no_mangle)]
pub extern "C" fn vf_flex_wide_extend(
    memory: &mut [u8],
    slot: &mut WideSlot,
    anchor: u32,
    n: usize,
) -> u32
    requires { AreWide memory.old slot.old }
    ensures refused { RefusesWide memory.old memory.new slot.old slot.new
        (wide_anchor_status (length memory.old) slot.old anchor) result }
    ensures status { wide_anchor_status (length memory.old) slot.old anchor ≡ 0 →
        result ≡ answer_status (wide_extend (room_in memory.old slot.old) n (row_block memory.old anchor)) }
    ensures left { wide_anchor_status (length memory.old) slot.old anchor ≡ 0 →
        LeavesAs memory.old memory.new slot.old slot.new anchor
        (wide_extend (room_in memory.old slot.old) n (row_block memory.old anchor)) }
{
    match wide_anchor_status(memory.len(), *slot, anchor) {
        OK => outcome_status(slot.extend(memory, anchor, n)),
        status => status,
    }
}

/// Puts `by` zeros into the anchor's block at an offset, or takes bytes before it out. (flex_midextend.)
#[unsafe(no_mangle)]
pub extern "C" fn vf_flex_wide_midextend(
    memory: &mut [u8],
    slot: &mut WideSlot,
    anchor: u32,
    offset: usize,
    by: isize,
) -> u32
    requires { AreWide memory.old slot.old }
    ensures refused { RefusesWide memory.old memory.new slot.old slot.new
        (wide_anchor_status (length memory.old) slot.old anchor) result }
    ensures status { wide_anchor_status (length memory.old) slot.old anchor ≡ 0 →
        result ≡ answer_status (wide_mid (room_in memory.old slot.old) offset (nearest_amount by)
        (row_block memory.old anchor)) }
    ensures left { wide_anchor_status (length memory.old) slot.old anchor ≡ 0 →
        LeavesAs memory.old memory.new slot.old slot.new anchor
        (wide_mid (room_in memory.old slot.old) offset (nearest_amount by) (row_block memory.old anchor)) }
{
    match wide_anchor_status(memory.len(), *slot, anchor) {
        OK => outcome_status(slot.mid(memory, anchor, offset, nearest_amount(by))),
        status => status,
    }
}

/// Writes bytes into the anchor's block, from an offset in it on.
#[unsafe(no_mangle)]
pub extern "C" fn vf_flex_wide_put(
    memory: &mut [u8],
    slot: &mut WideSlot,
    anchor: u32,
    offset: usize,
    from: &[u8],
) -> u32
    requires { AreWide memory.old slot.old }
    ensures refused { RefusesWide memory.old memory.new slot.old slot.new
        (wide_anchor_status (length memory.old) slot.old anchor) result }
    ensures status { wide_anchor_status (length memory.old) slot.old anchor ≡ 0 →
        result ≡ answer_status (wide_put offset from.now (row_block memory.old anchor)) }
    ensures left { wide_anchor_status (length memory.old) slot.old anchor ≡ 0 →
        LeavesAs memory.old memory.new slot.old slot.new anchor
        (wide_put offset from.now (row_block memory.old anchor)) }
{
    match wide_anchor_status(memory.len(), *slot, anchor) {
        OK => outcome_status(slot.put(memory, anchor, offset, from)),
        status => status,
    }
}

/// Tells how many bytes the anchor's block has. (flex_size.)
#[unsafe(no_mangle)]
pub extern "C" fn vf_flex_wide_size(
    memory: &[u8],
    slot: &WideSlot,
    anchor: u32,
    size: &mut usize,
) -> u32
    requires { AreWide memory.now slot.now }
    ensures refused { wide_anchor_status (length memory.now) slot.now anchor ≢ 0 →
        result ≡ wide_anchor_status (length memory.now) slot.now anchor }
    ensures kept { wide_anchor_status (length memory.now) slot.now anchor ≢ 0 → size.new ≡ size.old }
    ensures status { wide_anchor_status (length memory.now) slot.now anchor ≡ 0 →
        result ≡ answer_status (wide_size (row_block memory.now anchor)) }
    ensures size { wide_anchor_status (length memory.now) slot.now anchor ≡ 0 →
        size.new ≡ answer_or (wide_size (row_block memory.now anchor)) size.old }
{
    match wide_anchor_status(memory.len(), *slot, anchor) {
        OK => give_number(slot.size(memory, anchor), size),
        status => status,
    }
}

/// Tells where the anchor's block begins.
#[unsafe(no_mangle)]
pub extern "C" fn vf_flex_wide_place(
    memory: &[u8],
    slot: &WideSlot,
    anchor: u32,
    place: &mut usize,
) -> u32
    requires { AreWide memory.now slot.now }
    ensures refused { wide_anchor_status (length memory.now) slot.now anchor ≢ 0 →
        result ≡ wide_anchor_status (length memory.now) slot.now anchor }
    ensures kept { wide_anchor_status (length memory.now) slot.now anchor ≢ 0 → place.new ≡ place.old }
    ensures status { wide_anchor_status (length memory.now) slot.now anchor ≡ 0 →
        result ≡ answer_status (wide_place memory.now anchor) }
    ensures place { wide_anchor_status (length memory.now) slot.now anchor ≡ 0 →
        place.new ≡ answer_or (wide_place memory.now anchor) place.old }
{
    match wide_anchor_status(memory.len(), *slot, anchor) {
        OK => give_number(slot.place(memory, anchor), place),
        status => status,
    }
}

/// Fills a buffer with bytes of the anchor's block, from an offset in it on.
#[unsafe(no_mangle)]
pub extern "C" fn vf_flex_wide_read(
    memory: &[u8],
    slot: &WideSlot,
    anchor: u32,
    offset: usize,
    to: &mut [u8],
) -> u32
    requires { AreWide memory.now slot.now }
    ensures refused { wide_anchor_status (length memory.now) slot.now anchor ≢ 0 →
        result ≡ wide_anchor_status (length memory.now) slot.now anchor }
    ensures kept { wide_anchor_status (length memory.now) slot.now anchor ≢ 0 → to.new ≡ to.old }
    ensures status { wide_anchor_status (length memory.now) slot.now anchor ≡ 0 →
        result ≡ answer_status (outcome_of (wide_read offset (length to.old) (row_block memory.now anchor))) }
    ensures buffer { wide_anchor_status (length memory.now) slot.now anchor ≡ 0 →
        to.new ≡ result_or to.old (wide_read offset (length to.old) (row_block memory.now anchor)) }
{
    match wide_anchor_status(memory.len(), *slot, anchor) {
        OK => outcome_status(slot.read(memory, anchor, offset, to)),
        status => status,
    }
}

/// Tells for each anchor from 0 on, as many as `places` has room for, where its block begins, or 0 where it has none.
#[unsafe(no_mangle)]
pub extern "C" fn vf_flex_wide_places(memory: &[u8], slot: &WideSlot, places: &mut [usize]) -> u32
    requires { AreWide memory.now slot.now }
    ensures status { result ≡ wide_status (length memory.now) slot.now }
    ensures kept { result ≢ 0 → places.new ≡ places.old }
    ensures len { length places.new ≡ length places.old }
    ensures places { result ≡ 0 →
        (k : ℕ) → k < length places.old → slice_index places.new k ≡ wide_place_at memory.now slot.now k }
{
    let status = wide_status(memory.len(), *slot);
    if status == OK {
        tell_wide_places(memory, *slot, places);
    }
    status
}

/// Gives `n` bytes more below the blocks, in whole eights, and tells where they begin. (flex_budge.)
#[unsafe(no_mangle)]
pub extern "C" fn vf_flex_wide_budge(
    memory: &mut [u8],
    slot: &mut WideSlot,
    n: usize,
    place: &mut usize,
) -> u32
    requires { AreWide memory.old slot.old }
    ensures refused { RefusesWide memory.old memory.new slot.old slot.new
        (wide_status (length memory.old) slot.old) result }
    ensures kept { result ≢ 0 → place.new ≡ place.old }
    ensures status { wide_status (length memory.old) slot.old ≡ 0 →
        result ≡ answer_status (answer_of (wide_budge (room_in memory.old slot.old) n slot.old)) }
    ensures place { result ≡ 0 → place.new ≡ slot.old.base }
    ensures left { wide_status (length memory.old) slot.old ≡ 0 →
        LeavesBudged memory.old memory.new slot.old slot.new (wide_budge (room_in memory.old slot.old) n slot.old)
        (answer_of (wide_budge (room_in memory.old slot.old) n slot.old)) }
{
    match wide_status(memory.len(), *slot) {
        OK => give_number(slot.budge(memory, n), place),
        status => status,
    }
}

/// Tells where the block of each anchor begins, from anchor 0 on.
fn tell_wide_places(memory: &[u8], slot: WideSlot, places: &mut [usize])
    requires { IsWideSlot memory.now slot }
    ensures len { length places.new ≡ length places.old }
    ensures places { (k : ℕ) → k < length places.old →
        slice_index places.new k ≡ wide_place_at memory.now slot k }
{
    for (anchor, place) in places.iter_mut().enumerate() {
        *place = wide_place_at(memory, slot, anchor);
    }
}

/// Where the anchor's block begins, or 0 where there is no such block.
#[tactic(auto, using(std::proofs::lemmas::Bool::Decides::nat_tests))]
fn wide_place_at(memory: &[u8], slot: WideSlot, anchor: usize) -> usize
    requires { IsWideSlot memory.now slot }
    ensures { result ≡ wide_place_at memory.now slot anchor }
{
    if anchor < slot.anchors as usize {
        return told_place(memory, slot, anchor as u32);
    }
    0
}

/// Where the anchor's block begins, or 0 where it has none.
fn told_place(memory: &[u8], slot: WideSlot, anchor: u32) -> usize
    requires slot { IsWideSlot memory.now slot }
    requires anchor { anchor < slot.anchors }
    ensures { result ≡ row_place memory.now anchor }
{
    let mut place = 0;
    give_number(slot.place(memory, anchor), &mut place);
    place
}
