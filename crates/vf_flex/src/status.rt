//! Statuses: how a call ended, as a number. The header for C has the same numbers.
ghost use Rattle.std.specs.Prelude.{◌≡◌};
ghost use Rattle.vf_flex.specs.SlotStatus.{answer_or, answer_status, fault_status, heap_fault_status, place_or};
ghost use Rattle.vf_flex.specs.SlotStatus.{refusal_status};

use rh_defs::sizes::SLOT_START;
use rh_defs::{HeapFault, Refusal};
use rh_slot::SlotFault;

/// All was done.
pub const OK: u32 = 0;

/// The anchor has no block.
pub const NO_BLOCK: u32 = 6;

/// The anchor has a block.
pub const ANCHOR_IN_USE: u32 = 7;

/// No block of the C heap begins at the place.
pub const NOT_A_BLOCK: u32 = 8;

/// Bytes lie outside the block.
pub const BAD_RANGE: u32 = 13;

/// The block would have fewer than 1 byte.
pub const BAD_SIZE: u32 = 14;

/// The C heap must grow, and budging is off.
pub const NO_BUDGE: u32 = 19;

/// Too few pages are free.
pub const NO_ROOM: u32 = 20;

/// No slot has so many bytes.
pub const BAD_LENGTH: u32 = 33;

/// The bytes are fewer than the slot's.
pub const SHORT: u32 = 34;

/// The descriptor of the C heap isn't that of a heap.
pub const BAD_DESCRIPTOR: u32 = 35;

/// A link of the C heap doesn't lead to a hole ahead.
pub const BAD_LINK: u32 = 36;

/// A size in the C heap isn't that of a segment.
pub const BAD_SEGMENT: u32 = 37;

/// No slot has this anchor.
pub const BAD_ANCHOR: u32 = 38;

/// No slot was started.
pub const NO_SLOT: u32 = 39;

/// A flex block goes past the slot's end.
pub const BAD_FLEX_BLOCK: u32 = 40;

/// An anchor word leads to no flex block.
pub const BAD_ANCHOR_WORD: u32 = 41;

/// The last page holds nothing of the slot.
pub const SPARE_PAGE: u32 = 42;

/// What no call on a slot answers.
const OTHER: u32 = 63;

/// The status of a refusal.
pub fn refusal_status(refusal: Refusal) -> u32
    ensures { result ≡ refusal_status refusal }
{
    match refusal {
        Refusal::NoBlock => NO_BLOCK,
        Refusal::AnchorInUse => ANCHOR_IN_USE,
        Refusal::NotABlock => NOT_A_BLOCK,
        Refusal::BadRange => BAD_RANGE,
        Refusal::BadSize => BAD_SIZE,
        Refusal::NoBudge => NO_BUDGE,
        Refusal::NoRoom => NO_ROOM,
        _ => OTHER,
    }
}

/// The status of a C heap that is none.
fn heap_fault_status(fault: HeapFault) -> u32
    ensures { result ≡ heap_fault_status fault }
{
    match fault {
        HeapFault::BadDescriptor => BAD_DESCRIPTOR,
        HeapFault::BadLink => BAD_LINK,
        HeapFault::BadSize => BAD_SEGMENT,
    }
}

/// The status of bytes that spell no slot.
pub fn fault_status(fault: SlotFault) -> u32
    ensures { result ≡ fault_status fault }
{
    match fault {
        SlotFault::BadLength => BAD_LENGTH,
        SlotFault::BadHeap(fault) => heap_fault_status(fault),
        SlotFault::BadSize => BAD_FLEX_BLOCK,
        SlotFault::BadAnchor => BAD_ANCHOR_WORD,
        SlotFault::SparePage => SPARE_PAGE,
    }
}

/// The status of an answer that is nothing but done or refused.
pub fn outcome_status(outcome: Result<(), Refusal>) -> u32
    ensures { result ≡ answer_status outcome }
{
    match outcome {
        Ok(()) => OK,
        Err(refusal) => refusal_status(refusal),
    }
}

/// The status of an answer. Its number is told, if it has one.
pub fn give_number(answer: Result<usize, Refusal>, number: &mut usize) -> u32
    ensures status { result ≡ answer_status answer }
    ensures number { number.new ≡ answer_or answer number.old }
{
    match answer {
        Ok(n) => {
            *number = n;
            OK
        }
        Err(refusal) => refusal_status(refusal),
    }
}

/// The status of an answer. Its address is told as a place, if it has one.
pub fn give_place(answer: Result<usize, Refusal>, place: &mut usize) -> u32
    ensures status { result ≡ answer_status answer }
    ensures place { place.new ≡ place_or answer place.old }
{
    match answer {
        Ok(address) => {
            *place = address.saturating_sub(SLOT_START);
            OK
        }
        Err(refusal) => refusal_status(refusal),
    }
}
