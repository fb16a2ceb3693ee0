//! Statuses: how a call ended, as a number. The header for C has the same numbers.
ghost use Rattle.std.specs.Prelude.{◌≡◌};
ghost use Rattle.vf_heap.specs.HeapStatus.{answer_or, answer_status, fault_status, refusal_status};

use rh_defs::{HeapFault, HeapRefusal};

/// All was done.
pub const OK: u32 = 0;

/// No block begins at the address.
pub const NOT_A_BLOCK: u32 = 8;

/// The block would have fewer than 1 byte.
pub const BAD_SIZE: u32 = 14;

/// The heap would end below its last block.
pub const EXCESSIVE_SHRINK: u32 = 15;

/// The heap has no room.
pub const NO_ROOM: u32 = 20;

/// No heap has so many bytes.
pub const BAD_LENGTH: u32 = 33;

/// The bytes are fewer than the heap's.
pub const SHORT: u32 = 34;

/// The descriptor isn't that of a heap.
pub const BAD_DESCRIPTOR: u32 = 35;

/// A link doesn't lead to a hole ahead.
pub const BAD_LINK: u32 = 36;

/// A size isn't that of a segment.
pub const BAD_SEGMENT: u32 = 37;

/// The status of a refusal.
pub fn refusal_status(refusal: HeapRefusal) -> u32
    ensures { result ≡ refusal_status refusal }
{
    match refusal {
        HeapRefusal::NotABlock => NOT_A_BLOCK,
        HeapRefusal::BadSize => BAD_SIZE,
        HeapRefusal::NoRoom => NO_ROOM,
        HeapRefusal::ExcessiveShrink => EXCESSIVE_SHRINK,
    }
}

/// The status of bytes that spell no heap.
pub fn fault_status(fault: HeapFault) -> u32
    ensures { result ≡ fault_status fault }
{
    match fault {
        HeapFault::BadDescriptor => BAD_DESCRIPTOR,
        HeapFault::BadLink => BAD_LINK,
        HeapFault::BadSize => BAD_SEGMENT,
    }
}

/// The status of an answer that is nothing but done or refused.
pub fn outcome_status(outcome: Result<(), HeapRefusal>) -> u32
    ensures { result ≡ answer_status outcome }
{
    match outcome {
        Ok(()) => OK,
        Err(refusal) => refusal_status(refusal),
    }
}

/// The status of an answer. Its number is told, if it has one.
pub fn give_number(answer: Result<usize, HeapRefusal>, number: &mut usize) -> u32
    ensures status { result ≡ answer_status answer }
    ensures number { number.new ≡ answer_or answer number.old }
{
    match answer {
        Ok(n) => {
            *number = n;
            OK
        }
        Err(refusal) => refusal_status(refusal),
    }
}
