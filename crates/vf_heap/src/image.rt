//! Whether bytes from anywhere begin with a heap.
ghost use Rattle.std.specs.Prelude.{◌≡◌, length};
ghost use Rattle.rh_lent_heap.specs.Heaps.{IsHeapBytes};
ghost use Rattle.vf_heap.specs.HeapStatus.{image_status, length_status};

use crate::status::{BAD_DESCRIPTOR, BAD_LENGTH, OK, SHORT, fault_status};
use rh_defs::sizes::{HEAP_END, HEAP_FIRST, HEAP_SPECIAL, HEAP_UNIT, HEAP_WORD};
use rh_store::bytes::word_in;

/// The most bytes in which a heap may lie: 1 GiB.
pub const LONGEST: usize = 0x4000_0000;

/// Whether so many bytes can be made a heap.
pub fn length_status(len: usize) -> u32
    ensures { result ≡ length_status len }
{
    if len < HEAP_FIRST || LONGEST < len || len % HEAP_UNIT != 0 {
        return BAD_LENGTH;
    }
    OK
}

/// Whether the first bytes are those of a heap, as many as its own word says, and else what is wrong first.
pub fn image_status(memory: &[u8]) -> u32
    ensures status { result ≡ image_status memory.now }
    ensures heap { result ≡ 0 → IsHeapBytes memory.now }
{
    let len = memory.len();
    if len < HEAP_FIRST || LONGEST < len {
        return BAD_LENGTH;
    }
    if word_in(memory, HEAP_SPECIAL) as usize != HEAP_WORD {
        return BAD_DESCRIPTOR;
    }
    let end = word_in(memory, HEAP_END) as usize;
    if len < end {
        return SHORT;
    }
    match rh_heap::check(&memory[..end]) {
        Ok(_) => OK,
        Err(fault) => fault_status(fault),
    }
}
