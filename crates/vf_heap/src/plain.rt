//! The calls on bytes that are as the last call left them.
ghost use Rattle.std.specs.Prelude.{◌≡◌, ◌≢◌, length, Err};
ghost use Rattle.rh_defs.specs.Chain.{no_answer};
ghost use Rattle.rh_defs.specs.Heap.{claim_block, released_at, resize_block, largest, free_bytes, empty_heap};
ghost use Rattle.rh_defs.specs.HeapImage.{heap_of};
ghost use Rattle.rh_lent_heap.specs.Heaps.{IsHeapBytes};
ghost use Rattle.vf_heap.specs.HeapStatus.{answer_or, answer_status, extend_status, length_status, number_or};
ghost use Rattle.vf_heap.specs.HeapStatus.{status_of};
ghost use Rattle.vf_heap.specs.LentHeapCalls.{LeavesLentHeap, Extends, IsFar, IsLentHeap, size_at};

use crate::image::{LONGEST, length_status};
use crate::status::{
    BAD_LENGTH, EXCESSIVE_SHRINK, NO_ROOM, OK, SHORT, give_number, outcome_status, refusal_status,
};
use rh_defs::HeapRefusal;
use rh_defs::sizes::{HEAP_UNIT, moved};
use rh_lent_heap::heap;

/// Makes all of the bytes an empty heap. (OS_Heap 0.)
#[unsafe(no_mangle)]
pub extern "C" fn vf_heap_init(memory: &mut [u8]) -> u32
    ensures status { result ≡ length_status (length memory.old) }
    ensures bytes { result ≡ 0 → IsHeapBytes memory.new }
    ensures heap { result ≡ 0 → heap_of memory.new 0 ≡ empty_heap (length memory.old) }
    ensures refused { result ≢ 0 → memory.new ≡ memory.old }
{
    let status = length_status(memory.len());
    if status == OK {
        heap::init(memory);
    }
    status
}

/// The bytes of the largest block that could be claimed, and all free bytes. (OS_Heap 1.)
#[unsafe(no_mangle)]
pub extern "C" fn vf_heap_describe(memory: &[u8], most: &mut usize, free: &mut usize) -> u32
    requires { IsHeapBytes memory.now }
    ensures status { result ≡ 0 }
    ensures most { most.new ≡ largest (heap_of memory.now 0) }
    ensures free { free.new ≡ free_bytes (heap_of memory.now 0) }
{
    let (largest, total) = heap::describe(memory);
    *most = largest;
    *free = total;
    OK
}

/// Claims a block of `n` bytes at least, all 0, and tells its address. (OS_Heap 2.)
#[unsafe(no_mangle)]
pub extern "C" fn vf_heap_claim(memory: &mut [u8], n: usize, address: &mut usize) -> u32
    requires { IsHeapBytes memory.old }
    ensures status { result ≡ status_of (claim_block n (heap_of memory.old 0)) }
    ensures address { address.new ≡ number_or (claim_block n (heap_of memory.old 0)) address.old }
    ensures left { LeavesLentHeap memory.old memory.new (claim_block n (heap_of memory.old 0)) }
{
    match u32::try_from(n) {
        Ok(n) => give_number(heap::claim(memory, n), address),
        Err(_) => NO_ROOM,
    }
}

/// Releases the block at an address. (OS_Heap 3.)
#[unsafe(no_mangle)]
pub extern "C" fn vf_heap_release(memory: &mut [u8], address: usize) -> u32
    requires { IsHeapBytes memory.old }
    ensures status { result ≡ status_of (no_answer (released_at address (heap_of memory.old 0))) }
    ensures left { LeavesLentHeap memory.old memory.new (no_answer (released_at address (heap_of memory.old 0))) }
{
    outcome_status(heap::release(memory, address))
}

/// Why a block can't have so many bytes more, or fewer.
pub(crate) fn far_refusal(memory: &[u8], address: usize, delta: isize) -> HeapRefusal
    requires heap { IsHeapBytes memory.now }
    requires far { IsFar delta }
    ensures { resize_block address delta (heap_of memory.now 0) ≡ Err result }
{
    match heap::block_size(memory, address) {
        Err(refusal) => refusal,
        Ok(_) if delta < 0 => HeapRefusal::BadSize,
        Ok(_) => HeapRefusal::NoRoom,
    }
}

/// Gives the block at an address `delta` bytes more, and tells where it is then. (OS_Heap 4.)
#[unsafe(no_mangle)]
pub extern "C" fn vf_heap_resize(
    memory: &mut [u8],
    address: usize,
    delta: isize,
    moved_to: &mut usize,
) -> u32
    requires { IsHeapBytes memory.old }
    ensures status { result ≡ status_of (resize_block address delta (heap_of memory.old 0)) }
    ensures address { moved_to.new ≡ number_or (resize_block address delta (heap_of memory.old 0)) moved_to.old }
    ensures left { LeavesLentHeap memory.old memory.new (resize_block address delta (heap_of memory.old 0)) }
{
    match i32::try_from(delta) {
        Ok(delta) => give_number(heap::resize(memory, address, delta), moved_to),
        Err(_) => refusal_status(far_refusal(memory, address, delta)),
    }
}

/// Moves the heap's end by `delta` bytes, to one that lies in the bytes. More than 1 GiB of these are refused.
/// (OS_Heap 5.)
#[unsafe(no_mangle)]
pub extern "C" fn vf_heap_extend(memory: &mut [u8], delta: isize) -> u32
    requires { IsLentHeap memory.old }
    ensures status { result ≡ extend_status (length memory.old) delta (heap_of memory.old 0) }
    ensures done { result ≡ 0 → Extends memory.old memory.new delta }
    ensures refused { result ≢ 0 → memory.new ≡ memory.old }
{
    if memory.len() > LONGEST {
        return BAD_LENGTH;
    }
    match i32::try_from(delta) {
        Ok(delta) => extend(memory, delta),
        Err(_) if delta < 0 => EXCESSIVE_SHRINK,
        Err(_) => SHORT,
    }
}

/// Moves the heap's end by `delta` bytes, fewer than 2 GiB.
fn extend(memory: &mut [u8], delta: i32) -> u32
    requires { IsHeapBytes memory.old }
    ensures status { result ≡ extend_status (length memory.old) delta (heap_of memory.old 0) }
    ensures done { result ≡ 0 → Extends memory.old memory.new delta }
    ensures refused { result ≢ 0 → memory.new ≡ memory.old }
{
    let len = memory.len();
    let end = moved(heap::end(memory), delta);
    if len < end {
        return SHORT;
    }
    if end % HEAP_UNIT != 0 {
        return BAD_LENGTH;
    }
    outcome_status(heap::extend_heap(memory, delta))
}

/// Tells the bytes of the block at an address. (OS_Heap 6.)
#[unsafe(no_mangle)]
pub extern "C" fn vf_heap_block_size(memory: &[u8], address: usize, size: &mut usize) -> u32
    requires { IsHeapBytes memory.now }
    ensures status { result ≡ answer_status (size_at address (heap_of memory.now 0)) }
    ensures size { size.new ≡ answer_or (size_at address (heap_of memory.now 0)) size.old }
{
    give_number(heap::block_size(memory, address), size)
}
