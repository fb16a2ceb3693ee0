//! The calls on a heap beside which the caller keeps a map of where its segments begin, so that no walk looks for a
//! block. They take the bytes and the map as the last call left them, and do with the bytes what the plain calls do.
ghost use Rattle.std.specs.Prelude.{◌≡◌, ◌≢◌, ◌*◌, ◌/◌, ◌≤◌, length};
ghost use Rattle.rh_defs.specs.Chain.{no_answer};
ghost use Rattle.rh_defs.specs.Heap.{claim_block, released_at, resize_block, need_at};
ghost use Rattle.rh_defs.specs.HeapImage.{heap_of};
ghost use Rattle.rh_store.specs.Starts.{IsIndex};
ghost use Rattle.rh_store.specs.declared.starts.TheConstants.{LINE_BYTES};
ghost use Rattle.rh_lent_heap.specs.Heaps.{IsHeapBytes};
ghost use Rattle.vf_heap.specs.HeapStatus.{answer_or, answer_status, map_status, map_words, number_or, status_of};
ghost use Rattle.vf_heap.specs.LentHeapCalls.{LeavesLentHeap, IsFar, size_at};

use crate::plain::far_refusal;
use crate::status::{NO_ROOM, OK, SHORT, give_number, outcome_status, refusal_status};
use rh_heap::LINE_BYTES;
use rh_lent_heap::{heap, indexed};

/// The words that a map has for a heap of so many bytes: two for each `LINE_BYTES`, and for those that are left.
#[unsafe(no_mangle)]
pub extern "C" fn vf_heap_map_words(length: usize) -> usize
    ensures words { result ≡ map_words length }
    ensures long { length ≤ LINE_BYTES * (result / 2) }
{
    2 * length.div_ceil(LINE_BYTES)
}

/// Makes a map of where the heap's segments begin.
#[unsafe(no_mangle)]
pub extern "C" fn vf_heap_index(memory: &[u8], map: &mut [u64]) -> u32
    requires { IsHeapBytes memory.now }
    ensures status { result ≡ map_status (length map.old) (heap_of memory.now 0) }
    ensures map { result ≡ 0 → IsIndex map.new (heap_of memory.now 0) }
    ensures refused { result ≢ 0 → map.new ≡ map.old }
{
    let end = heap::end(memory);
    if map.len() < vf_heap_map_words(end) {
        return SHORT;
    }
    indexed::index(memory, map);
    OK
}

/// Claims a block of `n` bytes at least, all 0, and tells its address. (OS_Heap 2.)
#[unsafe(no_mangle)]
pub extern "C" fn vf_heap_indexed_claim(
    memory: &mut [u8],
    map: &mut [u64],
    n: usize,
    address: &mut usize,
) -> u32
    requires heap { IsHeapBytes memory.old }
    requires map { IsIndex map.old (heap_of memory.old 0) }
    ensures status { result ≡ status_of (claim_block n (heap_of memory.old 0)) }
    ensures address { address.new ≡ number_or (claim_block n (heap_of memory.old 0)) address.old }
    ensures left { LeavesLentHeap memory.old memory.new (claim_block n (heap_of memory.old 0)) }
    ensures map { IsIndex map.new (heap_of memory.new 0) }
    ensures refused { result ≢ 0 → map.new ≡ map.old }
{
    match u32::try_from(n) {
        Ok(n) => give_number(indexed::claim(memory, map, n), address),
        Err(_) => NO_ROOM,
    }
}

/// Releases the block at an address. (OS_Heap 3.)
#[unsafe(no_mangle)]
pub extern "C" fn vf_heap_indexed_release(memory: &mut [u8], map: &mut [u64], address: usize) -> u32
    requires heap { IsHeapBytes memory.old }
    requires map { IsIndex map.old (heap_of memory.old 0) }
    ensures status { result ≡ status_of (no_answer (released_at address (heap_of memory.old 0))) }
    ensures left { LeavesLentHeap memory.old memory.new (no_answer (released_at address (heap_of memory.old 0))) }
    ensures map { IsIndex map.new (heap_of memory.new 0) }
    ensures refused { result ≢ 0 → map.new ≡ map.old }
{
    outcome_status(indexed::release(memory, map, address))
}

/// Gives the block at an address `delta` bytes more, and tells where it is then. (OS_Heap 4.)
#[unsafe(no_mangle)]
pub extern "C" fn vf_heap_indexed_resize(
    memory: &mut [u8],
    map: &mut [u64],
    address: usize,
    delta: isize,
    moved_to: &mut usize,
) -> u32
    requires heap { IsHeapBytes memory.old }
    requires map { IsIndex map.old (heap_of memory.old 0) }
    ensures status { result ≡ status_of (resize_block address delta (heap_of memory.old 0)) }
    ensures address { moved_to.new ≡ number_or (resize_block address delta (heap_of memory.old 0)) moved_to.old }
    ensures left { LeavesLentHeap memory.old memory.new (resize_block address delta (heap_of memory.old 0)) }
    ensures map { IsIndex map.new (heap_of memory.new 0) }
    ensures refused { result ≢ 0 → map.new ≡ map.old }
{
    match i32::try_from(delta) {
        Ok(delta) => give_number(indexed::resize(memory, map, address, delta), moved_to),
        Err(_) => refusal_status(far_refusal(memory, address, delta)),
    }
}

/// Tells the bytes of the block at an address. (OS_Heap 6.)
#[unsafe(no_mangle)]
pub extern "C" fn vf_heap_indexed_block_size(
    memory: &[u8],
    map: &[u64],
    address: usize,
    size: &mut usize,
) -> u32
    requires heap { IsHeapBytes memory.now }
    requires map { IsIndex map.now (heap_of memory.now 0) }
    ensures status { result ≡ answer_status (size_at address (heap_of memory.now 0)) }
    ensures size { size.new ≡ answer_or (size_at address (heap_of memory.now 0)) size.old }
{
    give_number(indexed::block_size(memory, map, address), size)
}

/// Tells by how many bytes the heap is too short for a resize, 0 where it has room. An amount that 32 bits with a sign
/// don't hold has the status of that resize, and nothing is told.
#[unsafe(no_mangle)]
pub extern "C" fn vf_heap_indexed_resize_need(
    memory: &[u8],
    map: &[u64],
    address: usize,
    delta: isize,
    need: &mut usize,
) -> u32
    requires heap { IsHeapBytes memory.now }
    requires map { IsIndex map.now (heap_of memory.now 0) }
    ensures status { (IsFar delta → ⊥) → result ≡ answer_status (need_at address delta (heap_of memory.now 0)) }
    ensures need { (IsFar delta → ⊥) → need.new ≡ answer_or (need_at address delta (heap_of memory.now 0)) need.old }
    ensures far { IsFar delta → result ≡ status_of (resize_block address delta (heap_of memory.now 0)) }
    ensures kept { IsFar delta → need.new ≡ need.old }
{
    match i32::try_from(delta) {
        Ok(delta) => give_number(indexed::resize_need(memory, map, address, delta), need),
        Err(_) => refusal_status(far_refusal(memory, address, delta)),
    }
}
