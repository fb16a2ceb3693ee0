//! The calls on any bytes. Each looks at all of the heap first, and leaves bytes that are none.
ghost use Rattle.std.specs.Prelude.{◌≡◌, ◌≢◌, length};
ghost use Rattle.rh_defs.specs.Chain.{no_answer};
ghost use Rattle.rh_defs.specs.Heap.{claim_block, released_at, resize_block, largest, free_bytes};
ghost use Rattle.rh_defs.specs.HeapImage.{heap_of};
ghost use Rattle.rh_lent_heap.specs.Heaps.{IsHeapBytes};
ghost use Rattle.vf_heap.specs.HeapStatus.{answer_or, answer_status, extend_status, image_status, number_or, status_of};
ghost use Rattle.vf_heap.specs.LentHeapCalls.{LeavesLentHeap, Extends, RefusesImage, size_at};

use crate::image::image_status;
use crate::plain;
use crate::status::OK;

/// 0 where the first bytes are those of a heap, as many as its own word says.
#[unsafe(no_mangle)]
pub extern "C" fn vf_heap_check(memory: &[u8]) -> u32
    ensures status { result ≡ image_status memory.now }
    ensures heap { result ≡ 0 → IsHeapBytes memory.now }
{
    image_status(memory)
}

/// The bytes of the largest block that could be claimed, and all free bytes. (OS_Heap 1.)
#[unsafe(no_mangle)]
pub extern "C" fn vf_heap_checked_describe(memory: &[u8], most: &mut usize, free: &mut usize) -> u32
    ensures status { result ≡ image_status memory.now }
    ensures kept { image_status memory.now ≢ 0 → (most.new ≡ most.old) × (free.new ≡ free.old) }
    ensures most { image_status memory.now ≡ 0 → most.new ≡ largest (heap_of memory.now 0) }
    ensures free { image_status memory.now ≡ 0 → free.new ≡ free_bytes (heap_of memory.now 0) }
{
    match image_status(memory) {
        OK => plain::vf_heap_describe(memory, most, free),
        fault => fault,
    }
}

/// Claims a block of `n` bytes at least, all 0, and tells its address. (OS_Heap 2.)
#[unsafe(no_mangle)]
pub extern "C" fn vf_heap_checked_claim(memory: &mut [u8], n: usize, address: &mut usize) -> u32
    ensures refused { RefusesImage memory.old memory.new result }
    ensures kept { image_status memory.old ≢ 0 → address.new ≡ address.old }
    ensures status { image_status memory.old ≡ 0 → result ≡ status_of (claim_block n (heap_of memory.old 0)) }
    ensures address { image_status memory.old ≡ 0 → address.new
        ≡ number_or (claim_block n (heap_of memory.old 0)) address.old }
    ensures left { image_status memory.old ≡ 0 → LeavesLentHeap memory.old memory.new
        (claim_block n (heap_of memory.old 0)) }
{
    match image_status(memory) {
        OK => plain::vf_heap_claim(memory, n, address),
        fault => fault,
    }
}

/// Releases the block at an address. (OS_Heap 3.)
#[unsafe(no_mangle)]
pub extern "C" fn vf_heap_checked_release(memory: &mut [u8], address: usize) -> u32
    ensures refused { RefusesImage memory.old memory.new result }
    ensures status { image_status memory.old ≡ 0 → result ≡ status_of (no_answer
        (released_at address (heap_of memory.old 0))) }
    ensures left { image_status memory.old ≡ 0 → LeavesLentHeap memory.old memory.new (no_answer
        (released_at address (heap_of memory.old 0))) }
{
    match image_status(memory) {
        OK => plain::vf_heap_release(memory, address),
        fault => fault,
    }
}

/// Gives the block at an address `delta` bytes more, and tells where it is then. (OS_Heap 4.)
#[unsafe(no_mangle)]
pub extern "C" fn vf_heap_checked_resize(
    memory: &mut [u8],
    address: usize,
    delta: isize,
    moved_to: &mut usize,
) -> u32
    ensures refused { RefusesImage memory.old memory.new result }
    ensures kept { image_status memory.old ≢ 0 → moved_to.new ≡ moved_to.old }
    ensures status { image_status memory.old ≡ 0 → result ≡ status_of
        (resize_block address delta (heap_of memory.old 0)) }
    ensures address { image_status memory.old ≡ 0 → moved_to.new
        ≡ number_or (resize_block address delta (heap_of memory.old 0)) moved_to.old }
    ensures left { image_status memory.old ≡ 0 → LeavesLentHeap memory.old memory.new (resize_block address delta
        (heap_of memory.old 0)) }
{
    match image_status(memory) {
        OK => plain::vf_heap_resize(memory, address, delta, moved_to),
        fault => fault,
    }
}

/// Moves the heap's end by `delta` bytes, to one that lies in the bytes. (OS_Heap 5.)
#[unsafe(no_mangle)]
pub extern "C" fn vf_heap_checked_extend(memory: &mut [u8], delta: isize) -> u32
    ensures image { RefusesImage memory.old memory.new result }
    ensures status { image_status memory.old ≡ 0 → result
        ≡ extend_status (length memory.old) delta (heap_of memory.old 0) }
    ensures done { result ≡ 0 → Extends memory.old memory.new delta }
    ensures refused { result ≢ 0 → memory.new ≡ memory.old }
{
    match image_status(memory) {
        OK => plain::vf_heap_extend(memory, delta),
        fault => fault,
    }
}

/// Tells the bytes of the block at an address. (OS_Heap 6.)
#[unsafe(no_mangle)]
pub extern "C" fn vf_heap_checked_block_size(memory: &[u8], address: usize, size: &mut usize) -> u32
    ensures refused { image_status memory.now ≢ 0 → result ≡ image_status memory.now }
    ensures kept { image_status memory.now ≢ 0 → size.new ≡ size.old }
    ensures status { image_status memory.now ≡ 0 → result ≡ answer_status (size_at address (heap_of memory.now 0)) }
    ensures size { image_status memory.now ≡ 0 → size.new ≡ answer_or (size_at address
        (heap_of memory.now 0)) size.old }
{
    match image_status(memory) {
        OK => plain::vf_heap_block_size(memory, address, size),
        fault => fault,
    }
}
