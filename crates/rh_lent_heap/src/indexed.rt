//! Heaps in bytes that a caller lends, with a map of where the segments begin, in words that it lends too: two for each
//! 512 bytes. What is answered, and what is left of the heap's bytes, is what the calls of `heap` do.
ghost use Rattle.std.specs.Prelude.{◌≡◌, ◌*◌, ◌/◌, ◌%◌, ◌≤◌, length, ok_or, OnErr};
ghost use Rattle.rh_defs.specs.Chain.{no_answer};
ghost use Rattle.rh_defs.specs.Heap.{claim_block, released_at, resize_block, need_at, block_size};
ghost use Rattle.rh_defs.specs.HeapImage.{heap_of};
ghost use Rattle.rh_store.specs.Starts.{IsIndex};
ghost use Rattle.rh_store.specs.declared.starts.TheConstants.{LINE_BYTES};
ghost use Rattle.rh_lent_heap.specs.Heaps.{IsHeapBytes, LeavesBytes};

use crate::heap::WHOLE;
use crate::lent::Lent;
use crate::lent_mut::LentMut;
use rh_defs::HeapRefusal;

/// Makes a map of where the heap's segments begin.
pub fn index(memory: &[u8], starts: &mut [u64])
    requires heap { IsHeapBytes memory.now }
    requires long { (heap_of memory.now 0).end ≤ LINE_BYTES * (length starts.old / 2) }
    ensures starts { IsIndex starts.new (heap_of memory.now 0) }
    ensures long { length starts.new ≡ length starts.old }
{
    let store = Lent { bytes: memory };
    rh_heap::index(&store, WHOLE, starts);
}

/// Claims a block of `n` bytes at least, all 0, and answers its address. (OS_Heap 2.)
pub fn claim(memory: &mut [u8], starts: &mut [u64], n: u32) -> Result<usize, HeapRefusal>
    requires heap { IsHeapBytes memory.old }
    requires starts { IsIndex starts.old (heap_of memory.old 0) }
    ensures leaves { LeavesBytes memory.old memory.new (claim_block n (heap_of memory.old 0)) result }
    ensures starts { IsIndex starts.new (heap_of memory.new 0) }
    ensures long { length starts.new ≡ length starts.old }
    ensures same { OnErr result (starts.new ≡ starts.old) }
{
    let mut store = LentMut { bytes: memory };
    rh_heap::claim_in(&mut store, WHOLE, starts, n)
}

/// Releases the block at an address. (OS_Heap 3.)
pub fn release(memory: &mut [u8], starts: &mut [u64], address: usize) -> Result<(), HeapRefusal>
    requires heap { IsHeapBytes memory.old }
    requires starts { IsIndex starts.old (heap_of memory.old 0) }
    ensures leaves { LeavesBytes memory.old memory.new (no_answer (released_at address (heap_of memory.old 0))) result }
    ensures starts { IsIndex starts.new (heap_of memory.new 0) }
    ensures long { length starts.new ≡ length starts.old }
    ensures same { OnErr result (starts.new ≡ starts.old) }
{
    let mut store = LentMut { bytes: memory };
    rh_heap::release_in(&mut store, WHOLE, starts, address)
}

/// Gives the block at an address `delta` bytes more, and answers its address. (OS_Heap 4.)
pub fn resize(
    memory: &mut [u8],
    starts: &mut [u64],
    address: usize,
    delta: i32,
) -> Result<usize, HeapRefusal>
    requires heap { IsHeapBytes memory.old }
    requires starts { IsIndex starts.old (heap_of memory.old 0) }
    ensures leaves { LeavesBytes memory.old memory.new (resize_block address delta (heap_of memory.old 0)) result }
    ensures starts { IsIndex starts.new (heap_of memory.new 0) }
    ensures long { length starts.new ≡ length starts.old }
    ensures same { OnErr result (starts.new ≡ starts.old) }
{
    let mut store = LentMut { bytes: memory };
    rh_heap::resize_in(&mut store, WHOLE, starts, address, delta)
}

/// The bytes of the block at an address. (OS_Heap 6.)
pub fn block_size(memory: &[u8], starts: &[u64], address: usize) -> Result<usize, HeapRefusal>
    requires heap { IsHeapBytes memory.now }
    requires starts { IsIndex starts.now (heap_of memory.now 0) }
    ensures { result ≡ ok_or (block_size address (heap_of memory.now 0)) HeapRefusal.NotABlock }
{
    let store = Lent { bytes: memory };
    rh_heap::block_size_in(&store, WHOLE, starts, address)
}

/// By how many bytes the heap is too short for a resize, 0 where it has room.
pub fn resize_need(
    memory: &[u8],
    starts: &[u64],
    address: usize,
    delta: i32,
) -> Result<usize, HeapRefusal>
    requires heap { IsHeapBytes memory.now }
    requires starts { IsIndex starts.now (heap_of memory.now 0) }
    ensures { result ≡ need_at address delta (heap_of memory.now 0) }
{
    let store = Lent { bytes: memory };
    rh_heap::resize_need_in(&store, WHOLE, starts, address, delta)
}
