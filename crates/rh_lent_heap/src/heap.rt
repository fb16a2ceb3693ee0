//! Heaps in bytes that a caller lends.
ghost use Rattle.std.specs.Prelude.{◌≡◌, ◌%◌, ◌≤◌, length, is_some, ok_or};
ghost use Rattle.std.specs.Option.{option_map};
ghost use Rattle.rh_defs.specs.Chain.{no_answer};
ghost use Rattle.rh_defs.specs.Heap.{empty_heap, claim_block, claim_need, released_at, resize_block, need_at};
ghost use Rattle.rh_defs.specs.Heap.{extend_by};
ghost use Rattle.rh_defs.specs.Heap.{block_size, block_around, segment_at, largest, free_bytes};
ghost use Rattle.rh_defs.specs.HeapImage.{heap_of};
ghost use Rattle.rh_defs.specs.Pieces.{moved};
ghost use Rattle.rh_defs.specs.declared.sizes.TheConstants.{HEAP_FIRST, HEAP_UNIT};
ghost use Rattle.rh_heap.specs.Listed.{segments_from};
ghost use Rattle.rh_heap.specs.Segments.{piece};
ghost use Rattle.rh_store.specs.Limits.{area_limit};
ghost use Rattle.rh_lent_heap.specs.Heaps.{IsHeapBytes, LeavesBytes};

use crate::lent::{LENT, Lent};
use crate::lent_mut::LentMut;
use arrayvec::ArrayVec;
use rh_defs::HeapRefusal;
use rh_defs::sizes::SEGMENTS_AT_ONCE;
use rh_heap::{Segment, Span};

/// All of the lent bytes.
pub(crate) const WHOLE: Span = Span { area: LENT, at: 0 };

/// Makes all of the bytes an empty heap. (OS_Heap 0.)
pub fn init(memory: &mut [u8])
    requires few { length memory.old ≤ area_limit }
    requires least { HEAP_FIRST ≤ length memory.old }
    requires multiple { length memory.old % HEAP_UNIT ≡ 0 }
    ensures bytes { IsHeapBytes memory.new }
    ensures heap { heap_of memory.new 0 ≡ empty_heap (length memory.old) }
{
    let len = memory.len();
    let mut store = LentMut { bytes: memory };
    rh_heap::init(&mut store, WHOLE, len);
}

/// The bytes of the largest block that fits, and all free bytes. (OS_Heap 1.)
pub fn describe(memory: &[u8]) -> (usize, usize)
    requires { IsHeapBytes memory.now }
    ensures largest { result.0 ≡ largest (heap_of memory.now 0) }
    ensures free { result.1 ≡ free_bytes (heap_of memory.now 0) }
{
    let store = Lent { bytes: memory };
    rh_heap::describe(&store, WHOLE)
}

/// Claims a block of `n` bytes at least, all 0, and answers its address. (OS_Heap 2.)
pub fn claim(memory: &mut [u8], n: u32) -> Result<usize, HeapRefusal>
    requires { IsHeapBytes memory.old }
    ensures { LeavesBytes memory.old memory.new (claim_block n (heap_of memory.old 0)) result }
{
    let mut store = LentMut { bytes: memory };
    rh_heap::claim(&mut store, WHOLE, n)
}

/// Releases the block at an address. (OS_Heap 3.)
pub fn release(memory: &mut [u8], address: usize) -> Result<(), HeapRefusal>
    requires { IsHeapBytes memory.old }
    ensures { LeavesBytes memory.old memory.new (no_answer (released_at address (heap_of memory.old 0))) result }
{
    let mut store = LentMut { bytes: memory };
    rh_heap::release(&mut store, WHOLE, address)
}

/// Gives the block at an address `delta` bytes more, and answers its address. (OS_Heap 4.)
pub fn resize(memory: &mut [u8], address: usize, delta: i32) -> Result<usize, HeapRefusal>
    requires { IsHeapBytes memory.old }
    ensures { LeavesBytes memory.old memory.new (resize_block address delta (heap_of memory.old 0)) result }
{
    let mut store = LentMut { bytes: memory };
    rh_heap::resize(&mut store, WHOLE, address, delta)
}

/// Moves the heap's end by `delta` bytes, a multiple of 8, to one that lies in the bytes. (OS_Heap 5.)
pub fn extend_heap(memory: &mut [u8], delta: i32) -> Result<(), HeapRefusal>
    requires bytes { IsHeapBytes memory.old }
    requires multiple { moved (heap_of memory.old 0).end delta % HEAP_UNIT ≡ 0 }
    requires within { moved (heap_of memory.old 0).end delta ≤ length memory.old }
    ensures { LeavesBytes memory.old memory.new (no_answer (extend_by delta (heap_of memory.old 0))) result }
{
    let mut store = LentMut { bytes: memory };
    rh_heap::extend_heap(&mut store, WHOLE, delta)
}

/// The heap's end: its length in bytes.
pub fn end(memory: &[u8]) -> usize
    requires { IsHeapBytes memory.now }
    ensures end { result ≡ (heap_of memory.now 0).end }
    ensures within { result ≤ length memory.now }
{
    let store = Lent { bytes: memory };
    rh_heap::end(&store, WHOLE)
}

/// The bytes of the block at an address. (OS_Heap 6.)
pub fn block_size(memory: &[u8], address: usize) -> Result<usize, HeapRefusal>
    requires { IsHeapBytes memory.now }
    ensures { result ≡ ok_or (block_size address (heap_of memory.now 0)) HeapRefusal.NotABlock }
{
    let store = Lent { bytes: memory };
    rh_heap::block_size(&store, WHOLE, address)
}

/// By how many bytes the heap is too short for a claim of `n` bytes, 0 where it has room.
pub fn need(memory: &[u8], n: u32) -> Result<usize, HeapRefusal>
    requires { IsHeapBytes memory.now }
    ensures { result ≡ claim_need n (heap_of memory.now 0) }
{
    let store = Lent { bytes: memory };
    rh_heap::need(&store, WHOLE, n)
}

/// By how many bytes the heap is too short for a resize, 0 where it has room.
pub fn resize_need(memory: &[u8], address: usize, delta: i32) -> Result<usize, HeapRefusal>
    requires { IsHeapBytes memory.now }
    ensures { result ≡ need_at address delta (heap_of memory.now 0) }
{
    let store = Lent { bytes: memory };
    rh_heap::resize_need(&store, WHOLE, address, delta)
}

/// Whether the `n` bytes at an address lie whole in one used block, also where `n` is 0.
pub fn holds(memory: &[u8], address: usize, n: usize) -> bool
    requires { IsHeapBytes memory.now }
    ensures { result ≡ is_some (block_around address n (heap_of memory.now 0)) }
{
    let store = Lent { bytes: memory };
    rh_heap::holds(&store, WHOLE, address, n)
}

/// The segment that begins at a place.
pub fn segment(memory: &[u8], place: usize) -> Option<Segment>
    requires { IsHeapBytes memory.now }
    ensures { result ≡ option_map piece (segment_at place (heap_of memory.now 0)) }
{
    let store = Lent { bytes: memory };
    rh_heap::segment(&store, WHOLE, place)
}

/// Up to 64 segments in order of place, from the one that begins at `place` on; none where none begins there.
pub fn segments_from(memory: &[u8], place: usize) -> ArrayVec<Segment, SEGMENTS_AT_ONCE>
    requires { IsHeapBytes memory.now }
    ensures { result.items ≡ segments_from place (heap_of memory.now 0) }
{
    let store = Lent { bytes: memory };
    let mut segments = ArrayVec::new();
    rh_heap::segments_from(&store, WHOLE, place, &mut segments);
    segments
}
