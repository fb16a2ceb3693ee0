//! A heap in bytes that a caller lends.
ghost use Rattle.std.specs.Prelude.{◌≡◌, [], ◌∷◌, length, replicate};
ghost use Rattle.rh_defs.specs.Heap.{Used};
ghost use Rattle.rh_defs.specs.HeapImage.{heap_of};
ghost use Rattle.rh_lent_heap.specs.Heaps.{IsHeapBytes};

use rh_lent_heap::heap;

/// Makes 256 lent bytes a heap, claims a block of 12 bytes and gives it 8 more. Answers the block's address and size.
/// (OS_Heap 0, 2, 4 and 6.)
pub fn grow_block(memory: &mut [u8]) -> (usize, usize)
    requires { length memory.old ≡ 256 }
    ensures bytes { IsHeapBytes memory.new }
    ensures heap { heap_of memory.new 0 ≡ record { segments = Used (replicate 20 0) ∷ []; end = 256 } }
    ensures answer { result ≡ (20, 20) }
{
    heap::init(memory);
    let address = heap::claim(memory, 12).unwrap();
    let moved = heap::resize(memory, address, 8).unwrap();
    let size = heap::block_size(memory, moved).unwrap();
    (moved, size)
}
