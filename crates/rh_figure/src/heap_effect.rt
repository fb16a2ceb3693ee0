//! What became of a block of a heap.

use rh_defs::Handle;

/// What a command did with a block of a heap, which is the C heap of the task with the handle, or with handle 0 that of
/// the module area: it claimed the block at an address, released it, or resized it, by which it may have moved.
#[derive(Clone, Copy, Debug, PartialEq, Eq)]
pub enum HeapEffect {
    Nothing,
    Claimed { handle: Handle, address: u32 },
    Released { handle: Handle, address: u32 },
    Resized { handle: Handle, from: u32, to: u32 },
}
