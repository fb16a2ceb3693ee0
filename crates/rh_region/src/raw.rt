//! The unsafe part: a block of bytes of the heap, in five functions. All else in this crate is safe code over them.
//!
//! They trust the heap, and nothing else: a block that it hands over is nobody else's memory, as long as was asked for,
//! until it is given back with the length that was asked for. The prover is given that as the contract of `Allocator`.
//!
//! What they do with it is proved, by hand, in `proofs/raw/`: each pointer that they read, write or make leads into the
//! block, each byte is zero before anyone can see it, a loan ends before the next one begins, and only a whole block
//! goes back, to the handle that it came from. One thing no clause can say is that `free` does give it back, since a
//! proof may forget memory: its last line does it, and the compiler refuses code that forgets a `Block`.
ghost use Rattle.std.specs.Prelude.{◌≡◌, ℕ, ◌+◌, ◌<◌, ◌≤◌, ◌^◌, List, length, take, drop, IfOk};
ghost use Rattle.std.specs.Borrow.{sem};
ghost use Rattle.std.specs.declared.alloc.Global.{Global};
ghost use Rattle.rh_region.specs.Ownership.{block_owns, block_lent};
ghost use Rattle.rh_region.specs.Inner.OwnedRoom.{room_of, zeros_at};
ghost use Rattle.rh_region.specs.Zeros.{zeros};

use std::alloc::{AllocError, Allocator, Global};
use std::marker::Model;
use std::slice;

/// A block of the heap, and the right to free it. It is not `Drop`, so no code can forget it: `free` alone takes it.
pub(crate) struct Block {
    start: *mut u8,
    len: usize,
    ghost bytes: { List ℕ },
    ghost alloc: { Global },
}

impl Model for Block {
    ghost also_owns = { λ b. block_owns b.start b.len b.alloc b.bytes };

    ghost also_shares = { λ b _ κ. block_lent b.start b.len b.bytes κ };
}

/// Writes a zero to each of the `len` bytes from `start` on, whatever they hold.
unsafe fn fill_zero(start: *mut u8, len: usize)
    requires* { sem 𝓛 (room_of start len) }
    ensures* { sem 𝓛 (zeros_at start len) }
{
    let mut i = 0;
    while i < len {
        unsafe { *start.add(i) = 0 };
        i += 1;
    }
}

/// A block of `len` zero bytes.
pub(crate) fn allocate(alloc: &Global, len: usize) -> Result<Block, AllocError>
    requires { len < 2 ^ 63 }
    ensures { IfOk result (λ b. (b.len ≡ len) × (b.bytes ≡ zeros len) × (length b.bytes ≡ len) ×
        (b.alloc ≡ alloc.now)) }
{
    match alloc.allocate(len, 1) {
        Ok(start) => {
            unsafe { fill_zero(start, len) };
            Ok(Block { start, len })
        }
        Err(error) => Err(error),
    }
}

/// Gives the block back to the heap that it came from.
pub(crate) fn free(alloc: &Global, block: Block)
    requires { block.alloc ≡ alloc.now }
{
    let Block { start, len } = block;
    unsafe { alloc.deallocate(start, len, 1) };
}

impl Block {
    ghost use Rattle.rh_region.specs.Inner.BlockLends.{block_lends_run};

    /// All its bytes.
    pub(crate) fn as_slice(&self) -> &[u8]
        ensures bytes { result.now ≡ self.now.bytes }
        ensures len { length result.now ≡ self.now.len }
    {
        unsafe { slice::from_raw_parts(self.start, self.len) }
    }

    /// The `n` bytes from the index `at` on, to be written.
    pub(crate) fn run_mut(&mut self, at: usize, n: usize) -> &mut [u8]
        requires { at + n ≤ length self.old.bytes }
        ensures* writes_back { sem 𝓛 (block_lends_run self.entry at n result) }
        ensures value { result.now ≡ take n (drop at self.old.bytes) }
    {
        unsafe { slice::from_raw_parts_mut(self.start.add(at), n) }
    }
}
