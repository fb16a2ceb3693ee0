//! Memory that has run out.

use std::alloc::{AllocError, Global};

/// The bytes that are left over in one piece, about.
const PIECE: usize = 4_194_304;

/// The bytes of a part of the piece, which is kept in parts until all else is taken.
const PART: usize = 4096;

/// So many blocks are taken at most. A machine that lends more isn't short of memory then.
const MOST_BLOCKS: usize = 40_000;

/// All the memory that the machine lends a process, but for one piece. Nothing is written to it, so that other
/// processes have as much as before.
#[derive(Drop)]
pub(crate) struct Scarce {
    blocks: Vec<Vec<u8>>,
    piece: usize,
}

impl Scarce {
    pub(crate) fn new(alloc: Global) -> Result<Scarce, AllocError> {
        let mut blocks = Vec::with_capacity(alloc, MOST_BLOCKS)?;
        if has(alloc, 1 << 39) && !has(alloc, 1 << 41) {
            // the allocator of `rt try`, which lends up to 1 TiB and stops the process where that runs out
            return Ok(Scarce { blocks, piece: 0 });
        }
        let mut kept = Vec::with_capacity(alloc, PIECE / PART)?;
        for _part in 0..PIECE / PART {
            let part: Vec<u8> = Vec::with_capacity(alloc, PART)?;
            kept.push(part)?;
        }
        take_all(alloc, &mut blocks);
        drop(kept);
        let piece = largest(alloc);
        let whole: Result<Vec<u8>, AllocError> = Vec::with_capacity(alloc, piece);
        take_all(alloc, &mut blocks);
        drop(whole);
        Ok(Scarce { blocks, piece })
    }

    /// Whether all else is taken. It isn't where the machine lends more blocks, or under the checks of `rt try`.
    pub(crate) fn is_short(&self, alloc: Global) -> bool {
        let _taken = self.leave(alloc, 0);
        PIECE / 2 < self.piece && !has(alloc, 16 * PART)
    }

    /// Takes the piece but for so many bytes, as long as what is answered lives.
    pub(crate) fn leave(&self, alloc: Global, bytes: usize) -> Result<Vec<u8>, AllocError> {
        Vec::with_capacity(alloc, self.piece.saturating_sub(bytes))
    }
}

/// Takes blocks until there are no more, large ones first.
fn take_all(alloc: Global, blocks: &mut Vec<Vec<u8>>) {
    let mut size = 1usize << 46;
    for _size in 0..90u32 {
        take_sized(alloc, blocks, size);
        size -= size / 4;
    }
    take_small(alloc, blocks);
}

/// Takes blocks of each small size: the allocator keeps those that were freed by their sizes.
fn take_small(alloc: Global, blocks: &mut Vec<Vec<u8>>) {
    for size in (1..1100usize).rev() {
        take_sized(alloc, blocks, size);
    }
}

/// Takes blocks of one size until there are no more.
fn take_sized(alloc: Global, blocks: &mut Vec<Vec<u8>>, size: usize) {
    for _block in blocks.len()..MOST_BLOCKS {
        match Vec::with_capacity(alloc, size) {
            Ok(block) => {
                if blocks.push(block).is_err() {
                    return;
                }
            }
            Err(_) => return,
        }
    }
}

/// Whether a block of this size is lent.
fn has(alloc: Global, size: usize) -> bool {
    let block: Result<Vec<u8>, AllocError> = Vec::with_capacity(alloc, size);
    block.is_ok()
}

/// The bytes of the largest block that is lent, less than twice the piece.
fn largest(alloc: Global) -> usize {
    let mut bytes = 0;
    for bit in 0..23u32 {
        let more = bytes | (PIECE >> bit);
        if has(alloc, more) {
            bytes = more;
        }
    }
    bytes
}
