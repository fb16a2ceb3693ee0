//! Images of slots: whether bytes from anywhere spell a slot, and what it consists of.
ghost use Rattle.std.specs.Prelude.{◌≡◌, ◌↔◌, ◌+◌, ◌%◌, ◌<◌, ◌≤◌, length, true, IsOk, IfOk, MatchOption};
ghost use Rattle.rh_defs.specs.Pieces.{total};
ghost use Rattle.rh_defs.specs.HeapImage.{IsImage, heap_of};
ghost use Rattle.rh_defs.specs.Slot.{weight};
ghost use Rattle.rh_defs.specs.SlotImage.{flex_in, is_block, slot_of};
ghost use Rattle.rh_heap.specs.HeapChecks.{summary_of};
ghost use Rattle.rh_slot.specs.SlotChecks.{IsSlotImage, has_slot_length, heap_bytes, slot_summary, slot_fault_of};
ghost use Rattle.rh_slot.specs.SlotChecks.{slot_fault_in};
ghost use Rattle.rh_slot.specs.Inner.RowChecks.{IsRow, words_in_use};
ghost use Rattle.rh_defs.specs.declared.sizes.TheConstants.{ANCHORS, C_HEAP_PLACE, PAGE, WORD};
ghost use Rattle.rh_slot.specs.declared.image.TheConstants.{LONGEST_SLOT};

use rh_defs::HeapFault;
use rh_defs::sizes::{
    ANCHORS, C_HEAP_PLACE, C_HEAP_START, FLEX_HEADER, HEAP_END, PAGE, SLOT_START, WORD, flex_weight,
};
use rh_heap::Summary;
use rh_store::bytes::word_in;
use thiserror::Error;

/// The most bytes of a slot: application space has 28 MiB.
pub const LONGEST_SLOT: usize = 29_360_128;

/// What a slot in bytes consists of.
#[derive(Clone, Copy, Debug, PartialEq, Eq)]
pub struct SlotSummary {
    /// How many flex blocks there are.
    pub blocks: usize,
    /// Their bytes, added up, without headers.
    pub bytes: usize,
    /// What the C heap consists of.
    pub heap: Summary,
    /// The bytes above the last block.
    pub unused: usize,
}

/// Why bytes spell no slot.
#[derive(Clone, Copy, Debug, PartialEq, Eq, Error)]
pub enum SlotFault {
    /// There are no bytes, a page is cut, or there are more than 28 MiB.
    #[error("the length is not that of a slot")]
    BadLength,
    /// The bytes behind the anchor words, as many as their own word says, are no heap.
    #[error("the C heap is no heap: {0}")]
    BadHeap(HeapFault),
    /// A flex block goes past the end.
    #[error("a flex block goes past the end")]
    BadSize,
    /// An anchor word isn't 0, and leads to no flex block whose header leads back to it.
    #[error("an anchor word leads to no flex block")]
    BadAnchor,
    /// The last page holds nothing of the slot.
    #[error("the last page holds nothing of the slot")]
    SparePage,
}

/// Flex blocks that stand one after the other: the place above the last one, how many they are, and their bytes.
#[derive(Clone, Copy)]
struct BlockSums {
    top: usize,
    blocks: usize,
    bytes: usize,
}

/// Answers what a slot consists of, where the bytes spell one, and else the first fault: of the length (`BadLength`),
/// the C heap (`BadHeap`), the flex blocks (`BadSize`), the anchor words (`BadAnchor`), and the last page
/// (`SparePage`).
pub fn check(image: &[u8]) -> Result<SlotSummary, SlotFault>
    ensures ok { IsOk result ↔ IsSlotImage image.now (slot_of true image.now) }
    ensures sums { IfOk result (λ sums. sums ≡ slot_summary (length image.now) (slot_of true image.now)) }
    ensures fault { slot_fault_in result ≡ slot_fault_of image.now }
{
    if !has_length(image) {
        return Err(SlotFault::BadLength);
    }
    let heap = match rh_heap::check(heap_bytes(image)) {
        Ok(heap) => heap,
        Err(fault) => return Err(SlotFault::BadHeap(fault)),
    };
    check_blocks(image, heap)
}

/// Whether a slot can have so many bytes.
fn has_length(image: &[u8]) -> bool
    ensures { result ≡ has_slot_length image.now }
{
    let len = image.len();
    PAGE <= len && len <= LONGEST_SLOT && len % PAGE == 0
}

/// The C heap's bytes: as many as its descriptor says, or all behind the anchor words where these are fewer.
fn heap_bytes(image: &[u8]) -> &[u8]
    requires least { PAGE ≤ length image.now }
    requires most { length image.now ≤ LONGEST_SLOT }
    ensures { result.now ≡ heap_bytes image.now }
{
    let behind = &image[C_HEAP_PLACE..];
    let len = word_in(image, C_HEAP_PLACE + HEAP_END) as usize;
    if behind.len() <= len {
        behind
    } else {
        &behind[..len]
    }
}

/// Tells what `check` tells of bytes whose length and C heap are right.
fn check_blocks(image: &[u8], heap: Summary) -> Result<SlotSummary, SlotFault>
    requires length { has_slot_length image.now ≡ true }
    requires heap { IsImage (heap_bytes image.now) (heap_of (heap_bytes image.now) 0) }
    requires sums { heap ≡ summary_of (heap_of (heap_bytes image.now) 0) }
    ensures ok { IsOk result ↔ IsSlotImage image.now (slot_of true image.now) }
    ensures sums { IfOk result (λ sums. sums ≡ slot_summary (length image.now) (slot_of true image.now)) }
    ensures fault { slot_fault_in result ≡ slot_fault_of image.now }
{
    let from = C_HEAP_PLACE + word_in(image, C_HEAP_PLACE + HEAP_END) as usize;
    let Some(row) = row_from(image, from) else {
        return Err(SlotFault::BadSize);
    };
    // Each block's anchor word leads to it alone. Words that lead to no block are those beyond the count of blocks.
    if anchors_in_use(image) != row.blocks {
        return Err(SlotFault::BadAnchor);
    }
    let unused = image.len() - row.top;
    if PAGE <= unused {
        return Err(SlotFault::SparePage);
    }
    Ok(SlotSummary {
        blocks: row.blocks,
        bytes: row.bytes,
        heap,
        unused,
    })
}

/// Whether a flex block begins at a place: its header names an anchor word that leads back to it.
fn begins(image: &[u8], place: usize) -> bool
    requires least { PAGE ≤ length image.now }
    requires most { length image.now ≤ LONGEST_SLOT }
    requires words { length image.now % WORD ≡ 0 }
    requires within { place ≤ length image.now }
    requires whole { place % WORD ≡ 0 }
    ensures { result ≡ is_block image.now place }
{
    if image.len() == place {
        return false;
    }
    let anchor = word_in(image, place) as usize;
    if anchor < SLOT_START || C_HEAP_START <= anchor || anchor % WORD != 0 {
        return false;
    }
    word_in(image, anchor - SLOT_START) as usize == SLOT_START + place + FLEX_HEADER
}

/// Adds up the flex blocks that stand from a place on. `None` just where one of them goes past the end.
fn row_from(image: &[u8], from: usize) -> Option<BlockSums>
    requires least { PAGE ≤ length image.now }
    requires most { length image.now ≤ LONGEST_SLOT }
    requires words { length image.now % WORD ≡ 0 }
    requires within { from ≤ length image.now }
    requires whole { from % WORD ≡ 0 }
    requires above { C_HEAP_PLACE ≤ from }
    ensures { MatchOption result (length image.now < from + total weight (flex_in (length image.now) image.now from))
        (IsRow image.now from) }
{
    let mut row = BlockSums {
        top: from,
        blocks: 0,
        bytes: 0,
    };
    'walk: while begins(image, row.top) {
        let left = image.len() - row.top;
        if left < FLEX_HEADER {
            return None;
        }
        let size = word_in(image, row.top + WORD) as usize;
        let step = flex_weight(size);
        if left < step {
            return None;
        }
        row.top += step;
        row.blocks += 1;
        row.bytes += size;
    }
    Some(row)
}

/// How many anchor words aren't 0.
fn anchors_in_use(image: &[u8]) -> usize
    requires { PAGE ≤ length image.now }
    ensures { result ≡ words_in_use image.now ANCHORS }
{
    let mut used = 0;
    let mut anchor = 0;
    'walk: while anchor < ANCHORS {
        if word_in(image, WORD * anchor) != 0 {
            used += 1;
        }
        anchor += 1;
    }
    used
}
