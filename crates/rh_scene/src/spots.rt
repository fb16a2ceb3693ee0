//! Where a command puts bytes.

ghost use Rattle.std.specs.Prelude.{◌≡◌, find};
ghost use Rattle.rh_figure.specs.Scene.{covers_address as covers_address_of, flex_block_in as flex_block_on};
ghost use Rattle.rh_figure.specs.Scene.{heap_block_in as heap_block_on, spot_by as spot_by_command};
ghost use Rattle.rh_figure.specs.Scene.{spot_of as spot_of_letter, spot_taken as spot_where_taken};
ghost use Rattle.rh_figure.specs.Scene.{where_some as where_there_are};
ghost use Rattle.rh_scene.specs.Steps.{block_seen};

use crate::marks::{HeapBlock, NO_BLOCK};
use crate::segments::segment_seen;
use crate::sight::Sight;
use crate::tasks::task_with;
use arrayvec::ArrayVec;
use rh_defs::{
    Action, Anchor, BlockItem, Body, Command, Handle, Letter, RawCommand, Ref, SegmentItem,
};

/// A task, and an address in its slot.
pub type SlotPlace = (Handle, u32);

/// Where a command of a task with code of its own puts bytes, else another spot.
pub fn spot_by(handle: Handle, command: &Command, other: Option<SlotPlace>) -> Option<SlotPlace>
    ensures { result ≡ spot_by_command handle command.now other }
{
    match command {
        Command::Raw(RawCommand::Write { address, .. }) => Some((handle, *address)),
        Command::Raw(
            RawCommand::Transfer {
                to,
                place,
                size,
                ..
            },
        ) => { where_some(*size, (*to, *place)) }
        _ => other,
    }
}

/// A spot, where a poll took a message.
pub fn spot_taken(taken: Option<(Ref, Action)>, spot: Option<SlotPlace>) -> Option<SlotPlace>
    ensures { result ≡ spot_where_taken taken spot }
{
    match taken {
        Some(_) => spot,
        None => None,
    }
}

/// Where the bytes of a letter go.
pub fn spot_of(letter: &Letter) -> Option<SlotPlace>
    ensures { result ≡ spot_of_letter letter.now }
{
    match &letter.body {
        Body::RamFetch { buffer, .. } => Some((letter.from, *buffer)),
        Body::RamTransmit { buffer, written } => where_some(*written, (letter.to, *buffer)),
        _ => None,
    }
}

/// A spot where some bytes are.
fn where_some(size: u32, spot: SlotPlace) -> Option<SlotPlace>
    ensures { result ≡ where_there_are size spot }
{
    if size > 0 { Some(spot) } else { None }
}

/// The block of a C heap that is at a spot, none where there is none.
pub fn heap_block_in<S: Sight>(sight: &S, spot: &Option<SlotPlace>) -> HeapBlock
    ensures { block_seen result ≡ heap_block_on (S.desk sight.now) spot.now }
{
    let Some((handle, address)) = *spot else {
        return NO_BLOCK;
    };
    match segment_seen(sight, handle, address) {
        Some(SegmentItem::Used { address, .. }) => HeapBlock { handle, address },
        _ => NO_BLOCK,
    }
}

/// The flex block that is at a spot, by its task and anchor.
pub fn flex_block_in<S: Sight>(sight: &S, spot: &Option<SlotPlace>) -> Option<(Handle, Anchor)>
    ensures { result ≡ flex_block_on (S.desk sight.now) spot.now }
{
    let (handle, address) = (*spot)?;
    let i = task_with(sight, handle)?;
    let mut blocks = ArrayVec::new();
    sight.blocks(i, &mut blocks);
    let block = block_over(&blocks, address)?;
    Some((handle, block.anchor))
}

/// The first of some flex blocks that has the byte at an address.
fn block_over(blocks: &[BlockItem], address: u32) -> Option<BlockItem>
    ensures { result ≡ find (covers_address_of address) blocks.now }
{
    for block in blocks {
        if covers_address(block, address) {
            return Some(*block);
        }
    }
    None
}

/// Whether a flex block has the byte at an address.
fn covers_address(block: &BlockItem, address: u32) -> bool
    ensures { result ≡ covers_address_of address block.now }
{
    block.address <= address
        && u64::from(address) < u64::from(block.address) + u64::from(block.size)
}
