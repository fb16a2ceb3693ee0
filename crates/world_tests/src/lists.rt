//! Lists that a world fills, which held another item before.

use arrayvec::ArrayVec;
use rh_defs::sizes::{ANCHORS, MOST_MESSAGES, SEGMENTS_AT_ONCE};
use rh_defs::{Anchor, BlockItem, Handle, MessageItem, Name, SegmentItem};
use rh_store::Store;
use rh_tasks::{NamedFiles, World};
use std::alloc::Global;

/// A list with the block that it holds before it is lent.
fn with_another() -> ArrayVec<BlockItem, ANCHORS> {
    let mut items = ArrayVec::new();
    items.push(BlockItem {
        anchor: Anchor(9),
        address: 0x9040,
        size: 1,
    });
    items
}

/// The answer of a task that is named, and the list after it.
pub(crate) fn blocks_of<S: Store, F: NamedFiles>(
    alloc: Global,
    world: &World<S, F>,
    name: &Name,
) -> Option<String> {
    let mut items = with_another();
    let answer = world.blocks_of(name, &mut items);
    format!(in alloc; "{answer:?} {items:?}").ok()
}

/// The answer of the task with a handle, and the list after it.
pub(crate) fn blocks_in<S: Store, F: NamedFiles>(
    alloc: Global,
    world: &World<S, F>,
    handle: Handle,
) -> Option<String> {
    let mut items = with_another();
    let answer = world.blocks_in(handle, &mut items);
    format!(in alloc; "{answer:?} {items:?}").ok()
}

/// The answer of a task that is named, and a list of segments after it, which held another before.
pub(crate) fn segments_of<S: Store, F: NamedFiles>(
    alloc: Global,
    world: &World<S, F>,
    name: &Name,
    place: u32,
) -> Option<String> {
    let mut items: ArrayVec<SegmentItem, SEGMENTS_AT_ONCE> = ArrayVec::new();
    items.push(SegmentItem::Hole {
        address: 9,
        size: 1,
    });
    let answer = world.segments_of(name, place, &mut items);
    format!(in alloc; "{answer:?} {items:?}").ok()
}

/// The messages that the world lists.
pub(crate) fn messages<S: Store, F: NamedFiles>(
    alloc: Global,
    world: &World<S, F>,
) -> Option<String> {
    let mut items: ArrayVec<MessageItem, MOST_MESSAGES> = ArrayVec::new();
    items.push(MessageItem::default());
    world.messages(&mut items);
    format!(in alloc; "{items:?}").ok()
}

/// How many messages the world lists, and of the first whom it is for, who sent it, its ref and its action.
pub(crate) fn first_message<S: Store, F: NamedFiles>(
    alloc: Global,
    world: &World<S, F>,
) -> Option<String> {
    let mut items: ArrayVec<MessageItem, MOST_MESSAGES> = ArrayVec::new();
    world.messages(&mut items);
    let count = items.len();
    let told = items
        .first()
        .map(|item| (item.to, item.from, item.my_ref, item.action));
    format!(in alloc; "{count} {told:?}").ok()
}
