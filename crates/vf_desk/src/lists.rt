//! Lists that a question is answered with, put into slices: as many items as there is room for.
ghost use Rattle.std.specs.Prelude.{◌≡◌, ◌+◌, ◌≤◌, ◌<◌, ◌^◌, ◌∷◌, [], length, map};
ghost use Rattle.vf_desk.specs.Console.{filled_front};
ghost use Rattle.rh_defs.specs.Slot.{anchor_count};
ghost use Rattle.rh_defs.specs.Questions.{area_items, blocks as blocks_on, heap as heap_on, show as show_on};
ghost use Rattle.rh_defs.specs.Questions.{status as status_on};
ghost use Rattle.rh_defs.specs.declared.sizes.TheConstants.{C_HEAP_START};
ghost use Rattle.rh_script.specs.NamedSlots.{heap_of_named};
ghost use Rattle.rh_script.specs.Inner.SegmentsBehind.{item_end};
ghost use Rattle.rh_tasks.specs.WorldLists.{segment_items_at};
ghost use Rattle.vf_desk.specs.DeskItems.{as_area, as_block, blocks_listed, bytes_listed, incoming_in, listed_with};
ghost use Rattle.vf_desk.specs.DeskItems.{outgoing_in, record_of, as_segment, segments_listed};
ghost use Rattle.vf_desk.specs.Inner.DeskLists.{IsRun, filled_from};

use crate::console::PagedWorld;
use crate::items::{Listed, VfArea, VfBlock, VfRecord, VfSegment, listed_area};
use arrayvec::ArrayVec;
use rh_defs::sizes::{C_HEAP_START, HEAP_FIRST};
use rh_defs::{Anchor, Name, SegmentItem};

/// Puts items into a slice from an index on, as many as there is room for.
fn fill<T, B: Listed<T>>(items: &[T], to: &mut [B], at: usize)
    ensures { to.new ≡ filled_from at (map B.shown items.now) to.old }
{
    let room = to.len().saturating_sub(at);
    let count = items.len().min(room);
    for i in 0..count {
        to[at + i] = B::of(&items[i]);
    }
}

/// Puts the bytes of the task's block at the anchor into a slice.
pub fn list_bytes(world: &PagedWorld, name: &Name, anchor: Anchor, to: &mut [u8])
    requires { anchor < anchor_count }
    ensures { to.new ≡ filled_front (bytes_listed (listed_with (show_on world.now.desk name.now anchor))) to.old }
{
    let Ok(size) = world.show(name, anchor, 0, &mut []) else {
        return;
    };
    let count = to.len().min(size as usize);
    let _read = world.show(name, anchor, 0, &mut to[..count]);
}

/// Puts the task's flex blocks into a slice, and answers how many there are.
pub fn list_blocks(world: &PagedWorld, name: &Name, to: &mut [VfBlock]) -> usize
    ensures list { to.new ≡ filled_front (map as_block (blocks_listed
        (listed_with (blocks_on world.now.desk name.now)))) to.old }
    ensures count { result ≡ length (blocks_listed (listed_with (blocks_on world.now.desk name.now))) }
{
    let mut items = ArrayVec::new();
    match world.blocks_of(name, &mut items) {
        Ok(()) => {
            fill(&items, to, 0);
            items.len()
        }
        Err(_) => 0,
    }
}

/// Segments that were put into a slice: how many, and the last one.
#[derive(Clone, Copy)]
pub struct SegmentRun {
    pub count: usize,
    pub last: SegmentItem,
}

/// Puts segments into a slice from an index on, as many as there is room for; None where there are none.
fn put_run(items: &[SegmentItem], to: &mut [VfSegment], at: usize) -> Option<SegmentRun>
    ensures list { to.new ≡ filled_from at (map as_segment items.now) to.old }
    ensures run { IsRun items.now result }
{
    fill(items, to, at);
    let last = items.last()?;
    Some(SegmentRun {
        count: items.len(),
        last: *last,
    })
}

/// Puts up to 64 segments of the task's C heap, from the one that begins at a place on, into a slice from an index on;
/// None where there are none, or no task has the name. The list of them is looked at where it lies, and is not copied.
fn list_run(
    world: &PagedWorld,
    name: &Name,
    place: u32,
    to: &mut [VfSegment],
    at: usize,
) -> Option<SegmentRun>
    ensures list { to.new ≡
        filled_from at (map as_segment (segment_items_at place (heap_of_named name.now world.now.desk))) to.old }
    ensures run { IsRun (segment_items_at place (heap_of_named name.now world.now.desk)) result }
{
    let mut items = ArrayVec::new();
    match world.segments_of(name, place, &mut items) {
        Ok(()) => put_run(&items, to, at),
        Err(_) => None,
    }
}

/// Where a segment ends, in bytes from the heap's first one.
fn place_behind(item: &SegmentItem) -> u32
    requires low { C_HEAP_START ≤ item_end item.now }
    requires small { item_end item.now < 2 ^ 32 }
    ensures { result + C_HEAP_START ≡ item_end item.now }
{
    let end = match item {
        SegmentItem::Used { address, size } => *address + *size,
        SegmentItem::Hole { address, size } => *address + *size,
    };
    end - C_HEAP_START as u32
}

/// Puts the segments of the task's C heap into a slice, and answers how many there are.
pub fn list_segments(world: &PagedWorld, name: &Name, to: &mut [VfSegment]) -> usize
    ensures list { to.new ≡
        filled_front (map as_segment (segments_listed (listed_with (heap_on world.now.desk name.now)))) to.old }
    ensures count { result ≡ length (segments_listed (listed_with (heap_on world.now.desk name.now))) }
{
    world.recall_spelling();
    let mut place = HEAP_FIRST as u32;
    let mut count = 0;
    'places: while let Some(found) = list_run(world, name, place, to, count) {
        place = place_behind(&found.last);
        count += found.count;
    }
    count
}

/// How many records there are each way.
#[derive(Clone, Copy)]
pub struct RecordCounts {
    pub outgoing: usize,
    pub incoming: usize,
}

/// The counts of no record.
pub const NO_RECORDS: RecordCounts = RecordCounts {
    outgoing: 0,
    incoming: 0,
};

/// Puts the records of the task's transfers into two slices, and answers how many there are each way.
pub fn list_records(
    world: &PagedWorld,
    name: &Name,
    outgoing: &mut [VfRecord],
    incoming: &mut [VfRecord],
) -> RecordCounts
    ensures out { outgoing.new ≡
        filled_front (map record_of (outgoing_in (listed_with (status_on world.now.desk name.now)))) outgoing.old }
    ensures taken { incoming.new ≡
        filled_front (map record_of (incoming_in (listed_with (status_on world.now.desk name.now)))) incoming.old }
    ensures outs { result.outgoing ≡ length (outgoing_in (listed_with (status_on world.now.desk name.now))) }
    ensures ins { result.incoming ≡ length (incoming_in (listed_with (status_on world.now.desk name.now))) }
{
    match world.status(name) {
        Ok((_, sending, taking)) => {
            fill(sending, outgoing, 0);
            fill(taking, incoming, 0);
            RecordCounts {
                outgoing: sending.len(),
                incoming: taking.len(),
            }
        }
        Err(_) => NO_RECORDS,
    }
}

/// Puts an area into a slice at an index, if there is room.
fn put_at(to: &mut [VfArea], i: usize, item: VfArea)
    ensures { to.new ≡ filled_from i (item ∷ []) to.old }
{
    if i < to.len() {
        to[i] = item;
    }
}

/// Puts areas 0 to 5, the made ones and the slots into a slice, and answers how many there are.
pub fn list_areas(world: &PagedWorld, to: &mut [VfArea]) -> usize
    ensures list { to.new ≡ filled_front (map as_area (area_items world.now.desk)) to.old }
    ensures count { result ≡ length (area_items world.now.desk) }
{
    let mut i = 0;
    'items: while let Some(entry) = world.area_entry(i) {
        put_at(to, i, listed_area(entry));
        i += 1;
    }
    i
}
