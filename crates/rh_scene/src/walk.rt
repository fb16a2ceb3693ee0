//! Walks over the segments of a heap.

ghost use Rattle.std.specs.Prelude.{◌≡◌, ◌<◌, ◌≤◌, ◌+◌, ◌^◌, List, IsSome};
ghost use Rattle.rh_defs.specs.Heap.{Segment};
ghost use Rattle.rh_scene.specs.Seen.{heap_seen, heap_start_of};
ghost use Rattle.rh_scene.specs.Walks.{ComesToRest, census_of, item_end};

use crate::sight::{HeapOf, Sight};
use rh_defs::SegmentItem;
use rh_defs::sizes::{C_HEAP_START, MODULE_START};

/// How many segments there are, and where the last of them ends, in bytes from the heap's first one.
#[derive(Clone, Copy, Debug, PartialEq, Eq)]
pub struct Census {
    pub count: u32,
    pub end: u32,
}

/// The address of a heap's first byte.
pub fn heap_address(heap: HeapOf) -> u32
    ensures { result ≡ heap_start_of heap }
{
    match heap {
        HeapOf::Task(_) => C_HEAP_START as u32,
        HeapOf::Module => MODULE_START as u32,
    }
}

/// Where a segment ends, in bytes from the heap's first one.
pub fn place_behind(heap: HeapOf, item: &SegmentItem) -> u32
    requires low { heap_start_of heap ≤ item_end item.now }
    requires small { item_end item.now < 2 ^ 32 }
    ensures { result + heap_start_of heap ≡ item_end item.now }
{
    let end = match item {
        SegmentItem::Used { address, size } => *address + *size,
        SegmentItem::Hole { address, size } => *address + *size,
    };
    end - heap_address(heap)
}

/// Counts the segments of a heap from the one that begins at a place on.
pub fn take_census<S: Sight>(sight: &S, heap: HeapOf, place: u32) -> Census
    requires { (rest : List Segment) × ComesToRest (heap_seen heap (S.desk sight.now)) place rest }
    ensures { (rest : List Segment) → ComesToRest (heap_seen heap (S.desk sight.now)) place rest → result
        ≡ census_of place rest }
{
    sight.recall_desk();
    let mut end = place;
    let mut count = 0;
    let mut items = sight.segments(heap, end);
    'places: while let Some(last) = items.last() {
        count += items.len() as u32;
        end = place_behind(heap, last);
        items = sight.segments(heap, end);
    }
    Census { count, end }
}
