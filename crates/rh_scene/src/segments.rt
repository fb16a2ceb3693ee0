//! The segments of heaps, by addresses.

ghost use Rattle.std.specs.Prelude.{◌≡◌, ◌-◌, ◌<◌, ◌^◌, find, IfNone, IfSome, IsSome, None};
ghost use Rattle.rh_defs.specs.Heap.{base};
ghost use Rattle.rh_figure.specs.HeapSegments.{found_size, ends_behind, heap_start_with};
ghost use Rattle.rh_figure.specs.HeapSegments.{heap_with as heap_with_of, item_end as item_end_of};
ghost use Rattle.rh_figure.specs.HeapSegments.{segment_over as segment_over_of, segment_seen as segment_seen_of};
ghost use Rattle.rh_figure.specs.HeapSegments.{top_size as top_size_of};
ghost use Rattle.rh_scene.specs.Seen.{heap_seen, heap_start_of};

use crate::sight::{HeapOf, Sight};
use crate::tasks::task_with;
use crate::walk::{place_behind, take_census};
use rh_defs::sizes::HEAP_FIRST;
use rh_defs::{Handle, SegmentItem};

/// The segment of a heap of the desk that has the byte at an address, by the handle of the heap's task, 0 for the
/// module area's; None on top.
pub fn segment_seen<S: Sight>(sight: &S, handle: Handle, address: u32) -> Option<SegmentItem>
    ensures value { result ≡ segment_seen_of handle address (S.desk sight.now) }
    ensures small { IfSome result (λ i. (address < item_end_of i) × (item_end_of i < 2 ^ 25)) }
{
    match heap_with(sight, handle) {
        Some(heap) => segment_over(sight, heap, address),
        None => None,
    }
}

/// How many bytes are free on top of a heap of the desk, by the handle of its task, 0 for the module area's.
pub fn top_size<S: Sight>(sight: &S, handle: Handle) -> u32
    ensures { result ≡ top_size_of handle (S.desk sight.now) }
{
    match heap_with(sight, handle) {
        Some(heap) => free_on_top(sight, heap),
        None => 0,
    }
}

/// The size of the block that a segment is, 0 for a hole.
pub fn block_size(item: Option<SegmentItem>) -> u32
    ensures { result ≡ found_size item }
{
    match item {
        Some(SegmentItem::Used { size, .. }) => size,
        _ => 0,
    }
}

/// The heap of the task with the handle, or with handle 0 that of the module area.
fn heap_with<S: Sight>(sight: &S, handle: Handle) -> Option<HeapOf>
    ensures some { IfSome result (λ heap. (heap_seen heap (S.desk sight.now) ≡ heap_with_of handle (S.desk sight.now))
        × IsSome (heap_seen heap (S.desk sight.now)) × (heap_start_of heap ≡ heap_start_with handle)) }
    ensures none { IfNone result (heap_with_of handle (S.desk sight.now) ≡ None) }
{
    if handle.0 == 0 {
        return Some(HeapOf::Module);
    }
    Some(HeapOf::Task(task_with(sight, handle)?))
}

/// How many bytes are free on top of a heap.
fn free_on_top<S: Sight>(sight: &S, heap: HeapOf) -> u32
    requires { IsSome (heap_seen heap (S.desk sight.now)) }
    ensures { IfSome (heap_seen heap (S.desk sight.now)) (λ h. result ≡ h.end - base h) }
{
    sight.recall_desk();
    let census = take_census(sight, heap, HEAP_FIRST as u32);
    sight.heap_end(heap) - census.end
}

/// The segment of a heap that has the byte at an address; None on top.
fn segment_over<S: Sight>(sight: &S, heap: HeapOf, address: u32) -> Option<SegmentItem>
    requires { IsSome (heap_seen heap (S.desk sight.now)) }
    ensures value { IfSome (heap_seen heap (S.desk sight.now))
        (λ h. result ≡ segment_over_of address (heap_start_of heap) h) }
    ensures small { IfSome result (λ i. (address < item_end_of i) × (item_end_of i < 2 ^ 25)) }
{
    sight.recall_desk();
    let mut place = HEAP_FIRST as u32;
    let mut items = sight.segments(heap, place);
    'places: while let Some(last) = items.last() {
        let found = first_behind(&items, address);
        if found.is_some() {
            return found;
        }
        place = place_behind(heap, last);
        items = sight.segments(heap, place);
    }
    None
}

/// The first of some segments that ends behind an address.
fn first_behind(items: &[SegmentItem], address: u32) -> Option<SegmentItem>
    ensures { result ≡ find (ends_behind address) items.now }
{
    for item in items {
        if ends_after(item, address) {
            return Some(*item);
        }
    }
    None
}

/// Whether a segment ends behind an address.
fn ends_after(item: &SegmentItem, address: u32) -> bool
    ensures { result ≡ ends_behind address item.now }
{
    let (at, size) = match item {
        SegmentItem::Used { address, size } | SegmentItem::Hole { address, size } => (
            *address, *size,
        ),
    };
    u64::from(at) + u64::from(size) > u64::from(address)
}
