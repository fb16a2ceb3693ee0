//! The segments of a heap one after the other, many at once.
ghost use Rattle.std.specs.Prelude.{◌≡◌, None, MatchOption};
ghost use Rattle.rh_defs.specs.Heap.{segment_at};
ghost use Rattle.rh_heap.specs.HeapSpans.{IsSpan, heap_in};
ghost use Rattle.rh_heap.specs.Listed.{segments_from};
ghost use Rattle.rh_heap.specs.Segments.{FoundSegment};

use crate::layout::{HOLE_SIZE, Segment};
use crate::span::Span;
use crate::span::indexed::segment_in;
use crate::span::segments::{Spot, find_segment};
use crate::span::words::{follow, read};
use arrayvec::ArrayVec;
use rh_defs::sizes::{HEAP_BASE, SEGMENTS_AT_ONCE};
use rh_store::Words;

/// The segment that begins at a place, by the map that the store keeps of the heap, and else by a walk.
fn first_segment<S: Words>(store: &S, span: Span, place: usize) -> Option<Spot>
    requires { IsSpan (S.memory store.now) span }
    ensures { MatchOption result (segment_at place (heap_in (S.memory store.now) span) ≡ None)
        (λ spot. FoundSegment span.at (heap_in (S.memory store.now) span) place spot) }
{
    if let Some(starts) = store.starts(span.area, span.at) {
        if let Some(spot) = segment_in(store, span, starts, place) {
            return Some(spot);
        }
    }
    find_segment(store, span, place)
}

/// Puts as many segments as are told at a time into a list, in place of what it held: in order of place, from the one
/// that begins at `place` on; none where none begins there.
pub fn segments_from<S: Words>(
    store: &S,
    span: Span,
    place: usize,
    segments: &mut ArrayVec<Segment, SEGMENTS_AT_ONCE>,
)
    requires { IsSpan (S.memory store.now) span }
    ensures { segments.new.items ≡ segments_from place (heap_in (S.memory store.now) span) }
{
    segments.clear();
    let Some(spot) = first_segment(store, span, place) else {
        return;
    };
    let base = read(store, span, HEAP_BASE);
    let mut from = spot.from;
    let mut place = spot.place;
    'walk: while place < base && !segments.is_full() {
        let segment = if follow(store, span, from) == place {
            from = place;
            Segment {
                place,
                size: read(store, span, place + HOLE_SIZE),
                used: false,
            }
        } else {
            Segment {
                place,
                size: read(store, span, place),
                used: true,
            }
        };
        segments.push(segment);
        place += segment.size;
    }
}
