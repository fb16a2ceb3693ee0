//! The list of a heap's holes.
ghost use Rattle.std.specs.Prelude.{◌≡◌, ℕ, ◌+◌, ◌<◌, ◌≤◌, length, None, MatchOption};
ghost use Rattle.rh_defs.specs.Memory.{Memory, IsOpen, bytes};
ghost use Rattle.rh_defs.specs.Heap.{hole_for, largest, free_bytes};
ghost use Rattle.rh_heap.specs.HeapSpans.{IsSpan, bytes_in, heap_in};
ghost use Rattle.rh_heap.specs.Holes.{FoundHole};
ghost use Rattle.rh_heap.specs.Segments.{LastHole, NoHole};
ghost use Rattle.rh_defs.specs.declared.sizes.TheConstants.{HEAP_FIRST, HEAP_FREE};

use crate::layout::{BLOCK, HOLE_SIZE};
use crate::span::Span;
use crate::span::words::{follow, read, read_hole};
use rh_defs::sizes::{HEAP_BASE, HEAP_END, HEAP_FREE};
use rh_store::Words;

/// A hole of a heap, and the place of the link that leads to it.
#[derive(Clone, Copy, Debug, PartialEq, Eq)]
pub struct Gap {
    pub from: usize,
    pub place: usize,
    pub size: usize,
}

/// The first hole with room for a segment of `size` bytes.
#[inline(always)]
pub fn find<S: Words>(store: &S, span: Span, size: usize) -> Option<Gap>
    requires { IsSpan (S.memory store.now) span }
    ensures { MatchOption result (hole_for size (heap_in (S.memory store.now) span).segments ≡ None)
        (λ gap. FoundHole span.at (heap_in (S.memory store.now) span) size gap) }
{
    let mut from = HEAP_FREE;
    let mut place = follow(store, span, from);
    'walk: loop {
        if place == 0 {
            return None;
        }
        let (next, room) = read_hole(store, span, place);
        if size <= room {
            return Some(Gap {
                from,
                place,
                size: room,
            });
        }
        from = place;
        place = next;
    }
}

/// The last hole that begins at a place or below it. The links alone are read, and that hole's size.
pub fn last_hole<S: Words>(store: &S, span: Span, target: usize) -> Option<Gap>
    requires span { IsSpan (S.memory store.now) span }
    requires above { HEAP_FIRST ≤ target }
    ensures { MatchOption result (NoHole (bytes_in (S.memory store.now) span) span.at HEAP_FREE target)
        (λ gap. LastHole (bytes_in (S.memory store.now) span) span.at (heap_in (S.memory store.now) span) target gap) }
{
    let mut before = HEAP_FREE;
    let mut last = HEAP_FREE;
    let mut next = follow(store, span, last);
    'walk: while next != 0 && next <= target {
        before = last;
        last = next;
        next = follow(store, span, last);
    }
    if last == HEAP_FREE {
        return None;
    }
    let size = read(store, span, last + HOLE_SIZE);
    Some(Gap {
        from: before,
        place: last,
        size,
    })
}

/// The bytes of the largest block that a claim would be given, and the bytes of all holes and the top.
/// (OS_Heap 1.)
pub fn describe<S: Words>(store: &S, span: Span) -> (usize, usize)
    requires { IsSpan (S.memory store.now) span }
    ensures largest { result.0 ≡ largest (heap_in (S.memory store.now) span) }
    ensures total { result.1 ≡ free_bytes (heap_in (S.memory store.now) span) }
{
    let top = read(store, span, HEAP_END) - read(store, span, HEAP_BASE);
    let mut largest = top;
    let mut total = top;
    let mut link = HEAP_FREE;
    'walk: loop {
        let place = follow(store, span, link);
        if place == 0 {
            return (largest.saturating_sub(BLOCK), total);
        }
        let size = read(store, span, place + HOLE_SIZE);
        largest = largest.max(size);
        total += size;
        link = place;
    }
}
