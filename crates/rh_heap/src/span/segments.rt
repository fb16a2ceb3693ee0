//! The segments of a heap in their order, and the blocks in the used ones.
ghost use Rattle.std.specs.Prelude.{◌≡◌, ℕ, ◌+◌, ◌<◌, ◌≤◌, length, None, MatchOption, is_some, ok_or};
ghost use Rattle.std.specs.Option.{option_map};
ghost use Rattle.rh_defs.specs.Memory.{Memory, IsOpen, bytes};
ghost use Rattle.rh_defs.specs.Heap.{segment_at, block_at, block_around, block_size, base};
ghost use Rattle.rh_heap.specs.HeapSpans.{IsSpan, bytes_in, heap_in};
ghost use Rattle.rh_heap.specs.Segments.{FoundSegment, FoundBlock, NoHole, Reached, piece};
ghost use Rattle.rh_heap.specs.Inner.SegmentsAround.{Around};
ghost use Rattle.rh_defs.specs.declared.sizes.TheConstants.{HEAP_FIRST};

use crate::layout::{BLOCK, Segment};
use crate::span::Span;
use crate::span::holes::last_hole;
use crate::span::words::read;
use rh_defs::HeapRefusal;
use rh_defs::sizes::{HEAP_BASE, HEAP_FIRST, HEAP_FREE, WORD, is_inside};
use rh_store::Words;
use rh_store::bytes::word_in;

/// A segment of a heap, its size in bytes, and whether it is used. The link before it is at `from`. A hole made
/// of it would begin at `low`, where the hole before it does if there is one, and the link before that is at `link`.
#[derive(Clone, Copy, Debug, PartialEq, Eq)]
pub struct Spot {
    pub place: usize,
    pub size: usize,
    pub used: bool,
    pub from: usize,
    pub low: usize,
    pub link: usize,
}

/// A place between two segments to which a walk has come, and the links and the hole before it, as of a [`Spot`].
#[derive(Clone, Copy, Debug)]
struct Mark {
    place: usize,
    from: usize,
    low: usize,
    link: usize,
}

/// Passes used segments from a mark on, up to the one round a place: as far as the words of their sizes lie in the
/// bytes that lie side by side from there on. No hole from the mark on begins below that place or at it.
fn pass_in_run<S: Words>(store: &S, span: Span, mark: Mark, target: usize) -> Mark
    requires span { IsSpan (S.memory store.now) span }
    requires reached { Reached span.at (heap_in (S.memory store.now) span) mark.link mark.low mark.from mark.place }
    requires no_hole { NoHole (bytes_in (S.memory store.now) span) span.at mark.from target }
    requires above { mark.place ≤ target }
    requires below { target < base (heap_in (S.memory store.now) span) }
    ensures reached { Reached span.at (heap_in
        (S.memory store.now) span) result.link result.low result.from result.place }
    ensures from { result.from ≡ mark.from }
    ensures on { mark.place ≤ result.place }
    ensures above { result.place ≤ target }
{
    let run = store.run(span.area, span.at + mark.place);
    let most = target - mark.place;
    let mut passed = 0;
    'walk: while passed + WORD <= run.len() {
        let next = passed + word_in(run, passed) as usize;
        if most < next {
            break;
        }
        passed = next;
    }
    if passed == 0 {
        return mark;
    }
    let place = mark.place + passed;
    Mark {
        place,
        from: mark.from,
        low: place,
        link: mark.from,
    }
}

/// The segment round a place, from a mark on. No hole from there on begins below that place or at it, so only used
/// segments are passed.
fn used_around<S: Words>(store: &S, span: Span, start: Mark, target: usize) -> Spot
    requires span { IsSpan (S.memory store.now) span }
    requires reached { Reached span.at (heap_in (S.memory store.now) span) start.link start.low start.from start.place }
    requires no_hole { NoHole (bytes_in (S.memory store.now) span) span.at start.from target }
    requires above { start.place ≤ target }
    requires below { target < base (heap_in (S.memory store.now) span) }
    ensures { Around span.at (heap_in (S.memory store.now) span) target result }
{
    let mut mark = start;
    'walk: loop {
        let size = read(store, span, mark.place);
        let end = mark.place + size;
        if target < end {
            return Spot {
                place: mark.place,
                size,
                used: true,
                from: mark.from,
                low: mark.low,
                link: mark.link,
            };
        }
        let behind = Mark {
            place: end,
            from: mark.from,
            low: end,
            link: mark.from,
        };
        mark = pass_in_run(store, span, behind, target);
    }
}

/// The segment round a place below the base. The holes below it are passed by their links.
fn segment_around<S: Words>(store: &S, span: Span, target: usize) -> Spot
    requires span { IsSpan (S.memory store.now) span }
    requires above { HEAP_FIRST ≤ target }
    requires below { target < base (heap_in (S.memory store.now) span) }
    ensures { Around span.at (heap_in (S.memory store.now) span) target result }
{
    let Some(gap) = last_hole(store, span, target) else {
        let start = Mark {
            place: HEAP_FIRST,
            from: HEAP_FREE,
            low: HEAP_FIRST,
            link: HEAP_FREE,
        };
        return used_around(store, span, start, target);
    };
    let end = gap.place + gap.size;
    if target < end {
        return Spot {
            place: gap.place,
            size: gap.size,
            used: false,
            from: gap.from,
            low: gap.place,
            link: gap.from,
        };
    }
    let behind = Mark {
        place: end,
        from: gap.place,
        low: gap.place,
        link: gap.from,
    };
    used_around(store, span, behind, target)
}

/// The segment that begins at a place.
pub fn find_segment<S: Words>(store: &S, span: Span, target: usize) -> Option<Spot>
    requires { IsSpan (S.memory store.now) span }
    ensures { MatchOption result (segment_at target (heap_in (S.memory store.now) span) ≡ None)
        (λ spot. FoundSegment span.at (heap_in (S.memory store.now) span) target spot) }
{
    if target < HEAP_FIRST || read(store, span, HEAP_BASE) <= target {
        return None;
    }
    let spot = segment_around(store, span, target);
    if spot.place == target {
        Some(spot)
    } else {
        None
    }
}

/// The segment of the block at an address.
#[inline(always)]
pub fn locate<S: Words>(store: &S, span: Span, address: usize) -> Option<Spot>
    requires { IsSpan (S.memory store.now) span }
    ensures { MatchOption result (block_at address (heap_in (S.memory store.now) span) ≡ None)
        (λ spot. FoundBlock span.at (heap_in (S.memory store.now) span) address spot) }
{
    if address < BLOCK {
        return None;
    }
    match find_segment(store, span, address - BLOCK) {
        Some(spot) => { if spot.used { Some(spot) } else { None } }
        None => None,
    }
}

/// The bytes of the block at an address. Refused (`NotABlock`) exactly where no block begins there. (OS_Heap 6.)
pub fn block_size<S: Words>(store: &S, span: Span, address: usize) -> Result<usize, HeapRefusal>
    requires { IsSpan (S.memory store.now) span }
    ensures { result ≡ ok_or (block_size address (heap_in (S.memory store.now) span)) HeapRefusal.NotABlock }
{
    match locate(store, span, address) {
        Some(spot) => Ok(spot.size - BLOCK),
        None => Err(HeapRefusal::NotABlock),
    }
}

/// The segment that begins at a place.
pub fn segment<S: Words>(store: &S, span: Span, place: usize) -> Option<Segment>
    requires { IsSpan (S.memory store.now) span }
    ensures { result ≡ option_map piece (segment_at place (heap_in (S.memory store.now) span)) }
{
    match find_segment(store, span, place) {
        Some(spot) => Some(Segment {
            place: spot.place,
            size: spot.size,
            used: spot.used,
        }),
        None => None,
    }
}

/// Whether the `n` bytes at an address lie whole in one used block, also where `n` is 0. Any address and any `n` may
/// be asked for.
pub fn holds<S: Words>(store: &S, span: Span, address: usize, n: usize) -> bool
    requires { IsSpan (S.memory store.now) span }
    ensures { result ≡ is_some (block_around address n (heap_in (S.memory store.now) span)) }
{
    if address < HEAP_FIRST + BLOCK || read(store, span, HEAP_BASE) + BLOCK <= address {
        return false;
    }
    let spot = segment_around(store, span, address - BLOCK);
    spot.used && is_inside(address, n, spot.place + BLOCK, spot.size - BLOCK)
}
