//! First fit by the numbers of tracts: what each tract of a heap has at most in one hole.
ghost use Rattle.std.specs.Prelude.{◌≡◌, ◌≢◌, ℕ, ◌+◌, ◌*◌, ◌/◌, ◌^◌, ◌<◌, ◌≤◌, length};
ghost use Rattle.std.specs.Prelude.{None, IfSome, MatchOption, MatchResult};
ghost use Rattle.rh_defs.specs.Bytes.{word};
ghost use Rattle.rh_defs.specs.Memory.{Memory, IsOpen, bytes};
ghost use Rattle.rh_defs.specs.Heap.{hole_for, first_place};
ghost use Rattle.rh_heap.specs.HeapSpans.{IsSpan, bytes_in, heap_in};
ghost use Rattle.rh_heap.specs.Holes.{FoundHole};
ghost use Rattle.rh_heap.specs.Inner.HolesPassed.{IsLinkBefore, Passed, with_number};
ghost use Rattle.rh_heap.specs.TractNumbers.{AreMarked, AreMore};
ghost use Rattle.rh_store.specs.Tracts.{AreBelow, ArePeaks};
ghost use Rattle.rh_peaks.specs.Peaks.{HasWidth, IsTree, peak};
ghost use Rattle.rh_store.specs.Starts.{IsIndex};
ghost use Rattle.rh_defs.specs.declared.sizes.TheConstants.{HEAP_FREE, WORD};
ghost use Rattle.rh_heap.specs.declared.layout.TheConstants.{HOLE_SIZE};
ghost use Rattle.rh_store.specs.declared.starts.TheConstants.{TRACT_BYTES};

use crate::layout::HOLE_SIZE;
use crate::span::Span;
use crate::span::holes::{Gap, find};
use crate::span::starts::link_below;
use crate::span::words::{follow, read, read_hole};
use rh_defs::sizes::{HEAP_FREE, HEAP_UNIT};
use rh_peaks::{first, put};
use rh_store::{BITS, HOLES, TRACT_BYTES, Words};

/// The first hole with room for `size` bytes, of those that follow a link and begin below a tract's end. Else how many
/// bytes the largest of them has. The holes up to the link have no room, and begin before the tract.
fn find_up_to<S: Words>(
    store: &S,
    span: Span,
    tract: usize,
    link: usize,
    size: usize,
) -> Result<Gap, usize>
    requires span { IsSpan (S.memory store.now) span }
    requires passed { Passed span.at (heap_in (S.memory store.now) span) size link }
    requires before { link ≢ HEAP_FREE → link < TRACT_BYTES * tract }
    requires some { 0 < size }
    requires small { tract < 2 ^ 40 }
    ensures { MatchResult result (FoundHole span.at (heap_in (S.memory store.now) span) size)
        (λ most. (most < size) × ((f : ℕ → ℕ) → AreBelow f first_place (heap_in (S.memory store.now) span).segments →
        AreBelow (with_number tract most f) first_place (heap_in (S.memory store.now) span).segments)) }
{
    let upper = TRACT_BYTES * (tract + 1);
    let mut most = 0;
    let mut from = link;
    let mut place = follow(store, span, from);
    'walk: while place != 0 && place < upper {
        let (next, room) = read_hole(store, span, place);
        if size <= room {
            return Ok(Gap {
                from,
                place,
                size: room,
            });
        }
        if most < room {
            most = room;
        }
        from = place;
        place = next;
    }
    Err(most)
}

/// Where the link of the last hole before a tract is: the descriptor's where none begins there.
fn link_before_tract(starts: &[u64], peaks: &[u64], tract: usize) -> usize
    requires small { tract < 2 ^ 40 }
    requires tree { IsTree peaks.now }
    requires marked { AreMarked starts.now peaks.now }
    ensures { IsLinkBefore starts.now tract result }
{
    let place = TRACT_BYTES * tract;
    if 2 * (place / HEAP_UNIT / BITS) + HOLES < starts.len() {
        link_below(starts, peaks, place)
    } else {
        HEAP_FREE
    }
}

/// The first hole with room for a segment of `size` bytes, tract by tract. A number that was too large becomes less.
pub fn find_by_tracts<S: Words>(
    store: &S,
    span: Span,
    starts: &[u64],
    peaks: &mut [u64],
    size: usize,
) -> Option<Gap>
    requires span { IsSpan (S.memory store.now) span }
    requires starts { IsIndex starts.now (heap_in (S.memory store.now) span) }
    requires peaks { ArePeaks peaks.old (heap_in (S.memory store.now) span) }
    requires row { length peaks.old ≢ 0 }
    requires some { 0 < size }
    ensures found { MatchOption result (hole_for size (heap_in (S.memory store.now) span).segments ≡ None)
        (FoundHole span.at (heap_in (S.memory store.now) span) size) }
    ensures peaks { ArePeaks peaks.new (heap_in (S.memory store.now) span) }
    ensures long { length peaks.new ≡ length peaks.old }
{
    let mut next = 0;
    'search: while next < peaks.len() / 2 {
        let Some(tract) = first(peaks, size as u64) else {
            return None;
        };
        let link = link_before_tract(starts, peaks, tract);
        match find_up_to(store, span, tract, link, size) {
            Ok(gap) => return Some(gap),
            Err(most) => put(peaks, tract, most as u64),
        }
        next = tract + 1;
    }
    None
}

/// The first hole of all, where it has room for `size` bytes. `None` tells nothing.
#[inline(always)]
fn find_first<S: Words>(store: &S, span: Span, size: usize) -> Option<Gap>
    requires { IsSpan (S.memory store.now) span }
    ensures { IfSome result (FoundHole span.at (heap_in (S.memory store.now) span) size) }
{
    let place = follow(store, span, HEAP_FREE);
    if place == 0 {
        return None;
    }
    let (_next, room) = read_hole(store, span, place);
    if size <= room {
        Some(Gap {
            from: HEAP_FREE,
            place,
            size: room,
        })
    } else {
        None
    }
}

/// The first hole with room for a segment of `size` bytes: by the numbers of tracts where there are some.
#[inline(always)]
pub fn find_in<S: Words>(
    store: &S,
    span: Span,
    starts: &[u64],
    peaks: &mut [u64],
    size: usize,
) -> Option<Gap>
    requires span { IsSpan (S.memory store.now) span }
    requires starts { IsIndex starts.now (heap_in (S.memory store.now) span) }
    requires peaks { ArePeaks peaks.old (heap_in (S.memory store.now) span) }
    requires some { 0 < size }
    ensures found { MatchOption result (hole_for size (heap_in (S.memory store.now) span).segments ≡ None)
        (FoundHole span.at (heap_in (S.memory store.now) span) size) }
    ensures peaks { ArePeaks peaks.new (heap_in (S.memory store.now) span) }
    ensures long { length peaks.new ≡ length peaks.old }
{
    if let Some(gap) = find_first(store, span, size) {
        return Some(gap);
    }
    if peaks.is_empty() {
        return find(store, span, size);
    }
    find_by_tracts(store, span, starts, peaks, size)
}

/// Sees to it that the number of the tract of a place is no less than so many bytes.
pub fn raise_peak(peaks: &mut [u64], place: usize, size: usize)
    requires { IsTree peaks.old }
    ensures tree { IsTree peaks.new }
    ensures more { AreMore peaks.old peaks.new }
    ensures here { place / TRACT_BYTES < length peaks.old / 2 → size ≤ peak peaks.new (place / TRACT_BYTES) }
    ensures long { length peaks.new ≡ length peaks.old }
{
    let tract = place / TRACT_BYTES;
    let half = peaks.len() / 2;
    if tract < half && peaks[half + tract] < size as u64 {
        put(peaks, tract, size as u64);
    }
}

/// Makes the numbers of a heap's tracts: what their largest holes have.
pub fn index_peaks<S: Words>(store: &S, span: Span, peaks: &mut [u64])
    requires span { IsSpan (S.memory store.now) span }
    requires width { HasWidth (length peaks.old) }
    requires few { length peaks.old < 2 ^ 40 }
    requires long { length peaks.old ≢ 0 → (heap_in (S.memory store.now) span).end
        ≤ TRACT_BYTES * (length peaks.old / 2) }
    ensures peaks { ArePeaks peaks.new (heap_in (S.memory store.now) span) }
    ensures long { length peaks.new ≡ length peaks.old }
{
    peaks.fill(0);
    let mut from = HEAP_FREE;
    let mut place = follow(store, span, from);
    'walk: while place != 0 {
        let (next, size) = read_hole(store, span, place);
        raise_peak(peaks, place, size);
        from = place;
        place = next;
    }
}

/// Notes the hole that begins at `low`, where bytes from there up to `upper` stood open before the segments that
/// follow: none where these are no bytes, or where `low` is the base.
pub fn note_peak<S: Words>(
    store: &S,
    span: Span,
    peaks: &mut [u64],
    low: usize,
    upper: usize,
    base: usize,
)
    requires opened { IsOpen (S.memory store.now) span.area.0 }
    requires within { low < base → span.at + (low + HOLE_SIZE) + WORD ≤ length (bytes_in (S.memory store.now) span) }
    requires tree { IsTree peaks.old }
    ensures tree { IsTree peaks.new }
    ensures more { AreMore peaks.old peaks.new }
    ensures here { low < upper → low < base → low / TRACT_BYTES < length peaks.old / 2 →
        word (bytes_in (S.memory store.now) span) (span.at + (low + HOLE_SIZE)) ≤ peak peaks.new (low / TRACT_BYTES) }
    ensures long { length peaks.new ≡ length peaks.old }
{
    if low < upper && low < base {
        let size = read(store, span, low + HOLE_SIZE);
        raise_peak(peaks, low, size);
    }
}
