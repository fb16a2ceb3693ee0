//! Calls on a heap beside which a map of its segments' beginnings is kept: a block is found by one bit, and the hole
//! before it by the bits below. Their answers and what they leave in the heap's bytes are those of the calls that walk.
ghost use Rattle.std.specs.Prelude.{◌≡◌, ◌≢◌, ℕ, ◌+◌, ◌*◌, ◌/◌, ◌%◌, ◌^◌, ◌<◌, ◌≤◌, length, true, false, None};
ghost use Rattle.std.specs.Prelude.{IfSome, MatchOption, MatchResult, OnErr, is_some, ok_or};
ghost use Rattle.rh_defs.specs.Bytes.{word};
ghost use Rattle.rh_defs.specs.Memory.{Memory, IsOpen, bytes};
ghost use Rattle.rh_defs.specs.Chain.{no_answer};
ghost use Rattle.rh_defs.specs.Heap.{hole_for, shortage_in, block_at, block_around, block_size, base, claim_block};
ghost use Rattle.rh_defs.specs.Heap.{released_at, resize_block, need_at};
ghost use Rattle.rh_heap.specs.HeapSpans.{IsSpan, OnlySpan, bytes_in, heap_in};
ghost use Rattle.rh_heap.specs.HeapCalls.{LeavesHeap};
ghost use Rattle.rh_heap.specs.Claims.{Took};
ghost use Rattle.rh_heap.specs.Segments.{FoundBlock, FoundSegment};
ghost use Rattle.rh_store.specs.Starts.{bit, IsIndex};
ghost use Rattle.rh_heap.specs.HeapStarts.{LinkBelow};
ghost use Rattle.rh_heap.specs.Inner.StartNotes.{Noted};
ghost use Rattle.rh_store.specs.Tracts.{ArePeaks};
ghost use Rattle.rh_heap.specs.HeapWays.{WithBlock};
ghost use Rattle.rh_heap.specs.Inner.WayEnds.{Changed, NotChanged, Moved};
ghost use Rattle.rh_defs.specs.declared.sizes.TheConstants.{HEAP_FREE, HEAP_UNIT, WORD};
ghost use Rattle.rh_heap.specs.declared.layout.TheConstants.{BLOCK, HOLE_SIZE};
ghost use Rattle.rh_store.specs.declared.starts.TheConstants.{BITS, HOLES, LINE_BYTES, USED};

use crate::layout::{BLOCK, HOLE_SIZE};
use crate::span::Span;
use crate::span::claim::{append, fill};
use crate::span::peaks::{find_in, note_peak};
use crate::span::release::free_segment;
use crate::span::resize::{ResizeWay, raise, short_by, shrink, way_to, widen};
use crate::span::segments::Spot;
use crate::span::starts::{clear, is_set, last_up_to, link_below, put, set};
use crate::span::words::{follow, move_bytes, read};
use rh_defs::HeapRefusal;
use rh_defs::sizes::{
    HEAP_BASE, HEAP_END, HEAP_FIRST, HEAP_FREE, HEAP_UNIT, is_inside, moved, segment_size,
};
use rh_store::{HOLES, USED, Words, WordsMut};

/// Makes a map of where a heap's segments begin. The map has a line of two words for each 512 bytes of the heap, up to
/// its end, and may have more.
pub fn index<S: Words>(store: &S, span: Span, starts: &mut [u64])
    requires span { IsSpan (S.memory store.now) span }
    requires long { (heap_in (S.memory store.now) span).end ≤ LINE_BYTES * (length starts.old / 2) }
    ensures starts { IsIndex starts.new (heap_in (S.memory store.now) span) }
    ensures long { length starts.new ≡ length starts.old }
{
    starts.fill(0);
    let base = read(store, span, HEAP_BASE);
    let mut from = HEAP_FREE;
    let mut place = HEAP_FIRST;
    'walk: while place < base {
        if follow(store, span, from) == place {
            set(starts, HOLES, place / HEAP_UNIT);
            from = place;
            place += read(store, span, place + HOLE_SIZE);
        } else {
            set(starts, USED, place / HEAP_UNIT);
            place += read(store, span, place);
        }
    }
}

/// Whether the hole to which the last link below a place leads ends at that place.
fn ends_at<S: Words>(store: &S, span: Span, from: usize, place: usize) -> bool
    requires opened { IsOpen (S.memory store.now) span.area.0 }
    requires within { span.at + (from + HOLE_SIZE) + WORD ≤ length (bytes_in (S.memory store.now) span) }
    requires below { from ≢ HEAP_FREE → from + word (bytes_in (S.memory store.now) span) (span.at + (from + HOLE_SIZE))
        ≤ place }
    ensures touches { result ≡ true → (from ≢ HEAP_FREE) × (from + word (bytes_in (S.memory store.now) span)
        (span.at + (from + HOLE_SIZE)) ≡ place) }
    ensures apart { result ≡ false → from ≢ HEAP_FREE → from
        + word (bytes_in (S.memory store.now) span) (span.at + (from + HOLE_SIZE)) ≢ place }
{
    from != HEAP_FREE && from + read(store, span, from + HOLE_SIZE) == place
}

/// Where the last link below a segment's place is: the descriptor's where the first hole isn't below, else by the map.
fn link_before<S: Words>(
    store: &S,
    span: Span,
    starts: &[u64],
    peaks: &[u64],
    place: usize,
) -> usize
    requires span { IsSpan (S.memory store.now) span }
    requires starts { IsIndex starts.now (heap_in (S.memory store.now) span) }
    requires peaks { ArePeaks peaks.now (heap_in (S.memory store.now) span) }
    requires multiple { place % HEAP_UNIT ≡ 0 }
    requires within { 2 * (place / HEAP_UNIT / BITS) + HOLES < length starts.now }
    ensures { LinkBelow starts.now place result }
{
    let first = follow(store, span, HEAP_FREE);
    if first == 0 || place <= first {
        return HEAP_FREE;
    }
    link_below(starts, peaks, place)
}

/// The segment of the block whose segment begins at a place where the map has a bit set for it.
fn spot_at<S: Words>(store: &S, span: Span, starts: &[u64], peaks: &[u64], place: usize) -> Spot
    requires span { IsSpan (S.memory store.now) span }
    requires starts { IsIndex starts.now (heap_in (S.memory store.now) span) }
    requires peaks { ArePeaks peaks.now (heap_in (S.memory store.now) span) }
    requires multiple { place % HEAP_UNIT ≡ 0 }
    requires marked { bit USED starts.now (place / HEAP_UNIT) ≡ 1 }
    ensures { FoundBlock span.at (heap_in (S.memory store.now) span) (place + BLOCK) result }
{
    let size = read(store, span, place);
    let from = link_before(store, span, starts, peaks, place);
    if ends_at(store, span, from, place) {
        let link = link_before(store, span, starts, peaks, from);
        Spot {
            place,
            size,
            used: true,
            from,
            low: from,
            link,
        }
    } else {
        Spot {
            place,
            size,
            used: true,
            from,
            low: place,
            link: from,
        }
    }
}

/// The segment of the block at an address.
pub fn locate_in<S: Words>(
    store: &S,
    span: Span,
    starts: &[u64],
    peaks: &[u64],
    address: usize,
) -> Option<Spot>
    requires span { IsSpan (S.memory store.now) span }
    requires starts { IsIndex starts.now (heap_in (S.memory store.now) span) }
    requires peaks { ArePeaks peaks.now (heap_in (S.memory store.now) span) }
    ensures { MatchOption result (block_at address (heap_in (S.memory store.now) span) ≡ None)
        (λ spot. FoundBlock span.at (heap_in (S.memory store.now) span) address spot) }
{
    if address < BLOCK {
        return None;
    }
    let place = address - BLOCK;
    if place % HEAP_UNIT != 0 {
        return None;
    }
    if is_set(starts, USED, place / HEAP_UNIT) {
        Some(spot_at(store, span, starts, peaks, place))
    } else {
        None
    }
}

/// The segment that begins at a place, where the last used one up to there begins or ends at it. `None` tells nothing.
pub fn segment_in<S: Words>(store: &S, span: Span, starts: &[u64], target: usize) -> Option<Spot>
    requires span { IsSpan (S.memory store.now) span }
    requires starts { IsIndex starts.now (heap_in (S.memory store.now) span) }
    ensures { IfSome result (λ spot. FoundSegment span.at (heap_in (S.memory store.now) span) target spot) }
{
    if target < HEAP_FIRST || read(store, span, HEAP_BASE) <= target {
        return None;
    }
    let Some(k) = last_up_to(starts, USED, target / HEAP_UNIT) else {
        return None;
    };
    let block = spot_at(store, span, starts, &[], HEAP_UNIT * k);
    if block.place == target {
        return Some(Spot {
            used: true,
            ..block
        });
    }
    if block.place + block.size != target || follow(store, span, block.from) != target {
        return None;
    }
    Some(Spot {
        place: target,
        size: read(store, span, target + HOLE_SIZE),
        used: false,
        from: block.from,
        low: target,
        link: block.from,
    })
}

/// The bytes of the block at an address. Refused (`NotABlock`) exactly where no block begins there. (OS_Heap 6.)
pub fn block_size_in<S: Words>(
    store: &S,
    span: Span,
    starts: &[u64],
    address: usize,
) -> Result<usize, HeapRefusal>
    requires span { IsSpan (S.memory store.now) span }
    requires starts { IsIndex starts.now (heap_in (S.memory store.now) span) }
    ensures { result ≡ ok_or (block_size address (heap_in (S.memory store.now) span)) HeapRefusal.NotABlock }
{
    match locate_in(store, span, starts, &[], address) {
        Some(spot) => Ok(spot.size - BLOCK),
        None => Err(HeapRefusal::NotABlock),
    }
}

/// Whether the `n` bytes at an address lie whole in one used block, also where `n` is 0. Any address and any `n` may
/// be asked for.
pub fn holds_in<S: Words>(store: &S, span: Span, starts: &[u64], address: usize, n: usize) -> bool
    requires span { IsSpan (S.memory store.now) span }
    requires starts { IsIndex starts.now (heap_in (S.memory store.now) span) }
    ensures { result ≡ is_some (block_around address n (heap_in (S.memory store.now) span)) }
{
    if address < HEAP_FIRST + BLOCK || read(store, span, HEAP_BASE) + BLOCK <= address {
        return false;
    }
    let Some(k) = last_up_to(starts, USED, (address - BLOCK) / HEAP_UNIT) else {
        return false;
    };
    let place = HEAP_UNIT * k;
    let size = read(store, span, place);
    is_inside(address, n, place + BLOCK, size - BLOCK)
}

/// Notes what became of the bytes from `low` up to `upper`, which stood open before the segments that follow: a hole
/// from `low` on, none where these are no bytes, or a part of the top where `low` is the base now.
fn note_hole(starts: &mut [u64], low: usize, upper: usize, base: usize)
    requires low { low % HEAP_UNIT ≡ 0 }
    requires upper { upper % HEAP_UNIT ≡ 0 }
    requires within { base ≤ LINE_BYTES * (length starts.old / 2) }
    ensures used { (j : ℕ) → bit USED starts.new j ≡ bit USED starts.old j }
    ensures holes { (j : ℕ) → Noted (HEAP_UNIT * j) low upper base (bit HOLES starts.old j) (bit HOLES starts.new j) }
    ensures long { length starts.new ≡ length starts.old }
{
    clear(starts, HOLES, upper / HEAP_UNIT);
    put(starts, HOLES, low / HEAP_UNIT, low < upper && low < base);
}

/// Releases the block at an address. Refused (`NotABlock`) exactly where no block begins there. (OS_Heap 3.)
pub fn release_by<S: WordsMut>(
    store: &mut S,
    span: Span,
    starts: &mut [u64],
    peaks: &mut [u64],
    address: usize,
) -> Result<(), HeapRefusal>
    requires span { IsSpan (S.memory store.old) span }
    requires starts { IsIndex starts.old (heap_in (S.memory store.old) span) }
    requires peaks { ArePeaks peaks.old (heap_in (S.memory store.old) span) }
    ensures leaves { LeavesHeap (S.memory store.old) (S.memory store.new) span
        (no_answer (released_at address (heap_in (S.memory store.old) span))) result }
    ensures starts { IsIndex starts.new (heap_in (S.memory store.new) span) }
    ensures long { length starts.new ≡ length starts.old }
    ensures peaks { ArePeaks peaks.new (heap_in (S.memory store.new) span) }
    ensures row { length peaks.new ≡ length peaks.old }
    ensures same { OnErr result (starts.new ≡ starts.old) }
{
    let Some(spot) = locate_in(store, span, starts, peaks, address) else {
        return Err(HeapRefusal::NotABlock);
    };
    free_segment(store, span, spot);
    clear(starts, USED, spot.place / HEAP_UNIT);
    let base = read(store, span, HEAP_BASE);
    note_hole(starts, spot.low, spot.place + spot.size, base);
    note_peak(store, span, peaks, spot.low, spot.place + spot.size, base);
    Ok(())
}

/// Puts a block of zeros into a segment of `size` bytes, in the first hole with room or above all segments.
fn take_in<S: WordsMut>(
    store: &mut S,
    span: Span,
    starts: &mut [u64],
    peaks: &mut [u64],
    size: usize,
) -> Option<usize>
    requires span { IsSpan (S.memory store.old) span }
    requires starts { IsIndex starts.old (heap_in (S.memory store.old) span) }
    requires peaks { ArePeaks peaks.old (heap_in (S.memory store.old) span) }
    requires least { HEAP_UNIT ≤ size }
    requires multiple { size % HEAP_UNIT ≡ 0 }
    requires small { size < 2 ^ 40 }
    ensures took { MatchOption result
        ((shortage_in size (heap_in (S.memory store.old) span)
        (hole_for size (heap_in (S.memory store.old) span).segments) ≢ 0)
        × (S.memory store.new ≡ S.memory store.old) × (starts.new ≡ starts.old))
        (λ address. Took (S.memory store.old) (S.memory store.new) span size address) }
    ensures only { OnlySpan (S.memory store.old) (S.memory store.new) span }
    ensures starts { IsIndex starts.new (heap_in (S.memory store.new) span) }
    ensures long { length starts.new ≡ length starts.old }
    ensures peaks { ArePeaks peaks.new (heap_in (S.memory store.new) span) }
    ensures row { length peaks.new ≡ length peaks.old }
{
    match find_in(store, span, starts, peaks, size) {
        Some(gap) => {
            fill(store, span, gap, size);
            set(starts, USED, gap.place / HEAP_UNIT);
            clear(starts, HOLES, gap.place / HEAP_UNIT);
            let base = read(store, span, HEAP_BASE);
            note_hole(starts, gap.place + size, gap.place + gap.size, base);
            note_peak(
                store,
                span,
                peaks,
                gap.place + size,
                gap.place + gap.size,
                base,
            );
            Some(gap.place + BLOCK)
        }
        None => {
            let top = read(store, span, HEAP_BASE);
            if read(store, span, HEAP_END) < top + size {
                return None;
            }
            append(store, span, top, size);
            set(starts, USED, top / HEAP_UNIT);
            Some(top + BLOCK)
        }
    }
}

/// Claims a block of `n` bytes at least, all 0, and answers its address. Refused: `BadSize` for 0 bytes, `NoRoom` where
/// the heap is too short. (OS_Heap 2.)
pub fn claim_by<S: WordsMut>(
    store: &mut S,
    span: Span,
    starts: &mut [u64],
    peaks: &mut [u64],
    n: u32,
) -> Result<usize, HeapRefusal>
    requires span { IsSpan (S.memory store.old) span }
    requires starts { IsIndex starts.old (heap_in (S.memory store.old) span) }
    requires peaks { ArePeaks peaks.old (heap_in (S.memory store.old) span) }
    ensures leaves { LeavesHeap (S.memory store.old) (S.memory store.new) span
        (claim_block n (heap_in (S.memory store.old) span)) result }
    ensures starts { IsIndex starts.new (heap_in (S.memory store.new) span) }
    ensures long { length starts.new ≡ length starts.old }
    ensures peaks { ArePeaks peaks.new (heap_in (S.memory store.new) span) }
    ensures row { length peaks.new ≡ length peaks.old }
    ensures same { OnErr result (starts.new ≡ starts.old) }
{
    if n == 0 {
        return Err(HeapRefusal::BadSize);
    }
    match take_in(store, span, starts, peaks, segment_size(n as usize)) {
        Some(address) => Ok(address),
        None => Err(HeapRefusal::NoRoom),
    }
}

/// Moves a block to a segment of `size` bytes elsewhere, with zeros behind its bytes, and releases the old one.
fn move_in<S: WordsMut>(
    store: &mut S,
    span: Span,
    starts: &mut [u64],
    peaks: &mut [u64],
    spot: Spot,
    size: usize,
) -> Option<usize>
    requires span { IsSpan (S.memory store.old) span }
    requires starts { IsIndex starts.old (heap_in (S.memory store.old) span) }
    requires peaks { ArePeaks peaks.old (heap_in (S.memory store.old) span) }
    requires found { FoundBlock span.at (heap_in (S.memory store.old) span) (spot.place + BLOCK) spot }
    requires multiple { size % HEAP_UNIT ≡ 0 }
    requires longer { spot.size < size }
    requires small { size < 2 ^ 40 }
    ensures moved { MatchOption result
        ((shortage_in size (heap_in (S.memory store.old) span)
        (hole_for size (heap_in (S.memory store.old) span).segments) ≢ 0)
        × (S.memory store.new ≡ S.memory store.old) × (starts.new ≡ starts.old))
        (λ address. WithBlock spot (heap_in (S.memory store.old) span)
        (Moved (S.memory store.old) (S.memory store.new) span size address (spot.place + BLOCK))) }
    ensures only { OnlySpan (S.memory store.old) (S.memory store.new) span }
    ensures starts { IsIndex starts.new (heap_in (S.memory store.new) span) }
    ensures long { length starts.new ≡ length starts.old }
    ensures peaks { ArePeaks peaks.new (heap_in (S.memory store.new) span) }
    ensures row { length peaks.new ≡ length peaks.old }
{
    match take_in(store, span, starts, peaks, size) {
        Some(address) => {
            move_bytes(store, span, spot.place + BLOCK, address, spot.size - BLOCK);
            release_by(store, span, starts, peaks, spot.place + BLOCK).unwrap();
            Some(address)
        }
        None => None,
    }
}

/// Gives a block a segment of `size` bytes, and answers its address.
fn change_in<S: WordsMut>(
    store: &mut S,
    span: Span,
    starts: &mut [u64],
    peaks: &mut [u64],
    spot: Spot,
    size: usize,
) -> Result<usize, HeapRefusal>
    requires span { IsSpan (S.memory store.old) span }
    requires starts { IsIndex starts.old (heap_in (S.memory store.old) span) }
    requires peaks { ArePeaks peaks.old (heap_in (S.memory store.old) span) }
    requires found { FoundBlock span.at (heap_in (S.memory store.old) span) (spot.place + BLOCK) spot }
    requires least { HEAP_UNIT ≤ size }
    requires multiple { size % HEAP_UNIT ≡ 0 }
    requires small { size < 2 ^ 40 }
    ensures changed { MatchResult result
        (λ address. WithBlock spot (heap_in (S.memory store.old) span)
        (Changed (S.memory store.old) (S.memory store.new) span size address))
        (λ refusal. WithBlock spot (heap_in (S.memory store.old) span)
        (NotChanged (S.memory store.old) (S.memory store.new) span size refusal)) }
    ensures only { OnlySpan (S.memory store.old) (S.memory store.new) span }
    ensures starts { IsIndex starts.new (heap_in (S.memory store.new) span) }
    ensures long { length starts.new ≡ length starts.old }
    ensures peaks { ArePeaks peaks.new (heap_in (S.memory store.new) span) }
    ensures row { length peaks.new ≡ length peaks.old }
    ensures same { OnErr result (starts.new ≡ starts.old) }
{
    let upper = spot.place + spot.size;
    match way_to(store, span, spot, size) {
        ResizeWay::Stays => Ok(spot.place + BLOCK),
        ResizeWay::Shrinks => {
            shrink(store, span, spot, size);
            let base = read(store, span, HEAP_BASE);
            note_hole(starts, spot.place + size, upper, base);
            note_peak(store, span, peaks, spot.place + size, upper, base);
            Ok(spot.place + BLOCK)
        }
        ResizeWay::IntoHole(room) => {
            widen(store, span, spot, size, room);
            let base = read(store, span, HEAP_BASE);
            clear(starts, HOLES, upper / HEAP_UNIT);
            note_hole(starts, spot.place + size, upper + room, base);
            note_peak(store, span, peaks, spot.place + size, upper + room, base);
            Ok(spot.place + BLOCK)
        }
        ResizeWay::AtTop => {
            if read(store, span, HEAP_END) < spot.place + size {
                return Err(HeapRefusal::NoRoom);
            }
            raise(store, span, spot, size);
            Ok(spot.place + BLOCK)
        }
        ResizeWay::Moves => match move_in(store, span, starts, peaks, spot, size) {
            Some(address) => Ok(address),
            None => Err(HeapRefusal::NoRoom),
        },
    }
}

/// Gives the block at an address `delta` bytes more, or fewer where `delta` is negative, and answers its address. Bytes
/// past the old ones are 0. Refused: `NotABlock`, `BadSize` where fewer than 1 byte would be left, `NoRoom` where the
/// heap is too short. (OS_Heap 4.)
pub fn resize_by<S: WordsMut>(
    store: &mut S,
    span: Span,
    starts: &mut [u64],
    peaks: &mut [u64],
    address: usize,
    delta: i32,
) -> Result<usize, HeapRefusal>
    requires span { IsSpan (S.memory store.old) span }
    requires starts { IsIndex starts.old (heap_in (S.memory store.old) span) }
    requires peaks { ArePeaks peaks.old (heap_in (S.memory store.old) span) }
    ensures leaves { LeavesHeap (S.memory store.old) (S.memory store.new) span
        (resize_block address delta (heap_in (S.memory store.old) span)) result }
    ensures starts { IsIndex starts.new (heap_in (S.memory store.new) span) }
    ensures long { length starts.new ≡ length starts.old }
    ensures peaks { ArePeaks peaks.new (heap_in (S.memory store.new) span) }
    ensures row { length peaks.new ≡ length peaks.old }
    ensures same { OnErr result (starts.new ≡ starts.old) }
{
    match locate_in(store, span, starts, peaks, address) {
        Some(spot) => {
            let n = moved(spot.size - BLOCK, delta);
            if n == 0 {
                return Err(HeapRefusal::BadSize);
            }
            change_in(store, span, starts, peaks, spot, segment_size(n))
        }
        None => Err(HeapRefusal::NotABlock),
    }
}

/// By how many bytes the heap is too short for a resize, 0 where it has room. Refused: `NotABlock`, `BadSize`.
pub fn resize_need_in<S: Words>(
    store: &S,
    span: Span,
    starts: &[u64],
    address: usize,
    delta: i32,
) -> Result<usize, HeapRefusal>
    requires span { IsSpan (S.memory store.now) span }
    requires starts { IsIndex starts.now (heap_in (S.memory store.now) span) }
    ensures { result ≡ need_at address delta (heap_in (S.memory store.now) span) }
{
    match locate_in(store, span, starts, &[], address) {
        Some(spot) => {
            let n = moved(spot.size - BLOCK, delta);
            if n == 0 {
                return Err(HeapRefusal::BadSize);
            }
            Ok(short_by(store, span, spot, segment_size(n)))
        }
        None => Err(HeapRefusal::NotABlock),
    }
}

/// Releases the block at an address. Refused (`NotABlock`) exactly where no block begins there. (OS_Heap 3.)
pub fn release_in<S: WordsMut>(
    store: &mut S,
    span: Span,
    starts: &mut [u64],
    address: usize,
) -> Result<(), HeapRefusal>
    requires span { IsSpan (S.memory store.old) span }
    requires starts { IsIndex starts.old (heap_in (S.memory store.old) span) }
    ensures leaves { LeavesHeap (S.memory store.old) (S.memory store.new) span
        (no_answer (released_at address (heap_in (S.memory store.old) span))) result }
    ensures starts { IsIndex starts.new (heap_in (S.memory store.new) span) }
    ensures long { length starts.new ≡ length starts.old }
    ensures same { OnErr result (starts.new ≡ starts.old) }
{
    release_by(store, span, starts, &mut [], address)
}

/// Claims a block of `n` bytes at least, all 0, and answers its address. Refused: `BadSize` for 0 bytes, `NoRoom` where
/// the heap is too short. (OS_Heap 2.)
pub fn claim_in<S: WordsMut>(
    store: &mut S,
    span: Span,
    starts: &mut [u64],
    n: u32,
) -> Result<usize, HeapRefusal>
    requires span { IsSpan (S.memory store.old) span }
    requires starts { IsIndex starts.old (heap_in (S.memory store.old) span) }
    ensures leaves { LeavesHeap (S.memory store.old) (S.memory store.new) span
        (claim_block n (heap_in (S.memory store.old) span)) result }
    ensures starts { IsIndex starts.new (heap_in (S.memory store.new) span) }
    ensures long { length starts.new ≡ length starts.old }
    ensures same { OnErr result (starts.new ≡ starts.old) }
{
    claim_by(store, span, starts, &mut [], n)
}

/// Gives the block at an address `delta` bytes more, or fewer where `delta` is negative, and answers its address. Bytes
/// past the old ones are 0. Refused: `NotABlock`, `BadSize` where fewer than 1 byte would be left, `NoRoom` where the
/// heap is too short. (OS_Heap 4.)
pub fn resize_in<S: WordsMut>(
    store: &mut S,
    span: Span,
    starts: &mut [u64],
    address: usize,
    delta: i32,
) -> Result<usize, HeapRefusal>
    requires span { IsSpan (S.memory store.old) span }
    requires starts { IsIndex starts.old (heap_in (S.memory store.old) span) }
    ensures leaves { LeavesHeap (S.memory store.old) (S.memory store.new) span
        (resize_block address delta (heap_in (S.memory store.old) span)) result }
    ensures starts { IsIndex starts.new (heap_in (S.memory store.new) span) }
    ensures long { length starts.new ≡ length starts.old }
    ensures same { OnErr result (starts.new ≡ starts.old) }
{
    resize_by(store, span, starts, &mut [], address, delta)
}
