//! Claims: new blocks.
ghost use Rattle.std.specs.Prelude.{◌≡◌, ◌≢◌, ℕ, ◌+◌, ◌-◌, ◌%◌, ◌^◌, ◌<◌, ◌≤◌, length, replicate, None, MatchOption};
ghost use Rattle.rh_defs.specs.Bytes.{word, part};
ghost use Rattle.rh_defs.specs.Memory.{Memory, IsOpen, Edited, bytes};
ghost use Rattle.rh_defs.specs.Heap.{Heap, hole_for, shortage_in, base, claim_block, claim_need};
ghost use Rattle.rh_heap.specs.HeapSpans.{IsSpan, OnlySpan, bytes_in, heap_in};
ghost use Rattle.rh_heap.specs.HeapCalls.{LeavesHeap};
ghost use Rattle.rh_heap.specs.Claims.{Took};
ghost use Rattle.rh_heap.specs.Holes.{FoundHole};
ghost use Rattle.rh_defs.specs.declared.sizes.TheConstants.{HEAP_UNIT};
ghost use Rattle.rh_heap.specs.declared.layout.TheConstants.{BLOCK};

use crate::layout::BLOCK;
use crate::span::Span;
use crate::span::holes::{Gap, find};
use crate::span::stretch::{Stretch, settle_below_block};
use crate::span::words::{clear, follow, read, write};
use rh_defs::HeapRefusal;
use rh_defs::sizes::{HEAP_BASE, HEAP_END, segment_size};
use rh_store::{Words, WordsMut};

/// Writes a used segment of `size` bytes with a block of zeros.
#[inline(always)]
fn put_zeros<S: WordsMut>(store: &mut S, span: Span, place: usize, size: usize)
    requires opened { IsOpen (S.memory store.old) span.area.0 }
    requires within { span.at + place + size ≤ length (bytes_in (S.memory store.old) span) }
    requires least { HEAP_UNIT ≤ size }
    ensures size { word (bytes_in (S.memory store.new) span) (span.at + place) ≡ size }
    ensures zeros { part (bytes_in (S.memory store.new) span) (span.at + place + BLOCK) (size - BLOCK)
        ≡ replicate (size - BLOCK) 0 }
    ensures only { Edited (S.memory store.old) (S.memory store.new) span.area.0 (span.at + place)
        (span.at + place + size) }
{
    write(store, span, place, size);
    clear(store, span, place + BLOCK, size - BLOCK);
}

/// Puts a block of zeros into the lower bytes of a hole.
#[inline(always)]
pub fn fill<S: WordsMut>(store: &mut S, span: Span, gap: Gap, size: usize)
    requires span { IsSpan (S.memory store.old) span }
    requires gap { FoundHole span.at (heap_in (S.memory store.old) span) size gap }
    requires least { HEAP_UNIT ≤ size }
    requires multiple { size % HEAP_UNIT ≡ 0 }
    ensures took { Took (S.memory store.old) (S.memory store.new) span size (gap.place + BLOCK) }
    ensures only { OnlySpan (S.memory store.old) (S.memory store.new) span }
{
    let next = follow(store, span, gap.place);
    put_zeros(store, span, gap.place, size);
    settle_below_block(
        store,
        span,
        Stretch {
            link: gap.from,
            low: gap.place + size,
            next,
            upper: gap.place + gap.size,
        },
    );
}

/// Puts a block of zeros above all segments.
#[inline(always)]
pub fn append<S: WordsMut>(store: &mut S, span: Span, top: usize, size: usize)
    requires span { IsSpan (S.memory store.old) span }
    requires none { hole_for size (heap_in (S.memory store.old) span).segments ≡ None }
    requires top { top ≡ base (heap_in (S.memory store.old) span) }
    requires room { top + size ≤ (heap_in (S.memory store.old) span).end }
    requires least { HEAP_UNIT ≤ size }
    requires multiple { size % HEAP_UNIT ≡ 0 }
    ensures took { Took (S.memory store.old) (S.memory store.new) span size (top + BLOCK) }
    ensures only { OnlySpan (S.memory store.old) (S.memory store.new) span }
{
    put_zeros(store, span, top, size);
    write(store, span, HEAP_BASE, top + size);
}

/// Puts a block of zeros into a segment of `size` bytes, in the first hole with room or above all segments.
#[inline(always)]
pub fn take<S: WordsMut>(store: &mut S, span: Span, size: usize) -> Option<usize>
    requires span { IsSpan (S.memory store.old) span }
    requires least { HEAP_UNIT ≤ size }
    requires multiple { size % HEAP_UNIT ≡ 0 }
    requires small { size < 2 ^ 40 }
    ensures took { MatchOption result
        ((shortage_in size (heap_in (S.memory store.old) span)
        (hole_for size (heap_in (S.memory store.old) span).segments) ≢ 0)
        × (S.memory store.new ≡ S.memory store.old))
        (λ address. Took (S.memory store.old) (S.memory store.new) span size address) }
    ensures only { OnlySpan (S.memory store.old) (S.memory store.new) span }
{
    match find(store, span, size) {
        Some(gap) => {
            fill(store, span, gap, size);
            Some(gap.place + BLOCK)
        }
        None => {
            let top = read(store, span, HEAP_BASE);
            if read(store, span, HEAP_END) < top + size {
                return None;
            }
            append(store, span, top, size);
            Some(top + BLOCK)
        }
    }
}

/// By how many bytes the heap is too short for a new segment of `size` bytes.
pub fn shortage<S: Words>(store: &S, span: Span, size: usize) -> usize
    requires span { IsSpan (S.memory store.now) span }
    requires small { size < 2 ^ 40 }
    ensures { result ≡ shortage_in size (heap_in (S.memory store.now) span)
        (hole_for size (heap_in (S.memory store.now) span).segments) }
{
    match find(store, span, size) {
        Some(_) => 0,
        None => (read(store, span, HEAP_BASE) + size).saturating_sub(read(store, span, HEAP_END)),
    }
}

/// Claims a block of `n` bytes at least, all 0, and answers its address: in the first hole with room, or above all
/// segments. Refused: `BadSize` for 0 bytes, `NoRoom` where the heap is too short. (OS_Heap 2.)
pub fn claim<S: WordsMut>(store: &mut S, span: Span, n: u32) -> Result<usize, HeapRefusal>
    requires { IsSpan (S.memory store.old) span }
    ensures { LeavesHeap (S.memory store.old) (S.memory store.new) span
        (claim_block n (heap_in (S.memory store.old) span)) result }
{
    if n == 0 {
        return Err(HeapRefusal::BadSize);
    }
    match take(store, span, segment_size(n as usize)) {
        Some(address) => Ok(address),
        None => Err(HeapRefusal::NoRoom),
    }
}

/// By how many bytes the heap is too short for a claim of `n` bytes, 0 where it has room. Refused (`BadSize`) for 0
/// bytes.
pub fn need<S: Words>(store: &S, span: Span, n: u32) -> Result<usize, HeapRefusal>
    requires { IsSpan (S.memory store.now) span }
    ensures { result ≡ claim_need n (heap_in (S.memory store.now) span) }
{
    if n == 0 {
        return Err(HeapRefusal::BadSize);
    }
    Ok(shortage(store, span, segment_size(n as usize)))
}
