//! Calls on a heap for callers: where the store keeps a map of the heap's beginnings, a block is found by it, and else
//! by a walk. A map that isn't up to date is made anew by the first call that changes the heap.
ghost use Rattle.std.specs.Prelude.{◌≡◌, ◌+◌, ◌*◌, ◌/◌, ◌%◌, ◌≤◌, length, IfSome, is_some, ok_or};
ghost use Rattle.rh_defs.specs.Memory.{Memory, bytes};
ghost use Rattle.rh_defs.specs.Pieces.{moved};
ghost use Rattle.rh_defs.specs.Chain.{no_answer};
ghost use Rattle.rh_defs.specs.Heap.{block_around, block_size, claim_block, extend_by, need_at, released_at};
ghost use Rattle.rh_defs.specs.Heap.{resize_block};
ghost use Rattle.rh_heap.specs.HeapSpans.{IsSpan, bytes_in, heap_in};
ghost use Rattle.rh_heap.specs.HeapCalls.{LeavesHeap};
ghost use Rattle.rh_store.specs.Starts.{AreRowsOf, HasRows};
ghost use Rattle.rh_defs.specs.declared.sizes.TheConstants.{HEAP_UNIT};

use crate::span::indexed::{
    block_size_in, claim_by, holds_in, index, release_by, resize_by, resize_need_in,
};
use crate::span::peaks::index_peaks;
use crate::span::words::read;
use crate::span::{Span, claim, release, resize, segments, whole};
use rh_defs::HeapRefusal;
use rh_defs::sizes::{HEAP_BASE, HEAP_END};
use rh_store::{Lines, Rows, Starts, Words, WordsMut};

/// The bytes up to a heap's base from which a map pays: those below hold too few segments.
const SHORT: usize = 1024;

/// Takes the map that the store keeps of the heap, where it is up to date. No call finds it until it is kept again.
#[inline(always)]
pub fn take_map<S: WordsMut>(store: &mut S, span: Span) -> Option<Rows<S::Lines>>
    requires { IsSpan (S.memory store.old) span }
    ensures same { S.memory store.new ≡ S.memory store.old }
    ensures index { IfSome result (λ rows. AreRowsOf (S.Lines.words rows.lines) rows.split
        (heap_in (S.memory store.old) span)) }
    ensures long { IfSome result (λ rows. HasRows (S.Lines.words rows.lines) rows.split
        (length (bytes_in (S.memory store.old) span))) }
{
    if store.starts(span.area, span.at).is_none() {
        return None;
    }
    take_lines(store, span)
}

/// Takes the map that the store keeps of the heap, and makes it anew where it isn't up to date.
#[inline(always)]
fn take_lines<S: WordsMut>(store: &mut S, span: Span) -> Option<Rows<S::Lines>>
    requires { IsSpan (S.memory store.old) span }
    ensures same { S.memory store.new ≡ S.memory store.old }
    ensures index { IfSome result (λ rows. AreRowsOf (S.Lines.words rows.lines) rows.split
        (heap_in (S.memory store.old) span)) }
    ensures long { IfSome result (λ rows. HasRows (S.Lines.words rows.lines) rows.split
        (length (bytes_in (S.memory store.old) span))) }
{
    let Some(starts) = store.take_starts(span.area) else {
        return None;
    };
    let Starts {
        mut lines,
        split,
        known,
        at,
        upper: _,
    } = starts;
    if known && at == span.at {
        return Some(Rows { lines, split });
    }
    let (starts, peaks) = lines.as_mut_slice().split_at_mut(split);
    index(store, span, starts);
    index_peaks(store, span, peaks);
    Some(Rows { lines, split })
}

/// Takes a map of the heap for a call that changes it: of a short heap only where it is up to date.
#[inline(always)]
fn map_for_change<S: WordsMut>(store: &mut S, span: Span) -> Option<Rows<S::Lines>>
    requires { IsSpan (S.memory store.old) span }
    ensures same { S.memory store.new ≡ S.memory store.old }
    ensures index { IfSome result (λ rows. AreRowsOf (S.Lines.words rows.lines) rows.split
        (heap_in (S.memory store.old) span)) }
    ensures long { IfSome result (λ rows. HasRows (S.Lines.words rows.lines) rows.split
        (length (bytes_in (S.memory store.old) span))) }
{
    if read(store, span, HEAP_BASE) < SHORT && store.starts(span.area, span.at).is_none() {
        return None;
    }
    take_lines(store, span)
}

/// Lets the store keep a map of the heap that was taken from it, as the heap is now.
#[inline(always)]
#[tactic(auto, using(crate::proofs::RowLaws::has_rows))]
pub fn keep_map<S: WordsMut>(store: &mut S, span: Span, map: Option<Rows<S::Lines>>)
    requires span { IsSpan (S.memory store.old) span }
    requires index { IfSome map (λ rows. AreRowsOf (S.Lines.words rows.lines) rows.split
        (heap_in (S.memory store.old) span)) }
    ensures { S.memory store.new ≡ S.memory store.old }
{
    let Some(rows) = map else {
        return;
    };
    let upper = span.at + read(store, span, HEAP_END);
    store.keep_starts(span.area, rows.lines, rows.split, true, span.at, upper);
}

/// Claims a block of `n` bytes at least, all 0, and answers its address: in the first hole with room, or above all
/// segments. Refused: `BadSize` for 0 bytes, `NoRoom` where the heap is too short. (OS_Heap 2.)
pub fn claim<S: WordsMut>(store: &mut S, span: Span, n: u32) -> Result<usize, HeapRefusal>
    requires { IsSpan (S.memory store.old) span }
    ensures { LeavesHeap (S.memory store.old) (S.memory store.new) span
        (claim_block n (heap_in (S.memory store.old) span)) result }
{
    let Some(rows) = map_for_change(store, span) else {
        return claim::claim(store, span, n);
    };
    let Rows { mut lines, split } = rows;
    let (starts, peaks) = lines.as_mut_slice().split_at_mut(split);
    let result = claim_by(store, span, starts, peaks, n);
    keep_map(store, span, Some(Rows { lines, split }));
    result
}

/// Releases the block at an address: its segment becomes a hole, which joins those beside it, and at the base a part
/// of the top. Refused (`NotABlock`) exactly where no block begins there. (OS_Heap 3.)
pub fn release<S: WordsMut>(store: &mut S, span: Span, address: usize) -> Result<(), HeapRefusal>
    requires { IsSpan (S.memory store.old) span }
    ensures { LeavesHeap (S.memory store.old) (S.memory store.new) span
        (no_answer (released_at address (heap_in (S.memory store.old) span))) result }
{
    let Some(rows) = map_for_change(store, span) else {
        return release::release(store, span, address);
    };
    let Rows { mut lines, split } = rows;
    let (starts, peaks) = lines.as_mut_slice().split_at_mut(split);
    let result = release_by(store, span, starts, peaks, address);
    keep_map(store, span, Some(Rows { lines, split }));
    result
}

/// Gives the block at an address `delta` bytes more, or fewer where `delta` is negative, and answers its address. Bytes
/// past the old ones are 0. Refused: `NotABlock`, `BadSize` where fewer than 1 byte would be left, `NoRoom` where the
/// heap is too short. (OS_Heap 4.)
pub fn resize<S: WordsMut>(
    store: &mut S,
    span: Span,
    address: usize,
    delta: i32,
) -> Result<usize, HeapRefusal>
    requires { IsSpan (S.memory store.old) span }
    ensures { LeavesHeap (S.memory store.old) (S.memory store.new) span
        (resize_block address delta (heap_in (S.memory store.old) span)) result }
{
    let Some(rows) = map_for_change(store, span) else {
        return resize::resize(store, span, address, delta);
    };
    let Rows { mut lines, split } = rows;
    let (starts, peaks) = lines.as_mut_slice().split_at_mut(split);
    let result = resize_by(store, span, starts, peaks, address, delta);
    keep_map(store, span, Some(Rows { lines, split }));
    result
}

/// Moves a heap's end by `delta` bytes, a multiple of 8. The bytes up to the new end are in the area. Refused
/// (`ExcessiveShrink`) exactly where the end would be below the last block. (OS_Heap 5.)
pub fn extend_heap<S: WordsMut>(store: &mut S, span: Span, delta: i32) -> Result<(), HeapRefusal>
    requires span { IsSpan (S.memory store.old) span }
    requires multiple { moved (heap_in (S.memory store.old) span).end delta % HEAP_UNIT ≡ 0 }
    requires within { span.at + moved (heap_in (S.memory store.old) span).end delta
        ≤ length (bytes_in (S.memory store.old) span) }
    ensures { LeavesHeap (S.memory store.old) (S.memory store.new) span
        (no_answer (extend_by delta (heap_in (S.memory store.old) span))) result }
{
    let Some(rows) = map_for_change(store, span) else {
        return whole::extend_heap(store, span, delta);
    };
    let result = whole::extend_heap(store, span, delta);
    keep_map(store, span, Some(rows));
    result
}

/// The bytes of the block at an address. Refused (`NotABlock`) exactly where no block begins there. (OS_Heap 6.)
pub fn block_size<S: Words>(store: &S, span: Span, address: usize) -> Result<usize, HeapRefusal>
    requires { IsSpan (S.memory store.now) span }
    ensures { result ≡ ok_or (block_size address (heap_in (S.memory store.now) span)) HeapRefusal.NotABlock }
{
    match store.starts(span.area, span.at) {
        Some(lines) => block_size_in(store, span, lines, address),
        None => segments::block_size(store, span, address),
    }
}

/// Whether the `n` bytes at an address lie whole in one used block, also where `n` is 0. Any address and any `n` may
/// be asked for.
pub fn holds<S: Words>(store: &S, span: Span, address: usize, n: usize) -> bool
    requires { IsSpan (S.memory store.now) span }
    ensures { result ≡ is_some (block_around address n (heap_in (S.memory store.now) span)) }
{
    match store.starts(span.area, span.at) {
        Some(lines) => holds_in(store, span, lines, address, n),
        None => segments::holds(store, span, address, n),
    }
}

/// By how many bytes the heap is too short for a resize, 0 where it has room. Refused: `NotABlock`, `BadSize`.
pub fn resize_need<S: Words>(
    store: &S,
    span: Span,
    address: usize,
    delta: i32,
) -> Result<usize, HeapRefusal>
    requires { IsSpan (S.memory store.now) span }
    ensures { result ≡ need_at address delta (heap_in (S.memory store.now) span) }
{
    match store.starts(span.area, span.at) {
        Some(lines) => resize_need_in(store, span, lines, address, delta),
        None => resize::resize_need(store, span, address, delta),
    }
}
