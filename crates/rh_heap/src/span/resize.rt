//! Resizes: blocks that get other sizes, and the ways to them.
ghost use Rattle.std.specs.Prelude.{◌≡◌, ◌≢◌, ℕ, ℤ, ◌+◌, ◌-◌, ◌%◌, ◌^◌, ◌<◌, ◌≤◌, ◌++◌, length, replicate, MatchOption};
ghost use Rattle.std.specs.Prelude.{MatchResult};
ghost use Rattle.rh_defs.specs.Bytes.{word, part};
ghost use Rattle.rh_defs.specs.Memory.{Memory, IsOpen, Edited, bytes};
ghost use Rattle.rh_defs.specs.Heap.{hole_for, shortage_in, block_at, base, resize_block, need_at};
ghost use Rattle.rh_heap.specs.HeapSpans.{IsSpan, OnlySpan, bytes_in, heap_in};
ghost use Rattle.rh_heap.specs.HeapCalls.{LeavesHeap};
ghost use Rattle.rh_heap.specs.Segments.{FoundBlock};
ghost use Rattle.rh_heap.specs.HeapWays.{WayOf, ShortBy, WithBlock, SpellsResized};
ghost use Rattle.rh_heap.specs.Inner.WayEnds.{Changed, NotChanged, Moved};
ghost use Rattle.rh_defs.specs.declared.sizes.TheConstants.{HEAP_UNIT};
ghost use Rattle.rh_heap.specs.declared.layout.TheConstants.{BLOCK};

use crate::layout::{BLOCK, HOLE_SIZE};
use crate::span::Span;
use crate::span::claim::{shortage, take};
use crate::span::holes::find;
use crate::span::release::release;
use crate::span::segments::{Spot, locate};
use crate::span::stretch::{Stretch, settle};
use crate::span::words::{clear, follow, move_bytes, read, write};
use rh_defs::HeapRefusal;
use rh_defs::sizes::{HEAP_BASE, HEAP_END, moved, segment_size};
use rh_store::{Words, WordsMut};

/// How a block gets another size: it stays, its upper bytes become a hole, it grows into the hole of so many bytes
/// that follows, or at the top, or it moves.
#[derive(Clone, Copy, Debug, PartialEq, Eq)]
pub enum ResizeWay {
    Stays,
    Shrinks,
    IntoHole(usize),
    AtTop,
    Moves,
}

/// How a block gets a segment of `size` bytes: the first of the ways, in their order, that has room for it.
pub fn way_to<S: Words>(store: &S, span: Span, spot: Spot, size: usize) -> ResizeWay
    requires span { IsSpan (S.memory store.now) span }
    requires found { FoundBlock span.at (heap_in (S.memory store.now) span) (spot.place + BLOCK) spot }
    requires small { size < 2 ^ 40 }
    ensures { WayOf size spot (heap_in (S.memory store.now) span) result }
{
    if size == spot.size {
        return ResizeWay::Stays;
    }
    if size < spot.size {
        return ResizeWay::Shrinks;
    }
    let upper = spot.place + spot.size;
    if follow(store, span, spot.from) == upper {
        let room = read(store, span, upper + HOLE_SIZE);
        if size <= spot.size + room {
            return ResizeWay::IntoHole(room);
        }
        return ResizeWay::Moves;
    }
    if upper != read(store, span, HEAP_BASE) {
        return ResizeWay::Moves;
    }
    if spot.place + size <= read(store, span, HEAP_END) {
        return ResizeWay::AtTop;
    }
    match find(store, span, size) {
        Some(_) => ResizeWay::Moves,
        None => ResizeWay::AtTop,
    }
}

/// Gives the segment at `spot` the size of `size` bytes, with zeros behind the old bytes.
fn lengthen<S: WordsMut>(store: &mut S, span: Span, spot: Spot, size: usize)
    requires opened { IsOpen (S.memory store.old) span.area.0 }
    requires within { span.at + spot.place + size ≤ length (bytes_in (S.memory store.old) span) }
    requires least { HEAP_UNIT ≤ spot.size }
    requires longer { spot.size ≤ size }
    ensures size { word (bytes_in (S.memory store.new) span) (span.at + spot.place) ≡ size }
    ensures block { part (bytes_in (S.memory store.new) span) (span.at + spot.place + BLOCK) (size - BLOCK)
        ≡ part (bytes_in (S.memory store.old) span) (span.at + spot.place + BLOCK) (spot.size - BLOCK)
        ++ replicate (size - spot.size) 0 }
    ensures only { Edited (S.memory store.old) (S.memory store.new) span.area.0 (span.at + spot.place)
        (span.at + spot.place + size) }
{
    write(store, span, spot.place, size);
    clear(store, span, spot.place + spot.size, size - spot.size);
}

/// Makes the upper bytes of a block a hole.
pub fn shrink<S: WordsMut>(store: &mut S, span: Span, spot: Spot, size: usize)
    requires span { IsSpan (S.memory store.old) span }
    requires found { FoundBlock span.at (heap_in (S.memory store.old) span) (spot.place + BLOCK) spot }
    requires least { HEAP_UNIT ≤ size }
    requires multiple { size % HEAP_UNIT ≡ 0 }
    requires shorter { size < spot.size }
    ensures spells { SpellsResized (S.memory store.old) (S.memory store.new) span size spot }
    ensures only { OnlySpan (S.memory store.old) (S.memory store.new) span }
{
    let next = follow(store, span, spot.from);
    write(store, span, spot.place, size);
    settle(
        store,
        span,
        Stretch {
            link: spot.from,
            low: spot.place + size,
            next,
            upper: spot.place + spot.size,
        },
    );
}

/// Lets a block grow into the hole of `room` bytes that follows.
pub fn widen<S: WordsMut>(store: &mut S, span: Span, spot: Spot, size: usize, room: usize)
    requires span { IsSpan (S.memory store.old) span }
    requires found { FoundBlock span.at (heap_in (S.memory store.old) span) (spot.place + BLOCK) spot }
    requires multiple { size % HEAP_UNIT ≡ 0 }
    requires way { WayOf size spot (heap_in (S.memory store.old) span) (ResizeWay.IntoHole room) }
    ensures spells { SpellsResized (S.memory store.old) (S.memory store.new) span size spot }
    ensures only { OnlySpan (S.memory store.old) (S.memory store.new) span }
{
    let upper = spot.place + spot.size;
    let next = follow(store, span, upper);
    lengthen(store, span, spot, size);
    settle(
        store,
        span,
        Stretch {
            link: spot.from,
            low: spot.place + size,
            next,
            upper: upper + room,
        },
    );
}

/// Lets the last block grow.
pub fn raise<S: WordsMut>(store: &mut S, span: Span, spot: Spot, size: usize)
    requires span { IsSpan (S.memory store.old) span }
    requires found { FoundBlock span.at (heap_in (S.memory store.old) span) (spot.place + BLOCK) spot }
    requires multiple { size % HEAP_UNIT ≡ 0 }
    requires way { WayOf size spot (heap_in (S.memory store.old) span) ResizeWay.AtTop }
    requires room { spot.place + size ≤ (heap_in (S.memory store.old) span).end }
    ensures spells { SpellsResized (S.memory store.old) (S.memory store.new) span size spot }
    ensures only { OnlySpan (S.memory store.old) (S.memory store.new) span }
{
    lengthen(store, span, spot, size);
    write(store, span, HEAP_BASE, spot.place + size);
}

/// Moves a block to a segment of `size` bytes elsewhere, with zeros behind its bytes, and releases the old one.
fn move_block<S: WordsMut>(store: &mut S, span: Span, spot: Spot, size: usize) -> Option<usize>
    requires span { IsSpan (S.memory store.old) span }
    requires found { FoundBlock span.at (heap_in (S.memory store.old) span) (spot.place + BLOCK) spot }
    requires multiple { size % HEAP_UNIT ≡ 0 }
    requires longer { spot.size < size }
    requires small { size < 2 ^ 40 }
    ensures moved { MatchOption result
        ((shortage_in size (heap_in (S.memory store.old) span)
        (hole_for size (heap_in (S.memory store.old) span).segments) ≢ 0)
        × (S.memory store.new ≡ S.memory store.old))
        (λ address. WithBlock spot (heap_in (S.memory store.old) span)
        (Moved (S.memory store.old) (S.memory store.new) span size address (spot.place + BLOCK))) }
    ensures only { OnlySpan (S.memory store.old) (S.memory store.new) span }
{
    match take(store, span, size) {
        Some(address) => {
            move_bytes(store, span, spot.place + BLOCK, address, spot.size - BLOCK);
            release(store, span, spot.place + BLOCK).unwrap();
            Some(address)
        }
        None => None,
    }
}

/// Gives a block a segment of `size` bytes, and answers its address.
fn change<S: WordsMut>(
    store: &mut S,
    span: Span,
    spot: Spot,
    size: usize,
) -> Result<usize, HeapRefusal>
    requires span { IsSpan (S.memory store.old) span }
    requires found { FoundBlock span.at (heap_in (S.memory store.old) span) (spot.place + BLOCK) spot }
    requires least { HEAP_UNIT ≤ size }
    requires multiple { size % HEAP_UNIT ≡ 0 }
    requires small { size < 2 ^ 40 }
    ensures changed { MatchResult result
        (λ address. WithBlock spot (heap_in (S.memory store.old) span)
        (Changed (S.memory store.old) (S.memory store.new) span size address))
        (λ refusal. WithBlock spot (heap_in (S.memory store.old) span)
        (NotChanged (S.memory store.old) (S.memory store.new) span size refusal)) }
    ensures only { OnlySpan (S.memory store.old) (S.memory store.new) span }
{
    match way_to(store, span, spot, size) {
        ResizeWay::Stays => Ok(spot.place + BLOCK),
        ResizeWay::Shrinks => {
            shrink(store, span, spot, size);
            Ok(spot.place + BLOCK)
        }
        ResizeWay::IntoHole(room) => {
            widen(store, span, spot, size, room);
            Ok(spot.place + BLOCK)
        }
        ResizeWay::AtTop => {
            if read(store, span, HEAP_END) < spot.place + size {
                return Err(HeapRefusal::NoRoom);
            }
            raise(store, span, spot, size);
            Ok(spot.place + BLOCK)
        }
        ResizeWay::Moves => match move_block(store, span, spot, size) {
            Some(address) => Ok(address),
            None => Err(HeapRefusal::NoRoom),
        },
    }
}

/// By how many bytes the heap is too short for a block to get a segment of `size` bytes.
pub fn short_by<S: Words>(store: &S, span: Span, spot: Spot, size: usize) -> usize
    requires span { IsSpan (S.memory store.now) span }
    requires found { FoundBlock span.at (heap_in (S.memory store.now) span) (spot.place + BLOCK) spot }
    requires small { size < 2 ^ 40 }
    ensures { WithBlock spot (heap_in (S.memory store.now) span)
        (ShortBy (heap_in (S.memory store.now) span) size result) }
{
    match way_to(store, span, spot, size) {
        ResizeWay::Stays => 0,
        ResizeWay::Shrinks => 0,
        ResizeWay::IntoHole(_) => 0,
        ResizeWay::AtTop => (spot.place + size).saturating_sub(read(store, span, HEAP_END)),
        ResizeWay::Moves => shortage(store, span, size),
    }
}

/// Gives the block at an address `delta` bytes more, or fewer where `delta` is negative, and answers its address. Bytes
/// past the old ones are 0. Refused: `NotABlock`, `BadSize` where fewer than 1 byte would be left, `NoRoom` where the
/// heap is too short. (OS_Heap 4.)
pub fn resize<S: WordsMut>(
    store: &mut S,
    span: Span,
    address: usize,
    delta: i32,
) -> Result<usize, HeapRefusal>
    requires { IsSpan (S.memory store.old) span }
    ensures { LeavesHeap (S.memory store.old) (S.memory store.new) span
        (resize_block address delta (heap_in (S.memory store.old) span)) result }
{
    match locate(store, span, address) {
        Some(spot) => {
            let n = moved(spot.size - BLOCK, delta);
            if n == 0 {
                return Err(HeapRefusal::BadSize);
            }
            change(store, span, spot, segment_size(n))
        }
        None => Err(HeapRefusal::NotABlock),
    }
}

/// By how many bytes the heap is too short for a resize, 0 where it has room. Refused: `NotABlock`, `BadSize`.
pub fn resize_need<S: Words>(
    store: &S,
    span: Span,
    address: usize,
    delta: i32,
) -> Result<usize, HeapRefusal>
    requires { IsSpan (S.memory store.now) span }
    ensures { result ≡ need_at address delta (heap_in (S.memory store.now) span) }
{
    match locate(store, span, address) {
        Some(spot) => {
            let n = moved(spot.size - BLOCK, delta);
            if n == 0 {
                return Err(HeapRefusal::BadSize);
            }
            Ok(short_by(store, span, spot, segment_size(n)))
        }
        None => Err(HeapRefusal::NotABlock),
    }
}
