//! Rows about a heap in an area of a store.

ghost use Rattle.std.specs.Prelude.{IfSome};
ghost use Rattle.rh_heap.specs.HeapSpans.{IsSpan};

use crate::answer::{placed, shown, tell};
use crate::row::Row;
use arrayvec::ArrayVec;
use rh_defs::sizes::{HEAP_FIRST, HEAP_UNIT, SEGMENTS_AT_ONCE, moved};
use rh_heap::{
    Segment, Span, block_size, check, claim, describe, end, extend_heap, holds, init, need,
    release, resize, resize_need, segment, segments_from,
};
use rh_store::{Store, Words, WordsMut};
use std::alloc::Global;
use std::io;

/// The most bytes of a heap here, which are those of a page.
const MOST: usize = 4096;

/// Makes the calls of the rows on an empty heap of so many bytes.
pub(crate) fn rows<R: Print + AllocGlobal, S: Store + Drop>(
    rt: &R,
    store: S,
    at: usize,
    length: usize,
    rows: &str,
) -> io::Result<()> {
    let mut store = store;
    let Some(span) = empty_heap(&mut store, at, length) else {
        return tell(rt, "start", None);
    };
    for line in rows.lines() {
        let answer = call(rt.alloc(), &mut store, span, &Row::new(line));
        tell(rt, line, answer)?;
    }
    Ok(())
}

/// An empty heap of so many bytes, from a place of a fresh area of one page on.
#[tactic(auto, using(rh_defs::proofs::MemoryLaws::memory_laws, rh_defs::proofs::MemoryLaws::pool_laws))]
pub(crate) fn empty_heap<S: Store>(store: &mut S, at: usize, length: usize) -> Option<Span>
    ensures { IfSome result (IsSpan (S.memory store.new)) }
{
    let Ok(area) = store.open() else {
        return None;
    };
    let Ok(()) = store.grow(area, 1) else {
        return None;
    };
    if at > MOST || length > MOST - at || length < HEAP_FIRST || length % HEAP_UNIT != 0 {
        return None;
    }
    let span = Span { area, at };
    init(store, span, length);
    Some(span)
}

/// What the call of a row answers.
pub(crate) fn call<S: WordsMut>(
    alloc: Global,
    store: &mut S,
    span: Span,
    row: &Row<'_>,
) -> Option<String>
    requires { IsSpan (S.memory store.old) span }
    ensures { IsSpan (S.memory store.new) span }
{
    match row.word(0)? {
        "claim" => placed(alloc, claim(store, span, row.number(1)?)),
        "release" => shown(alloc, release(store, span, row.size(1)?)),
        "resize" => {
            let (address, delta) = (row.size(1)?, row.delta(2)?);
            placed(alloc, resize(store, span, address, delta))
        }
        "extend" => extend(alloc, store, span, row.delta(1)?),
        word => ask(alloc, store, span, word, row),
    }
}

/// Moves the heap's end, where the area has it.
fn extend<S: WordsMut>(alloc: Global, store: &mut S, span: Span, delta: i32) -> Option<String>
    requires { IsSpan (S.memory store.old) span }
    ensures { IsSpan (S.memory store.new) span }
{
    let length = end(store, span);
    if length > MOST || span.at > MOST {
        return None;
    }
    let new = moved(length, delta);
    if new % HEAP_UNIT != 0 || span.at + new > store.len(span.area) {
        return None;
    }
    shown(alloc, extend_heap(store, span, delta))
}

/// What a question answers, by a walk.
pub(crate) fn ask<S: Words>(
    alloc: Global,
    store: &S,
    span: Span,
    word: &str,
    row: &Row<'_>,
) -> Option<String>
    requires { IsSpan (S.memory store.now) span }
{
    match word {
        "size" => shown(alloc, block_size(store, span, row.size(1)?)),
        "holds" => shown(alloc, holds(store, span, row.size(1)?, row.size(2)?)),
        "need" => shown(alloc, need(store, span, row.number(1)?)),
        "resize_need" => shown(alloc, resize_need(store, span, row.size(1)?, row.delta(2)?)),
        _ => list(alloc, store, span, word, row),
    }
}

/// What a question about all of the heap answers.
pub(crate) fn list<S: Words>(
    alloc: Global,
    store: &S,
    span: Span,
    word: &str,
    row: &Row<'_>,
) -> Option<String>
    requires { IsSpan (S.memory store.now) span }
{
    match word {
        "describe" => shown(alloc, describe(store, span)),
        "end" => shown(alloc, end(store, span)),
        "segment" => shown(alloc, segment(store, span, row.size(1)?)),
        "segments" => shown(alloc, segments(store, span, row.size(1)?)),
        "count" => shown(alloc, segments(store, span, row.size(1)?).len()),
        "bytes" => bytes(alloc, store, span),
        _ => None,
    }
}

/// A list that is to be lent, with a segment that no heap here has.
pub(crate) fn with_another() -> ArrayVec<Segment, SEGMENTS_AT_ONCE> {
    let mut segments = ArrayVec::new();
    segments.push(Segment {
        place: 9,
        size: 1,
        used: true,
    });
    segments
}

/// What the heap puts into a list that held another segment before.
fn segments<S: Words>(store: &S, span: Span, place: usize) -> ArrayVec<Segment, SEGMENTS_AT_ONCE>
    requires { IsSpan (S.memory store.now) span }
{
    let mut segments = with_another();
    segments_from(store, span, place, &mut segments);
    segments
}

/// The heap's bytes, and what the checker says of them.
fn bytes<S: Words>(alloc: Global, store: &S, span: Span) -> Option<String>
    requires { IsSpan (S.memory store.now) span }
{
    let image = image_of(alloc, store, span)?;
    let found = check(image.as_slice());
    format!(in alloc; "{image:?} {found:?}").ok()
}

/// The heap's bytes.
pub(crate) fn image_of<S: Words>(alloc: Global, store: &S, span: Span) -> Option<Vec<u8>>
    requires { IsSpan (S.memory store.now) span }
{
    let length = end(store, span);
    let mut image = vec![in alloc; 0; length].ok()?;
    store.copy_out(span.area, span.at, image.as_mut_slice());
    Some(image)
}
