//! Rows about a heap with a map of where its segments begin, by which its blocks are found: the calls of heaps.rt.

ghost use Rattle.std.specs.Prelude.{◌≡◌, length};
ghost use Rattle.rh_heap.specs.HeapSpans.{IsSpan, heap_in};
ghost use Rattle.rh_store.specs.Starts.{IsIndex};

use crate::answer::{placed, shown, tell};
use crate::heaps;
use crate::row::Row;
use rh_heap::{
    Span, block_size_in, claim_in, end, holds_in, index, release_in, resize_in, resize_need_in,
};
use rh_store::{Store, Words, WordsMut};
use std::alloc::Global;
use std::io;

/// The words of a map: two for each 512 bytes of a page.
pub(crate) const MAP: usize = 16;

/// The bytes that such a map can be about.
const MOST: usize = 4096;

/// Makes the calls of the rows on an empty heap of so many bytes. At last it is told whether the map is the heap's.
pub(crate) fn rows<R: Print + AllocGlobal, S: Store + Drop>(
    rt: &R,
    store: S,
    at: usize,
    length: usize,
    rows: &str,
) -> io::Result<()> {
    let mut store = store;
    let Some(span) = heaps::empty_heap(&mut store, at, length) else {
        return tell(rt, "start", None);
    };
    if end(&store, span) > MOST {
        return tell(rt, "start", None);
    }
    let mut starts = [0; MAP];
    index(&store, span, &mut starts);
    for line in rows.lines() {
        let answer = call(rt.alloc(), &mut store, span, &mut starts, &Row::new(line));
        tell(rt, line, answer)?;
    }
    let fresh = is_fresh(&store, span, &starts);
    println!(rt; "the map is the heap's: {fresh}")
}

/// What the call of a row answers.
pub(crate) fn call<S: WordsMut>(
    alloc: Global,
    store: &mut S,
    span: Span,
    starts: &mut [u64],
    row: &Row<'_>,
) -> Option<String>
    requires span { IsSpan (S.memory store.old) span }
    requires starts { IsIndex starts.old (heap_in (S.memory store.old) span) }
    ensures span { IsSpan (S.memory store.new) span }
    ensures starts { IsIndex starts.new (heap_in (S.memory store.new) span) }
    ensures long { length starts.new ≡ length starts.old }
{
    match row.word(0)? {
        "claim" => placed(alloc, claim_in(store, span, starts, row.number(1)?)),
        "release" => shown(alloc, release_in(store, span, starts, row.size(1)?)),
        "resize" => {
            let (address, delta) = (row.size(1)?, row.delta(2)?);
            placed(alloc, resize_in(store, span, starts, address, delta))
        }
        word => ask(alloc, store, span, starts, word, row),
    }
}

/// What a question answers, by the map where there is such a call.
fn ask<S: Words>(
    alloc: Global,
    store: &S,
    span: Span,
    starts: &[u64],
    word: &str,
    row: &Row<'_>,
) -> Option<String>
    requires span { IsSpan (S.memory store.now) span }
    requires starts { IsIndex starts.now (heap_in (S.memory store.now) span) }
{
    match word {
        "size" => shown(alloc, block_size_in(store, span, starts, row.size(1)?)),
        "holds" => shown(
            alloc,
            holds_in(store, span, starts, row.size(1)?, row.size(2)?),
        ),
        "resize_need" => {
            let (address, delta) = (row.size(1)?, row.delta(2)?);
            shown(alloc, resize_need_in(store, span, starts, address, delta))
        }
        _ => heaps::ask(alloc, store, span, word, row),
    }
}

/// Whether the map is the one that is made anew of the heap.
pub(crate) fn is_fresh<S: Words>(store: &S, span: Span, starts: &[u64]) -> bool
    requires { IsSpan (S.memory store.now) span }
{
    if end(store, span) > MOST {
        return false;
    }
    let mut fresh = [u64::MAX; MAP];
    index(store, span, &mut fresh);
    starts == fresh.as_slice()
}
