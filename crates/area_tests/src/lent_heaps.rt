//! Rows about a heap in bytes that are lent: the calls of heaps.rt, each on those bytes.

ghost use Rattle.std.specs.Prelude.{vec_items, IfSome};
ghost use Rattle.rh_lent_heap.specs.Heaps.{IsHeapBytes};

use crate::answer::{placed, shown, tell};
use crate::row::Row;
use rh_defs::sizes::{HEAP_FIRST, HEAP_UNIT, moved};
use rh_heap::check;
use rh_lent_heap::heap;
use std::alloc::Global;
use std::io;

/// The most bytes of a heap here.
const MOST: usize = 8_388_608;

/// Makes the calls of the rows on an empty heap of so many bytes.
pub(crate) fn rows<R: Print + AllocGlobal>(rt: &R, length: usize, rows: &str) -> io::Result<()> {
    let Some(mut bytes) = empty_heap(rt.alloc(), length) else {
        return tell(rt, "start", None);
    };
    for line in rows.lines() {
        let answer = call(rt.alloc(), &mut bytes, &Row::new(line));
        tell(rt, line, answer)?;
    }
    Ok(())
}

/// An empty heap of so many bytes.
fn empty_heap(alloc: Global, length: usize) -> Option<Vec<u8>>
    ensures { IfSome result (λ bytes. IsHeapBytes (vec_items bytes)) }
{
    if length > MOST || length < HEAP_FIRST || length % HEAP_UNIT != 0 {
        return None;
    }
    let mut bytes = vec![in alloc; 0; length].ok()?;
    heap::init(&mut bytes);
    Some(bytes)
}

/// What the call of a row answers.
fn call(alloc: Global, memory: &mut [u8], row: &Row<'_>) -> Option<String>
    requires { IsHeapBytes memory.old }
    ensures { IsHeapBytes memory.new }
{
    match row.word(0)? {
        "claim" => placed(alloc, heap::claim(memory, row.number(1)?)),
        "release" => shown(alloc, heap::release(memory, row.size(1)?)),
        "resize" => {
            let (address, delta) = (row.size(1)?, row.delta(2)?);
            placed(alloc, heap::resize(memory, address, delta))
        }
        "extend" => extend(alloc, memory, row.delta(1)?),
        word => ask(alloc, memory, word, row),
    }
}

/// Moves the heap's end, where the bytes have it.
fn extend(alloc: Global, memory: &mut [u8], delta: i32) -> Option<String>
    requires { IsHeapBytes memory.old }
    ensures { IsHeapBytes memory.new }
{
    let length = heap::end(memory);
    if length > MOST {
        return None;
    }
    let new = moved(length, delta);
    if new % HEAP_UNIT != 0 || new > memory.len() {
        return None;
    }
    shown(alloc, heap::extend_heap(memory, delta))
}

/// What a question answers.
fn ask(alloc: Global, memory: &[u8], word: &str, row: &Row<'_>) -> Option<String>
    requires { IsHeapBytes memory.now }
{
    match word {
        "size" => shown(alloc, heap::block_size(memory, row.size(1)?)),
        "holds" => shown(alloc, heap::holds(memory, row.size(1)?, row.size(2)?)),
        "need" => shown(alloc, heap::need(memory, row.number(1)?)),
        "resize_need" => shown(
            alloc,
            heap::resize_need(memory, row.size(1)?, row.delta(2)?),
        ),
        "describe" => shown(alloc, heap::describe(memory)),
        "end" => shown(alloc, heap::end(memory)),
        "segment" => shown(alloc, heap::segment(memory, row.size(1)?)),
        "segments" => shown(alloc, heap::segments_from(memory, row.size(1)?)),
        "count" => shown(alloc, heap::segments_from(memory, row.size(1)?).len()),
        "bytes" => bytes(alloc, memory),
        _ => None,
    }
}

/// The heap's bytes, and what the checker says of them.
fn bytes(alloc: Global, memory: &[u8]) -> Option<String>
    requires { IsHeapBytes memory.now }
{
    let image = memory.get(..heap::end(memory))?;
    let found = check(image);
    format!(in alloc; "{image:?} {found:?}").ok()
}
