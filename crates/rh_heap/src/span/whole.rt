//! A heap as a whole: an empty one, and where a heap ends.
ghost use Rattle.std.specs.Prelude.{◌≡◌, ℕ, ℤ, ◌+◌, ◌%◌, ◌^◌, ◌<◌, ◌≤◌, length};
ghost use Rattle.rh_defs.specs.Memory.{Memory, IsOpen, Edited, bytes};
ghost use Rattle.rh_defs.specs.Pieces.{moved};
ghost use Rattle.rh_defs.specs.Chain.{no_answer};
ghost use Rattle.rh_defs.specs.Heap.{empty_heap, extend_by};
ghost use Rattle.rh_heap.specs.HeapSpans.{IsSpan, SpellsHeapIn, bytes_in, heap_in};
ghost use Rattle.rh_heap.specs.HeapCalls.{LeavesHeap};
ghost use Rattle.rh_defs.specs.declared.sizes.TheConstants.{HEAP_FIRST, HEAP_UNIT};

use crate::span::Span;
use crate::span::words::{read, write};
use rh_defs::HeapRefusal;
use rh_defs::sizes::{HEAP_BASE, HEAP_END, HEAP_FIRST, HEAP_FREE, HEAP_SPECIAL, HEAP_WORD, moved};
use rh_store::{Words, WordsMut};

/// Makes the first `end` bytes of a span an empty heap. `end` is a multiple of 8, and at least 16. (OS_Heap 0.)
pub fn init<S: WordsMut>(store: &mut S, span: Span, end: usize)
    requires opened { IsOpen (S.memory store.old) span.area.0 }
    requires within { span.at + end ≤ length (bytes_in (S.memory store.old) span) }
    requires least { HEAP_FIRST ≤ end }
    requires multiple { end % HEAP_UNIT ≡ 0 }
    ensures heap { heap_in (S.memory store.new) span ≡ empty_heap end }
    ensures spells { SpellsHeapIn (S.memory store.new) span (empty_heap end) }
    ensures still { IsSpan (S.memory store.new) span }
    ensures only { Edited (S.memory store.old) (S.memory store.new) span.area.0 span.at (span.at + end) }
{
    write(store, span, HEAP_SPECIAL, HEAP_WORD);
    write(store, span, HEAP_FREE, 0);
    write(store, span, HEAP_BASE, HEAP_FIRST);
    write(store, span, HEAP_END, end);
}

/// The heap's end: its length in bytes.
pub fn end<S: Words>(store: &S, span: Span) -> usize
    requires { IsSpan (S.memory store.now) span }
    ensures { result ≡ (heap_in (S.memory store.now) span).end }
{
    read(store, span, HEAP_END)
}

/// Moves a heap's end by `delta` bytes, a multiple of 8. The bytes up to the new end are in the area. Refused
/// (`ExcessiveShrink`) exactly where the end would be below the last block. (OS_Heap 5.)
pub fn extend_heap<S: WordsMut>(store: &mut S, span: Span, delta: i32) -> Result<(), HeapRefusal>
    requires span { IsSpan (S.memory store.old) span }
    requires multiple { moved (heap_in (S.memory store.old) span).end delta % HEAP_UNIT ≡ 0 }
    requires within { span.at + moved (heap_in (S.memory store.old) span).end delta
        ≤ length (bytes_in (S.memory store.old) span) }
    ensures { LeavesHeap (S.memory store.old) (S.memory store.new) span
        (no_answer (extend_by delta (heap_in (S.memory store.old) span))) result }
{
    let end = moved(read(store, span, HEAP_END), delta);
    if end < read(store, span, HEAP_BASE) {
        return Err(HeapRefusal::ExcessiveShrink);
    }
    write(store, span, HEAP_END, end);
    Ok(())
}
