//! Releases: blocks that become holes.
ghost use Rattle.std.specs.Prelude.{◌≡◌, ℕ, ◌+◌};
ghost use Rattle.rh_defs.specs.Memory.{Memory, IsOpen, Edited, bytes};
ghost use Rattle.rh_defs.specs.Chain.{no_answer};
ghost use Rattle.rh_defs.specs.Heap.{release_block, released_at};
ghost use Rattle.rh_heap.specs.HeapSpans.{IsSpan, OnlySpan, SpellsHeapIn, heap_in};
ghost use Rattle.rh_heap.specs.HeapCalls.{LeavesHeap};
ghost use Rattle.rh_heap.specs.Segments.{FoundBlock};
ghost use Rattle.rh_heap.specs.declared.layout.TheConstants.{BLOCK};

use crate::span::Span;
use crate::span::segments::{Spot, locate};
use crate::span::stretch::{Stretch, settle};
use crate::span::words::follow;
use rh_defs::HeapRefusal;
use rh_store::WordsMut;

/// Makes the segment of a block a hole, which joins those beside it, and at the base a part of the top.
#[inline(always)]
pub fn free_segment<S: WordsMut>(store: &mut S, span: Span, spot: Spot)
    requires span { IsSpan (S.memory store.old) span }
    requires found { FoundBlock span.at (heap_in (S.memory store.old) span) (spot.place + BLOCK) spot }
    ensures spells { SpellsHeapIn (S.memory store.new) span (release_block (spot.place + BLOCK)
        (heap_in (S.memory store.old) span)) }
    ensures only { OnlySpan (S.memory store.old) (S.memory store.new) span }
{
    let next = follow(store, span, spot.from);
    settle(
        store,
        span,
        Stretch {
            link: spot.link,
            low: spot.low,
            next,
            upper: spot.place + spot.size,
        },
    );
}

/// Releases the block at an address: its segment becomes a hole, which joins those beside it, and at the base a part
/// of the top. Refused (`NotABlock`) exactly where no block begins there. (OS_Heap 3.)
#[inline(always)]
pub fn release<S: WordsMut>(store: &mut S, span: Span, address: usize) -> Result<(), HeapRefusal>
    requires { IsSpan (S.memory store.old) span }
    ensures { LeavesHeap (S.memory store.old) (S.memory store.new) span
        (no_answer (released_at address (heap_in (S.memory store.old) span))) result }
{
    let Some(spot) = locate(store, span, address) else {
        return Err(HeapRefusal::NotABlock);
    };
    free_segment(store, span, spot);
    Ok(())
}
