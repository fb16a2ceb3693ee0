//! A heap in an area of a store.
ghost use Rattle.std.specs.Prelude.{◌≡◌, [], ◌∷◌, replicate, IfOk, OnErr};
ghost use Rattle.rh_defs.specs.Chain.{outcome_of};
ghost use Rattle.rh_defs.specs.Heap.{Hole, Used, empty_heap};
ghost use Rattle.rh_heap.specs.HeapSpans.{IsSpan, OnlySpan, heap_in};
ghost use Rattle.rh_defs.specs.declared.sizes.TheConstants.{PAGE};
ghost use Rattle.callers.specs.NewAreas.{IsNewArea, one_page};

use rh_defs::sizes::PAGE;
use rh_heap::{Span, claim, describe, init, release};
use rh_store::{Store, StoreFault, WordsMut};

/// Opens an area of one page, and makes it an empty heap. Refused, and nothing changed: `TooManyAreas` where 70 are
/// open, `NoPages` where no page is free. (OS_Heap 0.)
#[tactic(auto, using(rh_defs::proofs::MemoryLaws::memory_laws, rh_defs::proofs::MemoryLaws::pool_laws))]
pub fn start_heap<S: Store>(store: &mut S) -> Result<Span, StoreFault>
    ensures answer { outcome_of result ≡ one_page (S.memory store.old) }
    ensures span { IfOk result (IsSpan (S.memory store.new)) }
    ensures empty { IfOk result (λ span. heap_in (S.memory store.new) span ≡ empty_heap PAGE) }
    ensures area { IfOk result (λ span. (span.at ≡ 0)
        × IsNewArea (S.memory store.old) (S.memory store.new) span.area.0) }
    ensures err { OnErr result (S.memory store.new ≡ S.memory store.old) }
{
    let area = store.open()?;
    if let Err(fault) = store.grow(area, 1) {
        store.close(area);
        return Err(fault);
    }
    let span = Span { area, at: 0 };
    init(store, span, PAGE);
    Ok(span)
}

/// Claims blocks of 20 and of 100 bytes in an empty heap of one page, and releases the first. Answers where the second
/// is, the largest block that a claim would now be given, and all free bytes. (OS_Heap 2, 3 and 1.)
pub fn two_blocks<S: WordsMut>(store: &mut S, span: Span) -> (usize, usize, usize)
    requires span { IsSpan (S.memory store.old) span }
    requires empty { heap_in (S.memory store.old) span ≡ empty_heap PAGE }
    ensures span { IsSpan (S.memory store.new) span }
    ensures answer { result ≡ (44, 3948, 3976) }
    ensures left { heap_in (S.memory store.new) span ≡ record {
      segments = Hole 24 ∷ Used (replicate 100 0) ∷ [];
      end = PAGE;
    } }
    ensures only { OnlySpan (S.memory store.old) (S.memory store.new) span }
{
    let first = claim(store, span, 20).unwrap();
    let second = claim(store, span, 100).unwrap();
    release(store, span, first).unwrap();
    let (largest, free) = describe(store, span);
    (second, largest, free)
}
