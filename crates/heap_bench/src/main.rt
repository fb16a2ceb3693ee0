//! Times a heap of 8,000 blocks, of which every second one is freed: 8,000 claims, each released at once.
//!
//! The word it is given is the size of those claims in bytes: 12 fit the first hole, 20 fit none and go to the top.
#![tactic(auto)]

ghost use Rattle.std.specs.Prelude.{◌≡◌, ◌+◌, ◌*◌, ◌≤◌, length, IfOk};
ghost use Rattle.rh_defs.specs.Memory.{Memory, IsOpen, bytes};
ghost use Rattle.rh_heap.specs.HeapSpans.{IsSpan};

use rh_defs::HeapRefusal;
use rh_defs::sizes::PAGE;
use rh_heap::{Span, claim, describe, init, release};
use rh_store::{PlainStore, Store, StoreFault, WordsMut};
use std::alloc::Global;
use std::env;

/// The blocks of the heap, and the rounds of claims and releases.
const COUNT: u32 = 8000;

/// The bytes of each block, which takes 16 with the word for its size.
const BLOCK: u32 = 12;

/// The pages that hold the blocks, the descriptor and some room.
const PAGES: usize = 34;

fn main(rt: HostRuntime) -> anyhow::Result<()> {
    let size = size_wanted(&rt, rt.alloc())?;
    let mut store = PlainStore::new(rt.alloc(), 64)?;
    let span = prepare(&mut store)?;
    fill(&mut store, span)?;
    thin(&mut store, span)?;
    go_round(&mut store, span, size)?;
    let (largest, total) = describe(&store, span);
    println!(rt; "largest {largest} total {total}")?;
    Ok(())
}

/// Makes an area of 34 pages an empty heap.
#[tactic(auto, using(rh_defs::proofs::MemoryLaws::memory_laws, rh_defs::proofs::MemoryLaws::pool_laws))]
fn prepare<S: Store>(store: &mut S) -> Result<Span, StoreFault>
    ensures { IfOk result (IsSpan (S.memory store.new)) }
{
    let area = store.open()?;
    store.grow(area, PAGES)?;
    let span = Span { area, at: 0 };
    init(store, span, PAGE * PAGES);
    Ok(span)
}

/// The number that the first word of the command line spells, 12 where there is none.
fn size_wanted(rt: &HostRuntime, alloc: Global) -> anyhow::Result<u32> {
    let words = env::args(rt)?.collect::<Vec<String>>(alloc)?;
    match words.get(1) {
        Some(word) => Ok(word.parse()?),
        None => Ok(BLOCK),
    }
}

/// Claims the blocks.
fn fill<S: WordsMut>(store: &mut S, span: Span) -> Result<(), HeapRefusal>
    requires { IsSpan (S.memory store.old) span }
    ensures { IsSpan (S.memory store.new) span }
{
    for _ in 0..COUNT {
        claim(store, span, BLOCK)?;
    }
    Ok(())
}

/// Releases every second block.
fn thin<S: WordsMut>(store: &mut S, span: Span) -> Result<(), HeapRefusal>
    requires { IsSpan (S.memory store.old) span }
    ensures { IsSpan (S.memory store.new) span }
{
    for pair in 0..COUNT / 2 {
        release(store, span, 20 + 32 * pair as usize)?;
    }
    Ok(())
}

/// Claims and releases blocks of this size.
fn go_round<S: WordsMut>(store: &mut S, span: Span, size: u32) -> Result<(), HeapRefusal>
    requires { IsSpan (S.memory store.old) span }
    ensures { IsSpan (S.memory store.new) span }
{
    for _ in 0..COUNT {
        let address = claim(store, span, size)?;
        release(store, span, address)?;
    }
    Ok(())
}
