//! A heap in an area of a store, and one in lent bytes.

use crate::stores::{paged_store, plain_store, take_pages};
use callers::{grow_block, start_heap, two_blocks};
use rh_heap::Span;
use rh_store::{AreaId, Store, StoreFault};
use std::alloc::Global;
use std::io::{self, Write};

/// What a heap in an area and two claims in it answer, and how many pages are free then.
type Claimed = (Span, (usize, usize, usize), usize);

/// What is answered where there is no page, how many areas are opened then, and what is answered where there is none.
type Refused = (Result<Span, StoreFault>, u8, Result<Span, StoreFault>);

/// Prints what heaps answer.
pub(crate) fn print_heaps<W: Write>(alloc: Global, output: &mut W) -> io::Result<()> {
    let plain = claimed(plain_store(alloc)?);
    let paged = claimed(paged_store(alloc)?);
    writeln!(output, "{plain:?}\n{paged:?}")?;
    let plain = refused(plain_store(alloc)?);
    let paged = refused(paged_store(alloc)?);
    writeln!(output, "{plain:?}\n{paged:?}")?;
    let mut memory = [9; 256];
    writeln!(output, "{:?}", grow_block(&mut memory))
}

fn claimed<S: Store + Drop>(store: S) -> Result<Claimed, StoreFault> {
    let mut store = store;
    let span = start_heap(&mut store)?;
    let blocks = two_blocks(&mut store, span);
    Ok((span, blocks, store.free_pages()))
}

fn refused<S: Store + Drop>(store: S) -> Result<Refused, StoreFault> {
    let mut store = store;
    take_pages(&mut store, 8)?;
    let no_page = start_heap(&mut store);
    let mut opened = 0u8;
    for number in 1..70 {
        if store.open() == Ok(AreaId(number)) {
            opened = opened.saturating_add(1);
        }
    }
    Ok((no_page, opened, start_heap(&mut store)))
}
