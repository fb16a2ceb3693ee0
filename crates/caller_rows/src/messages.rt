//! A message from one task to another.

use crate::stores::{paged_store, plain_store, started, take_pages};
use callers::{ask_for_bytes, two_tasks};
use rh_defs::{Event, Refusal};
use rh_store::{Store, StoreFault};
use std::alloc::Global;
use std::io::{self, Write};

/// The bytes of the largest block in a module area of one page.
const WHOLE: u32 = 4076;

/// What is polled, or why nothing was sent.
type Polled = Result<Option<Event>, Refusal>;

/// Prints what is polled, and what is refused where there is no room.
pub(crate) fn print_messages<W: Write>(alloc: Global, output: &mut W) -> io::Result<()> {
    let plain = polled(plain_store(alloc)?);
    let paged = polled(paged_store(alloc)?);
    writeln!(output, "{plain:?}\n{paged:?}")?;
    let plain = refused(plain_store(alloc)?);
    let paged = refused(paged_store(alloc)?);
    writeln!(output, "{plain:?}\n{paged:?}")
}

fn polled<S: Store + Drop>(store: S) -> Result<Polled, StoreFault> {
    let mut store = store;
    let module_area = started(&mut store)?;
    let mut queue = two_tasks();
    Ok(ask_for_bytes(&mut store, module_area, &mut queue, 0x9008, 100))
}

/// Where the first block of a whole page is claimed, and what is polled then.
fn refused<S: Store + Drop>(store: S) -> Result<(Result<usize, Refusal>, Polled), StoreFault> {
    let mut store = store;
    take_pages(&mut store, 7)?;
    let module_area = started(&mut store)?;
    let mut queue = two_tasks();
    let claimed = module_area.claim(&mut store, WHOLE);
    let asked = ask_for_bytes(&mut store, module_area, &mut queue, 0x9008, 100);
    Ok((claimed, asked))
}
