//! A block of the module area.

use crate::stores::{paged_store, plain_store, started};
use callers::{give_bytes, keep_bytes};
use rh_defs::Refusal;
use rh_store::{Store, StoreFault};
use std::alloc::Global;
use std::io::{self, Write};

/// All bytes of the 8 pages, which a block with its size word is too long for.
const TOO_MANY: usize = 32_768;

/// Where bytes are kept, the bytes that are given back, and where bytes are kept then.
type Kept = (usize, [u8; 5], usize);

/// What is answered to no bytes and to too many, and how many pages are free then.
type Refused = (Result<usize, Refusal>, Result<usize, Refusal>, usize);

/// Prints what is kept and given, and what isn't.
pub(crate) fn print_blocks<W: Write>(alloc: Global, output: &mut W) -> io::Result<()> {
    let plain = kept(plain_store(alloc)?);
    let paged = kept(paged_store(alloc)?);
    writeln!(output, "{plain:?}\n{paged:?}")?;
    let plain = refused(plain_store(alloc)?);
    let paged = refused(paged_store(alloc)?);
    writeln!(output, "{plain:?}\n{paged:?}")
}

fn kept<S: Store + Drop>(store: S) -> Result<Kept, Refusal> {
    let mut store = store;
    let Ok(module_area) = started(&mut store) else {
        return Err(Refusal::NoArea);
    };
    let address = keep_bytes(&mut store, module_area, b"hello")?;
    let mut bytes = [0; 5];
    give_bytes(&mut store, module_area, address, &mut bytes);
    let again = keep_bytes(&mut store, module_area, b"hello")?;
    Ok((address, bytes, again))
}

fn refused<S: Store + Drop>(store: S) -> Result<Refused, StoreFault> {
    let mut store = store;
    let module_area = started(&mut store)?;
    let none = keep_bytes(&mut store, module_area, b"");
    let many = keep_bytes(&mut store, module_area, &[7; TOO_MANY]);
    Ok((none, many, store.free_pages()))
}
