//! A slot with one flex block.

ghost use Rattle.std.specs.Prelude.{◌<◌};
ghost use Rattle.rh_defs.specs.Memory.{open_below};
ghost use Rattle.rh_defs.specs.declared.sizes.TheConstants.{MAX_AREAS};

use crate::stores::{paged_store, plain_store};
use callers::{hold_bytes, take_bytes};
use rh_defs::Refusal;
use rh_slot::Slot;
use rh_store::Store;
use std::alloc::Global;
use std::io::{self, Write};

/// A slot of 8 pages holds so many bytes at most: a page, and two header words, take the others.
const MOST_HELD: usize = 28_664;

/// What is answered where bytes are taken, the bytes, and how many pages are free then.
type Taken = (Result<(), Refusal>, [u8; 6], usize);

/// Prints what is held and taken, and what isn't.
pub(crate) fn print_slots<W: Write>(alloc: Global, output: &mut W) -> io::Result<()> {
    for room in [5, 6] {
        let plain = taken(plain_store(alloc)?, room);
        let paged = taken(paged_store(alloc)?, room);
        writeln!(output, "{plain:?}\n{paged:?}")?;
    }
    let bytes = vec![in alloc; 7; MOST_HELD + 1]?;
    for held in [&bytes[1..], &bytes[..]] {
        let plain = held_of(plain_store(alloc)?, held);
        let paged = held_of(paged_store(alloc)?, held);
        writeln!(output, "{plain:?}\n{paged:?}")?;
    }
    Ok(())
}

/// Holds five bytes, and takes so many, 6 at most, twice. Answers the slot and the pages that are free, and both times.
fn taken<S: Store + Drop>(store: S, room: usize) -> Result<(Slot, usize, Taken, Taken), Refusal>
    requires { open_below (S.memory store).area MAX_AREAS < MAX_AREAS }
{
    let mut store = store;
    let slot = hold_bytes(&mut store, b"hello")?;
    let free = store.free_pages();
    let mut bytes = [1; 6];
    let room = room.min(bytes.len());
    let first = take_bytes(&mut store, slot, &mut bytes[..room]);
    let first = (first, bytes, store.free_pages());
    let second = take_bytes(&mut store, slot, &mut bytes[..room]);
    Ok((slot, free, first, (second, bytes, store.free_pages())))
}

/// Whether bytes are held, and how many pages are free then.
fn held_of<S: Store + Drop>(store: S, bytes: &[u8]) -> (Result<Slot, Refusal>, usize)
    requires { open_below (S.memory store).area MAX_AREAS < MAX_AREAS }
{
    let mut store = store;
    let bytes = &bytes[..bytes.len().min(MOST_HELD + 1)];
    let held = hold_bytes(&mut store, bytes);
    (held, store.free_pages())
}
