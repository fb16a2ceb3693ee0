//! What is read of a world beside what its questions answer.

use crate::answer::shown;
use crate::lists;
use crate::row::Row;
use rh_defs::sizes::LONGEST_MESSAGE;
use rh_store::Store;
use rh_tasks::{NamedFiles, World};
use std::alloc::Global;

/// The most bytes that a row reads at once.
const MOST: usize = 64;

/// What a row answers that names a task by its handle, or none.
pub(crate) fn ask<S: Store, F: NamedFiles>(
    alloc: Global,
    world: &World<S, F>,
    word: &str,
    row: &Row<'_>,
) -> Option<String> {
    match word {
        "task" => task(alloc, world, row.size(1)?),
        "handle_at" => shown(alloc, world.handle_at(row.size(1)?)),
        "blocks_in" => lists::blocks_in(alloc, world, row.handle(1)?),
        "segments_in" => shown(alloc, world.segments_in(row.handle(1)?, row.number(2)?)),
        "read_slot" => read_slot(alloc, world, row),
        "read_module" => read_module(alloc, world, row),
        "module_end" => shown(alloc, world.module_end()),
        "module_segments" => shown(alloc, world.module_segments(row.number(1)?)),
        _ => ask_numbers(alloc, world, word, row),
    }
}

/// What a row answers about numbers and messages.
fn ask_numbers<S: Store, F: NamedFiles>(
    alloc: Global,
    world: &World<S, F>,
    word: &str,
    row: &Row<'_>,
) -> Option<String> {
    match word {
        "next_ref" => shown(alloc, world.next_ref()),
        "scrap" => shown(alloc, world.scrap()),
        "made_area" => shown(alloc, world.made_area(row.size(1)?)),
        "free_pages" => shown(alloc, world.free_pages()),
        "messages" => lists::messages(alloc, world),
        "first_message" => lists::first_message(alloc, world),
        "next_message" => next_message(alloc, world, row),
        _ => None,
    }
}

/// What is seen of the task at a place.
fn task<S: Store, F: NamedFiles>(alloc: Global, world: &World<S, F>, i: usize) -> Option<String> {
    let Some(task) = world.task(i) else {
        return shown(alloc, "none");
    };
    let (handle, name, buffer, manner) = (task.handle, task.name, task.buffer, task.manner);
    let (pages, budging, heap) = (task.pages, task.budging, task.heap);
    let (sending, taking) = (task.sending.len(), task.taking.len());
    let last = task.last_sent.map(|sent| (sent.letter.to, sent.my_ref));
    format!(in alloc;
        "{handle:?} {name:?} {buffer} {manner:?} {pages} {budging} {heap:?} {sending} {taking} {last:?}"
    ).ok()
}

/// So many bytes from an address of a task's slot on, read into bytes that are 1, and those after the call.
fn read_slot<S: Store, F: NamedFiles>(
    alloc: Global,
    world: &World<S, F>,
    row: &Row<'_>,
) -> Option<String> {
    let (handle, address) = (row.handle(1)?, row.number(2)?);
    let mut bytes = vec![in alloc; 1; row.size(3)?.min(MOST)].ok()?;
    let done = world.read_slot(handle, address, &mut bytes);
    format!(in alloc; "{done:?} {bytes:?}").ok()
}

/// So many bytes of a block of the module area from an offset on, read into bytes that are 1, and those after the call.
fn read_module<S: Store, F: NamedFiles>(
    alloc: Global,
    world: &World<S, F>,
    row: &Row<'_>,
) -> Option<String> {
    let (address, offset) = (row.number(1)?, row.number(2)?);
    let mut bytes = vec![in alloc; 1; row.size(3)?.min(MOST)].ok()?;
    let done = world.read_module(address, offset, &mut bytes);
    format!(in alloc; "{done:?} {bytes:?}").ok()
}

/// The message that a task would get, in a block of bytes that are 255, and the bytes of that but for the last 255s.
fn next_message<S: Store, F: NamedFiles>(
    alloc: Global,
    world: &World<S, F>,
    row: &Row<'_>,
) -> Option<String> {
    let mut block = [0xff; LONGEST_MESSAGE];
    let code = world.next_message(&row.name(1)?, &mut block);
    let written = block
        .iter()
        .rposition(|byte| *byte != 0xff)
        .map(|last| last.wrapping_add(1));
    let bytes = block.get(..written.unwrap_or(0))?;
    format!(in alloc; "{code:?} {bytes:?}").ok()
}
