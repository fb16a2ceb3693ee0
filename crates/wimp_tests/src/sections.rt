//! A section of the data: what its calls are made on, and over which stores.

use crate::answer::tell;
use crate::row::Row;
use crate::{images, queues, tables};
use rh_pages::PagedStore;
use rh_store::PlainStore;
use std::io;

/// The pages of a store.
const PAGES: usize = 16;

/// Prints the first line, and runs the other ones.
pub(crate) fn run<R: Print + AllocGlobal>(rt: &R, section: &str) -> io::Result<()> {
    let (first, rows) = section.split_once('\n').unwrap_or((section, ""));
    println!(rt; "{first}")?;
    let row = Row::new(first);
    match row.word(0).unwrap_or("") {
        "queue" => over_queues(rt, row.number(1).unwrap_or(1), rows),
        "table" => tables::rows(rt, rows),
        "messages" => over_messages(rt, rows),
        _ => tell(rt, first, None),
    }
}

/// Runs rows about a queue over each store.
fn over_queues<R: Print + AllocGlobal>(rt: &R, next_ref: u32, rows: &str) -> io::Result<()> {
    println!(rt; "- in a plain store")?;
    queues::rows(rt, PlainStore::new(rt.alloc(), PAGES)?, next_ref, rows)?;
    println!(rt; "- in scattered pages")?;
    queues::rows(rt, PagedStore::new(rt.alloc(), PAGES)?, next_ref, rows)
}

/// Runs rows about the bytes of messages.
fn over_messages<R: Print + AllocGlobal>(rt: &R, rows: &str) -> io::Result<()> {
    for line in rows.lines() {
        tell(rt, line, images::call(rt.alloc(), &Row::new(line)))?;
    }
    Ok(())
}
