//! A section of the data: what its calls are made on, and over which stores.

use crate::answer::tell;
use crate::row::Row;
use crate::stores::{paged_store, plain_store, small_paged_store, small_plain_store};
use crate::{
    drawn_heaps, heaps, images, lent_heaps, lent_slots, mapped_heaps, modules, slot_images, slots,
};
use std::io;

/// The bytes of a lent slot in a section that is run over each store: those of as many pages as a store has.
const LENT: usize = 64 * 4096;

/// Prints the first line, and runs the other ones over each kind of store.
pub(crate) fn run<R: Print + AllocGlobal>(rt: &R, section: &str) -> io::Result<()> {
    let (first, rows) = section.split_once('\n').unwrap_or((section, ""));
    println!(rt; "{first}")?;
    let row = Row::new(first);
    match row.word(0).unwrap_or("") {
        "heap" => over_heaps(rt, &row, rows),
        "lent-heap" => lent_heaps::rows(rt, row.size(1).unwrap_or(0), rows),
        "slot" => over_slots(rt, rows),
        "stored-slot" => over_stores(rt, rows),
        "lent-slot" => lent_slots::rows(rt, row.size(1).unwrap_or(0), rows),
        "module-area" => over_modules(rt, rows),
        "heap-images" => over_heap_images(rt, rows),
        "slot-images" => over_slot_images(rt, rows),
        _ => tell(rt, first, None),
    }
}

/// Runs rows about a heap from a place on, with so many bytes, over each kind of store.
fn over_heaps<R: Print + AllocGlobal>(rt: &R, row: &Row<'_>, rows: &str) -> io::Result<()> {
    let (at, length) = (row.size(1).unwrap_or(0), row.size(2).unwrap_or(0));
    println!(rt; "- in a plain store")?;
    heaps::rows(rt, plain_store(rt.alloc())?, at, length, rows)?;
    println!(rt; "- in scattered pages")?;
    heaps::rows(rt, paged_store(rt.alloc())?, at, length, rows)?;
    println!(rt; "- in lent bytes")?;
    lent_heaps::rows(rt, length, rows)?;
    println!(rt; "- by a map")?;
    mapped_heaps::rows(rt, paged_store(rt.alloc())?, at, length, rows)
}

/// Runs rows about a slot over each store of 64 pages, and in as many lent bytes.
fn over_slots<R: Print + AllocGlobal>(rt: &R, rows: &str) -> io::Result<()> {
    over_stores(rt, rows)?;
    println!(rt; "- in lent bytes")?;
    lent_slots::rows(rt, LENT, rows)
}

/// Runs rows about a slot over each store of 64 pages.
fn over_stores<R: Print + AllocGlobal>(rt: &R, rows: &str) -> io::Result<()> {
    println!(rt; "- in a plain store")?;
    slots::rows(rt, plain_store(rt.alloc())?, rows)?;
    println!(rt; "- in scattered pages")?;
    slots::rows(rt, paged_store(rt.alloc())?, rows)
}

/// Runs rows about the module area over each store of 8 pages.
fn over_modules<R: Print + AllocGlobal>(rt: &R, rows: &str) -> io::Result<()> {
    println!(rt; "- in a plain store")?;
    modules::rows(rt, small_plain_store(rt.alloc())?, rows)?;
    println!(rt; "- in scattered pages")?;
    modules::rows(rt, small_paged_store(rt.alloc())?, rows)
}

/// Runs rows about bytes from anywhere as heaps; of these `drawn` compares a heap with itself under a map.
fn over_heap_images<R: Print + AllocGlobal>(rt: &R, rows: &str) -> io::Result<()> {
    for line in rows.lines() {
        let row = Row::new(line);
        if row.word(0) == Some("drawn") {
            let mut walked = plain_store(rt.alloc())?;
            let mut mapped = plain_store(rt.alloc())?;
            let alike = drawn_heaps::are_alike(rt.alloc(), &mut walked, &mut mapped);
            println!(rt; "{line} = {alike:?}")?;
        } else {
            tell(rt, line, images::call(rt.alloc(), &row))?;
        }
    }
    Ok(())
}

/// Runs rows about bytes from anywhere as slots.
fn over_slot_images<R: Print + AllocGlobal>(rt: &R, rows: &str) -> io::Result<()> {
    for line in rows.lines() {
        tell(rt, line, slot_images::call(rt.alloc(), &Row::new(line)))?;
    }
    Ok(())
}
