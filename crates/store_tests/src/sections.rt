//! A section of the data: what its calls are made on, and over which stores.

use crate::answer::tell;
use crate::row::Row;
use crate::{called, lent, limits, peaks, places, regions, stores};
use rh_pages::PagedStore;
use rh_store::{Pages, PlainStore, StoreFault};
use std::io;

/// The pages of a store.
const PAGES: usize = 8;

/// Prints the first line, and runs the other ones.
pub(crate) fn run<R: Print + AllocGlobal>(rt: &R, section: &str) -> io::Result<()> {
    let (first, rows) = section.split_once('\n').unwrap_or((section, ""));
    println!(rt; "{first}")?;
    let row = Row::new(first);
    match row.word(0).unwrap_or("") {
        "store" => over_stores(rt, rows),
        "region" => regions::rows(rt, row.size(1).unwrap_or(0), rows),
        "numbers" => peaks::rows(rt, rows),
        "limits" => limits_of_stores(rt),
        "closing" => areas_that_close(rt),
        "callers" => callers(rt),
        "places" => places::places(rt, &mut PagedStore::new(rt.alloc(), PAGES)?),
        "many-pages" => many_pages(rt),
        "texts" => texts(rt),
        _ => over_lent(rt, first, &row, rows),
    }
}

/// Runs rows over bytes that are lent.
fn over_lent<R: Print + AllocGlobal>(
    rt: &R,
    first: &str,
    row: &Row<'_>,
    rows: &str,
) -> io::Result<()> {
    match row.word(0).unwrap_or("") {
        "lent-bytes" => {
            println!(rt; "- to be read")?;
            lent::over_bytes(rt, rows)?;
            println!(rt; "- to be written")?;
            lent::over_bytes_mut(rt, rows)
        }
        "lent-page" => lent::over_pages_mut(rt, rows),
        "lent-pages" => lent::over_pages(rt, rows),
        _ => tell(rt, first, None),
    }
}

/// Runs rows over each store.
fn over_stores<R: Print + AllocGlobal>(rt: &R, rows: &str) -> io::Result<()> {
    println!(rt; "- in a plain store")?;
    stores::rows(rt, PlainStore::new(rt.alloc(), PAGES)?, rows)?;
    println!(rt; "- in scattered pages")?;
    stores::rows(rt, PagedStore::new(rt.alloc(), PAGES)?, rows)
}

fn limits_of_stores<R: Print + AllocGlobal>(rt: &R) -> io::Result<()> {
    println!(rt; "- in a plain store")?;
    limits::limits(rt, &mut PlainStore::new(rt.alloc(), PAGES)?)?;
    println!(rt; "- in scattered pages")?;
    limits::limits(rt, &mut PagedStore::new(rt.alloc(), PAGES)?)
}

fn areas_that_close<R: Print + AllocGlobal>(rt: &R) -> io::Result<()> {
    println!(rt; "- in a plain store")?;
    limits::closes(rt, &mut PlainStore::new(rt.alloc(), PAGES)?)?;
    println!(rt; "- in scattered pages")?;
    limits::closes(rt, &mut PagedStore::new(rt.alloc(), PAGES)?)
}

fn callers<R: Print + AllocGlobal>(rt: &R) -> io::Result<()> {
    println!(rt; "- in a plain store")?;
    called::callers_run(rt, &mut PlainStore::new(rt.alloc(), PAGES)?)?;
    println!(rt; "- in scattered pages")?;
    called::callers_run(rt, &mut PagedStore::new(rt.alloc(), PAGES)?)
}

/// Stores of as many pages as they may have.
fn many_pages<R: Print + AllocGlobal>(rt: &R) -> io::Result<()> {
    let plain = PlainStore::new(rt.alloc(), 256)?.free_pages();
    let paged = PagedStore::new(rt.alloc(), 1024)?.free_pages();
    println!(rt; "plain {plain}, scattered {paged}")
}

/// The faults as sentences.
fn texts<R: Print>(rt: &R) -> io::Result<()> {
    println!(rt; "{}; {}", StoreFault::TooManyAreas, StoreFault::NoPages)
}
