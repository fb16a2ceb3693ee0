//! A section of the data: the numbers that its world begins with, and the worlds that it is run over.

use crate::answer::tell;
use crate::files::{DOC, LentFile, one_file};
use crate::row::Row;
use crate::stores::{paged_store, plain_store};
use crate::worlds;
use rh_defs::{Files, Handle, Name, Ref};
use rh_tasks::World;
use std::io;

/// Prints the first line, and runs the other ones.
pub(crate) fn run<R: Print + AllocGlobal>(rt: &R, section: &str) -> io::Result<()> {
    let (first, rows) = section.split_once('\n').unwrap_or((section, ""));
    println!(rt; "{first}")?;
    let row = Row::new(first);
    let (handle, my_ref) = (row.number(1).unwrap_or(0), row.number(2).unwrap_or(0));
    let Some(doc) = Name::new(b"doc") else {
        return tell(rt, first, None);
    };
    match row.word(0).unwrap_or("") {
        "new" => over_new_worlds(rt, rows),
        "from" => over_worlds(rt, &doc, handle, my_ref, rows),
        _ => tell(rt, first, None),
    }
}

/// Runs rows over a new world without files in each store.
fn over_new_worlds<R: Print + AllocGlobal>(rt: &R, rows: &str) -> io::Result<()> {
    println!(rt; "- in a plain store")?;
    let mut world = World::new(plain_store(rt.alloc())?, Files::new(rt.alloc()));
    worlds::rows(rt, &mut world, rows)?;
    println!(rt; "- in scattered pages")?;
    let mut world = World::new(paged_store(rt.alloc())?, Files::new(rt.alloc()));
    worlds::rows(rt, &mut world, rows)
}

/// Runs rows over a world that has the file `doc` and gives these numbers next: one that keeps the file, and one that
/// is lent it.
fn over_worlds<R: Print + AllocGlobal>(
    rt: &R,
    doc: &Name,
    handle: u32,
    my_ref: u32,
    rows: &str,
) -> io::Result<()> {
    if handle == 0 || my_ref == 0 {
        return tell(rt, "start", None);
    }
    println!(rt; "- in scattered pages")?;
    let files = one_file(rt.alloc(), doc)?;
    let store = paged_store(rt.alloc())?;
    let mut world = World::with_next(store, files, Handle(handle), Ref(my_ref));
    worlds::rows(rt, &mut world, rows)?;
    println!(rt; "- in a plain store, with a file that is lent")?;
    let files = LentFile {
        name: doc,
        bytes: &DOC,
    };
    let store = plain_store(rt.alloc())?;
    let mut world = World::with_next(store, files, Handle(handle), Ref(my_ref));
    worlds::rows(rt, &mut world, rows)
}
