//! Rows over the one area of bytes that are lent: to be read, to be written, and as pages of which some are free.

ghost use Rattle.rh_defs.specs.Memory.{IsOpen};

use crate::answer::tell;
use crate::row::Row;
use crate::words;
use rh_lent_heap::{LENT, Lent, LentMut};
use rh_lent_slot::{LentPages, LentPagesMut};
use rh_store::{AreaId, Paged, Pages, Words};
use std::io;

/// Asks the questions of the rows.
fn asked<R: Print + AllocGlobal, S: Words>(
    rt: &R,
    store: &S,
    id: AreaId,
    rows: &str,
) -> io::Result<()>
    requires { IsOpen (S.memory store.now) id.0 }
{
    for line in rows.lines() {
        tell(rt, line, words::ask(rt.alloc(), store, id, &Row::new(line)))?;
    }
    Ok(())
}

/// Runs the rows over seven bytes that are lent to be read, 1 to 7.
#[tactic(auto, unfolding(rh_lent_heap::specs::Lent::memory_shown, rh_lent_heap::specs::Lent::memory_over, rh_defs::specs::Memory::area_set, rh_defs::specs::Memory::bytes))]
pub(crate) fn over_bytes<R: Print + AllocGlobal>(rt: &R, rows: &str) -> io::Result<()> {
    let bytes = [1, 2, 3, 4, 5, 6, 7];
    let store = Lent { bytes: &bytes };
    asked(rt, &store, LENT, rows)
}

/// Runs the rows over the same bytes, lent to be written.
#[tactic(auto, unfolding(rh_lent_heap::specs::Lent::lent_memory, rh_lent_heap::specs::Lent::memory_over, rh_defs::specs::Memory::area_set, rh_defs::specs::Memory::bytes))]
pub(crate) fn over_bytes_mut<R: Print + AllocGlobal>(rt: &R, rows: &str) -> io::Result<()> {
    let mut bytes = [1, 2, 3, 4, 5, 6, 7];
    let store = LentMut { bytes: &mut bytes };
    asked(rt, &store, LENT, rows)
}

/// Makes the calls of the rows over the pages of an area.
fn called<R: Print + AllocGlobal, S: Pages>(
    rt: &R,
    store: &mut S,
    id: AreaId,
    rows: &str,
) -> io::Result<()>
    requires { IsOpen (S.memory store.old) id.0 }
{
    for line in rows.lines() {
        let answer = words::change_pages(rt.alloc(), store, id, &Row::new(line));
        tell(rt, line, answer)?;
    }
    Ok(())
}

/// Runs the rows over 9,000 bytes of 9, of which the first page is the area's, and one more is free.
#[tactic(auto, unfolding(rh_lent_slot::specs::LentPages::lent_pages_memory, rh_lent_slot::specs::LentPages::pages_memory_over, rh_defs::specs::Memory::area_set, rh_defs::specs::Memory::bytes))]
pub(crate) fn over_pages_mut<R: Print + AllocGlobal>(rt: &R, rows: &str) -> io::Result<()> {
    let mut bytes = vec![in rt.alloc(); 9; 9000]?;
    let mut store = LentPagesMut {
        bytes: &mut bytes,
        pages: 1,
    };
    called(rt, &mut store, LENT, rows)
}

/// Asks the questions of the rows, about pages too.
fn asked_of_pages<R: Print + AllocGlobal, S: Paged>(
    rt: &R,
    store: &S,
    id: AreaId,
    rows: &str,
) -> io::Result<()>
    requires { IsOpen (S.memory store.now) id.0 }
{
    for line in rows.lines() {
        let row = Row::new(line);
        let answer = if row.word(0) == Some("rest") {
            words::ask_page(rt.alloc(), store, id, &row)
        } else {
            words::ask(rt.alloc(), store, id, &row)
        };
        tell(rt, line, answer)?;
    }
    Ok(())
}

/// Runs the rows over 4,096 bytes of 9 and 4,904 of 1, of which two pages are lent to be read.
#[tactic(auto, unfolding(rh_lent_slot::specs::LentPages::pages_memory_shown, rh_lent_slot::specs::LentPages::pages_memory_over, rh_defs::specs::Memory::area_set, rh_defs::specs::Memory::bytes))]
pub(crate) fn over_pages<R: Print + AllocGlobal>(rt: &R, rows: &str) -> io::Result<()> {
    let mut bytes = vec![in rt.alloc(); 9; 4096]?;
    bytes.resize(9000, 1)?;
    let store = LentPages {
        bytes: &bytes,
        pages: 2,
    };
    asked_of_pages(rt, &store, LENT, rows)
}
