//! Rows over a store with two areas that are open, `x` and `y`.

ghost use Rattle.std.specs.Prelude.{ℕ, IfSome};
ghost use Rattle.rh_defs.specs.Memory.{IsOpen};

use crate::answer::{shown, tell};
use crate::row::Row;
use crate::{careful, words};
use rh_store::{AreaId, Store};
use std::alloc::Global;
use std::io;

/// Makes the calls of the rows over a fresh store.
pub(crate) fn rows<R: Print + AllocGlobal, S: Store + Drop>(
    rt: &R,
    store: S,
    rows: &str,
) -> io::Result<()> {
    let mut store = store;
    let Some((x, y)) = two_areas(&mut store) else {
        return tell(rt, "open", None);
    };
    for line in rows.lines() {
        let answer = call(rt.alloc(), &mut store, x, y, &Row::new(line));
        tell(rt, line, answer)?;
    }
    Ok(())
}

/// Two areas without a page.
fn two_areas<S: Store>(store: &mut S) -> Option<(AreaId, AreaId)>
    ensures first { IfSome result (λ two. IsOpen (S.memory store.new) two.0.0) }
    ensures second { IfSome result (λ two. IsOpen (S.memory store.new) two.1.0) }
{
    let Ok(x) = careful::open(store) else {
        return None;
    };
    let Ok(y) = careful::open(store) else {
        return None;
    };
    Some((x, y))
}

/// What the call of a row answers, of which the first word says what is done, and the second in which area.
fn call<S: Store>(
    alloc: Global,
    store: &mut S,
    x: AreaId,
    y: AreaId,
    row: &Row<'_>,
) -> Option<String>
    requires x { IsOpen (S.memory store.old) x.0 }
    requires y { IsOpen (S.memory store.old) y.0 }
    ensures { (n : ℕ) → IsOpen (S.memory store.old) n → IsOpen (S.memory store.new) n }
{
    if row.word(0)? == "copy" {
        return copy(alloc, store, x, y, row);
    }
    if row.word(1) == Some("y") {
        return words::change_pages(alloc, store, y, row);
    }
    words::change_pages(alloc, store, x, row)
}

/// Copies bytes from one area to the other, or within `x`.
fn copy<S: Store>(
    alloc: Global,
    store: &mut S,
    x: AreaId,
    y: AreaId,
    row: &Row<'_>,
) -> Option<String>
    requires x { IsOpen (S.memory store.old) x.0 }
    requires y { IsOpen (S.memory store.old) y.0 }
    ensures { (n : ℕ) → IsOpen (S.memory store.old) n → IsOpen (S.memory store.new) n }
{
    let (from, to, n) = (row.size(2)?, row.size(4)?, row.size(5)?);
    let done = match (row.word(1)?, row.word(3)?) {
        ("x", "y") => careful::copy(store, x, from, y, to, n),
        ("y", "x") => careful::copy(store, y, from, x, to, n),
        ("x", "x") => careful::copy(store, x, from, x, to, n),
        _ => return None,
    };
    shown(alloc, done?)
}
