//! How many areas can be open and how many pages they have, and what becomes of an area that is closed.

ghost use Rattle.rh_defs.specs.Memory.{IsOpen};

use crate::careful;
use rh_store::{AreaId, Store};
use std::io;

/// Opens areas until no more can be open, and gives all pages to the first.
pub(crate) fn limits<R: Print, S: Store>(rt: &R, store: &mut S) -> io::Result<()> {
    let Ok(first) = careful::open(store) else {
        return println!(rt; "no area");
    };
    println!(rt; "open = {first:?}")?;
    for _number in 1..71u8 {
        let opened = careful::open(store);
        println!(rt; "open = {opened:?}")?;
    }
    all_pages(rt, store, first)
}

/// Gives all pages of a store to an area, and one more.
fn all_pages<R: Print, S: Store>(rt: &R, store: &mut S, id: AreaId) -> io::Result<()>
    requires { IsOpen (S.memory store.old) id.0 }
{
    let free = store.free_pages();
    let all = store.grow_check(id, free);
    let more = store.grow_check(id, free.saturating_add(1));
    println!(rt; "grow_check {free} = {all}, one more = {more}")?;
    let grown = careful::grow(store, id, free);
    let (len, left) = (store.len(id), store.free_pages());
    println!(rt; "grow {free} = {grown:?}, len = {len}, free_pages = {left}")?;
    let grown = careful::grow(store, id, 1);
    let left = store.free_pages();
    println!(rt; "grow 1 = {grown:?}, free_pages = {left}")
}

/// Closes an area with 5 pages that are written, beside one that stays, and opens one again.
pub(crate) fn closes<R: Print, S: Store>(rt: &R, store: &mut S) -> io::Result<()> {
    let kept = careful::open(store);
    println!(rt; "open = {kept:?}")?;
    let Ok(id) = careful::open(store) else {
        return println!(rt; "no area");
    };
    println!(rt; "open = {id:?}")?;
    let grown = careful::grow(store, id, 5);
    let zeroed = careful::zero(store, id, 0, 20480);
    let left = store.free_pages();
    println!(rt; "grow 5 = {grown:?}, zero = {zeroed:?}, free_pages = {left}")?;
    store.close(id);
    let left = store.free_pages();
    let opened = store.open();
    println!(rt; "close, free_pages = {left}, open = {opened:?}")
}
