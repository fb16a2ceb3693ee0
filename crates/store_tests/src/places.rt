//! Where the pages of a paged store stand, and their numbers.

ghost use Rattle.rh_defs.specs.Memory.{IsOpen};
ghost use Rattle.rh_pages.specs.Paged.{paged_memory};

use crate::careful;
use rh_pages::PagedStore;
use rh_store::{AreaId, Pages, Sited, Words};
use std::io;

/// The bytes of a page.
const PAGE: usize = 4096;

/// Grows two areas in turns, and prints where the pages of the first stand.
pub(crate) fn places<R: Print>(rt: &R, store: &mut PagedStore) -> io::Result<()> {
    let Ok(x) = careful::open(store) else {
        return println!(rt; "no area");
    };
    let Ok(y) = careful::open(store) else {
        return println!(rt; "no second area");
    };
    let first = careful::grow(store, x, 1);
    let second = careful::grow(store, y, 1);
    let third = careful::grow(store, x, 1);
    let written = careful::set_word(store, x, 4104, 0x44332211);
    println!(rt; "grown {first:?} {second:?} {third:?}, written {written:?}")?;
    tell_place(rt, store, x, y)?;
    tell_number(rt, store, x)
}

/// Prints the place of the second page of an area beside those of its first and of another's.
fn tell_place<R: Print>(rt: &R, store: &PagedStore, x: AreaId, y: AreaId) -> io::Result<()>
    requires x { IsOpen (paged_memory store.now) x.0 }
    requires y { IsOpen (paged_memory store.now) y.0 }
{
    if store.len(x) <= PAGE || store.len(y) == 0 {
        return println!(rt; "no such page");
    }
    let (place, before, other) = (store.place(x, 1), store.place(x, 0), store.place(y, 0));
    let (whole, moved) = (place % PAGE == 0, place != before && place != other);
    println!(rt; "whole pages: {whole}, apart: {moved}")?;
    let region = store.region();
    let len = region.len();
    if place > len || len - place < 12 {
        return println!(rt; "no such place");
    }
    let word = region.word(place + 8);
    println!(rt; "region of {len} bytes, with &{word:x} there")
}

/// Prints whether the second page of an area has the number of its place, counted from the region's end, and one of its
/// own.
fn tell_number<R: Print>(rt: &R, store: &PagedStore, x: AreaId) -> io::Result<()>
    requires { IsOpen (paged_memory store.now) x.0 }
{
    if store.len(x) <= PAGE || store.free_pages() == 0 {
        return println!(rt; "no such page");
    }
    let (number, before, free) = (store.page(x, 1), store.page(x, 0), store.free_page(0));
    let above = number.wrapping_add(1).wrapping_mul(PAGE);
    let same = store.region().len().wrapping_sub(above) == store.place(x, 1);
    let apart = number != before && free != number && free != before;
    let small = free < 8;
    println!(rt; "number of its place: {same}, apart: {apart}, below 8: {small}")
}
