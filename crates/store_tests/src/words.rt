//! Calls on the words of one area that is open.
#![tactic(auto, using(crate::proofs::Kept::kept_laws))]

ghost use Rattle.std.specs.Prelude.{ℕ};
ghost use Rattle.rh_defs.specs.Memory.{IsOpen};

use crate::answer::shown;
use crate::careful;
use crate::row::Row;
use crate::sums::{are_zero, pattern, slide_in, sum};
use rh_store::{AreaId, Paged, Pages, Words, WordsMut};
use std::alloc::Global;

/// What a question about an area answers.
pub(crate) fn ask<S: Words>(alloc: Global, store: &S, id: AreaId, row: &Row<'_>) -> Option<String>
    requires { IsOpen (S.memory store.now) id.0 }
{
    match row.word(0)? {
        "len" => shown(alloc, store.len(id)),
        "word" => {
            let word = careful::word(store, id, row.size(2)?)?;
            format!(in alloc; "&{word:x}").ok()
        }
        "bytes" => bytes(alloc, store, id, row.size(2)?, row.size(3)?),
        "sum" => sum_of(alloc, store, id),
        "zeros" => shown(
            alloc,
            are_zero(contents(alloc, store, id)?.get(row.size(2)?..)?),
        ),
        "run" => beginning(alloc, careful::run(store, id, row.size(2)?)?),
        _ => None,
    }
}

/// What is left of a page from an offset on.
pub(crate) fn ask_page<S: Paged>(
    alloc: Global,
    store: &S,
    id: AreaId,
    row: &Row<'_>,
) -> Option<String>
    requires { IsOpen (S.memory store.now) id.0 }
{
    beginning(alloc, careful::rest_of_page(store, id, row.size(2)?)?)
}

/// How many bytes they are, and the first eight.
fn beginning(alloc: Global, bytes: &[u8]) -> Option<String> {
    let n = bytes.len();
    let first = &bytes[..n.min(8)];
    format!(in alloc; "{n} {first:?}").ok()
}

/// So many bytes from an offset on.
fn bytes<S: Words>(alloc: Global, store: &S, id: AreaId, at: usize, n: usize) -> Option<String>
    requires { IsOpen (S.memory store.now) id.0 }
{
    if n > 4096 {
        return None;
    }
    let mut bytes = vec![in alloc; 9; n].ok()?;
    careful::copy_out(store, id, at, &mut bytes)?;
    format!(in alloc; "{bytes:?}").ok()
}

/// All bytes of an area.
fn contents<S: Words>(alloc: Global, store: &S, id: AreaId) -> Option<Vec<u8>>
    requires { IsOpen (S.memory store.now) id.0 }
{
    let n = store.len(id);
    let mut bytes = vec![in alloc; 9; n].ok()?;
    careful::copy_out(store, id, 0, &mut bytes)?;
    Some(bytes)
}

/// How many bytes an area has, and what they add up to.
fn sum_of<S: Words>(alloc: Global, store: &S, id: AreaId) -> Option<String>
    requires { IsOpen (S.memory store.now) id.0 }
{
    let bytes = contents(alloc, store, id)?;
    let (n, sum) = (bytes.len(), sum(&bytes));
    format!(in alloc; "{n} {sum}").ok()
}

/// Writes the pattern of n bytes, and tells whether the area begins with it then.
fn put_pattern<S: WordsMut>(alloc: Global, store: &mut S, id: AreaId, n: usize) -> Option<bool>
    requires { IsOpen (S.memory store.old) id.0 }
    ensures { (n : ℕ) → IsOpen (S.memory store.old) n → IsOpen (S.memory store.new) n }
{
    let pattern = pattern(alloc, n)?;
    careful::copy_in(store, id, 0, &pattern)?;
    let bytes = contents(alloc, store, id)?;
    Some(bytes.get(..n)? == pattern.as_slice())
}

/// Moves n bytes within an area, and tells whether all of its bytes are then as the same slide leaves them in a slice.
fn slide<S: WordsMut>(
    alloc: Global,
    store: &mut S,
    id: AreaId,
    from: usize,
    to: usize,
    n: usize,
) -> Option<bool>
    requires { IsOpen (S.memory store.old) id.0 }
    ensures { (n : ℕ) → IsOpen (S.memory store.old) n → IsOpen (S.memory store.new) n }
{
    let mut model = contents(alloc, store, id)?;
    slide_in(&mut model, from, to, n)?;
    careful::slide(store, id, from, to, n)?;
    let bytes = contents(alloc, store, id)?;
    Some(bytes == model)
}

/// What a call answers that writes into an area.
pub(crate) fn change<S: WordsMut>(
    alloc: Global,
    store: &mut S,
    id: AreaId,
    row: &Row<'_>,
) -> Option<String>
    requires { IsOpen (S.memory store.old) id.0 }
    ensures { (n : ℕ) → IsOpen (S.memory store.old) n → IsOpen (S.memory store.new) n }
{
    match row.word(0)? {
        "set_word" => shown(
            alloc,
            careful::set_word(store, id, row.size(2)?, row.number(3)?)?,
        ),
        "zero" => shown(alloc, careful::zero(store, id, row.size(2)?, row.size(3)?)?),
        "copy_in" => shown(
            alloc,
            careful::copy_in(store, id, row.size(2)?, row.bytes(3))?,
        ),
        "pattern" => shown(alloc, put_pattern(alloc, store, id, row.size(2)?)?),
        "slide" => {
            let (from, to, n) = (row.size(2)?, row.size(3)?, row.size(4)?);
            shown(alloc, slide(alloc, store, id, from, to, n)?)
        }
        _ => ask(alloc, store, id, row),
    }
}

/// What a call answers that appends pages or cuts them off.
pub(crate) fn change_pages<S: Pages>(
    alloc: Global,
    store: &mut S,
    id: AreaId,
    row: &Row<'_>,
) -> Option<String>
    requires { IsOpen (S.memory store.old) id.0 }
    ensures { (n : ℕ) → IsOpen (S.memory store.old) n → IsOpen (S.memory store.new) n }
{
    match row.word(0)? {
        "grow" => shown(alloc, careful::grow(store, id, row.size(2)?)),
        "shrink" => shown(alloc, careful::shrink(store, id, row.size(2)?)?),
        "grow_check" => shown(alloc, store.grow_check(id, row.size(2)?)),
        "free_pages" => shown(alloc, store.free_pages()),
        "rest" => ask_page(alloc, store, id, row),
        _ => change(alloc, store, id, row),
    }
}
