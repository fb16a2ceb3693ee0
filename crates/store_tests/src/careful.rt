//! Calls of a store that look, when they run, whether the bytes they name are there, and answer none where they aren't.
//!
//! Each asks that its area is open, and says that the areas that were open are open still. What makes them is proved
//! soon.
#![tactic(auto, using(crate::proofs::Kept::kept_laws))]

ghost use Rattle.std.specs.Prelude.{ℕ, IfOk};
ghost use Rattle.rh_defs.specs.Memory.{IsOpen};

use rh_store::{AreaId, Paged, Pages, Store, StoreFault, Words, WordsMut};

/// The word at an offset.
pub(crate) fn word<S: Words>(store: &S, id: AreaId, at: usize) -> Option<u32>
    requires { IsOpen (S.memory store.now) id.0 }
{
    let len = store.len(id);
    if !(at <= len && 4 <= len - at) {
        return None;
    }
    Some(store.word(id, at))
}

/// Writes a word at an offset.
pub(crate) fn set_word<S: WordsMut>(store: &mut S, id: AreaId, at: usize, word: u32) -> Option<()>
    requires { IsOpen (S.memory store.old) id.0 }
    ensures { (n : ℕ) → IsOpen (S.memory store.old) n → IsOpen (S.memory store.new) n }
{
    let len = store.len(id);
    if !(at <= len && 4 <= len - at) {
        return None;
    }
    store.set_word(id, at, word);
    Some(())
}

/// Writes n zeros from an offset on.
pub(crate) fn zero<S: WordsMut>(store: &mut S, id: AreaId, at: usize, n: usize) -> Option<()>
    requires { IsOpen (S.memory store.old) id.0 }
    ensures { (n : ℕ) → IsOpen (S.memory store.old) n → IsOpen (S.memory store.new) n }
{
    let len = store.len(id);
    if !(at <= len && n <= len - at) {
        return None;
    }
    store.zero(id, at, n);
    Some(())
}

/// Writes bytes from an offset on.
pub(crate) fn copy_in<S: WordsMut>(store: &mut S, id: AreaId, at: usize, from: &[u8]) -> Option<()>
    requires { IsOpen (S.memory store.old) id.0 }
    ensures { (n : ℕ) → IsOpen (S.memory store.old) n → IsOpen (S.memory store.new) n }
{
    let len = store.len(id);
    if !(at <= len && from.len() <= len - at) {
        return None;
    }
    store.copy_in(id, at, from);
    Some(())
}

/// Fills a buffer with the bytes from an offset on.
pub(crate) fn copy_out<S: Words>(store: &S, id: AreaId, at: usize, to: &mut [u8]) -> Option<()>
    requires { IsOpen (S.memory store.now) id.0 }
{
    let len = store.len(id);
    if !(at <= len && to.len() <= len - at) {
        return None;
    }
    store.copy_out(id, at, to);
    Some(())
}

/// Moves n bytes within an area.
pub(crate) fn slide<S: WordsMut>(
    store: &mut S,
    id: AreaId,
    from: usize,
    to: usize,
    n: usize,
) -> Option<()>
    requires { IsOpen (S.memory store.old) id.0 }
    ensures { (n : ℕ) → IsOpen (S.memory store.old) n → IsOpen (S.memory store.new) n }
{
    let len = store.len(id);
    if !(from <= len && n <= len - from && to <= len && n <= len - to) {
        return None;
    }
    store.slide(id, from, to, n);
    Some(())
}

/// Copies n bytes to another area, or to a place of the same that they don't reach.
pub(crate) fn copy<S: Store>(
    store: &mut S,
    id: AreaId,
    at: usize,
    id2: AreaId,
    at2: usize,
    n: usize,
) -> Option<()>
    requires source { IsOpen (S.memory store.old) id.0 }
    requires target { IsOpen (S.memory store.old) id2.0 }
    ensures { (n : ℕ) → IsOpen (S.memory store.old) n → IsOpen (S.memory store.new) n }
{
    let len = store.len(id);
    let len2 = store.len(id2);
    if !(at <= len && n <= len - at && at2 <= len2 && n <= len2 - at2) {
        return None;
    }
    if !(id.0 != id2.0 || at + n <= at2 || at2 + n <= at) {
        return None;
    }
    store.copy(id, at, id2, at2, n);
    Some(())
}

/// Bytes that lie side by side from an offset on.
pub(crate) fn run<'s, S: Words>(store: &'s S, id: AreaId, at: usize) -> Option<&'s [u8]>
    requires { IsOpen (S.memory store.now) id.0 }
{
    if !(at < store.len(id)) {
        return None;
    }
    Some(store.run(id, at))
}

/// The bytes from an offset up to the end of its page.
pub(crate) fn rest_of_page<'s, S: Paged>(store: &'s S, id: AreaId, at: usize) -> Option<&'s [u8]>
    requires { IsOpen (S.memory store.now) id.0 }
{
    if !(at < store.len(id)) {
        return None;
    }
    Some(store.rest_of_page(id, at))
}

/// Appends pages, or answers that too few are free.
pub(crate) fn grow<S: Pages>(store: &mut S, id: AreaId, pages: usize) -> Result<(), StoreFault>
    requires { IsOpen (S.memory store.old) id.0 }
    ensures { (n : ℕ) → IsOpen (S.memory store.old) n → IsOpen (S.memory store.new) n }
{
    store.grow(id, pages)
}

/// Cuts pages off an area's end.
pub(crate) fn shrink<S: Pages>(store: &mut S, id: AreaId, pages: usize) -> Option<()>
    requires { IsOpen (S.memory store.old) id.0 }
    ensures { (n : ℕ) → IsOpen (S.memory store.old) n → IsOpen (S.memory store.new) n }
{
    if !(pages <= store.len(id) / 4096) {
        return None;
    }
    store.shrink(id, pages);
    Some(())
}

/// Opens an area.
pub(crate) fn open<S: Store>(store: &mut S) -> Result<AreaId, StoreFault>
    ensures opened { IfOk result (λ id. IsOpen (S.memory store.new) id.0) }
    ensures others { (n : ℕ) → IsOpen (S.memory store.old) n → IsOpen (S.memory store.new) n }
{
    store.open()
}
