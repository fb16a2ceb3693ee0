//! The callers that are proved over any store by the laws alone, each called once.

use crate::callers::{lengthen, make, stamp, swap_words};
use rh_store::{Store, Words, WordsMut};
use std::io;

/// What the callers do over a fresh store of 8 pages.
#[tactic(auto, using(rh_defs::proofs::BytesLaws::word_laws, rh_defs::proofs::MemoryLaws::memory_laws, rh_defs::proofs::MemoryLaws::pool_laws))]
pub(crate) fn callers_run<R: Print, S: Store>(rt: &R, store: &mut S) -> io::Result<()> {
    let Ok(id) = make(store) else {
        return println!(rt; "make = none");
    };
    let Ok(()) = lengthen(store, id) else {
        return println!(rt; "lengthen = none");
    };
    let (len, left) = (store.len(id), store.free_pages());
    store.set_word(id, 0, 17);
    swap_words(store, id);
    let second = store.word(id, 4);
    let Ok(id2) = store.open() else {
        return println!(rt; "open = none");
    };
    let Ok(()) = store.grow(id2, 1) else {
        return println!(rt; "grow = none");
    };
    let first = stamp(store, id, id2, 258);
    println!(rt; "made {len} bytes, {left} pages left, swapped {second}, stamped {first}")
}
