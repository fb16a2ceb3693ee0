//! Callers that are proved over any store by the laws of bytes and memories alone.
ghost use Rattle.std.specs.Prelude.{◌≡◌, ◌≢◌, ℕ, ◌+◌, ◌<◌, ◌≤◌, ◌↔◌, length, IsNone, IfOk, OnOk, OnErr, IsErr};
ghost use Rattle.rh_defs.specs.Bytes.{word, part};
ghost use Rattle.rh_defs.specs.Memory.{IsOpen, bytes};

use rh_defs::sizes::MAX_AREAS;
use rh_store::{AreaId, Pages, Store, StoreFault, WordsMut};

/// Exchanges the first two words of an area: the example of the crate's first page.
#[tactic(auto, using(rh_defs::proofs::BytesLaws::word_laws, rh_defs::proofs::MemoryLaws::memory_laws))]
pub(crate) fn swap_words<S: WordsMut>(store: &mut S, id: AreaId)
    requires opened { IsOpen (S.memory store.old) id.0 }
    requires room { 8 ≤ length (bytes (S.memory store.old) id.0) }
    ensures first { word (bytes (S.memory store.new) id.0) 0 ≡ word (bytes (S.memory store.old) id.0) 4 }
    ensures second { word (bytes (S.memory store.new) id.0) 4 ≡ word (bytes (S.memory store.old) id.0) 0 }
    ensures opened { IsOpen (S.memory store.new) id.0 }
    ensures len { length (bytes (S.memory store.new) id.0) ≡ length (bytes (S.memory store.old) id.0) }
{
    let first = store.word(id, 0);
    let second = store.word(id, 4);
    store.set_word(id, 0, second);
    store.set_word(id, 4, first);
}

/// Writes three words at the head of an area and copies two of them to another.
#[tactic(auto, using(rh_defs::proofs::BytesLaws::word_laws, rh_defs::proofs::MemoryLaws::memory_laws))]
pub(crate) fn stamp<S: Store>(store: &mut S, id: AreaId, id2: AreaId, w: u32) -> u32
    requires opened { IsOpen (S.memory store.old) id.0 }
    requires opened2 { IsOpen (S.memory store.old) id2.0 }
    requires apart { id.0 ≢ id2.0 }
    requires room { 12 ≤ length (bytes (S.memory store.old) id.0) }
    requires room2 { 8 ≤ length (bytes (S.memory store.old) id2.0) }
    ensures read { result ≡ w }
    ensures first { word (bytes (S.memory store.new) id.0) 0 ≡ w }
    ensures last { word (bytes (S.memory store.new) id.0) 8 ≡ 7 }
    ensures copied { part (bytes (S.memory store.new) id2.0) 0 8 ≡ part (bytes (S.memory store.new) id.0) 0 8 }
    ensures len { length (bytes (S.memory store.new) id.0) ≡ length (bytes (S.memory store.old) id.0) }
    ensures free { (S.memory store.new).free ≡ (S.memory store.old).free }
{
    store.set_word(id, 0, w);
    store.set_word(id, 4, 5);
    store.set_word(id, 8, 7);
    let first = store.word(id, 0);
    store.copy(id, 0, id2, 0, 8);
    first
}

/// Grows an area by a page and clears its second word, or changes nothing.
#[tactic(auto, using(rh_defs::proofs::BytesLaws::word_laws, rh_defs::proofs::MemoryLaws::memory_laws, rh_defs::proofs::MemoryLaws::pool_laws))]
pub(crate) fn lengthen<S: Pages>(store: &mut S, id: AreaId) -> Result<(), StoreFault>
    requires opened { IsOpen (S.memory store.old) id.0 }
    ensures opened { IsOpen (S.memory store.new) id.0 }
    ensures ok { OnOk result (length (bytes (S.memory store.new) id.0) ≡ length (bytes (S.memory store.old) id.0)
        + 4096) }
    ensures free { OnOk result ((S.memory store.new).free + 1 ≡ (S.memory store.old).free) }
    ensures err { OnErr result (S.memory store.new ≡ S.memory store.old) }
    ensures refused { IsErr result ↔ ((S.memory store.old).free ≡ 0) }
    ensures others { (j : ℕ) → j ≢ id.0 → (S.memory store.new).area j ≡ (S.memory store.old).area j }
    ensures sum { (S.memory store.new).pages ≡ (S.memory store.old).pages }
{
    store.grow(id, 1)?;
    store.zero(id, 4, 4);
    Ok(())
}

/// Opens an area and gives it a page, and closes it again where no page is free.
#[tactic(auto, using(rh_defs::proofs::MemoryLaws::pool_laws))]
pub(crate) fn make<S: Store>(store: &mut S) -> Result<AreaId, StoreFault>
    ensures closed { IfOk result (λ id. IsNone ((S.memory store.old).area id.0)) }
    ensures opened { IfOk result (λ id. IsOpen (S.memory store.new) id.0) }
    ensures len { IfOk result (λ id. length (bytes (S.memory store.new) id.0) ≡ 4096) }
    ensures number { IfOk result (λ id. id.0 < MAX_AREAS) }
{
    let id = store.open()?;
    match store.grow(id, 1) {
        Ok(()) => Ok(id),
        Err(fault) => {
            store.close(id);
            Err(fault)
        }
    }
}
