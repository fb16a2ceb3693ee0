//! The area of a slot: its words and bytes, and its pages. Places are in bytes from the area's first one.
ghost use Rattle.std.specs.Prelude.{◌≡◌, ℕ, ◌+◌, ◌<◌, OnErr, ◌^◌, ◌≤◌, length, ◌↔◌, OnOk, IsErr, IsErrOf, ◌*◌};
ghost use Rattle.std.specs.Prelude.{◌-◌, ◌/◌, replicate};
ghost use Rattle.rh_defs.specs.Memory.{IsOpen, bytes, Resized, Edited};
ghost use Rattle.rh_defs.specs.Pieces.{page_size, pages_for};
ghost use Rattle.rh_defs.specs.Bytes.{word, part, with_part};
ghost use Rattle.rh_defs.proofs.SlotLaws.{Carried};

use rh_defs::sizes::{PAGE, WORD, pages_for};
use rh_store::{AreaId, Pages, StoreFault, Words, WordsMut};

/// The word at a place.
pub fn read<S: Words>(store: &S, area: AreaId, place: usize) -> usize
    requires opened { IsOpen (S.memory store.now) area.0 }
    requires within { place + WORD ≤ length (bytes (S.memory store.now) area.0) }
    ensures value { result ≡ word (bytes (S.memory store.now) area.0) place }
    ensures bound { result < 2 ^ 32 }
{
    store.word(area, place) as usize
}

/// Writes a word at a place.
#[tactic(auto, using(rh_defs::proofs::BytesLaws::word_laws, rh_defs::proofs::MemoryLaws::memory_laws))]
pub fn write<S: WordsMut>(store: &mut S, area: AreaId, place: usize, w: usize)
    requires opened { IsOpen (S.memory store.old) area.0 }
    requires within { place + WORD ≤ length (bytes (S.memory store.old) area.0) }
    requires fits { w < 2 ^ 32 }
    ensures word { word (bytes (S.memory store.new) area.0) place ≡ w }
    ensures only { Edited (S.memory store.old) (S.memory store.new) area.0 place (place + WORD) }
{
    store.set_word(area, place, w as u32);
}

/// Writes `n` zeros from a place on.
#[tactic(auto, using(rh_defs::proofs::BytesLaws::word_laws, rh_defs::proofs::MemoryLaws::memory_laws))]
pub fn clear<S: WordsMut>(store: &mut S, area: AreaId, place: usize, n: usize)
    requires opened { IsOpen (S.memory store.old) area.0 }
    requires within { place + n ≤ length (bytes (S.memory store.old) area.0) }
    ensures block { part (bytes (S.memory store.new) area.0) place n ≡ replicate n 0 }
    ensures only { Edited (S.memory store.old) (S.memory store.new) area.0 place (place + n) }
{
    store.zero(area, place, n);
}

/// Moves `n` bytes. The two ranges may overlap.
pub fn slide<S: WordsMut>(store: &mut S, area: AreaId, from: usize, to: usize, n: usize)
    requires opened { IsOpen (S.memory store.old) area.0 }
    requires source { from + n ≤ length (bytes (S.memory store.old) area.0) }
    requires target { to + n ≤ length (bytes (S.memory store.old) area.0) }
    ensures carried { Carried (bytes (S.memory store.old) area.0) (bytes (S.memory store.new) area.0) from to n }
    ensures only { Edited (S.memory store.old) (S.memory store.new) area.0 to (to + n) }
{
    if n == 0 {
        return;
    }
    if from != to {
        store.slide(area, from, to, n);
    }
}

/// Writes bytes that were lent, from a place on.
#[tactic(auto, using(rh_defs::proofs::MemoryLaws::memory_laws))]
pub fn write_bytes<S: WordsMut>(store: &mut S, area: AreaId, place: usize, from: &[u8])
    requires opened { IsOpen (S.memory store.old) area.0 }
    requires within { place + length from.now ≤ length (bytes (S.memory store.old) area.0) }
    ensures value { bytes (S.memory store.new) area.0 ≡ with_part (bytes (S.memory store.old) area.0) place from.now }
    ensures only { Edited (S.memory store.old) (S.memory store.new) area.0 place (place + length from.now) }
{
    store.copy_in(area, place, from);
}

/// Appends pages where a top lies above the last page.
pub fn room_for<S: Pages>(store: &mut S, area: AreaId, top: usize) -> Result<(), StoreFault>
    requires opened { IsOpen (S.memory store.old) area.0 }
    requires small { top < 2 ^ 40 }
    ensures ok { OnOk result (Resized (S.memory store.old) (S.memory store.new) area.0
        (length (bytes (S.memory store.old) area.0))
        (length (bytes (S.memory store.old) area.0) / page_size
        + (pages_for top - length (bytes (S.memory store.old) area.0) / page_size))) }
    ensures err { OnErr result (S.memory store.new ≡ S.memory store.old) }
    ensures refused { IsErr result ↔ ((S.memory store.old).free < pages_for top - length
        (bytes (S.memory store.old) area.0) / page_size) }
    ensures reason { IsErr result → IsErrOf result StoreFault.NoPages }
{
    let pages = store.len(area) / PAGE;
    store.grow(area, pages_for(top).saturating_sub(pages))
}

/// Appends pages up to a top.
pub fn grow_to<S: Pages>(store: &mut S, area: AreaId, top: usize) -> Result<(), StoreFault>
    requires opened { IsOpen (S.memory store.old) area.0 }
    requires more { length (bytes (S.memory store.old) area.0) ≤ page_size * pages_for top }
    requires small { top < 2 ^ 40 }
    ensures ok { OnOk result (Resized (S.memory store.old) (S.memory store.new) area.0
        (length (bytes (S.memory store.old) area.0)) (pages_for top)) }
    ensures zeros { OnOk result ((place n : ℕ) → length (bytes (S.memory store.old) area.0) ≤ place
        → place + n ≤ length (bytes (S.memory store.new) area.0)
        → part (bytes (S.memory store.new) area.0) place n ≡ replicate n 0) }
    ensures err { OnErr result (S.memory store.new ≡ S.memory store.old) }
    ensures refused { IsErr result ↔ ((S.memory store.old).free < pages_for top - length
        (bytes (S.memory store.old) area.0) / page_size) }
    ensures reason { IsErr result → IsErrOf result StoreFault.NoPages }
{
    let pages = store.len(area) / PAGE;
    store.grow(area, pages_for(top) - pages)
}

/// Gives back the pages above a top.
pub fn trim<S: Pages>(store: &mut S, area: AreaId, top: usize)
    requires opened { IsOpen (S.memory store.old) area.0 }
    requires within { top ≤ length (bytes (S.memory store.old) area.0) }
    ensures { Resized (S.memory store.old) (S.memory store.new) area.0 top (pages_for top) }
{
    let pages = store.len(area) / PAGE;
    store.shrink(area, pages - pages_for(top));
}
