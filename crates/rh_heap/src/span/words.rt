//! The words and bytes of a heap in an area. Places are in bytes from the heap's first one.
ghost use Rattle.std.specs.Prelude.{◌≡◌, ◌≢◌, ℕ, ◌+◌, ◌-◌, ◌^◌, ◌<◌, ◌≤◌, length, replicate};
ghost use Rattle.rh_defs.specs.Bytes.{word, part, put_word};
ghost use Rattle.rh_defs.specs.Memory.{Memory, IsOpen, Edited, bytes};
ghost use Rattle.rh_heap.specs.HeapSpans.{bytes_in};
ghost use Rattle.rh_defs.specs.HeapParts.{LinksTo};
ghost use Rattle.rh_defs.specs.declared.sizes.TheConstants.{WORD};
ghost use Rattle.rh_heap.specs.declared.layout.TheConstants.{HOLE_SIZE};

use crate::layout::HOLE_SIZE;
use crate::span::Span;
use rh_defs::sizes::WORD;
use rh_store::bytes::word_in;
use rh_store::{Words, WordsMut};

/// The word at a place.
pub fn read<S: Words>(store: &S, span: Span, place: usize) -> usize
    requires opened { IsOpen (S.memory store.now) span.area.0 }
    requires within { span.at + place + WORD ≤ length (bytes_in (S.memory store.now) span) }
    ensures value { result ≡ word (bytes_in (S.memory store.now) span) (span.at + place) }
    ensures bound { result < 2 ^ 32 }
{
    store.word(span.area, span.at + place) as usize
}

/// Writes a word at a place.
#[tactic(auto, using(rh_defs::proofs::BytesLaws::word_laws, rh_defs::proofs::MemoryLaws::memory_laws))]
pub fn write<S: WordsMut>(store: &mut S, span: Span, place: usize, w: usize)
    requires opened { IsOpen (S.memory store.old) span.area.0 }
    requires within { span.at + place + WORD ≤ length (bytes_in (S.memory store.old) span) }
    requires fits { w < 2 ^ 32 }
    ensures value { word (bytes_in (S.memory store.new) span) (span.at + place) ≡ w }
    ensures only { Edited (S.memory store.old) (S.memory store.new) span.area.0 (span.at + place)
        (span.at + place + WORD) }
{
    store.set_word(span.area, span.at + place, w as u32);
}

/// Writes `n` zeros from a place on.
#[tactic(auto, using(rh_defs::proofs::BytesLaws::word_laws, rh_defs::proofs::MemoryLaws::memory_laws))]
pub fn clear<S: WordsMut>(store: &mut S, span: Span, place: usize, n: usize)
    requires opened { IsOpen (S.memory store.old) span.area.0 }
    requires within { span.at + place + n ≤ length (bytes_in (S.memory store.old) span) }
    ensures zeros { part (bytes_in (S.memory store.new) span) (span.at + place) n ≡ replicate n 0 }
    ensures only { Edited (S.memory store.old) (S.memory store.new) span.area.0 (span.at + place)
        (span.at + place + n) }
{
    store.zero(span.area, span.at + place, n);
}

/// The place of the hole to which the link at `from` leads, or 0 for none.
pub fn follow<S: Words>(store: &S, span: Span, from: usize) -> usize
    requires opened { IsOpen (S.memory store.now) span.area.0 }
    requires within { span.at + from + WORD ≤ length (bytes_in (S.memory store.now) span) }
    ensures { LinksTo (bytes_in (S.memory store.now) span) span.at (span.at + from) result }
{
    let link = read(store, span, from);
    if link == 0 { 0 } else { from + link }
}

/// Where the link of a hole leads, 0 for nowhere, and the hole's size: by one look, where both words lie side by side.
#[inline(always)]
pub fn read_hole<S: Words>(store: &S, span: Span, place: usize) -> (usize, usize)
    requires opened { IsOpen (S.memory store.now) span.area.0 }
    requires within { span.at + place + HOLE_SIZE + WORD ≤ length (bytes_in (S.memory store.now) span) }
    ensures next { LinksTo (bytes_in (S.memory store.now) span) span.at (span.at + place) result.0 }
    ensures size { result.1 ≡ word (bytes_in (S.memory store.now) span) (span.at + (place + HOLE_SIZE)) }
    ensures bound { result.1 < 2 ^ 32 }
{
    let run = store.run(span.area, span.at + place);
    if run.len() < HOLE_SIZE + WORD {
        return (
            follow(store, span, place),
            read(store, span, place + HOLE_SIZE),
        );
    }
    let link = word_in(run, 0) as usize;
    let next = if link == 0 { 0 } else { place + link };
    (next, word_in(run, HOLE_SIZE) as usize)
}

/// Makes the link at `from` lead to a hole further on, or nowhere where `to` is 0.
pub fn write_link<S: WordsMut>(store: &mut S, span: Span, from: usize, to: usize)
    requires opened { IsOpen (S.memory store.old) span.area.0 }
    requires within { span.at + from + WORD ≤ length (bytes_in (S.memory store.old) span) }
    requires ahead { to ≢ 0 → from < to }
    requires fits { to < 2 ^ 32 }
    ensures links { LinksTo (bytes_in (S.memory store.new) span) span.at (span.at + from) to }
    ensures only { Edited (S.memory store.old) (S.memory store.new) span.area.0 (span.at + from)
        (span.at + from + WORD) }
{
    write(store, span, from, if to == 0 { 0 } else { to - from });
}

/// Copies `n` bytes of a heap from one place to another.
pub fn move_bytes<S: WordsMut>(store: &mut S, span: Span, from: usize, to: usize, n: usize)
    requires opened { IsOpen (S.memory store.old) span.area.0 }
    requires source { span.at + from + n ≤ length (bytes_in (S.memory store.old) span) }
    requires target { span.at + to + n ≤ length (bytes_in (S.memory store.old) span) }
    ensures bytes { part (bytes_in (S.memory store.new) span) (span.at + to) n
        ≡ part (bytes_in (S.memory store.old) span) (span.at + from) n }
    ensures only { Edited (S.memory store.old) (S.memory store.new) span.area.0 (span.at + to) (span.at + to + n) }
{
    store.slide(span.area, span.at + from, span.at + to, n);
}
