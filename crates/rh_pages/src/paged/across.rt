//! Words that lie in two pages. They are rare, and the others are read and written faster for standing apart.
#![tactic(auto, unfolding(rh_defs::specs::Memory::bytes, crate::specs::Paged::paged_memory))]

use super::PagedStore;
use crate::backing::Backing;
use rh_defs::sizes::WORD;
use rh_store::{AreaId, Words, WordsMut};

impl<G: Backing> PagedStore<G> {
    ghost use Rattle.std.specs.Prelude.{◌≡◌, ◌+◌, ◌≤◌, length};
    ghost use Rattle.rh_defs.specs.Bytes.{put_word, word};
    ghost use Rattle.rh_defs.specs.Memory.{IsOpen, bytes, with_bytes};
    ghost use Rattle.rh_pages.specs.Paged.{paged_memory};

    /// The word at an offset, which may lie in two pages.
    #[cold]
    #[inline(never)]
    pub(super) fn word_across(&self, id: AreaId, at: usize) -> u32
        requires opened { IsOpen (paged_memory self.now) id.0 }
        requires within { at + 4 ≤ length (bytes (paged_memory self.now) id.0) }
        ensures { result ≡ word (bytes (paged_memory self.now) id.0) at }
    {
        let mut bytes = [0; WORD];
        self.copy_out(id, at, &mut bytes);
        u32::from_le_bytes(bytes)
    }

    /// Writes a word at an offset, which may lie in two pages.
    #[cold]
    #[inline(never)]
    pub(super) fn set_word_across(&mut self, id: AreaId, at: usize, w: u32)
        requires opened { IsOpen (paged_memory self.old) id.0 }
        requires within { at + 4 ≤ length (bytes (paged_memory self.old) id.0) }
        ensures { paged_memory self.new ≡ with_bytes (paged_memory self.old) id.0
            (put_word (bytes (paged_memory self.old) id.0) at w) }
    {
        self.copy_in(id, at, &w.to_le_bytes());
    }
}
