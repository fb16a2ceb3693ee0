//! How often blocks of a slot in lent bytes have slid. Before a call the anchor word of the lowest block that it may
//! move is noted, and compared behind it: the blocks above slide with that one.
ghost use Rattle.std.specs.Prelude.{◌≡◌, ◌+◌, ◌%◌, ◌<◌, ◌≤◌, length, IfSome, MatchOption, false};
ghost use Rattle.rh_defs.specs.Memory.{IsOpen, bytes};
ghost use Rattle.rh_defs.specs.SlotImage.{is_block};
ghost use Rattle.rh_defs.specs.declared.sizes.TheConstants.{ANCHORS, C_HEAP_PLACE, WORD};
ghost use Rattle.rh_lent_slot.specs.Slots.{IsSlotBytes, lent_slot_bytes, lent_slot_in};
ghost use Rattle.rh_lent_slot.specs.Inner.NotedWords.{LeadsTo, NotesFirst, blocks_above, slides_noted};

use crate::slot::LentSlot;
use rh_defs::Anchor;
use rh_defs::sizes::{
    C_HEAP_PLACE, C_HEAP_START, FLEX_HEADER, HEAP_END, PAGE, SLOT_START, WORD, flex_weight,
};
use rh_lent_heap::LENT;
use rh_store::Words;
use rh_store::bytes::word_in;

/// An anchor word that leads to a block: where it stands, and what it held before a call.
#[derive(Clone, Copy)]
pub(crate) struct NotedWord {
    pub at: usize,
    pub word: u32,
}

impl LentSlot {
    /// The anchor word of the block that begins at a place. `None` just where none begins there.
    fn note_at(self, bytes: &[u8], place: usize) -> Option<NotedWord>
        requires slot { IsSlotBytes bytes.now self }
        requires whole { place % WORD ≡ 0 }
        ensures { MatchOption result (is_block (lent_slot_bytes bytes.now self) place ≡ false)
            (LeadsTo (lent_slot_bytes bytes.now self) place) }
    {
        let image = &bytes[..PAGE * self.pages];
        if image.len() <= place {
            return None;
        }
        let anchor = word_in(image, place) as usize;
        if anchor < SLOT_START || C_HEAP_START <= anchor || anchor % WORD != 0 {
            return None;
        }
        let at = anchor - SLOT_START;
        let word = word_in(image, at);
        if word as usize != SLOT_START + place + FLEX_HEADER {
            return None;
        }
        Some(NotedWord { at, word })
    }

    /// The anchor word of the lowest block above the anchor's. `None` where nothing stands above, or the anchor has no
    /// block.
    pub(crate) fn note_above(self, bytes: &[u8], anchor: Anchor) -> Option<NotedWord>
        requires slot { IsSlotBytes bytes.now self }
        requires anchor { anchor < ANCHORS }
        ensures first { NotesFirst (lent_slot_bytes bytes.now self) (blocks_above anchor (lent_slot_in bytes.now self))
            result }
        ensures within { IfSome result (λ n. n.at + WORD ≤ C_HEAP_PLACE) }
    {
        let image = &bytes[..PAGE * self.pages];
        let address = word_in(image, WORD * anchor.0 as usize) as usize;
        if address == 0 {
            return None;
        }
        let place = address - SLOT_START - FLEX_HEADER;
        let size = word_in(image, place + WORD) as usize;
        self.note_at(bytes, place + flex_weight(size))
    }

    /// The anchor word of the lowest block. `None` where the slot has no block.
    pub(crate) fn note_lowest(self, bytes: &[u8]) -> Option<NotedWord>
        requires { IsSlotBytes bytes.now self }
        ensures first { NotesFirst (lent_slot_bytes bytes.now self) (lent_slot_in bytes.now self).blocks result }
        ensures within { IfSome result (λ n. n.at + WORD ≤ C_HEAP_PLACE) }
    {
        let image = &bytes[..PAGE * self.pages];
        let end = word_in(image, C_HEAP_PLACE + HEAP_END) as usize;
        self.note_at(bytes, C_HEAP_PLACE + end)
    }
}

/// The count of slides behind a call: one more where the word that was noted has changed.
pub(crate) fn slides_noted<S: Words>(slides: u32, noted: Option<NotedWord>, store: &S) -> u32
    requires opened { IsOpen (S.memory store.now) 0 }
    requires within { IfSome noted (λ n. n.at + WORD ≤ length (bytes (S.memory store.now) 0)) }
    ensures { result ≡ slides_noted slides noted (bytes (S.memory store.now) 0) }
{
    match noted {
        Some(noted) if store.word(LENT, noted.at) != noted.word => slides.wrapping_add(1),
        _ => slides,
    }
}
