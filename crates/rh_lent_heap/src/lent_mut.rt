//! Bytes that a caller lends to be written, as the one area 0.
#![tactic(auto, unfolding(crate::specs::Lent::lent_memory, crate::specs::Lent::memory_over))]

ghost use Rattle.std.specs.Prelude.{◌≡◌, ◌≤◌, length};
ghost use Rattle.rh_store.specs.Limits.{area_limit};

use rh_store::bytes::{copy_from, part_of, put_in, put_word_in, slide_in, word_in, zero_in};
use rh_store::{AreaId, NoLines, Words, WordsMut};

/// Bytes that a caller lends to be written, at most 1 GiB of them: the area 0.
#[derive(Drop)]
pub struct LentMut<'a> {
    pub bytes: &'a mut [u8],
    pub ghost few: { length bytes.now ≤ area_limit },
}

impl Words for LentMut<'_> {
    ghost use Rattle.rh_lent_heap.specs.Lent.{lent_memory};
    ghost use Rattle.rh_lent_heap.specs.Inner.LentLaws.{lent_heap_small_law};

    ghost memory = { lent_memory };

    fn word(&self, _id: AreaId, at: usize) -> u32 {
        word_in(self.bytes, at)
    }

    fn copy_out(&self, _id: AreaId, at: usize, to: &mut [u8]) {
        copy_from(self.bytes, at, to);
    }

    fn run(&self, _id: AreaId, at: usize) -> &[u8] {
        let n = self.bytes.len() - at;
        part_of(self.bytes, at, n)
    }

    fn len(&self, _id: AreaId) -> usize {
        self.bytes.len()
    }

    ghost small = { lent_heap_small_law };
}

impl WordsMut for LentMut<'_> {
    type Lines = NoLines;

    fn set_word(&mut self, _id: AreaId, at: usize, w: u32) {
        let bytes = &mut *self.bytes;
        put_word_in(bytes, at, w);
    }

    fn slide(&mut self, _id: AreaId, from: usize, to: usize, n: usize) {
        let bytes = &mut *self.bytes;
        slide_in(bytes, from, to, n);
    }

    fn zero(&mut self, _id: AreaId, at: usize, n: usize) {
        let bytes = &mut *self.bytes;
        zero_in(bytes, at, n);
    }

    fn copy_in(&mut self, _id: AreaId, at: usize, from: &[u8]) {
        let bytes = &mut *self.bytes;
        put_in(bytes, at, from);
    }
}
