//! Bytes that a caller lends to be read, as the one area 0.
#![tactic(auto, unfolding(crate::specs::Lent::memory_shown, crate::specs::Lent::memory_over))]

ghost use Rattle.std.specs.Prelude.{◌≡◌, ◌≤◌, length};
ghost use Rattle.rh_store.specs.Limits.{area_limit};

use rh_store::bytes::{copy_from, part_of, word_in};
use rh_store::{AreaId, Words};

/// The number of the one area.
pub const LENT: AreaId = AreaId(0);

/// Bytes that a caller lends to be read, at most 1 GiB of them: the area 0.
#[derive(Clone, Copy)]
pub struct Lent<'a> {
    pub bytes: &'a [u8],
    pub ghost few: { length bytes.now ≤ area_limit },
}

impl Words for Lent<'_> {
    ghost use Rattle.rh_lent_heap.specs.Lent.{memory_shown};
    ghost use Rattle.rh_lent_heap.specs.Inner.LentLaws.{shown_small_law};

    ghost memory = { memory_shown };

    fn word(&self, _id: AreaId, at: usize) -> u32 {
        word_in(self.bytes, at)
    }

    fn copy_out(&self, _id: AreaId, at: usize, to: &mut [u8]) {
        copy_from(self.bytes, at, to);
    }

    fn run(&self, _id: AreaId, at: usize) -> &[u8] {
        let n = self.bytes.len() - at;
        part_of(self.bytes, at, n)
    }

    fn len(&self, _id: AreaId) -> usize {
        self.bytes.len()
    }

    ghost small = { shown_small_law };
}
