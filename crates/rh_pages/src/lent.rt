//! The ground that a caller lends, for a program without a heap.

ghost use Rattle.std.specs.Prelude.{◌≡◌};

use crate::backing::Backing;
use rh_store::bytes::slide_in;

/// Bytes and page numbers that the caller lends, whatever they hold.
#[derive(Drop)]
pub struct LentBacking<'a> {
    bytes: &'a mut [u8],
    numbers: &'a mut [u16],
}

impl<'a> LentBacking<'a> {
    /// The ground of these bytes and these numbers.
    pub fn new(bytes: &'a mut [u8], numbers: &'a mut [u16]) -> LentBacking<'a>
        ensures bytes { result.bytes.now ≡ bytes.entry.now }
        ensures numbers { result.numbers.now ≡ numbers.entry.now }
    {
        LentBacking { bytes, numbers }
    }
}

impl<'a> Backing for LentBacking<'a> {
    ghost bytes = { λ site. site.bytes.now };

    ghost numbers = { λ site. site.numbers.now };

    fn len(&self) -> usize {
        self.bytes.len()
    }

    fn bytes(&self, at: usize, n: usize) -> &[u8] {
        &self.bytes[at..at + n]
    }

    fn word(&self, at: usize) -> u32 {
        let bytes = self.bytes(at, 4);
        u32::from_le_bytes([bytes[0], bytes[1], bytes[2], bytes[3]])
    }

    fn set_word(&mut self, at: usize, word: u32) {
        self.copy_in(at, &word.to_le_bytes());
    }

    fn copy_in(&mut self, at: usize, from: &[u8]) {
        let n = from.len();
        self.bytes[at..at + n].copy_from_slice(from);
    }

    fn slide(&mut self, from: usize, to: usize, n: usize) {
        let bytes = &mut *self.bytes;
        slide_in(bytes, from, to, n);
    }

    #[tactic(auto, unfolding(rh_region::specs::Zeros::zeros))]
    fn zero(&mut self, at: usize, n: usize) {
        self.bytes[at..at + n].fill(0);
    }

    fn number(&self, i: usize) -> u16 {
        self.numbers[i]
    }

    fn set_number(&mut self, at: usize, number: u16) {
        self.numbers[at] = number;
    }
}
