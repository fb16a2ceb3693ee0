//! Numbers that look random, the same in each run.

ghost use Rattle.std.specs.Prelude.{◌<◌};

/// The numbers that are still to come.
#[derive(Drop)]
pub(crate) struct RandomNumbers {
    last: u32,
}

impl RandomNumbers {
    /// The first of them is still to come.
    pub(crate) fn new() -> RandomNumbers {
        RandomNumbers { last: 1 }
    }

    /// One of the numbers below a limit.
    pub(crate) fn below(&mut self, limit: u32) -> u32
        requires { 0 < limit }
        ensures { result < limit }
    {
        self.last = self
            .last
            .wrapping_mul(1_664_525)
            .wrapping_add(1_013_904_223);
        (self.last >> 8) % limit
    }
}

/// Writes a word at a place, so far as the image goes.
pub(crate) fn put_word(image: &mut [u8], place: usize, word: u32) {
    for (byte, new) in image.iter_mut().skip(place).zip(word.to_le_bytes()) {
        *byte = new;
    }
}
