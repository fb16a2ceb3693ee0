//! What a store stands on: the bytes of its pages, and a row of page numbers.

ghost use Rattle.std.specs.Prelude.{◌≡◌, ℕ, ◌+◌, ◌<◌, ◌≤◌, List, length, set, slice_index, slice_range};
ghost use Rattle.std.specs.Int.{to_le_bytes, w32};
ghost use Rattle.rh_region.specs.Patched.{with_run};
ghost use Rattle.rh_region.specs.Word.{word_at};
ghost use Rattle.rh_region.specs.Zeros.{zeros};

/// A row of bytes and a row of page numbers, each of a fixed length. An address is an index into the bytes, from 0, and
/// words need no alignment. No call on one row changes the other.
pub trait Backing {
    /// The bytes.
    ghost bytes: { Self → List ℕ };

    /// The page numbers.
    ghost numbers: { Self → List ℕ };

    /// How many bytes there are.
    fn len(&self) -> usize
        ensures { result ≡ length (bytes self.now) };

    /// The `n` bytes from the address `at` on.
    fn bytes(&self, at: usize, n: usize) -> &[u8]
        requires { at + n ≤ length (bytes self.now) }
        ensures { result.now ≡ slice_range (bytes self.now) at (at + n) };

    /// The word of the four bytes from the address `at` on, the lowest byte first.
    fn word(&self, at: usize) -> u32
        requires { at + 4 ≤ length (bytes self.now) }
        ensures { result ≡ word_at (bytes self.now) at };

    /// Writes a word to the four bytes from the address `at` on, its lowest byte first.
    fn set_word(&mut self, at: usize, word: u32)
        requires { at + 4 ≤ length (bytes self.old) }
        ensures after { bytes self.new ≡ with_run (bytes self.old) at 4 (to_le_bytes w32 word) }
        ensures numbers { numbers self.new ≡ numbers self.old };

    /// Writes bytes that were lent to those from the address `at` on.
    fn copy_in(&mut self, at: usize, from: &[u8])
        requires { at + length from.now ≤ length (bytes self.old) }
        ensures after { bytes self.new ≡ with_run (bytes self.old) at (length from.now) from.now }
        ensures numbers { numbers self.new ≡ numbers self.old };

    /// Moves the `n` bytes from the address `from` on to the address `to` on. The two runs may overlap.
    fn slide(&mut self, from: usize, to: usize, n: usize)
        requires { (from + n ≤ length (bytes self.old)) × (to + n ≤ length (bytes self.old)) }
        ensures after { bytes self.new ≡ with_run (bytes self.old) to n (slice_range (bytes self.old) from (from + n)) }
        ensures numbers { numbers self.new ≡ numbers self.old };

    /// Writes zeros to the `n` bytes from the address `at` on.
    fn zero(&mut self, at: usize, n: usize)
        requires { at + n ≤ length (bytes self.old) }
        ensures after { bytes self.new ≡ with_run (bytes self.old) at n (zeros n) }
        ensures numbers { numbers self.new ≡ numbers self.old };

    /// The page number at an index.
    fn number(&self, i: usize) -> u16
        requires { i < length (numbers self.now) }
        ensures { result ≡ slice_index (numbers self.now) i };

    /// Writes a page number at an index.
    fn set_number(&mut self, at: usize, number: u16)
        requires { at < length (numbers self.old) }
        ensures after { numbers self.new ≡ set (numbers self.old) at number }
        ensures bytes { bytes self.new ≡ bytes self.old };
}
