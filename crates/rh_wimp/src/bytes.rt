//! Words and bytes of a message block.
ghost use Rattle.std.specs.Prelude.{◌≡◌, ◌+◌, ◌*◌, ◌≤◌, length, replicate};
ghost use Rattle.rh_defs.specs.Bytes.{with_part, word, word_bytes};
ghost use Rattle.rh_defs.specs.Messages.{AreWords, words};
ghost use Rattle.rh_defs.specs.declared.sizes.TheConstants.{WORD};

use byteorder::{ByteOrder, LittleEndian};
use rh_defs::sizes::WORD;

/// Writes a word at an offset.
pub fn put_word(out: &mut [u8], at: usize, w: u32)
    requires { at + WORD ≤ length out.old }
    ensures { out.new ≡ with_part out.old at (word_bytes w) }
{
    LittleEndian::write_u32(&mut out[at..at + WORD], w);
}

/// Writes words from an offset on.
pub fn put_words(out: &mut [u8], at: usize, ws: &[u32])
    requires { at + WORD * length ws.now ≤ length out.old }
    ensures bytes { out.new ≡ with_part out.old at (words ws.now) }
    ensures numbers { AreWords ws.now }
{
    for (i, w) in ws.iter().enumerate() {
        put_word(out, at + WORD * i, *w);
    }
}

/// Writes bytes from an offset on.
pub fn put_bytes(out: &mut [u8], at: usize, from: &[u8])
    requires { at + length from.now ≤ length out.old }
    ensures { out.new ≡ with_part out.old at from.now }
{
    out[at..at + from.len()].copy_from_slice(from);
}

/// Writes n zeros from an offset on.
pub fn put_zeros(out: &mut [u8], at: usize, n: usize)
    requires { at + n ≤ length out.old }
    ensures { out.new ≡ with_part out.old at (replicate n 0) }
{
    out[at..at + n].fill(0);
}

/// The word at an offset.
pub fn get_word(bytes: &[u8], at: usize) -> u32
    requires { at + WORD ≤ length bytes.now }
    ensures { result ≡ word bytes.now at }
{
    LittleEndian::read_u32(&bytes[at..at + WORD])
}
