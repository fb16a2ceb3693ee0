//! Bytes of a script as they are shown: no control byte reaches a terminal.

ghost use Rattle.std.specs.Prelude.{◌≡◌, ◌++◌};
ghost use Rattle.rh_explained.specs.ShownBytes.{shown, shown_byte, shown_front};

use rh_lines::Pen;

/// So many bytes of a line are shown.
pub const MOST_OF_LINE: usize = 72;

/// So many bytes of a word are shown: more than any word has that is of its form, but for bytes in hexadecimal.
pub const MOST_OF_WORD: usize = 16;

/// Writes bytes, and for each control byte `\x` and its two digits.
pub fn put_shown<P: Pen>(bytes: &[u8], pen: &mut P)
    ensures { P.offered pen.new ≡ P.offered pen.old ++ shown bytes.now }
{
    for byte in bytes {
        put_shown_byte(*byte, pen);
    }
}

fn put_shown_byte<P: Pen>(byte: u8, pen: &mut P)
    ensures { P.offered pen.new ≡ P.offered pen.old ++ shown_byte byte }
{
    if byte.is_ascii_control() {
        let mut digits = [0; 2];
        hex::encode_to_slice([byte], &mut digits).unwrap();
        pen.put(b"\\x");
        pen.put(&digits);
    } else {
        pen.put(&[byte]);
    }
}

/// Writes so many first bytes like that, and two points where there are more.
pub fn put_shown_front<P: Pen>(most: usize, bytes: &[u8], pen: &mut P)
    ensures { P.offered pen.new ≡ P.offered pen.old ++ shown_front most bytes.now }
{
    if bytes.len() > most {
        put_shown(&bytes[..most], pen);
        pen.put(b"..");
    } else {
        put_shown(bytes, pen);
    }
}
