//! Texts in lent bytes.

use rh_lines::{Sink, WholeText, put};
use std::io::{self, Write};

/// Texts, and how many bytes there are for each.
const TEXTS: [(usize, &[u8]); 5] = [
    (6, b"ok\n"),
    (6, b"areas\n"),
    (5, b"areas\n"),
    (0, b"areas\n"),
    (0, b""),
];

/// Prints what becomes of the bytes: the length of the text, and then all bytes.
pub(crate) fn print_lent<W: Write>(output: &mut W) -> io::Result<()> {
    for (room, text) in TEXTS {
        let mut all = *b"......";
        let bytes = &mut all[..room];
        let length = write_whole(bytes, text);
        let none = write_whole(bytes, b"");
        write!(output, "{length} {none} ")?;
        output.write_all(&all)?;
        output.write_all(b"|\n")?;
    }
    print_writes(output)
}

/// Writes a text, and answers how long it is.
fn write_whole(bytes: &mut [u8], text: &[u8]) -> usize {
    let mut whole = WholeText::new(bytes);
    let _done = put(&mut whole, text);
    whole.length()
}

/// Prints what each of several writes answers, the length after each, and then all bytes.
fn print_writes<W: Write>(output: &mut W) -> io::Result<()> {
    let mut bytes = *b"......";
    let mut whole = WholeText::new(&mut bytes);
    for text in [b"ab".as_slice(), b"", b"cd", b"efgh", b"i"] {
        let written = whole.write(text);
        writeln!(output, "{written:?} {}", whole.length())?;
    }
    output.write_all(&bytes)?;
    output.write_all(b"|\n")
}
