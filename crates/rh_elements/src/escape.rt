//! Text in which nothing begins or ends an element.

ghost use Rattle.std.specs.Prelude.{◌≡◌, ◌≤◌, ◌+◌, ◌*◌, ◌++◌, length};
ghost use Rattle.rh_elements.specs.declared.escape.TheConstants.{CHUNK, LONGEST_SIGN};
ghost use Rattle.rh_lines.specs.declared.row.TheConstants.{ROW};
ghost use Rattle.rh_sheet.specs.Markup.{escape, escaped_byte};

use rh_lines::{Pen, Row};

/// So many bytes of a text are escaped at once.
const CHUNK: usize = 32;

/// A byte takes at most so many where it is escaped.
const LONGEST_SIGN: usize = 6;

/// Adds a byte as it stands in text and between quotes.
fn add_escaped_byte(row: &mut Row, byte: u8)
    requires { length row.old + LONGEST_SIGN ≤ ROW }
    ensures value { row.new ≡ row.old ++ escaped_byte byte }
    ensures few { length row.new ≤ length row.old + LONGEST_SIGN }
{
    match byte {
        b'&' => row.text(b"&amp;"),
        b'<' => row.text(b"&lt;"),
        b'>' => row.text(b"&gt;"),
        b'"' => row.text(b"&quot;"),
        _ => row.byte(byte),
    }
}

/// Adds a text in which no byte begins or ends an element.
pub fn add_escaped(row: &mut Row, text: &[u8])
    requires { length row.old + LONGEST_SIGN * length text.now ≤ ROW }
    ensures value { row.new ≡ row.old ++ escape text.now }
    ensures few { length row.new ≤ length row.old + LONGEST_SIGN * length text.now }
{
    for byte in text {
        add_escaped_byte(row, *byte);
    }
}

/// Writes a short text.
fn put_chunk<P: Pen>(text: &[u8], pen: &mut P)
    requires { length text.now ≤ CHUNK }
    ensures { P.offered pen.new ≡ P.offered pen.old ++ escape text.now }
{
    let mut row = Row::new();
    add_escaped(&mut row, text);
    pen.put(row.as_slice());
}

/// Writes a text in which no byte begins or ends an element.
pub fn put_escaped<P: Pen>(text: &[u8], pen: &mut P)
    ensures { P.offered pen.new ≡ P.offered pen.old ++ escape text.now }
{
    let mut rest = text;
    while !rest.is_empty() {
        let count = rest.len().min(CHUNK);
        put_chunk(&rest[..count], pen);
        rest = &rest[count..];
    }
}

/// Writes a text between two others that stand as they are.
pub fn put_between<P: Pen>(before: &[u8], text: &[u8], behind: &[u8], pen: &mut P)
    ensures { P.offered pen.new ≡ P.offered pen.old ++ (before.now ++ (escape text.now ++ behind.now)) }
{
    pen.put(before);
    put_escaped(text, pen);
    pen.put(behind);
}
