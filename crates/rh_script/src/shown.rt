//! A block's size and bytes as text.

ghost use Rattle.std.specs.Prelude.{◌≡◌, ◌+◌, ◌*◌, ◌≤◌, ◌<◌, ◌++◌, ◌∷◌, [], length, codes, take, drop};
ghost use Rattle.std.specs.Fmt.{decimal};
ghost use Rattle.hex.specs.Hex.{encode_lower};
ghost use Rattle.rh_defs.specs.Slot.{anchor_count};
ghost use Rattle.rh_defs.specs.Questions.{show};
ghost use Rattle.rh_defs.specs.Text.{answer_text, ok, hex_words, rest_of_line};
ghost use Rattle.rh_lines.specs.declared.row.TheConstants.{ROW};
ghost use Rattle.rh_script.specs.declared.shown.TheConstants.{PIECE};
ghost use Rattle.rh_script.specs.NamedSlots.{bytes_of_named};

use crate::read::{read_block, read_whole, size_of_block};
use rh_defs::{Anchor, Name, Reply};
use rh_lines::{Pen, Row, put_first_line};
use rh_store::Store;
use rh_tasks::{NamedFiles, World};

/// A block of up to so many bytes is written together with its size.
const SHORT: usize = 64;

/// So many bytes of a longer block are read and written at a time.
pub(crate) const PIECE: usize = 512;

/// Writes the size of the task's block at the anchor, and its bytes, if there are any.
pub fn print_shown<S: Store, F: NamedFiles, P: Pen>(
    world: &World<S, F>,
    name: &Name,
    anchor: Anchor,
    pen: &mut P,
)
    ensures { P.offered pen.new ≡ P.offered pen.old ++ answer_text (show world.now.desk name.now anchor) }
{
    match size_of_block(world, name, anchor) {
        Ok(size) => print_block(world, name, anchor, size, pen),
        Err(refusal) => put_first_line(&Reply::Refused(refusal), pen),
    }
}

fn print_block<S: Store, F: NamedFiles, P: Pen>(
    world: &World<S, F>,
    name: &Name,
    anchor: Anchor,
    size: u32,
    pen: &mut P,
)
    requires anchor { anchor < anchor_count }
    requires size { size ≡ length (bytes_of_named name.now anchor world.now.desk) }
    ensures { P.offered pen.new ≡ P.offered pen.old
        ++ ok (decimal size ∷ hex_words (bytes_of_named name.now anchor world.now.desk)) }
{
    let mut row = Row::new();
    row.text(b"ok ");
    row.decimal(size);
    if size as usize <= SHORT {
        let mut bytes = [0; SHORT];
        let whole = &mut bytes[..size as usize];
        read_whole(world, name, anchor, whole);
        add_bytes(&mut row, whole);
        pen.put(row.as_slice());
        return;
    }
    pen.put(row.as_slice());
    print_bytes(world, name, anchor, size, pen);
}

/// Ends the line with a block's bytes, behind a space where there are any.
fn add_bytes(row: &mut Row, bytes: &[u8])
    requires { length row.old + 2 * length bytes.now + 2 ≤ ROW }
    ensures { row.new ≡ row.old ++ rest_of_line (hex_words bytes.now) }
{
    if bytes.is_empty() {
        return row.byte(b'\n');
    }
    row.byte(b' ');
    row.hex_digits(bytes);
    row.byte(b'\n');
}

/// The bytes of the task's block behind a space, and the line's end.
fn print_bytes<S: Store, F: NamedFiles, P: Pen>(
    world: &World<S, F>,
    name: &Name,
    anchor: Anchor,
    size: u32,
    pen: &mut P,
)
    requires anchor { anchor < anchor_count }
    requires some { 0 < size }
    requires size { size ≡ length (bytes_of_named name.now anchor world.now.desk) }
    ensures { P.offered pen.new ≡ P.offered pen.old
        ++ rest_of_line (hex_words (bytes_of_named name.now anchor world.now.desk)) }
{
    pen.put(b" ");
    print_hex(world, name, anchor, size, pen);
    pen.put(b"\n");
}

fn print_hex<S: Store, F: NamedFiles, P: Pen>(
    world: &World<S, F>,
    name: &Name,
    anchor: Anchor,
    size: u32,
    pen: &mut P,
)
    requires anchor { anchor < anchor_count }
    requires size { size ≡ length (bytes_of_named name.now anchor world.now.desk) }
    ensures { P.offered pen.new ≡ P.offered pen.old ++ encode_lower (bytes_of_named name.now anchor world.now.desk) }
{
    let mut offset = 0;
    while offset < size {
        let count = (PIECE as u32).min(size - offset);
        print_piece(world, name, anchor, offset, count, pen);
        offset += count;
    }
}

fn print_piece<S: Store, F: NamedFiles, P: Pen>(
    world: &World<S, F>,
    name: &Name,
    anchor: Anchor,
    offset: u32,
    count: u32,
    pen: &mut P,
)
    requires anchor { anchor < anchor_count }
    requires small { count ≤ PIECE }
    requires within { offset + count ≤ length (bytes_of_named name.now anchor world.now.desk) }
    ensures { P.offered pen.new ≡ P.offered pen.old
        ++ encode_lower (take count (drop offset (bytes_of_named name.now anchor world.now.desk))) }
{
    let mut bytes = [0; PIECE];
    let part = &mut bytes[..count as usize];
    read_block(world, name, anchor, offset, part);
    put_digits(part, pen);
}

/// Writes the hexadecimal digits of some bytes.
pub(crate) fn put_digits<P: Pen>(bytes: &[u8], pen: &mut P)
    requires { length bytes.now ≤ PIECE }
    ensures { P.offered pen.new ≡ P.offered pen.old ++ encode_lower bytes.now }
{
    let mut digits = [0; 2 * PIECE];
    let text = &mut digits[..2 * bytes.len()];
    hex::encode_to_slice(bytes, &mut *text).unwrap();
    pen.put(text);
}
