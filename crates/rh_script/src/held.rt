//! Bytes at an address of a slot as text.

ghost use Rattle.std.specs.Prelude.{◌≡◌, ◌+◌, ◌≤◌, ◌<◌, ◌++◌, ◌∷◌, drop, length, take};
ghost use Rattle.std.specs.Fmt.{decimal};
ghost use Rattle.hex.specs.Hex.{encode_lower};
ghost use Rattle.rh_defs.specs.Questions.{read};
ghost use Rattle.rh_defs.specs.Text.{answer_text, hex_words, ok, rest_of_line};
ghost use Rattle.rh_script.specs.declared.shown.TheConstants.{PIECE};
ghost use Rattle.rh_script.specs.NamedSlots.{AreHeld, bytes_named_at};

use crate::read::read_held;
use crate::shown::{PIECE, put_digits};
use rh_defs::{Name, Reply};
use rh_lines::{Pen, Row, put_first_line};
use rh_store::Store;
use rh_tasks::{NamedFiles, World};

/// Writes how many bytes were asked for at an address of the task's slot, and the bytes, if there are any.
pub fn print_read<S: Store, F: NamedFiles, P: Pen>(
    world: &World<S, F>,
    name: &Name,
    address: u32,
    size: u32,
    pen: &mut P,
)
    ensures { P.offered pen.new ≡ P.offered pen.old ++ answer_text (read world.now.desk name.now address size) }
{
    match world.read_size(name, address, size) {
        Ok(_) => print_held(world, name, address, size, pen),
        Err(refusal) => put_first_line(&Reply::Refused(refusal), pen),
    }
}

fn print_held<S: Store, F: NamedFiles, P: Pen>(
    world: &World<S, F>,
    name: &Name,
    address: u32,
    size: u32,
    pen: &mut P,
)
    requires { AreHeld name.now address size world.now.desk }
    ensures { P.offered pen.new ≡ P.offered pen.old
        ++ ok (decimal size ∷ hex_words (bytes_named_at name.now address size world.now.desk)) }
{
    let mut row = Row::new();
    row.text(b"ok ");
    row.decimal(size);
    pen.put(row.as_slice());
    end_held(world, name, address, size, pen);
}

/// Ends the line with the bytes at the address, behind a space where there are any.
fn end_held<S: Store, F: NamedFiles, P: Pen>(
    world: &World<S, F>,
    name: &Name,
    address: u32,
    size: u32,
    pen: &mut P,
)
    requires { AreHeld name.now address size world.now.desk }
    ensures { P.offered pen.new ≡ P.offered pen.old
        ++ rest_of_line (hex_words (bytes_named_at name.now address size world.now.desk)) }
{
    if size == 0 {
        return pen.put(b"\n");
    }
    pen.put(b" ");
    print_held_hex(world, name, address, size, pen);
    pen.put(b"\n");
}

fn print_held_hex<S: Store, F: NamedFiles, P: Pen>(
    world: &World<S, F>,
    name: &Name,
    address: u32,
    size: u32,
    pen: &mut P,
)
    requires { AreHeld name.now address size world.now.desk }
    ensures { P.offered pen.new ≡ P.offered pen.old
        ++ encode_lower (bytes_named_at name.now address size world.now.desk) }
{
    let mut offset = 0;
    while offset < size {
        let count = (PIECE as u32).min(size - offset);
        print_held_piece(world, name, address, size, offset, count, pen);
        offset += count;
    }
}

/// So many digits of the bytes at the address, from an offset on.
fn print_held_piece<S: Store, F: NamedFiles, P: Pen>(
    world: &World<S, F>,
    name: &Name,
    address: u32,
    size: u32,
    offset: u32,
    count: u32,
    pen: &mut P,
)
    requires held { AreHeld name.now address size world.now.desk }
    requires small { count ≤ PIECE }
    requires within { offset + count ≤ size }
    ensures { P.offered pen.new ≡ P.offered pen.old
        ++ encode_lower (take count (drop offset (bytes_named_at name.now address size world.now.desk))) }
{
    let mut bytes = [0; PIECE];
    let part = &mut bytes[..count as usize];
    read_held(world, name, address, size, offset, part);
    put_digits(part, pen);
}
