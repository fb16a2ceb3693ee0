//! Words that have room.

ghost use Rattle.std.specs.Prelude.{◌≡◌, ◌≤◌, ◌+◌, ◌*◌, [], ◌∷◌, if◌then◌else◌, length};
ghost use Rattle.std.specs.Bool.{OnTrue};
ghost use Rattle.rh_lens.specs.ByteWords.{letters_in as letters_for};
ghost use Rattle.rh_lens.specs.LensWords.{fitting_words, has_space as has_space_for, size_choices};
ghost use Rattle.rh_lens.specs.declared.sizes.TheConstants.{EDGE, LETTER, MOST_WIDTH};

use crate::sizes::{EDGE, LETTER};
use rh_lines::Row;
use rh_map::add_size;

/// How many letters have room.
pub fn letters_in(width: u32) -> usize
    ensures { result ≡ letters_for width }
{
    (width.saturating_sub(EDGE) / LETTER) as usize
}

/// Whether a text has room in so many units.
fn has_space(width: u32, text: &[u8]) -> bool
    ensures value { result ≡ has_space_for width text.now }
    ensures few { OnTrue result (LETTER * length text.now + EDGE ≤ width) }
{
    if width < EDGE {
        return false;
    }
    text.len() <= letters_in(width)
}

/// A text, where it has room.
pub fn fixed(width: u32, text: &[u8]) -> Row
    requires { width ≤ MOST_WIDTH }
    ensures { result ≡ fitting_words width (text.now ∷ []) }
{
    let mut row = Row::new();
    if has_space(width, text) {
        row.text(text);
    }
    row
}

/// The text, where it has room.
pub fn if_room(width: u32, text: Row) -> Row
    ensures { result ≡ fitting_words width (text ∷ []) }
{
    longer_or(width, text, Row::new())
}

/// The first of two texts where it has room, else the other one.
pub fn longer_or(width: u32, long: Row, short: Row) -> Row
    ensures { result ≡ if has_space_for width long then long else short }
{
    if has_space(width, long.as_slice()) {
        long
    } else {
        short
    }
}

/// A number of bytes, in the longest form that has room.
pub fn size_words(width: u32, bytes: u32) -> Row
    ensures { result ≡ fitting_words width (size_choices bytes) }
{
    let mut whole = Row::new();
    add_size(&mut whole, bytes);
    let mut short = Row::new();
    short.decimal(bytes);
    short.text(b" B");
    let mut number = Row::new();
    number.decimal(bytes);
    longer_or(
        width,
        whole,
        longer_or(width, short, if_room(width, number)),
    )
}
