//! Bytes of a block as words in one line.

ghost use Rattle.std.specs.Prelude.{◌≡◌, ◌≤◌, ◌-◌, ◌*◌, ◌+◌, [], ◌∷◌, ◌++◌, codes, length};
ghost use Rattle.std.specs.Bool.{OnTrue};
ghost use Rattle.std.specs.List.{list_all};
ghost use Rattle.hex.specs.Hex.{encode_lower};
ghost use Rattle.rh_lens.specs.ByteWords.{are_zeros as are_all_zeros, before_zero as before_first_zero, byte_choices};
ghost use Rattle.rh_lens.specs.ByteWords.{first_pairs as first_pairs_of, is_printable as is_printable_byte};
ghost use Rattle.rh_lens.specs.ByteWords.{is_text as is_text_of, letters_in as letters_for, pair_behind};
ghost use Rattle.rh_lens.specs.ByteWords.{pairs as pairs_of, quoted};
ghost use Rattle.rh_lens.specs.LensWords.{fitting_words, has_space};
ghost use Rattle.rh_lens.specs.declared.sizes.TheConstants.{EDGE, LETTER, MOST_READ, MOST_WIDTH};
ghost use Rattle.rh_lines.specs.declared.row.TheConstants.{ROW};
ghost use Rattle.rh_figure.specs.Phrases.{cut};

use crate::room::{if_room, letters_in, longer_or};
use crate::sizes::{EDGE, LETTER};
use rh_lines::Row;

/// The first bytes of a block of so many, as they stand in so many units.
pub fn byte_words(width: u32, size: u32, bytes: &[u8]) -> Row
    requires width { width ≤ MOST_WIDTH }
    requires few { length bytes.now ≤ MOST_READ }
    ensures { result ≡ fitting_words width (byte_choices width size bytes.now) }
{
    if bytes.is_empty() {
        return Row::new();
    }
    if are_zeros(bytes) && bytes.len() == size as usize {
        return zero_words(width);
    }
    if is_text(bytes) {
        return text_words(width, bytes);
    }
    pair_words(width, bytes)
}

/// Whether all bytes are zeros.
pub fn are_zeros(bytes: &[u8]) -> bool
    ensures { result ≡ are_all_zeros bytes.now }
{
    for byte in bytes {
        if *byte != 0 {
            return false;
        }
    }
    true
}

/// That all bytes are zeros.
fn zero_words(width: u32) -> Row
    ensures { result ≡ fitting_words width (codes "all bytes 0" ∷ codes "all 0" ∷ codes "0" ∷ []) }
{
    let mut long = Row::new();
    long.text(b"all bytes 0");
    let mut short = Row::new();
    short.text(b"all 0");
    let mut zero = Row::new();
    zero.text(b"0");
    longer_or(width, long, longer_or(width, short, if_room(width, zero)))
}

/// Whether bytes are letters, with nothing behind them but zeros.
fn is_text(bytes: &[u8]) -> bool
    ensures { result ≡ is_text_of bytes.now }
{
    let letters = before_zero(bytes);
    !letters.is_empty() && are_printable(letters) && are_zeros(&bytes[letters.len()..])
}

/// Whether all bytes stand for letters, signs or spaces.
fn are_printable(bytes: &[u8]) -> bool
    ensures { result ≡ list_all is_printable_byte bytes.now }
{
    for byte in bytes {
        if !is_printable(*byte) {
            return false;
        }
    }
    true
}

/// Whether a byte stands for a letter, a sign or a space.
fn is_printable(byte: u8) -> bool
    ensures { result ≡ is_printable_byte byte }
{
    b' ' <= byte && byte < 127
}

/// The bytes before the first zero.
fn before_zero(bytes: &[u8]) -> &[u8]
    ensures value { result.now ≡ before_first_zero bytes.now }
    ensures few { length result.now ≤ length bytes.now }
{
    &bytes[..count_before_zero(bytes)]
}

/// How many bytes are before the first zero.
fn count_before_zero(bytes: &[u8]) -> usize
    ensures value { result ≡ length (before_first_zero bytes.now) }
    ensures few { result ≤ length bytes.now }
{
    let mut count = 0;
    for byte in bytes {
        if *byte == 0 {
            return count;
        }
        count += 1;
    }
    count
}

/// Letters between quotes, as many as have room.
fn text_words(width: u32, bytes: &[u8]) -> Row
    requires width { width ≤ MOST_WIDTH }
    ensures { result ≡ fitting_words width
        (quoted (cut (letters_for width - 2) (before_first_zero bytes.now)) ∷ []) }
{
    let mut row = Row::new();
    row.byte(b'"');
    add_letters(
        &mut row,
        letters_in(width).saturating_sub(2),
        before_zero(bytes),
    );
    row.byte(b'"');
    if_room(width, row)
}

/// Adds a text, cut with two dots behind it where it is longer than `most` bytes.
fn add_letters(row: &mut Row, most: usize, text: &[u8])
    requires most { most ≤ 240 }
    requires room { length row.old ≤ 2 }
    ensures value { row.new ≡ row.old ++ cut most text.now }
    ensures few { length row.new ≤ length row.old + most + 2 }
{
    if text.len() <= most {
        row.text(text);
        return;
    }
    row.text(&text[..most.saturating_sub(2)]);
    row.text(b"..");
}

/// Each byte as two digits, or the first ones, as many as have room.
fn pair_words(width: u32, bytes: &[u8]) -> Row
    requires width { width ≤ MOST_WIDTH }
    requires few { length bytes.now ≤ MOST_READ }
    ensures { result ≡ fitting_words width
        (pairs_of bytes.now ∷ first_pairs_of (letters_for width) bytes.now ∷ []) }
{
    if have_room(width, bytes) {
        return pairs(bytes);
    }
    if_room(width, first_pairs(letters_in(width), bytes))
}

/// Whether bytes have room, each as two digits.
fn have_room(width: u32, bytes: &[u8]) -> bool
    requires few { length bytes.now ≤ MOST_READ }
    ensures value { result ≡ has_space width (pairs_of bytes.now) }
    ensures few { OnTrue result (LETTER * (3 * length bytes.now - 1) + EDGE ≤ width) }
{
    LETTER * (3 * bytes.len() as u32).saturating_sub(1) + EDGE <= width
}

/// Each byte as two digits.
fn pairs(bytes: &[u8]) -> Row
    requires { length bytes.now ≤ 81 }
    ensures value { result ≡ pairs_of bytes.now }
    ensures few { length result ≡ 3 * length bytes.now - 1 }
{
    if bytes.is_empty() {
        return Row::new();
    }
    let mut row = digits(&bytes[..1]);
    for byte in &bytes[1..] {
        add_pair(&mut row, *byte);
    }
    row
}

/// The digits of a byte.
fn digits(byte: &[u8]) -> Row
    requires { length byte.now ≤ 1 }
    ensures value { result ≡ encode_lower byte.now }
    ensures few { length result ≡ 2 * length byte.now }
{
    let mut row = Row::new();
    row.hex_digits(byte);
    row
}

/// Adds a byte as two digits behind a space.
fn add_pair(row: &mut Row, byte: u8)
    requires { length row.old + 3 ≤ ROW }
    ensures value { row.new ≡ row.old ++ pair_behind byte }
    ensures few { length row.new ≡ length row.old + 3 }
{
    row.byte(b' ');
    row.hex_digits(&[byte]);
}

/// As many bytes as have room in so many letters, and that there are more.
fn first_pairs(letters: usize, bytes: &[u8]) -> Row
    requires { letters ≤ 242 }
    ensures { result ≡ first_pairs_of letters bytes.now }
{
    let count = (letters.saturating_sub(2) / 3).min(bytes.len());
    let mut row = pairs(&bytes[..count]);
    row.text(b" ..");
    row
}
