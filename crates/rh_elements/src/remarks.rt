//! Remarks of a script.

ghost use Rattle.std.specs.Prelude.{◌≡◌, ◌≤◌, ◌++◌, length, map};
ghost use Rattle.rh_sheet.specs.Markup.{escape};
ghost use Rattle.rh_sheet.specs.SheetSteps.{remark_byte as remark_byte_of, remark_class as remark_class_of, remark_of};
ghost use Rattle.rh_sheet.specs.SheetSteps.{remark_text, remark_words as remark_words_of};
ghost use Rattle.rh_sheet.specs.SheetSteps.{sign_length as length_of_sign, some_remark, stripped as stripped_of};
ghost use Rattle.rh_sheet.specs.SheetSteps.{without_indent};

use crate::escape::put_escaped;
use rh_lines::Pen;
use rh_map::is_mark;

/// A byte of a remark as it is shown: a space in place of one below 32, and of 127.
fn remark_byte(byte: u8) -> u8
    ensures { result ≡ remark_byte_of byte }
{
    if byte < b' ' || byte == 127 {
        b' '
    } else {
        byte
    }
}

/// Writes a remark, if it has words.
pub fn print_remark<P: Pen>(line: &[u8], pen: &mut P)
    ensures { P.offered pen.new ≡ P.offered pen.old ++ remark_text line.now }
{
    print_shown(remark_class(line), remark_words(line), pen);
}

/// Writes the bytes of a remark as they are shown, if there are some.
fn print_shown<P: Pen>(class: &[u8], words: &[u8], pen: &mut P)
    ensures { P.offered pen.new ≡ P.offered pen.old ++ remark_of class.now (map remark_byte_of words.now) }
{
    if words.is_empty() {
        return;
    }
    print_some(class, words, pen);
}

/// Writes the bytes of a remark as they are shown.
fn print_some<P: Pen>(class: &[u8], words: &[u8], pen: &mut P)
    ensures { P.offered pen.new ≡ P.offered pen.old ++ some_remark class.now (map remark_byte_of words.now) }
{
    pen.put(b"<p class=\"");
    pen.put(class);
    pen.put(b"\">");
    put_remark(words, pen);
    pen.put(b"</p>\n");
}

/// The class of a remark.
fn remark_class(line: &[u8]) -> &'static [u8]
    ensures value { result.now ≡ remark_class_of line.now }
    ensures few { length result.now ≤ 6 }
{
    if is_mark(line) { b"title" } else { b"remark" }
}

/// The bytes of a remark whose forms are its words: without its sign, and without what is shown as spaces at its ends.
fn remark_words(line: &[u8]) -> &[u8]
    ensures { map remark_byte_of result.now ≡ remark_words_of line.now }
{
    let behind = unindented(line);
    let count = sign_length(line).min(behind.len());
    stripped(&behind[count..])
}

/// So many bytes of a remark are its sign.
fn sign_length(line: &[u8]) -> usize
    ensures { result ≡ length_of_sign line.now }
{
    if is_mark(line) { 8 } else { 1 }
}

/// The text without bytes at its beginning that are shown as spaces.
fn unindented(text: &[u8]) -> &[u8]
    ensures { map remark_byte_of result.now ≡ without_indent (map remark_byte_of text.now) }
{
    let mut rest = text;
    while let Some((first, others)) = rest.split_first() {
        if remark_byte(*first) != b' ' {
            return rest;
        }
        rest = others;
    }
    rest
}

/// The text without bytes at its ends that are shown as spaces.
fn stripped(text: &[u8]) -> &[u8]
    ensures { map remark_byte_of result.now ≡ stripped_of (map remark_byte_of text.now) }
{
    let mut front = unindented(text);
    while let Some((last, others)) = front.split_last() {
        if remark_byte(*last) != b' ' {
            return front;
        }
        front = others;
    }
    front
}

/// Writes the words of a remark, or the name of a script: text from outside, with spaces in place of control bytes.
pub(crate) fn put_remark<P: Pen>(words: &[u8], pen: &mut P)
    ensures { P.offered pen.new ≡ P.offered pen.old ++ escape (map remark_byte_of words.now) }
{
    for byte in words {
        put_escaped(&[remark_byte(*byte)], pen);
    }
}
