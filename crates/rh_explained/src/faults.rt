//! Bad lines, explained.

ghost use Rattle.std.specs.Prelude.{◌≡◌, ◌++◌, codes};
ghost use Rattle.std.specs.Fmt.{decimal};
ghost use Rattle.rh_explained.specs.ShownBytes.{shown_front};
ghost use Rattle.rh_explained.specs.declared.shown.TheConstants.{MOST_OF_LINE};
ghost use Rattle.rh_explained.specs.Explanations.{bad_line, expected_at, fault_help as help_text, fault_says};
ghost use Rattle.rh_explained.specs.Explanations.{forms_expected, kind_in, oddity_at as odd_at, word_says};

use crate::command_kind::CommandKind;
use crate::numbers::put_decimal;
use crate::oddity::Oddity;
use crate::shown::{MOST_OF_LINE, MOST_OF_WORD, put_shown_front};
use crate::words::word_of;
use rh_defs::LineFault;
use rh_lines::Pen;

/// Explains a bad line with its number.
pub fn put_bad_line<P: Pen>(number: u32, line: &[u8], fault: &LineFault, pen: &mut P)
    ensures { P.offered pen.new ≡ P.offered pen.old ++ bad_line number line.now fault.now }
{
    put_number(number, pen);
    match oddity_at(line, fault) {
        Some(odd) => {
            odd.put(pen);
            put_below(line, b"", pen);
        }
        None => {
            put_fault_says(line, fault, pen);
            put_below(line, fault_help(fault), pen);
        }
    }
}

/// Begins an explanation with the line's number.
pub fn put_number<P: Pen>(number: u32, pen: &mut P)
    ensures { P.offered pen.new ≡ P.offered pen.old ++ (codes "line " ++ decimal number) }
{
    pen.put(b"line ");
    put_decimal(number, pen);
}

/// Ends it with the line's text and what helps.
pub fn put_below<P: Pen>(line: &[u8], help: &[u8], pen: &mut P)
    ensures { P.offered pen.new ≡ P.offered pen.old
        ++ (codes "\n  " ++ (shown_front MOST_OF_LINE line.now ++ (codes "\n" ++ help.now))) }
{
    pen.put(b"\n  ");
    put_shown_front(MOST_OF_LINE, line, pen);
    pen.put(b"\n");
    pen.put(help);
}

fn oddity_at(line: &[u8], fault: &LineFault) -> Option<Oddity>
    ensures { result ≡ odd_at line.now fault.now }
{
    match fault {
        LineFault::TooLong | LineFault::Unended => None,
        _ => Oddity::of(line),
    }
}

fn put_fault_says<P: Pen>(line: &[u8], fault: &LineFault, pen: &mut P)
    ensures { P.offered pen.new ≡ P.offered pen.old ++ fault_says line.now fault.now }
{
    match fault {
        LineFault::TooLong => pen.put(b": more than 1024 bytes"),
        LineFault::Unended => pen.put(b": cut, as the script ends without a line feed"),
        LineFault::Unknown => {
            put_word(line, 1, pen);
            pen.put(b": no command has this name");
        }
        LineFault::Count => put_forms(line, pen),
        LineFault::Word(n) => {
            put_word(line, *n, pen);
            put_expected(line, *n, pen);
        }
    }
}

fn fault_help(fault: &LineFault) -> &'static [u8]
    ensures { result.now ≡ help_text fault.now }
{
    match fault {
        LineFault::TooLong => b"  several lines may write what one may not: put NAME A OFF HEX\n",
        LineFault::Unended => b"  end the last line with a line feed\n",
        _ => b"",
    }
}

/// Writes a word of a line, and which one it is.
fn put_word<P: Pen>(line: &[u8], n: u8, pen: &mut P)
    ensures { P.offered pen.new ≡ P.offered pen.old ++ word_says line.now n }
{
    pen.put(b", word ");
    put_decimal(u32::from(n), pen);
    pen.put(b" \"");
    put_shown_front(MOST_OF_WORD, word_of(line, n), pen);
    pen.put(b"\"");
}

/// Writes the forms that a line may have.
fn put_forms<P: Pen>(line: &[u8], pen: &mut P)
    ensures { P.offered pen.new ≡ P.offered pen.old ++ forms_expected (kind_in line.now) }
{
    if let Some(kind) = CommandKind::in_line(line) {
        pen.put(b": expected ");
        pen.put(kind.forms());
    }
}

/// Writes what a word of a line has to be.
fn put_expected<P: Pen>(line: &[u8], n: u8, pen: &mut P)
    ensures { P.offered pen.new ≡ P.offered pen.old ++ expected_at (kind_in line.now) n }
{
    let Some(kind) = CommandKind::in_line(line) else {
        return;
    };
    if let Some(word) = kind.word_kind(n) {
        pen.put(b": ");
        pen.put(word.expected());
    }
}
