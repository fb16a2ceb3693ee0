//! Lines of a script that ask for nothing: remarks, and marks of the next command.

ghost use Rattle.std.specs.Prelude.{◌≡◌, ◌==◌, ◌++◌, codes, length, not};
ghost use Rattle.rh_defs.specs.Line.{nth_word, words_of};
ghost use Rattle.rh_figure.specs.Map.{is_mark as is_mark_of, remark_lines, shown_line};
ghost use Rattle.rh_figure.specs.Phrases.{cut};
ghost use Rattle.rh_figure.specs.declared.limits.TheConstants.{LINE_COLUMNS};
ghost use Rattle.rh_map.specs.Inner.MapScript.{BeginsWord};
ghost use Rattle.rh_map.specs.Written.{shown_lines};

use crate::line::put_line;
use crate::steps::add_cut;
use memchr::memchr;
use rh_figure::limits::LINE_COLUMNS;
use rh_lines::{Pen, Row};

/// The first word of a mark.
const MARK: &[u8] = b"#picture";

/// Whether a line asks for a picture of the next command: its first word is `#picture`.
pub fn is_mark(line: &[u8]) -> bool
    ensures { result ≡ is_mark_of line.now }
{
    first_word(line) == MARK
}

/// Whether a line has words.
pub fn has_words(line: &[u8]) -> bool
    ensures { result ≡ not (length (words_of line.now) == 0) }
{
    !first_word(line).is_empty()
}

/// Writes a line that is skipped, if it has words.
pub fn print_remark<P: Pen>(line: &[u8], pen: &mut P)
    ensures { P.offered pen.new ≡ P.offered pen.old ++ shown_lines (remark_lines line.now) }
{
    if has_words(line) {
        print_cut(line, pen);
    }
}

/// Writes a line of a script.
fn print_cut<P: Pen>(line: &[u8], pen: &mut P)
    ensures { P.offered pen.new ≡ P.offered pen.old ++ (shown_line (cut LINE_COLUMNS line.now) ++ codes "\n") }
{
    let mut row = Row::new();
    add_cut(&mut row, LINE_COLUMNS, line);
    put_line(row.as_slice(), pen);
}

/// The first word of a line, or no bytes where it has no words.
fn first_word(line: &[u8]) -> &[u8]
    ensures value { result.now ≡ nth_word (words_of line.now) 1 }
    ensures none { (length result.now == 0) ≡ (length (words_of line.now) == 0) }
{
    let rest = unspaced(line);
    match memchr(b' ', rest) {
        Some(end) => &rest[..end],
        None => rest,
    }
}

/// The line without spaces before its first word.
fn unspaced(line: &[u8]) -> &[u8]
    ensures words { words_of result.now ≡ words_of line.now }
    ensures begins { BeginsWord result.now }
{
    let mut rest = line;
    while let Some((first, behind)) = rest.split_first() {
        if *first != b' ' {
            return rest;
        }
        rest = behind;
    }
    rest
}
