//! What `clap` says of wrong words, without its tips that mislead, and without control bytes.

ghost use Rattle.std.specs.Prelude.{◌≡◌, ◌≤◌, ◌-◌, ◌++◌, [], drop, false, length, slice_index_or};
ghost use Rattle.rh_desk.specs.Hints.{is_for_script as is_about_script, is_left_out as left_out};
ghost use Rattle.rh_desk.specs.Hints.{misleads as leads_away, mistake_text, line_told, text_lines, told_lines};

use crate::hint::{Hint, is_path};
use memchr::memchr;
use rh_explained::put_shown;
use rh_lines::Pen;

/// A tip that leads to a script of an option's name begins so.
const TIP_TO_PASS: &[u8] = b"  tip: to pass ";

/// Tips on commands begin so.
const TIP_ON_ONE: &[u8] = b"  tip: a similar subcommand ";

const TIP_ON_SOME: &[u8] = b"  tip: some similar subcommands ";

/// Writes what `clap` says: its first line, below it what helps, and then the other lines. `verb` is the word in the
/// command's place.
pub fn put_mistake<P: Pen>(hint: Option<Hint>, verb: &[u8], text: &[u8], pen: &mut P)
    ensures { P.offered pen.new ≡ P.offered pen.old ++ mistake_text hint verb.now text.now }
{
    let (first, rest) = first_line(text);
    put_line(first, pen);
    if let Some(hint) = hint {
        hint.put(verb, pen);
    }
    put_lines(is_for_script(hint, verb), rest, pen);
}

/// Writes lines without the tips that mislead, and without the empty lines that would follow each other then.
fn put_lines<P: Pen>(for_script: bool, text: &[u8], pen: &mut P)
    ensures { P.offered pen.new ≡ P.offered pen.old ++ told_lines for_script false (text_lines text.now) }
{
    let mut rest = text;
    let mut was_empty = false;
    'lines: while !rest.is_empty() {
        let (line, behind) = first_line(rest);
        rest = behind;
        if is_left_out(for_script, was_empty, line) {
            continue;
        }
        was_empty = line.is_empty();
        put_line(line, pen);
    }
}

fn put_line<P: Pen>(line: &[u8], pen: &mut P)
    ensures { P.offered pen.new ≡ P.offered pen.old ++ line_told line.now }
{
    put_shown(line, pen);
    pen.put(b"\n");
}

/// The first line of a text, without its line feed, and what stands behind it.
fn first_line(text: &[u8]) -> (&[u8], &[u8])
    ensures first { result.0.now ≡ slice_index_or (text_lines text.now) 0 [] }
    ensures behind { text_lines result.1.now ≡ drop 1 (text_lines text.now) }
    ensures less { length result.1.now ≤ length text.now - 1 }
{
    match memchr(b'\n', text) {
        Some(end) => (&text[..end], &text[end..][1..]),
        None => (text, &[]),
    }
}

/// Whether a line isn't told: a tip that misleads, or an empty line behind an empty one.
fn is_left_out(for_script: bool, was_empty: bool, line: &[u8]) -> bool
    ensures { result ≡ left_out for_script was_empty line.now }
{
    misleads(for_script, line) || (was_empty && line.is_empty())
}

/// Whether a tip leads away from what was perhaps meant.
fn misleads(for_script: bool, line: &[u8]) -> bool
    ensures { result ≡ leads_away for_script line.now }
{
    line.starts_with(TIP_TO_PASS)
        || (for_script && (line.starts_with(TIP_ON_ONE) || line.starts_with(TIP_ON_SOME)))
}

/// Whether a hint is about a script that stands in a command's place.
fn is_for_script(hint: Option<Hint>, verb: &[u8]) -> bool
    ensures { result ≡ is_about_script hint verb.now }
{
    match hint {
        Some(Hint::RunScript) => is_path(verb),
        _ => false,
    }
}
