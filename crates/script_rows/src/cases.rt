//! The scripts, divided by `=`. The first line of each says over how many pages it is run, and whether its last line is
//! cut.

ghost use Rattle.std.specs.Prelude.{◌≤◌};

use crate::forms::{FORMS, Form, over_lent, over_own, over_plain, whole_over_lent};
use memchr::memchr;
use std::alloc::Global;
use std::io::{self, Write};

/// What divides scripts.
const DIVIDER: u8 = b'=';

/// The pages of a script whose first line has no other number.
const PAGES: u32 = 64;

/// Prints each script's replies, and how many scripts there were.
pub(crate) fn print_cases<W: Write>(alloc: Global, rows: &[u8], output: &mut W) -> io::Result<()> {
    let mut count = 0u32;
    for case in rows.split(|byte| *byte == DIVIDER) {
        let case = case.strip_prefix(b"\n").unwrap_or(case);
        let (head, script) = divided(case);
        output.write_all(head)?;
        output.write_all(b"\n")?;
        print_case(alloc, head, script, output)?;
        count = count.saturating_add(1);
    }
    writeln!(output, "{count} scripts")
}

/// The first line, without its line feed, and what follows.
fn divided(case: &[u8]) -> (&[u8], &[u8]) {
    match memchr(b'\n', case) {
        Some(at) => (&case[..at], &case[at + 1..]),
        None => (case, b""),
    }
}

/// How many pages a first line asks for.
fn pages_of(head: &[u8]) -> u32
    ensures least { 8 ≤ result }
    ensures most { result ≤ 256 }
{
    match head {
        b"8" => 8,
        b"256" => 256,
        _ => PAGES,
    }
}

/// Prints a script's replies and how its run ended, and what differs from that over a plain store.
fn print_case<W: Write>(
    alloc: Global,
    head: &[u8],
    script: &[u8],
    output: &mut W,
) -> io::Result<()> {
    let script = match head.strip_suffix(b" cut") {
        Some(_) => script.strip_suffix(b"\n").unwrap_or(script),
        None => script,
    };
    let pages = pages_of(head);
    let written = over_own(alloc, script, Form::Replies, pages)?;
    output.write_all(written.text.as_slice())?;
    writeln!(output, "{:?}", written.ended)?;
    if over_plain(alloc, script, pages)? != written {
        writeln!(output, "differs over a plain store")?;
    }
    if pages == PAGES {
        return print_forms(alloc, script, output);
    }
    Ok(())
}

/// Prints in which forms what is written over lent memory differs, of a script that is read and of one in memory.
fn print_forms<W: Write>(alloc: Global, script: &[u8], output: &mut W) -> io::Result<()> {
    for form in FORMS {
        let written = over_own(alloc, script, form, PAGES)?;
        if over_lent(alloc, script, form)? != written {
            writeln!(output, "{form:?} differs over lent memory")?;
        }
        if whole_over_lent(alloc, script, form)? != written {
            writeln!(output, "{form:?} differs of a script in memory")?;
        }
    }
    Ok(())
}
