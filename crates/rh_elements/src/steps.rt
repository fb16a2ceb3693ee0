//! A step: its beginning, its command and reply, and that memory stays.

ghost use Rattle.std.specs.Prelude.{◌≡◌, ◌≤◌, ◌<◌, ◌+◌, ◌^◌, ℕ, List, ◌++◌, length, map};
ghost use Rattle.rh_defs.specs.Script.{ended};
ghost use Rattle.rh_figure.specs.Map.{reply_lines, shown_byte as shown_byte_of};
ghost use Rattle.rh_figure.specs.declared.limits.TheConstants.{LINE_COLUMNS};
ghost use Rattle.rh_lines.specs.declared.row.TheConstants.{ROW};
ghost use Rattle.rh_map.specs.Replies.{excerpt_lines};
ghost use Rattle.rh_sheet.specs.SheetSteps.{back_link, command_head, command_text, last_figure, said_text, step_open};
ghost use Rattle.rh_sheet.specs.SheetSteps.{still_text};

use crate::escape::put_between;
use crate::links::add_step_link;
use crate::reply::put_reply;
use rh_figure::limits::LINE_COLUMNS;
use rh_lines::{Pen, Row};
use rh_map::{add_cut, shown_byte};

/// Adds a link to the step before step n, where there is one.
fn add_back_link(row: &mut Row, n: u32)
    requires { length row.old + 40 ≤ ROW }
    ensures value { row.new ≡ row.old ++ back_link n }
    ensures few { length row.new ≤ length row.old + 40 }
{
    if n > 1 {
        add_step_link(row, n - 1, b"&#9664;");
    } else {
        row.text(b"<span>&#9664;</span>");
    }
}

/// Writes the beginning of step n of those that are shown.
pub fn print_step_open<P: Pen>(n: u32, pen: &mut P)
    requires { n < 2 ^ 31 }
    ensures { P.offered pen.new ≡ P.offered pen.old ++ step_open n }
{
    pen.put(step_row(n).as_slice());
}

/// The beginning of step n.
fn step_row(n: u32) -> Row
    requires { n < 2 ^ 31 }
    ensures { result ≡ step_open n }
{
    let mut row = Row::new();
    row.text(b"<section id=\"d");
    row.decimal(n);
    row.text(b"\">\n<div class=\"says\">\n<nav>");
    add_back_link(&mut row, n);
    row.byte(b' ');
    add_step_link(&mut row, n + 1, b"&#9654;");
    row.text(b" <a href=\"#all\">all</a></nav>\n");
    row
}

/// A line of a script as it is shown.
fn command_row(line: &[u8]) -> Row
    ensures value { result ≡ command_text line.now }
    ensures few { length result ≤ LINE_COLUMNS }
{
    let mut front = Row::new();
    add_cut(&mut front, LINE_COLUMNS, line);
    let mut row = Row::new();
    add_shown(&mut row, front.as_slice());
    row
}

/// Adds bytes as they are shown.
fn add_shown(row: &mut Row, text: &[u8])
    requires { length row.old + length text.now ≤ ROW }
    ensures value { row.new ≡ row.old ++ map shown_byte_of text.now }
    ensures few { length row.new ≡ length row.old + length text.now }
{
    for byte in text {
        row.byte(shown_byte(*byte));
    }
}

/// Writes the number of a step, its line of the script, and its reply, by the front of it and the number of lines that
/// it has.
pub fn print_said<P: Pen>(step: u32, line: &[u8], front: &[u8], count: u32, pen: &mut P)
    ensures { (reply : List ℕ) → excerpt_lines front.now count ≡ reply_lines (ended reply)
        → P.offered pen.new ≡ P.offered pen.old ++ said_text step line.now reply }
{
    print_command(step, line, pen);
    put_reply(front, count, pen);
    pen.put(b"</pre>\n");
}

/// Writes the number of a step and its line of the script.
fn print_command<P: Pen>(step: u32, line: &[u8], pen: &mut P)
    ensures { P.offered pen.new ≡ P.offered pen.old ++ command_head step line.now }
{
    let command = command_row(line);
    let mut row = Row::new();
    row.text(b"<h2><b>");
    row.decimal(step);
    row.text(b"</b> <code>");
    put_between(
        row.as_slice(),
        command.as_slice(),
        b"</code></h2>\n<pre>",
        pen,
    );
}

/// Adds where the last figure is, if there is one.
fn add_last_figure(row: &mut Row, last: u32)
    requires { length row.old + 50 ≤ ROW }
    ensures value { row.new ≡ row.old ++ last_figure last }
    ensures few { length row.new ≤ length row.old + 50 }
{
    if last != 0 {
        row.text(b": see ");
        add_step_link(row, last, b"the last figure");
    }
}

/// Writes that there is no figure, and where the last one is, 0 for none.
pub fn print_still<P: Pen>(last: u32, pen: &mut P)
    ensures { P.offered pen.new ≡ P.offered pen.old ++ still_text last }
{
    let mut row = Row::new();
    row.text(b"<p class=\"still\">Memory stays as it is");
    add_last_figure(&mut row, last);
    row.text(b".</p>\n");
    pen.put(row.as_slice());
}
