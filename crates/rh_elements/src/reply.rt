//! The lines of a reply, of which the first are shown.

ghost use Rattle.std.specs.Prelude.{◌≡◌, ◌≤◌, ◌-◌, List, ℕ, ◌++◌, codes, length};
ghost use Rattle.std.specs.List.{flat_map, join_by};
ghost use Rattle.rh_elements.specs.Inner.DrawReplies.{behind_feeds};
ghost use Rattle.rh_figure.specs.Map.{more_lines};
ghost use Rattle.rh_figure.specs.Phrases.{cut};
ghost use Rattle.rh_figure.specs.declared.limits.TheConstants.{MOST_REPLY_LINES, REPLY_COLUMNS};
ghost use Rattle.rh_map.specs.Replies.{excerpt_lines, first_lines, lines_in, more_behind};
ghost use Rattle.rh_sheet.specs.Markup.{escape};

use crate::escape::put_escaped;
use rh_figure::limits::{MOST_REPLY_LINES, REPLY_COLUMNS};
use rh_lines::{Pen, Row};
use rh_map::{add_cut, next_line};

/// Writes the first lines of a reply from its front, and how many of `count` lines are left out, a line feed between
/// two.
pub(crate) fn put_reply<P: Pen>(front: &[u8], count: u32, pen: &mut P)
    ensures { P.offered pen.new ≡ P.offered pen.old
        ++ escape (join_by (λ (t : List ℕ). t) (codes "\n") (excerpt_lines front.now count)) }
{
    let Some((line, behind)) = next_line(front) else {
        put_more(b"", count, pen);
        return;
    };
    put_line(b"", line, pen);
    put_lines(behind, pen);
    put_more(b"\n", count, pen);
}

/// Writes the first lines of a front that stand behind the first one of a reply.
fn put_lines<P: Pen>(front: &[u8], pen: &mut P)
    ensures { P.offered pen.new ≡ P.offered pen.old
        ++ escape (behind_feeds (first_lines (MOST_REPLY_LINES - 1) (lines_in front.now))) }
{
    let mut rest = front;
    let mut left = MOST_REPLY_LINES - 1;
    while left > 0 {
        let Some((line, behind)) = next_line(rest) else {
            return;
        };
        put_line(b"\n", line, pen);
        rest = behind;
        left -= 1;
    }
}

/// Writes a line of a reply, cut, behind what stands before it.
fn put_line<P: Pen>(before: &[u8], line: &[u8], pen: &mut P)
    requires { length before.now ≤ 1 }
    ensures { P.offered pen.new ≡ P.offered pen.old ++ escape (before.now ++ cut REPLY_COLUMNS line.now) }
{
    let mut row = Row::new();
    row.text(before);
    add_cut(&mut row, REPLY_COLUMNS, line);
    put_escaped(row.as_slice(), pen);
}

/// Writes how many of `count` lines are left out, if some are, behind what stands before it.
fn put_more<P: Pen>(before: &[u8], count: u32, pen: &mut P)
    requires { length before.now ≤ 1 }
    ensures { P.offered pen.new ≡ P.offered pen.old
        ++ escape (flat_map (λ (line : List ℕ). before.now ++ line) (more_behind count)) }
{
    if count as usize > MOST_REPLY_LINES {
        put_more_lines(before, count - MOST_REPLY_LINES as u32, pen);
    }
}

/// Writes how many lines are left out.
fn put_more_lines<P: Pen>(before: &[u8], count: u32, pen: &mut P)
    requires { length before.now ≤ 1 }
    ensures { P.offered pen.new ≡ P.offered pen.old ++ escape (before.now ++ more_lines count) }
{
    let mut row = Row::new();
    row.text(before);
    row.text(b"  and ");
    row.decimal(count);
    row.text(b" lines more");
    put_escaped(row.as_slice(), pen);
}
