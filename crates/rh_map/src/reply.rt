//! The lines of a reply, of which the first are shown.

ghost use Rattle.std.specs.Prelude.{◌≡◌, [], ◌∷◌, ◌++◌, IfNone, IfSome};
ghost use Rattle.rh_figure.specs.declared.limits.TheConstants.{MOST_REPLY_LINES};
ghost use Rattle.rh_map.specs.Replies.{excerpt_lines, first_lines, lines_in, more_behind};
ghost use Rattle.rh_map.specs.Written.{shown_lines};

use crate::steps::{print_more_lines, print_reply_line};
use memchr::memchr;
use rh_figure::limits::MOST_REPLY_LINES;
use rh_lines::Pen;

/// Writes the first lines of a reply from its front, and how many of `count` lines are left out.
pub fn print_reply_lines<P: Pen>(front: &[u8], count: u32, pen: &mut P)
    ensures { P.offered pen.new ≡ P.offered pen.old ++ shown_lines (excerpt_lines front.now count) }
{
    print_first_lines(front, pen);
    print_more(count, pen);
}

/// Writes how many of `count` lines are left out, if some are.
fn print_more<P: Pen>(count: u32, pen: &mut P)
    ensures { P.offered pen.new ≡ P.offered pen.old ++ shown_lines (more_behind count) }
{
    if count as usize > MOST_REPLY_LINES {
        print_more_lines(count - MOST_REPLY_LINES as u32, pen);
    }
}

/// Writes the first lines of a front.
fn print_first_lines<P: Pen>(front: &[u8], pen: &mut P)
    ensures { P.offered pen.new ≡ P.offered pen.old ++ shown_lines (first_lines MOST_REPLY_LINES (lines_in front.now)) }
{
    let mut rest = front;
    let mut left = MOST_REPLY_LINES;
    while left > 0 {
        let Some((line, behind)) = next_line(rest) else {
            return;
        };
        print_reply_line(line, pen);
        rest = behind;
        left -= 1;
    }
}

/// The first line, and what stands behind its line feed.
pub fn next_line(text: &[u8]) -> Option<(&[u8], &[u8])>
    ensures none { IfNone result (lines_in text.now ≡ []) }
    ensures some { IfSome result (λ next. lines_in text.now ≡ next.0.now ∷ lines_in next.1.now) }
{
    if text.is_empty() {
        return None;
    }
    match memchr(b'\n', text) {
        Some(end) => Some((&text[..end], &text[end + 1..])),
        None => Some((text, &[])),
    }
}
