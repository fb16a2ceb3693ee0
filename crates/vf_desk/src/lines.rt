//! Lines of text, and their replies.
ghost use Rattle.std.specs.Prelude.{◌≡◌, Some};
ghost use Rattle.rh_defs.specs.Desk.{Desk};
ghost use Rattle.rh_defs.specs.Order.{IsReordered};
ghost use Rattle.vf_desk.specs.Said.{said_text};
ghost use Rattle.vf_desk.specs.DeskLines.{Fills, Replies, TakesLine};

use crate::console::Console;
use crate::desk::VfDesk;
use crate::held::Held;
use crate::open_desk::OpenDesk;
use crate::status::{CLOSED, OK, SHORT};
use std::alloc::Global;

/// Takes a line without its line feed, and keeps its reply.
#[unsafe(no_mangle)]
pub extern "C" fn vf_desk_line(alloc: Global, desk: &mut VfDesk, line: &[u8]) -> u32
    ensures { TakesLine line.now desk.old.handle.open_desk desk.new.handle.open_desk result }
{
    let Some(mut open_desk) = desk.take(alloc) else {
        return CLOSED;
    };
    let status = open_desk.take_line(line);
    desk.put(open_desk);
    status
}

/// Puts the text of the last line's reply into `text`, and tells how many bytes it has; what stands behind it stays.
/// SHORT where it has more than there is room for, and then `text` and `length` stay.
#[unsafe(no_mangle)]
pub extern "C" fn vf_desk_reply(
    alloc: Global,
    desk: &mut VfDesk,
    text: &mut [u8],
    length: &mut usize,
) -> u32
    ensures replies { Replies desk.old.handle.open_desk text.old text.new length.old length.new result }
    ensures same { desk.new.handle.open_desk ≡ desk.old.handle.open_desk }
{
    let Some(mut open_desk) = desk.take(alloc) else {
        return CLOSED;
    };
    let status = open_desk.reply(text, length);
    desk.put(open_desk);
    status
}

impl OpenDesk {
    /// Takes a line, and keeps its reply: CLOSED.
    fn take_line(&mut self, line: &[u8]) -> u32
        ensures { TakesLine line.now (Some self.old) (Some self.new) result }
    {
        match &mut self.console {
            Some(console) => {
                console.take_line(line);
                OK
            }
            None => CLOSED,
        }
    }

    /// Puts the text of the reply that is kept into lent bytes, and tells its length: CLOSED, SHORT.
    fn reply(&mut self, text: &mut [u8], length: &mut usize) -> u32
        ensures replies { Replies (Some self.old) text.old text.new length.old length.new result }
        ensures same { self.new ≡ self.old }
    {
        match &self.console {
            Some(console) => fill(console, &mut self.held, text, length),
            None => CLOSED,
        }
    }
}

/// Puts the text of the reply that is kept into lent bytes, and tells its length if there is room for it.
fn fill(console: &Console, held: &mut Held, text: &mut [u8], length: &mut usize) -> u32
    ensures { (d : Desk) → IsReordered d console.now.world.desk →
        Fills (said_text d console.now.said) text.old text.new length.old length.new result }
{
    match held.print(console, text) {
        Some(n) => {
            *length = n;
            OK
        }
        None => SHORT,
    }
}
