//! What is done at a step, however the step is shown.

ghost use Rattle.std.specs.Prelude.{◌≡◌, ◌≤◌, ◌||◌, ◌&&◌, not, length, Err, IsTrue};
ghost use Rattle.std.specs.Option.{option_map};
ghost use Rattle.rh_defs.specs.Post.{most_messages};
ghost use Rattle.rh_defs.specs.Order.{IsReordered};
ghost use Rattle.rh_defs.specs.Range.{in_range};
ghost use Rattle.rh_defs.specs.Commands.{step};
ghost use Rattle.rh_pictures.specs.Deeds.{IsLikeReply, reply_to, rest_means};
ghost use Rattle.rh_pictures.specs.DrawnReplies.{Excerpts};
ghost use Rattle.rh_map.specs.Replies.{front_of};
ghost use Rattle.rh_figure.specs.Map.{is_mark as is_mark_of};
ghost use Rattle.rh_figure.specs.Scene.{marks_of};
ghost use Rattle.rh_scene.specs.Steps.{marks_seen};

use crate::drawn::Drawn;
use crate::excerpt::{excerpt_answer, excerpt_reply};
use rh_defs::sizes::LONGEST_LINE;
use rh_defs::{Command, LineFault, Reply};
use rh_map::{Front, is_mark};
use rh_scene::{Kept, Marks, Messages, PageList, Sight, Step};

/// What was done at a step: what was kept before, the command with its reply, None for a bad line, how many lines the
/// reply has, and whether a mark asked for the step.
#[derive(Clone, Copy)]
pub struct Deed<'a> {
    pub kept: &'a Kept,
    pub command: Option<&'a Command>,
    pub reply: &'a Reply,
    pub count: u32,
    pub wanted: bool,
}

/// What stands above a figure: the number of the step's line, the line itself, the front of its reply and how many
/// lines that has; and whether there is no figure, since memory stays as it is.
#[derive(Clone, Copy)]
pub struct Above<'a> {
    pub number: u32,
    pub line: &'a [u8],
    pub front: &'a [u8],
    pub count: u32,
    pub is_still: bool,
}

/// Does a command, puts the front of all that is answered to it in its place, and answers the reply and how many lines
/// that has. A question changes nothing, and its answer's words and numbers aren't needed: Done stands in their place.
pub fn answer<D: Drawn>(drawn: &mut D, command: &Command, front: &mut Front) -> (Reply, u32)
    requires in_range { IsTrue (in_range command.now) }
    ensures desk { IsReordered (step (D.desk drawn.old) command.now).0 (D.desk drawn.new) }
    ensures reply { IsLikeReply (D.desk drawn.old) command.now result.0 }
    ensures excerpt { Excerpts (front_of front.new) result.1 (reply_to (D.desk drawn.old) command.now) }
{
    if let Command::Ask(question) = command {
        let count = excerpt_answer(drawn, question, front);
        return (Reply::Done, count);
    }
    let handed = drawn.handed(command);
    let reply = drawn.apply(command);
    let count = excerpt_reply(&reply, &handed, front);
    (reply, count)
}

/// Does a command of a step that isn't shown. A question changes nothing.
pub fn change<D: Drawn>(drawn: &mut D, command: &Command)
    requires { IsTrue (in_range command.now) }
    ensures { IsReordered (step (D.desk drawn.old) command.now).0 (D.desk drawn.new) }
{
    if let Command::Ask(_) = command {
        return;
    }
    drawn.apply(command);
}

/// A step, with what its command did. All its parts are lent for as long as it is used.
pub fn step_of<'a, S: Sight>(
    sight: &'a S,
    kept: &'a Kept,
    command: Option<&'a Command>,
    reply: &Reply,
    messages: &'a Messages,
    pages: &'a PageList,
) -> Step<'a>
    ensures kept { result.kept.now ≡ kept.now }
    ensures marks { marks_seen result.marks ≡ marks_of (S.desk sight.now) kept.now (option_map
        (λ c. c.now) command.entry) reply.now }
    ensures messages { result.messages.now ≡ messages.now.items }
    ensures few { length result.messages.now ≤ most_messages }
    ensures pages { result.pages.now ≡ pages.now.items }
{
    let marks = Marks::new(sight, kept, command, reply);
    Step {
        kept,
        marks,
        messages,
        pages,
    }
}

/// Whether the next command is wanted, behind one more line that asks for nothing.
pub fn is_wanted(wanted: bool, line: &[u8]) -> bool
    ensures { result ≡ (wanted || is_mark_of line.now) }
{
    wanted || is_mark(line)
}

/// Whether this holds, unless that does.
pub fn and_not(this: bool, that: bool) -> bool
    ensures { result ≡ (this && not that) }
{
    this && !that
}

/// What is wrong with a line that was cut.
pub fn rest_fault(rest: &[u8]) -> LineFault
    ensures { rest_means rest.now ≡ Err result }
{
    if rest.len() > LONGEST_LINE {
        LineFault::TooLong
    } else {
        LineFault::Unended
    }
}
