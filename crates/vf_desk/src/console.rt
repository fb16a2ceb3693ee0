//! A desk that takes lines.
ghost use Rattle.std.specs.Prelude.{◌≡◌, ◌≢◌, ◌-◌, ◌^◌, ◌++◌, length, min, true, IsTrue, Some, None, Ok};
ghost use Rattle.rh_defs.specs.declared.command.Command.TheVariants.{Ask};
ghost use Rattle.rh_defs.specs.declared.question.Question.{Question as AnyQuestion};
ghost use Rattle.rh_defs.specs.Desk.{Desk};
ghost use Rattle.rh_defs.specs.Line.{line_means};
ghost use Rattle.rh_defs.specs.Order.{IsReordered};
ghost use Rattle.rh_defs.specs.Range.{in_range};
ghost use Rattle.rh_defs.specs.Script.{line_desk, line_text, meaning_desk, meaning_text};
ghost use Rattle.rh_defs.specs.Questions.{Nothing};
ghost use Rattle.rh_defs.specs.Text.{first_line, handed_text, taken_of};
ghost use Rattle.rh_lines.specs.Placed.{OnFound, if_placed};
ghost use Rattle.rh_lines.specs.WholeText.{filled};
ghost use Rattle.vf_desk.specs.Said.{said_text};
ghost use Rattle.vf_desk.specs.Console.{Prints};

use crate::desk_files::DeskFiles;
use crate::said::Said;
use rh_defs::{Command, Data, Handle, LineFault, Question, Reply};
use rh_heap_index::PageStore;
use rh_lines::{WholeText, read_line};
use rh_tasks::World;
use std::mem;

/// A world over scattered pages, with files that were copied or lent.
pub type PagedWorld = World<PageStore, DeskFiles>;

/// A world, what the last line was answered, and the place of each line's command.
#[derive(Drop)]
pub struct Console {
    pub world: PagedWorld,
    pub said: Said,
    pub command: Command,
}

impl Console {
    /// Takes a line without its line feed, and keeps what it is answered.
    pub fn take_line(&mut self, line: &[u8])
        ensures desk { (d : Desk) → IsReordered d self.old.world.desk →
            IsReordered (line_desk d line.now) self.new.world.desk }
        ensures said { (d : Desk) → IsReordered d self.old.world.desk →
            said_text (line_desk d line.now) self.new.said ≡ line_text d line.now }
    {
        match read_command(line, &mut self.command) {
            Ok(false) => self.said = Said::Nothing,
            Ok(true) => self.carry_out(),
            Err(fault) => self.said = Said::Fault(fault),
        }
    }

    /// Does the command that was read, and keeps its reply. A question changes nothing: it is taken out, and kept.
    fn carry_out(&mut self)
        requires { in_range self.old.command ≡ true }
        ensures desk { (d : Desk) → IsReordered d self.old.world.desk →
            IsReordered (meaning_desk d (Ok (Some self.old.command))) self.new.world.desk }
        ensures text { (d : Desk) → IsReordered d self.old.world.desk →
            said_text (meaning_desk d (Ok (Some self.old.command))) self.new.said
            ≡ meaning_text d (Ok (Some self.old.command)) }
    {
        match &mut self.command {
            Command::Ask(question) => {
                self.said = Said::Told(mem::replace(question, Question::Areas));
            }
            Command::Poll { name } => {
                if self.world.is_raw(name) {
                    self.hand_out();
                } else {
                    self.reply();
                }
            }
            _ => self.reply(),
        }
    }

    /// Does a command that hands out nothing, and keeps its reply.
    #[inline(always)]
    fn reply(&mut self)
        requires ranged { in_range self.old.command ≡ true }
        requires command { (question : AnyQuestion) → self.old.command ≢ Ask question }
        requires quiet { taken_of self.old.world.desk self.old.command ≡ None }
        ensures desk { (d : Desk) → IsReordered d self.old.world.desk →
            IsReordered (meaning_desk d (Ok (Some self.old.command))) self.new.world.desk }
        ensures text { (d : Desk) → IsReordered d self.old.world.desk →
            said_text (meaning_desk d (Ok (Some self.old.command))) self.new.said
            ≡ meaning_text d (Ok (Some self.old.command)) }
    {
        let reply = self.world.apply(&self.command);
        self.said = Said::Reply(reply);
    }

    /// Does a command, and keeps its reply and what it hands to a task with code of its own.
    #[inline(never)]
    fn hand_out(&mut self)
        requires ranged { in_range self.old.command ≡ true }
        requires command { (question : AnyQuestion) → self.old.command ≢ Ask question }
        ensures desk { (d : Desk) → IsReordered d self.old.world.desk →
            IsReordered (meaning_desk d (Ok (Some self.old.command))) self.new.world.desk }
        ensures text { (d : Desk) → IsReordered d self.old.world.desk →
            said_text (meaning_desk d (Ok (Some self.old.command))) self.new.said
            ≡ meaning_text d (Ok (Some self.old.command)) }
    {
        let handed = self.world.handed(&self.command);
        let reply = self.world.apply(&self.command);
        self.said = said_of(reply, handed);
    }

    /// Puts as much as has room of the text of what the last line was answered into lent bytes, over the desk as it is
    /// now, and answers how many bytes the text has, 2^64 - 1 where it has more. What stands behind it stays.
    fn put_text(&self, to: &mut [u8]) -> usize
        ensures length { (d : Desk) → IsReordered d self.now.world.desk →
            result ≡ min (length (said_text d self.now.said)) (2 ^ 64 - 1) }
        ensures bytes { (d : Desk) → IsReordered d self.now.world.desk →
            to.new ≡ filled (said_text d self.now.said) to.old }
    {
        let mut text = WholeText::new(to);
        self.said.put(&self.world, &mut text);
        text.length()
    }

    /// Does what `print` does. Where the text has room in what is held, it is printed once, and copied from there.
    fn print_by(&self, held: &mut [u8], to: &mut [u8]) -> Option<usize>
        ensures { (d : Desk) → IsReordered d self.now.world.desk →
            Prints (said_text d self.now.said) to.old to.new result }
    {
        let length = self.put_text(held);
        if length <= held.len() {
            return put_whole(&held[..length], to);
        }
        if length > to.len() {
            return None;
        }
        Some(self.put_text(to))
    }

    /// Puts the text of what the last line was answered into lent bytes, over the desk as it is now, and answers how
    /// many bytes it has; those behind it stay. None where the text is longer, and then all stay as they were. It may
    /// be held in other lent bytes before.
    pub fn print(&self, held: &mut [u8], to: &mut [u8]) -> Option<usize>
        ensures { (d : Desk) → IsReordered d self.now.world.desk →
            Prints (said_text d self.now.said) to.old to.new result }
    {
        match self.said.fixed_text() {
            Some(text) => put_whole(text, to),
            None => self.print_by(held, to),
        }
    }
}

/// Reads a line into a command's place. What this needs of the stack is free again when the command is done.
#[inline(never)]
fn read_command(line: &[u8], command: &mut Command) -> Result<bool, LineFault>
    ensures means { if_placed result command.new ≡ line_means line.now }
    ensures in_range { OnFound result (IsTrue (in_range command.new)) }
{
    read_line(line, command)
}

/// What is said of a reply, and of a message that was handed out with it.
fn said_of(reply: Reply, handed: Option<(Handle, Data)>) -> Said
    ensures { (d : Desk) → said_text d result ≡ first_line reply Nothing ++ handed_text handed }
{
    match handed {
        Some((from, data)) => Said::Handed { reply, from, data },
        None => Said::Reply(reply),
    }
}

/// Puts a text in place of the first of other bytes, and answers its length: None where it is longer, and then all stay
/// as they were.
fn put_whole(text: &[u8], to: &mut [u8]) -> Option<usize>
    ensures { Prints text.now to.old to.new result }
{
    let length = text.len();
    if length > to.len() {
        return None;
    }
    to[..length].copy_from_slice(text);
    Some(length)
}
