//! A script in the middle of its run.

ghost use Rattle.std.specs.Prelude.{◌≡◌, ◌≢◌, ◌<◌, ◌++◌, Ok, Some, None, IsTrue, false, length};
ghost use Rattle.rh_defs.specs.declared.command.Command.TheVariants.{Ask};
ghost use Rattle.rh_defs.specs.declared.question.Question.{Question as AnyQuestion};
ghost use Rattle.rh_defs.specs.Desk.{Desk};
ghost use Rattle.rh_defs.specs.Range.{in_range};
ghost use Rattle.rh_defs.specs.Script.{rest_text};
ghost use Rattle.rh_defs.specs.Text.{fault_text, handed_text, taken_of};
ghost use Rattle.rh_session.specs.Taken.{Gives};
ghost use Rattle.rh_session.specs.Outcome.{status_of};

use crate::desktop::Desktop;
use crate::status::Status;
use crate::taker::LineTaker;
use rh_defs::sizes::LONGEST_LINE;
use rh_defs::{Command, Data, Handle, LineFault, Question};
use rh_lines::{Pen, put_fault, put_first_line, put_handed_line, read_line};

/// A script in the middle of its run: the desktop, the place of each line's command, and whether a line was bad.
#[derive(Drop)]
pub struct Session<D> {
    desktop: D,
    command: Command,
    has_bad_line: bool,
}

impl<D: Desktop> Session<D> {
    ghost use Rattle.rh_session.specs.Answers.{AnsweredMeaning};

    /// A session over this desktop, which has taken no line.
    pub fn new(desktop: D) -> Session<D>
        ensures desktop { result.desktop ≡ desktop }
        ensures well { result.has_bad_line ≡ false }
    {
        Session {
            desktop,
            command: Command::Ask(Question::Areas),
            has_bad_line: false,
        }
    }

    /// Does the command that was read, and answers it. A question is asked of the desktop as it stands.
    fn carry_out<P: Pen>(&mut self, pen: &mut P)
        requires { IsTrue (in_range self.old.command) }
        ensures { Gives (AnsweredMeaning D.spells self.old (Ok (Some self.old.command)) self.new) (P.offered pen.old)
            (P.offered pen.new) }
    {
        match &self.command {
            Command::Ask(question) => self.desktop.put_answer(question, pen),
            Command::Poll { name } => {
                if self.desktop.is_raw(name) {
                    self.hand_out(pen);
                } else {
                    self.reply(pen);
                }
            }
            _ => self.reply(pen),
        }
    }

    /// Does a command that hands out nothing, and answers it.
    #[inline(always)]
    fn reply<P: Pen>(&mut self, pen: &mut P)
        requires ranged { IsTrue (in_range self.old.command) }
        requires command { (question : AnyQuestion) → self.old.command ≢ Ask question }
        requires quiet { (d : Desk) → D.spells self.old.desktop d → taken_of d self.old.command ≡ None }
        ensures { Gives (AnsweredMeaning D.spells self.old (Ok (Some self.old.command)) self.new) (P.offered pen.old)
            (P.offered pen.new) }
    {
        let reply = self.desktop.apply(&self.command);
        put_first_line(&reply, pen);
    }

    /// Does a command, and answers it with what it hands to a task with code of its own. Few lines come here, and their
    /// place for a message's data is none of the others'.
    #[inline(never)]
    fn hand_out<P: Pen>(&mut self, pen: &mut P)
        requires ranged { IsTrue (in_range self.old.command) }
        requires command { (question : AnyQuestion) → self.old.command ≢ Ask question }
        ensures { Gives (AnsweredMeaning D.spells self.old (Ok (Some self.old.command)) self.new) (P.offered pen.old)
            (P.offered pen.new) }
    {
        let handed = self.desktop.handed(&self.command);
        let reply = self.desktop.apply(&self.command);
        put_first_line(&reply, pen);
        put_handed(&handed, pen);
    }

    /// How the run went so far.
    pub fn status(&self) -> Status
        ensures { result ≡ status_of self.now.has_bad_line }
    {
        if self.has_bad_line {
            Status::BadLines
        } else {
            Status::Clean
        }
    }
}

impl<D: Desktop> LineTaker for Session<D> {
    ghost use Rattle.std.specs.Prelude.{◌^◌};
    ghost use Rattle.rh_session.specs.Answers.{AnsweredLine, AnsweredRest};

    ghost took = { AnsweredLine D.spells };

    ghost took_rest = { AnsweredRest };

    ghost room = { λ _. 2 ^ 64 };

    fn take_line<P: Pen>(&mut self, line: &[u8], pen: &mut P) {
        match read_line(line, &mut self.command) {
            Ok(false) => {}
            Ok(true) => self.carry_out(pen),
            Err(fault) => {
                self.has_bad_line = true;
                put_fault(&fault, pen);
            }
        }
    }

    fn take_rest<P: Pen>(&mut self, rest: &[u8], pen: &mut P) {
        if rest.is_empty() {
            return;
        }
        self.has_bad_line = true;
        put_fault(&cut_fault(rest), pen);
    }
}

/// Writes the line about a message that was handed out, where one was.
fn put_handed<P: Pen>(handed: &Option<(Handle, Data)>, pen: &mut P)
    ensures { P.offered pen.new ≡ P.offered pen.old ++ handed_text handed.now }
{
    match handed {
        Some(parts) => put_handed_line(parts.0, parts.1.as_slice(), pen),
        None => {}
    }
}

/// What is wrong with a line that was cut.
fn cut_fault(rest: &[u8]) -> LineFault
    requires { 0 < length rest.now }
    ensures { fault_text result ≡ rest_text rest.now }
{
    if rest.len() > LONGEST_LINE {
        LineFault::TooLong
    } else {
        LineFault::Unended
    }
}
