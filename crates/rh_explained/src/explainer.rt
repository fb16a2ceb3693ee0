//! A script in the middle of its explanations.

ghost use Rattle.std.specs.Prelude.{◌≡◌, ◌<◌, ◌+◌, ◌^◌, ◌++◌, Ok, Some, IsTrue, true, false, length, nat_lt};
ghost use Rattle.std.specs.Prelude.{if◌then◌else◌};
ghost use Rattle.rh_defs.specs.Range.{in_range};
ghost use Rattle.rh_defs.specs.declared.sizes.TheConstants.{LONGEST_LINE};
ghost use Rattle.rh_explained.specs.Explanations.{bad_line};
ghost use Rattle.rh_session.specs.Lines.{kept};
ghost use Rattle.rh_session.specs.Taken.{Gives};
ghost use Rattle.rh_session.specs.Outcome.{status_of};

use crate::desk_facts::DeskFacts;
use crate::facts::Facts;
use crate::faults::put_bad_line;
use crate::refused::put_refused;
use rh_defs::sizes::LONGEST_LINE;
use rh_defs::{Command, LineFault, Question, Reply};
use rh_lines::{Pen, read_line};
use rh_session::{LineTaker, Status};

/// A script in the middle of its explanations: the desktop, how many lines are behind it, and whether something was
/// said of one.
#[derive(Drop)]
pub struct Explainer<D> {
    desktop: D,
    lines: u32,
    has_said: bool,
}

impl<D: DeskFacts> Explainer<D> {
    ghost use Rattle.rh_explained.specs.SaidLines.{SaidOfMeaning};

    /// One that has taken no line.
    pub fn new(desktop: D) -> Explainer<D>
        ensures desktop { result.desktop ≡ desktop }
        ensures lines { result.lines ≡ 0 }
        ensures well { result.has_said ≡ false }
    {
        Explainer {
            desktop,
            lines: 0,
            has_said: false,
        }
    }

    /// Does the command of a line, and explains why it was refused, if it was.
    fn carry_out<P: Pen>(&mut self, line: &[u8], command: &Command, pen: &mut P)
        requires in_range { IsTrue (in_range command.now) }
        requires room { self.old.lines + 1 < 2 ^ 32 }
        ensures { Gives (SaidOfMeaning D.spells self.old line.now (Ok (Some command.now)) self.new) (P.offered pen.old)
            (P.offered pen.new) }
    {
        self.lines += 1;
        if let Reply::Refused(refusal) = self.desktop.apply(command) {
            self.has_said = true;
            let facts = Facts::of(&self.desktop, command);
            put_refused(&facts, self.lines, line, command, refusal, pen);
        }
    }

    /// Explains what is wrong with a bad line.
    fn refuse<P: Pen>(&mut self, line: &[u8], fault: &LineFault, pen: &mut P)
        requires { self.old.lines + 1 < 2 ^ 32 }
        ensures said { P.offered pen.new ≡ P.offered pen.old ++ bad_line (self.old.lines + 1) line.now fault.now }
        ensures same { self.new ≡ record self.old { lines = self.old.lines + 1; has_said = true } }
    {
        self.lines += 1;
        self.has_said = true;
        put_bad_line(self.lines, line, fault, pen);
    }

    /// How the script went so far: whether something was said of a line.
    pub fn status(&self) -> Status
        ensures { result ≡ status_of self.now.has_said }
    {
        if self.has_said {
            Status::BadLines
        } else {
            Status::Clean
        }
    }
}

impl<D: DeskFacts> LineTaker for Explainer<D> {
    ghost use Rattle.std.specs.Prelude.{◌-◌, ◌^◌};
    ghost use Rattle.rh_explained.specs.SaidLines.{SaidOfLine, SaidOfRest};

    ghost took = { SaidOfLine D.spells };

    ghost took_rest = { SaidOfRest };

    ghost room = { λ e. 2 ^ 32 - 1 - e.lines };

    fn take_line<P: Pen>(&mut self, line: &[u8], pen: &mut P) {
        let line = kept(line);
        let mut command = Command::Ask(Question::Areas);
        match read_line(line, &mut command) {
            Ok(false) => self.lines += 1,
            Ok(true) => self.carry_out(line, &command, pen),
            Err(fault) => self.refuse(line, &fault, pen),
        }
    }

    fn take_rest<P: Pen>(&mut self, rest: &[u8], pen: &mut P) {
        let rest = kept(rest);
        if rest.is_empty() {
            return;
        }
        let fault = cut_fault(rest);
        self.refuse(rest, &fault, pen);
    }
}

/// What is wrong with a line that was cut.
fn cut_fault(rest: &[u8]) -> LineFault
    ensures { result ≡ (if nat_lt LONGEST_LINE (length rest.now) then LineFault.TooLong else LineFault.Unended) }
{
    if rest.len() > LONGEST_LINE {
        LineFault::TooLong
    } else {
        LineFault::Unended
    }
}

/// What counts of a line.
#[tactic(auto, unfolding(rh_session::specs::Lines::kept))]
fn kept(line: &[u8]) -> &[u8]
    ensures { result.now ≡ kept line.now }
{
    if line.len() <= LONGEST_LINE {
        return line;
    }
    &line[..LONGEST_LINE + 1]
}
