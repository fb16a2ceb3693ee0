//! A map in the middle of its script.

ghost use Rattle.std.specs.Prelude.{◌≡◌, ◌<◌, ◌≤◌, ◌+◌, ◌++◌, ◌^◌, ◌||◌, ◌&&◌, not, ℕ, List, length, None, Some, Ok};
ghost use Rattle.std.specs.Prelude.{Err, IsTrue, false};
ghost use Rattle.std.specs.Option.{option_map};
ghost use Rattle.rh_defs.specs.Range.{in_range};
ghost use Rattle.rh_defs.specs.Line.{line_means};
ghost use Rattle.rh_pictures.specs.DrawnPlaces.{IsFirst};
ghost use Rattle.rh_pictures.specs.Inner.StepsShown.{IsSamePlace, Offers, lines_of_step};
ghost use Rattle.rh_pictures.specs.DrawnReplies.{Excerpts};
ghost use Rattle.rh_map.specs.Replies.{front_of};
ghost use Rattle.rh_figure.specs.Share.{IsShared};
ghost use Rattle.rh_map.specs.Written.{shown_lines};
ghost use Rattle.rh_session.specs.Outcome.{status_of};
ghost use Rattle.rh_scene.specs.SightPages.{share_in};

use crate::deeds::{Above, Deed, and_not, answer, change, is_wanted, rest_fault, step_of};
use crate::drawn::Drawn;
use crate::excerpt::excerpt_fault;
use crate::lists::Lists;
use crate::map::steps::print_step;
use arrayvec::ArrayVec;
use rh_defs::{Command, LineFault, Question, Reply};
use rh_lines::{Pen, read_line};
use rh_map::{Front, print_remark};
use rh_scene::{Kept, Messages, PageList, is_still};
use rh_session::{LineTaker, Status};

/// A map in the middle of its script: what is drawn, whether marked steps alone are shown, how many lines are behind
/// it, whether a mark was seen since the last command, whether a line was bad; and what a step is drawn with.
#[derive(Drop)]
pub struct Mapper<D> {
    drawn: D,
    marked: bool,
    lines: u32,
    wanted: bool,
    has_bad_line: bool,
    messages: Messages,
    pages: PageList,
    lists: Lists,
    front: Front,
}

impl<D: Drawn> Mapper<D> {
    /// A map that has taken no line.
    pub fn new(drawn: D, marked: bool) -> Mapper<D>
        ensures { IsFirst result drawn marked }
    {
        Mapper {
            drawn,
            marked,
            lines: 0,
            wanted: false,
            has_bad_line: false,
            messages: ArrayVec::new(),
            pages: ArrayVec::new(),
            lists: Lists::new(),
            front: Front::new(),
        }
    }

    /// Shows a line that asks for nothing, and notes whether it marks the next command.
    fn skip<P: Pen>(&mut self, line: &[u8], pen: &mut P)
        requires { self.old.lines + 1 < 2 ^ 32 }
        ensures drew { Offers D.desk self.old line.now (Ok None) self.new (P.offered pen.old) (P.offered pen.new) }
        ensures lines { self.new.lines ≡ self.old.lines + 1 }
    {
        let wanted = self.count_line();
        self.drawn.recall_desk();
        self.wanted = is_wanted(wanted, line);
        if and_not(self.marked, self.wanted) {
            return;
        }
        print_remark(line, pen);
    }

    /// Does the command of a line, and shows the step where it is to be shown. A bad line needs no stack for this.
    #[inline(never)]
    fn carry_out<P: Pen>(&mut self, line: &[u8], command: &Command, pen: &mut P)
        requires in_range { IsTrue (in_range command.now) }
        requires room { self.old.lines + 1 < 2 ^ 32 }
        ensures drew { Offers D.desk self.old line.now (Ok (Some command.now)) self.new (P.offered pen.old)
            (P.offered pen.new) }
        ensures lines { self.new.lines ≡ self.old.lines + 1 }
    {
        let wanted = self.count_line();
        if and_not(self.marked, wanted) {
            change(&mut self.drawn, command);
            self.drawn.recall_desk();
            return;
        }
        self.drawn.messages(&mut self.messages);
        let kept = Kept::new(&self.drawn, Some(command), &self.messages);
        let (reply, count) = answer(&mut self.drawn, command, &mut self.front);
        let deed = Deed {
            kept: &kept,
            command: Some(command),
            reply: &reply,
            count,
            wanted,
        };
        self.show(line, deed, pen);
    }

    /// Shows a line that is bad, where it is to be shown.
    fn refuse<P: Pen>(&mut self, line: &[u8], fault: &LineFault, pen: &mut P)
        requires { self.old.lines + 1 < 2 ^ 32 }
        ensures drew { Offers D.desk self.old line.now (Err fault.now) self.new (P.offered pen.old)
            (P.offered pen.new) }
        ensures lines { self.new.lines ≡ self.old.lines + 1 }
    {
        self.has_bad_line = true;
        let wanted = self.count_line();
        if and_not(self.marked, wanted) {
            self.drawn.recall_desk();
            return;
        }
        self.drawn.messages(&mut self.messages);
        let kept = Kept::new(&self.drawn, None, &self.messages);
        let count = excerpt_fault(fault, &mut self.front);
        let command: Option<&Command> = None;
        let reply = Reply::Done;
        let deed = Deed {
            kept: &kept,
            command,
            reply: &reply,
            count,
            wanted,
        };
        self.show(line, deed, pen);
    }

    /// Counts one more line, and answers whether a mark was seen since the last command.
    fn count_line(&mut self) -> bool
        requires { self.old.lines + 1 < 2 ^ 32 }
        ensures wanted { result ≡ self.old.wanted }
        ensures next { self.new ≡ record self.old { lines = self.old.lines + 1; wanted = false } }
    {
        let wanted = self.wanted;
        self.lines += 1;
        self.wanted = false;
        wanted
    }

    /// Writes a step, of which the reply's front stands in its place.
    fn show<P: Pen>(&mut self, line: &[u8], deed: Deed<'_>, pen: &mut P)
        ensures text { (text : List ℕ) → Excerpts (front_of self.old.front) deed.entry.count text
            → P.offered pen.new ≡ P.offered pen.old ++ shown_lines (lines_of_step deed.entry.wanted self.old.lines
            line.now text (D.desk self.old.drawn) (share_in self.new.pages.items (D.desk self.old.drawn))
            deed.entry.kept.now (option_map (λ c. c.now) deed.entry.command) deed.entry.reply.now) }
        ensures shared { IsShared (share_in self.new.pages.items (D.desk self.old.drawn)) (D.desk self.old.drawn) }
        ensures same { IsSamePlace self.old self.new }
    {
        self.drawn.messages(&mut self.messages);
        self.drawn.page_list(&mut self.pages);
        let step = step_of(
            &self.drawn,
            deed.kept,
            deed.command,
            deed.reply,
            &self.messages,
            &self.pages,
        );
        let above = Above {
            number: self.lines,
            line,
            front: self.front.as_slice(),
            count: deed.count,
            is_still: and_not(is_still(deed.command, deed.reply), deed.wanted),
        };
        print_step(&self.drawn, &step, &above, &mut self.lists, pen);
    }

    /// How the map went so far.
    pub fn status(&self) -> Status
        ensures { result ≡ status_of self.now.has_bad_line }
    {
        if self.has_bad_line {
            Status::BadLines
        } else {
            Status::Clean
        }
    }
}

impl<D: Drawn> LineTaker for Mapper<D> {
    ghost use Rattle.std.specs.Prelude.{◌-◌, ◌^◌};
    ghost use Rattle.rh_pictures.specs.DrawnPlaces.{TookLine, TookRest};

    ghost took = { TookLine D.desk };

    ghost took_rest = { TookRest D.desk };

    ghost room = { λ m. 2 ^ 32 - 1 - m.lines };

    fn take_line<P: Pen>(&mut self, line: &[u8], pen: &mut P) {
        let mut command = Command::Ask(Question::Areas);
        match read_line(line, &mut command) {
            Ok(false) => self.skip(line, pen),
            Ok(true) => self.carry_out(line, &command, pen),
            Err(fault) => self.refuse(line, &fault, pen),
        }
    }

    fn take_rest<P: Pen>(&mut self, rest: &[u8], pen: &mut P) {
        if rest.is_empty() {
            return;
        }
        let fault = rest_fault(rest);
        self.refuse(rest, &fault, pen);
    }
}
