//! A sheet in the middle of its script.

ghost use Rattle.std.specs.Prelude.{◌≡◌, ◌≤◌, ◌<◌, ◌+◌, ◌^◌, ◌==◌, ◌&&◌, ◌||◌, ◌++◌, not, nat_lt, ℕ, List, None, Some};
ghost use Rattle.std.specs.Prelude.{Err, IfSome, IsTrue, Ok, false, length, true};
ghost use Rattle.std.specs.Bool.{OnTrue};
ghost use Rattle.std.specs.Option.{option_map};
ghost use Rattle.rh_defs.specs.Line.{line_means, words_of};
ghost use Rattle.rh_defs.specs.Range.{in_range};
ghost use Rattle.rh_defs.specs.declared.sizes.TheConstants.{MAX_PAGES};
ghost use Rattle.rh_pictures.specs.DrawnReplies.{Excerpts};
ghost use Rattle.rh_session.specs.Lines.{kept};
ghost use Rattle.rh_map.specs.Replies.{front_of};
ghost use Rattle.rh_figure.specs.Scene.{Before, Marks, is_still as is_still_of, scene_of};
ghost use Rattle.rh_figure.specs.Share.{Share};
ghost use Rattle.rh_lines.specs.Flow.{Puts};
ghost use Rattle.rh_pictures.specs.LensSizes.{IsLensSize};
ghost use Rattle.rh_pictures.specs.PaintedWalks.{IsFirstPainted, walk_in};
ghost use Rattle.rh_pictures.specs.SheetForms.{looks_of};
ghost use Rattle.rh_pictures.specs.Inner.Heads.{head_of};
ghost use Rattle.rh_pictures.specs.Inner.PaintedSteps.{DrewLine, DrewRest, LeftStep, TookStep, WroteStep, happened_at};
ghost use Rattle.rh_session.specs.Outcome.{status_of};
ghost use Rattle.rh_sheet.specs.Fates.{noted};
ghost use Rattle.rh_sheet.specs.Sheet.{is_shown, opening, sheet_end, sheet_head};
ghost use Rattle.rh_sheet.specs.SheetSteps.{step_text};
ghost use Rattle.rh_sheet.specs.declared.sizes.TheConstants.{MOST_STEPS};
ghost use Rattle.rh_scene.specs.SightMessages.{message_items};
ghost use Rattle.rh_scene.specs.SightPages.{share_in};
ghost use Rattle.rh_scene.specs.Steps.{IsSender};

use crate::deeds::{Above, Deed, and_not, answer, change, is_wanted, rest_fault, step_of};
use crate::drawn::Drawn;
use crate::excerpt::excerpt_fault;
use crate::lists::Lists;
use crate::sheet::form::SheetForm;
use crate::sheet::notes::{Notes, note_step};
use crate::sheet::progress::Progress;
use crate::sheet::steps::{print_rest, print_step};
use arrayvec::ArrayVec;
use rh_defs::{Command, LineFault, Question, Reply};
use rh_elements::{print_foot, print_head, print_remark, print_step_open};
use rh_lines::{Pen, Sink, WriteFailed, WriterPen, read_line};
use rh_map::{Front, has_words};
use rh_scene::{Kept, Messages, PageList, StepSender, is_still};
use rh_session::{LineTaker, Status};

/// So many bytes of a sheet's beginning are held at a time.
const HEAD_ROOM: usize = 16_384;

/// A sheet in the middle of its script: what is drawn, whether marked steps alone are shown, whether a line was bad,
/// how far it has come, and what is kept of the last messages; and what a step is drawn with.
#[derive(Drop)]
pub struct Painter<D> {
    drawn: D,
    marked: bool,
    has_bad_line: bool,
    progress: Progress,
    notes: Notes,
    messages: Messages,
    pages: PageList,
    lists: Lists,
    front: Front,
}

impl<D: Drawn> Painter<D> {
    /// A sheet that has taken no line.
    pub fn new(drawn: D, form: SheetForm) -> Painter<D>
        requires { IfSome form.lens IsLensSize }
        ensures { IsFirstPainted result drawn form }
    {
        Painter {
            drawn,
            marked: form.marked,
            has_bad_line: false,
            progress: Progress::new(form.lens),
            notes: ArrayVec::new(),
            messages: ArrayVec::new(),
            pages: ArrayVec::new(),
            lists: Lists::new(),
            front: Front::new(),
        }
    }

    /// Writes the beginning of the sheet, with the name of its script.
    pub fn begin<W: Sink>(&mut self, name: &[u8], writer: &mut W) -> Result<(), WriteFailed>
        ensures text { Puts (W.output writer.old) (W.output writer.new) result (sheet_head name.now
            (D.desk self.old.drawn).pool) }
        ensures rest { self.new ≡ record self.old { pages = self.new.pages } }
    {
        self.drawn.page_list(&mut self.pages);
        write_head(name, self.pages.len() as u32, writer)
    }

    /// Shows a line that asks for nothing, and notes whether it marks the next command.
    fn skip<P: Pen>(&mut self, line: &[u8], pen: &mut P)
        requires { self.old.progress.lines + 1 < 2 ^ 32 }
        ensures drew { DrewLine D.desk self.old (P.offered pen.old) line.now (Ok None) self.new (P.offered pen.new) }
        ensures lines { self.new.progress.lines ≡ self.old.progress.lines + 1 }
    {
        self.drawn.recall_desk();
        let wanted = is_wanted(self.progress.wanted(), line);
        self.progress.count_line(wanted);
        if !self.shows(line, wanted) {
            return;
        }
        self.open_step(pen);
        self.progress.open();
        print_remark(line, pen);
    }

    /// Whether a line that asks for nothing is shown: it has words, and the next command would be shown.
    fn shows(&self, line: &[u8], wanted: bool) -> bool
        ensures value { result ≡ (not (length (words_of line.now) == 0) &&
            (nat_lt self.now.progress.shown MOST_STEPS && (not self.now.marked || wanted))) }
        ensures room { OnTrue result (self.now.progress.shown < MOST_STEPS) }
    {
        has_words(line) && self.progress.is_shown(self.marked, wanted)
    }

    /// Whether the next command is shown.
    fn shows_next(&self) -> bool
        ensures value { result ≡ is_shown self.now.marked (walk_in D.desk self.now) self.now.progress.wanted }
        ensures room { OnTrue result (self.now.progress.shown < MOST_STEPS) }
    {
        self.progress.is_shown(self.marked, self.progress.wanted())
    }

    /// Does the command of a line, and shows the step where it is to be shown. A bad line needs no stack for this.
    #[inline(never)]
    fn carry_out<P: Pen>(&mut self, line: &[u8], command: &Command, pen: &mut P)
        requires in_range { IsTrue (in_range command.now) }
        requires room { self.old.progress.lines + 1 < 2 ^ 32 }
        ensures drew { DrewLine D.desk self.old (P.offered pen.old) line.now (Ok (Some command.now)) self.new
            (P.offered pen.new) }
        ensures lines { self.new.progress.lines ≡ self.old.progress.lines + 1 }
    {
        if !self.shows_next() {
            self.pass(command);
            return;
        }
        self.drawn.messages(&mut self.messages);
        let kept = Kept::new(&self.drawn, Some(command), &self.messages);
        let (reply, count) = answer(&mut self.drawn, command, &mut self.front);
        let deed = Deed {
            kept: &kept,
            command: Some(command),
            reply: &reply,
            count,
            wanted: self.progress.wanted(),
        };
        self.take_step(line, deed, pen);
    }

    /// Does a command whose step is left out.
    fn pass(&mut self, command: &Command)
        requires in_range { IsTrue (in_range command.now) }
        requires room { self.old.progress.lines + 1 < 2 ^ 32 }
        requires hidden { is_shown self.old.marked (walk_in D.desk self.old) self.old.progress.wanted ≡ false }
        ensures left { (o : List ℕ) (line : List ℕ)
            → DrewLine D.desk self.old o line (Ok (Some command.now)) self.new o }
        ensures lines { self.new.progress.lines ≡ self.old.progress.lines + 1 }
    {
        let sender = StepSender::new(&self.drawn, Some(command), &mut self.messages);
        change(&mut self.drawn, command);
        self.leave_out(sender);
    }

    /// Leaves a step out, and notes what has become of the last messages at it.
    fn leave_out(&mut self, sender: StepSender)
        requires room { self.old.progress.lines + 1 < 2 ^ 32 }
        requires hidden { is_shown self.old.marked (walk_in D.desk self.old) self.old.progress.wanted ≡ false }
        ensures left { (b : Before) → IsSender sender b → LeftStep D.desk self.old b self.new }
        ensures lines { self.new.progress.lines ≡ self.old.progress.lines + 1 }
    {
        self.begin_step(sender);
        self.drawn.recall_desk();
        self.progress.leave_out();
    }

    /// Shows a line that is bad, where it is to be shown.
    fn refuse<P: Pen>(&mut self, line: &[u8], fault: &LineFault, pen: &mut P)
        requires room { self.old.progress.lines + 1 < 2 ^ 32 }
        ensures drew { DrewLine D.desk self.old (P.offered pen.old) line.now (Err fault.now) self.new
            (P.offered pen.new) }
        ensures lines { self.new.progress.lines ≡ self.old.progress.lines + 1 }
    {
        self.has_bad_line = true;
        if !self.shows_next() {
            let sender = StepSender::new(&self.drawn, None, &mut self.messages);
            self.leave_out(sender);
            return;
        }
        self.drawn.messages(&mut self.messages);
        let kept = Kept::new(&self.drawn, None, &self.messages);
        let count = excerpt_fault(fault, &mut self.front);
        let command: Option<&Command> = None;
        let reply = Reply::Done;
        let deed = Deed {
            kept: &kept,
            command,
            reply: &reply,
            count,
            wanted: self.progress.wanted(),
        };
        self.take_step(line, deed, pen);
    }

    /// Notes what has become of the last messages, and writes the step.
    fn take_step<P: Pen>(&mut self, line: &[u8], deed: Deed<'_>, pen: &mut P)
        requires room { self.old.progress.lines + 1 < 2 ^ 32 }
        requires few { self.old.progress.shown < MOST_STEPS }
        requires shown { is_shown self.old.marked (walk_in D.desk self.old) self.old.progress.wanted ≡ true }
        requires wanted { deed.wanted ≡ self.old.progress.wanted }
        ensures text { (text : List ℕ) → Excerpts (front_of self.old.front) deed.entry.count text →
            TookStep D.desk self.old (P.offered pen.old) (P.offered pen.new) line.now
            (λ s. happened_at (D.desk self.old.drawn) s deed.entry.kept.now (option_map
            (λ c. c.now) deed.entry.command) deed.entry.reply.now text) self.new }
        ensures lines { self.new.progress.lines ≡ self.old.progress.lines + 1 }
    {
        self.begin_step(deed.kept.sender());
        self.drawn.messages(&mut self.messages);
        self.show(line, deed, pen);
    }

    /// Counts the line of one more command, and notes what has become of the last messages behind it.
    fn begin_step(&mut self, sender: StepSender)
        requires { self.old.progress.lines + 1 < 2 ^ 32 }
        ensures next { let old = self.old.progress in
            self.new.progress ≡ record old { lines = old.lines + 1; wanted = false } }
        ensures few { self.new.progress.left < self.new.progress.lines }
        ensures notes { (s : Share) (b : Before) (m : Marks) → IsSender sender b → self.new.notes.items
            ≡ noted (self.old.progress.lines + 1) (scene_of (D.desk self.old.drawn) s b m) self.old.notes.items }
        ensures rest { self.new
            ≡ record self.old { progress = self.new.progress; messages = self.new.messages; notes = self.new.notes } }
    {
        self.progress.count_line(false);
        let number = self.progress.lines();
        note_step(
            &self.drawn,
            sender,
            number,
            &mut self.messages,
            &mut self.notes,
        );
    }

    /// Writes the beginning of the next step, if no remark has begun it.
    fn open_step<P: Pen>(&self, pen: &mut P)
        ensures { P.offered pen.new ≡ P.offered pen.old ++ opening (walk_in D.desk self.now) }
    {
        if self.progress.is_open() {
            return;
        }
        print_step_open(self.progress.next(), pen);
    }

    /// Writes a step, of which the reply's front stands in its place.
    fn show<P: Pen>(&mut self, line: &[u8], deed: Deed<'_>, pen: &mut P)
        requires room { self.old.progress.shown < MOST_STEPS }
        requires messages { self.old.messages.items ≡ message_items (D.desk self.old.drawn) }
        ensures text { (text : List ℕ) → Excerpts (front_of self.old.front) deed.entry.count text →
            WroteStep D.desk self.old (P.offered pen.old) (P.offered pen.new) line.now deed.entry.wanted
            (λ s. happened_at (D.desk self.old.drawn) s deed.entry.kept.now (option_map
            (λ c. c.now) deed.entry.command) deed.entry.reply.now text) self.new }
        ensures lines { self.new.progress.lines ≡ self.old.progress.lines }
    {
        self.drawn.page_list(&mut self.pages);
        self.open_step(pen);
        let step = step_of(
            &self.drawn,
            deed.kept,
            deed.command,
            deed.reply,
            &self.messages,
            &self.pages,
        );
        let above = Above {
            number: self.progress.lines(),
            line,
            front: self.front.as_slice(),
            count: deed.count,
            is_still: and_not(is_still(deed.command, deed.reply), deed.wanted),
        };
        print_step(
            &self.drawn,
            &step,
            &above,
            &self.notes,
            self.progress.last(),
            self.progress.lens(),
            &mut self.lists,
            pen,
        );
        self.progress.end_step(above.is_still);
    }

    /// Writes the end of the sheet.
    fn end<P: Pen>(&self, pen: &mut P)
        ensures { P.offered pen.new ≡ P.offered pen.old ++ sheet_end (walk_in D.desk self.now) }
    {
        print_rest(self.progress.is_open(), pen);
        print_foot(self.progress.begun(), self.progress.left(), pen);
    }

    /// How the sheet went so far.
    pub fn status(&self) -> Status
        ensures { result ≡ status_of self.now.has_bad_line }
    {
        if self.has_bad_line {
            Status::BadLines
        } else {
            Status::Clean
        }
    }
}

impl<D: Drawn> LineTaker for Painter<D> {
    ghost use Rattle.std.specs.Prelude.{◌-◌, ◌^◌};
    ghost use Rattle.rh_pictures.specs.PaintedWalks.{TookPaintedLine, TookPaintedRest};

    ghost took = { TookPaintedLine D.desk };

    ghost took_rest = { TookPaintedRest D.desk };

    ghost room = { λ m. 2 ^ 32 - 1 - m.progress.lines };

    fn take_line<P: Pen>(&mut self, line: &[u8], pen: &mut P) {
        let mut command = Command::Ask(Question::Areas);
        match read_line(line, &mut command) {
            Ok(false) => self.skip(line, pen),
            Ok(true) => self.carry_out(line, &command, pen),
            Err(fault) => self.refuse(line, &fault, pen),
        }
    }

    fn take_rest<P: Pen>(&mut self, rest: &[u8], pen: &mut P) {
        if rest.is_empty() {
            self.end(pen);
            return;
        }
        let fault = rest_fault(rest);
        self.refuse(rest, &fault, pen);
        self.end(pen);
    }
}

/// Writes the beginning of a sheet over so many pages, with the name of its script.
fn write_head<W: Sink>(name: &[u8], pages: u32, writer: &mut W) -> Result<(), WriteFailed>
    requires { pages ≤ MAX_PAGES }
    ensures { Puts (W.output writer.old) (W.output writer.new) result (head_of name.now pages) }
{
    let mut room = [0; HEAD_ROOM];
    let mut pen = WriterPen::new(writer, &mut room);
    print_head(name, pages, &mut pen);
    pen.finish()
}
