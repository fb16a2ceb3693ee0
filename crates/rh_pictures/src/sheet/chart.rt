//! The chart of the last messages: a line down for each task, and an arrow for each message and its way back.

ghost use Rattle.std.specs.Prelude.{◌≡◌, ◌≤◌, ◌+◌, ◌++◌, length};
ghost use Rattle.std.specs.List.{flat_map};
ghost use Rattle.rh_lines.specs.declared.row.TheConstants.{ROW};
ghost use Rattle.rh_pictures.specs.Inner.Charts.{AreNear, IsSmallChart, IsWholeChart, beat_in, body_of_chart, ends_of};
ghost use Rattle.rh_pictures.specs.Inner.Charts.{life_in, path_in, stroke_of, words_in};
ghost use Rattle.rh_pictures.specs.Ways.{arrow_of, arrows_seen};
ghost use Rattle.rh_pictures.specs.declared.sheet.numbers.TheConstants.{MOST_IN_SET};
ghost use Rattle.rh_sheet.specs.Chart.{arrow_sentence, chart_figure, chart_foot as foot_of, chart_of};
ghost use Rattle.rh_sheet.specs.Chart.{fate_note as note_of_fate, fate_sentence, fate_verb as verb_of_fate};
ghost use Rattle.rh_sheet.specs.Chart.{is_now as is_now_of, step_y as step_y_of, stop_text, task_gap as gap_of};
ghost use Rattle.rh_sheet.specs.Chart.{task_x as task_x_of, vanished_note};
ghost use Rattle.rh_map.specs.MapTasks.{who_text};
ghost use Rattle.rh_sheet.specs.Markup.{escape};
ghost use Rattle.rh_sheet.specs.declared.sizes.TheConstants.{MOST_NOTES};

use crate::sheet::ways::{MessageArrow, steps_in, tasks_in, ways_of};
use crate::who::who_of;
use rh_defs::Handle;
use rh_elements::{
    Ends, Stroke, is_queued, place_among, print_beat, print_described, print_figure_end,
    print_figure_open, print_life, print_message_arrow, print_message_words, put_escaped,
};
use rh_lines::{Pen, Row};
use rh_map::{Who, add_who};
use rh_scene::{Sight, task_with};
use rh_sheet::sizes::{BEAT, CHART_EDGE, CHART_LEFT, CHART_SPREAD, CHART_TOP, CHART_WIDTH};
use rh_sheet::{Fate, Note};

/// A chart as it stands at a step: its arrows, the handles of the tasks between which they go, and the steps at which
/// they begin or end.
#[derive(Clone, Copy)]
struct Chart<'a> {
    ways: &'a [MessageArrow],
    tasks: &'a [u32],
    steps: &'a [u32],
    step: u32,
}

/// Writes the chart of the last messages as it stands at a step with a number, if there are some.
pub fn print_chart<S: Sight, P: Pen>(sight: &S, notes: &[Note], number: u32, pen: &mut P)
    requires { length notes.now ≤ MOST_NOTES }
    ensures { P.offered pen.new ≡ P.offered pen.old ++ chart_figure (S.desk sight.now) notes.now number }
{
    if notes.is_empty() {
        return;
    }
    let ways = ways_of(notes);
    let tasks = tasks_in(&ways);
    let steps = steps_in(&ways);
    let chart = Chart {
        ways: &ways,
        tasks: &tasks,
        steps: &steps,
        step: number,
    };
    print_whole(sight, &chart, pen);
}

/// Writes a chart that has arrows.
fn print_whole<S: Sight, P: Pen>(sight: &S, chart: &Chart<'_>, pen: &mut P)
    requires small { IsSmallChart chart.now }
    requires whole { IsWholeChart chart.now }
    ensures { P.offered pen.new ≡ P.offered pen.old
        ++ chart_of (S.desk sight.now) (arrows_seen chart.now.ways.now) chart.now.step }
{
    let height = chart.foot() + CHART_EDGE;
    print_figure_open(CHART_WIDTH, height, b"Messages between the tasks", pen);
    print_sentences(sight, chart.ways, pen);
    print_described(pen);
    print_chart_body(sight, chart, pen);
    print_figure_end(pen);
}

/// Writes the arrows as they are read out.
fn print_sentences<S: Sight, P: Pen>(sight: &S, ways: &[MessageArrow], pen: &mut P)
    ensures { P.offered pen.new ≡ P.offered pen.old
        ++ escape (flat_map (arrow_sentence (S.desk sight.now)) (arrows_seen ways.now)) }
{
    for way in ways {
        print_sentence(sight, way, pen);
    }
}

/// Writes an arrow as it is read out.
fn print_sentence<S: Sight, P: Pen>(sight: &S, way: &MessageArrow, pen: &mut P)
    ensures { P.offered pen.new ≡ P.offered pen.old ++ escape (arrow_sentence (S.desk sight.now) (arrow_of way.now)) }
{
    let mut row = way.words();
    row.text(b" from ");
    add_who(&mut row, &who_of(sight, Handle(way.from)));
    row.text(b" to ");
    add_who(&mut row, &who_of(sight, Handle(way.to)));
    row.text(b", sent at line ");
    row.decimal(way.start);
    row.text(b", ");
    add_fate(sight, &mut row, way);
    put_escaped(row.as_slice(), pen);
}

/// Adds what has become of a message, and at which line.
fn add_fate<S: Sight>(sight: &S, row: &mut Row, way: &MessageArrow)
    requires { length row.old + 104 ≤ ROW }
    ensures { row.new ≡ row.old ++ fate_sentence (S.desk sight.now) (arrow_of way.now) }
{
    row.text(fate_verb(way.fate));
    add_stop(row, way);
    add_fate_note(sight, row, way);
    row.text(b". ");
}

/// What has become of a message, before the number of the line.
fn fate_verb(fate: Fate) -> &'static [u8]
    ensures value { result.now ≡ verb_of_fate fate }
    ensures few { length result.now ≤ 24 }
{
    match fate {
        Fate::Queued => b"waits",
        Fate::Held => b"held since line ",
        Fate::Back => b"not taken, back at line ",
        Fate::Vanished => b"vanished at line ",
        _ => b"taken at line ",
    }
}

/// Adds the line at which it has, where a message doesn't wait.
fn add_stop(row: &mut Row, way: &MessageArrow)
    requires { length row.old + 11 ≤ ROW }
    ensures value { row.new ≡ row.old ++ stop_text (arrow_of way.now) }
    ensures few { length row.new ≤ length row.old + 11 }
{
    if !is_queued(way.fate) {
        row.decimal(way.stop);
    }
}

/// Adds why a message vanished, or that it was answered.
fn add_fate_note<S: Sight>(sight: &S, row: &mut Row, way: &MessageArrow)
    requires { length row.old + 62 ≤ ROW }
    ensures value { row.new ≡ row.old ++ note_of_fate (S.desk sight.now) (arrow_of way.now) }
    ensures few { length row.new ≤ length row.old + 62 }
{
    match way.fate {
        Fate::Vanished => add_vanished(&who_of(sight, Handle(way.to)), way.wants_answer, row),
        Fate::Answered => row.text(b", and answered"),
        _ => {}
    }
}

/// Adds who didn't take a message, and why nobody else has it.
fn add_vanished(who: &Who<'_>, wants_answer: bool, row: &mut Row)
    requires { length row.old + 62 ≤ ROW }
    ensures value { row.new ≡ row.old ++ vanished_note (who_text who.now) wants_answer }
    ensures few { length row.new ≤ length row.old + 62 }
{
    row.text(b": ");
    add_who(row, who);
    row.text(b" has died, and ");
    if wants_answer {
        row.text(b"nobody is left to take it");
    } else {
        row.text(b"it wants no answer");
    }
}

/// Writes lines, steps, arrows, and their words upon all of it.
fn print_chart_body<S: Sight, P: Pen>(sight: &S, chart: &Chart<'_>, pen: &mut P)
    requires { IsSmallChart chart.now }
    ensures { P.offered pen.new ≡ P.offered pen.old ++ body_of_chart (S.desk sight.now) chart.now }
{
    print_lives(sight, chart, pen);
    print_beats(chart, pen);
    print_arrows(chart, pen);
    print_all_words(chart, pen);
}

/// Writes the tasks' names and lines.
fn print_lives<S: Sight, P: Pen>(sight: &S, chart: &Chart<'_>, pen: &mut P)
    requires { IsSmallChart chart.now }
    ensures { P.offered pen.new ≡ P.offered pen.old
        ++ flat_map (life_in (S.desk sight.now) chart.now) chart.now.tasks.now }
{
    for task in chart.tasks {
        print_task(sight, chart, *task, pen);
    }
}

/// Writes a task's name and line.
fn print_task<S: Sight, P: Pen>(sight: &S, chart: &Chart<'_>, task: u32, pen: &mut P)
    requires { IsSmallChart chart.now }
    ensures { P.offered pen.new ≡ P.offered pen.old ++ life_in (S.desk sight.now) chart.now task }
{
    let handle = Handle(task);
    let alive = task_with(sight, handle).is_some();
    let mut name = Row::new();
    add_who(&mut name, &who_of(sight, handle));
    let x = chart.task_x(task);
    print_life(alive, name.as_slice(), chart.gap(), x, chart.foot(), pen);
}

/// Writes the numbers of the steps.
fn print_beats<P: Pen>(chart: &Chart<'_>, pen: &mut P)
    requires { IsSmallChart chart.now }
    ensures { P.offered pen.new ≡ P.offered pen.old ++ flat_map (beat_in chart.now) chart.now.steps.now }
{
    for step in chart.steps {
        print_beat(chart.step_y(*step), *step, pen);
    }
}

/// Writes the arrows without their words.
fn print_arrows<P: Pen>(chart: &Chart<'_>, pen: &mut P)
    requires { IsSmallChart chart.now }
    ensures { P.offered pen.new ≡ P.offered pen.old ++ flat_map (path_in chart.now) (arrows_seen chart.now.ways.now) }
{
    for way in chart.ways {
        print_arrow(chart, way, pen);
    }
}

/// Writes an arrow without its words.
fn print_arrow<P: Pen>(chart: &Chart<'_>, way: &MessageArrow, pen: &mut P)
    requires { IsSmallChart chart.now }
    ensures { P.offered pen.new ≡ P.offered pen.old ++ path_in chart.now (arrow_of way.now) }
{
    print_message_arrow(chart.stroke(way), chart.ends(way), pen);
}

/// Writes the words of all arrows.
fn print_all_words<P: Pen>(chart: &Chart<'_>, pen: &mut P)
    requires { IsSmallChart chart.now }
    ensures { P.offered pen.new ≡ P.offered pen.old ++ flat_map (words_in chart.now) (arrows_seen chart.now.ways.now) }
{
    for way in chart.ways {
        print_words_of(chart, way, pen);
    }
}

/// Writes the words of an arrow.
fn print_words_of<P: Pen>(chart: &Chart<'_>, way: &MessageArrow, pen: &mut P)
    requires { IsSmallChart chart.now }
    ensures { P.offered pen.new ≡ P.offered pen.old ++ words_in chart.now (arrow_of way.now) }
{
    let words = way.drawn_words();
    print_message_words(chart.stroke(way), chart.ends(way), words.as_slice(), pen);
}

impl<'a> Chart<'a> {
    /// From one task's line to the next.
    fn gap(&self) -> u32
        requires { IsSmallChart self.now }
        ensures value { result ≡ gap_of (length self.now.tasks.now) }
        ensures few { result ≤ 180 }
    {
        let gaps = self.tasks.len().saturating_sub(1).max(1);
        CHART_SPREAD / gaps as u32
    }

    /// Where the line of a task stands, from the left.
    fn task_x(&self, task: u32) -> u32
        requires { IsSmallChart self.now }
        ensures value { result ≡ task_x_of self.now.tasks.now task }
        ensures few { result ≤ 10_000 }
    {
        CHART_LEFT + self.gap() * place_among(task, self.tasks) as u32
    }

    /// The height at which arrows of a step end.
    fn step_y(&self, step: u32) -> u32
        requires { IsSmallChart self.now }
        ensures value { result ≡ step_y_of self.now.steps.now step }
        ensures few { result ≤ 10_000 }
    {
        CHART_TOP + BEAT * place_among(step, self.steps) as u32
    }

    /// Where the lines of the tasks end.
    fn foot(&self) -> u32
        requires { IsSmallChart self.now }
        ensures value { result ≡ foot_of self.now.steps.now }
        ensures few { result ≤ 10_000 }
    {
        CHART_TOP + BEAT * self.steps.len() as u32
    }

    /// Where an arrow begins and ends.
    fn ends(&self, way: &MessageArrow) -> Ends
        requires { IsSmallChart self.now }
        ensures value { result ≡ ends_of self.now way.now }
        ensures near { AreNear result }
    {
        Ends {
            x0: self.task_x(way.from),
            y0: self.step_y(way.start),
            x1: self.task_x(way.to),
            y1: self.step_y(way.stop),
        }
    }

    /// How an arrow is drawn.
    fn stroke(&self, way: &MessageArrow) -> Stroke
        ensures { result ≡ stroke_of self.now way.now }
    {
        Stroke {
            fate: way.fate,
            short: way.is_short(),
            now: self.is_now(way),
        }
    }

    /// Whether an arrow begins or ends at the step.
    fn is_now(&self, way: &MessageArrow) -> bool
        ensures { result ≡ is_now_of self.now.step (arrow_of way.now) }
    {
        way.start == self.step || way.stop == self.step
    }
}
