//! The elements of a chart of messages.

ghost use Rattle.std.specs.Prelude.{◌≡◌, ◌≤◌, ◌*◌, ◌/◌, ◌++◌, codes, length, max, take};
ghost use Rattle.rh_elements.specs.declared.chart.TheConstants.{FARTHEST};
ghost use Rattle.rh_sheet.specs.Chart.{beat_text, fate_class as class_of_fate, is_lost as is_lost_at};
ghost use Rattle.rh_sheet.specs.Chart.{life_class as class_of_life, life_text, line_way as way_of_line};
ghost use Rattle.rh_sheet.specs.Chart.{loop_way as way_of_loop, lost_way as way_of_lost};
ghost use Rattle.rh_sheet.specs.Chart.{message_class as class_of_message, part_way as place_on_way};
ghost use Rattle.rh_sheet.specs.Chart.{message_way as way_of_message, message_words, side_letters as letters_of_side};
ghost use Rattle.rh_sheet.specs.Chart.{stub_way as way_of_stub, tip_x as x_of_tip, words_aside as aside_of_words};
ghost use Rattle.rh_sheet.specs.Chart.{words_class as class_of_words, words_down as down_of_words};
ghost use Rattle.rh_sheet.specs.Chart.{words_x as x_of_words};
ghost use Rattle.rh_sheet.specs.Markup.{path_text, point_text, stretch_text, words_text};
ghost use Rattle.rh_sheet.specs.declared.sizes.TheConstants.{LETTER_UNITS, LIFE_TOP, NAME_Y, STUB_ASIDE, WORDS_DOWN};

use crate::boxes::print_words;
use crate::markup::{add_point, add_stretch, print_path};
use rh_lines::{Pen, Row};
use rh_sheet::Fate;
use rh_sheet::sizes::{
    ARROW_RISE, ARROW_STUB, LETTER_UNITS, LIFE_TOP, LOOP_BOW, NAME_Y, STUB_ASIDE, STUB_DOWN,
    TIP_GAP, VANISHES, WORDS_ASIDE, WORDS_DOWN,
};

/// No part of a chart is farther from its upper left corner.
const FARTHEST: u32 = 100_000;

/// The ends of an arrow: from x0 at the height y0 to x1 at y1.
#[derive(Clone, Copy)]
pub struct Ends {
    pub x0: u32,
    pub y0: u32,
    pub x1: u32,
    pub y1: u32,
}

/// How an arrow is drawn: by the fate of its message, as a short one or not, and as one that began or ended at this
/// step or not.
#[derive(Clone, Copy)]
pub struct Stroke {
    pub fate: Fate,
    pub short: bool,
    pub now: bool,
}

/// Writes a task's name above its line, as far as the gap to the next has room, and the line.
pub fn print_life<P: Pen>(alive: bool, name: &[u8], gap: u32, x: u32, foot: u32, pen: &mut P)
    ensures { P.offered pen.new ≡ P.offered pen.old ++ life_text alive name.now gap x foot }
{
    print_life_name(alive, name, gap, x, pen);
    print_life_line(x, foot, pen);
}

/// Writes a task's name above its line.
fn print_life_name<P: Pen>(alive: bool, name: &[u8], gap: u32, x: u32, pen: &mut P)
    ensures { P.offered pen.new ≡ P.offered pen.old
        ++ words_text (class_of_life alive) x NAME_Y (take (max 1 (gap / LETTER_UNITS)) name.now) }
{
    let front = life_name(name, gap);
    print_words(life_class(alive), x, NAME_Y, front, pen);
}

/// Writes the line of a task.
fn print_life_line<P: Pen>(x: u32, foot: u32, pen: &mut P)
    ensures { P.offered pen.new ≡ P.offered pen.old
        ++ path_text (codes "life") (point_text (codes "M") x LIFE_TOP ++ stretch_text (codes "V") foot) }
{
    let way = life_way(x, foot);
    print_path(b"life", &way, pen);
}

/// As much of a task's name as the gap has room for.
fn life_name(name: &[u8], gap: u32) -> &[u8]
    ensures { result.now ≡ take (max 1 (gap / LETTER_UNITS)) name.now }
{
    let most = (gap / LETTER_UNITS).max(1) as usize;
    &name[..name.len().min(most)]
}

/// The line of a task.
fn life_way(x: u32, foot: u32) -> Row
    ensures value { result ≡ point_text (codes "M") x LIFE_TOP ++ stretch_text (codes "V") foot }
    ensures few { length result ≤ 60 }
{
    let mut way = Row::new();
    add_point(&mut way, b"M", x, LIFE_TOP);
    add_stretch(&mut way, b"V", foot);
    way
}

/// The classes of a task's name.
fn life_class(alive: bool) -> &'static [u8]
    ensures value { result.now ≡ class_of_life alive }
    ensures few { length result.now ≤ 8 }
{
    if alive { b"who" } else { b"who dead" }
}

/// Writes a step's number at the left.
pub fn print_beat<P: Pen>(y: u32, step: u32, pen: &mut P)
    requires { y ≤ FARTHEST }
    ensures { P.offered pen.new ≡ P.offered pen.old ++ beat_text y step }
{
    let mut text = Row::new();
    text.decimal(step);
    print_words(b"beat", 0, y + ARROW_RISE, text.as_slice(), pen);
}

/// The letters of a way to the left or to the right.
fn side_letters(west: bool) -> &'static [u8]
    ensures value { result.now ≡ letters_of_side west }
    ensures few { length result.now ≤ 2 }
{
    if west { b"h-" } else { b"h" }
}

/// A short arrow, of a message that waits.
fn stub_way(x: u32, y: u32, west: bool) -> Row
    requires { y ≤ FARTHEST }
    ensures value { result ≡ way_of_stub x y west }
    ensures few { length result ≤ 60 }
{
    let mut way = Row::new();
    add_point(&mut way, b"M", x, y + ARROW_RISE);
    add_stretch(&mut way, side_letters(west), ARROW_STUB);
    way
}

/// A bow of a message from a task to itself.
fn loop_way(x: u32, y0: u32, y1: u32) -> Row
    requires x { x ≤ FARTHEST }
    requires y { y0 ≤ FARTHEST }
    ensures value { result ≡ way_of_loop x y0 y1 }
    ensures few { length result ≤ 100 }
{
    let mut way = Row::new();
    add_point(&mut way, b"M", x, y0 + ARROW_RISE);
    add_point(&mut way, b"C", x + LOOP_BOW, y0 + ARROW_RISE);
    add_point(&mut way, b" ", x + LOOP_BOW, y1);
    add_point(&mut way, b" ", x + TIP_GAP, y1);
    way
}

/// Where a straight arrow ends, from the left.
fn tip_x(x0: u32, x1: u32) -> u32
    requires { x1 ≤ FARTHEST }
    ensures { result ≡ x_of_tip x0 x1 }
{
    if x1 < x0 {
        x1 + TIP_GAP
    } else {
        x1.saturating_sub(TIP_GAP)
    }
}

/// A straight arrow.
fn line_way(ends: Ends) -> Row
    requires x { ends.x1 ≤ FARTHEST }
    requires y { ends.y0 ≤ FARTHEST }
    ensures value { result ≡ way_of_line ends.x0 ends.y0 ends.x1 ends.y1 }
    ensures few { length result ≤ 60 }
{
    let mut way = Row::new();
    add_point(&mut way, b"M", ends.x0, ends.y0 + ARROW_RISE);
    add_point(&mut way, b"L", tip_x(ends.x0, ends.x1), ends.y1);
    way
}

/// A place on the way from one to another, before its end.
fn part_way(from: u32, to: u32) -> u32
    requires from { from ≤ 2 * FARTHEST }
    requires to { to ≤ FARTHEST }
    ensures { result ≡ place_on_way from to }
{
    ((100 - VANISHES) * from + VANISHES * to) / 100
}

/// A straight arrow that doesn't come to the other line.
fn lost_way(ends: Ends) -> Row
    requires x0 { ends.x0 ≤ FARTHEST }
    requires y0 { ends.y0 ≤ FARTHEST }
    requires x1 { ends.x1 ≤ FARTHEST }
    requires y1 { ends.y1 ≤ FARTHEST }
    ensures value { result ≡ way_of_lost ends.x0 ends.y0 ends.x1 ends.y1 }
    ensures few { length result ≤ 60 }
{
    let begin = ends.y0 + ARROW_RISE;
    let mut way = Row::new();
    add_point(&mut way, b"M", ends.x0, begin);
    add_point(
        &mut way,
        b"L",
        part_way(ends.x0, ends.x1),
        part_way(begin, ends.y1),
    );
    way
}

/// Whether a message with the fate has vanished.
pub fn is_lost(fate: Fate) -> bool
    ensures { result ≡ is_lost_at fate }
{
    matches!(fate, Fate::Vanished)
}

/// The way of an arrow; a short one has no end.
fn message_way(short: bool, lost: bool, ends: Ends) -> Row
    requires x0 { ends.x0 ≤ FARTHEST }
    requires x1 { ends.x1 ≤ FARTHEST }
    requires y0 { ends.y0 ≤ FARTHEST }
    requires y1 { ends.y1 ≤ FARTHEST }
    ensures value { result ≡ way_of_message short lost ends.x0 ends.y0 ends.x1 ends.y1 }
    ensures few { length result ≤ 100 }
{
    if short {
        stub_way(ends.x0, ends.y0, ends.x1 < ends.x0)
    } else if ends.x0 == ends.x1 {
        loop_way(ends.x0, ends.y0, ends.y1)
    } else if lost {
        lost_way(ends)
    } else {
        line_way(ends)
    }
}

/// The class of an arrow by the fate of its message.
fn fate_class(fate: Fate) -> &'static [u8]
    ensures value { result.now ≡ class_of_fate fate }
    ensures few { length result.now ≤ 9 }
{
    match fate {
        Fate::Queued => b" waits",
        Fate::Held => b" held",
        Fate::Back => b" untaken",
        Fate::Vanished => b" vanished",
        _ => b"",
    }
}

/// The classes of an arrow.
fn message_class(fate: Fate, now: bool) -> Row
    ensures value { result ≡ class_of_message fate now }
    ensures few { length result ≤ 16 }
{
    let mut class = Row::new();
    class.text(b"msg");
    class.text(fate_class(fate));
    if now {
        class.text(b" now");
    }
    class
}

/// Writes the arrow of a message.
pub fn print_message_arrow<P: Pen>(stroke: Stroke, ends: Ends, pen: &mut P)
    requires x0 { ends.x0 ≤ FARTHEST }
    requires x1 { ends.x1 ≤ FARTHEST }
    requires y0 { ends.y0 ≤ FARTHEST }
    requires y1 { ends.y1 ≤ FARTHEST }
    ensures { P.offered pen.new ≡ P.offered pen.old ++ path_text (class_of_message stroke.fate stroke.now)
        (way_of_message stroke.short (is_lost_at stroke.fate) ends.x0 ends.y0 ends.x1 ends.y1) }
{
    let class = message_class(stroke.fate, stroke.now);
    let way = message_way(stroke.short, is_lost(stroke.fate), ends);
    print_path(class.as_slice(), &way, pen);
}

/// The classes of an arrow's words.
fn words_class(west: bool, now: bool) -> &'static [u8]
    ensures value { result.now ≡ class_of_words west now }
    ensures few { length result.now ≤ 14 }
{
    match (west, now) {
        (false, false) => b"mname",
        (false, true) => b"mname now",
        (true, false) => b"mname west",
        (true, true) => b"mname west now",
    }
}

/// How far from an arrow's beginning its words stand, to the side.
fn words_aside(short: bool) -> u32
    ensures value { result ≡ aside_of_words short }
    ensures few { result ≤ STUB_ASIDE }
{
    if short { STUB_ASIDE } else { WORDS_ASIDE }
}

/// How far from an arrow's beginning its words stand, downwards.
fn words_down(short: bool) -> u32
    ensures value { result ≡ down_of_words short }
    ensures few { result ≤ WORDS_DOWN }
{
    if short { STUB_DOWN } else { WORDS_DOWN }
}

/// Where an arrow's words stand, from the left.
fn words_x(short: bool, ends: Ends) -> u32
    requires { ends.x0 ≤ FARTHEST }
    ensures { result ≡ x_of_words short ends.x0 ends.x1 }
{
    if ends.x1 < ends.x0 {
        ends.x0.saturating_sub(words_aside(short))
    } else {
        ends.x0 + words_aside(short)
    }
}

/// Writes the words of an arrow.
pub fn print_message_words<P: Pen>(stroke: Stroke, ends: Ends, text: &[u8], pen: &mut P)
    requires x { ends.x0 ≤ FARTHEST }
    requires y { ends.y0 ≤ FARTHEST }
    ensures { P.offered pen.new ≡ P.offered pen.old
        ++ message_words stroke.short stroke.now ends.x0 ends.y0 ends.x1 text.now }
{
    let class = words_class(ends.x1 < ends.x0, stroke.now);
    print_words(
        class,
        words_x(stroke.short, ends),
        ends.y0 + words_down(stroke.short),
        text,
        pen,
    );
}
