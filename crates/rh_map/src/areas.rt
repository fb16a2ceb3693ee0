//! Areas that are pages alone: a line for each.

ghost use Rattle.std.specs.Prelude.{◌≡◌, ◌≤◌, ◌<◌, ◌+◌, ◌++◌, codes, length};
ghost use Rattle.std.specs.Fmt.{decimal};
ghost use Rattle.rh_defs.specs.declared.sizes.TheConstants.{FIXED_AREAS, MAX_PAGES};
ghost use Rattle.rh_figure.specs.Figure.{fixed_note, listed_pages, made_note, scrap_note};
ghost use Rattle.rh_figure.specs.Map.{heading_line, shown_line};
ghost use Rattle.rh_figure.specs.Phrases.{area_name, pages_text};
ghost use Rattle.rh_lines.specs.declared.row.TheConstants.{ROW};
ghost use Rattle.rh_map.specs.MapAreas.{scrap_note_of};

use crate::line::put_line;
use crate::numbers::add_numbers;
use crate::phrases::{add_pages, add_size};
use rh_defs::Ref;
use rh_defs::sizes::FIXED_AREAS;
use rh_lines::{Pen, Row};

/// A scrap file: how many bytes it has, and the ref of its DataLoad.
#[derive(Clone, Copy)]
pub struct ScrapLine {
    pub size: u32,
    pub load: Ref,
}

/// Writes the line of one of areas 0 to 5, with the numbers of its pages.
pub fn print_fixed_area<P: Pen>(number: u32, pages: &[u16], scrap: Option<ScrapLine>, pen: &mut P)
    requires number { number < FIXED_AREAS }
    requires few { length pages.now ≤ MAX_PAGES }
    ensures { P.offered pen.new ≡ P.offered pen.old
        ++ (shown_line (heading_line (area_name number) (fixed_note (length pages.now)
        (listed_pages (length pages.now) pages.now) (scrap_note_of scrap))) ++ codes "\n") }
{
    let note = fixed_area_note(pages, scrap);
    let mut row = Row::new();
    row.text(fixed_name(number));
    row.text(b": ");
    row.text(note.as_slice());
    put_line(row.as_slice(), pen);
}

/// What is said of one of areas 0 to 5 with these pages.
pub fn fixed_area_note(pages: &[u16], scrap: Option<ScrapLine>) -> Row
    requires { length pages.now ≤ MAX_PAGES }
    ensures value { result ≡ fixed_note (length pages.now) (listed_pages
        (length pages.now) pages.now) (scrap_note_of scrap) }
    ensures few { length result ≤ 241 }
{
    let mut note = Row::new();
    add_pages(&mut note, pages.len() as u32);
    add_listed(&mut note, pages);
    add_scrap(&mut note, scrap);
    note
}

/// Writes the line of a made area, with the numbers of its pages.
pub fn print_made_area<P: Pen>(number: u32, most: u32, pages: &[u16], pen: &mut P)
    requires number { 5 < number }
    requires few { length pages.now ≤ MAX_PAGES }
    ensures { P.offered pen.new ≡ P.offered pen.old
        ++ (shown_line (heading_line (area_name number) (made_note (length pages.now) most
        (listed_pages (length pages.now) pages.now))) ++ codes "\n") }
{
    let note = made_area_note(most, pages);
    let mut row = Row::new();
    add_made_name(&mut row, number);
    row.text(b": ");
    row.text(note.as_slice());
    put_line(row.as_slice(), pen);
}

/// What is said of a made area with these pages.
pub fn made_area_note(most: u32, pages: &[u16]) -> Row
    requires { length pages.now ≤ MAX_PAGES }
    ensures value { result ≡ made_note (length pages.now) most (listed_pages (length pages.now) pages.now) }
    ensures few { length result ≤ 207 }
{
    let mut note = Row::new();
    add_part(&mut note, pages.len() as u32, most);
    add_listed(&mut note, pages);
    note
}

/// The name of one of areas 0 to 5.
fn fixed_name(number: u32) -> &'static [u8]
    requires { number < FIXED_AREAS }
    ensures value { result.now ≡ area_name number }
    ensures short { length result.now ≤ 11 }
{
    match number {
        0 => b"System heap",
        1 => b"Module area",
        2 => b"Screen",
        3 => b"Sprites",
        4 => b"Fonts",
        _ => b"RAM disc",
    }
}

/// Adds the name of a made area.
fn add_made_name(row: &mut Row, number: u32)
    requires number { 5 < number }
    requires room { length row.old + 16 ≤ ROW }
    ensures value { row.new ≡ row.old ++ area_name number }
    ensures few { length row.new ≤ length row.old + 16 }
{
    row.text(b"Area ");
    row.decimal(number);
}

/// Adds the name of an area.
pub fn add_area_name(row: &mut Row, number: u32)
    requires { length row.old + 16 ≤ ROW }
    ensures value { row.new ≡ row.old ++ area_name number }
    ensures few { length row.new ≤ length row.old + 16 }
{
    if (number as usize) < FIXED_AREAS {
        row.text(fixed_name(number));
    } else {
        add_made_name(row, number);
    }
}

/// Adds a number of pages, and how many there may be.
fn add_part(row: &mut Row, pages: u32, most: u32)
    requires { length row.old + 41 ≤ ROW }
    ensures value { row.new ≡ row.old ++ (decimal pages ++ codes " of at most " ++ pages_text most) }
    ensures few { length row.new ≤ length row.old + 41 }
{
    row.decimal(pages);
    row.text(b" of at most ");
    add_pages(row, most);
}

/// Adds the numbers of some pages, if there are any.
fn add_listed(row: &mut Row, pages: &[u16])
    requires few { length pages.now ≤ MAX_PAGES }
    requires room { length row.old + 166 ≤ ROW }
    ensures value { row.new ≡ row.old ++ listed_pages (length pages.now) pages.now }
    ensures short { length row.new ≤ length row.old + 166 }
{
    if !pages.is_empty() {
        row.text(b": ");
        add_numbers(row, pages);
    }
}

/// Adds a scrap file, if there is one.
fn add_scrap(row: &mut Row, scrap: Option<ScrapLine>)
    requires { length row.old + 58 ≤ ROW }
    ensures value { row.new ≡ row.old ++ scrap_note_of scrap }
    ensures few { length row.new ≤ length row.old + 58 }
{
    if let Some(file) = scrap {
        add_file(row, file.size, file.load);
    }
}

fn add_file(row: &mut Row, size: u32, load: Ref)
    requires { length row.old + 58 ≤ ROW }
    ensures value { row.new ≡ row.old ++ scrap_note size load }
    ensures few { length row.new ≤ length row.old + 58 }
{
    row.text(b", scrap file of ");
    add_size(row, size);
    add_load(row, load);
}

fn add_load(row: &mut Row, load: Ref)
    requires { length row.old + 25 ≤ ROW }
    ensures value { row.new ≡ row.old ++ (codes " for DataLoad " ++ decimal load) }
    ensures few { length row.new ≤ length row.old + 25 }
{
    row.text(b" for DataLoad ");
    row.decimal(load.0);
}
