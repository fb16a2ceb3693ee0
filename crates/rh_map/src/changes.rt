//! What a command has changed of the pool: who takes pages, and which are free again.

ghost use Rattle.std.specs.Prelude.{◌≡◌, ◌≤◌, ◌<◌, ◌+◌, ◌++◌, codes, length};
ghost use Rattle.rh_defs.specs.declared.sizes.TheConstants.{MAX_PAGES};
ghost use Rattle.rh_figure.specs.Changes.{freed_line, taken_line};
ghost use Rattle.rh_figure.specs.Map.{shown_line};
ghost use Rattle.rh_figure.specs.Phrases.{area_name, listed_numbers};
ghost use Rattle.rh_lines.specs.declared.row.TheConstants.{ROW};

use crate::areas::add_area_name;
use crate::line::put_line;
use crate::numbers::add_numbers;
use rh_defs::Name;
use rh_lines::{Pen, Row};

/// Writes which pages an area has taken.
pub fn print_area_takes<P: Pen>(number: u32, pages: &[u16], pen: &mut P)
    requires { length pages.now ≤ MAX_PAGES }
    ensures { P.offered pen.new ≡ P.offered pen.old
        ++ (shown_line (codes "  " ++ taken_line (area_name number) pages.now) ++ codes "\n") }
{
    print_change(&area_takes(number, pages), pen);
}

/// Writes which pages the slot of the task with the name has taken.
pub fn print_slot_takes<P: Pen>(name: &Name, pages: &[u16], pen: &mut P)
    requires { length pages.now ≤ MAX_PAGES }
    ensures { P.offered pen.new ≡ P.offered pen.old
        ++ (shown_line (codes "  " ++ taken_line (codes "Slot " ++ name.now) pages.now) ++ codes "\n") }
{
    print_change(&slot_takes(name, pages), pen);
}

/// Writes which pages were given back.
pub fn print_freed<P: Pen>(pages: &[u16], pen: &mut P)
    requires { length pages.now ≤ MAX_PAGES }
    ensures { P.offered pen.new ≡ P.offered pen.old ++ (shown_line (codes "  " ++ freed_line pages.now) ++ codes "\n") }
{
    print_change(&freed(pages), pen);
}

/// Writes what has changed, behind two spaces.
pub fn print_change<P: Pen>(change: &Row, pen: &mut P)
    requires { length change.now ≤ 200 }
    ensures { P.offered pen.new ≡ P.offered pen.old ++ (shown_line (codes "  " ++ change.now) ++ codes "\n") }
{
    let mut row = Row::new();
    row.text(b"  ");
    row.text(change.as_slice());
    put_line(row.as_slice(), pen);
}

/// That an area has taken these pages.
pub fn area_takes(number: u32, pages: &[u16]) -> Row
    requires { length pages.now ≤ MAX_PAGES }
    ensures value { result ≡ taken_line (area_name number) pages.now }
    ensures few { length result ≤ 200 }
{
    let mut row = Row::new();
    add_area_name(&mut row, number);
    add_taken(&mut row, pages);
    row
}

/// That the slot of the task with the name has taken these pages.
pub fn slot_takes(name: &Name, pages: &[u16]) -> Row
    requires { length pages.now ≤ MAX_PAGES }
    ensures value { result ≡ taken_line (codes "Slot " ++ name.now) pages.now }
    ensures few { length result ≤ 200 }
{
    let mut row = Row::new();
    add_slot_name(&mut row, name);
    add_taken(&mut row, pages);
    row
}

/// That these pages were given back.
pub fn freed(pages: &[u16]) -> Row
    requires { length pages.now ≤ MAX_PAGES }
    ensures value { result ≡ freed_line pages.now }
    ensures few { length result ≤ 200 }
{
    let mut row = Row::new();
    row.text(b"Free again: page ");
    add_numbers(&mut row, pages);
    row
}

/// Adds the name of a task's slot.
pub fn add_slot_name(row: &mut Row, name: &Name)
    requires { length row.old + 17 ≤ ROW }
    ensures value { row.new ≡ row.old ++ (codes "Slot " ++ name.now) }
    ensures few { length row.new ≤ length row.old + 17 }
{
    row.text(b"Slot ");
    row.text(name.as_bytes());
}

/// Adds that pages were taken.
fn add_taken(row: &mut Row, pages: &[u16])
    requires few { length pages.now ≤ MAX_PAGES }
    requires room { length row.old + 176 ≤ ROW }
    ensures value { row.new ≡ row.old ++ (codes " takes page " ++ listed_numbers pages.now) }
    ensures short { length row.new ≤ length row.old + 176 }
{
    row.text(b" takes page ");
    add_numbers(row, pages);
}
