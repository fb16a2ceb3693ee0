//! Headings: of the pool, of a slot and of the module area.

ghost use Rattle.std.specs.Prelude.{◌≡◌, ◌≤◌, ◌<◌, ◌+◌, List, [], ◌++◌, Some, codes, length, not};
ghost use Rattle.std.specs.Fmt.{decimal};
ghost use Rattle.rh_figure.specs.Figure.{manner_text, note_of_slot, Panel};
ghost use Rattle.rh_figure.specs.Map.{heading_line, name_with_mark, pool_line, shown_line};
ghost use Rattle.rh_figure.specs.Phrases.{pages_text, where_so};
ghost use Rattle.rh_figure.specs.Rows.{letter_at, owner_mark};
ghost use Rattle.rh_figure.specs.Share.{AreaOf};
ghost use Rattle.rh_lines.specs.declared.row.TheConstants.{ROW};
ghost use Rattle.rh_defs.specs.Desk.{most_tasks};

use crate::line::put_line;
use crate::phrases::add_pages;
use rh_defs::sizes::{FIXED_AREAS, MAX_TASKS};
use rh_defs::{Handle, Manner, Name};
use rh_lines::{Pen, Row};

/// The characters of slots, in order of handle.
const LETTERS: &[u8; MAX_TASKS] = b"abcdefghijklmnopqrstuvwxyzABCDEF";

/// A slot as its heading has it: its task's name, its character, the task's manner, handle and receive buffer, its
/// pages, and whether it budges.
#[derive(Clone, Copy)]
pub struct SlotHeading<'a> {
    pub name: &'a Name,
    pub mark: u8,
    pub manner: Manner,
    pub handle: Handle,
    pub buffer: u32,
    pub pages: u32,
    pub budging: bool,
}

/// The character of an area's pages: its number for one of the fixed areas, and M for a made one.
pub fn area_mark(number: u32) -> u8
    ensures { (slots : List Panel) → result ≡ owner_mark slots (AreaOf number) }
{
    if (number as usize) < FIXED_AREAS {
        b'0' + number as u8
    } else {
        b'M'
    }
}

/// The character of the pages of slot i, of as many as there can be.
pub fn slot_mark(i: usize) -> u8
    requires { i < most_tasks }
    ensures { result ≡ letter_at (Some i) }
{
    LETTERS[i]
}

/// Writes how many pages of the pool are free.
pub fn print_pool_heading<P: Pen>(free: u32, pages: u32, pen: &mut P)
    ensures { P.offered pen.new ≡ P.offered pen.old ++ (shown_line (pool_line free pages) ++ codes "\n") }
{
    let mut row = Row::new();
    row.text(b"Pool: ");
    row.decimal(free);
    row.text(b" of ");
    row.decimal(pages);
    row.text(b" pages free");
    put_line(row.as_slice(), pen);
}

/// Writes the heading of the module area.
pub fn print_module_heading<P: Pen>(pages: u32, pen: &mut P)
    ensures { P.offered pen.new ≡ P.offered pen.old
        ++ (shown_line (heading_line (name_with_mark [] (codes "Module area") 49) (pages_text pages)) ++ codes "\n") }
{
    let mut row = Row::new();
    row.text(b"Module area (1): ");
    add_pages(&mut row, pages);
    put_line(row.as_slice(), pen);
}

/// Writes the heading of a slot.
pub fn print_slot_heading<P: Pen>(slot: &SlotHeading<'_>, pen: &mut P)
    ensures { P.offered pen.new ≡ P.offered pen.old
        ++ (shown_line (heading_line (name_with_mark (codes "Slot ") slot.now.name.now slot.now.mark)
        (note_of_slot slot.now.manner slot.now.handle slot.now.buffer slot.now.pages slot.now.budging)) ++ codes "\n") }
{
    let mut row = Row::new();
    row.text(b"Slot ");
    row.text(slot.name.as_bytes());
    row.text(b" (");
    row.byte(slot.mark);
    row.text(b"): ");
    add_slot_note(&mut row, slot);
    put_line(row.as_slice(), pen);
}

/// Adds what is said of a slot.
pub fn add_slot_note(row: &mut Row, slot: &SlotHeading<'_>)
    requires { length row.old + 100 ≤ ROW }
    ensures value { row.new ≡ row.old
        ++ note_of_slot slot.now.manner slot.now.handle slot.now.buffer slot.now.pages slot.now.budging }
{
    add_task(row, slot.manner, slot.handle);
    add_buffer(row, slot.buffer);
    add_pages(row, slot.pages);
    add_budging(row, slot.budging);
}

fn add_task(row: &mut Row, manner: Manner, handle: Handle)
    requires { length row.old + 30 ≤ ROW }
    ensures value { row.new ≡ row.old ++ (manner_text manner ++ codes "task " ++ decimal handle) }
    ensures few { length row.new ≤ length row.old + 30 }
{
    row.text(manner_text(manner));
    row.text(b"task ");
    row.decimal(handle.0);
}

fn add_buffer(row: &mut Row, buffer: u32)
    requires { length row.old + 30 ≤ ROW }
    ensures value { row.new ≡ row.old ++ (codes ", buffer of " ++ decimal buffer ++ codes ", ") }
    ensures few { length row.new ≤ length row.old + 30 }
{
    row.text(b", buffer of ");
    row.decimal(buffer);
    row.text(b", ");
}

fn add_budging(row: &mut Row, budging: bool)
    requires { length row.old + 13 ≤ ROW }
    ensures { row.new ≡ row.old ++ where_so (not budging) (codes ", budging off") }
{
    if !budging {
        row.text(b", budging off");
    }
}

fn manner_text(manner: Manner) -> &'static [u8]
    ensures value { result.now ≡ manner_text manner }
    ensures few { length result.now ≤ 5 }
{
    match manner {
        Manner::Plain => b"",
        Manner::Deaf => b"deaf ",
        Manner::File => b"file ",
        Manner::Raw => b"raw ",
    }
}
