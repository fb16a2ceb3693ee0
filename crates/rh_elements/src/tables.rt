//! Rows of the tables beside a figure.

ghost use Rattle.std.specs.Prelude.{◌≡◌, ◌≤◌, ◌++◌, Some, codes, length};
ghost use Rattle.std.specs.Fmt.{decimal};
ghost use Rattle.std.specs.List.{join_by};
ghost use Rattle.std.specs.Option.{option_map};
ghost use Rattle.rh_defs.specs.Text.{state_name as state_name_of};
ghost use Rattle.rh_defs.specs.declared.sizes.TheConstants.{MAX_PAGES};
ghost use Rattle.rh_elements.specs.Inner.DrawLetters.{behind_commas};
ghost use Rattle.rh_figure.specs.Phrases.{and_more};
ghost use Rattle.rh_map.specs.MapMessages.{held_text, mapped_letterbox, message_entry_text, waits_text};
ghost use Rattle.rh_map.specs.Sides.{side_of};
ghost use Rattle.rh_sheet.specs.Markup.{cell_text, escape};
ghost use Rattle.rh_sheet.specs.Tables.{letterbox_row, side_cells, transfer_row};

use crate::escape::put_escaped;
use crate::markup::print_cell;
use rh_defs::{Name, Ref, State};
use rh_lines::{Pen, Row};
use rh_map::{MessageEntry, Side, add_entry, add_more, state_name};

/// Writes the row of a task's name, what it holds, and the first of `count` messages that wait for it.
pub fn print_letterbox_row<P: Pen>(
    name: &[u8],
    held: Option<MessageEntry>,
    waits: &[MessageEntry],
    count: usize,
    pen: &mut P,
)
    requires { count ≤ MAX_PAGES }
    ensures { P.offered pen.new ≡ P.offered pen.old ++ letterbox_row (mapped_letterbox name.now held waits.now count) }
{
    pen.put(b"<tr>");
    print_cell(name, pen);
    print_held(held, pen);
    print_waits(waits, count, pen);
    pen.put(b"</tr>\n");
}

/// Writes the cell of what a task holds.
fn print_held<P: Pen>(held: Option<MessageEntry>, pen: &mut P)
    ensures { P.offered pen.new ≡ P.offered pen.old ++ cell_text (held_text held) }
{
    let row = held_row(held);
    print_cell(row.as_slice(), pen);
}

/// What a task holds.
fn held_row(held: Option<MessageEntry>) -> Row
    ensures { result ≡ held_text held }
{
    let mut row = Row::new();
    if let Some(entry) = held {
        add_entry(&mut row, entry);
    }
    row
}

/// Writes the cell of what waits for a task.
fn print_waits<P: Pen>(waits: &[MessageEntry], count: usize, pen: &mut P)
    requires { count ≤ MAX_PAGES }
    ensures { P.offered pen.new ≡ P.offered pen.old ++ cell_text (waits_text waits.now count) }
{
    pen.put(b"<td>");
    put_waits(waits, count, pen);
    pen.put(b"</td>");
}

/// Writes what waits for a task.
fn put_waits<P: Pen>(waits: &[MessageEntry], count: usize, pen: &mut P)
    requires { count ≤ MAX_PAGES }
    ensures { P.offered pen.new ≡ P.offered pen.old ++ escape (waits_text waits.now count) }
{
    put_entries(waits, pen);
    put_more(count, pen);
}

/// Writes messages with commas between them.
fn put_entries<P: Pen>(waits: &[MessageEntry], pen: &mut P)
    ensures { P.offered pen.new ≡ P.offered pen.old ++ escape (join_by message_entry_text (codes ", ") waits.now) }
{
    let Some((first, others)) = waits.split_first() else {
        return;
    };
    put_entry(b"", *first, pen);
    put_others(others, pen);
}

/// Writes messages behind commas.
fn put_others<P: Pen>(others: &[MessageEntry], pen: &mut P)
    ensures { P.offered pen.new ≡ P.offered pen.old ++ escape (behind_commas others.now) }
{
    for entry in others {
        put_entry(b", ", *entry, pen);
    }
}

/// Writes a message behind what stands before it.
fn put_entry<P: Pen>(before: &[u8], entry: MessageEntry, pen: &mut P)
    requires { length before.now ≤ 2 }
    ensures { P.offered pen.new ≡ P.offered pen.old ++ escape (before.now ++ message_entry_text entry) }
{
    let mut row = Row::new();
    row.text(before);
    add_entry(&mut row, entry);
    put_escaped(row.as_slice(), pen);
}

/// Writes how many of n messages aren't named.
fn put_more<P: Pen>(n: usize, pen: &mut P)
    requires { n ≤ MAX_PAGES }
    ensures { P.offered pen.new ≡ P.offered pen.old ++ escape (and_more n) }
{
    let mut row = Row::new();
    add_more(&mut row, n);
    put_escaped(row.as_slice(), pen);
}

/// Writes the cell of a number.
fn print_number_cell<P: Pen>(number: u32, pen: &mut P)
    ensures { P.offered pen.new ≡ P.offered pen.old ++ cell_text (decimal number) }
{
    let mut text = Row::new();
    text.decimal(number);
    print_cell(text.as_slice(), pen);
}

/// Writes the cells of a side of a transfer, or three empty ones.
fn print_side<P: Pen>(side: &Option<Side<'_>>, pen: &mut P)
    ensures { P.offered pen.new ≡ P.offered pen.old ++ side_cells (option_map side_of side.now) }
{
    match side {
        None => pen.put(b"<td></td><td></td><td></td>"),
        Some(side) => print_cells(side, pen),
    }
}

/// Writes the cells of a side of a transfer.
fn print_cells<P: Pen>(side: &Side<'_>, pen: &mut P)
    ensures { P.offered pen.new ≡ P.offered pen.old ++ side_cells (Some (side_of side.now)) }
{
    print_name_cell(side.name, pen);
    print_state_cell(side.record.state, pen);
    print_number_cell(side.record.count, pen);
}

/// Writes the cell of a task.
fn print_name_cell<P: Pen>(name: &Name, pen: &mut P)
    ensures { P.offered pen.new ≡ P.offered pen.old ++ cell_text name.now }
{
    print_cell(name.as_bytes(), pen);
}

/// Writes the cell of a transfer's state.
fn print_state_cell<P: Pen>(state: State, pen: &mut P)
    ensures { P.offered pen.new ≡ P.offered pen.old ++ cell_text (state_name_of state) }
{
    print_cell(state_name(state), pen);
}

/// Writes the cell of a transfer's id.
fn print_id_cell<P: Pen>(id: Ref, pen: &mut P)
    ensures { P.offered pen.new ≡ P.offered pen.old ++ cell_text (decimal id) }
{
    print_number_cell(id.0, pen);
}

/// Writes the row of a transfer, of which either side may be gone.
pub fn print_transfer_row<P: Pen>(
    id: Ref,
    goes_out: &Option<Side<'_>>,
    comes_in: &Option<Side<'_>>,
    pen: &mut P,
)
    ensures { P.offered pen.new ≡ P.offered pen.old
        ++ transfer_row (record {
          id = id;
          goes_out = option_map side_of goes_out.now;
          comes_in = option_map side_of comes_in.now;
        }) }
{
    pen.put(b"<tr>");
    print_id_cell(id, pen);
    print_side(goes_out, pen);
    print_side(comes_in, pen);
    pen.put(b"</tr>\n");
}
