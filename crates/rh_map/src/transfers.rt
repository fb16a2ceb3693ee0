//! Transfers: a line for each, with the record of either side.

ghost use Rattle.std.specs.Prelude.{◌≡◌, ◌≤◌, ◌+◌, ◌++◌, codes, length};
ghost use Rattle.std.specs.Option.{option_map};
ghost use Rattle.rh_defs.specs.Text.{state_name as state_name_of};
ghost use Rattle.rh_figure.specs.Map.{shown_line, side_text, transfer_line};
ghost use Rattle.rh_lines.specs.declared.row.TheConstants.{ROW};
ghost use Rattle.rh_map.specs.Sides.{side_of};

use crate::line::put_line;
use rh_defs::{Name, RecordItem, Ref, State};
use rh_lines::{Pen, Row};

/// A side of a transfer: the name of its task, and its record.
#[derive(Clone, Copy)]
pub struct Side<'a> {
    pub name: &'a Name,
    pub record: RecordItem,
}

/// Writes the line of a transfer, of which either side may be gone.
pub fn print_transfer<P: Pen>(
    id: Ref,
    goes_out: &Option<Side<'_>>,
    comes_in: &Option<Side<'_>>,
    pen: &mut P,
)
    ensures { P.offered pen.new ≡ P.offered pen.old ++ (shown_line (transfer_line
        (record { id = id; goes_out = option_map side_of goes_out.now; comes_in = option_map side_of comes_in.now }))
        ++ codes "\n") }
{
    let mut row = Row::new();
    row.text(b"  ");
    row.decimal(id.0);
    row.text(b": ");
    add_side(&mut row, b"out ", goes_out);
    if goes_out.is_some() && comes_in.is_some() {
        row.text(b"; ");
    }
    add_side(&mut row, b"in ", comes_in);
    put_line(row.as_slice(), pen);
}

/// Adds a side of a transfer, if there is one.
fn add_side(row: &mut Row, way: &[u8], side: &Option<Side<'_>>)
    requires way { length way.now ≤ 4 }
    requires room { length row.old + 60 ≤ ROW }
    ensures value { row.new ≡ row.old ++ side_text way.now (option_map side_of side.now) }
    ensures few { length row.new ≤ length row.old + 60 }
{
    if let Some(side) = side {
        row.text(way);
        row.text(side.name.as_bytes());
        row.byte(b' ');
        row.text(state_name(side.record.state));
        row.byte(b' ');
        row.decimal(side.record.count);
    }
}

/// The name of a state of a transfer.
pub fn state_name(state: State) -> &'static [u8]
    ensures value { result.now ≡ state_name_of state }
    ensures short { length result.now ≤ 8 }
{
    match state {
        State::Open => b"open",
        State::Fetching => b"fetching",
        State::Draining => b"draining",
        State::Asking => b"asking",
        State::Done => b"done",
        State::Failed => b"failed",
    }
}
