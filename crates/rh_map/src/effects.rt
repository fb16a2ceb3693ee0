//! What a command did that nothing in the desk behind it tells.

ghost use Rattle.std.specs.Prelude.{◌≡◌, ◌≤◌, ◌+◌, ◌++◌, codes, length};
ghost use Rattle.std.specs.List.{list_all};
ghost use Rattle.rh_figure.specs.Changes.{acknowledged_line, begun_line, budging_line, copied_line, ended_line};
ghost use Rattle.rh_figure.specs.Changes.{given_up_line};
ghost use Rattle.rh_figure.specs.Changes.{is_short_text as is_short, is_text_byte, made_line, moved_line};
ghost use Rattle.rh_figure.specs.Changes.{quoted_text, removed_line, stored_line, written_line};
ghost use Rattle.rh_lines.specs.declared.row.TheConstants.{ROW};
ghost use Rattle.rh_map.specs.MapTasks.{who_text};

use crate::areas::add_area_name;
use crate::phrases::{add_pages, add_size};
use crate::who::{Who, add_who};
use rh_defs::{Anchor, Bytes, Handle, Name, Ref};
use rh_figure::limits::MOST_TOLD;
use rh_lines::Row;

/// That a task began.
pub fn task_begun(name: &Name, handle: Handle) -> Row
    ensures value { result ≡ begun_line name.now handle }
    ensures few { length result ≤ 200 }
{
    let mut row = Row::new();
    row.text(b"Task ");
    row.text(name.as_bytes());
    row.text(b" begins, with handle ");
    row.decimal(handle.0);
    row
}

/// That a task ended.
pub fn task_ended(name: &Name) -> Row
    ensures value { result ≡ ended_line name.now }
    ensures few { length result ≤ 200 }
{
    let mut row = Row::new();
    row.text(b"Task ");
    row.text(name.as_bytes());
    row.text(b" ends, and its slot, records and blocks with it");
    row
}

/// Whether budging is on for a task, and whether it was before.
pub fn budging_set(name: &Name, was: bool, on: bool) -> Row
    ensures value { result ≡ budging_line name.now was on }
    ensures few { length result ≤ 200 }
{
    let mut row = Row::new();
    row.text(if on {
        b"Budging is on for "
    } else {
        b"Budging is off for "
    });
    row.text(name.as_bytes());
    if was == on {
        row.text(b", as before");
    }
    row
}

/// That an area got bytes.
pub fn area_has_more(number: u32, bytes: u32) -> Row
    ensures value { result ≡ moved_line number bytes (codes " more") }
    ensures few { length result ≤ 200 }
{
    area_has(number, bytes, b" more")
}

/// That an area lost bytes.
pub fn area_has_fewer(number: u32, bytes: u32) -> Row
    ensures value { result ≡ moved_line number bytes (codes " fewer") }
    ensures few { length result ≤ 200 }
{
    area_has(number, bytes, b" fewer")
}

/// That an area has bytes more or fewer.
fn area_has(number: u32, bytes: u32, more: &[u8]) -> Row
    requires { length more.now ≤ 6 }
    ensures value { result ≡ moved_line number bytes more.now }
    ensures few { length result ≤ 200 }
{
    let mut row = Row::new();
    add_area_name(&mut row, number);
    row.text(b" has ");
    add_size(&mut row, bytes);
    row.text(more);
    row
}

/// That an area was made.
pub fn area_made(number: u32, most: u32) -> Row
    ensures value { result ≡ made_line number most }
    ensures few { length result ≤ 200 }
{
    let mut row = Row::new();
    add_area_name(&mut row, number);
    row.text(b" is made: no page yet, ");
    add_pages(&mut row, most);
    row.text(b" at most");
    row
}

/// That an area was taken away.
pub fn area_removed(number: u32) -> Row
    ensures value { result ≡ removed_line number }
    ensures few { length result ≤ 200 }
{
    let mut row = Row::new();
    add_area_name(&mut row, number);
    row.text(b" is taken away");
    row
}

/// That a task gave a transfer up.
pub fn transfer_given_up(name: &Name) -> Row
    ensures value { result ≡ given_up_line name.now }
    ensures few { length result ≤ 200 }
{
    let mut row = Row::new();
    row.text(name.as_bytes());
    row.text(b" gives a transfer up; the other end isn't told");
    row
}

/// That bytes went into a flex block, which are shown where they are a short text.
pub fn bytes_written(anchor: Anchor, offset: u32, bytes: &Bytes) -> Row
    ensures value { result ≡ written_line anchor offset bytes.now }
    ensures few { length result ≤ 200 }
{
    let mut row = Row::new();
    add_size(&mut row, bytes.as_slice().len() as u32);
    row.text(b" into flex block ");
    row.decimal(u32::from(anchor.0));
    row.text(b" from offset ");
    row.decimal(offset);
    add_quoted(&mut row, bytes.as_slice());
    row
}

/// That bytes went to an address of a task, which are shown where they are a short text.
pub fn bytes_stored(name: &Name, address: u32, bytes: &Bytes) -> Row
    ensures value { result ≡ stored_line name.now address bytes.now }
    ensures few { length result ≤ 200 }
{
    let mut row = Row::new();
    add_size(&mut row, bytes.as_slice().len() as u32);
    row.text(b" to ");
    row.address(address);
    row.text(b" of ");
    row.text(name.as_bytes());
    add_quoted(&mut row, bytes.as_slice());
    row
}

/// That so many bytes went from an address of a task to one of another.
pub fn bytes_copied(name: &Name, size: u32, address: u32, to: &Who<'_>, place: u32) -> Row
    ensures value { result ≡ copied_line name.now size address (who_text to.now) place }
    ensures few { length result ≤ 200 }
{
    let mut row = Row::new();
    add_size(&mut row, size);
    row.text(b" from ");
    row.address(address);
    row.text(b" of ");
    row.text(name.as_bytes());
    row.text(b" to ");
    row.address(place);
    row.text(b" of ");
    add_who(&mut row, to);
    row
}

/// That a task acknowledged the message with the ref, or held none where that is 0.
pub fn message_acknowledged(name: &Name, my_ref: Ref) -> Row
    ensures value { result ≡ acknowledged_line name.now my_ref }
    ensures few { length result ≤ 200 }
{
    let mut row = Row::new();
    row.text(name.as_bytes());
    if my_ref.0 == 0 {
        row.text(b" holds no message");
        return row;
    }
    row.text(b" acknowledges message ");
    row.decimal(my_ref.0);
    row
}

/// Adds bytes that are a short text, behind a colon.
fn add_quoted(row: &mut Row, bytes: &[u8])
    requires { length row.old + 30 ≤ ROW }
    ensures value { row.new ≡ row.old ++ quoted_text bytes.now }
    ensures few { length row.new ≤ length row.old + 30 }
{
    if is_short_text(bytes) {
        row.text(b": \"");
        row.text(bytes);
        row.text(b"\"");
    }
}

/// Whether bytes are few, and each is one of a text.
fn is_short_text(bytes: &[u8]) -> bool
    ensures { result ≡ is_short bytes.now }
{
    bytes.len() <= MOST_TOLD && is_text(bytes)
}

fn is_text(bytes: &[u8]) -> bool
    ensures { result ≡ list_all is_text_byte bytes.now }
{
    bytes.iter().all(|b| *b >= b' ' && *b < 127)
}
