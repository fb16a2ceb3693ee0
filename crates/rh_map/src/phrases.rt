//! Numbers of bytes and pages, with their unit.

ghost use Rattle.std.specs.Prelude.{◌≡◌, ◌≤◌, ◌+◌, ◌++◌, length};
ghost use Rattle.rh_figure.specs.Phrases.{pages_text, size_text};
ghost use Rattle.rh_lines.specs.declared.row.TheConstants.{ROW};

use rh_lines::Row;

/// Adds a number of bytes.
pub fn add_size(row: &mut Row, bytes: u32)
    requires { length row.old + 17 ≤ ROW }
    ensures value { row.new ≡ row.old ++ size_text bytes }
    ensures few { length row.new ≤ length row.old + 17 }
{
    if bytes == 1 {
        row.text(b"1 byte");
    } else {
        row.decimal(bytes);
        row.text(b" bytes");
    }
}

/// Adds a number of pages.
pub fn add_pages(row: &mut Row, pages: u32)
    requires { length row.old + 17 ≤ ROW }
    ensures value { row.new ≡ row.old ++ pages_text pages }
    ensures few { length row.new ≤ length row.old + 17 }
{
    if pages == 1 {
        row.text(b"1 page");
    } else {
        row.decimal(pages);
        row.text(b" pages");
    }
}
