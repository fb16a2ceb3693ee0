//! The heading of an area that is pages alone.

ghost use Rattle.std.specs.Prelude.{◌≡◌, ◌++◌};
ghost use Rattle.rh_figure.specs.Phrases.{area_name};
ghost use Rattle.rh_sheet.specs.Markup.{heading_text};

use rh_elements::print_heading;
use rh_lines::{Pen, Row};
use rh_map::add_area_name;

/// Writes the heading of an area with a note.
pub fn print_area_heading<P: Pen>(number: u32, note: &Row, pen: &mut P)
    ensures { P.offered pen.new ≡ P.offered pen.old ++ heading_text (area_name number) note.now }
{
    let mut name = Row::new();
    add_area_name(&mut name, number);
    print_heading(name.as_slice(), note.as_slice(), pen);
}
