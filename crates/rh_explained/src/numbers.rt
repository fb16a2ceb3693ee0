//! Numbers in explanations.

ghost use Rattle.std.specs.Prelude.{◌≡◌, ◌++◌};
ghost use Rattle.std.specs.Fmt.{decimal};
ghost use Rattle.rh_defs.specs.Text.{address};

use rh_lines::{Pen, Row};

/// Writes a number in decimal.
pub fn put_decimal<P: Pen>(number: u32, pen: &mut P)
    ensures { P.offered pen.new ≡ P.offered pen.old ++ decimal number }
{
    let mut row = Row::new();
    row.decimal(number);
    pen.put(row.as_slice());
}

/// Writes an address.
pub fn put_address<P: Pen>(number: u32, pen: &mut P)
    ensures { P.offered pen.new ≡ P.offered pen.old ++ address number }
{
    let mut row = Row::new();
    row.address(number);
    pen.put(row.as_slice());
}
