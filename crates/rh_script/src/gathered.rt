//! Items of a list as lines, several at a time in a row of bytes.

ghost use Rattle.std.specs.Prelude.{◌≡◌, ◌≤◌, ◌+◌, ◌++◌, ℕ, List, [], flat_map, length};
ghost use Rattle.rh_lines.specs.declared.row.TheConstants.{ROW};
ghost use Rattle.rh_script.specs.declared.gathered.TheConstants.{LONGEST_ITEM};

use rh_lines::{Pen, ROW, Row};

/// The line of an item has so many bytes at most.
const LONGEST_ITEM: usize = 38;

/// An item that has a line of its own.
pub trait Item {
    ghost line: { Self → List ℕ };

    /// Adds its line to a row that has room for one.
    fn add(&self, row: &mut Row)
        requires { length row.old + LONGEST_ITEM ≤ ROW }
        ensures { row.new ≡ row.old ++ line self.now };
}

/// Writes what waits in the row, and a line for each of these items.
pub fn print_items<T: Item, P: Pen>(first: Row, items: &[T], pen: &mut P)
    ensures { P.offered pen.new ≡ P.offered pen.old ++ (first ++ flat_map (λ item. T.line item) items.now) }
{
    let mut row = first;
    for item in items {
        make_room(&mut row, pen);
        item.add(&mut row);
    }
    pen.put(row.as_slice());
}

/// Writes the row, and empties it, where it has no room for one more line.
#[inline(always)]
pub fn make_room<P: Pen>(row: &mut Row, pen: &mut P)
    ensures text { P.offered pen.new ++ row.new ≡ P.offered pen.old ++ row.old }
    ensures room { length row.new + LONGEST_ITEM ≤ ROW }
{
    if row.as_slice().len() > ROW - LONGEST_ITEM {
        pen.put(row.as_slice());
        *row = Row::new();
    }
}
