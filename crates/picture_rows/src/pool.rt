//! The pool on a sheet: its squares, their tags, what stands beside it, and its grid.

use rh_elements::{print_grid, print_pool_side, print_squares, print_tags};
use rh_lines::Pen;

/// An element of each kind.
pub(crate) fn print_pool<P: Pen>(pen: &mut P) {
    print_squares(b"cell m", &[7], b"Module area: page 7", pen);
    print_squares(b"freed", &[], b"Free again: page ", pen);
    print_tags(b"mod", &[7, 33], pen);
    print_pool_side(5, 8, pen);
    print_grid(1, pen);
}
