//! Elements of a sheet: text, rectangles, words, figures, headings and links.

use rh_elements::{
    Extent, add_step_link, print_box, print_change, print_described, print_figure_end,
    print_figure_open, print_heading, print_words, put_escaped,
};
use rh_lines::{Pen, Row};

/// An element of each kind.
pub(crate) fn print_texts<P: Pen>(pen: &mut P) {
    put_escaped(b"a < b && \"c\" > d", pen);
    put_escaped(&[b'<'; 33], pen);
    let at = Extent {
        x: 150,
        y: 3,
        width: 1024,
        height: 24,
    };
    print_box(b"row", at, b"", pen);
    print_box(b"top", at, b"free, &8110", pen);
    print_words(b"lab top", 696, 20, b"3824 free", pen);
    print_words(b"lab top", 696, 20, b"", pen);
    print_figure(pen);
}

fn print_figure<P: Pen>(pen: &mut P) {
    print_figure_open(1176, 34, b"The pool", pen);
    put_escaped(b"Slot a: ", pen);
    put_escaped(b"page 6. ", pen);
    print_described(pen);
    print_figure_end(pen);
    print_heading(b"a", b"task 1, 2 pages", pen);
    print_change(b"Slot a takes page 6", pen);
    let mut row = Row::new();
    add_step_link(&mut row, 12, b"&#9654;");
    pen.put(row.as_slice());
}
