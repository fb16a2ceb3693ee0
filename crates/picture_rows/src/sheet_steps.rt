//! Steps of a sheet, remarks, and how a sheet ends and begins.

use rh_elements::{print_foot, print_head, print_remark, print_said, print_step_open, print_still};
use rh_lines::{Pen, WholeText, WriterPen};

/// The bytes of a sheet's head up to its style.
const FRONT: usize = 201;

/// A first step, one without a figure, a long reply, remarks, the end of a sheet, and a beginning.
pub(crate) fn print_steps<P: Pen>(pen: &mut P) {
    print_step_open(1, pen);
    print_step_open(3, pen);
    print_said(3, b"show a 0", b"ok 5 0000000000\n", 1, pen);
    print_still(2, pen);
    print_still(0, pen);
    let reply = b"ok 2\nused &8100 5\nhole &8110 24\n";
    print_said(12, b"heap a", reply, 16, pen);
    print_remarks(pen);
    print_foot(2, 7, pen);
    print_front(pen);
}

/// What a sheet's head has before its style.
fn print_front<P: Pen>(pen: &mut P) {
    let mut front = [0; FRONT];
    let mut text = WholeText::new(&mut front);
    print_head(b"a<b", 8, &mut WriterPen::new(&mut text, &mut []));
    pen.put(&front);
}

/// A remark, one without words, and a title.
fn print_remarks<P: Pen>(pen: &mut P) {
    print_remark(b" # \tR&D\r", pen);
    print_remark(b"#", pen);
    print_remark(b"#picture  A block ", pen);
}
