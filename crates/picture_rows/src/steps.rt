//! Lines of a step on a map: its command, its reply, and the remarks before it; and which remarks are marks.

use rh_lines::Pen;
use rh_map::{
    is_mark, print_more_lines, print_remark, print_reply_line, print_step_line, print_still,
};

/// Remarks, and which of them ask for a picture: `*` for one that does, `-` for one that doesn't.
const REMARKS: [&[u8]; 5] = [
    b"#picture",
    b"  #picture of a slide",
    b"#pictures",
    b"# #picture",
    b"",
];

/// Commands, replies and remarks, and then which of five remarks are marks.
pub(crate) fn print_steps<P: Pen>(pen: &mut P) {
    print_step_line(4, b"put a 0 0 68656c6c6f", pen);
    print_step_line(10, &[b'a'; 93], pen);
    print_reply_line(&[b'a'; 76], pen);
    print_reply_line(&[b'a'; 77], pen);
    print_more_lines(3, pen);
    print_still(pen);
    print_remarks(pen);
    for remark in REMARKS {
        pen.put(if is_mark(remark) { b"*" } else { b"-" });
    }
    pen.put(b"\n");
}

fn print_remarks<P: Pen>(pen: &mut P) {
    print_remark(b"# A task.", pen);
    print_remark(b"", pen);
    print_remark(b"    ", pen);
    print_remark(b" #\xc3\xa4<script>", pen);
}
