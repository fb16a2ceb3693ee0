//! A script's bytes in and out: readers and writers whose bytes are known, lines as commands, and what of a reply
//! needs no desk as text.
#![tactic(auto)]

mod areas;
mod counts;
mod flagged;
mod flex;
mod forms;
mod ghost_bytes;
mod heaps;
mod hexadecimal;
mod noted_output;
mod parse;
mod pen;
mod print;
mod programs;
mod row;
mod sink;
mod source;
mod suffix;
mod tasks;
mod whole_text;
mod words;
mod writer_pen;

pub use flagged::Flagged;
pub use ghost_bytes::GhostBytes;
pub use parse::{parse_line, read_line};
pub use pen::Pen;
pub use print::{
    add_number, print_fault, print_first_line, put_fault, put_first_line, put_handed_line,
    refusal_name, refused_line,
};
pub use row::{ROW, Row};
pub use sink::{Sink, WriteFailed, put};
pub use source::{ReadFailed, Source};
pub use whole_text::WholeText;
pub use writer_pen::WriterPen;
