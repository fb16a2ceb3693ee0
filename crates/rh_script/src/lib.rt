//! A script's bytes in and out over a world: lines as commands, replies as text, and readers and writers whose bytes
//! are known.
#![tactic(auto)]

mod gathered;
mod held;
mod listed;
mod print;
mod read;
mod records;
mod segments;
mod shown;

pub use print::{print_answer, print_reply, put_answer, put_reply};
pub use rh_lines::{
    Flagged, Pen, ReadFailed, Sink, Source, WriteFailed, parse_line, print_fault, print_first_line,
    put,
};
