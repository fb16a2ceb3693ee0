//! Answers as text.

use std::alloc::Global;
use std::fmt::Debug;
use std::io;

/// A value as it is written in the code; none where memory is short.
pub(crate) fn shown<T: Debug + Drop>(alloc: Global, value: T) -> Option<String> {
    format!(in alloc; "{value:?}").ok()
}

/// Prints a row and its answer.
pub(crate) fn tell<R: Print>(rt: &R, row: &str, answer: Option<String>) -> io::Result<()> {
    match answer {
        Some(text) => println!(rt; "{row} = {text}"),
        None => println!(rt; "{row} = no such call"),
    }
}
