//! What is wrong with a line of a script.

use thiserror::Error;

/// What is wrong with a line. Where several faults apply, the first of them is answered.
#[derive(Clone, Copy, Debug, PartialEq, Eq, Error)]
pub enum LineFault {
    /// More than 1,024 bytes before the line feed.
    #[error("TooLong")]
    TooLong,
    /// The script ends in the middle of the line.
    #[error("Unended")]
    Unended,
    /// The first word is no command.
    #[error("Unknown")]
    Unknown,
    /// The command doesn't allow so many words.
    #[error("Count")]
    Count,
    /// The leftmost word that isn't of its form, counted from 1 with the command as 1.
    #[error("Word {0}")]
    Word(u8),
}
