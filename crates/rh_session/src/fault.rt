//! Why the lines of a script ended early.

use thiserror::Error;

/// Why the lines of a script ended early.
#[derive(Clone, Copy, Debug, PartialEq, Eq, Error)]
pub enum FeedFault {
    /// The reader failed. The complete lines before have been taken.
    #[error("read failed")]
    ReadFailed,
    /// The writer failed or took no byte while a line was taken.
    #[error("write failed")]
    WriteFailed,
    /// The reader gave bytes at 1,000,000 reads. The lines up to there have been taken.
    #[error("script too long")]
    TooLong,
}
