//! How a run ends.

ghost use Rattle.std.specs.Prelude.{◌≡◌};
ghost use Rattle.rh_session.specs.Outcome.{run_fault_of};

use crate::fault::FeedFault;
use thiserror::Error;

/// How a run that came to the end of its script went.
#[derive(Clone, Copy, Debug, PartialEq, Eq)]
pub enum Status {
    /// Each line spelled a command or was skipped.
    Clean,
    /// Some line was bad.
    BadLines,
}

/// Why a run stopped.
#[derive(Clone, Copy, Debug, PartialEq, Eq, Error)]
pub enum RunFault {
    /// Memory was refused at the start: nothing was read or written.
    #[error("no memory")]
    NoMemory,
    /// The reader failed. The complete lines before have been answered.
    #[error("read failed")]
    ReadFailed,
    /// The writer failed or took no byte. What went out is a front of the replies.
    #[error("write failed")]
    WriteFailed,
    /// The reader gave bytes at 1,000,000 reads. The lines up to there have been answered.
    #[error("script too long")]
    TooLong,
}

/// The fault of a run whose lines ended early.
pub fn run_fault(fault: FeedFault) -> RunFault
    ensures { result ≡ run_fault_of fault }
{
    match fault {
        FeedFault::ReadFailed => RunFault::ReadFailed,
        FeedFault::WriteFailed => RunFault::WriteFailed,
        FeedFault::TooLong => RunFault::TooLong,
    }
}
