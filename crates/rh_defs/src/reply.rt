//! What a command answers.

use crate::ids::{Handle, Ref};
use crate::message::{Action, EventCode};
use crate::question::Numbers;
use crate::refusal::Refusal;

/// The answer of a command: a refusal, or the words and numbers of its reply's first line.
#[derive(Clone, Copy, Debug, PartialEq, Eq)]
pub enum Reply {
    /// Refused, and nothing changed.
    Refused(Refusal),
    /// Done, with nothing more to say.
    Done,
    /// A task was started, with this handle.
    Started(Handle),
    /// A block's address after the command.
    Block {
        address: u32,
    },
    /// Whether budging was on before.
    WasBudging(bool),
    /// The ref of the message that was sent.
    Sent(Ref),
    /// The ref of the message that was held and is answered now, 0 where none was held.
    Answering(Ref),
    /// The bytes that an area got or lost.
    Moved {
        bytes: u32,
    },
    /// An area was made, with this number.
    Made {
        number: u32,
    },
    /// A question was answered, and the first line tells this.
    Answered(Numbers),
    /// A poll found no message (Null_Reason_Code).
    NoEvent,
    /// A poll took a message, and did this with it.
    Event {
        code: EventCode,
        action: Action,
        my_ref: Ref,
        your_ref: Ref,
        outcome: Outcome,
    },
}

/// What a poll did with its message.
#[derive(Clone, Copy, Debug, PartialEq, Eq)]
pub enum Outcome {
    /// Nothing: the message is for no record, or a DataSave that wasn't taken.
    Ignored,
    /// A transfer was begun by this fetch.
    Fetch(Ref),
    /// Bytes went into the receiver's buffer, and the transmit was sent.
    Sent { count: u32, transmit: Ref },
    /// The transfer failed by a refusal.
    Refused(Refusal),
    /// The transfer failed as its message came back.
    Failed,
    /// The buffer of a transfer that was given up was released.
    Drained,
    /// The last bytes were taken: the document is whole.
    TookLast { count: u32 },
    /// Bytes were taken, and the next fetch was sent.
    TookFull { count: u32, fetch: Ref },
    /// Bytes were taken, and the next fetch was refused.
    TookFailed { count: u32, refusal: Refusal },
    /// The sender was asked for a file by this message.
    Asked(Ref),
    /// The source became the scrap file, and the DataLoad was sent.
    Saved { count: u32, load: Ref },
    /// The scrap file became the document, and the sender was told.
    Loaded { count: u32 },
    /// The scrap file became the document, and the answer was refused.
    LoadedFailed { count: u32, refusal: Refusal },
    /// The recipient has loaded the file: the transfer that went out is done.
    Done,
    /// Nothing: a task with code of its own was handed the message.
    Taken,
}
