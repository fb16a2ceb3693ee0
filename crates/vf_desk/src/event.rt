//! What a poll took and did, as a struct of numbers.
ghost use Rattle.std.specs.Prelude.{◌≡◌};
ghost use Rattle.vf_desk.specs.CallOutcome.{status_of};
ghost use Rattle.vf_desk.specs.DeskStatus.{refusal_number};
ghost use Rattle.vf_desk.specs.Event.{deed_of, deed_with, event_or};

use crate::call_outcome::CallOutcome;
use crate::status::refusal_number;
use rh_defs::{Outcome, Refusal, Reply};

/// Nothing was done: the message is for no record, or a DataSave that wasn't taken.
pub const DID_NOTHING: u32 = 0;

/// A transfer was begun, and the fetch was sent.
pub const DID_FETCH: u32 = 1;

/// Bytes went into the receiver's buffer, and the transmit was sent.
pub const DID_SEND: u32 = 2;

/// The transfer failed by a refusal.
pub const DID_REFUSE: u32 = 3;

/// The transfer failed as its message came back.
pub const DID_FAIL: u32 = 4;

/// The buffer of a transfer that was given up was released.
pub const DID_DRAIN: u32 = 5;

/// The last bytes were taken: the document is whole.
pub const DID_TAKE_LAST: u32 = 6;

/// Bytes were taken, and the next fetch was sent.
pub const DID_TAKE: u32 = 7;

/// Bytes were taken, and the next fetch was refused.
pub const DID_TAKE_AND_FAIL: u32 = 8;

/// The sender was asked for a file.
pub const DID_ASK: u32 = 9;

/// The source became the scrap file, and the DataLoad was sent.
pub const DID_SAVE: u32 = 10;

/// The scrap file became the document, and the DataLoadAck was sent.
pub const DID_LOAD: u32 = 11;

/// The scrap file became the document, and the answer was refused.
pub const DID_LOAD_AND_FAIL: u32 = 12;

/// The recipient has loaded the file: the transfer that went out is done.
pub const DID_FINISH: u32 = 13;

/// The message was handed to a task with code of its own.
pub const DID_HAND_OUT: u32 = 14;

/// What a poll took and did. A field that the deed says nothing of is 0, and all are where there was no message.
#[repr(C)]
#[derive(Clone, Copy)]
pub struct VfEvent {
    /// The reason code: 0, 17, 18 or 19.
    pub code: u32,
    /// The message's action.
    pub action: u32,
    /// Its own ref.
    pub my_ref: u32,
    /// The ref of the message that it answers, 0 for an original.
    pub your_ref: u32,
    /// What was done with it.
    pub did: u32,
    /// The bytes that were moved.
    pub count: u32,
    /// The ref of the message that was sent.
    pub sent: u32,
    /// The number of the refusal by which it failed.
    pub refusal: u32,
}

/// What was done with a message, as the last four fields of an event.
#[derive(Clone, Copy)]
pub struct EventDeed {
    pub did: u32,
    pub count: u32,
    pub sent: u32,
    pub refusal: u32,
}

impl EventDeed {
    /// What was done with nothing moved, sent or refused.
    fn plain(did: u32) -> EventDeed
        ensures { result ≡ deed_with did 0 0 0 }
    {
        EventDeed::moved(did, 0, 0)
    }

    /// What was done with bytes moved, and a message sent where its ref isn't 0.
    fn moved(did: u32, count: u32, sent: u32) -> EventDeed
        ensures { result ≡ deed_with did count sent 0 }
    {
        EventDeed {
            did,
            count,
            sent,
            refusal: 0,
        }
    }

    /// What was done up to a refusal.
    fn refused(did: u32, count: u32, refusal: Refusal) -> EventDeed
        ensures { result ≡ deed_with did count 0 (refusal_number refusal) }
    {
        EventDeed {
            did,
            count,
            sent: 0,
            refusal: refusal_number(refusal),
        }
    }
}

/// An outcome's deed. A DataLoadAck that was sent has the ref `ack`.
fn done_with(outcome: &Outcome, ack: u32) -> EventDeed
    ensures { result ≡ deed_of ack outcome.now }
{
    match outcome {
        Outcome::Ignored => EventDeed::plain(DID_NOTHING),
        Outcome::Fetch(fetch) => EventDeed::moved(DID_FETCH, 0, fetch.0),
        Outcome::Sent { count, transmit } => EventDeed::moved(DID_SEND, *count, transmit.0),
        Outcome::Refused(refusal) => EventDeed::refused(DID_REFUSE, 0, *refusal),
        Outcome::Failed => EventDeed::plain(DID_FAIL),
        Outcome::Drained => EventDeed::plain(DID_DRAIN),
        Outcome::TookLast { count } => EventDeed::moved(DID_TAKE_LAST, *count, 0),
        Outcome::TookFull { count, fetch } => EventDeed::moved(DID_TAKE, *count, fetch.0),
        Outcome::TookFailed { count, refusal } => {
            EventDeed::refused(DID_TAKE_AND_FAIL, *count, *refusal)
        }
        Outcome::Asked(ack) => EventDeed::moved(DID_ASK, 0, ack.0),
        Outcome::Saved { count, load } => EventDeed::moved(DID_SAVE, *count, load.0),
        Outcome::Loaded { count } => EventDeed::moved(DID_LOAD, *count, ack),
        Outcome::LoadedFailed { count, refusal } => {
            EventDeed::refused(DID_LOAD_AND_FAIL, *count, *refusal)
        }
        Outcome::Done => EventDeed::plain(DID_FINISH),
        Outcome::Taken => EventDeed::plain(DID_HAND_OUT),
    }
}

/// The event of no message.
const NONE: VfEvent = VfEvent {
    code: 0,
    action: 0,
    my_ref: 0,
    your_ref: 0,
    did: DID_NOTHING,
    count: 0,
    sent: 0,
    refusal: 0,
};

/// What a poll came to as an event, or the old one where it wasn't done.
fn event(called: &CallOutcome, ack: u32, old: VfEvent) -> VfEvent
    ensures { result ≡ event_or ack called.now old }
{
    match called {
        CallOutcome::Said(Reply::NoEvent) => NONE,
        CallOutcome::Said(
            Reply::Event {
                code,
                action,
                my_ref,
                your_ref,
                outcome,
            },
        ) => {
            let EventDeed {
                did,
                count,
                sent,
                refusal,
            } = done_with(outcome, ack);
            VfEvent {
                code: code.number(),
                action: action.number(),
                my_ref: my_ref.0,
                your_ref: your_ref.0,
                did,
                count,
                sent,
                refusal,
            }
        }
        _ => old,
    }
}

/// The status of a poll. What it took and did is told, if it was done; `ack` is the ref of a DataLoadAck that it sent.
pub fn give_event(called: &CallOutcome, ack: u32, to: &mut VfEvent) -> u32
    ensures status { result ≡ status_of called.now }
    ensures event { to.new ≡ event_or ack called.now to.old }
{
    *to = event(called, ack, *to);
    called.status()
}
