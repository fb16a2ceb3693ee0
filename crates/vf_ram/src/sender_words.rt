//! A sender, its records and its actions as structs of words, and back.
ghost use Rattle.std.specs.Prelude.{◌≡◌, ◌≤◌, length, slice_get};
ghost use Rattle.vf_ram.specs.SenderWords.{as_outgoing, as_part, as_send_action, as_sender, as_sending, as_word};
ghost use Rattle.vf_ram.specs.SenderWords.{ended_sending, finish_in, outgoing_of, outgoing_or_none, save_file_in};
ghost use Rattle.vf_ram.specs.SenderWords.{send_action_in, sender_in, sending_in, sending_of, transmit_in};
ghost use Rattle.vf_ram.specs.RecordPlaces.{all_or_none};
ghost use Rattle.vf_ram.specs.WithStatus.{bad_records, or_status};
ghost use Rattle.rh_defs.specs.declared.sizes.TheConstants.{MOST_RECORDS};

use crate::status::{BAD_ACTION, BAD_RECORDS, read_anchor};
use arrayvec::ArrayVec;
use rh_defs::sizes::MOST_RECORDS;
use rh_defs::{Handle, Outgoing, Part, Ref, SaveFile, SendAction, Sending, Transmit};
use rh_ram::Sender;

/// It goes out, and hasn't ended.
pub const RECORD_OPEN: u32 = 0;

/// It ended, and all bytes were handed over.
pub const RECORD_DONE: u32 = 4;

/// It ended early.
pub const RECORD_FAILED: u32 = 5;

/// Nothing is to be done.
pub const DO_NOTHING: u32 = 0;

/// To put the bytes of a part into the fetch's buffer, and to send a RAMTransmit.
pub const DO_TRANSMIT: u32 = 1;

/// To make the source a file, and to send a DataLoad.
pub const DO_SAVE_FILE: u32 = 2;

/// To look how many bytes the source has: all of them were loaded.
pub const DO_FINISH: u32 = 3;

/// A transfer that goes out and hasn't ended. Of one that has, the id and the count are kept, and the other words are
/// 0.
#[repr(C)]
#[derive(Clone, Copy)]
pub struct VfSending {
    pub id: u32,
    pub recipient: u32,
    pub anchor: u32,
    pub count: u32,
    pub last: u32,
}

/// A record of a transfer that goes out.
#[repr(C)]
#[derive(Clone, Copy)]
pub struct VfOutgoing {
    pub state: u32,
    pub transfer: VfSending,
}

/// The transfers of a task that go out: the first of the places have records, the others zeros.
#[repr(C)]
#[derive(Clone, Copy)]
pub struct VfSender {
    pub count: u32,
    pub records: [VfOutgoing; 8],
}

/// What a sender has to do.
#[repr(C)]
#[derive(Clone, Copy)]
pub struct VfSendAction {
    pub what: u32,
    pub transfer: VfSending,
    pub to: u32,
    pub answers: u32,
    pub buffer: u32,
    pub room: u32,
}

/// The bytes of a source that go out.
#[repr(C)]
#[derive(Clone, Copy)]
pub struct VfPart {
    pub offset: u32,
    pub n: u32,
    pub is_last: u32,
}

/// The words of a transfer that has ended, or of none.
const fn ended(id: u32, count: u32) -> VfSending
    ensures { result ≡ ended_sending id count }
{
    VfSending {
        id,
        recipient: 0,
        anchor: 0,
        count,
        last: 0,
    }
}

impl VfSending {
    fn of(x: &Sending) -> VfSending
        ensures { result ≡ as_sending x.now }
    {
        VfSending {
            id: x.id.0,
            recipient: x.recipient.0,
            anchor: u32::from(x.anchor.0),
            count: x.count,
            last: x.last.0,
        }
    }

    fn read(&self) -> Option<Sending>
        ensures { result ≡ sending_of self.now }
    {
        let Ok(anchor) = read_anchor(self.anchor) else {
            return None;
        };
        Some(Sending {
            id: Ref(self.id),
            recipient: Handle(self.recipient),
            anchor,
            count: self.count,
            last: Ref(self.last),
        })
    }
}

impl VfOutgoing {
    fn of(entry: &Outgoing) -> VfOutgoing
        ensures { result ≡ as_outgoing entry.now }
    {
        match entry {
            Outgoing::Open(x) => VfOutgoing {
                state: RECORD_OPEN,
                transfer: VfSending::of(x),
            },
            Outgoing::Done { id, count } => VfOutgoing {
                state: RECORD_DONE,
                transfer: ended(id.0, *count),
            },
            Outgoing::Failed { id, count } => VfOutgoing {
                state: RECORD_FAILED,
                transfer: ended(id.0, *count),
            },
        }
    }

    fn read(&self) -> Option<Outgoing>
        ensures { result ≡ outgoing_of self.now }
    {
        let x = &self.transfer;
        match self.state {
            RECORD_OPEN => Some(Outgoing::Open(x.read()?)),
            RECORD_DONE => Some(Outgoing::Done {
                id: Ref(x.id),
                count: x.count,
            }),
            RECORD_FAILED => Some(Outgoing::Failed {
                id: Ref(x.id),
                count: x.count,
            }),
            _ => None,
        }
    }

    /// The record at a place, zeros where there is none.
    fn at(records: &[Outgoing], i: usize) -> VfOutgoing
        ensures { result ≡ outgoing_or_none (slice_get records.now i) }
    {
        match records.get(i) {
            Some(entry) => VfOutgoing::of(entry),
            None => VfOutgoing {
                state: RECORD_OPEN,
                transfer: ended(0, 0),
            },
        }
    }
}

impl VfSender {
    /// The words of a sender.
    pub fn of(sender: &Sender) -> VfSender
        ensures { result ≡ as_sender sender.now }
    {
        let entries = sender.records();
        VfSender {
            count: entries.len() as u32,
            records: [
                VfOutgoing::at(entries, 0),
                VfOutgoing::at(entries, 1),
                VfOutgoing::at(entries, 2),
                VfOutgoing::at(entries, 3),
                VfOutgoing::at(entries, 4),
                VfOutgoing::at(entries, 5),
                VfOutgoing::at(entries, 6),
                VfOutgoing::at(entries, 7),
            ],
        }
    }

    /// The sender that the words spell.
    pub fn read(&self) -> Result<Sender, u32>
        ensures { result ≡ sender_in self.now }
    {
        let count = self.count as usize;
        if count > MOST_RECORDS {
            return Err(BAD_RECORDS);
        }
        read_records(&self.records[..count])
    }
}

fn read_records(words: &[VfOutgoing]) -> Result<Sender, u32>
    requires { length words.now ≤ MOST_RECORDS }
    ensures { result ≡ or_status (all_or_none outgoing_of words.now) bad_records }
{
    let mut entries = ArrayVec::<Outgoing, MOST_RECORDS>::new();
    for entry in words {
        let Some(known) = entry.read() else {
            return Err(BAD_RECORDS);
        };
        entries.push(known);
    }
    Ok(Sender::from_records(entries.as_slice()))
}

impl VfSendAction {
    /// The words of what there is to do.
    pub fn of(action: &Option<SendAction>) -> VfSendAction
        ensures { result ≡ as_send_action action.now }
    {
        match action {
            None => VfSendAction::with(DO_NOTHING, ended(0, 0), 0, 0),
            Some(SendAction::Transmit(a)) => VfSendAction {
                what: DO_TRANSMIT,
                transfer: VfSending::of(&a.transfer),
                to: a.to.0,
                answers: a.answers.0,
                buffer: a.buffer,
                room: a.room,
            },
            Some(SendAction::SaveFile(a)) => VfSendAction::with(
                DO_SAVE_FILE,
                VfSending::of(&a.transfer),
                a.to.0,
                a.answers.0,
            ),
            Some(SendAction::Finish(x)) => VfSendAction::with(DO_FINISH, VfSending::of(x), 0, 0),
        }
    }

    /// An action without a buffer.
    fn with(what: u32, transfer: VfSending, to: u32, answers: u32) -> VfSendAction
        ensures { result
            ≡ record { what = what; transfer = transfer; to = to; answers = answers; buffer = 0; room = 0 } }
    {
        VfSendAction {
            what,
            transfer,
            to,
            answers,
            buffer: 0,
            room: 0,
        }
    }

    fn sending(&self) -> Result<Sending, u32>
        ensures { result ≡ sending_in self.now }
    {
        match self.transfer.read() {
            Some(x) => Ok(x),
            None => Err(BAD_ACTION),
        }
    }

    /// The action, where it is to transmit.
    pub fn transmit(&self) -> Result<Transmit, u32>
        ensures { result ≡ transmit_in self.now }
    {
        if self.what != DO_TRANSMIT {
            return Err(BAD_ACTION);
        }
        Ok(Transmit {
            transfer: self.sending()?,
            to: Handle(self.to),
            answers: Ref(self.answers),
            buffer: self.buffer,
            room: self.room,
        })
    }

    /// The action, where it is to save a file.
    pub fn save_file(&self) -> Result<SaveFile, u32>
        ensures { result ≡ save_file_in self.now }
    {
        if self.what != DO_SAVE_FILE {
            return Err(BAD_ACTION);
        }
        Ok(SaveFile {
            transfer: self.sending()?,
            to: Handle(self.to),
            answers: Ref(self.answers),
        })
    }

    /// The transfer, where the action is to look its source's size up.
    pub fn finish(&self) -> Result<Sending, u32>
        ensures { result ≡ finish_in self.now }
    {
        if self.what != DO_FINISH {
            return Err(BAD_ACTION);
        }
        self.sending()
    }

    /// Any of the three.
    pub fn read(&self) -> Result<SendAction, u32>
        ensures { result ≡ send_action_in self.now }
    {
        match self.what {
            DO_TRANSMIT => Ok(SendAction::Transmit(self.transmit()?)),
            DO_SAVE_FILE => Ok(SendAction::SaveFile(self.save_file()?)),
            _ => Ok(SendAction::Finish(self.finish()?)),
        }
    }
}

impl VfPart {
    /// The words of a part.
    pub fn of(part: &Part) -> VfPart
        ensures { result ≡ as_part part.now }
    {
        VfPart {
            offset: part.offset,
            n: part.n,
            is_last: word_of(part.is_last),
        }
    }
}

/// A truth as a word.
fn word_of(holds: bool) -> u32
    ensures { result ≡ as_word holds }
{
    if holds { 1 } else { 0 }
}
