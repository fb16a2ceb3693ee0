//! A receiver, its records and its actions as structs of words, and back.
ghost use Rattle.std.specs.Prelude.{◌≡◌, ◌≤◌, length, slice_get, Some};
ghost use Rattle.rh_defs.specs.declared.sizes.TheConstants.{MOST_RECORDS};
ghost use Rattle.rh_defs.specs.declared.transfer_action.TakeAction.TheVariants as action;
ghost use Rattle.vf_ram.specs.RecordPlaces.{all_or_none};
ghost use Rattle.vf_ram.specs.ReceiverWords.{append_in, as_asked, as_fetch, as_incoming, as_receiver, as_take_action};
ghost use Rattle.vf_ram.specs.ReceiverWords.{as_taking, ask_in, asked_in, asked_of, claim_in, ended_taking, ending_in};
ghost use Rattle.vf_ram.specs.ReceiverWords.{ending_number, fetch_of, incoming_of, incoming_or_none, load_file_in};
ghost use Rattle.vf_ram.specs.ReceiverWords.{next_in, next_number, next_words, no_fetch, plain_action, receiver_in};
ghost use Rattle.vf_ram.specs.ReceiverWords.{release_in, take_action_in, taking_in, taking_of};
ghost use Rattle.vf_ram.specs.WithStatus.{bad_records, or_status};

use crate::status::{BAD_ACTION, BAD_RECORDS, read_anchor};
use arrayvec::ArrayVec;
use rh_defs::sizes::MOST_RECORDS;
use rh_defs::{
    Append, Asked, Claim, Ending, Fetch, Handle, Incoming, LoadFile, Next, Ref, Release,
    TakeAction, Taking,
};
use rh_ram::Receiver;

/// It comes in through its buffer.
pub const RECORD_FETCHING: u32 = 1;

/// It was given up, and its buffer isn't back yet.
pub const RECORD_DRAINING: u32 = 2;

/// It waits for a file.
pub const RECORD_ASKING: u32 = 3;

/// It ended, and all bytes were handed over.
pub const RECORD_DONE: u32 = 4;

/// It ended early.
pub const RECORD_FAILED: u32 = 5;

/// The state of a place without a record.
const NO_RECORD: u32 = 0;

/// Nothing is to be done.
const DO_NOTHING: u32 = 0;

/// To claim a buffer and an empty document, and to send the first RAMFetch.
pub const DO_CLAIM: u32 = 4;

/// To put the buffer's first bytes at the document's end, and then what follows.
pub const DO_APPEND: u32 = 5;

/// To send a DataSaveAck, and to release the buffer.
pub const DO_ASK_FOR_FILE: u32 = 6;

/// To put the file of a DataLoad at the document's end, and to send a DataLoadAck.
pub const DO_LOAD_FILE: u32 = 7;

/// To release the buffer.
pub const DO_RELEASE: u32 = 8;

/// What follows is the next RAMFetch.
pub const NEXT_FETCH: u32 = 1;

/// What follows is to release the buffer: the bytes were the last.
pub const NEXT_FINISH: u32 = 2;

/// It had been given up, and its last fetch was answered or came back.
pub const END_DRAINED: u32 = 1;

/// A fetch came back that was not its first one.
pub const END_UNANSWERED: u32 = 2;

/// More bytes came than a record can count.
pub const END_UNCOUNTABLE: u32 = 3;

/// A transfer that comes in through a buffer. One that waits for a file has the ref of its DataSaveAck in `fetch`, and
/// no buffer and no bytes. Of one that has ended the id, the anchor and the count are kept, and the other words are 0.
#[repr(C)]
#[derive(Clone, Copy)]
pub struct VfTaking {
    pub id: u32,
    pub sender: u32,
    pub anchor: u32,
    pub buffer: u32,
    pub count: u32,
    pub fetch: u32,
}

/// A record of a transfer that comes in.
#[repr(C)]
#[derive(Clone, Copy)]
pub struct VfIncoming {
    pub state: u32,
    pub transfer: VfTaking,
}

/// The transfers of a task that come in: the first of the places have records, the others zeros.
#[repr(C)]
#[derive(Clone, Copy)]
pub struct VfReceiver {
    pub count: u32,
    pub records: [VfIncoming; 8],
}

/// A RAMFetch that is to be sent.
#[repr(C)]
#[derive(Clone, Copy)]
pub struct VfFetch {
    pub to: u32,
    pub answers: u32,
    pub buffer: u32,
    pub room: u32,
}

/// What a receiver has to do.
#[repr(C)]
#[derive(Clone, Copy)]
pub struct VfTakeAction {
    pub what: u32,
    pub transfer: VfTaking,
    pub n: u32,
    pub next: u32,
    pub next_fetch: VfFetch,
    pub to: u32,
    pub answers: u32,
    pub ending: u32,
}

/// The words of a transfer that has ended, or of none.
fn ended(id: u32, anchor: u32, count: u32) -> VfTaking
    ensures { result ≡ ended_taking id anchor count }
{
    VfTaking {
        id,
        sender: 0,
        anchor,
        buffer: 0,
        count,
        fetch: 0,
    }
}

impl VfTaking {
    fn of(f: &Taking) -> VfTaking
        ensures { result ≡ as_taking f.now }
    {
        VfTaking {
            id: f.id.0,
            sender: f.sender.0,
            anchor: u32::from(f.anchor.0),
            buffer: f.buffer,
            count: f.count,
            fetch: f.fetch.0,
        }
    }

    fn of_asked(q: &Asked) -> VfTaking
        ensures { result ≡ as_asked q.now }
    {
        VfTaking {
            id: q.id.0,
            sender: q.sender.0,
            anchor: u32::from(q.anchor.0),
            buffer: 0,
            count: 0,
            fetch: q.ack.0,
        }
    }

    fn read(&self) -> Option<Taking>
        ensures { result ≡ taking_of self.now }
    {
        let Ok(anchor) = read_anchor(self.anchor) else {
            return None;
        };
        Some(Taking {
            id: Ref(self.id),
            sender: Handle(self.sender),
            anchor,
            buffer: self.buffer,
            count: self.count,
            fetch: Ref(self.fetch),
            raw: false,
        })
    }

    fn read_asked(&self) -> Option<Asked>
        ensures { result ≡ asked_of self.now }
    {
        let Ok(anchor) = read_anchor(self.anchor) else {
            return None;
        };
        Some(Asked {
            id: Ref(self.id),
            sender: Handle(self.sender),
            anchor,
            ack: Ref(self.fetch),
        })
    }
}

impl VfIncoming {
    fn of(entry: &Incoming) -> VfIncoming
        ensures { result ≡ as_incoming entry.now }
    {
        match entry {
            Incoming::Fetching(f) => VfIncoming {
                state: RECORD_FETCHING,
                transfer: VfTaking::of(f),
            },
            Incoming::Draining(f) => VfIncoming {
                state: RECORD_DRAINING,
                transfer: VfTaking::of(f),
            },
            Incoming::Asking(q) => VfIncoming {
                state: RECORD_ASKING,
                transfer: VfTaking::of_asked(q),
            },
            Incoming::Done { id, anchor, count } => VfIncoming {
                state: RECORD_DONE,
                transfer: ended(id.0, u32::from(anchor.0), *count),
            },
            Incoming::Failed { id, anchor, count } => VfIncoming {
                state: RECORD_FAILED,
                transfer: ended(id.0, u32::from(anchor.0), *count),
            },
        }
    }

    fn read(&self) -> Option<Incoming>
        ensures { result ≡ incoming_of self.now }
    {
        match self.state {
            RECORD_FETCHING => Some(Incoming::Fetching(self.transfer.read()?)),
            RECORD_DRAINING => Some(Incoming::Draining(self.transfer.read()?)),
            RECORD_ASKING => Some(Incoming::Asking(self.transfer.read_asked()?)),
            RECORD_DONE => {
                let f = self.transfer.read()?;
                Some(Incoming::Done {
                    id: f.id,
                    anchor: f.anchor,
                    count: f.count,
                })
            }
            RECORD_FAILED => {
                let f = self.transfer.read()?;
                Some(Incoming::Failed {
                    id: f.id,
                    anchor: f.anchor,
                    count: f.count,
                })
            }
            _ => None,
        }
    }

    /// The record at a place, zeros where there is none.
    fn at(records: &[Incoming], i: usize) -> VfIncoming
        ensures { result ≡ incoming_or_none (slice_get records.now i) }
    {
        match records.get(i) {
            Some(entry) => VfIncoming::of(entry),
            None => VfIncoming {
                state: NO_RECORD,
                transfer: ended(0, 0, 0),
            },
        }
    }
}

impl VfReceiver {
    /// The words of a receiver.
    pub fn of(receiver: &Receiver) -> VfReceiver
        ensures { result ≡ as_receiver receiver.now }
    {
        let entries = receiver.records();
        VfReceiver {
            count: entries.len() as u32,
            records: [
                VfIncoming::at(entries, 0),
                VfIncoming::at(entries, 1),
                VfIncoming::at(entries, 2),
                VfIncoming::at(entries, 3),
                VfIncoming::at(entries, 4),
                VfIncoming::at(entries, 5),
                VfIncoming::at(entries, 6),
                VfIncoming::at(entries, 7),
            ],
        }
    }

    /// The receiver that the words spell.
    pub fn read(&self) -> Result<Receiver, u32>
        ensures { result ≡ receiver_in self.now }
    {
        let count = self.count as usize;
        if count > MOST_RECORDS {
            return Err(BAD_RECORDS);
        }
        read_records(&self.records[..count])
    }
}

fn read_records(words: &[VfIncoming]) -> Result<Receiver, u32>
    requires { length words.now ≤ MOST_RECORDS }
    ensures { result ≡ or_status (all_or_none incoming_of words.now) bad_records }
{
    let mut entries = ArrayVec::<Incoming, MOST_RECORDS>::new();
    for entry in words {
        let Some(known) = entry.read() else {
            return Err(BAD_RECORDS);
        };
        entries.push(known);
    }
    Ok(Receiver::from_records(entries.as_slice()))
}

impl VfFetch {
    /// The words of a fetch.
    pub fn of(fetch: &Fetch) -> VfFetch
        ensures { result ≡ as_fetch fetch.now }
    {
        VfFetch {
            to: fetch.to.0,
            answers: fetch.answers.0,
            buffer: fetch.buffer,
            room: fetch.room,
        }
    }

    fn none() -> VfFetch
        ensures { result ≡ no_fetch }
    {
        VfFetch {
            to: 0,
            answers: 0,
            buffer: 0,
            room: 0,
        }
    }

    fn read(&self) -> Fetch
        ensures { result ≡ fetch_of self.now }
    {
        Fetch {
            to: Handle(self.to),
            answers: Ref(self.answers),
            buffer: self.buffer,
            room: self.room,
        }
    }
}

fn ending_number(ending: Ending) -> u32
    ensures { result ≡ ending_number ending }
{
    match ending {
        Ending::Drained => END_DRAINED,
        Ending::Unanswered => END_UNANSWERED,
        Ending::Uncountable => END_UNCOUNTABLE,
    }
}

impl VfTakeAction {
    /// The words of what there is to do.
    pub fn of(action: &Option<TakeAction>) -> VfTakeAction
        ensures { result ≡ as_take_action action.now }
    {
        match action {
            None => VfTakeAction::plain(DO_NOTHING, ended(0, 0, 0)),
            Some(TakeAction::Claim(a)) => VfTakeAction::of_claim(a),
            Some(TakeAction::Append(a)) => VfTakeAction::of_append(a),
            Some(TakeAction::AskForFile(f)) => {
                VfTakeAction::plain(DO_ASK_FOR_FILE, VfTaking::of(f))
            }
            Some(TakeAction::LoadFile(a)) => VfTakeAction {
                to: a.to.0,
                answers: a.answers.0,
                ..VfTakeAction::plain(DO_LOAD_FILE, VfTaking::of_asked(&a.transfer))
            },
            Some(TakeAction::Release(a)) => VfTakeAction {
                ending: ending_number(a.ending),
                ..VfTakeAction::plain(DO_RELEASE, VfTaking::of(&a.transfer))
            },
        }
    }

    /// An action with nothing but a transfer.
    fn plain(what: u32, transfer: VfTaking) -> VfTakeAction
        ensures { result ≡ plain_action what transfer }
    {
        VfTakeAction {
            what,
            transfer,
            n: 0,
            next: 0,
            next_fetch: VfFetch::none(),
            to: 0,
            answers: 0,
            ending: 0,
        }
    }

    fn of_claim(a: &Claim) -> VfTakeAction
        ensures { result ≡ as_take_action (Some (action.Claim a.now)) }
    {
        let transfer = VfTaking {
            sender: a.sender.0,
            ..ended(a.id.0, 0, 0)
        };
        VfTakeAction::plain(DO_CLAIM, transfer)
    }

    fn of_append(a: &Append) -> VfTakeAction
        ensures { result ≡ as_take_action (Some (action.Append a.now)) }
    {
        let (next, next_fetch) = match &a.next {
            Next::Fetch(fetch) => (NEXT_FETCH, VfFetch::of(fetch)),
            Next::Finish => (NEXT_FINISH, VfFetch::none()),
        };
        VfTakeAction {
            n: a.n,
            next,
            next_fetch,
            ..VfTakeAction::plain(DO_APPEND, VfTaking::of(&a.transfer))
        }
    }

    fn taking(&self) -> Result<Taking, u32>
        ensures { result ≡ taking_in self.now }
    {
        match self.transfer.read() {
            Some(f) => Ok(f),
            None => Err(BAD_ACTION),
        }
    }

    fn asked(&self) -> Result<Asked, u32>
        ensures { result ≡ asked_in self.now }
    {
        match self.transfer.read_asked() {
            Some(q) => Ok(q),
            None => Err(BAD_ACTION),
        }
    }

    /// The action, where it is to claim.
    pub fn claim(&self) -> Result<Claim, u32>
        ensures { result ≡ claim_in self.now }
    {
        if self.what != DO_CLAIM {
            return Err(BAD_ACTION);
        }
        Ok(Claim {
            id: Ref(self.transfer.id),
            sender: Handle(self.transfer.sender),
            raw: false,
        })
    }

    fn next(&self) -> Result<Next, u32>
        ensures { result ≡ next_in self.now }
    {
        match self.next {
            NEXT_FETCH => Ok(Next::Fetch(self.next_fetch.read())),
            NEXT_FINISH => Ok(Next::Finish),
            _ => Err(BAD_ACTION),
        }
    }

    /// The action, where it is to append.
    pub fn append(&self) -> Result<Append, u32>
        ensures { result ≡ append_in self.now }
    {
        if self.what != DO_APPEND {
            return Err(BAD_ACTION);
        }
        let transfer = self.taking()?;
        let next = self.next()?;
        Ok(Append {
            transfer,
            n: self.n,
            next,
        })
    }

    /// The transfer, where the action is to ask for a file.
    pub fn ask(&self) -> Result<Taking, u32>
        ensures { result ≡ ask_in self.now }
    {
        if self.what != DO_ASK_FOR_FILE {
            return Err(BAD_ACTION);
        }
        self.taking()
    }

    /// The action, where it is to load a file.
    pub fn load_file(&self) -> Result<LoadFile, u32>
        ensures { result ≡ load_file_in self.now }
    {
        if self.what != DO_LOAD_FILE {
            return Err(BAD_ACTION);
        }
        Ok(LoadFile {
            transfer: self.asked()?,
            to: Handle(self.to),
            answers: Ref(self.answers),
        })
    }

    fn ending(&self) -> Result<Ending, u32>
        ensures { result ≡ ending_in self.now }
    {
        match self.ending {
            END_DRAINED => Ok(Ending::Drained),
            END_UNANSWERED => Ok(Ending::Unanswered),
            END_UNCOUNTABLE => Ok(Ending::Uncountable),
            _ => Err(BAD_ACTION),
        }
    }

    /// The action, where it is to release a buffer.
    pub fn release(&self) -> Result<Release, u32>
        ensures { result ≡ release_in self.now }
    {
        if self.what != DO_RELEASE {
            return Err(BAD_ACTION);
        }
        let transfer = self.taking()?;
        let ending = self.ending()?;
        Ok(Release { transfer, ending })
    }

    /// Any of the five.
    pub fn read(&self) -> Result<TakeAction, u32>
        ensures { result ≡ take_action_in self.now }
    {
        match self.what {
            DO_CLAIM => Ok(TakeAction::Claim(self.claim()?)),
            DO_APPEND => Ok(TakeAction::Append(self.append()?)),
            DO_ASK_FOR_FILE => Ok(TakeAction::AskForFile(self.ask()?)),
            DO_LOAD_FILE => Ok(TakeAction::LoadFile(self.load_file()?)),
            _ => Ok(TakeAction::Release(self.release()?)),
        }
    }
}
