//! A live task, as the world keeps it.

ghost use Rattle.std.specs.Prelude.{◌≡◌, ◌||◌};
ghost use Rattle.std.specs.List.{list_any};
ghost use Rattle.rh_defs.specs.Transfer.{answers_none as answers_none_on};
ghost use Rattle.rh_defs.specs.RawTasks.{is_raw as is_raw_on};
ghost use Rattle.rh_defs.specs.Records.{is_source, is_document, is_buffer_of};

use rh_defs::sizes::MAX_TASKS;
use rh_defs::{Anchor, Handle, Letter, Manner, Name, Ref};
use rh_ram::{Receiver, Sender};
use rh_slot::Slot;
use rh_store::AreaId;
use rh_wimp::Table;

/// The live tasks in order of handle.
pub type Seats = Table<Seat, MAX_TASKS>;

/// What the world keeps of a live task beside its slot's words.
#[derive(Drop)]
pub struct Seat {
    pub handle: Handle,
    pub name: Name,
    /// The bytes of its receive buffer.
    pub buffer: u32,
    pub manner: Manner,
    /// Where its slot's words are, and whether budging is on.
    pub slot: Slot,
    /// The records of its transfers that go out.
    pub sending: Sender,
    /// The records of its transfers that come in.
    pub taking: Receiver,
    /// The last letter that it sent.
    pub last_sent: Option<SentLetter>,
}

/// A letter that was sent, and the ref that it got.
#[derive(Drop)]
pub struct SentLetter {
    pub letter: Letter,
    pub my_ref: Ref,
}

/// A seat that no task has: what a table holds behind its last one. All of its bytes are zeros, so that a table is
/// cleared where it lies.
impl Default for Seat {
    fn default() -> Seat {
        Seat {
            handle: Handle(0),
            name: Name::default(),
            buffer: 0,
            manner: Manner::Plain,
            slot: Slot {
                area: AreaId(0),
                budge: false,
            },
            sending: Sender::new(),
            taking: Receiver::new(),
            last_sent: None,
        }
    }
}

impl Seat {
    /// Whether the task has code of its own: it was started with `raw`, and the desk plays nothing of it.
    pub fn is_raw(&self) -> bool
        ensures { result ≡ is_raw_on self.now.manner }
    {
        matches!(self.manner, Manner::Raw)
    }

    /// Whether the task answers no fetch: it was started with `file`.
    pub fn answers_none(&self) -> bool
        ensures { result ≡ answers_none_on self.now.manner }
    {
        matches!(self.manner, Manner::File)
    }

    /// Whether the anchor's block is the source of an open transfer, or a document that grows.
    pub fn is_busy_block(&self, anchor: Anchor) -> bool
        ensures { result ≡ (list_any (is_source anchor) self.now.sending || list_any
            (is_document anchor) self.now.taking) }
    {
        self.sending.is_source(anchor) || self.taking.is_document(anchor)
    }

    /// Whether the block of the C heap at the address is a transfer's buffer.
    pub fn is_busy_buffer(&self, address: u32) -> bool
        ensures { result ≡ list_any (is_buffer_of address) self.now.taking }
    {
        self.taking.is_buffer_of(address)
    }
}
