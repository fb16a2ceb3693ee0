//! The items of lists, as structs of C.
ghost use Rattle.std.specs.Prelude.{◌≡◌, ◌≤◌, length};
ghost use Rattle.rh_defs.specs.Questions.{in_item, out_item};
ghost use Rattle.rh_tasks.specs.WorldItems.{area_item_of};
ghost use Rattle.vf_desk.specs.DeskItems.{as_area, as_block, padded_name, record_of, as_segment};
ghost use Rattle.vf_desk.specs.DeskItems.{state_number as state_number_of};

use rh_defs::{BlockItem, Incoming, Name, Outgoing, SegmentItem, State};
use rh_tasks::AreaEntry;

/// It goes out, and hasn't ended.
pub const RECORD_OPEN: u32 = 0;

/// It comes in through its buffer.
pub const RECORD_FETCHING: u32 = 1;

/// It was given up, and its buffer isn't back yet.
pub const RECORD_DRAINING: u32 = 2;

/// It waits for a file.
pub const RECORD_ASKING: u32 = 3;

/// It ended, and all bytes were handed over.
pub const RECORD_DONE: u32 = 4;

/// It ended early.
pub const RECORD_FAILED: u32 = 5;

/// The bytes of a name's array: one more than a name has at most, so that a zero ends it.
pub const NAME_ROOM: usize = 13;

/// A flex block.
#[repr(C)]
#[derive(Clone, Copy)]
pub struct VfBlock {
    pub anchor: u32,
    pub address: u32,
    pub size: u32,
}

/// A segment of a C heap: a block, whose address is that of its first byte, or a hole.
#[repr(C)]
#[derive(Clone, Copy)]
pub struct VfSegment {
    pub address: u32,
    pub size: u32,
    pub used: bool,
}

/// The sums over a C heap: its length, the largest block that could be claimed, and all free bytes.
#[repr(C)]
#[derive(Clone, Copy)]
pub struct VfHeapSums {
    pub length: u32,
    pub largest: u32,
    pub free: u32,
}

/// A record of a transfer: its state, the ref of its DataSave, and the bytes that were handed over so far.
#[repr(C)]
#[derive(Clone, Copy)]
pub struct VfRecord {
    pub state: u32,
    pub id: u32,
    pub count: u32,
}

/// An area or a slot. A slot has its task's name and the number 0; an area has no name.
#[repr(C)]
#[derive(Clone, Copy)]
pub struct VfArea {
    pub number: u32,
    pub pages: u32,
    pub name: [u8; 13],
}

/// What is listed, as a struct of C.
pub trait Listed<T>: Copy {
    // the struct of an item
    ghost shown: { T → Self };

    /// The item as a struct.
    fn of(item: &T) -> Self
        ensures { result ≡ shown item.now };
}

impl Listed<BlockItem> for VfBlock {
    ghost shown = { as_block };

    fn of(item: &BlockItem) -> VfBlock {
        VfBlock {
            anchor: u32::from(item.anchor.0),
            address: item.address,
            size: item.size,
        }
    }
}

impl Listed<SegmentItem> for VfSegment {
    ghost shown = { as_segment };

    fn of(item: &SegmentItem) -> VfSegment {
        match *item {
            SegmentItem::Used { address, size } => VfSegment {
                address,
                size,
                used: true,
            },
            SegmentItem::Hole { address, size } => VfSegment {
                address,
                size,
                used: false,
            },
        }
    }
}

/// The number of a record's state.
fn state_number(state: State) -> u32
    ensures { result ≡ state_number_of state }
{
    match state {
        State::Open => RECORD_OPEN,
        State::Fetching => RECORD_FETCHING,
        State::Draining => RECORD_DRAINING,
        State::Asking => RECORD_ASKING,
        State::Done => RECORD_DONE,
        State::Failed => RECORD_FAILED,
    }
}

fn listed_record(state: State, id: u32, count: u32) -> VfRecord
    ensures { result ≡ record { state = state_number_of state; id = id; count = count } }
{
    VfRecord {
        state: state_number(state),
        id,
        count,
    }
}

impl Listed<Outgoing> for VfRecord {
    ghost use Rattle.rh_defs.specs.declared.transfer.Outgoing.{Outgoing};

    ghost shown = { λ (r : Outgoing). record_of (out_item r) };

    fn of(item: &Outgoing) -> VfRecord {
        match item {
            Outgoing::Open(sending) => listed_record(State::Open, sending.id.0, sending.count),
            Outgoing::Done { id, count } => listed_record(State::Done, id.0, *count),
            Outgoing::Failed { id, count } => listed_record(State::Failed, id.0, *count),
        }
    }
}

impl Listed<Incoming> for VfRecord {
    ghost use Rattle.rh_defs.specs.declared.transfer.Incoming.{Incoming};

    ghost shown = { λ (r : Incoming). record_of (in_item r) };

    fn of(item: &Incoming) -> VfRecord {
        match item {
            Incoming::Fetching(taking) => listed_record(State::Fetching, taking.id.0, taking.count),
            Incoming::Draining(taking) => listed_record(State::Draining, taking.id.0, taking.count),
            Incoming::Asking(asked) => listed_record(State::Asking, asked.id.0, 0),
            Incoming::Done {
                id,
                anchor: _,
                count,
            } => listed_record(State::Done, id.0, *count),
            Incoming::Failed {
                id,
                anchor: _,
                count,
            } => listed_record(State::Failed, id.0, *count),
        }
    }
}

/// A name in an array, with zeros behind it.
fn name_array(name: &Name) -> [u8; 13]
    ensures { result ≡ padded_name name.now }
{
    let letters = name.as_bytes();
    let mut bytes = [0; NAME_ROOM];
    bytes[..letters.len()].copy_from_slice(letters);
    bytes
}

/// An item of the list of areas, as a struct.
pub fn listed_area(entry: AreaEntry<'_>) -> VfArea
    ensures { result ≡ as_area (area_item_of entry.entry) }
{
    match entry {
        AreaEntry::Area { number, pages } => VfArea {
            number,
            pages,
            name: [0; NAME_ROOM],
        },
        AreaEntry::Slot { name, pages } => VfArea {
            number: 0,
            pages,
            name: name_array(name),
        },
    }
}
