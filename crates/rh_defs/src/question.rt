//! What is asked of a desk, and what an answer has: the numbers of its first line, and the items that it lists.

ghost use Rattle.std.specs.Prelude.{◌≡◌};
ghost use Rattle.std.specs.Option.{option_map};
ghost use Rattle.rh_defs.specs.Inner.NamedParts.{name_asked};
ghost use Rattle.rh_defs.specs.Questions.{each_of};
ghost use Rattle.rh_defs.specs.Range.{can_be_asked};

use crate::ids::{Anchor, Handle, Ref};
use crate::name::Name;
use crate::sizes::GREATEST_NUMBER;
use arrayvec::ArrayVec;

/// One question: a command that looks at a desk, and can't change it.
#[derive(Debug, Drop, PartialEq, Eq)]
pub enum Question {
    /// Shows a flex block's size and bytes (flex_size).
    Show { name: Name, anchor: Anchor },
    /// Shows the bytes at an address of a slot, which lie whole in one block.
    Read { name: Name, address: u32, size: u32 },
    /// Lists a slot's flex blocks from below.
    Blocks { name: Name },
    /// Describes the task's C heap (OS_Heap 1), and lists its segments from below.
    Heap { name: Name },
    /// Lists the records of the task's transfers.
    Status { name: Name },
    /// Lists the free pages, and those of each area and slot.
    Areas,
}

impl Question {
    /// Whether its names and numbers are of the forms that a script line can give them.
    pub(crate) fn in_range(&self) -> bool
        ensures { result ≡ can_be_asked self.now }
    {
        match self {
            Question::Show { name, anchor } => name.is_valid() && anchor.is_valid(),
            Question::Read {
                name,
                address: _,
                size,
            } => name.is_valid() && *size <= GREATEST_NUMBER,
            Question::Blocks { name } | Question::Heap { name } | Question::Status { name } => {
                name.is_valid()
            }
            Question::Areas => true,
        }
    }

    /// The name of the task that it is about.
    pub(crate) fn task_name(&self) -> Option<&Name>
        ensures { option_map (λ n. n.now) result ≡ name_asked self.now }
    {
        match self {
            Question::Show { name, .. }
            | Question::Read { name, .. }
            | Question::Blocks { name }
            | Question::Heap { name }
            | Question::Status { name } => Some(name),
            Question::Areas => None,
        }
    }
}

/// So many numbers stand in an answer's first line at most.
pub const MOST_NUMBERS: usize = 3;

/// What the first line of an answer tells.
#[derive(Clone, Copy, Debug, PartialEq, Eq)]
pub enum Numbers {
    /// The size in bytes of the block that is shown, or how many bytes are.
    Shown {
        size: u32,
    },
    /// How many flex blocks a slot has.
    BlockCount(u32),
    /// A C heap's length, the size of the largest block that fits, and its free bytes (OS_Heap 1).
    HeapSums {
        length: u32,
        largest: u32,
        free: u32,
    },
    /// The handle of the task whose records are listed.
    StatusOf(Handle),
    /// How many pages are free.
    FreePages(u32),
}

impl Numbers {
    /// Each number, in the order in which the line has them.
    pub fn each(&self) -> ArrayVec<u32, MOST_NUMBERS>
        ensures { result.items ≡ each_of self.now }
    {
        let mut numbers = ArrayVec::new();
        match self {
            Numbers::Shown { size: number }
            | Numbers::BlockCount(number)
            | Numbers::StatusOf(Handle(number))
            | Numbers::FreePages(number) => numbers.push(*number),
            Numbers::HeapSums {
                length,
                largest,
                free,
            } => {
                numbers.push(*length);
                numbers.push(*largest);
                numbers.push(*free);
            }
        }
        numbers
    }
}

/// A flex block as `blocks` lists it.
#[derive(Clone, Copy, Debug, PartialEq, Eq)]
pub struct BlockItem {
    /// The anchor that holds the block's address.
    pub anchor: Anchor,
    /// The address of its first byte, from &8000 on.
    pub address: u32,
    /// Its size in bytes.
    pub size: u32,
}

impl Default for BlockItem {
    /// No block, as none is at address 0.
    fn default() -> BlockItem {
        BlockItem {
            anchor: Anchor(0),
            address: 0,
            size: 0,
        }
    }
}

/// A segment of a C heap as `heap` lists it.
#[derive(Clone, Copy, Debug, PartialEq, Eq)]
pub enum SegmentItem {
    /// A block: its address, and its size in bytes.
    Used { address: u32, size: u32 },
    /// A hole: the address of its first byte, and its whole size in bytes.
    Hole { address: u32, size: u32 },
}

impl Default for SegmentItem {
    /// A block at address 0, as no heap has one. All of its bytes are zeros, so that a row of them is cleared.
    fn default() -> SegmentItem {
        SegmentItem::Used {
            address: 0,
            size: 0,
        }
    }
}

/// An area or a slot as `areas` lists it.
#[derive(Debug, Drop, PartialEq, Eq)]
pub enum AreaItem {
    /// An area by its number: 0 to 5 as OS_ChangeDynamicArea has them, or that of a made one.
    Area { number: u32, pages: u32 },
    /// The slot of the task with the name.
    Slot { name: Name, pages: u32 },
}

/// The state of a transfer's record.
#[derive(Clone, Copy, Debug, PartialEq, Eq)]
pub enum State {
    /// It goes out, and hasn't ended.
    Open,
    /// It comes in through its buffer.
    Fetching,
    /// It was given up, and its buffer isn't back yet.
    Draining,
    /// It waits for a file.
    Asking,
    /// It ended, and all bytes were handed over.
    Done,
    /// It ended early.
    Failed,
}

/// A record of a transfer as `status` lists it.
#[derive(Clone, Copy, Debug, PartialEq, Eq)]
pub struct RecordItem {
    /// Where the transfer stands.
    pub state: State,
    /// The ref of its DataSave.
    pub id: Ref,
    /// The bytes that were handed over so far.
    pub count: u32,
}
