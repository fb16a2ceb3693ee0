//! The commands of a script.

ghost use Rattle.std.specs.Prelude.{◌≡◌, true};
ghost use Rattle.std.specs.Option.{option_map};
ghost use Rattle.rh_defs.specs.Forms.{is_delta as is_delta_of};
ghost use Rattle.rh_defs.specs.Grammar.{Maybe, Ref as RefForm};
ghost use Rattle.rh_defs.specs.Named.{name_in};
ghost use Rattle.rh_defs.specs.Inner.NamedParts.{names_anchor};
ghost use Rattle.rh_defs.specs.Range.{in_range as in_range_of, is_of};

use crate::bytes::Bytes;
use crate::ids::{Anchor, Ref};
use crate::leaf::Leaf;
use crate::name::Name;
use crate::question::Question;
use crate::raw_command::RawCommand;
use crate::sizes::{FIRST_MADE, GREATEST_NUMBER, LAST_AREA, LONGEST_BUFFER, MAX_PAGES};

/// How a task takes part in transfers.
#[derive(Clone, Copy, Debug, PartialEq, Eq)]
pub enum Manner {
    /// It sends and receives.
    Plain,
    /// It takes no DataSave.
    Deaf,
    /// It answers no RAMFetch, so that its receivers ask for a file.
    File,
    /// It has code of its own: it is handed its messages, and sends what it wants.
    Raw,
}

/// One command.
#[derive(Debug, Drop, PartialEq, Eq)]
pub enum Command {
    /// Starts a task with a receive buffer of `buffer` bytes, 1 to 65,536.
    Task {
        name: Name,
        buffer: u32,
        manner: Manner,
    },
    /// Ends a task: its messages bounce or vanish, and its pages are free.
    Kill {
        name: Name,
    },
    /// Puts a flex block of `size` zero bytes on top of the task's slot (flex_alloc).
    Alloc {
        name: Name,
        anchor: Anchor,
        size: u32,
    },
    /// Puts a flex block with a named file's bytes on top of the task's slot.
    Load {
        name: Name,
        anchor: Anchor,
        file: Name,
    },
    /// Writes bytes into a flex block, from an offset on.
    Put {
        name: Name,
        anchor: Anchor,
        offset: u32,
        bytes: Bytes,
    },
    /// Takes a flex block away; those above it slide down (flex_free).
    Free {
        name: Name,
        anchor: Anchor,
    },
    /// Cuts a flex block to `size` bytes, or lengthens it by zeros (flex_extend).
    Extend {
        name: Name,
        anchor: Anchor,
        size: u32,
    },
    /// Puts `by` zeros into a flex block at an offset, or takes out the `-by` bytes before it (flex_midextend).
    Mid {
        name: Name,
        anchor: Anchor,
        offset: u32,
        by: i32,
    },
    /// Claims a block of at least `size` bytes of the task's C heap (OS_Heap 2).
    Claim {
        name: Name,
        size: u32,
    },
    /// Releases the block at an address of the task's C heap (OS_Heap 3).
    Release {
        name: Name,
        address: u32,
    },
    /// Gives the block at an address of the task's C heap `delta` bytes more, or fewer where it is below 0 (OS_Heap 4).
    Resize {
        name: Name,
        address: u32,
        delta: i32,
    },
    /// Says whether flex blocks give way where the C heap grows (flex_set_budge).
    Budge {
        name: Name,
        on: bool,
    },
    /// Offers a flex block to another task under a leafname (Message_DataSave).
    Save {
        name: Name,
        anchor: Anchor,
        to: Name,
        leaf: Leaf,
    },
    /// Takes the task's next message, and does what it asks for (Wimp_Poll).
    Poll {
        name: Name,
    },
    /// Gives up the transfer with the id that comes in; without an id the first one that can be given up.
    CancelIn {
        name: Name,
        id: Option<Ref>,
    },
    /// Gives up the open transfer with the id that goes out; without an id the first one.
    CancelOut {
        name: Name,
        id: Option<Ref>,
    },
    /// Sends the message that the task sent last once more, under another ref.
    Repeat {
        name: Name,
    },
    /// Moves an area's length by `delta` bytes, of which the magnitude is rounded up to whole pages
    /// (OS_ChangeDynamicArea).
    Area {
        number: u32,
        delta: i32,
    },
    /// Makes an area of no page, and of at most `most` pages.
    Make {
        most: u32,
    },
    /// Takes a made area away; its pages are free then.
    Remove {
        number: u32,
    },
    /// Claims a block of at least `size` bytes of the module area (OS_Module 6).
    RmaClaim {
        size: u32,
    },
    /// Frees the block at an address of the module area (OS_Module 7).
    RmaFree {
        address: u32,
    },
    /// Gives the block at an address of the module area `delta` bytes more, or fewer where it is below 0 (OS_Module
    /// 13).
    RmaResize {
        address: u32,
        delta: i32,
    },
    /// Asks what leaves all as it is.
    Ask(Question),
    /// What a task with code of its own does.
    Raw(RawCommand),
}

fn is_delta(n: i32) -> bool
    ensures { result ≡ is_delta_of n }
{
    n != i32::MIN
}

fn is_id(id: Option<Ref>) -> bool
    ensures { result ≡ is_of (Maybe RefForm) id }
{
    match id {
        None => true,
        Some(id) => id.0 >= 1,
    }
}

impl Command {
    /// Whether its numbers, names and bytes are of the forms that a script line can give them.
    #[tactic(auto, unfolding(crate::specs::Range::in_range))]
    pub fn in_range(&self) -> bool
        ensures { result ≡ in_range_of self.now }
    {
        match self {
            Command::Task {
                name,
                buffer,
                manner: _,
            } => { name.is_valid() && *buffer >= 1 && *buffer <= LONGEST_BUFFER }
            Command::Alloc { .. }
            | Command::Load { .. }
            | Command::Put { .. }
            | Command::Free { .. }
            | Command::Extend { .. }
            | Command::Mid { .. }
            | Command::Save { .. } => self.block_in_range(),
            Command::Claim { name, size } => name.is_valid() && *size <= GREATEST_NUMBER,
            Command::Resize {
                name,
                address: _,
                delta,
            } => name.is_valid() && is_delta(*delta),
            Command::CancelIn { name, id } | Command::CancelOut { name, id } => {
                name.is_valid() && is_id(*id)
            }
            Command::Area { number, delta } => *number <= LAST_AREA && is_delta(*delta),
            Command::Make { most } => *most >= 1 && *most as usize <= MAX_PAGES,
            Command::Remove { number } => *number >= FIRST_MADE && *number <= LAST_AREA,
            Command::RmaClaim { size } => *size <= GREATEST_NUMBER,
            Command::RmaResize { address: _, delta } => is_delta(*delta),
            Command::RmaFree { address: _ } => true,
            Command::Kill { name }
            | Command::Release { name, address: _ }
            | Command::Budge { name, on: _ }
            | Command::Poll { name }
            | Command::Repeat { name } => name.is_valid(),
            Command::Ask(question) => question.in_range(),
            Command::Raw(command) => command.in_range(),
        }
    }

    /// Whether the parts of a command that names a flex block by its anchor are of the forms that a line can give them.
    #[tactic(auto, unfolding(crate::specs::Range::in_range))]
    fn block_in_range(&self) -> bool
        requires { names_anchor self.now ≡ true }
        ensures { result ≡ in_range_of self.now }
    {
        match self {
            Command::Alloc { name, anchor, size } | Command::Extend { name, anchor, size } => {
                name.is_valid() && anchor.is_valid() && *size <= GREATEST_NUMBER
            }
            Command::Load { name, anchor, file } => {
                name.is_valid() && anchor.is_valid() && file.is_valid()
            }
            Command::Put {
                name,
                anchor,
                offset,
                bytes,
            } => {
                name.is_valid()
                    && anchor.is_valid()
                    && *offset <= GREATEST_NUMBER
                    && !bytes.as_slice().is_empty()
            }
            Command::Free { name, anchor } => name.is_valid() && anchor.is_valid(),
            Command::Mid {
                name,
                anchor,
                offset,
                by,
            } => {
                name.is_valid() && anchor.is_valid() && *offset <= GREATEST_NUMBER && is_delta(*by)
            }
            Command::Save {
                name,
                anchor,
                to,
                leaf,
            } => { name.is_valid() && anchor.is_valid() && to.is_valid() && leaf.is_valid() }
            _ => unreachable!(),
        }
    }

    /// The name of the task that it is about; commands on areas and on the module area are about none.
    pub fn task_name(&self) -> Option<&Name>
        ensures { option_map (λ n. n.now) result ≡ name_in self.now }
    {
        match self {
            Command::Task { name, .. }
            | Command::Kill { name }
            | Command::Alloc { name, .. }
            | Command::Load { name, .. }
            | Command::Put { name, .. }
            | Command::Free { name, .. }
            | Command::Extend { name, .. }
            | Command::Mid { name, .. }
            | Command::Claim { name, .. }
            | Command::Release { name, .. }
            | Command::Resize { name, .. }
            | Command::Budge { name, .. }
            | Command::Save { name, .. }
            | Command::Poll { name }
            | Command::CancelIn { name, .. }
            | Command::CancelOut { name, .. }
            | Command::Repeat { name } => Some(name),
            Command::Ask(question) => question.task_name(),
            Command::Raw(command) => command.task_name(),
            Command::Area { .. }
            | Command::Make { .. }
            | Command::Remove { .. }
            | Command::RmaClaim { .. }
            | Command::RmaFree { .. }
            | Command::RmaResize { .. } => None,
        }
    }
}
