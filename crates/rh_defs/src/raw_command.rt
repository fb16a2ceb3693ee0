//! What a task with code of its own does: the commands that no other task may give.

ghost use Rattle.std.specs.Prelude.{◌≡◌};
ghost use Rattle.std.specs.Option.{option_map};
ghost use Rattle.rh_defs.specs.Grammar.{AnyNumber, Data as DataForm, Maybe, raw_spelling};
ghost use Rattle.rh_defs.specs.Inner.NamedParts.{name_given};
ghost use Rattle.rh_defs.specs.Range.{can_be_read, is_of};

use crate::bytes::Bytes;
use crate::data::Data;
use crate::ids::{Anchor, Handle, Ref};
use crate::name::Name;
use crate::sizes::GREATEST_NUMBER;

/// One command of a task with code of its own.
#[derive(Debug, Drop, PartialEq, Eq)]
pub enum RawCommand {
    /// Sends a message to a task, `recorded` where it wants an answer (Wimp_SendMessage).
    Send {
        name: Name,
        recorded: bool,
        to: Handle,
        your_ref: Ref,
        action: u32,
        data: Option<Data>,
    },
    /// Writes bytes into the task's slot, from an address on.
    Write {
        name: Name,
        address: u32,
        bytes: Bytes,
    },
    /// Moves the `size` bytes at an address to a place of another task, which opened it (Wimp_TransferBlock).
    Transfer {
        name: Name,
        address: u32,
        to: Handle,
        place: u32,
        size: u32,
    },
    /// Says that the message which the task holds is answered, and sends nothing.
    Ack {
        name: Name,
    },
    /// Makes a flex block the scrap file, and tells a task of it (Message_DataLoad).
    Spool {
        name: Name,
        anchor: Anchor,
        to: Handle,
        your_ref: Ref,
    },
    /// Puts a flex block with the scrap file's bytes on top of the task's slot.
    Scrap {
        name: Name,
        anchor: Anchor,
    },
}

/// Any word is one that a line can spell.
fn is_word(n: u32) -> bool
    ensures { result ≡ is_of AnyNumber n }
{
    n <= u32::MAX
}

fn is_data(given: &Option<Data>) -> bool
    ensures { result ≡ is_of (Maybe DataForm) given.now }
{
    match given {
        None => true,
        Some(given) => !given.as_slice().is_empty() && given.is_whole(),
    }
}

impl RawCommand {
    /// Whether its numbers, names and bytes are of the forms that a script line can give them.
    pub(crate) fn in_range(&self) -> bool
        ensures { result ≡ can_be_read (raw_spelling self.now) }
    {
        match self {
            RawCommand::Send {
                name,
                recorded: _,
                to,
                your_ref,
                action,
                data,
            } => {
                name.is_valid()
                    && to.0 >= 1
                    && is_word(your_ref.0)
                    && is_word(*action)
                    && is_data(data)
            }
            RawCommand::Write { name, bytes, .. } => {
                name.is_valid() && !bytes.as_slice().is_empty()
            }
            RawCommand::Transfer { name, to, size, .. } => {
                name.is_valid() && to.0 >= 1 && *size <= GREATEST_NUMBER
            }
            RawCommand::Ack { name } => name.is_valid(),
            RawCommand::Spool {
                name,
                anchor,
                to,
                your_ref,
            } => { name.is_valid() && anchor.is_valid() && to.0 >= 1 && is_word(your_ref.0) }
            RawCommand::Scrap { name, anchor } => name.is_valid() && anchor.is_valid(),
        }
    }

    /// The name of the task that gives it.
    pub(crate) fn task_name(&self) -> Option<&Name>
        ensures { option_map (λ n. n.now) result ≡ name_given self.now }
    {
        match self {
            RawCommand::Send { name, .. }
            | RawCommand::Write { name, .. }
            | RawCommand::Transfer { name, .. }
            | RawCommand::Ack { name }
            | RawCommand::Spool { name, .. }
            | RawCommand::Scrap { name, .. } => Some(name),
        }
    }
}
