//! What a desk has of a refused command.

ghost use Rattle.std.specs.Prelude.{◌≡◌};
ghost use Rattle.rh_defs.specs.Desk.{Desk};
ghost use Rattle.rh_defs.specs.Named.{name_in};
ghost use Rattle.rh_explained.specs.Subjects.{address_in as address_named, anchor_in as anchor_named, facts_on};
ghost use Rattle.rh_explained.specs.Subjects.{size_at, transfers_in, use_among};

use crate::block_use::{BlockUse, use_of_address, use_of_anchor};
use crate::desk_facts::DeskFacts;
use crate::subjects::{address_in, anchor_in};
use rh_defs::Command;

/// What a desk has of a command: the transfer that uses its block, the size of its flex block, and the free pages.
#[derive(Clone, Copy)]
pub struct Facts {
    pub used: Option<BlockUse>,
    pub size: Option<u32>,
    pub free: u32,
}

impl Facts {
    /// What a desk has of a command.
    pub fn of<D: DeskFacts>(desk: &D, command: &Command) -> Facts
        ensures { (d : Desk) → D.spells desk.now d → result ≡ facts_on d command.now }
    {
        Facts {
            used: block_use(desk, command),
            size: block_size(desk, command),
            free: desk.free_pages(),
        }
    }
}

/// The transfer that uses the block that a command names.
fn block_use<D: DeskFacts>(desk: &D, command: &Command) -> Option<BlockUse>
    ensures { (d : Desk) → D.spells desk.now d → result ≡ use_among (anchor_named command.now)
        (address_named command.now) (transfers_in (name_in command.now) d) }
{
    let (sending, taking) = desk.transfers(command.task_name()?)?;
    match (anchor_in(command), address_in(command)) {
        (Some(anchor), _) => use_of_anchor(anchor, sending, taking),
        (None, Some(address)) => use_of_address(address, taking),
        (None, None) => None,
    }
}

/// The size of the flex block that a command names.
fn block_size<D: DeskFacts>(desk: &D, command: &Command) -> Option<u32>
    ensures { (d : Desk) → D.spells desk.now d → result ≡ size_at (name_in command.now)
        (anchor_named command.now) d }
{
    desk.block_size(command.task_name()?, anchor_in(command)?)
}
