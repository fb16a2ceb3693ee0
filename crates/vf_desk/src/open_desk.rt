//! What a handle has: files, and the desk where it is open.
ghost use Rattle.std.specs.Prelude.{◌≡◌, ◌≢◌, Option, Some, None};
ghost use Rattle.rh_defs.specs.Desk.{Desk};
ghost use Rattle.rh_defs.specs.declared.command.Command.TheVariants as Command;
ghost use Rattle.vf_desk.specs.CallOutcome.{IsAsked, called, desk_by, in_form, status_of};
ghost use Rattle.vf_desk.specs.Event.{next_ref_in};
ghost use Rattle.vf_desk.specs.Inner.DeskSteps.{Steps};
ghost use Rattle.vf_desk.specs.SeenDesk.{KeepsRest, SeenBy};

use crate::call_outcome::CallOutcome;
use crate::console::{Console, PagedWorld};
use crate::desk_files::DeskFiles;
use crate::forms::{anchor_of, name_of};
use crate::held::Held;
use rh_defs::sizes::GREATEST_NUMBER;
use rh_defs::{Command, Reply};

/// The files that wait for a desk to be opened, the desk from then on, and bytes that its replies are printed in.
#[derive(Drop)]
pub struct OpenDesk {
    pub files: DeskFiles,
    pub console: Option<Console>,
    pub held: Held,
}

impl OpenDesk {
    /// Does a command on the desk, if it is open and the command in range; else nothing changes.
    pub fn step(&mut self, command: &Command) -> CallOutcome
        ensures said { (s : Option Desk) → SeenBy self.old.console s → result ≡ called s (in_form command.now) }
        ensures desk { (s : Option Desk) → SeenBy self.old.console s →
            SeenBy self.new.console (desk_by s (in_form command.now)) }
        ensures rest { KeepsRest (Some self.old) (Some self.new) }
        ensures refused { status_of result ≢ 0 → self.new ≡ self.old }
        ensures asked { IsAsked (in_form command.now) → self.new ≡ self.old }
    {
        match &mut self.console {
            Some(console) => step_world(&mut console.world, command),
            None => CallOutcome::Closed,
        }
    }

    /// The ref of the message that is sent next: 0 where the desk isn't open, or no ref is left.
    pub fn next_ref(&self) -> u32
        ensures { (s : Option Desk) → SeenBy self.now.console s → result ≡ next_ref_in s }
    {
        let Some(console) = &self.console else {
            return 0;
        };
        let my_ref = console.world.next_ref();
        if my_ref > u64::from(u32::MAX) {
            return 0;
        }
        my_ref as u32
    }

    /// Writes bytes into a flex block of the desk, if it is open and they can be written by a line that has room.
    pub fn write(&mut self, name: &[u8], anchor: u32, offset: u32, from: &[u8]) -> CallOutcome
        ensures said { (s : Option Desk) → SeenBy self.old.console s →
            result ≡ called s (in_form (Command.Put name.now anchor offset from.now)) }
        ensures desk { (s : Option Desk) → SeenBy self.old.console s →
            SeenBy self.new.console (desk_by s (in_form (Command.Put name.now anchor offset from.now))) }
        ensures rest { KeepsRest (Some self.old) (Some self.new) }
        ensures refused { status_of result ≢ 0 → self.new ≡ self.old }
    {
        match &mut self.console {
            Some(console) => write_world(&mut console.world, name, anchor, offset, from),
            None => CallOutcome::Closed,
        }
    }
}

/// Does a command on a world, if it is in range.
fn step_world(world: &mut PagedWorld, command: &Command) -> CallOutcome
    ensures { Steps (in_form command.now) world.old world.new result }
{
    if command.in_range() {
        CallOutcome::Said(world.apply(command))
    } else {
        CallOutcome::BadArgument
    }
}

/// Writes bytes into a flex block of a world, if they can be written by a line that has room.
#[tactic(auto, unfolding(rh_defs::specs::Range::in_range))]
fn write_world(
    world: &mut PagedWorld,
    name: &[u8],
    anchor: u32,
    offset: u32,
    from: &[u8],
) -> CallOutcome
    ensures { Steps (in_form (Command.Put name.now anchor offset from.now)) world.old world.new result }
{
    let Some(name) = name_of(name) else {
        return CallOutcome::BadArgument;
    };
    let Some(anchor) = anchor_of(anchor) else {
        return CallOutcome::BadArgument;
    };
    if offset > GREATEST_NUMBER {
        return CallOutcome::BadArgument;
    }
    if from.is_empty() {
        return CallOutcome::BadArgument;
    }
    match world.put(&name, anchor, offset, from) {
        Ok(reply) => CallOutcome::Said(reply),
        Err(refusal) => CallOutcome::Said(Reply::Refused(refusal)),
    }
}
