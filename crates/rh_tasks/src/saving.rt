//! Blocks that are offered to other tasks.

ghost use Rattle.std.specs.Prelude.{◌≡◌, ◌<◌, true, None, Err, IfOk, IfErr};
ghost use Rattle.std.specs.List.{AllByRecursion, position};
ghost use Rattle.rh_defs.specs.Slot.{anchor_count};
ghost use Rattle.rh_defs.specs.declared.command.Command.TheVariants as Command;
ghost use Rattle.rh_defs.specs.Forms.{is_leaf};
ghost use Rattle.rh_defs.specs.Memory.{Memory};
ghost use Rattle.rh_defs.specs.Range.{in_range};
ghost use Rattle.rh_defs.specs.Commands.{save as save_on};
ghost use Rattle.rh_tasks.specs.Inner.CommandAnswers.{GivesAlike};
ghost use Rattle.rh_tasks.specs.Finding.{looked};
ghost use Rattle.rh_tasks.specs.Inner.Saves.{CanOffer, HasHandle, source_block};
ghost use Rattle.rh_tasks.specs.View.{is_named, HasSlot};

use crate::letters::{refused_after, send};
use crate::named_files::NamedFiles;
use crate::seat::Seats;
use crate::seats::find;
use crate::world::World;
use rh_defs::{Anchor, Handle, Leaf, Name, Pathname, Refusal, Reply};
use rh_ram::save_letter;
use rh_store::{Store, Words};

/// A block that may be offered: its task's place, and its bytes.
#[derive(Clone, Copy, Debug, PartialEq, Eq)]
struct SourceBlock {
    place: usize,
    size: u32,
}

/// The block at the anchor, which isn't busy, of the task with the name, which may offer one more: NoName, NoBlock,
/// Busy.
fn idle_source<S: Words>(
    store: &S,
    seats: &Seats,
    name: &Name,
    anchor: Anchor,
) -> Result<SourceBlock, Refusal>
    requires anchor { anchor < anchor_count }
    requires slots { AllByRecursion (HasSlot (S.memory store.now)) seats.now.items }
    ensures ok { IfOk result (CanOffer anchor (S.memory store.now) name.now seats.now.items) }
    ensures err { IfErr result (λ e. looked (source_block anchor) (S.memory store.now) name.now seats.now.items
        ≡ Err e) }
{
    let i = find(seats, name)?;
    let seat = &seats[i];
    let size = seat.slot.size(store, anchor)? as u32;
    let is_busy = seat.is_busy_block(anchor);
    if is_busy {
        return Err(Refusal::Busy);
    }
    if seat.sending.is_full() {
        return Err(Refusal::Busy);
    }
    Ok(SourceBlock { place: i, size })
}

/// The handle of the task with the name; NoTask where there is none.
fn recipient_of(seats: &Seats, name: &Name) -> Result<Handle, Refusal>
    ensures ok { IfOk result (HasHandle name.now seats.now.items) }
    ensures err { IfErr result (λ e. (e ≡ Refusal.NoTask) × (position (is_named name.now) seats.now.items ≡ None)) }
{
    let Ok(i) = find(seats, name) else {
        return Err(Refusal::NoTask);
    };
    let seat = &seats[i];
    Ok(seat.handle)
}

/// A leafname as the name in a message.
fn pathname(leaf: &Leaf) -> Pathname
    requires { is_leaf leaf.now ≡ true }
    ensures { result ≡ leaf.now }
{
    Pathname::new(leaf.as_slice()).unwrap()
}

impl<S: Store, F: NamedFiles> World<S, F> {
    /// Offers a block to another task: NoName, NoBlock, Busy, NoTask, NoRefs, QueueFull, NoRoom, WrongManner.
    pub(crate) fn save(
        &mut self,
        name: &Name,
        anchor: Anchor,
        to: &Name,
        leaf: &Leaf,
    ) -> Result<Reply, Refusal>
        requires { in_range (Command.Save name.now anchor to.now leaf.now) ≡ true }
        ensures { GivesAlike (save_on self.old.desk name.now anchor to.now leaf.now) self.old self.new result }
    {
        let source = idle_source(&self.store, &self.seats, name, anchor)?;
        let recipient = recipient_of(&self.seats, to)?;
        let seat = &mut self.seats[source.place];
        let letter = save_letter(seat.handle, recipient, source.size, pathname(leaf));
        if seat.is_raw() {
            let refusal = Refusal::WrongManner;
            return Err(refused_after(&self.store, &self.queue, &letter, refusal));
        }
        let my_ref = send(&mut self.store, &mut self.queue, seat, letter)?;
        seat.sending.offered(my_ref, recipient, anchor);
        Ok(Reply::Sent(my_ref))
    }
}
