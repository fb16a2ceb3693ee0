//! The live tasks, by name.

ghost use Rattle.std.specs.Prelude.{◌≡◌, ◌<◌, IfOk, IfErr, Some, None, Err};
ghost use Rattle.std.specs.List.{AllByRecursion, list_any, position};
ghost use Rattle.rh_defs.specs.Slot.{anchor_count};
ghost use Rattle.rh_defs.specs.Memory.{Memory};
ghost use Rattle.rh_defs.specs.RawTasks.{is_raw};
ghost use Rattle.rh_defs.specs.Desk.{idle_block, idle_buffer};
ghost use Rattle.rh_tasks.specs.View.{is_named, HasSlot};
ghost use Rattle.rh_tasks.specs.Finding.{Owns, OwnsIdle, OwnsWith, looked};

use crate::seat::{Seat, Seats};
use rh_defs::{Anchor, Name, Refusal};
use rh_slot::Slot;
use rh_store::Words;

/// So many tasks are looked at in a turn.
const TURN: usize = 4;

/// Whether a task has the name.
pub fn is_name_in_use(seats: &Seats, name: &Name) -> bool
    ensures { result ≡ list_any (is_named name.now) seats.now.items }
{
    seats.iter().any(|seat| seat.name == *name)
}

/// Whether a task has code of its own.
pub fn has_raw(seats: &Seats) -> bool
    ensures { result ≡ list_any (λ (s : Seat). is_raw s.manner) seats.now.items }
{
    seats.iter().any(|seat| seat.is_raw())
}

/// The place of the task with the name. The first task is looked at before the others, with no loop.
#[inline(always)]
fn position_of(seats: &Seats, name: &Name) -> Option<usize>
    ensures { result ≡ position (is_named name.now) seats.now.items }
{
    let all = seats.as_slice();
    if !all.is_empty() && all[0].name == *name {
        return Some(0);
    }
    position_by_turns(all, name)
}

/// The place of the task with the name among any number of them.
#[inline(never)]
fn position_by_turns(all: &[Seat], name: &Name) -> Option<usize>
    ensures { result ≡ position (is_named name.now) all.now }
{
    let mut at = 0;
    while all.len() - at >= TURN {
        if let Some(i) = position_in(&all[at..at + TURN], name) {
            return Some(at + i);
        }
        at += TURN;
    }
    match position_in(&all[at..], name) {
        Some(i) => Some(at + i),
        None => None,
    }
}

/// The place of the task with the name among some.
#[inline(always)]
fn position_in(seats: &[Seat], name: &Name) -> Option<usize>
    ensures { result ≡ position (is_named name.now) seats.now }
{
    seats.iter().position(|seat| seat.name == *name)
}

/// The place of the task with the name; NoName where there is none.
#[inline(always)]
pub fn find(seats: &Seats, name: &Name) -> Result<usize, Refusal>
    ensures ok { IfOk result (λ i. position (is_named name.now) seats.now.items ≡ Some i) }
    ensures err { IfErr result (λ e. (e ≡ Refusal.NoName) × (position (is_named name.now) seats.now.items ≡ None)) }
{
    match position_of(seats, name) {
        Some(i) => Ok(i),
        None => Err(Refusal::NoName),
    }
}

/// The slot of the task with the name; NoName where there is none.
pub fn slot_of(seats: &Seats, name: &Name) -> Result<Slot, Refusal>
    ensures ok { IfOk result (λ slot. Owns name.now seats.now.items slot) }
    ensures err { IfErr result (λ e. (e ≡ Refusal.NoName) × (position (is_named name.now) seats.now.items ≡ None)) }
{
    let i = find(seats, name)?;
    let seat = &seats[i];
    Ok(seat.slot)
}

/// The slot of the task with the name, whose block at the anchor isn't busy: NoName, NoBlock, Busy.
pub fn idle_slot<S: Words>(
    store: &S,
    seats: &Seats,
    name: &Name,
    anchor: Anchor,
) -> Result<Slot, Refusal>
    requires anchor { anchor < anchor_count }
    requires slots { AllByRecursion (HasSlot (S.memory store.now)) seats.now.items }
    ensures ok { IfOk result (OwnsWith (idle_block anchor) (S.memory store.now) name.now seats.now.items) }
    ensures err { IfErr result (λ e. looked (idle_block anchor) (S.memory store.now) name.now seats.now.items ≡ Err e) }
{
    let i = find(seats, name)?;
    let seat = &seats[i];
    seat.slot.size(store, anchor)?;
    if seat.is_busy_block(anchor) {
        return Err(Refusal::Busy);
    }
    Ok(seat.slot)
}

/// The slot of the task with the name, where no block of its C heap at the address is busy: NoName, NotABlock, Busy.
/// Whether a block that isn't busy is there, the slot's own call finds out.
pub fn idle_heap<S: Words>(
    store: &S,
    seats: &Seats,
    name: &Name,
    address: u32,
) -> Result<Slot, Refusal>
    requires { AllByRecursion (HasSlot (S.memory store.now)) seats.now.items }
    ensures ok { IfOk result (OwnsIdle address name.now seats.now.items) }
    ensures err { IfErr result (λ e. looked (idle_buffer address) (S.memory store.now) name.now seats.now.items
        ≡ Err e) }
{
    let i = find(seats, name)?;
    let seat = &seats[i];
    if !seat.is_busy_buffer(address) {
        return Ok(seat.slot);
    }
    seat.slot.block_size(store, address as usize)?;
    Err(Refusal::Busy)
}
