//! Documents that grow by what comes in, and the buffers through which it comes.

ghost use Rattle.std.specs.Prelude.{◌≡◌, ◌≤◌, ◌<◌, ◌+◌, true, length, IfSome};
ghost use Rattle.rh_defs.specs.declared.transfer_action.Next.TheVariants as next;
ghost use Rattle.rh_defs.specs.declared.transfer_action.TakeAction.TheVariants as take_action;
ghost use Rattle.rh_defs.specs.Chain.{no_answer};
ghost use Rattle.rh_defs.specs.Desk.{Task, with_task};
ghost use Rattle.rh_defs.specs.IncomingEvents.{appended, without_buffer, taking_ended, fetch_more as fetch_more_on};
ghost use Rattle.rh_defs.specs.IncomingEvents.{took as took_on, append as append_on, outcome_of_end, ask as ask_on};
ghost use Rattle.rh_defs.specs.IncomingEvents.{take_with, perform_take as perform_take_on, ack_back as ack_back_on};
ghost use Rattle.rh_defs.specs.Memory.{Memory, IsOpen, bytes};
ghost use Rattle.rh_defs.specs.Bytes.{part};
ghost use Rattle.rh_defs.specs.Places.{first_bytes};
ghost use Rattle.rh_defs.specs.Receiver as receiver;
ghost use Rattle.rh_defs.specs.Slot.{slot_size, heap_block_at};
ghost use Rattle.rh_ram.specs.Told.{can_keep, after_failure};
ghost use Rattle.rh_slot.specs.SlotArea.{IsSlotIn, slot_in};
ghost use Rattle.rh_slot.specs.SlotCalls.{LeavesSlotIn};
ghost use Rattle.rh_slot.specs.Flex.{slot_append};
ghost use Rattle.rh_tasks.specs.WorldPolls.{Becomes, AreFirst};
ghost use Rattle.rh_tasks.specs.Inner.PollSteps.{IsAt, CanTake, Attempts, Handles};

use crate::named_files::NamedFiles;
use crate::world::World;
use rh_defs::sizes::{ANCHORS, SLOT_START};
use rh_defs::{Anchor, Append, Ending, Fetch, Next, Outcome, Ref, Refusal, TakeAction, Taking};
use rh_ram::{ack_letter, fetch_letter};
use rh_slot::{Slot, append_from};
use rh_store::{AreaId, Store, Words};

/// How many bytes the anchor's block has: NoBlock where it has none, also for an anchor that no slot has.
pub fn document_size<S: Words>(store: &S, slot: Slot, anchor: Anchor) -> Result<u32, Refusal>
    requires { IsSlotIn (S.memory store.now) slot }
    ensures { result ≡ slot_size anchor (slot_in (S.memory store.now) slot) }
{
    if usize::from(anchor.0) >= ANCHORS {
        return Err(Refusal::NoBlock);
    }
    let size = slot.size(store, anchor)?;
    Ok(size as u32)
}

/// Puts n bytes of an area at the end of the anchor's block: NoBlock, NoRoom. In the slot's own area they are the first
/// ones of a block of its C heap, since the words before it change where blocks slide.
pub fn append<S: Store>(
    store: &mut S,
    slot: Slot,
    anchor: Anchor,
    from: AreaId,
    place: usize,
    n: usize,
) -> Result<(), Refusal>
    requires slot { IsSlotIn (S.memory store.old) slot }
    requires opened { IsOpen (S.memory store.old) from.0 }
    requires source { place + n ≤ length (bytes (S.memory store.old) from.0) }
    requires below { from.0 ≡ slot.area.0 → AreFirst place n (slot_in (S.memory store.old) slot) }
    ensures { LeavesSlotIn (S.memory store.old) (S.memory store.new) slot
        (no_answer (slot_append (S.memory store.old).free anchor (part (bytes (S.memory store.old) from.0) place n)
        (slot_in (S.memory store.old) slot))) result }
{
    if usize::from(anchor.0) >= ANCHORS {
        return Err(Refusal::NoBlock);
    }
    append_from(store, slot, anchor, from, place, n)
}

/// The first bytes of a buffer, n of them where it has so many: where they stand in the slot's area, and how many there
/// are. None where no block of the C heap begins at the address.
fn held_in<S: Words>(store: &S, slot: Slot, buffer: u32, n: u32) -> (usize, usize)
    requires { IsSlotIn (S.memory store.now) slot }
    ensures bytes { part (bytes (S.memory store.now) slot.area.0) result.0 result.1
        ≡ first_bytes n (heap_block_at buffer (slot_in (S.memory store.now) slot)) }
    ensures first { AreFirst result.0 result.1 (slot_in (S.memory store.now) slot) }
{
    let Ok(size) = slot.block_size(store, buffer as usize) else {
        return (0, 0);
    };
    (
        (buffer as usize).saturating_sub(SLOT_START),
        size.min(n as usize),
    )
}

impl<S: Store, F: NamedFiles> World<S, F> {
    /// Puts the first n bytes of a buffer at the end of a document: NoBlock, NoRoom.
    fn append_buffer(
        &mut self,
        i: usize,
        anchor: Anchor,
        buffer: u32,
        n: u32,
    ) -> Result<(), Refusal>
        requires { i < length self.old.desk.tasks }
        ensures { (t : Task) → IsAt i t self.old.desk
            → Becomes (appended self.old.desk t anchor (first_bytes n
            (heap_block_at buffer t.slot))) self.old self.new result }
    {
        let seat = &self.seats[i];
        let slot = seat.slot;
        let (place, n) = held_in(&self.store, slot, buffer, n);
        append(&mut self.store, slot, anchor, slot.area, place, n)
    }

    /// Releases a transfer's buffer, where one begins at the address.
    pub(crate) fn drop_buffer(&mut self, i: usize, buffer: u32)
        requires { i < length self.old.desk.tasks }
        ensures { (t : Task) → IsAt i t self.old.desk
            → self.new.desk ≡ with_task t.handle (λ t. record t { slot = without_buffer buffer t.slot }) self.old.desk }
    {
        let seat = &self.seats[i];
        let slot = seat.slot;
        slot.release(&mut self.store, buffer as usize).ok();
    }

    /// An action of a transfer fails, with so many of its bytes in the document, and the transfer's buffer goes.
    fn end_failed(&mut self, i: usize, f: &Taking, action: &TakeAction, kept: u32)
        requires place { i < length self.old.desk.tasks }
        requires due { CanTake i action.now self.old.desk }
        requires kept { can_keep action.now kept ≡ true }
        ensures { (t : Task) → IsAt i t self.old.desk
            → self.new.desk ≡ taking_ended t.handle f.now (after_failure action.now kept) self.old.desk }
    {
        self.drop_buffer(i, f.buffer);
        self.edit_taking(i, |records| records.failed(action, kept));
    }

    /// Asks for the next bytes of a transfer: NoTask, NoRefs, QueueFull, NoRoom.
    fn fetch_more(&mut self, i: usize, a: &Append, fetch: &Fetch) -> Result<Outcome, Refusal>
        requires place { i < length self.old.desk.tasks }
        requires due { CanTake i (take_action.Append a.now) self.old.desk }
        requires next { a.now.next ≡ next.Fetch fetch.now }
        ensures { (t : Task) → IsAt i t self.old.desk
            → Attempts (fetch_more_on self.old.desk t a.now fetch.now) self.old self.new result }
    {
        let seat = &self.seats[i];
        let letter = fetch_letter(seat.handle, fetch);
        let fetch = self.send_from(i, letter)?;
        self.edit_taking(i, |records| records.fetched(a, fetch));
        Ok(Outcome::TookFull { count: a.n, fetch })
    }

    /// What follows on bytes that are in the document.
    fn took(&mut self, i: usize, a: &Append) -> Outcome
        requires place { i < length self.old.desk.tasks }
        requires due { CanTake i (take_action.Append a.now) self.old.desk }
        ensures { (t : Task) → IsAt i t self.old.desk
            → Handles (took_on self.old.desk t a.now a.now.next) self.new result }
    {
        match &a.next {
            Next::Finish => {
                self.drop_buffer(i, a.transfer.buffer);
                self.edit_taking(i, |records| records.finished(a));
                Outcome::TookLast { count: a.n }
            }
            Next::Fetch(fetch) => match self.fetch_more(i, a, fetch) {
                Ok(outcome) => outcome,
                Err(refusal) => {
                    self.end_failed(i, &a.transfer, &TakeAction::Append(*a), a.n);
                    Outcome::TookFailed {
                        count: a.n,
                        refusal,
                    }
                }
            },
        }
    }

    /// The buffer's first bytes go to the document's end.
    fn take_more(&mut self, i: usize, a: &Append) -> Outcome
        requires place { i < length self.old.desk.tasks }
        requires due { CanTake i (take_action.Append a.now) self.old.desk }
        ensures { (t : Task) → IsAt i t self.old.desk → Handles (append_on self.old.desk t a.now) self.new result }
    {
        match self.append_buffer(i, a.transfer.anchor, a.transfer.buffer, a.n) {
            Ok(()) => self.took(i, a),
            Err(refusal) => {
                self.end_failed(i, &a.transfer, &TakeAction::Append(*a), 0);
                Outcome::Refused(refusal)
            }
        }
    }

    /// Asks the sender for a file, and the buffer goes: NoTask, NoRefs, QueueFull, NoRoom.
    fn ask(&mut self, i: usize, f: &Taking) -> Result<Outcome, Refusal>
        requires place { i < length self.old.desk.tasks }
        requires due { CanTake i (take_action.AskForFile f.now) self.old.desk }
        ensures { (t : Task) → IsAt i t self.old.desk
            → Attempts (ask_on self.old.desk t f.now) self.old self.new result }
    {
        let seat = &self.seats[i];
        let letter = ack_letter(seat.handle, f);
        let ack = self.send_from(i, letter)?;
        self.drop_buffer(i, f.buffer);
        self.edit_taking(i, |records| records.asking(f, ack));
        Ok(Outcome::Asked(ack))
    }

    /// Asks the sender for a file; where that is refused the transfer fails.
    fn ask_for_file(&mut self, i: usize, f: &Taking) -> Outcome
        requires place { i < length self.old.desk.tasks }
        requires due { CanTake i (take_action.AskForFile f.now) self.old.desk }
        ensures { (t : Task) → IsAt i t self.old.desk
            → Handles (take_with self.old.desk t (take_action.AskForFile f.now)) self.new result }
    {
        match self.ask(i, f) {
            Ok(outcome) => outcome,
            Err(refusal) => {
                self.end_failed(i, f, &TakeAction::AskForFile(*f), 0);
                Outcome::Refused(refusal)
            }
        }
    }

    /// What a task that receives has to do, if anything.
    pub(crate) fn perform_take(&mut self, i: usize, action: Option<TakeAction>) -> Outcome
        requires place { i < length self.old.desk.tasks }
        requires due { IfSome action (λ a. CanTake i a self.old.desk) }
        ensures { (t : Task) → IsAt i t self.old.desk
            → Handles (perform_take_on self.old.desk t action) self.new result }
    {
        let Some(action) = action else {
            return Outcome::Ignored;
        };
        match &action {
            TakeAction::Claim(a) => self.take_offer(i, a),
            TakeAction::Append(a) => self.take_more(i, a),
            TakeAction::AskForFile(f) => self.ask_for_file(i, f),
            TakeAction::LoadFile(a) => self.load_file(i, a),
            TakeAction::Release(a) => {
                self.end_failed(i, &a.transfer, &action, 0);
                outcome_of(a.ending)
            }
        }
    }

    /// What a DataSaveAck that came back does to its record.
    pub(crate) fn ack_back(&mut self, i: usize, ack: Ref) -> Outcome
        requires { i < length self.old.desk.tasks }
        ensures { (t : Task) → IsAt i t self.old.desk
            → Handles (ack_back_on self.old.desk t (receiver.on_ack_bounce ack t.taking)) self.new result }
    {
        let seat = &mut self.seats[i];
        if seat.taking.on_ack_bounce(ack) {
            return Outcome::Failed;
        }
        Outcome::Ignored
    }
}

/// What is told of a transfer that ends early.
fn outcome_of(ending: Ending) -> Outcome
    ensures { result ≡ outcome_of_end ending }
{
    match ending {
        Ending::Drained => Outcome::Drained,
        Ending::Unanswered => Outcome::Failed,
        Ending::Uncountable => Outcome::Refused(Refusal::NoRoom),
    }
}
