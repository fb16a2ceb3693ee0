//! What a message does to a transfer that goes out.

ghost use Rattle.std.specs.Prelude.{◌≡◌, ◌<◌, ◌≤◌, ◌+◌, ◌^◌, ◌==◌, ◌-◌, false, length, take, drop, Ok, Err, IfOk};
ghost use Rattle.std.specs.Prelude.{IfErr, IfSome};
ghost use Rattle.std.specs.List.{position};
ghost use Rattle.rh_defs.specs.Desk.{Task, with_task};
ghost use Rattle.rh_defs.specs.declared.transfer_action.SendAction.TheVariants as send_action;
ghost use Rattle.rh_defs.specs.OutgoingEvents.{is_bad_range as is_bad_range_on, fail_sending as fail_sending_on};
ghost use Rattle.rh_defs.specs.OutgoingEvents.{perform_send as perform_send_on};
ghost use Rattle.rh_defs.specs.Sender as sender;
ghost use Rattle.rh_defs.specs.Pieces.{Split};
ghost use Rattle.rh_defs.specs.Places.{overlap, written_in, buffer_at};
ghost use Rattle.rh_defs.specs.Slot.{Flex, slot_block};
ghost use Rattle.rh_tasks.specs.Inner.PollSteps.{IsAt, CanSend, IsPortion, Attempts, Handles, transmitted, sent_by};

use crate::documents::document_size;
use crate::named_files::NamedFiles;
use crate::seat::{Seat, Seats};
use crate::world::World;
use rh_defs::sizes::SLOT_START;
use rh_defs::{Handle, Outcome, Part, Ref, Refusal, SendAction, Sending, Transmit};
use rh_ram::{part, transmit_letter};
use rh_slot::write_from;
use rh_store::Store;

/// The bytes of a source that go out: their address in its slot, its size, and which they are.
#[derive(Clone, Copy, Debug, PartialEq, Eq)]
struct Portion {
    address: usize,
    size: u32,
    part: Part,
}

/// A fetch's buffer: its task's place, its address, and how many bytes were asked for.
#[derive(Clone, Copy, Debug, PartialEq, Eq)]
struct Target {
    seat: usize,
    address: u32,
    room: u32,
}

/// The place of the live task with the handle.
pub fn with_handle(seats: &Seats, handle: Handle) -> Option<usize>
    ensures { result ≡ position (λ (s : Seat). s.handle == handle) seats.now.items }
{
    seats.iter().position(|seat| seat.handle == handle)
}

/// Whether n bytes at x and m bytes at y share one.
pub fn do_overlap(x: usize, n: usize, y: usize, m: usize) -> bool
    requires first { x + n < 2 ^ 40 }
    requires second { y + m < 2 ^ 40 }
    ensures { result ≡ overlap x n y m }
{
    0 < n && 0 < m && x < y + m && y < x + n
}

/// The address of a source's next byte.
fn next_address(start: usize, count: u32) -> usize
    requires { start < 2 ^ 32 }
    ensures next { result ≡ start + count }
    ensures low { result < 2 ^ 33 }
{
    start + count as usize
}

/// Where the bytes of a portion stand in their slot's area; 0 where there are none.
fn place_of(portion: Portion) -> usize
    ensures none { portion.part.n ≡ 0 → result ≡ 0 }
    ensures some { 0 < portion.part.n → result ≡ portion.address - SLOT_START }
{
    if portion.part.n == 0 {
        return 0;
    }
    portion.address.saturating_sub(SLOT_START)
}

impl<S: Store, F: NamedFiles> World<S, F> {
    /// The part of its source that an action sends: NoBlock.
    fn portion(&self, i: usize, a: &Transmit) -> Result<Portion, Refusal>
        requires { i < length self.now.desk.tasks }
        ensures ok { IfOk result (λ p. (t : Task) → IsAt i t self.now.desk
            → IsPortion t a.now p.address p.size p.part) }
        ensures err { IfErr result (λ e. (t : Task) → IsAt i t self.now.desk → slot_block a.now.transfer.anchor t.slot
            ≡ Err e) }
        ensures most { IfOk result (λ p. p.part.n ≤ a.now.room) }
        ensures low { IfOk result (λ p. p.address < 2 ^ 33) }
    {
        let seat = &self.seats[i];
        let size = document_size(&self.store, seat.slot, a.transfer.anchor)?;
        let start = seat.slot.address(&self.store, a.transfer.anchor).unwrap();
        let part = part(a, size);
        let address = next_address(start, part.offset);
        Ok(Portion {
            address,
            size,
            part,
        })
    }

    /// Whether the bytes of a portion have no range of the recipient to go to: BadRange.
    fn is_bad_range(&self, i: usize, target: Target, portion: Portion) -> bool
        requires source { i < length self.now.desk.tasks }
        requires target { target.seat < length self.now.desk.tasks }
        requires low { portion.address < 2 ^ 33 }
        ensures { (t r : Task) → IsAt i t self.now.desk → IsAt target.seat r self.now.desk
            → result ≡ is_bad_range_on t r target.address target.room portion.address portion.part.n }
    {
        let seat = &self.seats[target.seat];
        let address = target.address as usize;
        let room = target.room as usize;
        if let Ok(size) = seat.slot.block_size(&self.store, address) {
            if size >= room {
                return false;
            }
        }
        if !seat.slot.inside(&self.store, address, room) {
            return true;
        }
        i == target.seat && do_overlap(address, room, portion.address, portion.part.n as usize)
    }

    /// Writes the bytes of a portion into the range that a fetch names, which is a good one.
    fn write_portion(&mut self, i: usize, a: &Transmit, target: Target, portion: Portion)
        requires source { i < length self.old.desk.tasks }
        requires target { target.seat < length self.old.desk.tasks }
        requires portion { (t : Task) → IsAt i t self.old.desk
            → IsPortion t a.now portion.address portion.size portion.part }
        requires reach { (t r : Task) → IsAt i t self.old.desk → IsAt target.seat r self.old.desk
            → is_bad_range_on t r target.address target.room portion.address portion.part.n ≡ false }
        requires room { portion.part.n ≤ target.room }
        ensures { (t r : Task) (source : Split Flex) → IsAt i t self.old.desk → IsAt target.seat r self.old.desk
            → slot_block a.now.transfer.anchor t.slot ≡ Ok source
            → self.new.desk ≡ with_task r.handle (λ r. record r {
              slot = written_in target.address (take portion.part.n (drop portion.part.offset source.here.bytes))
                  (buffer_at target.address target.room r.slot) r.slot;
            }) self.old.desk }
    {
        let source = &self.seats[i];
        let seat = &self.seats[target.seat];
        let n = portion.part.n as usize;
        let place = place_of(portion);
        let from = source.slot.area;
        let slot = seat.slot;
        write_from(
            &mut self.store,
            slot,
            target.address as usize,
            target.room as usize,
            from,
            place,
            n,
        );
    }

    /// Sends a part of a source: NoBlock, NoTask, BadRange, NoRefs, QueueFull, NoRoom.
    fn transmit(&mut self, i: usize, a: &Transmit) -> Result<Outcome, Refusal>
        requires place { i < length self.old.desk.tasks }
        requires due { CanSend i (send_action.Transmit a.now) self.old.desk }
        ensures { (t : Task) → IsAt i t self.old.desk
            → Attempts (transmitted self.old.desk t a.now) self.old self.new result }
    {
        let portion = self.portion(i, a)?;
        let Some(seat) = with_handle(&self.seats, a.transfer.recipient) else {
            return Err(Refusal::NoTask);
        };
        let target = Target {
            seat,
            address: a.buffer,
            room: a.room,
        };
        if self.is_bad_range(i, target, portion) {
            return Err(Refusal::BadRange);
        }
        let sender = &self.seats[i];
        let letter = transmit_letter(sender.handle, a, &portion.part);
        let transmit = self.send_from(i, letter)?;
        self.write_portion(i, a, target, portion);
        self.edit_sending(i, |records| records.sent(a, portion.size, transmit));
        Ok(Outcome::Sent {
            count: portion.part.n,
            transmit,
        })
    }

    /// All of the source was loaded: NoBlock.
    fn finish(&mut self, i: usize, x: &Sending) -> Result<Outcome, Refusal>
        requires place { i < length self.old.desk.tasks }
        requires due { CanSend i (send_action.Finish x.now) self.old.desk }
        ensures { (t : Task) → IsAt i t self.old.desk → Attempts (sent_by self.old.desk t
            (send_action.Finish x.now)) self.old self.new result }
    {
        let seat = &self.seats[i];
        let size = document_size(&self.store, seat.slot, x.anchor)?;
        self.edit_sending(i, |records| records.loaded(x, size));
        Ok(Outcome::Done)
    }

    /// An action of a task that sends; refused, and nothing changed: NoBlock and the refusals of each.
    fn send_with(&mut self, i: usize, action: &SendAction) -> Result<Outcome, Refusal>
        requires place { i < length self.old.desk.tasks }
        requires due { CanSend i action.now self.old.desk }
        ensures { (t : Task) → IsAt i t self.old.desk
            → Attempts (sent_by self.old.desk t action.now) self.old self.new result }
    {
        match action {
            SendAction::Transmit(a) => self.transmit(i, a),
            SendAction::SaveFile(a) => self.save_scrap(i, a),
            SendAction::Finish(x) => self.finish(i, x),
        }
    }

    /// What a task that sends has to do, if anything. Where that is refused its transfer fails.
    pub(crate) fn perform_send(&mut self, i: usize, action: Option<SendAction>) -> Outcome
        requires place { i < length self.old.desk.tasks }
        requires due { IfSome action (λ a. CanSend i a self.old.desk) }
        ensures { (t : Task) → IsAt i t self.old.desk
            → Handles (perform_send_on self.old.desk t action) self.new result }
    {
        let Some(action) = action else {
            return Outcome::Ignored;
        };
        match self.send_with(i, &action) {
            Ok(outcome) => outcome,
            Err(refusal) => {
                self.edit_sending(i, |records| records.failed(&action));
                Outcome::Refused(refusal)
            }
        }
    }

    /// What a message of a transfer that came back does to it.
    pub(crate) fn fail_sending(&mut self, i: usize, last: Ref) -> Outcome
        requires { i < length self.old.desk.tasks }
        ensures { (t : Task) → IsAt i t self.old.desk
            → Handles (fail_sending_on self.old.desk t (sender.on_sending_bounce last t.sending)) self.new result }
    {
        let seat = &mut self.seats[i];
        if seat.sending.on_bounce(last) {
            return Outcome::Failed;
        }
        Outcome::Ignored
    }
}
