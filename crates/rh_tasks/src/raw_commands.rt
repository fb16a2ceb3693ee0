//! Commands of tasks with code of their own.

ghost use Rattle.std.specs.Prelude.{◌≡◌, ◌<◌, ◌+◌, ◌^◌, ◌==◌, ◌&&◌, if◌then◌else◌, true, length, unwrap_or, []};
ghost use Rattle.rh_defs.specs.declared.message.EventCode.TheVariants.{Recorded, User};
ghost use Rattle.rh_defs.specs.declared.command.Command.TheVariants as Command;
ghost use Rattle.rh_defs.specs.Desk.{Task};
ghost use Rattle.rh_defs.specs.OtherBodies.{is_whole};
ghost use Rattle.rh_defs.specs.Places.{overlap};
ghost use Rattle.rh_defs.specs.Range.{in_range};
ghost use Rattle.rh_defs.specs.Post.{held_by};
ghost use Rattle.rh_defs.specs.RawCommands.{ack as ack_on, is_bad_move as is_bad_move_on, raw_change, raw_letter};
ghost use Rattle.rh_defs.specs.RawCommands.{send as send_on, transfer as transfer_on, write as write_on};
ghost use Rattle.rh_defs.specs.RawTasks.{is_open_to as is_open_to_on, names_range as names_range_on, opens_range};
ghost use Rattle.rh_tasks.specs.Answer.{Gives};
ghost use Rattle.rh_tasks.specs.Inner.CommandAnswers.{GivesAlike};
ghost use Rattle.rh_tasks.specs.Inner.PollSteps.{IsAt};
ghost use Rattle.rh_tasks.specs.Inner.RawSteps.{letter_refusal as letter_refusal_on};

use crate::letters::{refused_after, send};
use crate::module_area::MODULE;
use crate::named_files::NamedFiles;
use crate::outgoing::{do_overlap, with_handle};
use crate::scrap::kept_scrap;
use crate::seat::Seat;
use crate::seats::find;
use crate::world::World;
use arrayvec::ArrayVec;
use rh_defs::sizes::{SLOT_START, is_inside};
use rh_defs::{Body, Data, EventCode, Handle, Letter, Name, RawCommand, Ref, Refusal, Reply};
use rh_slot::{write_at, write_from};
use rh_store::Store;
use rh_wimp::{body_of, read_body};

/// A letter of any action.
fn raw_letter(from: Handle, recorded: bool, to: Handle, your_ref: Ref, body: Body) -> Letter
    ensures { result ≡ record {
      code = if recorded then Recorded else User;
      from = from;
      to = to;
      your_ref = your_ref;
      body = body;
    } }
{
    let code = if recorded {
        EventCode::Recorded
    } else {
        EventCode::User
    };
    Letter {
        code,
        from,
        to,
        your_ref,
        body,
    }
}

/// Why a letter of the task is refused that could be sent: WrongManner, or BadRef where the ref that it answers is the
/// next one or above.
pub(crate) fn letter_refusal(seat: &Seat, your_ref: Ref, next_ref: u64) -> Option<Refusal>
    ensures { result ≡ letter_refusal_on seat.now your_ref next_ref }
{
    if !seat.is_raw() {
        return Some(Refusal::WrongManner);
    }
    if next_ref <= u64::from(your_ref.0) {
        return Some(Refusal::BadRef);
    }
    None
}

/// Whether a fetch names a range that has the n bytes at an address.
fn names_range(body: &Body, address: usize, n: usize) -> bool
    ensures { result ≡ names_range_on address n body.now }
{
    match body {
        Body::RamFetch { buffer, length } => {
            is_inside(address, n, *buffer as usize, *length as usize)
        }
        _ => false,
    }
}

/// Whether n bytes at two addresses share one: both are the same task's.
fn do_collide(from: Handle, to: Handle, x: usize, y: usize, n: usize) -> bool
    requires first { x + n < 2 ^ 40 }
    requires second { y + n < 2 ^ 40 }
    ensures { result ≡ (from == to && overlap x n y n) }
{
    from == to && do_overlap(x, n, y, n)
}

/// The data of a message, none where no bytes are given.
fn data_of(given: &Option<Data>) -> Data
    ensures { result ≡ unwrap_or given.now [] }
{
    match given {
        Some(data) => data.copied(),
        None => Data::new(ArrayVec::new()),
    }
}

impl<S: Store, F: NamedFiles> World<S, F> {
    /// Carries out a command of a task with code of its own.
    pub(crate) fn raw_command(&mut self, command: &RawCommand) -> Result<Reply, Refusal>
        requires { in_range (Command.Raw command.now) ≡ true }
        ensures { GivesAlike (raw_change self.old.desk command.now) self.old self.new result }
    {
        match command {
            RawCommand::Send {
                name,
                recorded,
                to,
                your_ref,
                action,
                data,
            } => self.send(name, *recorded, *to, *your_ref, *action, &data_of(data)),
            RawCommand::Write {
                name,
                address,
                bytes,
            } => self.write(name, *address, bytes.as_slice()),
            RawCommand::Transfer {
                name,
                address,
                to,
                place,
                size,
            } => self.transfer(name, *address, *to, *place, *size),
            RawCommand::Ack { name } => self.ack(name),
            RawCommand::Spool {
                name,
                anchor,
                to,
                your_ref,
            } => self.spool(name, *anchor, *to, *your_ref),
            RawCommand::Scrap { name, anchor } => self.load_scrap(name, *anchor),
        }
    }

    /// Sends a message of any action (Wimp_SendMessage): NoName, NoTask, NoRefs, QueueFull, NoRoom, WrongManner,
    /// BadRef.
    fn send(
        &mut self,
        name: &Name,
        recorded: bool,
        to: Handle,
        your_ref: Ref,
        action: u32,
        bytes: &Data,
    ) -> Result<Reply, Refusal>
        requires { is_whole bytes.now ≡ true }
        ensures { GivesAlike (send_on self.old.desk name.now recorded to your_ref action bytes.now)
            self.old self.new result }
    {
        let i = find(&self.seats, name)?;
        let next_ref = self.queue.next_ref();
        let seat = &mut self.seats[i];
        let body = body_of(action, bytes);
        let letter = raw_letter(seat.handle, recorded, to, your_ref, body);
        if let Some(refusal) = letter_refusal(seat, your_ref, next_ref) {
            return Err(refused_after(&self.store, &self.queue, &letter, refusal));
        }
        let my_ref = send(&mut self.store, &mut self.queue, seat, letter)?;
        self.scrap = kept_scrap(&self.store, &self.queue, self.scrap);
        Ok(Reply::Sent(my_ref))
    }

    /// Says that the message which the task holds is answered, and sends nothing: NoName, WrongManner.
    fn ack(&mut self, name: &Name) -> Result<Reply, Refusal>
        ensures { GivesAlike (ack_on self.old.desk name.now) self.old self.new result }
    {
        let i = find(&self.seats, name)?;
        let seat = &self.seats[i];
        if !seat.is_raw() {
            return Err(Refusal::WrongManner);
        }
        let answered = self.queue.put_down(&mut self.store, MODULE, seat.handle);
        self.scrap = kept_scrap(&self.store, &self.queue, self.scrap);
        Ok(Reply::Answering(answered.unwrap_or(Ref(0))))
    }

    /// Writes bytes at an address of the task's own slot, whose task has code of its own: NoName, BadRange where they
    /// aren't whole inside one live block, WrongManner. A `write` that comes as a command has at most 512 bytes, this
    /// any number.
    pub fn write(&mut self, name: &Name, address: u32, bytes: &[u8]) -> Result<Reply, Refusal>
        ensures { Gives (write_on self.old.desk name.now address bytes.now) self.old self.new result }
    {
        let i = find(&self.seats, name)?;
        let seat = &self.seats[i];
        let slot = seat.slot;
        let address = address as usize;
        if !slot.inside(&self.store, address, bytes.len()) {
            return Err(Refusal::BadRange);
        }
        if !seat.is_raw() {
            return Err(Refusal::WrongManner);
        }
        write_at(&mut self.store, slot, address, bytes);
        Ok(Reply::Done)
    }

    /// Whether the message that the task at a place holds is a fetch of another task's, which names a range that has
    /// the n bytes at an address.
    fn holds_fetch(&self, i: usize, from: Handle, address: usize, n: usize) -> bool
        requires { i < length self.now.desk.tasks }
        ensures { (t : Task) → IsAt i t self.now.desk
            → result ≡ opens_range from address n (held_by t.handle self.now.desk.post.seats) }
    {
        let seat = &self.seats[i];
        let Some(message) = self.queue.held(&self.store, MODULE, seat.handle) else {
            return false;
        };
        if message.from != from {
            return false;
        }
        names_range(&read_body(message.body), address, n)
    }

    /// Whether the task at place j opened the n bytes at an address to the one at place i.
    fn is_open_to(&self, i: usize, j: usize, address: u32, n: u32) -> bool
        requires source { i < length self.now.desk.tasks }
        requires target { j < length self.now.desk.tasks }
        ensures { (t r : Task) → IsAt i t self.now.desk → IsAt j r self.now.desk
            → result ≡ is_open_to_on t.handle (held_by t.handle self.now.desk.post.seats) r address n }
    {
        let from = self.seats[i].handle;
        let seat = &self.seats[j];
        if !seat.is_raw() {
            return seat.taking.opens(from, seat.buffer, address, n);
        }
        let (address, n) = (address as usize, n as usize);
        if !seat.slot.inside(&self.store, address, n) {
            return false;
        }
        self.holds_fetch(i, seat.handle, address, n)
    }

    /// Whether n bytes can't be moved from an address of the task at a place to one of another: they aren't whole
    /// inside one live block of the task, they are in their own way, or the other didn't open their place.
    fn is_bad_move(&self, i: usize, address: u32, to: Handle, place: u32, n: u32) -> bool
        requires { i < length self.now.desk.tasks }
        ensures { (t : Task) → IsAt i t self.now.desk
            → result ≡ is_bad_move_on self.now.desk t address to place n }
    {
        let seat = &self.seats[i];
        let (x, y, size) = (address as usize, place as usize, n as usize);
        if !seat.slot.inside(&self.store, x, size) {
            return true;
        }
        if do_collide(seat.handle, to, x, y, size) {
            return true;
        }
        let Some(j) = with_handle(&self.seats, to) else {
            return false;
        };
        !self.is_open_to(i, j, place, n)
    }

    /// Moves n bytes at an address of the task to a place of another task, or of its own, which opened it
    /// (Wimp_TransferBlock): NoName, BadRange, NoTask, WrongManner.
    fn transfer(
        &mut self,
        name: &Name,
        address: u32,
        to: Handle,
        place: u32,
        n: u32,
    ) -> Result<Reply, Refusal>
        ensures { Gives (transfer_on self.old.desk name.now address to place n) self.old self.new result }
    {
        let i = find(&self.seats, name)?;
        if self.is_bad_move(i, address, to, place, n) {
            return Err(Refusal::BadRange);
        }
        let j = with_handle(&self.seats, to).ok_or(Refusal::NoTask)?;
        let target = self.seats[j].slot;
        let seat = &self.seats[i];
        if !seat.is_raw() {
            return Err(Refusal::WrongManner);
        }
        let source = seat.slot;
        let (x, y, n) = (address as usize, place as usize, n as usize);
        // A record's buffer is a block of its task's C heap. Where it weren't, nothing would be written.
        if !target.inside(&self.store, y, n) {
            return Ok(Reply::Done);
        }
        write_from(
            &mut self.store,
            target,
            y,
            n,
            source.area,
            x - SLOT_START,
            n,
        );
        Ok(Reply::Done)
    }
}
