//! Polls: the next message for a task, and what is done with it.

ghost use Rattle.std.specs.Prelude.{◌≡◌, ◌<◌, true, length, Ok, Err};
ghost use Rattle.std.specs.Option.{option_map};
ghost use Rattle.rh_defs.specs.declared.command.Command.TheVariants as Command;
ghost use Rattle.rh_defs.specs.Desk.{Task, with_delivered};
ghost use Rattle.rh_defs.specs.Messages.{Parcel};
ghost use Rattle.rh_defs.specs.Order.{IsReordered};
ghost use Rattle.rh_defs.specs.Post.{post_poll};
ghost use Rattle.rh_defs.specs.Range.{in_range};
ghost use Rattle.rh_defs.specs.Commands.{poll as poll_on};
ghost use Rattle.rh_defs.specs.RawTasks.{is_raw_at as is_raw_at_on};
ghost use Rattle.rh_defs.specs.Receiver as receiver;
ghost use Rattle.rh_defs.specs.Transfer.{delivered, bounced_to, handled};
ghost use Rattle.rh_wimp.specs.Chains.{event_as};
ghost use Rattle.rh_tasks.specs.Inner.CommandAnswers.{GivesAlike};
ghost use Rattle.rh_tasks.specs.Inner.PollSteps.{IsAt, IsFor, Handles, received_as};

use crate::accepting::is_deaf;
use crate::module_area::MODULE;
use crate::named_files::NamedFiles;
use crate::outgoing::with_handle;
use crate::scrap::kept_scrap;
use crate::seats::find;
use crate::world::World;
use rh_defs::{
    Body, Claim, Event, EventCode, Handle, Message, Name, Outcome, Refusal, Reply, TakeAction,
};
use rh_store::Store;

/// The action, where the task that offers has code of its own or hasn't.
fn flagged(raw: bool, action: Option<TakeAction>) -> Option<TakeAction>
    ensures { result ≡ receiver.flagged raw action }
{
    match action {
        Some(TakeAction::Claim(claim)) => Some(TakeAction::Claim(Claim { raw, ..claim })),
        other => other,
    }
}

impl<S: Store, F: NamedFiles> World<S, F> {
    /// Bounces the message that the task holds, and takes and handles the next one for it (Wimp_Poll): NoName.
    pub(crate) fn poll(&mut self, name: &Name) -> Result<Reply, Refusal>
        requires { in_range (Command.Poll name.now) ≡ true }
        ensures { GivesAlike (poll_on self.old.desk name.now) self.old self.new result }
    {
        let i = find(&self.seats, name)?;
        let Some(event) = self.take_event(i) else {
            return Ok(Reply::NoEvent);
        };
        let outcome = self.receive(i, event.code, &event.message);
        Ok(Reply::Event {
            code: event.code,
            action: event.message.body.action(),
            my_ref: event.message.my_ref,
            your_ref: event.message.your_ref,
            outcome,
        })
    }

    /// Bounces the message that the task holds, and takes the next one for it, as a task that the desk plays reads it.
    /// A scrap file whose DataLoad is gone is given up.
    fn take_event(&mut self, i: usize) -> Option<Event>
        requires { i < length self.old.desk.tasks }
        ensures event { (t : Task) → IsAt i t self.old.desk → result
            ≡ option_map (event_as true) (post_poll t.handle self.old.desk.post).1 }
        ensures desk { (t : Task) → IsAt i t self.old.desk
            → IsReordered (with_delivered (post_poll t.handle self.old.desk.post).0 self.old.desk) self.new.desk }
    {
        let seat = &self.seats[i];
        let event = self.queue.poll_read(&mut self.store, MODULE, seat.handle);
        self.scrap = kept_scrap(&self.store, &self.queue, self.scrap);
        event
    }

    /// Whether the live task with the handle has code of its own.
    fn is_raw_at(&self, handle: Handle) -> bool
        ensures { result ≡ is_raw_at_on handle self.now.desk }
    {
        let Some(i) = with_handle(&self.seats, handle) else {
            return false;
        };
        let seat = &self.seats[i];
        seat.is_raw()
    }

    /// What is done with a message: a task with code of its own is handed it.
    fn receive(&mut self, i: usize, code: EventCode, message: &Message) -> Outcome
        requires { i < length self.old.desk.tasks }
        ensures { (t : Task) (m : Parcel) → IsFor i t self.old.desk m message.now
            → Handles (received_as self.old.desk t m code) self.new result }
    {
        let seat = &self.seats[i];
        if seat.is_raw() {
            return Outcome::Taken;
        }
        self.handle(i, code, message)
    }

    /// What is done with a message, by its code.
    fn handle(&mut self, i: usize, code: EventCode, message: &Message) -> Outcome
        requires { i < length self.old.desk.tasks }
        ensures { (t : Task) (m : Parcel) → IsFor i t self.old.desk m message.now
            → Handles (handled self.old.desk t m code) self.new result }
    {
        match code {
            EventCode::User | EventCode::Recorded => self.deliver(i, message),
            EventCode::Acknowledge => self.bounce(i, message),
        }
    }

    /// What is done with a message that came.
    fn deliver(&mut self, i: usize, message: &Message) -> Outcome
        requires { i < length self.old.desk.tasks }
        ensures { (t : Task) (m : Parcel) → IsFor i t self.old.desk m message.now
            → Handles (delivered self.old.desk t m m.message.body) self.new result }
    {
        let seat = &self.seats[i];
        let (from, my_ref, your_ref) = (message.from, message.my_ref, message.your_ref);
        match &message.body {
            Body::DataSave(_) => {
                let offer = seat.taking.on_save(is_deaf(seat.manner), from, my_ref);
                let action = flagged(self.is_raw_at(from), offer);
                self.perform_take(i, action)
            }
            Body::DataSaveAck(_) => {
                let action = seat.sending.on_ack(from, my_ref, your_ref);
                self.perform_send(i, action)
            }
            Body::DataLoad(_) => {
                let action = seat.taking.on_load(from, my_ref, your_ref);
                self.perform_take(i, action)
            }
            Body::DataLoadAck(_) => {
                let action = seat.sending.on_load_ack(from, your_ref);
                self.perform_send(i, action)
            }
            Body::RamFetch { buffer, length } => {
                if seat.answers_none() {
                    return Outcome::Ignored;
                }
                let action = seat
                    .sending
                    .on_fetch(from, my_ref, your_ref, *buffer, *length);
                self.perform_send(i, action)
            }
            Body::RamTransmit { buffer, written } => {
                let action = seat
                    .taking
                    .on_transmit(seat.buffer, from, my_ref, your_ref, *buffer, *written);
                self.perform_take(i, action)
            }
            Body::Other(_) => Outcome::Ignored,
        }
    }

    /// What is done with a message that came back.
    fn bounce(&mut self, i: usize, message: &Message) -> Outcome
        requires { i < length self.old.desk.tasks }
        ensures { (t : Task) (m : Parcel) → IsFor i t self.old.desk m message.now
            → Handles (bounced_to self.old.desk t m m.message.body) self.new result }
    {
        let my_ref = message.my_ref;
        match &message.body {
            Body::DataSave(_) | Body::DataLoad(_) | Body::RamTransmit { .. } => {
                self.fail_sending(i, my_ref)
            }
            Body::DataSaveAck(_) => self.ack_back(i, my_ref),
            Body::DataLoadAck(_) => Outcome::Ignored,
            Body::RamFetch { .. } => {
                let seat = &self.seats[i];
                let action = seat.taking.on_bounce(my_ref);
                self.perform_take(i, action)
            }
            Body::Other(_) => Outcome::Ignored,
        }
    }
}
