//! The world: a desk over a store.

ghost use Rattle.std.specs.Prelude.{◌≡◌, ◌≤◌, ℕ, ◌+◌, ◌<◌, true, Ok, Err, IsSome};
ghost use Rattle.rh_defs.specs.Memory.{Memory, fresh, bytes};
ghost use Rattle.rh_defs.specs.Range.{in_range};
ghost use Rattle.rh_defs.specs.Commands.{change};
ghost use Rattle.rh_defs.specs.Runs.{start, start_with};
ghost use Rattle.rh_defs.specs.Laws.{IsDesk};
ghost use Rattle.rh_tasks.specs.Shown.{IsSpelled, ShowsBalance, ShowsApartBlocks};
ghost use Rattle.rh_tasks.specs.Answer.{Gives, RunsOn, StaysIfAsked, StaysIfRefused, StepsTo};
ghost use Rattle.rh_tasks.specs.Inner.CommandAnswers.{Does, answered as answered_of, reply_of};
ghost use Rattle.rh_tasks.specs.Inner.Nouns.{changes_memory};
ghost use Rattle.rh_tasks.specs.Inner.Start.{IsFurnished};
ghost use Rattle.rh_defs.specs.declared.sizes.TheConstants.{MAX_PAGES, MIN_PAGES};

use crate::made::MadeAreas;
use crate::module_area::MODULE;
use crate::named_files::NamedFiles;
use crate::next_numbers::NextNumbers;
use crate::scrap::ScrapFile;
use crate::seat::Seats;
use rh_defs::sizes::FIXED_AREAS;
use rh_defs::{Command, Files, Handle, Numbers, Ref, Refusal, Reply};
use rh_module::Module;
use rh_store::Store;
use rh_wimp::{Queue, Table};
use std::marker::Model;

/// A desk over a store, whose areas hold the slots, the module area and the pages. Areas 0 to 5 are the store's areas
/// of these numbers; each slot and each made area has an area of its own. No call takes memory.
#[derive(Drop)]
pub struct World<S: Store, F: NamedFiles = Files> {
    pub(crate) store: S,
    pub(crate) seats: Seats,
    pub(crate) made: MadeAreas,
    pub(crate) files: F,
    pub(crate) next: NextNumbers,
    /// The messages, whose blocks are the module area's.
    pub(crate) queue: Queue,
    pub(crate) scrap: Option<ScrapFile>,
}

impl<S: Store, F: NamedFiles> Model for World<S, F> {
    ghost use Rattle.rh_tasks.specs.Shown.{Shown};

    ghost Value = { Shown };

    ghost use Rattle.rh_tasks.specs.View.{kept_of, shown_of, IsWorld};

    ghost view = { λ w. shown_of (S.memory w.store) w.seats.items w.made.items (F.contents w.files)
        (kept_of w.next w.queue w.scrap) };

    ghost invariant = { λ w. IsWorld (S.memory w.store) w.seats.items w.made.items (F.contents w.files)
        (kept_of w.next w.queue w.scrap) };
}

/// Opens areas 0 to 5 of a fresh store, and makes area 1, the module area, an empty heap of one page.
fn furnish<S: Store>(store: &mut S)
    requires fresh { S.memory store.old ≡ fresh (S.memory store.old).pages }
    requires least { MIN_PAGES ≤ (S.memory store.old).pages }
    ensures { IsFurnished (S.memory store.new) (S.memory store.old).pages }
{
    for _area in 0..FIXED_AREAS {
        store.open().unwrap();
    }
    store.grow(MODULE.area, 1).unwrap();
    Module::start(store, MODULE.area);
}

impl<S: Store, F: NamedFiles> World<S, F> {
    /// The first desk over a fresh store of 8 to 1,024 pages, with these files: no task, and one page in the module
    /// area. Handles and refs count up from 1.
    pub fn new(store: S, files: F) -> World<S, F>
        requires fresh { S.memory store ≡ fresh (S.memory store).pages }
        requires least { MIN_PAGES ≤ (S.memory store).pages }
        requires most { (S.memory store).pages ≤ MAX_PAGES }
        ensures { result.desk ≡ start (S.memory store).pages (F.contents files) }
    {
        World::with_next(store, files, Handle(1), Ref(1))
    }

    /// The first desk whose next handle and next ref are these, each from 1 on.
    pub fn with_next(mut store: S, files: F, handle: Handle, r: Ref) -> World<S, F>
        requires fresh { S.memory store ≡ fresh (S.memory store).pages }
        requires least { MIN_PAGES ≤ (S.memory store).pages }
        requires most { (S.memory store).pages ≤ MAX_PAGES }
        requires handle { 1 ≤ handle }
        requires message { 1 ≤ r }
        ensures { result.desk ≡ start_with (S.memory store).pages (F.contents files) handle r }
    {
        furnish(&mut store);
        World {
            store,
            seats: Table::new(),
            made: Table::new(),
            files,
            next: NextNumbers::first(handle.0),
            queue: Queue::with_next_ref(r),
            scrap: None,
        }
    }

    /// Runs nothing: recalls for a proof what always holds. The bytes and lengths of the store's areas spell the desk,
    /// the live blocks lie in them, no two of one area overlap, and all pages add up.
    pub fn recall_spelling(&self)
        ensures spelled { IsSpelled self.now }
        ensures apart { ShowsApartBlocks self.now }
        ensures balanced { ShowsBalance self.now }
        ensures desk { IsDesk self.now.desk }
    {
        let _ = &self.store;
    }

    /// Does one command, or answers the first of its refusals and changes nothing; a question changes nothing in any
    /// case. The order of messages to different tasks isn't kept, so what is said of the desk is said of each that
    /// differs in that order alone. After any commands the desk is so the one after them and this one.
    pub fn apply(&mut self, command: &Command) -> Reply
        requires ranged { in_range command.now ≡ true }
        ensures steps { StepsTo command.now self.old.desk self.new.desk result }
        ensures runs { RunsOn command.now self.old.desk self.new.desk }
        ensures refused { StaysIfRefused self.old self.new result }
        ensures asked { StaysIfAsked command.now self.old self.new }
        ensures spelled { IsSpelled self.new }
        ensures apart { ShowsApartBlocks self.new }
        ensures balanced { ShowsBalance self.new }
        ensures desk { IsDesk self.new.desk }
    {
        let reply = self.change(command);
        self.recall_spelling();
        reply
    }

    fn change(&mut self, command: &Command) -> Reply
        requires ranged { in_range command.now ≡ true }
        ensures { Does command.now self.old self.new result }
    {
        match command {
            Command::Ask(question) => answer(answered(self.answer_question(question))),
            Command::Task {
                name,
                buffer,
                manner,
            } => answer(self.start_task(name, *buffer, *manner)),
            Command::Kill { name } => answer(self.kill(name)),
            Command::Save {
                name,
                anchor,
                to,
                leaf,
            } => answer(self.save(name, *anchor, to, leaf)),
            Command::Poll { name } => answer(self.poll(name)),
            Command::CancelIn { name, id } => answer(self.cancel_in(name, *id)),
            Command::CancelOut { name, id } => answer(self.cancel_out(name, *id)),
            Command::Repeat { name } => answer(self.repeat(name)),
            Command::Raw(command) => answer(self.raw_command(command)),
            _ => answer(self.memory_command(command)),
        }
    }

    /// Carries out a command that changes blocks or areas alone.
    fn memory_command(&mut self, command: &Command) -> Result<Reply, Refusal>
        requires ranged { in_range command.now ≡ true }
        requires on_memory { changes_memory command.now ≡ true }
        ensures { Gives (change self.old.desk command.now) self.old self.new result }
    {
        if let Some(given) = self.block_command(command) {
            return given;
        }
        if let Some(given) = self.heap_command(command) {
            return given;
        }
        if let Some(given) = self.module_command(command) {
            return given;
        }
        self.area_command(command)
    }
}

/// The result of a question by its numbers.
fn answered(told: Result<Numbers, Refusal>) -> Result<Reply, Refusal>
    ensures { result ≡ answered_of told }
{
    told.map(Reply::Answered)
}

/// The reply that a command's result is.
fn answer(given: Result<Reply, Refusal>) -> Reply
    ensures { result ≡ reply_of given }
{
    match given {
        Ok(reply) => reply,
        Err(refusal) => Reply::Refused(refusal),
    }
}
