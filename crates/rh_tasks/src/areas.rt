//! Areas whose length changes by whole pages (OS_ChangeDynamicArea).

ghost use Rattle.std.specs.Prelude.{◌≡◌, ◌≢◌, ℕ, ◌+◌, ◌*◌, ◌≤◌, ◌<◌, length, take, true, Ok, Err};
ghost use Rattle.rh_defs.specs.Memory.{Memory, IsOpen, OnlyArea, bytes};
ghost use Rattle.rh_defs.specs.Module.{whole_pages};
ghost use Rattle.rh_defs.specs.declared.command.Command.TheVariants as Command;
ghost use Rattle.rh_defs.specs.Range.{in_range};
ghost use Rattle.rh_defs.specs.Commands.{least_length as least_length_on, pages_after as pages_after_on};
ghost use Rattle.rh_defs.specs.Commands.{change_area as change_area_on, change};
ghost use Rattle.rh_tasks.specs.Answer.{Gives};
ghost use Rattle.rh_tasks.specs.Inner.Nouns.{changes_areas};
ghost use Rattle.rh_tasks.specs.View.{pages_at};
ghost use Rattle.rh_defs.specs.declared.sizes.TheConstants.{FIXED_AREAS, PAGE};

use crate::made::find_made;
use crate::module_area::MODULE;
use crate::named_files::NamedFiles;
use crate::scrap::{SCRAP, scrap_size};
use crate::world::World;
use rh_defs::sizes::{FIXED_AREAS, PAGE};
use rh_defs::{Command, Refusal, Reply};
use rh_store::{AreaId, Pages, Store};

/// How many pages hold an amount of bytes, whatever its sign.
fn pages_of(delta: i32) -> usize
    ensures { PAGE * result ≡ whole_pages delta }
{
    (delta.unsigned_abs() as usize).div_ceil(PAGE)
}

/// The bytes by which an area's length changes for an amount: whole pages.
fn bytes_moved(delta: i32) -> u32
    ensures { result ≡ whole_pages delta }
{
    (pages_of(delta) * PAGE) as u32
}

/// How many pages an area of pages only would have after a change by an amount of bytes: ExcessiveShrink where fewer
/// than
/// `least` bytes would be left, NoRoom where too few pages are free.
fn pages_after<S: Pages>(store: &S, area: AreaId, least: u32, delta: i32) -> Result<usize, Refusal>
    requires { IsOpen (S.memory store.now) area.0 }
    ensures { result ≡ pages_after_on (S.memory store.now).free least (pages_at (S.memory store.now) area.0) delta }
{
    let now = store.len(area) / PAGE;
    let more = pages_of(delta);
    if delta < 0 {
        if now * PAGE < least as usize + more * PAGE {
            return Err(Refusal::ExcessiveShrink);
        }
        return Ok(now - more);
    }
    if !store.grow_check(area, more) {
        return Err(Refusal::NoRoom);
    }
    Ok(now + more)
}

/// Makes an area this many pages long.
fn set_pages<S: Pages>(store: &mut S, area: AreaId, pages: usize)
    requires opened { IsOpen (S.memory store.old) area.0 }
    requires room { pages ≤ pages_at (S.memory store.old) area.0 + (S.memory store.old).free }
    ensures pages { pages_at (S.memory store.new) area.0 ≡ pages }
    ensures only { OnlyArea (S.memory store.old) (S.memory store.new) area.0 }
    ensures first { (k : ℕ) → k ≤ length (bytes (S.memory store.old) area.0) → k ≤ PAGE * pages
        → take k (bytes (S.memory store.new) area.0) ≡ take k (bytes (S.memory store.old) area.0) }
{
    let now = store.len(area) / PAGE;
    if pages < now {
        store.shrink(area, now - pages);
        return;
    }
    store.grow(area, pages - now).unwrap();
}

impl<S: Store, F: NamedFiles> World<S, F> {
    /// Carries out a command that changes an area, or which areas there are.
    pub(crate) fn area_command(&mut self, command: &Command) -> Result<Reply, Refusal>
        requires ranged { in_range command.now ≡ true }
        requires on_areas { changes_areas command.now ≡ true }
        ensures { Gives (change self.old.desk command.now) self.old self.new result }
    {
        match command {
            Command::Area { number, delta } => self.change_area(*number, *delta),
            Command::Make { most } => self.make(*most),
            Command::Remove { number } => self.remove(*number),
            _ => unreachable!(),
        }
    }

    /// Makes an area longer or shorter: ExcessiveShrink, NoRoom, NoArea, TooBig.
    pub(crate) fn change_area(&mut self, number: u32, delta: i32) -> Result<Reply, Refusal>
        requires { in_range (Command.Area number delta) ≡ true }
        ensures { Gives (change_area_on self.old.desk number delta) self.old self.new result }
    {
        if number == u32::from(MODULE.area.0) {
            return self.change_module(delta);
        }
        if number < FIXED_AREAS as u32 {
            return self.change_fixed(number, delta);
        }
        self.change_made(number, delta)
    }

    /// How many bytes area 0 or one of 2 to 5 keeps at least: the scrap file's, in area 5.
    fn least_length(&self, number: u32) -> u32
        ensures { result ≡ least_length_on number self.now.desk }
    {
        if number != u32::from(SCRAP.0) {
            return 0;
        }
        scrap_size(self.scrap)
    }

    fn change_module(&mut self, delta: i32) -> Result<Reply, Refusal>
        requires { in_range (Command.Area 1 delta) ≡ true }
        ensures { Gives (change_area_on self.old.desk 1 delta) self.old self.new result }
    {
        let moved = MODULE.change(&mut self.store, delta)?;
        Ok(Reply::Moved {
            bytes: moved as u32,
        })
    }

    fn change_fixed(&mut self, number: u32, delta: i32) -> Result<Reply, Refusal>
        requires ranged { in_range (Command.Area number delta) ≡ true }
        requires low { number < FIXED_AREAS }
        requires other { number ≢ 1 }
        ensures { Gives (change_area_on self.old.desk number delta) self.old self.new result }
    {
        let area = AreaId(number as u8);
        let pages = pages_after(&self.store, area, self.least_length(number), delta)?;
        set_pages(&mut self.store, area, pages);
        Ok(Reply::Moved {
            bytes: bytes_moved(delta),
        })
    }

    fn change_made(&mut self, number: u32, delta: i32) -> Result<Reply, Refusal>
        requires ranged { in_range (Command.Area number delta) ≡ true }
        requires high { FIXED_AREAS ≤ number }
        ensures { Gives (change_area_on self.old.desk number delta) self.old self.new result }
    {
        let i = find_made(&self.made, number)?;
        let made = self.made[i];
        let pages = pages_after(&self.store, made.area, 0, delta)?;
        if pages > made.most as usize {
            return Err(Refusal::TooBig);
        }
        set_pages(&mut self.store, made.area, pages);
        Ok(Reply::Moved {
            bytes: bytes_moved(delta),
        })
    }
}
