//! Commands that make areas at run, and take them away.

ghost use Rattle.std.specs.Prelude.{◌≡◌, true};
ghost use Rattle.rh_defs.specs.Commands.{make as make_on, remove as remove_on};
ghost use Rattle.rh_tasks.specs.Answer.{Gives};
ghost use Rattle.rh_defs.specs.declared.command.Command.TheVariants as Command;
ghost use Rattle.rh_defs.specs.Range.{in_range};

use crate::made::{MadeArea, find_made};
use crate::named_files::NamedFiles;
use crate::world::World;
use rh_defs::sizes::{LAST_AREA, MADE_AREAS};
use rh_defs::{Refusal, Reply};
use rh_store::Store;

impl<S: Store, F: NamedFiles> World<S, F> {
    /// Makes an area of no page and of at most so many: TooManyAreas, NoNumbers.
    pub(crate) fn make(&mut self, most: u32) -> Result<Reply, Refusal>
        requires { in_range (Command.Make most) ≡ true }
        ensures { Gives (make_on self.old.desk most) self.old self.new result }
    {
        if self.made.len() >= MADE_AREAS {
            return Err(Refusal::TooManyAreas);
        }
        let number = self.next.area;
        if number > LAST_AREA {
            return Err(Refusal::NoNumbers);
        }
        let area = self.store.open().unwrap();
        self.made.push(MadeArea { number, most, area });
        self.next.area = number + 1;
        Ok(Reply::Made { number })
    }

    /// Takes a made area away, whose pages are free from then on: NoArea.
    pub(crate) fn remove(&mut self, number: u32) -> Result<Reply, Refusal>
        requires { in_range (Command.Remove number) ≡ true }
        ensures { Gives (remove_on self.old.desk number) self.old self.new result }
    {
        let i = find_made(&self.made, number)?;
        let made = self.made.remove(i);
        self.store.close(made.area);
        Ok(Reply::Done)
    }
}
