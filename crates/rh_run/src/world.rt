//! A world as what a script is run over.

ghost use Rattle.rh_defs.specs.Order.{IsReordered};

use rh_defs::{Command, Data, Handle, Name, Question, Reply};
use rh_lines::Pen;
use rh_script::put_answer;
use rh_session::Desktop;
use rh_store::Store;
use rh_tasks::{NamedFiles, World};

/// A world over any store and any files, where it lies: it has some 28 KB, more than is to be handed on.
#[derive(Drop)]
pub struct ScriptWorld<'a, S: Store, F: NamedFiles> {
    pub(crate) world: &'a mut World<S, F>,
}

impl<'a, S: Store + Drop, F: NamedFiles + Drop> Desktop for ScriptWorld<'a, S, F> {
    // The world doesn't keep the order of messages to different tasks, and no answer shows it.
    ghost spells = { λ w d. IsReordered d w.world.now.desk };

    fn apply(&mut self, command: &Command) -> Reply {
        self.world.apply(command)
    }

    fn is_raw(&self, name: &Name) -> bool {
        self.world.is_raw(name)
    }

    fn handed(&self, command: &Command) -> Option<(Handle, Data)> {
        self.world.handed(command)
    }

    fn put_answer<P: Pen>(&self, question: &Question, pen: &mut P) {
        put_answer(&*self.world, question, pen);
    }
}
