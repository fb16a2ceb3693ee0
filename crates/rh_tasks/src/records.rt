//! Records of the transfers of the task at a place, edited as an action that is due has ended. No byte is touched.

ghost use Rattle.std.specs.Prelude.{◌≡◌, ◌<◌, List, Ok, IsOk, length};
ghost use Rattle.std.specs.Fn.{FnOnceReturnsAtMut};
ghost use Rattle.rh_defs.specs.Desk.{Task, with_sending, with_taking};
ghost use Rattle.rh_defs.specs.declared.transfer.Incoming.{Incoming};
ghost use Rattle.rh_defs.specs.declared.transfer.Outgoing.{Outgoing};
ghost use Rattle.rh_tasks.specs.Inner.PollSteps.{IsAt};

use crate::named_files::NamedFiles;
use crate::world::World;
use rh_defs::Refusal;
use rh_ram::{Receiver, Sender};
use rh_store::Store;

impl<S: Store, F: NamedFiles> World<S, F> {
    /// Edits the records of transfers that go out. The edit isn't refused.
    pub(crate) fn edit_sending<E: FnOnce(&mut Sender) -> Result<(), Refusal>>(
        &mut self,
        i: usize,
        edit: E,
    )
        requires place { i < length self.old.desk.tasks }
        requires callable { E.IsAlwaysCallable edit }
        requires taken { (t : Task) → IsAt i t self.old.desk → (said : _) (new : List Outgoing)
            → FnOnceReturnsAtMut E.FnOnce edit t.sending said new → IsOk said }
        ensures { (t : Task) (change : List Outgoing → List Outgoing) → IsAt i t self.old.desk
            → ((new : List Outgoing) → FnOnceReturnsAtMut E.FnOnce edit t.sending (Ok tt) new
            → new ≡ change t.sending) → self.new.desk ≡ with_sending t.handle change self.old.desk }
    {
        let seat = &mut self.seats[i];
        edit(&mut seat.sending).unwrap();
    }

    /// Edits the records of transfers that come in. The edit isn't refused.
    pub(crate) fn edit_taking<E: FnOnce(&mut Receiver) -> Result<(), Refusal>>(
        &mut self,
        i: usize,
        edit: E,
    )
        requires place { i < length self.old.desk.tasks }
        requires callable { E.IsAlwaysCallable edit }
        requires taken { (t : Task) → IsAt i t self.old.desk → (said : _) (new : List Incoming)
            → FnOnceReturnsAtMut E.FnOnce edit t.taking said new → IsOk said }
        ensures { (t : Task) (change : List Incoming → List Incoming) → IsAt i t self.old.desk
            → ((new : List Incoming) → FnOnceReturnsAtMut E.FnOnce edit t.taking (Ok tt) new
            → new ≡ change t.taking) → self.new.desk ≡ with_taking t.handle change self.old.desk }
    {
        let seat = &mut self.seats[i];
        edit(&mut seat.taking).unwrap();
    }
}
