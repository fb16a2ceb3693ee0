//! What is done on a desk that a program in C holds: its open desk is taken out, and put back.
ghost use Rattle.std.specs.Prelude.{◌≡◌, ◌≢◌, Option, Some, None};
ghost use Rattle.std.specs.Option.{option_map};
ghost use Rattle.rh_defs.specs.Desk.{Desk};
ghost use Rattle.rh_defs.specs.declared.command.Command.TheVariants as Command;
ghost use Rattle.vf_desk.specs.CallOutcome.{IsAsked, called, desk_by, in_form, status_of};
ghost use Rattle.vf_desk.specs.Event.{next_ref_in};
ghost use Rattle.vf_desk.specs.SeenDesk.{IsSeenDesk, KeepsRest};

use crate::call_outcome::CallOutcome;
use crate::desk::VfDesk;
use crate::handle::OpenDeskHandle;
use crate::open_desk::OpenDesk;
use rh_defs::Command;
use std::alloc::Global;
use std::mem;

impl VfDesk {
    fn closed(alloc: Global) -> VfDesk
        ensures { result.handle.open_desk ≡ None }
    {
        VfDesk {
            handle: OpenDeskHandle::empty(alloc),
            live: false,
        }
    }

    /// Takes out what the handle has, so that nothing is left.
    pub fn take(&mut self, alloc: Global) -> Option<Box<OpenDesk>>
        ensures taken { option_map (λ open_desk. open_desk.value) result ≡ self.old.handle.open_desk }
        ensures left { self.new.handle.open_desk ≡ None }
    {
        let VfDesk { handle, live } = mem::replace(self, VfDesk::closed(alloc));
        if live {
            return Some(handle.into_box());
        }
        handle.end();
        None
    }

    /// Puts it into a handle that has nothing.
    pub fn put(&mut self, open_desk: Box<OpenDesk>)
        requires { self.old.handle.open_desk ≡ None }
        ensures { self.new.handle.open_desk ≡ Some open_desk.value }
    {
        let live = VfDesk {
            handle: OpenDeskHandle::of(open_desk),
            live: true,
        };
        let VfDesk { handle, live: _ } = mem::replace(self, live);
        handle.end();
    }

    /// Does a command on the desk, if it is open and the command in range; else nothing changes.
    pub fn step(&mut self, alloc: Global, command: &Command) -> CallOutcome
        ensures said { (s : Option Desk) → IsSeenDesk self.old s → result ≡ called s (in_form command.now) }
        ensures desk { (s : Option Desk) → IsSeenDesk self.old s →
            IsSeenDesk self.new (desk_by s (in_form command.now)) }
        ensures rest { KeepsRest self.old.handle.open_desk self.new.handle.open_desk }
        ensures refused { status_of result ≢ 0 → self.new.handle.open_desk ≡ self.old.handle.open_desk }
        ensures asked { IsAsked (in_form command.now) → self.new.handle.open_desk ≡ self.old.handle.open_desk }
    {
        let Some(mut open_desk) = self.take(alloc) else {
            return CallOutcome::Closed;
        };
        let called = open_desk.step(command);
        self.put(open_desk);
        called
    }

    /// Does a command as `step` does, and tells the ref of the message that would be sent next before it: 0 on a closed
    /// desk, or where no ref is left.
    pub fn step_sending(&mut self, alloc: Global, command: &Command) -> (CallOutcome, u32)
        ensures said { (s : Option Desk) → IsSeenDesk self.old s → result.0 ≡ called s (in_form command.now) }
        ensures next { (s : Option Desk) → IsSeenDesk self.old s → result.1 ≡ next_ref_in s }
        ensures desk { (s : Option Desk) → IsSeenDesk self.old s →
            IsSeenDesk self.new (desk_by s (in_form command.now)) }
        ensures rest { KeepsRest self.old.handle.open_desk self.new.handle.open_desk }
        ensures refused { status_of result.0 ≢ 0 → self.new.handle.open_desk ≡ self.old.handle.open_desk }
    {
        let Some(mut open_desk) = self.take(alloc) else {
            return (CallOutcome::Closed, 0);
        };
        let my_ref = open_desk.next_ref();
        let said = open_desk.step(command);
        self.put(open_desk);
        (said, my_ref)
    }

    /// Writes bytes into a flex block, as a `put` of as many bytes does, whatever a line has room for.
    pub fn write(
        &mut self,
        alloc: Global,
        name: &[u8],
        anchor: u32,
        offset: u32,
        from: &[u8],
    ) -> CallOutcome
        ensures said { (s : Option Desk) → IsSeenDesk self.old s →
            result ≡ called s (in_form (Command.Put name.now anchor offset from.now)) }
        ensures desk { (s : Option Desk) → IsSeenDesk self.old s →
            IsSeenDesk self.new (desk_by s (in_form (Command.Put name.now anchor offset from.now))) }
        ensures rest { KeepsRest self.old.handle.open_desk self.new.handle.open_desk }
        ensures refused { status_of result ≢ 0 → self.new.handle.open_desk ≡ self.old.handle.open_desk }
    {
        let Some(mut open_desk) = self.take(alloc) else {
            return CallOutcome::Closed;
        };
        let called = open_desk.write(name, anchor, offset, from);
        self.put(open_desk);
        called
    }
}
