//! The unsafe part: a box whose address C holds, in five functions. All else in this crate is safe code over them.
//!
//! `unboxed` takes a box apart and makes it again; here its address takes another type, since C may have no pointer to
//! a value that has lists in it.
ghost use Rattle.std.specs.Prelude.{◌≡◌, Option, Some, None, IsSome};
ghost use Rattle.vf_desk.specs.declared.open_desk.OpenDesk.{OpenDesk};
ghost use Rattle.vf_desk.specs.HandleOwnership.{handle_owns};

mod unboxed;

use crate::open_desk::OpenDesk;
use std::alloc::Global;
use std::marker::Model;
use std::ptr;
use unboxed::Unboxed;

/// The address of a open desk in a box, or null. It is not `Drop`, so no code can forget it: `into_box` and `end` alone
/// take it.
#[repr(C)]
pub struct OpenDeskHandle {
    at: *mut u8,
    alloc: Global,
    pub ghost open_desk: { Option OpenDesk },
}

impl Model for OpenDeskHandle {
    ghost also_owns = { λ h. handle_owns h.alloc h.at h.open_desk };
}

impl OpenDeskHandle {
    /// A handle that has nothing.
    pub fn empty(alloc: Global) -> OpenDeskHandle
        ensures { result.open_desk ≡ None }
    {
        OpenDeskHandle {
            at: ptr::null_mut(),
            alloc,
        }
    }

    /// A handle that has this open desk.
    pub fn of(open_desk: Box<OpenDesk>) -> OpenDeskHandle
        ensures { result.open_desk ≡ Some open_desk.value }
    {
        OpenDeskHandle::of_unboxed(Unboxed::of(open_desk))
    }

    /// Its open desk.
    pub fn into_box(self) -> Box<OpenDesk>
        requires { IsSome self.open_desk }
        ensures { Some result.value ≡ self.open_desk }
    {
        self.into_unboxed().into_box()
    }

    /// Lets a handle go that has nothing.
    pub fn end(self)
        requires { self.open_desk ≡ None }
    {
        let OpenDeskHandle { at: _, alloc: _ } = self;
    }

    fn of_unboxed(open_desk: Unboxed<OpenDesk, Global>) -> OpenDeskHandle
        ensures { result.open_desk ≡ Some open_desk.value }
    {
        let Unboxed { at, alloc } = open_desk;
        OpenDeskHandle {
            at: at as *mut u8,
            alloc,
        }
    }

    fn into_unboxed(self) -> Unboxed<OpenDesk, Global>
        requires { IsSome self.open_desk }
        ensures { Some result.value ≡ self.open_desk }
    {
        let OpenDeskHandle { at, alloc } = self;
        Unboxed {
            at: at as *mut OpenDesk,
            alloc,
        }
    }
}
