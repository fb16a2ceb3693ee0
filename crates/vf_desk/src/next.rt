//! The message that a task's next poll would take, as its block.
ghost use Rattle.std.specs.Prelude.{◌≡◌, Option};
ghost use Rattle.rh_defs.specs.Desk.{Desk};
ghost use Rattle.rh_wimp.specs.QueueItems.{with_message};
ghost use Rattle.vf_desk.specs.Next.{code_or, next_in, next_parcel, status_of_next};
ghost use Rattle.vf_desk.specs.SeenDesk.{IsSeenDesk, SeenBy};

use crate::desk::VfDesk;
use crate::forms::name_of;
use crate::open_desk::OpenDesk;
use crate::status::{BAD_ARGUMENT, CLOSED, OK, refusal_number};
use std::alloc::Global;

/// The code of no message (Null_Reason_Code).
const NO_MESSAGE: u32 = 0;

/// A message block of the Wimp: words in little-endian order, of which the first says how many bytes there are.
#[repr(C)]
#[derive(Clone, Copy)]
pub struct VfMessage {
    pub bytes: [u8; 256],
}

/// Tells the message that the task's next poll would take, as its block, and its reason code, 0 where there is none.
/// The bytes behind the message stay. Nothing is taken. (Wimp_Poll.)
#[unsafe(no_mangle)]
pub extern "C" fn vf_desk_next(
    alloc: Global,
    desk: &mut VfDesk,
    name: &[u8],
    message: &mut VfMessage,
    code: &mut u32,
) -> u32
    ensures status { (s : Option Desk) → IsSeenDesk desk.old s → result ≡ status_of_next (next_in s name.now) }
    ensures same { desk.new.handle.open_desk ≡ desk.old.handle.open_desk }
    ensures message { (s : Option Desk) → IsSeenDesk desk.old s →
        message.new.bytes ≡ with_message (next_parcel (next_in s name.now)) message.old.bytes }
    ensures code { (s : Option Desk) → IsSeenDesk desk.old s → code.new ≡ code_or (next_in s name.now) code.old }
{
    let Some(open_desk) = desk.take(alloc) else {
        return CLOSED;
    };
    let status = open_desk.next(name, message, code);
    desk.put(open_desk);
    status
}

impl OpenDesk {
    /// Tells the message that the task's next poll would take, and its code.
    fn next(&self, name: &[u8], message: &mut VfMessage, code: &mut u32) -> u32
        ensures status { (s : Option Desk) → SeenBy self.now.console s → result ≡ status_of_next (next_in s name.now) }
        ensures message { (s : Option Desk) → SeenBy self.now.console s →
            message.new.bytes ≡ with_message (next_parcel (next_in s name.now)) message.old.bytes }
        ensures code { (s : Option Desk) → SeenBy self.now.console s →
            code.new ≡ code_or (next_in s name.now) code.old }
    {
        let Some(console) = &self.console else {
            return CLOSED;
        };
        let Some(name) = name_of(name) else {
            return BAD_ARGUMENT;
        };
        match console.world.next_message(&name, &mut message.bytes) {
            Ok(Some(found)) => {
                *code = found.number();
                OK
            }
            Ok(None) => {
                *code = NO_MESSAGE;
                OK
            }
            Err(refusal) => refusal_number(refusal),
        }
    }
}
