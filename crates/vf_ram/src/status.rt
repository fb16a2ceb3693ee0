//! Statuses: how a call ended, as a number. The header for C has the same numbers.
ghost use Rattle.std.specs.Prelude.{◌≡◌};
ghost use Rattle.vf_ram.specs.WithStatus.{anchor_in, by_rules, fault_status, refusal_status, wanted};

use rh_defs::sizes::ANCHORS;
use rh_defs::{Anchor, MessageFault, Ref, Refusal};

/// All was done.
pub const OK: u32 = 0;

/// As many transfers as may be haven't ended.
pub const BUSY: u32 = 10;

/// The transfer isn't open as the action or the id says.
pub const NOT_OPEN: u32 = 11;

/// The action hasn't so many bytes.
pub const BAD_RANGE: u32 = 13;

/// The bytes are fewer, or more, than those of a message.
pub const BAD_LENGTH: u32 = 33;

/// No slot has this anchor.
pub const BAD_ANCHOR: u32 = 38;

/// A name is none that a message can carry.
pub const BAD_ARGUMENT: u32 = 45;

/// The struct is no sender or receiver.
pub const BAD_RECORDS: u32 = 48;

/// The struct has no action that the call is told of.
pub const BAD_ACTION: u32 = 49;

/// The message is none of a file or a RAM transfer.
pub const BAD_MESSAGE: u32 = 50;

/// What no call on a sender or receiver answers.
const OTHER: u32 = 63;

/// The status of a refusal.
fn refusal_status(refusal: Refusal) -> u32
    ensures { result ≡ refusal_status refusal }
{
    match refusal {
        Refusal::Busy => BUSY,
        Refusal::NotOpen => NOT_OPEN,
        Refusal::BadRange => BAD_RANGE,
        _ => OTHER,
    }
}

/// The status of bytes that spell no message.
pub fn fault_status(fault: MessageFault) -> u32
    ensures { result ≡ fault_status fault }
{
    match fault {
        MessageFault::BadLength => BAD_LENGTH,
        MessageFault::BadAction => BAD_MESSAGE,
    }
}

/// What is done or refused by the rules, with a status in place of the refusal.
pub fn by_rules(ended: Result<(), Refusal>) -> Result<(), u32>
    ensures { result ≡ by_rules ended }
{
    match ended {
        Ok(()) => Ok(()),
        Err(refusal) => Err(refusal_status(refusal)),
    }
}

/// The anchor with a number.
pub fn read_anchor(number: u32) -> Result<Anchor, u32>
    ensures { result ≡ anchor_in number }
{
    if number as usize >= ANCHORS {
        return Err(BAD_ANCHOR);
    }
    Ok(Anchor(number as u8))
}

/// The transfer that a cancel means: with 0 for its id the first.
pub fn wanted(id: u32) -> Option<Ref>
    ensures { result ≡ wanted id }
{
    if id == 0 { None } else { Some(Ref(id)) }
}
