//! Statuses: how a call ended, as a number. The header for C has the same numbers.
ghost use Rattle.std.specs.Prelude.{◌≡◌};
ghost use Rattle.vf_desk.specs.DeskStatus.{refusal_number};

use rh_defs::Refusal;

/// All was done.
pub const OK: u32 = 0;

/// A live task has the name.
pub const NAME_IN_USE: u32 = 1;

/// No live task has the name.
pub const NO_NAME: u32 = 2;

/// 32 tasks are live.
pub const TOO_MANY_TASKS: u32 = 3;

/// The last handle was given.
pub const NO_HANDLES: u32 = 4;

/// No file has the name.
pub const NO_FILE: u32 = 5;

/// The anchor has no block.
pub const NO_BLOCK: u32 = 6;

/// The anchor has a block.
pub const ANCHOR_IN_USE: u32 = 7;

/// No block of the heap begins at the address.
pub const NOT_A_BLOCK: u32 = 8;

/// The block of the module area holds a message.
pub const NOT_YOURS: u32 = 9;

/// A transfer uses the block, eight that go out are open, or there is a scrap file already.
pub const BUSY: u32 = 10;

/// No transfer that is meant can be given up.
pub const NOT_OPEN: u32 = 11;

/// The task has sent no message.
pub const NOTHING_SENT: u32 = 12;

/// Bytes lie outside the block.
pub const BAD_RANGE: u32 = 13;

/// A block of a heap would have fewer than 1 byte.
pub const BAD_SIZE: u32 = 14;

/// An area would lose more than it can.
pub const EXCESSIVE_SHRINK: u32 = 15;

/// The task at the other end isn't live.
pub const NO_TASK: u32 = 16;

/// The last ref was given.
pub const NO_REFS: u32 = 17;

/// 256 messages are live.
pub const QUEUE_FULL: u32 = 18;

/// The C heap must grow, and budging is off.
pub const NO_BUDGE: u32 = 19;

/// Too few pages are free.
pub const NO_ROOM: u32 = 20;

/// No area has the number.
pub const NO_AREA: u32 = 21;

/// 32 made areas are live.
pub const TOO_MANY_AREAS: u32 = 22;

/// The last number of a made area was given.
pub const NO_NUMBERS: u32 = 23;

/// A made area would have more pages than it may.
pub const TOO_BIG: u32 = 24;

/// The task has code of its own where it may not, or has none where it must.
pub const WRONG_MANNER: u32 = 25;

/// No message has the ref yet.
pub const BAD_REF: u32 = 26;

/// A file has more than 1 MiB.
pub const BAD_LENGTH: u32 = 33;

/// The text is longer than the bytes that were lent for it.
pub const SHORT: u32 = 34;

/// The desk isn't open.
pub const CLOSED: u32 = 43;

/// The desk is open already.
pub const OPEN: u32 = 44;

/// A name, an anchor, a number or a leafname isn't of its form.
pub const BAD_ARGUMENT: u32 = 45;

/// Memory was refused.
pub const NO_MEMORY: u32 = 46;

/// A file with the name was added before.
pub const FILE_EXISTS: u32 = 47;

/// A refusal's number in the one order of all refusals.
pub fn refusal_number(refusal: Refusal) -> u32
    ensures { result ≡ refusal_number refusal }
{
    match refusal {
        Refusal::NameInUse => NAME_IN_USE,
        Refusal::NoName => NO_NAME,
        Refusal::TooManyTasks => TOO_MANY_TASKS,
        Refusal::NoHandles => NO_HANDLES,
        Refusal::NoFile => NO_FILE,
        Refusal::NoBlock => NO_BLOCK,
        Refusal::AnchorInUse => ANCHOR_IN_USE,
        Refusal::NotABlock => NOT_A_BLOCK,
        Refusal::NotYours => NOT_YOURS,
        Refusal::Busy => BUSY,
        Refusal::NotOpen => NOT_OPEN,
        Refusal::NothingSent => NOTHING_SENT,
        Refusal::BadRange => BAD_RANGE,
        Refusal::BadSize => BAD_SIZE,
        Refusal::ExcessiveShrink => EXCESSIVE_SHRINK,
        Refusal::NoTask => NO_TASK,
        Refusal::NoRefs => NO_REFS,
        Refusal::QueueFull => QUEUE_FULL,
        Refusal::NoBudge => NO_BUDGE,
        Refusal::NoRoom => NO_ROOM,
        Refusal::NoArea => NO_AREA,
        Refusal::TooManyAreas => TOO_MANY_AREAS,
        Refusal::NoNumbers => NO_NUMBERS,
        Refusal::TooBig => TOO_BIG,
        Refusal::WrongManner => WRONG_MANNER,
        Refusal::BadRef => BAD_REF,
    }
}
