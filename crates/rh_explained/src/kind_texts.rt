//! What commands do, in words.

ghost use Rattle.std.specs.Prelude.{◌≡◌};
ghost use Rattle.rh_explained.specs.CommandKinds.{forms as forms_text};
ghost use Rattle.rh_explained.specs.Sentences.{deed as deed_text, refusals as refusals_list};

use crate::command_kind::CommandKind;
use crate::command_kind::CommandKind::{
    Ack, Alloc, Area, Areas, Blocks, Budge, Cancel, Claim, Extend, Free, Heap, Kill, Load, Make,
    Mid, Poll, Put, Read, Release, Remove, Repeat, Resize, Rma, RmaClaim, RmaFree, RmaResize, Save,
    Scrap, Send, Show, Spool, Status, Task, Transfer, Write,
};
use rh_defs::Refusal;
use rh_defs::Refusal::{
    AnchorInUse, BadRange, BadRef, BadSize, Busy, ExcessiveShrink, NameInUse, NoArea, NoBlock,
    NoBudge, NoFile, NoHandles, NoName, NoNumbers, NoRefs, NoRoom, NoTask, NotABlock, NotOpen,
    NotYours, NothingSent, QueueFull, TooBig, TooManyAreas, TooManyTasks, WrongManner,
};

/// What a `task` does.
const TASK_DEED: &[u8] = b"\
    Starts a task. Its slot has one page. With deaf it ignores each file that it is\n\
    offered; with file it answers no RAMFetch, and its files go by way of the scrap\n\
    file; with raw it has code of its own, which takes and sends its messages.";

/// What a `poll` does.
const POLL_DEED: &[u8] =
    b"Lets a task take the next message that waits for it, and do what that asks for.";

/// What a `cancel` does.
const CANCEL_DEED: &[u8] =
    b"Gives up a transfer that comes in or goes out: that of the ID, or the first.";

/// What a `claim` does.
const CLAIM_DEED: &[u8] =
    b"Claims a block of N bytes: in the first hole that is large enough, or on top.";

/// What a `release` does.
const RELEASE_DEED: &[u8] =
    b"Releases a block. What it leaves is free, and joins what is free beside it.";

/// What a `heap` does.
const HEAP_DEED: &[u8] = b"\
    Asks for the length of the heap, the largest block that fits, the free bytes,\n\
    and each segment.";

/// What a `transfer` does.
const TRANSFER_DEED: &[u8] =
    b"Moves N bytes to a place that another task opened, from one with its own code.";

/// Why a `save` may be refused.
const SAVE_REFUSALS: &[Refusal] = &[
    NoName,
    NoBlock,
    Busy,
    NoTask,
    NoRefs,
    QueueFull,
    NoRoom,
    WrongManner,
];

/// Why a `send` may be refused.
const SEND_REFUSALS: &[Refusal] = &[
    NoName,
    NoTask,
    NoRefs,
    QueueFull,
    NoRoom,
    WrongManner,
    BadRef,
];

/// Why a `spool` may be refused.
const SPOOL_REFUSALS: &[Refusal] = &[
    NoName,
    NoBlock,
    Busy,
    NoTask,
    NoRefs,
    QueueFull,
    NoRoom,
    WrongManner,
    BadRef,
];

impl CommandKind {
    /// The forms of its lines.
    pub fn forms(self) -> &'static [u8]
        ensures { result.now ≡ forms_text self }
    {
        match self {
            Task => b"task NAME BUF, task NAME BUF deaf, task NAME BUF file or task NAME BUF raw",
            Kill => b"kill NAME",
            Save => b"save NAME A TO LEAF",
            Poll => b"poll NAME",
            Cancel => b"cancel NAME in [ID] or cancel NAME out [ID]",
            Repeat => b"repeat NAME",
            Status => b"status NAME",
            Alloc => b"alloc NAME A N",
            Load => b"load NAME A FILE",
            Put => b"put NAME A OFF HEX",
            Free => b"free NAME A",
            Extend => b"extend NAME A N",
            Mid => b"mid NAME A AT BY",
            Show => b"show NAME A",
            Blocks => b"blocks NAME",
            Claim => b"claim NAME N",
            Release => b"release NAME ADDR",
            Resize => b"resize NAME ADDR DELTA",
            Budge => b"budge NAME on or budge NAME off",
            Heap => b"heap NAME",
            Area => b"area K DELTA",
            Make => b"make MAX",
            Remove => b"remove K",
            Areas => b"areas",
            Rma => b"rma claim N, rma free ADDR or rma resize ADDR DELTA",
            RmaClaim => b"rma claim N",
            RmaFree => b"rma free ADDR",
            RmaResize => b"rma resize ADDR DELTA",
            Send => b"send NAME CODE HANDLE REF ACTION [DATA]",
            Read => b"read NAME ADDR N",
            Write => b"write NAME ADDR HEX",
            Transfer => b"transfer NAME ADDR HANDLE ADDR N",
            Ack => b"ack NAME",
            Spool => b"spool NAME A HANDLE REF",
            Scrap => b"scrap NAME A",
        }
    }

    /// What a command of the kind does.
    pub fn deed(self) -> &'static [u8]
        ensures { result.now ≡ deed_text self }
    {
        match self {
            Task => TASK_DEED,
            Kill => b"Ends a task. Its pages are free again.",
            Save => b"Offers the bytes of a flex block to a task as a file.",
            Poll => POLL_DEED,
            Cancel => CANCEL_DEED,
            Repeat => b"Sends the last message of a task once more.",
            Status => b"Asks how far each transfer of a task is.",
            Alloc => b"Puts a new flex block of N zero bytes above the others.",
            Load => b"Puts the bytes of a file into a new flex block.",
            Put => b"Writes bytes into a flex block.",
            Free => b"Takes a flex block away. The blocks above it slide down.",
            Extend => b"Makes a flex block N bytes long. The blocks above it slide.",
            Mid => b"Puts bytes into a flex block at an offset, or takes bytes out before it.",
            Show => b"Asks for the bytes of a flex block.",
            Blocks => b"Asks for the flex blocks from below: the anchor, address and size of each.",
            Claim => CLAIM_DEED,
            Release => RELEASE_DEED,
            Resize => b"Makes a block of the C heap longer or shorter.",
            Budge => b"Lets the C heap grow, where the flex blocks budge, or forbids that.",
            Heap => HEAP_DEED,
            Area => b"Makes an area longer or shorter, by whole pages.",
            Make => b"Makes a new area that has no page yet.",
            Remove => b"Takes an area away that was made.",
            Areas => b"Asks for the free pages, and for those of each area and each slot.",
            Rma => b"Claims, releases or resizes a block of the module area.",
            RmaClaim => b"Claims a block of N bytes in the module area.",
            RmaFree => b"Releases a block of the module area.",
            RmaResize => b"Makes a block of the module area longer or shorter.",
            Send => b"Sends a message of any action, from a task with code of its own.",
            Read => b"Asks for N bytes at an address of a task's slot, inside one live block.",
            Write => b"Writes bytes at an address of a task with code of its own.",
            Transfer => TRANSFER_DEED,
            Ack => b"Says that the message which a task holds is answered, and sends nothing.",
            Spool => b"Makes a flex block the scrap file, and sends the message that tells of it.",
            Scrap => b"Puts the bytes of the scrap file into a new flex block. The file stays.",
        }
    }

    /// Why such a command may be refused.
    pub fn refusals(self) -> &'static [Refusal]
        ensures { result.now ≡ refusals_list self }
    {
        match self {
            Task => &[NameInUse, TooManyTasks, NoHandles, NoRoom],
            Kill | Poll | Status | Blocks | Budge | Heap => &[NoName],
            Save => SAVE_REFUSALS,
            Cancel => &[NoName, NotOpen],
            Repeat => &[NoName, NothingSent, NoTask, NoRefs, QueueFull, NoRoom],
            Alloc => &[NoName, AnchorInUse, NoRoom],
            Load => &[NoName, NoFile, AnchorInUse, NoRoom],
            Put => &[NoName, NoBlock, Busy, BadRange],
            Free => &[NoName, NoBlock, Busy],
            Extend => &[NoName, NoBlock, Busy, NoRoom],
            Mid => &[NoName, NoBlock, Busy, BadRange, NoRoom],
            Show => &[NoName, NoBlock],
            Claim => &[NoName, BadSize, NoBudge, NoRoom],
            Release => &[NoName, NotABlock, Busy],
            Resize => &[NoName, NotABlock, Busy, BadSize, NoBudge, NoRoom],
            Area => &[ExcessiveShrink, NoRoom, NoArea, TooBig],
            Make => &[TooManyAreas, NoNumbers],
            Remove => &[NoArea],
            Areas => &[],
            Rma | RmaResize => &[NotABlock, NotYours, BadSize, NoRoom],
            RmaClaim => &[BadSize, NoRoom],
            RmaFree => &[NotABlock, NotYours],
            Send => SEND_REFUSALS,
            Read => &[NoName, BadRange],
            Write => &[NoName, BadRange, WrongManner],
            Transfer => &[NoName, BadRange, NoTask, WrongManner],
            Ack => &[NoName, WrongManner],
            Spool => SPOOL_REFUSALS,
            Scrap => &[NoName, NoFile, AnchorInUse, NoRoom, WrongManner],
        }
    }
}
