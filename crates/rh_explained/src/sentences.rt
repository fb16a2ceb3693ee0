//! Why commands are refused, in words, and what helps.

ghost use Rattle.std.specs.Prelude.{◌≡◌};
ghost use Rattle.rh_explained.specs.Sentences.{bytes_help as bytes_help_text, bytes_why as bytes_why_text};
ghost use Rattle.rh_explained.specs.Sentences.{help_for as help_text, kind_help as kind_help_text};
ghost use Rattle.rh_explained.specs.Sentences.{manner_help as manner_help_text, other_help as other_help_text};
ghost use Rattle.rh_explained.specs.Sentences.{program_help as program_help_text, program_why as program_why_text};
ghost use Rattle.rh_explained.specs.Sentences.{why as why_text, why_for as why_for_text};

use crate::command_kind::CommandKind;
use rh_defs::Refusal;

/// Why a command is refused.
pub fn why(refusal: Refusal) -> &'static [u8]
    ensures { result.now ≡ why_text refusal }
{
    match refusal {
        Refusal::NameInUse => b"a live task has this name already",
        Refusal::NoName => b"no live task has this name",
        Refusal::TooManyTasks => b"32 tasks are live, and there may be no more",
        Refusal::NoHandles => b"the last handle has been given",
        Refusal::NoFile => b"no file has this name",
        Refusal::NoBlock => b"this anchor has no block",
        Refusal::AnchorInUse => b"this anchor has a block already",
        Refusal::NotABlock => b"no used block begins at this address",
        Refusal::NotYours => b"a message lies in this block of the module area",
        Refusal::Busy => b"a transfer uses the block",
        Refusal::NotOpen => b"no such transfer can be given up",
        Refusal::NothingSent => b"the task has sent no message yet",
        Refusal::BadRange => b"offset or bytes lie outside the block",
        Refusal::BadSize => b"a block of a heap has at least 1 byte",
        Refusal::ExcessiveShrink => b"the area would lose more than it can",
        Refusal::NoTask => b"the task that this is for isn't live",
        Refusal::NoRefs => b"the last ref has been given",
        Refusal::QueueFull => b"256 messages are live, and there may be no more",
        Refusal::NoBudge => b"the C heap must grow for this, and budging is off",
        Refusal::NoRoom => b"the pool has too few free pages",
        Refusal::NoArea => b"no area has this number",
        Refusal::TooManyAreas => b"32 areas are made, and there may be no more",
        Refusal::NoNumbers => b"the last number of an area has been given",
        Refusal::TooBig => b"the area would have more pages than it may",
        Refusal::WrongManner => b"this isn't for tasks of its manner",
        Refusal::BadRef => b"no message has this ref yet",
    }
}

/// Why a command of a task with code of its own is refused.
fn program_why(refusal: Refusal) -> &'static [u8]
    ensures { result.now ≡ program_why_text refusal }
{
    match refusal {
        Refusal::NoFile => b"the task doesn't hold the message about a scrap file",
        Refusal::Busy => b"there is a scrap file already",
        Refusal::BadRange => b"no block has these bytes, or their place isn't open",
        _ => why(refusal),
    }
}

/// Why a command on bytes at an address is refused.
fn bytes_why(refusal: Refusal) -> &'static [u8]
    ensures { result.now ≡ bytes_why_text refusal }
{
    match refusal {
        Refusal::BadRange => b"no live block has these bytes",
        _ => why(refusal),
    }
}

/// Why a command of a kind is refused.
pub fn why_for(kind: CommandKind, refusal: Refusal) -> &'static [u8]
    ensures { result.now ≡ why_for_text kind refusal }
{
    if kind.is_of_bytes() {
        bytes_why(refusal)
    } else if kind.is_of_programs() {
        program_why(refusal)
    } else {
        why(refusal)
    }
}

/// What helps then, where that is clear and the same for all kinds of commands.
fn help_for(refusal: Refusal) -> &'static [u8]
    ensures { result.now ≡ help_text refusal }
{
    match refusal {
        Refusal::NameInUse => b"  take another name, or kill that task first\n",
        Refusal::NoName => b"  start it by task NAME BUF; upper and lower case differ\n",
        Refusal::TooManyTasks => b"  kill a task first\n",
        Refusal::NoHandles => b"",
        Refusal::NoFile => b"  name it behind the script, as NAME=PATH\n",
        Refusal::NoBlock => b"  alloc or load puts a block there\n",
        Refusal::AnchorInUse => b"  take another anchor, or free that block first\n",
        Refusal::NotABlock => b"  claim answered the address, and heap lists those of the C heap\n",
        Refusal::NotYours => b"  a block of messages goes when they are taken\n",
        Refusal::Busy => b"  poll until the transfer has ended, or cancel it\n",
        Refusal::NotOpen => b"  status lists the transfers\n",
        Refusal::NothingSent => b"",
        Refusal::BadRange => b"  blocks lists the sizes, and extend makes a block longer\n",
        Refusal::BadSize => b"",
        Refusal::ExcessiveShrink => b"  areas lists the pages of each area\n",
        Refusal::NoTask => b"  start the recipient first\n",
        Refusal::NoRefs => b"",
        Refusal::QueueFull => b"  let tasks poll\n",
        Refusal::NoBudge => b"  allow it by budge NAME on\n",
        Refusal::NoRoom => b"  areas lists the pages; free some, or begin with more by --pages\n",
        Refusal::NoArea => b"  areas lists the numbers, and make makes an area\n",
        Refusal::TooManyAreas => b"  remove an area first\n",
        Refusal::NoNumbers => b"",
        Refusal::TooBig => b"  make an area that may have more by make MAX\n",
        Refusal::WrongManner => b"",
        Refusal::BadRef => b"  0 answers nothing\n",
    }
}

/// What helps then with a command of a task with code of its own.
fn program_help(refusal: Refusal) -> &'static [u8]
    ensures { result.now ≡ program_help_text refusal }
{
    match refusal {
        Refusal::NoFile => b"  poll takes it, where one waits\n",
        Refusal::Busy => b"  it goes when its DataLoad is loaded or answered\n",
        Refusal::BadRange =>
            b"  heap and blocks list blocks; RAMFetch opens a buffer to its recipient\n",
        _ => help_for(refusal),
    }
}

/// What helps then with a command on bytes at an address.
fn bytes_help(refusal: Refusal) -> &'static [u8]
    ensures { result.now ≡ bytes_help_text refusal }
{
    match refusal {
        Refusal::BadRange => b"  heap and blocks list the task's blocks\n",
        _ => help_for(refusal),
    }
}

/// What helps where a command isn't for tasks of the manner.
fn manner_help(kind: CommandKind) -> &'static [u8]
    ensures { result.now ≡ manner_help_text kind }
{
    match kind {
        CommandKind::Save => b"  save isn't for raw tasks; they send by send or spool\n",
        CommandKind::Send => b"  send is for raw tasks; others offer files by save\n",
        CommandKind::Write => b"  write is for raw tasks; others write by put\n",
        CommandKind::Transfer => b"  transfer is for raw tasks; a poll moves the bytes of others\n",
        CommandKind::Ack => b"  ack is for raw tasks; a poll answers for others\n",
        CommandKind::Spool => b"  spool is for raw tasks; others offer files by save\n",
        CommandKind::Scrap => b"  scrap is for raw tasks; a poll loads the scrap file for others\n",
        _ => b"",
    }
}

/// What helps with a command of a kind but where it isn't for tasks of the manner.
fn other_help(kind: CommandKind, refusal: Refusal) -> &'static [u8]
    ensures { result.now ≡ other_help_text kind refusal }
{
    if kind.is_of_bytes() {
        bytes_help(refusal)
    } else if kind.is_of_programs() {
        program_help(refusal)
    } else {
        help_for(refusal)
    }
}

/// What helps with a refused command of a kind.
pub fn kind_help(kind: CommandKind, refusal: Refusal) -> &'static [u8]
    ensures { result.now ≡ kind_help_text kind refusal }
{
    match refusal {
        Refusal::WrongManner => manner_help(kind),
        _ => other_help(kind, refusal),
    }
}
