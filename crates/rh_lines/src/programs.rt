//! Lines of tasks with code of their own: messages of any action, and bytes by their addresses.

ghost use Rattle.std.specs.Prelude.{◌≡◌, codes, IfOk, IfNone, IfSome, OnOk, OnErr, IsTrue, ◌∷◌, []};
ghost use Rattle.rh_defs.specs.Grammar.{Data as DataForm, Maybe};
ghost use Rattle.rh_defs.specs.Line.{command_by, command_of, value_at, nth_word};
ghost use Rattle.rh_defs.specs.Range.{in_range, is_of};
ghost use Rattle.rh_lines.specs.Placed.{when_placed};
ghost use Rattle.rh_lines.specs.Readers.{IsNoneOf};

use crate::counts::{counted, counted_from};
use crate::forms::{
    address_at, anchor_at, bytes_at, choice_at, data_at, name_at, number_at, size_at,
};
use crate::words::LineWords;
use arrayvec::ArrayVec;
use rh_defs::{Bytes, Command, Data, Handle, LineFault, Question, RawCommand, Ref};

/// Puts the command of a line of a task with code of its own in its place; None where the line begins with none of
/// their words.
pub fn read_command(words: &LineWords<'_>, command: &mut Command) -> Option<Result<(), LineFault>>
    ensures means { IfSome result (λ read. when_placed read command.new ≡ command_of words.now) }
    ensures in_range { IfSome result (λ read. OnOk read (IsTrue (in_range command.new))) }
    ensures kept { IfSome result (λ read. OnErr read (command.new ≡ command.old)) }
    ensures other { IfNone result (IsNoneOf (nth_word words.now 1)
        (codes "send" ∷ codes "read" ∷ codes "write" ∷ codes "transfer" ∷ codes "ack" ∷ codes "spool" ∷ codes "scrap"
        ∷ [])) }
    ensures same { IfNone result (command.new ≡ command.old) }
{
    match words.word(1) {
        b"send" => Some(send_of(words, command)),
        b"read" => Some(read_of(words, command)),
        b"write" => Some(write_of(words, command)),
        b"transfer" => Some(transfer_of(words, command)),
        b"ack" => Some(ack_of(words, command)),
        b"spool" => Some(spool_of(words, command)),
        b"scrap" => Some(scrap_of(words, command)),
        _ => None,
    }
}

/// `send NAME 17, or 18, HANDLE REF ACTION`, with data behind it or not.
#[tactic(auto, unfolding(crate::specs::Placed::reading))]
#[inline(always)]
fn send_of(words: &LineWords<'_>, command: &mut Command) -> Result<(), LineFault>
    ensures means { when_placed result command.new ≡ command_by (codes "send") words.now }
    ensures in_range { OnOk result (IsTrue (in_range command.new)) }
    ensures kept { OnErr result (command.new ≡ command.old) }
{
    counted_from(words, 6, 7)?;
    let name = name_at(words, 2)?;
    let recorded = choice_at(words, 3, b"18", b"17")?;
    let to = number_at(words, 4, 1, u32::MAX)?;
    let your_ref = number_at(words, 5, 0, u32::MAX)?;
    let action = number_at(words, 6, 0, u32::MAX)?;
    let data = data_behind(words)?;
    *command = Command::Raw(RawCommand::Send {
        name,
        recorded,
        to: Handle(to),
        your_ref: Ref(your_ref),
        action,
        data,
    });
    Ok(())
}

/// The data of a message, which a seventh word may give.
#[inline(always)]
#[tactic(auto, unfolding(rh_defs::specs::Inner::Computing::computing_chain))]
fn data_behind(words: &LineWords<'_>) -> Result<Option<Data>, LineFault>
    ensures means { result ≡ value_at (Maybe DataForm) words.now 7 }
    ensures form { IfOk result (λ found. IsTrue (is_of (Maybe DataForm) found)) }
{
    if words.count() == 6 {
        return Ok(None);
    }
    let data = data_at(words, 7)?;
    Ok(Some(data))
}

/// `read NAME ADDR N`.
#[tactic(auto, unfolding(crate::specs::Placed::reading))]
#[inline(always)]
fn read_of(words: &LineWords<'_>, command: &mut Command) -> Result<(), LineFault>
    ensures means { when_placed result command.new ≡ command_by (codes "read") words.now }
    ensures in_range { OnOk result (IsTrue (in_range command.new)) }
    ensures kept { OnErr result (command.new ≡ command.old) }
{
    counted(words, 4)?;
    let name = name_at(words, 2)?;
    let address = address_at(words, 3)?;
    let size = size_at(words, 4)?;
    *command = Command::Ask(Question::Read {
        name,
        address,
        size,
    });
    Ok(())
}

/// `write NAME ADDR HEX`.
#[tactic(auto, unfolding(crate::specs::Placed::reading))]
#[inline(always)]
fn write_of(words: &LineWords<'_>, command: &mut Command) -> Result<(), LineFault>
    ensures means { when_placed result command.new ≡ command_by (codes "write") words.now }
    ensures in_range { OnOk result (IsTrue (in_range command.new)) }
    ensures kept { OnErr result (command.new ≡ command.old) }
{
    counted(words, 4)?;
    let name = name_at(words, 2)?;
    let address = address_at(words, 3)?;
    let mut bytes = ArrayVec::new();
    bytes_at(words, 4, &mut bytes)?;
    *command = Command::Raw(RawCommand::Write {
        name,
        address,
        bytes: Bytes::new(bytes),
    });
    Ok(())
}

/// `transfer NAME ADDR HANDLE ADDR2 N`.
#[tactic(auto, unfolding(crate::specs::Placed::reading))]
#[inline(always)]
fn transfer_of(words: &LineWords<'_>, command: &mut Command) -> Result<(), LineFault>
    ensures means { when_placed result command.new ≡ command_by (codes "transfer") words.now }
    ensures in_range { OnOk result (IsTrue (in_range command.new)) }
    ensures kept { OnErr result (command.new ≡ command.old) }
{
    counted(words, 6)?;
    let name = name_at(words, 2)?;
    let address = address_at(words, 3)?;
    let to = number_at(words, 4, 1, u32::MAX)?;
    let place = address_at(words, 5)?;
    let size = size_at(words, 6)?;
    *command = Command::Raw(RawCommand::Transfer {
        name,
        address,
        to: Handle(to),
        place,
        size,
    });
    Ok(())
}

/// `ack NAME`.
#[tactic(auto, unfolding(crate::specs::Placed::reading))]
#[inline(always)]
fn ack_of(words: &LineWords<'_>, command: &mut Command) -> Result<(), LineFault>
    ensures means { when_placed result command.new ≡ command_by (codes "ack") words.now }
    ensures in_range { OnOk result (IsTrue (in_range command.new)) }
    ensures kept { OnErr result (command.new ≡ command.old) }
{
    counted(words, 2)?;
    let name = name_at(words, 2)?;
    *command = Command::Raw(RawCommand::Ack { name });
    Ok(())
}

/// `spool NAME A HANDLE REF`.
#[tactic(auto, unfolding(crate::specs::Placed::reading))]
#[inline(always)]
fn spool_of(words: &LineWords<'_>, command: &mut Command) -> Result<(), LineFault>
    ensures means { when_placed result command.new ≡ command_by (codes "spool") words.now }
    ensures in_range { OnOk result (IsTrue (in_range command.new)) }
    ensures kept { OnErr result (command.new ≡ command.old) }
{
    counted(words, 5)?;
    let name = name_at(words, 2)?;
    let anchor = anchor_at(words, 3)?;
    let to = number_at(words, 4, 1, u32::MAX)?;
    let your_ref = number_at(words, 5, 0, u32::MAX)?;
    *command = Command::Raw(RawCommand::Spool {
        name,
        anchor,
        to: Handle(to),
        your_ref: Ref(your_ref),
    });
    Ok(())
}

/// `scrap NAME A`.
#[tactic(auto, unfolding(crate::specs::Placed::reading))]
#[inline(always)]
fn scrap_of(words: &LineWords<'_>, command: &mut Command) -> Result<(), LineFault>
    ensures means { when_placed result command.new ≡ command_by (codes "scrap") words.now }
    ensures in_range { OnOk result (IsTrue (in_range command.new)) }
    ensures kept { OnErr result (command.new ≡ command.old) }
{
    counted(words, 3)?;
    let name = name_at(words, 2)?;
    let anchor = anchor_at(words, 3)?;
    *command = Command::Raw(RawCommand::Scrap { name, anchor });
    Ok(())
}
