//! Lines about flex blocks.

ghost use Rattle.std.specs.Prelude.{◌≡◌, codes, IfNone, IfSome, OnOk, OnErr, IsTrue, ◌∷◌, []};
ghost use Rattle.rh_defs.specs.Line.{command_by, command_of, nth_word};
ghost use Rattle.rh_defs.specs.Range.{in_range};
ghost use Rattle.rh_lines.specs.Placed.{when_placed};
ghost use Rattle.rh_lines.specs.Readers.{IsNoneOf};

use crate::counts::counted;
use crate::forms::{anchor_at, bytes_at, delta_at, name_at, size_at};
use crate::words::LineWords;
use arrayvec::ArrayVec;
use rh_defs::{Bytes, Command, LineFault, Question};

/// Puts the command of a line about flex blocks in its place; None where the line begins with none of their words.
pub fn read_command(words: &LineWords<'_>, command: &mut Command) -> Option<Result<(), LineFault>>
    ensures means { IfSome result (λ read. when_placed read command.new ≡ command_of words.now) }
    ensures in_range { IfSome result (λ read. OnOk read (IsTrue (in_range command.new))) }
    ensures kept { IfSome result (λ read. OnErr read (command.new ≡ command.old)) }
    ensures other { IfNone result (IsNoneOf (nth_word words.now 1)
        (codes "alloc" ∷ codes "load" ∷ codes "put" ∷ codes "free" ∷ codes "extend" ∷ codes "mid" ∷ codes "show"
        ∷ codes "blocks" ∷ [])) }
    ensures same { IfNone result (command.new ≡ command.old) }
{
    match words.word(1) {
        b"alloc" => Some(alloc_of(words, command)),
        b"load" => Some(load_of(words, command)),
        b"put" => Some(put_of(words, command)),
        b"free" => Some(free_of(words, command)),
        b"extend" => Some(extend_of(words, command)),
        b"mid" => Some(mid_of(words, command)),
        b"show" => Some(show_of(words, command)),
        b"blocks" => Some(blocks_of(words, command)),
        _ => None,
    }
}

/// `alloc NAME A N`.
#[tactic(auto, unfolding(crate::specs::Placed::reading))]
#[inline(always)]
fn alloc_of(words: &LineWords<'_>, command: &mut Command) -> Result<(), LineFault>
    ensures means { when_placed result command.new ≡ command_by (codes "alloc") words.now }
    ensures in_range { OnOk result (IsTrue (in_range command.new)) }
    ensures kept { OnErr result (command.new ≡ command.old) }
{
    counted(words, 4)?;
    let name = name_at(words, 2)?;
    let anchor = anchor_at(words, 3)?;
    let size = size_at(words, 4)?;
    if let Command::Alloc {
        name: place,
        anchor: at,
        size: count,
    } = command
    {
        *place = name;
        *at = anchor;
        *count = size;
    } else {
        *command = Command::Alloc { name, anchor, size };
    }
    Ok(())
}

/// `load NAME A FILE`.
#[tactic(auto, unfolding(crate::specs::Placed::reading))]
#[inline(always)]
fn load_of(words: &LineWords<'_>, command: &mut Command) -> Result<(), LineFault>
    ensures means { when_placed result command.new ≡ command_by (codes "load") words.now }
    ensures in_range { OnOk result (IsTrue (in_range command.new)) }
    ensures kept { OnErr result (command.new ≡ command.old) }
{
    counted(words, 4)?;
    let name = name_at(words, 2)?;
    let anchor = anchor_at(words, 3)?;
    let file = name_at(words, 4)?;
    *command = Command::Load { name, anchor, file };
    Ok(())
}

/// `put NAME A OFF HEX`.
#[tactic(auto, unfolding(crate::specs::Placed::reading))]
#[inline(always)]
fn put_of(words: &LineWords<'_>, command: &mut Command) -> Result<(), LineFault>
    ensures means { when_placed result command.new ≡ command_by (codes "put") words.now }
    ensures in_range { OnOk result (IsTrue (in_range command.new)) }
    ensures kept { OnErr result (command.new ≡ command.old) }
{
    counted(words, 5)?;
    let name = name_at(words, 2)?;
    let anchor = anchor_at(words, 3)?;
    let offset = size_at(words, 4)?;
    let mut bytes = ArrayVec::new();
    bytes_at(words, 5, &mut bytes)?;
    *command = Command::Put {
        name,
        anchor,
        offset,
        bytes: Bytes::new(bytes),
    };
    Ok(())
}

/// `free NAME A`.
#[tactic(auto, unfolding(crate::specs::Placed::reading))]
#[inline(always)]
fn free_of(words: &LineWords<'_>, command: &mut Command) -> Result<(), LineFault>
    ensures means { when_placed result command.new ≡ command_by (codes "free") words.now }
    ensures in_range { OnOk result (IsTrue (in_range command.new)) }
    ensures kept { OnErr result (command.new ≡ command.old) }
{
    counted(words, 3)?;
    let name = name_at(words, 2)?;
    let anchor = anchor_at(words, 3)?;
    if let Command::Free {
        name: place,
        anchor: at,
    } = command
    {
        *place = name;
        *at = anchor;
    } else {
        *command = Command::Free { name, anchor };
    }
    Ok(())
}

/// `extend NAME A N`.
#[tactic(auto, unfolding(crate::specs::Placed::reading))]
#[inline(always)]
fn extend_of(words: &LineWords<'_>, command: &mut Command) -> Result<(), LineFault>
    ensures means { when_placed result command.new ≡ command_by (codes "extend") words.now }
    ensures in_range { OnOk result (IsTrue (in_range command.new)) }
    ensures kept { OnErr result (command.new ≡ command.old) }
{
    counted(words, 4)?;
    let name = name_at(words, 2)?;
    let anchor = anchor_at(words, 3)?;
    let size = size_at(words, 4)?;
    if let Command::Extend {
        name: place,
        anchor: at,
        size: count,
    } = command
    {
        *place = name;
        *at = anchor;
        *count = size;
    } else {
        *command = Command::Extend { name, anchor, size };
    }
    Ok(())
}

/// `mid NAME A AT BY`.
#[tactic(auto, unfolding(crate::specs::Placed::reading))]
#[inline(always)]
fn mid_of(words: &LineWords<'_>, command: &mut Command) -> Result<(), LineFault>
    ensures means { when_placed result command.new ≡ command_by (codes "mid") words.now }
    ensures in_range { OnOk result (IsTrue (in_range command.new)) }
    ensures kept { OnErr result (command.new ≡ command.old) }
{
    counted(words, 5)?;
    let name = name_at(words, 2)?;
    let anchor = anchor_at(words, 3)?;
    let offset = size_at(words, 4)?;
    let by = delta_at(words, 5)?;
    *command = Command::Mid {
        name,
        anchor,
        offset,
        by,
    };
    Ok(())
}

/// `show NAME A`.
#[tactic(auto, unfolding(crate::specs::Placed::reading))]
#[inline(always)]
fn show_of(words: &LineWords<'_>, command: &mut Command) -> Result<(), LineFault>
    ensures means { when_placed result command.new ≡ command_by (codes "show") words.now }
    ensures in_range { OnOk result (IsTrue (in_range command.new)) }
    ensures kept { OnErr result (command.new ≡ command.old) }
{
    counted(words, 3)?;
    let name = name_at(words, 2)?;
    let anchor = anchor_at(words, 3)?;
    *command = Command::Ask(Question::Show { name, anchor });
    Ok(())
}

/// `blocks NAME`.
#[tactic(auto, unfolding(crate::specs::Placed::reading))]
#[inline(always)]
fn blocks_of(words: &LineWords<'_>, command: &mut Command) -> Result<(), LineFault>
    ensures means { when_placed result command.new ≡ command_by (codes "blocks") words.now }
    ensures in_range { OnOk result (IsTrue (in_range command.new)) }
    ensures kept { OnErr result (command.new ≡ command.old) }
{
    counted(words, 2)?;
    let name = name_at(words, 2)?;
    *command = Command::Ask(Question::Blocks { name });
    Ok(())
}
