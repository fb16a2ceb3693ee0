//! Lines about the blocks of heaps: a task's C heap and the module area.

ghost use Rattle.std.specs.Prelude.{◌≡◌, codes, IfNone, IfSome, OnOk, OnErr, IsTrue, ◌∷◌, []};
ghost use Rattle.rh_defs.specs.Line.{command_by, command_of, nth_word};
ghost use Rattle.rh_defs.specs.Range.{in_range};
ghost use Rattle.rh_lines.specs.Placed.{when_placed};
ghost use Rattle.rh_lines.specs.Readers.{IsNoneOf};

use crate::counts::counted;
use crate::forms::{address_at, choice_at, delta_at, name_at, size_at};
use crate::words::LineWords;
use rh_defs::{Command, LineFault, Question};

/// Puts the command of a line about the blocks of heaps in its place; None where the line begins with none of their
/// words.
pub fn read_command(words: &LineWords<'_>, command: &mut Command) -> Option<Result<(), LineFault>>
    ensures means { IfSome result (λ read. when_placed read command.new ≡ command_of words.now) }
    ensures in_range { IfSome result (λ read. OnOk read (IsTrue (in_range command.new))) }
    ensures kept { IfSome result (λ read. OnErr read (command.new ≡ command.old)) }
    ensures other { IfNone result (IsNoneOf (nth_word words.now 1)
        (codes "claim" ∷ codes "release" ∷ codes "resize" ∷ codes "budge" ∷ codes "heap" ∷ codes "rma" ∷ [])) }
    ensures same { IfNone result (command.new ≡ command.old) }
{
    match words.word(1) {
        b"claim" => Some(claim_of(words, command)),
        b"release" => Some(release_of(words, command)),
        b"resize" => Some(resize_of(words, command)),
        b"budge" => Some(budge_of(words, command)),
        b"heap" => Some(heap_of(words, command)),
        b"rma" => Some(rma_of(words, command)),
        _ => None,
    }
}

/// `claim NAME N`.
#[tactic(auto, unfolding(crate::specs::Placed::reading))]
#[inline(always)]
fn claim_of(words: &LineWords<'_>, command: &mut Command) -> Result<(), LineFault>
    ensures means { when_placed result command.new ≡ command_by (codes "claim") words.now }
    ensures in_range { OnOk result (IsTrue (in_range command.new)) }
    ensures kept { OnErr result (command.new ≡ command.old) }
{
    counted(words, 3)?;
    let name = name_at(words, 2)?;
    let size = size_at(words, 3)?;
    if let Command::Claim {
        name: place,
        size: number,
    } = command
    {
        *place = name;
        *number = size;
    } else {
        *command = Command::Claim { name, size };
    }
    Ok(())
}

/// `release NAME ADDR`.
#[tactic(auto, unfolding(crate::specs::Placed::reading))]
#[inline(always)]
fn release_of(words: &LineWords<'_>, command: &mut Command) -> Result<(), LineFault>
    ensures means { when_placed result command.new ≡ command_by (codes "release") words.now }
    ensures in_range { OnOk result (IsTrue (in_range command.new)) }
    ensures kept { OnErr result (command.new ≡ command.old) }
{
    counted(words, 3)?;
    let name = name_at(words, 2)?;
    let address = address_at(words, 3)?;
    if let Command::Release {
        name: place,
        address: number,
    } = command
    {
        *place = name;
        *number = address;
    } else {
        *command = Command::Release { name, address };
    }
    Ok(())
}

/// `resize NAME ADDR DELTA`.
#[tactic(auto, unfolding(crate::specs::Placed::reading))]
#[inline(always)]
fn resize_of(words: &LineWords<'_>, command: &mut Command) -> Result<(), LineFault>
    ensures means { when_placed result command.new ≡ command_by (codes "resize") words.now }
    ensures in_range { OnOk result (IsTrue (in_range command.new)) }
    ensures kept { OnErr result (command.new ≡ command.old) }
{
    counted(words, 4)?;
    let name = name_at(words, 2)?;
    let address = address_at(words, 3)?;
    let delta = delta_at(words, 4)?;
    if let Command::Resize { name: place, .. } = command {
        *place = name;
    } else {
        *command = Command::Resize {
            name,
            address,
            delta,
        };
    }
    if let Command::Resize {
        address: number,
        ..
    } = command
    {
        *number = address;
    }
    if let Command::Resize { delta: by, .. } = command {
        *by = delta;
    }
    Ok(())
}

/// `budge NAME on, or off`.
#[tactic(auto, unfolding(crate::specs::Placed::reading))]
#[inline(always)]
fn budge_of(words: &LineWords<'_>, command: &mut Command) -> Result<(), LineFault>
    ensures means { when_placed result command.new ≡ command_by (codes "budge") words.now }
    ensures in_range { OnOk result (IsTrue (in_range command.new)) }
    ensures kept { OnErr result (command.new ≡ command.old) }
{
    counted(words, 3)?;
    let name = name_at(words, 2)?;
    let on = choice_at(words, 3, b"on", b"off")?;
    *command = Command::Budge { name, on };
    Ok(())
}

/// `heap NAME`.
#[tactic(auto, unfolding(crate::specs::Placed::reading))]
#[inline(always)]
fn heap_of(words: &LineWords<'_>, command: &mut Command) -> Result<(), LineFault>
    ensures means { when_placed result command.new ≡ command_by (codes "heap") words.now }
    ensures in_range { OnOk result (IsTrue (in_range command.new)) }
    ensures kept { OnErr result (command.new ≡ command.old) }
{
    counted(words, 2)?;
    let name = name_at(words, 2)?;
    *command = Command::Ask(Question::Heap { name });
    Ok(())
}

/// `rma claim N`, `rma free ADDR` or `rma resize ADDR DELTA`.
#[tactic(auto, unfolding(crate::specs::Placed::reading))]
#[inline(always)]
fn rma_of(words: &LineWords<'_>, command: &mut Command) -> Result<(), LineFault>
    ensures means { when_placed result command.new ≡ command_by (codes "rma") words.now }
    ensures in_range { OnOk result (IsTrue (in_range command.new)) }
    ensures kept { OnErr result (command.new ≡ command.old) }
{
    let second = words.word(2);
    if second == b"claim".as_slice() {
        counted(words, 3)?;
        let size = size_at(words, 3)?;
        *command = Command::RmaClaim { size };
        Ok(())
    } else if second == b"free".as_slice() {
        counted(words, 3)?;
        let address = address_at(words, 3)?;
        *command = Command::RmaFree { address };
        Ok(())
    } else if second == b"resize".as_slice() {
        counted(words, 4)?;
        let address = address_at(words, 3)?;
        let delta = delta_at(words, 4)?;
        *command = Command::RmaResize { address, delta };
        Ok(())
    } else if words.count() == 1 {
        Err(LineFault::Count)
    } else {
        Err(LineFault::Word(2))
    }
}
