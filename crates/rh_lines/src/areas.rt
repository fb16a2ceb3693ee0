//! Lines about areas of pages.

ghost use Rattle.std.specs.Prelude.{◌≡◌, codes, IfNone, IfSome, OnOk, OnErr, IsTrue, ◌∷◌, []};
ghost use Rattle.rh_defs.specs.Line.{command_by, command_of, nth_word};
ghost use Rattle.rh_defs.specs.Range.{in_range};
ghost use Rattle.rh_lines.specs.Placed.{when_placed};
ghost use Rattle.rh_lines.specs.Readers.{IsNoneOf};

use crate::counts::counted;
use crate::forms::{delta_at, number_at};
use crate::words::LineWords;
use rh_defs::sizes::{FIRST_MADE, LAST_AREA, MAX_PAGES};
use rh_defs::{Command, LineFault, Question};

/// Puts the command of a line about areas of pages in its place; None where the line begins with none of their words.
pub fn read_command(words: &LineWords<'_>, command: &mut Command) -> Option<Result<(), LineFault>>
    ensures means { IfSome result (λ read. when_placed read command.new ≡ command_of words.now) }
    ensures in_range { IfSome result (λ read. OnOk read (IsTrue (in_range command.new))) }
    ensures kept { IfSome result (λ read. OnErr read (command.new ≡ command.old)) }
    ensures other { IfNone result (IsNoneOf (nth_word words.now 1)
        (codes "area" ∷ codes "make" ∷ codes "remove" ∷ codes "areas" ∷ [])) }
    ensures same { IfNone result (command.new ≡ command.old) }
{
    match words.word(1) {
        b"area" => Some(area_of(words, command)),
        b"make" => Some(make_of(words, command)),
        b"remove" => Some(remove_of(words, command)),
        b"areas" => Some(areas_of(words, command)),
        _ => None,
    }
}

/// `area K DELTA`.
#[tactic(auto, unfolding(crate::specs::Placed::reading))]
#[inline(always)]
fn area_of(words: &LineWords<'_>, command: &mut Command) -> Result<(), LineFault>
    ensures means { when_placed result command.new ≡ command_by (codes "area") words.now }
    ensures in_range { OnOk result (IsTrue (in_range command.new)) }
    ensures kept { OnErr result (command.new ≡ command.old) }
{
    counted(words, 3)?;
    let number = number_at(words, 2, 0, LAST_AREA)?;
    let delta = delta_at(words, 3)?;
    if let Command::Area { number: place, .. } = command {
        *place = number;
    } else {
        *command = Command::Area { number, delta };
    }
    if let Command::Area { delta: by, .. } = command {
        *by = delta;
    }
    Ok(())
}

/// `make MAX`.
#[tactic(auto, unfolding(crate::specs::Placed::reading))]
#[inline(always)]
fn make_of(words: &LineWords<'_>, command: &mut Command) -> Result<(), LineFault>
    ensures means { when_placed result command.new ≡ command_by (codes "make") words.now }
    ensures in_range { OnOk result (IsTrue (in_range command.new)) }
    ensures kept { OnErr result (command.new ≡ command.old) }
{
    counted(words, 2)?;
    let most = number_at(words, 2, 1, MAX_PAGES as u32)?;
    *command = Command::Make { most };
    Ok(())
}

/// `remove K`.
#[tactic(auto, unfolding(crate::specs::Placed::reading))]
#[inline(always)]
fn remove_of(words: &LineWords<'_>, command: &mut Command) -> Result<(), LineFault>
    ensures means { when_placed result command.new ≡ command_by (codes "remove") words.now }
    ensures in_range { OnOk result (IsTrue (in_range command.new)) }
    ensures kept { OnErr result (command.new ≡ command.old) }
{
    counted(words, 2)?;
    let number = number_at(words, 2, FIRST_MADE, LAST_AREA)?;
    *command = Command::Remove { number };
    Ok(())
}

/// `areas`.
#[tactic(auto, unfolding(crate::specs::Placed::reading))]
#[inline(always)]
fn areas_of(words: &LineWords<'_>, command: &mut Command) -> Result<(), LineFault>
    ensures means { when_placed result command.new ≡ command_by (codes "areas") words.now }
    ensures in_range { OnOk result (IsTrue (in_range command.new)) }
    ensures kept { OnErr result (command.new ≡ command.old) }
{
    counted(words, 1)?;
    *command = Command::Ask(Question::Areas);
    Ok(())
}
