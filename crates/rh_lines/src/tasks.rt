//! Lines about tasks and their transfers.

ghost use Rattle.std.specs.Prelude.{◌≡◌, codes, IfOk, IfNone, IfSome, OnOk, OnErr, IsTrue, ◌∷◌, []};
ghost use Rattle.rh_defs.specs.Grammar.{MannerWord, Maybe, Ref as RefForm};
ghost use Rattle.rh_defs.specs.Line.{command_by, command_of, value_at, nth_word};
ghost use Rattle.rh_defs.specs.Range.{in_range, is_of};
ghost use Rattle.rh_lines.specs.Placed.{when_placed};
ghost use Rattle.rh_lines.specs.Inner.MannerWords.{manner_meant};
ghost use Rattle.rh_lines.specs.Readers.{IsNoneOf};

use crate::counts::{counted, counted_from};
use crate::forms::{anchor_at, choice_at, leaf_at, name_at, number_at};
use crate::words::LineWords;
use rh_defs::sizes::LONGEST_BUFFER;
use rh_defs::{Command, LineFault, Manner, Question, Ref};

/// Puts the command of a line about tasks and their transfers in its place; None where the line begins with none of
/// their words.
pub fn read_command(words: &LineWords<'_>, command: &mut Command) -> Option<Result<(), LineFault>>
    ensures means { IfSome result (λ read. when_placed read command.new ≡ command_of words.now) }
    ensures in_range { IfSome result (λ read. OnOk read (IsTrue (in_range command.new))) }
    ensures kept { IfSome result (λ read. OnErr read (command.new ≡ command.old)) }
    ensures other { IfNone result (IsNoneOf (nth_word words.now 1)
        (codes "task" ∷ codes "kill" ∷ codes "save" ∷ codes "poll" ∷ codes "cancel" ∷ codes "repeat" ∷ codes "status"
        ∷ [])) }
    ensures same { IfNone result (command.new ≡ command.old) }
{
    match words.word(1) {
        b"task" => Some(task_of(words, command)),
        b"kill" => Some(kill_of(words, command)),
        b"save" => Some(save_of(words, command)),
        b"poll" => Some(poll_of(words, command)),
        b"cancel" => Some(cancel_of(words, command)),
        b"repeat" => Some(repeat_of(words, command)),
        b"status" => Some(status_of(words, command)),
        _ => None,
    }
}

/// `task NAME BUF`, with `deaf`, `file` or `raw` behind it or not.
#[tactic(auto, using(crate::proofs::MannerLemmas::by_manner), unfolding(crate::specs::Placed::reading))]
#[inline(always)]
fn task_of(words: &LineWords<'_>, command: &mut Command) -> Result<(), LineFault>
    ensures means { when_placed result command.new ≡ command_by (codes "task") words.now }
    ensures in_range { OnOk result (IsTrue (in_range command.new)) }
    ensures kept { OnErr result (command.new ≡ command.old) }
{
    counted_from(words, 3, 4)?;
    let name = name_at(words, 2)?;
    let buffer = number_at(words, 3, 1, LONGEST_BUFFER)?;
    let manner = manner_at(words)?;
    *command = Command::Task {
        name,
        buffer,
        manner,
    };
    Ok(())
}

/// The manner of a task, which a fourth word may give.
#[tactic(auto, unfolding(rh_defs::specs::Inner::Computing::computing_chain, rh_defs::specs::Line::choices_at))]
fn manner_at(words: &LineWords<'_>) -> Result<Manner, LineFault>
    ensures { result ≡ manner_meant (value_at (Maybe MannerWord) words.now 4) }
{
    if words.count() == 3 {
        return Ok(Manner::Plain);
    }
    match words.word(4) {
        b"deaf" => Ok(Manner::Deaf),
        b"file" => Ok(Manner::File),
        b"raw" => Ok(Manner::Raw),
        _ => Err(LineFault::Word(4)),
    }
}

/// `kill NAME`.
#[tactic(auto, unfolding(crate::specs::Placed::reading))]
#[inline(always)]
fn kill_of(words: &LineWords<'_>, command: &mut Command) -> Result<(), LineFault>
    ensures means { when_placed result command.new ≡ command_by (codes "kill") words.now }
    ensures in_range { OnOk result (IsTrue (in_range command.new)) }
    ensures kept { OnErr result (command.new ≡ command.old) }
{
    counted(words, 2)?;
    let name = name_at(words, 2)?;
    *command = Command::Kill { name };
    Ok(())
}

/// `save NAME A TO LEAF`.
#[tactic(auto, unfolding(crate::specs::Placed::reading))]
#[inline(always)]
fn save_of(words: &LineWords<'_>, command: &mut Command) -> Result<(), LineFault>
    ensures means { when_placed result command.new ≡ command_by (codes "save") words.now }
    ensures in_range { OnOk result (IsTrue (in_range command.new)) }
    ensures kept { OnErr result (command.new ≡ command.old) }
{
    counted(words, 5)?;
    let name = name_at(words, 2)?;
    let anchor = anchor_at(words, 3)?;
    let to = name_at(words, 4)?;
    let leaf = leaf_at(words, 5)?;
    if let Command::Save {
        name: place,
        anchor: at,
        to: other,
        leaf: title,
    } = command
    {
        *place = name;
        *at = anchor;
        *other = to;
        *title = leaf;
    } else {
        *command = Command::Save {
            name,
            anchor,
            to,
            leaf,
        };
    }
    Ok(())
}

/// `poll NAME`.
#[tactic(auto, unfolding(crate::specs::Placed::reading))]
#[inline(always)]
fn poll_of(words: &LineWords<'_>, command: &mut Command) -> Result<(), LineFault>
    ensures means { when_placed result command.new ≡ command_by (codes "poll") words.now }
    ensures in_range { OnOk result (IsTrue (in_range command.new)) }
    ensures kept { OnErr result (command.new ≡ command.old) }
{
    counted(words, 2)?;
    let name = name_at(words, 2)?;
    if let Command::Poll { name: place } = command {
        *place = name;
    } else {
        *command = Command::Poll { name };
    }
    Ok(())
}

/// `repeat NAME`.
#[tactic(auto, unfolding(crate::specs::Placed::reading))]
#[inline(always)]
fn repeat_of(words: &LineWords<'_>, command: &mut Command) -> Result<(), LineFault>
    ensures means { when_placed result command.new ≡ command_by (codes "repeat") words.now }
    ensures in_range { OnOk result (IsTrue (in_range command.new)) }
    ensures kept { OnErr result (command.new ≡ command.old) }
{
    counted(words, 2)?;
    let name = name_at(words, 2)?;
    *command = Command::Repeat { name };
    Ok(())
}

/// `status NAME`.
#[tactic(auto, unfolding(crate::specs::Placed::reading))]
#[inline(always)]
fn status_of(words: &LineWords<'_>, command: &mut Command) -> Result<(), LineFault>
    ensures means { when_placed result command.new ≡ command_by (codes "status") words.now }
    ensures in_range { OnOk result (IsTrue (in_range command.new)) }
    ensures kept { OnErr result (command.new ≡ command.old) }
{
    counted(words, 2)?;
    let name = name_at(words, 2)?;
    *command = Command::Ask(Question::Status { name });
    Ok(())
}

/// `cancel NAME in`, or `out`, with an ID behind it or not.
#[tactic(auto, unfolding(crate::specs::Placed::reading))]
#[inline(always)]
fn cancel_of(words: &LineWords<'_>, command: &mut Command) -> Result<(), LineFault>
    ensures means { when_placed result command.new ≡ command_by (codes "cancel") words.now }
    ensures in_range { OnOk result (IsTrue (in_range command.new)) }
    ensures kept { OnErr result (command.new ≡ command.old) }
{
    counted_from(words, 3, 4)?;
    let name = name_at(words, 2)?;
    let comes_in = choice_at(words, 3, b"in", b"out")?;
    let id = id_of(words)?;
    if comes_in {
        *command = Command::CancelIn { name, id };
        Ok(())
    } else {
        *command = Command::CancelOut { name, id };
        Ok(())
    }
}

/// The id of a cancel, which a fourth word may give.
#[inline(always)]
#[tactic(auto, unfolding(rh_defs::specs::Inner::Computing::computing_chain))]
fn id_of(words: &LineWords<'_>) -> Result<Option<Ref>, LineFault>
    ensures means { result ≡ value_at (Maybe RefForm) words.now 4 }
    ensures form { IfOk result (λ id. IsTrue (is_of (Maybe RefForm) id)) }
{
    if words.count() == 3 {
        return Ok(None);
    }
    let id = number_at(words, 4, 1, u32::MAX)?;
    Ok(Some(Ref(id)))
}
