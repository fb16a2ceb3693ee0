//! Lines of a script as commands, by the word that each begins with.

ghost use Rattle.std.specs.Prelude.{◌≡◌, IfOk, IfSome, OnOk, OnErr, IsTrue};
ghost use Rattle.rh_defs.specs.Range.{in_range};
ghost use Rattle.rh_defs.specs.Line.{command_of, is_skipped, line_means};
ghost use Rattle.rh_lines.specs.Placed.{if_placed, when_placed, OnFound, OnNone};

use crate::words::LineWords;
use crate::{areas, flex, heaps, programs, tasks};
use rh_defs::sizes::LONGEST_LINE;
use rh_defs::{Command, LineFault, Question};

/// What a complete line, without its line feed, asks for: a command that is in range, nothing for
/// a line without words or whose first word begins with `#`, or else its first fault. Never
/// answers `Unended`, since a line that is cut isn't complete.
pub fn parse_line(line: &[u8]) -> Result<Option<Command>, LineFault>
    ensures means { result ≡ line_means line.now }
    ensures in_range { IfOk result (λ found. IfSome found (λ command. IsTrue (in_range command))) }
{
    let mut command = Command::Ask(Question::Areas);
    if read_line(line, &mut command)? {
        Ok(Some(command))
    } else {
        Ok(None)
    }
}

/// Reads a line as `parse_line` does, but puts a command in a place that is there, and answers whether the line has
/// one. Where it has none, or a fault, the place keeps its command.
#[tactic(auto, using(crate::proofs::LineLemmas::by_words), unfolding(rh_defs::specs::Inner::Computing::computing_chain, rh_defs::specs::Line::line_means))]
pub fn read_line(line: &[u8], command: &mut Command) -> Result<bool, LineFault>
    ensures means { if_placed result command.new ≡ line_means line.now }
    ensures in_range { OnFound result (IsTrue (in_range command.new)) }
    ensures kept { OnNone result (command.new ≡ command.old) }
{
    if line.len() > LONGEST_LINE {
        return Err(LineFault::TooLong);
    }
    let mut words = LineWords::new();
    words.find(line);
    if is_skipped(&words) {
        return Ok(false);
    }
    put_command(&words, command)?;
    Ok(true)
}

fn is_skipped(words: &LineWords<'_>) -> bool
    ensures { result ≡ is_skipped words.now }
{
    match words.word(1) {
        [b'#', ..] => true,
        _ => words.count() == 0,
    }
}

/// Puts the command of a line in its place, as the reader of its first word has it.
fn put_command(words: &LineWords<'_>, command: &mut Command) -> Result<(), LineFault>
    ensures means { when_placed result command.new ≡ command_of words.now }
    ensures in_range { OnOk result (IsTrue (in_range command.new)) }
    ensures kept { OnErr result (command.new ≡ command.old) }
{
    if let Some(read) = tasks::read_command(words, command) {
        return read;
    }
    if let Some(read) = flex::read_command(words, command) {
        return read;
    }
    if let Some(read) = heaps::read_command(words, command) {
        return read;
    }
    if let Some(read) = areas::read_command(words, command) {
        return read;
    }
    if let Some(read) = programs::read_command(words, command) {
        return read;
    }
    Err(LineFault::Unknown)
}
