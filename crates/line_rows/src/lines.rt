//! Lines as commands: each with the command that it means, with nothing, or with its fault.

use rh_defs::{Command, LineFault, Question};
use rh_lines::{parse_line, read_line};
use std::io::{self, Write};

/// Prints each line with its meaning, and tells where a place doesn't hold the last command that was read into it.
pub(crate) fn print_meanings<W: Write>(text: &[u8], output: &mut W) -> io::Result<()> {
    let mut last = Command::Ask(Question::Areas);
    let mut place = Command::Ask(Question::Areas);
    let lines = text.strip_suffix(b"\n").unwrap_or(text);
    for line in lines.split(|byte| *byte == b'\n') {
        let meaning = parse_line(line);
        output.write_all(line)?;
        writeln!(output, "\n  {meaning:?}")?;
        let wanted = outcome_of(&meaning);
        if let Ok(Some(command)) = meaning {
            last = command;
        }
        if read_line(line, &mut place) != wanted || place != last {
            writeln!(output, "  the place differs")?;
        }
    }
    Ok(())
}

/// What reading a line of this meaning into a place answers: whether there is a command, or the fault.
fn outcome_of(meaning: &Result<Option<Command>, LineFault>) -> Result<bool, LineFault> {
    match meaning {
        Ok(command) => Ok(command.is_some()),
        Err(fault) => Err(*fault),
    }
}
