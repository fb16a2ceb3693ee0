//! Writers that fail, and what they are offered behind that.

use crate::forms::{Ended, Form};
use crate::lines::script;
use crate::streams::Pieces;
use rh_defs::Files;
use rh_lines::Flagged;
use rh_pictures::SheetForm;
use rh_run::{RunFault, draw_map, draw_sheet, run};
use std::alloc::Global;
use std::io::{self, Write};

/// A writer that takes so many calls whole, then fails, and counts the calls behind the first that failed.
#[derive(Drop)]
struct Failing {
    good: usize,
    has_failed: bool,
    later: usize,
}

impl Write for Failing {
    fn write(&mut self, bytes: &[u8]) -> io::Result<usize> {
        if self.good > 0 {
            self.good -= 1;
            return Ok(bytes.len());
        }
        self.later = self.later.saturating_add(usize::from(self.has_failed));
        self.has_failed = true;
        Err(io::Error::from(io::ErrorKind::Other))
    }

    fn flush(&mut self) -> io::Result<()> {
        Ok(())
    }
}

/// How many calls come behind the first that failed, and how the run ends: each read gives a line.
fn later_calls(alloc: Global, script: &[u8], form: Form, good: usize) -> (usize, Ended) {
    let mut reader = Flagged::new(Pieces::new(script, usize::MAX, true));
    let mut writer = Flagged::new(Failing {
        good,
        has_failed: false,
        later: 0,
    });
    let files = Files::new(alloc);
    let ended = match form {
        Form::Replies => run(alloc, files, &mut reader, &mut writer, 64),
        Form::Map(marked) => draw_map(alloc, files, &mut reader, &mut writer, 64, marked),
        Form::Sheet(marked) => {
            draw_sheet(
                alloc,
                files,
                &mut reader,
                &mut writer,
                64,
                SheetForm::at_true_scale(marked),
                b"It",
            )
        }
    };
    (writer.into_inner().later, ended)
}

/// Prints of replies, a map and a sheet how many writers failed, and how many of them were offered more behind that.
pub(crate) fn print_offers<W: Write>(alloc: Global, output: &mut W) -> io::Result<()> {
    let script = script(alloc)?;
    for form in [Form::Replies, Form::Map(false), Form::Sheet(false)] {
        let mut wrong = 0u32;
        for good in 0..4 {
            let (later, ended) = later_calls(alloc, script.as_slice(), form, good);
            let is_well = later == 0 && ended == Err(RunFault::WriteFailed);
            wrong = wrong.saturating_add(u32::from(!is_well));
        }
        writeln!(output, "{form:?} 4 writers that fail, {wrong} differ")?;
    }
    Ok(())
}
