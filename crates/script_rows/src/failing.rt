//! Runs of which only the front of the script comes in, or only the front of the replies goes out.

use crate::forms::{FORMS, Form, end_over_lent, over_own};
use crate::lines::{LINES, feeds_in, replies, script};
use crate::streams::{Narrow, Pieces, narrowly, slowly};
use arrayvec::ArrayVec;
use rh_lines::Flagged;
use rh_run::{RunFault, Status};
use std::alloc::Global;
use std::io::{self, Write};

/// Prints of each family how many runs there were, and how many of them did otherwise than they should.
pub(crate) fn print_fronts<W: Write>(alloc: Global, output: &mut W) -> io::Result<()> {
    let script = script(alloc)?;
    let all = script.as_slice();
    let wrong = wrong_cut(alloc, all)?;
    writeln!(output, "{} cut scripts, {wrong} differ", all.len())?;
    let wrong = wrong_read(alloc, all, true)?;
    writeln!(output, "{} readers of lines, {wrong} differ", LINES.len())?;
    let wrong = wrong_read(alloc, all, false)?;
    writeln!(output, "{} readers of bytes, {wrong} differ", all.len())?;
    for fails in [true, false] {
        let (writers, wrong) = wrong_written(alloc, all, fails)?;
        writeln!(output, "{writers} writers, {wrong} differ")?;
    }
    print_full(alloc, output)
}

/// Of how many fronts of the script other replies are written than those to its complete lines, and of the cut one.
fn wrong_cut(alloc: Global, all: &[u8]) -> io::Result<u32> {
    let mut wrong = 0u32;
    for len in 0..all.len() {
        let front = &all[..len];
        let mut wanted = replies(alloc, feeds_in(front, len))?;
        let mut status = Status::Clean;
        if !front.is_empty() && !front.ends_with(b"\n".as_slice()) {
            wanted.extend_from_slice(b"bad Unended\n")?;
            status = Status::BadLines;
        }
        let written = over_own(alloc, front, Form::Replies, 64)?;
        let is_well = written.text == wanted && written.ended == Ok(status);
        wrong = wrong.saturating_add(u32::from(!is_well));
    }
    Ok(wrong)
}

/// How many runs whose reader fails have written other replies than those to the complete lines that were read.
fn wrong_read(alloc: Global, left: &[u8], by_line: bool) -> io::Result<u32> {
    let mut wrong = 0u32;
    let most = if by_line { LINES.len() } else { left.len() };
    for good in 0..most {
        let complete = if by_line { good } else { feeds_in(left, good) };
        let wanted = replies(alloc, complete)?;
        let (text, ended) = slowly(alloc, Pieces::new(left, good, by_line));
        let is_well = text == wanted && ended == Err(RunFault::ReadFailed);
        wrong = wrong.saturating_add(u32::from(!is_well));
    }
    Ok(wrong)
}

/// How many runs there are whose writer has less room than the replies, and how many have written another front.
fn wrong_written(alloc: Global, all: &[u8], fails: bool) -> io::Result<(usize, u32)> {
    let mut wrong = 0u32;
    let wanted = replies(alloc, LINES.len())?;
    for room in 0..wanted.len() {
        let (text, ended) = narrowly(alloc, all, Narrow::new(alloc, room, fails));
        let front = wanted.as_slice().get(..room);
        let is_well = Some(text.as_slice()) == front && ended == Err(RunFault::WriteFailed);
        wrong = wrong.saturating_add(u32::from(!is_well));
    }
    Ok((wanted.len(), wrong))
}

/// Prints of each form how a script in memory ends whose writer has room for three bytes, and these bytes.
fn print_full<W: Write>(alloc: Global, output: &mut W) -> io::Result<()> {
    let script = b"#picture\ntask a 100\nareas\n";
    for form in FORMS {
        let mut writer = Flagged::new(ArrayVec::<u8, 3>::new());
        let ended = end_over_lent(alloc, script, form, &mut writer)?;
        write!(output, "{form:?} {ended:?} ")?;
        output.write_all(writer.into_inner().as_slice())?;
        output.write_all(b"\n")?;
    }
    Ok(())
}
