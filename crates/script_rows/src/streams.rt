//! Readers and writers that are slow or fail, and runs over them.

use crate::forms::Ended;
use crate::lines::{LINES, replies, script};
use memchr::memchr;
use rh_defs::Files;
use rh_lines::Flagged;
use rh_run::{RunFault, run};
use std::alloc::Global;
use std::io::{self, Read, Write};

/// A reader that gives a byte a read, or a line, and fails once it has given `good` reads.
#[derive(Drop)]
pub(crate) struct Pieces<'a> {
    left: &'a [u8],
    good: usize,
    by_line: bool,
}

impl<'a> Pieces<'a> {
    pub(crate) fn new(left: &'a [u8], good: usize, by_line: bool) -> Pieces<'a> {
        Pieces {
            left,
            good,
            by_line,
        }
    }
}

impl Read for Pieces<'_> {
    fn read(&mut self, buf: &mut [u8]) -> io::Result<usize> {
        if self.good == 0 {
            return Err(io::Error::from(io::ErrorKind::Other));
        }
        self.good -= 1;
        let piece = match memchr(b'\n', self.left) {
            Some(feed) if self.by_line => feed + 1,
            _ => 1,
        };
        let n = piece.min(buf.len()).min(self.left.len());
        buf[..n].copy_from_slice(&self.left[..n]);
        self.left = &self.left[n..];
        Ok(n)
    }
}

/// A writer that takes `room` bytes, one a call, and then fails, or takes none.
#[derive(Drop)]
pub(crate) struct Narrow {
    taken: Vec<u8>,
    room: usize,
    fails: bool,
}

impl Narrow {
    pub(crate) fn new(alloc: Global, room: usize, fails: bool) -> Narrow {
        Narrow {
            taken: Vec::new(alloc),
            room,
            fails,
        }
    }
}

impl Write for Narrow {
    fn write(&mut self, buf: &[u8]) -> io::Result<usize> {
        if self.room == 0 {
            return if self.fails {
                Err(io::Error::from(io::ErrorKind::Other))
            } else {
                Ok(0)
            };
        }
        match buf.first() {
            Some(byte) => {
                self.taken.push(*byte)?;
                self.room -= 1;
                Ok(1)
            }
            None => Ok(0),
        }
    }

    fn flush(&mut self) -> io::Result<()> {
        Ok(())
    }
}

/// A reader that gives a line feed a read, `left` times.
#[derive(Drop)]
struct Feeds {
    left: u32,
}

impl Read for Feeds {
    fn read(&mut self, buf: &mut [u8]) -> io::Result<usize> {
        if self.left == 0 || buf.is_empty() {
            return Ok(0);
        }
        self.left -= 1;
        buf[0] = b'\n';
        Ok(1)
    }
}

/// What a writer has taken of a run over 64 pages, and how the run ended.
fn run_on<I: Read + Drop, O: Write>(alloc: Global, input: I, output: O) -> (O, Ended) {
    let mut reader = Flagged::new(input);
    let mut writer = Flagged::new(output);
    let ended = run(alloc, Files::new(alloc), &mut reader, &mut writer, 64);
    (writer.into_inner(), ended)
}

/// What a run writes whose script is read by such pieces, and how it ends.
pub(crate) fn slowly(alloc: Global, pieces: Pieces<'_>) -> (Vec<u8>, Ended) {
    run_on(alloc, pieces, Vec::<u8>::new(alloc))
}

/// What a narrow writer has taken of a script's run, and how the run ends.
pub(crate) fn narrowly(alloc: Global, script: &[u8], writer: Narrow) -> (Vec<u8>, Ended) {
    let (Narrow { taken, .. }, ended) = run_on(alloc, script, writer);
    (taken, ended)
}

/// Prints whether a run of one byte a read and a write writes all, and how scripts end of so many reads; and the text
/// of each fault of a run.
pub(crate) fn print_streams<W: Write>(alloc: Global, output: &mut W) -> io::Result<()> {
    let script = script(alloc)?;
    let wanted = replies(alloc, LINES.len())?;
    let (text, ended) = slowly(alloc, Pieces::new(script.as_slice(), 1000, false));
    writeln!(output, "slowly {} {ended:?}", text == wanted)?;
    let writer = Narrow::new(alloc, wanted.len(), true);
    let (text, ended) = narrowly(alloc, script.as_slice(), writer);
    writeln!(output, "narrowly {} {ended:?}", text == wanted)?;
    for left in [999_999, 1_000_000] {
        let (text, ended) = run_on(alloc, Feeds { left }, Vec::<u8>::new(alloc));
        writeln!(output, "{left} reads: {} bytes, {ended:?}", text.len())?;
    }
    for fault in FAULTS {
        writeln!(output, "{fault}")?;
    }
    Ok(())
}

const FAULTS: [RunFault; 4] = [
    RunFault::NoMemory,
    RunFault::ReadFailed,
    RunFault::WriteFailed,
    RunFault::TooLong,
];
