//! Readers and writers of which some are short, or fail.

use arrayvec::ArrayVec;
use rh_defs::LineFault;
use rh_lines::{Flagged, Pen, Sink, Source, WriterPen, print_fault};
use std::alloc::Global;
use std::io::{self, Read, Write};

/// Prints what is read and written.
pub(crate) fn print_streams<W: Write>(alloc: Global, output: &mut W) -> io::Result<()> {
    print_reads(b"areas\nab".as_slice(), 4, output)?;
    print_reads(Broken { calls: 0 }, 4, output)?;
    print_lengths(alloc, output)?;
    for room in 0..12 {
        for fails in [false, true] {
            print_narrow(room, fails, output)?;
        }
    }
    print_pen(output)
}

/// Prints what so many reads of at most 6 bytes answer, and the bytes that each gives.
fn print_reads<R: Read + Drop, W: Write>(input: R, reads: usize, output: &mut W) -> io::Result<()> {
    let mut reader = Flagged::new(input);
    for _read in 0..reads {
        let mut buffer = [0; 6];
        let read = reader.read(&mut buffer);
        let given = buffer.get(..read.unwrap_or(0));
        writeln!(output, "{read:?} {given:?}")?;
    }
    Ok(())
}

/// Prints how many lengths were written and read whole, and how many of them were not.
fn print_lengths<W: Write>(alloc: Global, output: &mut W) -> io::Result<()> {
    let bytes = [7; 2048];
    let mut wrong = 0u32;
    for len in 0..2049usize {
        let mut writer = Flagged::new(Vec::<u8>::new(alloc));
        let mut buffer = [0; 2048];
        let wrote = writer.write(&bytes[..len]);
        let read = Flagged::new(&bytes[..len]).read(&mut buffer);
        let is_well = wrote == Ok(len) && read == Ok(len) && buffer[..len] == bytes[..len];
        wrong = wrong.saturating_add(u32::from(!is_well));
    }
    writeln!(output, "2049 lengths, {wrong} differ")
}

/// Takes a byte a call until it is full, and then fails or takes none.
#[derive(Drop)]
struct Narrow {
    taken: ArrayVec<u8, 16>,
    room: usize,
    fails: bool,
}

impl Write for Narrow {
    fn write(&mut self, bytes: &[u8]) -> io::Result<usize> {
        if self.taken.len() >= self.room {
            return if self.fails {
                Err(io::Error::from(io::ErrorKind::Interrupted))
            } else {
                Ok(0)
            };
        }
        match bytes {
            [first, ..] => {
                let _fits = self.taken.try_push(*first);
                Ok(1)
            }
            [] => Ok(0),
        }
    }

    fn flush(&mut self) -> io::Result<()> {
        Ok(())
    }
}

/// Prints how a line of 11 bytes is written where there is so much room, and what was taken of it.
fn print_narrow<W: Write>(room: usize, fails: bool, output: &mut W) -> io::Result<()> {
    let mut writer = Flagged::new(Narrow {
        taken: ArrayVec::new(),
        room,
        fails,
    });
    let printed = print_fault(&LineFault::Word(3), &mut writer);
    let narrow = writer.into_inner();
    write!(output, "{room} {fails} {printed:?} ")?;
    output.write_all(narrow.taken.as_slice())?;
    output.write_all(b"|\n")
}

/// Gives a byte a call, and fails once at the third.
#[derive(Drop)]
struct Broken {
    calls: u8,
}

impl Read for Broken {
    fn read(&mut self, buffer: &mut [u8]) -> io::Result<usize> {
        self.calls = self.calls.saturating_add(1);
        if self.calls == 3 {
            return Err(io::Error::from(io::ErrorKind::Interrupted));
        }
        match buffer {
            [first, ..] => {
                *first = self.calls;
                Ok(1)
            }
            [] => Ok(0),
        }
    }
}

/// Takes all that it is offered, and notes how many bytes each call had.
#[derive(Drop)]
struct Calls {
    lengths: ArrayVec<usize, 16>,
}

impl Write for Calls {
    fn write(&mut self, bytes: &[u8]) -> io::Result<usize> {
        let _fits = self.lengths.try_push(bytes.len());
        Ok(bytes.len())
    }

    fn flush(&mut self) -> io::Result<()> {
        Ok(())
    }
}

/// Prints how many bytes a pen with room for four offers at a time.
fn print_pen<W: Write>(output: &mut W) -> io::Result<()> {
    let mut writer = Flagged::new(Calls {
        lengths: ArrayVec::new(),
    });
    let mut room = [0; 4];
    let mut pen = WriterPen::new(&mut writer, &mut room);
    pen.put(b"ab");
    pen.put(b"cd");
    pen.put(b"e");
    pen.put(b"fghijkl");
    pen.put(b"m");
    let finished = pen.finish();
    let calls = writer.into_inner();
    writeln!(output, "{finished:?} {:?}", calls.lengths.as_slice())
}
