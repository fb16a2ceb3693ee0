//! A file that one task hands to another by a sender and a receiver alone.

ghost use Rattle.std.specs.Prelude.{◌<◌, ◌≤◌};

use callers::hand_over;
use std::alloc::Global;
use std::io::{self, Write};

/// The bytes of a file, of which the first ones are handed over.
const BYTES: [u8; 20] = [
    11, 12, 13, 14, 15, 16, 17, 18, 19, 20, 21, 22, 23, 24, 25, 26, 27, 28, 29, 30,
];

/// The bytes of the longest buffer.
const ROOM: usize = 8;

/// How many bytes are handed over, and through a buffer of how many: several buffers, one and more that are just full,
/// an empty file, and one with room left.
const WAYS: [(usize, usize); 6] = [(20, 8), (5, 1), (8, 8), (16, 8), (0, 8), (7, 8)];

/// Prints the document that comes of each way, with zeros behind what was handed over, and the last record of each
/// side.
pub(crate) fn print_handed_over<W: Write>(alloc: Global, output: &mut W) -> io::Result<()> {
    for (size, room) in WAYS {
        print_way(alloc, size.min(BYTES.len()), room.clamp(1, ROOM), output)?;
    }
    Ok(())
}

fn print_way<W: Write>(alloc: Global, size: usize, room: usize, output: &mut W) -> io::Result<()>
    requires size { size ≤ 20 }
    requires some { 0 < room }
    requires room { room ≤ 8 }
{
    let source = BYTES;
    let mut buffer = [0; ROOM];
    let mut document = [0; BYTES.len()];
    let (sender, receiver) = hand_over(
        alloc,
        &source[..size],
        &mut buffer[..room],
        &mut document[..size],
    )?;
    let sent = sender.records().first().copied();
    let taken = receiver.records().first().copied();
    writeln!(output, "{document:?} {sent:?} {taken:?}")
}
