//! Commands in their ranges and beyond.

use arrayvec::ArrayVec;
use rh_defs::{Anchor, Bytes, Command, Manner, Name, Question};
use std::io::{self, Write};

/// Prints of commands whether they are in range.
pub(crate) fn print_ranges<W: Write>(output: &mut W) -> io::Result<()> {
    let Some(a) = Name::new(b"a") else {
        return Ok(());
    };
    print_blocks(&a, output)?;
    for buffer in [0, 1, 65_536, 65_537] {
        let task = Command::Task {
            name: a.copied(),
            buffer,
            manner: Manner::Plain,
        };
        print_range(&task, output)?;
    }
    print_areas(output)
}

/// Prints a command's range.
fn print_range<W: Write>(command: &Command, output: &mut W) -> io::Result<()> {
    writeln!(output, "{command:?} {}", command.in_range())
}

/// Ranges of commands on flex blocks, and of anchors.
fn print_blocks<W: Write>(a: &Name, output: &mut W) -> io::Result<()> {
    for (number, size) in [(63, 2_147_483_647), (64, 1), (0, 2_147_483_648)] {
        let anchor = Anchor(number);
        writeln!(output, "{anchor:?} {}", anchor.is_valid())?;
        let name = a.copied();
        print_range(&Command::Alloc { name, anchor, size }, output)?;
    }
    for number in [0, 63, 64, 255] {
        let show = Question::Show {
            name: a.copied(),
            anchor: Anchor(number),
        };
        print_range(&Command::Ask(show), output)?;
    }
    let none = Bytes::new(ArrayVec::new());
    writeln!(output, "{} bytes", none.as_slice().len())?;
    let put = Command::Put {
        name: a.copied(),
        anchor: Anchor(0),
        offset: 0,
        bytes: none,
    };
    print_range(&put, output)
}

/// Ranges of commands on areas.
fn print_areas<W: Write>(output: &mut W) -> io::Result<()> {
    print_range(&Command::Ask(Question::Areas), output)?;
    for most in [0, 1, 1024, 1025] {
        print_range(&Command::Make { most }, output)?;
    }
    for number in [5, 256, 65_535, 65_536] {
        print_range(&Command::Remove { number }, output)?;
    }
    for delta in [i32::MIN, -2_147_483_647, i32::MAX] {
        print_range(&Command::Area { number: 6, delta }, output)?;
    }
    Ok(())
}
