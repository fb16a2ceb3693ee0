//! Names, leafnames and files by name.

use arrayvec::ArrayVec;
use rh_defs::{Anchor, Command, Files, Leaf, Name, Question};
use std::alloc::Global;
use std::io::{self, Write};

/// Names, the first two of which have too few bytes and too many.
const NAMES: [&[u8]; 8] = [
    b"",
    b"abcdefghijklm",
    b"abcdefghijkl",
    b"a",
    b"Z9z",
    b"9a",
    b"a-b",
    b"a\xff",
];

const LEAVES: [&[u8]; 5] = [b"", b"abcdefghij", b"!a/b~", b"a b", b"a\x7f"];

/// Prints names, leafnames, of which task commands are, and which files are there.
pub(crate) fn print_values<W: Write>(alloc: Global, output: &mut W) -> io::Result<()> {
    for bytes in NAMES {
        print_name(bytes, output)?;
    }
    for bytes in LEAVES {
        let leaf = leaf_of(bytes);
        let is_same = leaf.as_slice() == bytes;
        writeln!(output, "leaf {is_same} {}", leaf.is_valid())?;
    }
    print_owners(output)?;
    print_files(alloc, output)
}

/// Prints whether these bytes are a name, whether it has them and equals its copy, and whether it is a script's.
fn print_name<W: Write>(bytes: &[u8], output: &mut W) -> io::Result<()> {
    match Name::new(bytes) {
        None => writeln!(output, "no name"),
        Some(name) => {
            let is_same = name.as_bytes() == bytes && name.copied() == name;
            writeln!(output, "name {is_same} {}", name.is_valid())
        }
    }
}

/// The leafname with these bytes, 10 at most.
pub(crate) fn leaf_of(bytes: &[u8]) -> Leaf {
    let mut letters = ArrayVec::new();
    let _fits = letters.try_extend_from_slice(bytes);
    Leaf::new(letters)
}

/// Prints the task that each of these commands is about.
fn print_owners<W: Write>(output: &mut W) -> io::Result<()> {
    let (Some(ada), Some(bea)) = (Name::new(b"ada"), Name::new(b"bea")) else {
        return Ok(());
    };
    for command in [
        Command::Poll { name: ada.copied() },
        Command::Save {
            name: ada.copied(),
            anchor: Anchor(0),
            to: bea,
            leaf: leaf_of(b"doc"),
        },
        Command::Ask(Question::Status { name: ada }),
        Command::Make { most: 1 },
        Command::RmaClaim { size: 1 },
        Command::Ask(Question::Areas),
    ] {
        writeln!(output, "owner {:?}", command.task_name())?;
    }
    Ok(())
}

/// Prints which of three files are there where two were added.
fn print_files<W: Write>(alloc: Global, output: &mut W) -> io::Result<()> {
    let (Some(f), Some(g), Some(h)) = (Name::new(b"f"), Name::new(b"g"), Name::new(b"h")) else {
        return Ok(());
    };
    let mut files = Files::new(alloc);
    for name in [&f, &g] {
        if !files.contains(name) {
            files.insert(name.copied(), Vec::new(alloc))?;
        }
    }
    for name in [&f, &g, &h] {
        writeln!(output, "file {}", files.contains(name))?;
    }
    Ok(())
}
