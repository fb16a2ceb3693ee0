//! Refusals and faults as text.

use rh_defs::{HeapFault, HeapRefusal, LineFault, MessageFault, Refusal};
use rh_lines::{ReadFailed, WriteFailed};
use std::fmt::Display;
use std::io::{self, Write};

const REFUSALS: [Refusal; 24] = [
    Refusal::NameInUse,
    Refusal::NoName,
    Refusal::TooManyTasks,
    Refusal::NoHandles,
    Refusal::NoFile,
    Refusal::NoBlock,
    Refusal::AnchorInUse,
    Refusal::NotABlock,
    Refusal::NotYours,
    Refusal::Busy,
    Refusal::NotOpen,
    Refusal::NothingSent,
    Refusal::BadRange,
    Refusal::BadSize,
    Refusal::ExcessiveShrink,
    Refusal::NoTask,
    Refusal::NoRefs,
    Refusal::QueueFull,
    Refusal::NoBudge,
    Refusal::NoRoom,
    Refusal::NoArea,
    Refusal::TooManyAreas,
    Refusal::NoNumbers,
    Refusal::TooBig,
];

const LINE_FAULTS: [LineFault; 5] = [
    LineFault::TooLong,
    LineFault::Unended,
    LineFault::Unknown,
    LineFault::Count,
    LineFault::Word(3),
];

const HEAP_REFUSALS: [HeapRefusal; 4] = [
    HeapRefusal::NotABlock,
    HeapRefusal::BadSize,
    HeapRefusal::NoRoom,
    HeapRefusal::ExcessiveShrink,
];

const HEAP_FAULTS: [HeapFault; 3] = [
    HeapFault::BadDescriptor,
    HeapFault::BadLink,
    HeapFault::BadSize,
];

const MESSAGE_FAULTS: [MessageFault; 2] = [MessageFault::BadLength, MessageFault::BadAction];

/// Prints each refusal and each fault on a line of its own.
pub(crate) fn print_texts<W: Write>(output: &mut W) -> io::Result<()> {
    print_each(&REFUSALS, output)?;
    print_each(&LINE_FAULTS, output)?;
    print_each(&HEAP_REFUSALS, output)?;
    print_each(&HEAP_FAULTS, output)?;
    print_each(&MESSAGE_FAULTS, output)?;
    print_each(&[ReadFailed], output)?;
    print_each(&[WriteFailed], output)
}

fn print_each<T: Display, W: Write>(values: &[T], output: &mut W) -> io::Result<()> {
    for value in values {
        writeln!(output, "{value}")?;
    }
    Ok(())
}
