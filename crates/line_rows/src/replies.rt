//! Bad lines, first lines of replies, and rows of text.

use rh_defs::sizes::LONGEST_DATA;
use rh_defs::{Action, EventCode, Handle, LineFault, Numbers, Outcome, Ref, Refusal, Reply};
use rh_lines::{
    Row, Sink, WriteFailed, WriterPen, add_number, print_fault, print_first_line, put,
    put_handed_line,
};

const FAULTS: [LineFault; 6] = [
    LineFault::TooLong,
    LineFault::Unended,
    LineFault::Unknown,
    LineFault::Count,
    LineFault::Word(5),
    LineFault::Word(255),
];

const REPLIES: [Reply; 20] = [
    Reply::Refused(Refusal::TooManyAreas),
    Reply::Refused(Refusal::WrongManner),
    Reply::Refused(Refusal::BadRef),
    Reply::Done,
    Reply::Started(Handle(4_294_967_295)),
    Reply::Block { address: 0x1800014 },
    Reply::Block {
        address: 0xFFFF_FFFF,
    },
    Reply::WasBudging(true),
    Reply::WasBudging(false),
    Reply::Sent(Ref(1)),
    Reply::Answering(Ref(0)),
    Reply::Answering(Ref(MOST)),
    Reply::Moved { bytes: 0 },
    Reply::Made { number: 256 },
    Reply::Answered(Numbers::Shown { size: 10 }),
    Reply::Answered(Numbers::BlockCount(64)),
    Reply::Answered(Numbers::HeapSums {
        length: 3840,
        largest: 3820,
        free: 3824,
    }),
    Reply::Answered(Numbers::StatusOf(Handle(2))),
    Reply::Answered(Numbers::FreePages(1022)),
    Reply::NoEvent,
];

const MOST: u32 = 4_294_967_295;

/// Events by their code, action, refs and outcome: of transfers by RAM, of ends, of transfers by file, and of tasks
/// with code of their own.
const EVENTS: [(EventCode, Action, u32, u32, Outcome); 17] = [
    (
        EventCode::Recorded,
        Action::DataSave,
        1,
        0,
        Outcome::Fetch(Ref(2)),
    ),
    (
        EventCode::Recorded,
        Action::RamFetch,
        2,
        1,
        Outcome::Sent {
            count: 100,
            transmit: Ref(3),
        },
    ),
    (
        EventCode::Recorded,
        Action::RamFetch,
        2,
        1,
        Outcome::Refused(Refusal::NoTask),
    ),
    (
        EventCode::Recorded,
        Action::RamTransmit,
        3,
        2,
        Outcome::TookFull {
            count: 100,
            fetch: Ref(4),
        },
    ),
    (
        EventCode::Recorded,
        Action::RamTransmit,
        3,
        2,
        Outcome::TookFailed {
            count: 5,
            refusal: Refusal::QueueFull,
        },
    ),
    (
        EventCode::Recorded,
        Action::RamTransmit,
        3,
        2,
        Outcome::Drained,
    ),
    (
        EventCode::User,
        Action::RamTransmit,
        3,
        2,
        Outcome::TookLast { count: 0 },
    ),
    (
        EventCode::Acknowledge,
        Action::DataSave,
        1,
        0,
        Outcome::Failed,
    ),
    (
        EventCode::Recorded,
        Action::DataSave,
        1,
        0,
        Outcome::Ignored,
    ),
    (
        EventCode::Acknowledge,
        Action::RamFetch,
        2,
        1,
        Outcome::Asked(Ref(3)),
    ),
    (
        EventCode::Recorded,
        Action::DataSaveAck,
        3,
        1,
        Outcome::Saved {
            count: 5,
            load: Ref(4),
        },
    ),
    (
        EventCode::Recorded,
        Action::DataLoad,
        4,
        3,
        Outcome::Loaded { count: 5 },
    ),
    (EventCode::User, Action::DataLoadAck, 5, 4, Outcome::Done),
    (
        EventCode::Recorded,
        Action::DataSaveAck,
        MOST,
        MOST,
        Outcome::LoadedFailed {
            count: MOST,
            refusal: Refusal::ExcessiveShrink,
        },
    ),
    (EventCode::User, Action::DataSave, 1, 0, Outcome::Taken),
    (EventCode::Recorded, Action::Other(0), 2, 1, Outcome::Taken),
    (
        EventCode::Acknowledge,
        Action::Other(MOST),
        MOST,
        MOST,
        Outcome::Taken,
    ),
];

/// Prints bad lines, first lines of replies, and rows.
pub(crate) fn print_replies<W: Sink>(output: &mut W) -> Result<(), WriteFailed> {
    for fault in FAULTS {
        print_fault(&fault, output)?;
    }
    for reply in REPLIES {
        print_first_line(&reply, output)?;
    }
    for (code, action, mine, yours, outcome) in EVENTS {
        let event = Reply::Event {
            code,
            action,
            my_ref: Ref(mine),
            your_ref: Ref(yours),
            outcome,
        };
        print_first_line(&event, output)?;
    }
    print_handed(output)?;
    print_rows(output)
}

/// Prints lines of messages that tasks are handed: with a word of data, with none, and with the most.
fn print_handed<W: Sink>(output: &mut W) -> Result<(), WriteFailed> {
    let mut pen = WriterPen::new(output, &mut []);
    put_handed_line(Handle(2), b"\x01\x23\xab\xff", &mut pen);
    put_handed_line(Handle(MOST), b"", &mut pen);
    put_handed_line(Handle(1), &[0x7f; LONGEST_DATA], &mut pen);
    pen.finish()
}

/// Prints a row of words, one of digits, and one that is a number.
fn print_rows<W: Sink>(output: &mut W) -> Result<(), WriteFailed> {
    let mut row = Row::new();
    row.text(b"  slot ");
    row.byte(b'9');
    row.byte(b' ');
    row.address(0x0380_9a4c);
    row.byte(b'\n');
    put(output, row.as_slice())?;
    for digits in [
        b"\x01\x23\x45\x67\x89\xab\xcd\xef".as_slice(),
        b"\x00~\xff",
        b"",
    ] {
        let mut row = Row::new();
        row.hex_digits(digits);
        put(output, row.as_slice())?;
        put(output, b"\n")?;
    }
    let mut row = Row::new();
    add_number(1_048_576, &mut row);
    put(output, row.as_slice())
}
