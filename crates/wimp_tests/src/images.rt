//! Rows about the bytes of messages, and what changed bytes spell.

use crate::answer::shown;
use crate::bodies::{body, spelled};
use crate::row::Row;
use rh_defs::{Body, FileData, Handle, Message, MessageFault, Pathname, Ref};
use rh_wimp::{decode, decode_any, encode, read_body};
use std::alloc::Global;

/// The bytes of the longest message.
const LONGEST: usize = 256;

/// The DataSave of 48 bytes that task 1 sends under ref 1: 5 bytes of type &FFD, named `doc`.
const DATA_SAVE: [u8; 48] = [
    0x30, 0, 0, 0, 1, 0, 0, 0, 1, 0, 0, 0, 0, 0, 0, 0, 1, 0, 0, 0, 0, 0, 0, 0, 0, 0, 0, 0, 0, 0, 0,
    0, 0, 0, 0, 0, 5, 0, 0, 0, 0xfd, 0x0f, 0, 0, 0x64, 0x6f, 0x63, 0,
];

/// What a row answers: the bytes of a message, or what bytes spell.
pub(crate) fn call(alloc: Global, row: &Row<'_>) -> Option<String> {
    match row.word(0)? {
        "decode" => shown(
            alloc,
            decode(spelled(alloc, row.word(1).unwrap_or(""))?.as_slice()),
        ),
        "decode_any" => any_told(alloc, spelled(alloc, row.word(1).unwrap_or(""))?.as_slice()),
        "read" => told(
            alloc,
            &Message {
                from: Handle(1),
                my_ref: Ref(1),
                your_ref: Ref(0),
                body: read_body(body(alloc, row, 1)?),
            },
        ),
        "long" => named(alloc, row.size(1)?),
        "holed" => shown(alloc, Pathname::new(b"a\0b").is_none()),
        "each_byte_changed" => shown(alloc, each_byte_changed()?),
        "other" => told(
            alloc,
            &Message {
                from: Handle(row.number(1)?),
                my_ref: Ref(row.number(2)?),
                your_ref: Ref(row.number(3)?),
                body: body(alloc, row, 4)?,
            },
        ),
        word => encoded(alloc, &message(word, row)?),
    }
}

/// A file of this desk: no place, and type &FFD.
fn file(size: u32, name: &[u8]) -> Option<FileData> {
    Some(FileData {
        window: 0,
        icon: 0,
        x: 0,
        y: 0,
        size,
        file_type: 0xffd,
        name: Pathname::new(name)?,
    })
}

/// The message of a row: its sender, its ref, the ref that it answers, and two numbers, or a size and a name.
fn message(word: &str, row: &Row<'_>) -> Option<Message> {
    let body = match word {
        "DataSave" => Body::DataSave(file(row.number(4)?, row.word(5)?.as_bytes())?),
        "DataSaveAck" => Body::DataSaveAck(file(row.number(4)?, row.word(5)?.as_bytes())?),
        "RamFetch" => Body::RamFetch {
            buffer: row.number(4)?,
            length: row.number(5)?,
        },
        "RamTransmit" => Body::RamTransmit {
            buffer: row.number(4)?,
            written: row.number(5)?,
        },
        _ => return None,
    };
    Some(Message {
        from: Handle(row.number(1)?),
        my_ref: Ref(row.number(2)?),
        your_ref: Ref(row.number(3)?),
        body,
    })
}

/// The bytes of a message as hexadecimal digits; none where a byte behind them was written, or where they say another.
fn encoded(alloc: Global, message: &Message) -> Option<String> {
    let mut out = [255u8; LONGEST];
    let length = encode(message, &mut out);
    let (bytes, behind) = out.split_at(length);
    if behind.iter().any(|byte| *byte != 255) || decode_any(bytes).as_ref() != Ok(message) {
        return None;
    }
    // Only one of the six kinds is spelled by its bytes too.
    let is_kind = !matches!(message.body, Body::Other(_));
    if is_kind && decode(bytes).as_ref() != Ok(message) {
        return None;
    }
    let mut digits = String::new(alloc);
    for byte in bytes {
        let pair = format!(in alloc; "{byte:02x}").ok()?;
        digits.push_str(&pair).ok()?;
    }
    Some(digits)
}

/// A message's action, and its bytes.
pub(crate) fn told(alloc: Global, message: &Message) -> Option<String> {
    let action = message.body.action();
    let digits = encoded(alloc, message)?;
    format!(in alloc; "{action:?} {digits}").ok()
}

/// The message of any action that bytes are, or why they are none.
fn any_told(alloc: Global, bytes: &[u8]) -> Option<String> {
    match decode_any(bytes) {
        Ok(message) => told(alloc, &message),
        Err(fault) => shown(alloc, fault),
    }
}

/// The length of a DataLoad with a name of so many letters, and whether its bytes spell it; the name's refusal where it
/// has too many.
fn named(alloc: Global, letters: usize) -> Option<String> {
    if letters > LONGEST {
        return None;
    }
    let name = [b'x'; LONGEST];
    let Some(file) = file(5, &name[..letters]) else {
        return shown(alloc, "no name");
    };
    let load = Message {
        from: Handle(1),
        my_ref: Ref(1),
        your_ref: Ref(0),
        body: Body::DataLoad(file),
    };
    let mut out = [255u8; LONGEST];
    let length = encode(&load, &mut out);
    let same = decode(out.get(..length)?).as_ref() == Ok(&load);
    format!(in alloc; "{length} {same}").ok()
}

/// What a DataSave of 48 bytes gives where the byte at a place is this one: its length stands for no other message, a
/// known action has room, and the last byte ends the name.
fn fault_at(place: usize, byte: u8) -> Option<MessageFault> {
    match place {
        0 if byte != 48 => Some(MessageFault::BadLength),
        1..=3 if byte != 0 => Some(MessageFault::BadLength),
        16 if byte == 0 || byte == 5 || byte > 7 => Some(MessageFault::BadAction),
        17..=19 if byte != 0 => Some(MessageFault::BadAction),
        47 if byte != 0 => Some(MessageFault::BadLength),
        _ => None,
    }
}

/// How many DataSaves with one byte changed are told as they should be: all, or none.
fn each_byte_changed() -> Option<u32> {
    let mut told = 0u32;
    for place in 0..48usize {
        for byte in 0..=255u8 {
            let mut bytes = DATA_SAVE;
            bytes[place] = byte;
            if !is_told(&bytes, fault_at(place, byte)) {
                return None;
            }
            told = told.wrapping_add(1);
        }
    }
    Some(told)
}

/// Whether bytes have the fault, or else spell a message whose own bytes spell it too.
fn is_told(bytes: &[u8], fault: Option<MessageFault>) -> bool {
    match decode(bytes) {
        Err(found) => Some(found) == fault,
        Ok(message) => {
            let mut out = [0u8; LONGEST];
            let length = encode(&message, &mut out);
            fault.is_none() && length <= 48 && decode(&out) == Ok(message)
        }
    }
}
