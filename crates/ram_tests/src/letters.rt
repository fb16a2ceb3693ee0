//! The letters of the actions that were asked for last.

use crate::answer::shown;
use crate::receiving::Receiving;
use crate::row::Row;
use crate::sending::Sending;
use rh_defs::{Letter, Next, Pathname, SendAction, TakeAction};
use rh_ram::{
    ack_letter, fetch_letter, first_fetch, load_ack_letter, load_letter, part, save_letter,
    transmit_letter,
};
use std::alloc::Global;

/// The letter that a row asks for, as text.
pub(crate) fn letter(
    alloc: Global,
    sending: &Sending,
    receiving: &Receiving,
    row: &Row<'_>,
) -> Option<String> {
    let word = row.word(1)?;
    let letter = match word {
        "save" => {
            let name = Pathname::new(row.word(5)?.as_bytes())?;
            save_letter(row.handle(2)?, row.handle(3)?, row.number(4)?, name)
        }
        "transmit" | "load" => sent(sending, word, row)?,
        _ => taken(receiving, word, row)?,
    };
    shown(alloc, letter)
}

/// The letter of a sender's action.
fn sent(sending: &Sending, word: &str, row: &Row<'_>) -> Option<Letter> {
    let from = row.handle(2)?;
    match (word, sending.action()?) {
        ("transmit", SendAction::Transmit(action)) => {
            let part = part(&action, row.number(3)?);
            Some(transmit_letter(from, &action, &part))
        }
        ("load", SendAction::SaveFile(action)) => {
            Some(load_letter(from, &action, row.number(3)?))
        }
        _ => None,
    }
}

/// The letter of a receiver's action.
fn taken(receiving: &Receiving, word: &str, row: &Row<'_>) -> Option<Letter> {
    let from = row.handle(2)?;
    match (word, receiving.action()?) {
        ("fetch", TakeAction::Claim(claim)) => {
            let fetch = first_fetch(&claim, row.number(3)?, row.number(4)?);
            Some(fetch_letter(from, &fetch))
        }
        ("fetch", TakeAction::Append(append)) => match append.next {
            Next::Fetch(fetch) => Some(fetch_letter(from, &fetch)),
            Next::Finish => None,
        },
        ("ack", TakeAction::AskForFile(taking)) => Some(ack_letter(from, &taking)),
        ("load_ack", TakeAction::LoadFile(load)) => {
            Some(load_ack_letter(from, &load, row.number(3)?))
        }
        _ => None,
    }
}
