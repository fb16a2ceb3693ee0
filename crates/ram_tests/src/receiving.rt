//! Calls of a receiver, and the action that it asked for last.

use crate::answer::shown;
use crate::row::Row;
use crate::sending::wanted;
use rh_defs::{Append, Claim, Fetch, Next, TakeAction, Taking};
use rh_ram::{Receiver, first_fetch};
use std::alloc::Global;

/// A receiver, and the action that the last event answered or a row named.
#[derive(Drop)]
pub(crate) struct Receiving {
    receiver: Receiver,
    action: Option<TakeAction>,
}

impl Receiving {
    pub(crate) fn new() -> Receiving {
        Receiving {
            receiver: Receiver::new(),
            action: None,
        }
    }

    pub(crate) fn action(&self) -> Option<TakeAction> {
        self.action
    }

    /// What the call of a row answers.
    pub(crate) fn call(&mut self, alloc: Global, row: &Row<'_>) -> Option<String> {
        let word = row.word(1)?;
        match word {
            "on_save" | "on_transmit" | "on_bounce" | "on_load" => {
                self.action = self.event(word, row)?;
                shown(alloc, self.action)
            }
            "claim" | "ask" | "append" => {
                self.action = Some(named(word, row)?);
                shown(alloc, self.action)
            }
            "fetching" | "taken" | "fetched" | "finished" | "asking" | "loaded" | "failed" => {
                self.tell(alloc, word, row)
            }
            "cancel" => shown(alloc, self.receiver.cancel(wanted(row))),
            "on_ack_bounce" => shown(alloc, self.receiver.on_ack_bounce(row.message(2)?)),
            _ => self.ask(alloc, word, row),
        }
    }

    /// What an event asks for.
    fn event(&self, word: &str, row: &Row<'_>) -> Option<Option<TakeAction>> {
        match word {
            "on_save" => {
                let is_deaf = row.word(4) == Some("deaf");
                Some(
                    self.receiver
                        .on_save(is_deaf, row.handle(2)?, row.message(3)?),
                )
            }
            "on_transmit" => Some(
                self.receiver.on_transmit(
                    row.number(2)?,
                    row.handle(3)?,
                    row.message(4)?,
                    row.message(5)?,
                    row.number(6)?,
                    row.number(7)?,
                ),
            ),
            "on_bounce" => Some(self.receiver.on_bounce(row.message(2)?)),
            "on_load" => {
                let (my_ref, your_ref) = (row.message(3)?, row.message(4)?);
                Some(self.receiver.on_load(row.handle(2)?, my_ref, your_ref))
            }
            _ => None,
        }
    }

    /// Tells how the last action ended.
    fn tell(&mut self, alloc: Global, word: &str, row: &Row<'_>) -> Option<String> {
        let action = self.action?;
        let told = match (word, action) {
            ("fetching", TakeAction::Claim(claim)) => {
                let (anchor, buffer) = (row.anchor(2)?, row.number(3)?);
                self.receiver
                    .fetching(&claim, anchor, buffer, row.message(4)?)
            }
            ("taken", TakeAction::Append(append)) => match append.next {
                Next::Fetch(_) => self.receiver.fetched(&append, row.message(2)?),
                Next::Finish => self.receiver.finished(&append),
            },
            ("fetched", TakeAction::Append(append)) => {
                self.receiver.fetched(&append, row.message(2)?)
            }
            ("finished", TakeAction::Append(append)) => self.receiver.finished(&append),
            ("asking", TakeAction::AskForFile(taking)) => {
                self.receiver.asking(&taking, row.message(2)?)
            }
            ("loaded", TakeAction::LoadFile(load)) => self.receiver.loaded(&load, row.number(2)?),
            ("failed", action) => self.receiver.failed(&action, row.number(2)?),
            _ => return None,
        };
        shown(alloc, told)
    }

    /// Asks what changes nothing.
    fn ask(&self, alloc: Global, word: &str, row: &Row<'_>) -> Option<String> {
        match word {
            "records" => shown(alloc, self.receiver.records()),
            "is_document" => shown(alloc, self.receiver.is_document(row.anchor(2)?)),
            "is_buffer_of" => shown(alloc, self.receiver.is_buffer_of(row.number(2)?)),
            "opens" => shown(alloc, self.opens(row)?),
            "released" => shown(alloc, self.receiver.released_buffer(wanted(row))),
            "fetch" => shown(alloc, self.fetch(row)?),
            _ => None,
        }
    }

    /// Whether a transfer of a row's task fetches into a buffer of so much room that has the bytes of the row.
    fn opens(&self, row: &Row<'_>) -> Option<bool> {
        let (from, room) = (row.handle(2)?, row.number(3)?);
        Some(
            self.receiver
                .opens(from, room, row.number(4)?, row.number(5)?),
        )
    }

    /// The fetch that follows on the action, a first one into the buffer of a row.
    fn fetch(&self, row: &Row<'_>) -> Option<Fetch> {
        match self.action? {
            TakeAction::Claim(claim) => {
                Some(first_fetch(&claim, row.number(2)?, row.number(3)?))
            }
            TakeAction::Append(append) => match append.next {
                Next::Fetch(fetch) => Some(fetch),
                Next::Finish => None,
            },
            _ => None,
        }
    }
}

/// An action that a row names, whether or not it is due.
fn named(word: &str, row: &Row<'_>) -> Option<TakeAction> {
    match word {
        "claim" => Some(TakeAction::Claim(Claim {
            id: row.message(2)?,
            sender: row.handle(3)?,
            raw: row.word(4) == Some("raw"),
        })),
        "ask" => Some(TakeAction::AskForFile(transfer(row)?)),
        "append" => Some(TakeAction::Append(Append {
            transfer: transfer(row)?,
            n: row.number(8)?,
            next: Next::Finish,
        })),
        _ => None,
    }
}

/// A transfer as a row names it.
fn transfer(row: &Row<'_>) -> Option<Taking> {
    Some(Taking {
        id: row.message(2)?,
        sender: row.handle(3)?,
        anchor: row.anchor(4)?,
        buffer: row.number(5)?,
        count: row.number(6)?,
        fetch: row.message(7)?,
        raw: row.word(9) == Some("raw"),
    })
}
