//! Calls of a sender, and the action that it asked for last.

use crate::answer::shown;
use crate::row::Row;
use rh_defs::{Ref, SendAction, Transmit};
use rh_ram::{Sender, part};
use std::alloc::Global;

/// A sender, and the action that the last event answered or a row named.
#[derive(Drop)]
pub(crate) struct Sending {
    sender: Sender,
    action: Option<SendAction>,
}

impl Sending {
    pub(crate) fn new() -> Sending {
        Sending {
            sender: Sender::new(),
            action: None,
        }
    }

    /// The transmit that was asked for last.
    pub(crate) fn transmit(&self) -> Option<Transmit> {
        match self.action? {
            SendAction::Transmit(transmit) => Some(transmit),
            _ => None,
        }
    }

    pub(crate) fn action(&self) -> Option<SendAction> {
        self.action
    }

    /// What the call of a row answers.
    pub(crate) fn call(&mut self, alloc: Global, row: &Row<'_>) -> Option<String> {
        let word = row.word(1)?;
        match word {
            "on_fetch" | "on_ack" | "on_load_ack" => {
                self.action = self.event(word, row)?;
                shown(alloc, self.action)
            }
            "sent" | "saved" | "loaded" | "failed" => self.tell(alloc, word, row),
            "records" | "is_full" | "is_source" | "part" => self.ask(alloc, word, row),
            _ => self.change(alloc, word, row),
        }
    }

    /// What an event asks for.
    fn event(&self, word: &str, row: &Row<'_>) -> Option<Option<SendAction>> {
        let from = row.handle(2)?;
        match word {
            "on_fetch" => Some(
                self.sender.on_fetch(
                    from,
                    row.message(3)?,
                    row.message(4)?,
                    row.number(5)?,
                    row.number(6)?,
                ),
            ),
            "on_ack" => Some(self.sender.on_ack(from, row.message(3)?, row.message(4)?)),
            "on_load_ack" => Some(self.sender.on_load_ack(from, row.message(3)?)),
            _ => None,
        }
    }

    /// Tells how the last action ended.
    fn tell(&mut self, alloc: Global, word: &str, row: &Row<'_>) -> Option<String> {
        let action = self.action?;
        let told = match (word, action) {
            ("sent", SendAction::Transmit(action)) => {
                self.sender.sent(&action, row.number(2)?, row.message(3)?)
            }
            ("saved", SendAction::SaveFile(action)) => {
                self.sender.saved(&action, row.message(2)?)
            }
            ("loaded", SendAction::Finish(transfer)) => {
                self.sender.loaded(&transfer, row.number(2)?)
            }
            ("failed", action) => self.sender.failed(&action),
            _ => return None,
        };
        shown(alloc, told)
    }

    /// Asks what changes nothing.
    fn ask(&self, alloc: Global, word: &str, row: &Row<'_>) -> Option<String> {
        match word {
            "records" => shown(alloc, self.sender.records()),
            "is_full" => shown(alloc, self.sender.is_full()),
            "is_source" => shown(alloc, self.sender.is_source(row.anchor(2)?)),
            "part" => shown(alloc, part(&self.transmit()?, row.number(2)?)),
            _ => None,
        }
    }

    /// Offers, bounces and cancels, which ask for nothing.
    fn change(&mut self, alloc: Global, word: &str, row: &Row<'_>) -> Option<String> {
        match word {
            "offer" => {
                let (id, recipient, anchor) = (row.message(2)?, row.handle(3)?, row.anchor(4)?);
                shown(alloc, self.sender.offer(id, recipient, anchor))
            }
            "offered" => {
                let (id, recipient, anchor) = (row.message(2)?, row.handle(3)?, row.anchor(4)?);
                if self.sender.is_full() {
                    return None;
                }
                self.sender.offered(id, recipient, anchor);
                shown(alloc, ())
            }
            "on_bounce" => shown(alloc, self.sender.on_bounce(row.message(2)?)),
            "cancel" => shown(alloc, self.sender.cancel(wanted(row))),
            _ => None,
        }
    }
}

/// The transfer that a cancel is about, none where the row ends there.
pub(crate) fn wanted(row: &Row<'_>) -> Option<Ref> {
    row.message(2)
}
