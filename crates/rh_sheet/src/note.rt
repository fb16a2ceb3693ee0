//! What is kept of a message for the chart of the last ones.

use rh_defs::Action;

/// What has become of a message.
#[derive(Clone, Copy, Debug, PartialEq, Eq)]
pub enum Fate {
    /// It waits for its recipient.
    Queued,
    /// Its recipient took it, and it wants no answer.
    Taken,
    /// Its recipient took it, and holds it until it answers or polls again.
    Held,
    /// Its recipient took it, and answered.
    Answered,
    /// It came back, and waits for its sender.
    Back,
    /// It came back, and its sender took it.
    Returned,
    /// It is gone, and nobody took it, or nobody took it back.
    Vanished,
}

/// A message by its ref, the handles of its tasks, its action and whether it wants an answer; its fate; and the steps
/// at which it was sent, came to the end of its way out, went back, and came to its end: 0 for what didn't happen yet.
#[derive(Clone, Copy)]
pub struct Note {
    pub my_ref: u32,
    pub from: u32,
    pub to: u32,
    pub action: Action,
    pub wants_answer: bool,
    pub fate: Fate,
    pub sent: u32,
    pub reached: u32,
    pub back: u32,
    pub ended: u32,
}

impl Default for Note {
    /// No message, as refs count up from 1.
    fn default() -> Note {
        Note {
            my_ref: 0,
            from: 0,
            to: 0,
            action: Action::DataSave,
            wants_answer: false,
            fate: Fate::Queued,
            sent: 0,
            reached: 0,
            back: 0,
            ended: 0,
        }
    }
}

/// Where a message is behind a step: the event code under which it waits, 0 for none; whether a task holds it; whether
/// the step's letter answers it; and whether the task that it was for is live.
#[derive(Clone, Copy)]
pub struct Whereabouts {
    pub code: u32,
    pub held: bool,
    pub answered: bool,
    pub live: bool,
}
