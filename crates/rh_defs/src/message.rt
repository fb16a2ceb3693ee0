//! Messages: what a task sends, and what a poll hands out.

ghost use Rattle.std.specs.Prelude.{◌≡◌};
ghost use Rattle.rh_defs.specs.Messages.{action_at, action_named, action_number, action_of, code_at, code_number};
ghost use Rattle.rh_defs.specs.Messages.{is_recorded};

use crate::ids::{Handle, Ref};
use crate::other_body::OtherBody;
use crate::pathname::Pathname;
use thiserror::Error;

/// The event under which a message is handed out.
#[derive(Clone, Copy, Debug, PartialEq, Eq)]
pub enum EventCode {
    /// A message that wants no answer (User_Message, 17).
    User,
    /// A message that comes back if it isn't answered (User_Message_Recorded, 18).
    Recorded,
    /// A recorded message that came back (User_Message_Acknowledge, 19).
    Acknowledge,
}

impl EventCode {
    /// The code's number.
    pub fn number(self) -> u32
        ensures { result ≡ code_number self }
    {
        match self {
            EventCode::User => 17,
            EventCode::Recorded => 18,
            EventCode::Acknowledge => 19,
        }
    }

    /// The code with a number, none for all but 17, 18 and 19.
    pub fn from_number(number: u32) -> Option<EventCode>
        ensures { result ≡ code_at number }
    {
        match number {
            17 => Some(EventCode::User),
            18 => Some(EventCode::Recorded),
            19 => Some(EventCode::Acknowledge),
            _ => None,
        }
    }

    /// Whether a message under this code wants an answer: it is held until it has one, or comes back.
    pub fn is_recorded(self) -> bool
        ensures { result ≡ is_recorded self }
    {
        match self {
            EventCode::User => false,
            EventCode::Recorded => true,
            EventCode::Acknowledge => false,
        }
    }
}

/// What a message asks for.
#[derive(Clone, Copy, Debug, PartialEq, Eq)]
pub enum Action {
    /// To take a file (Message_DataSave, 1).
    DataSave,
    /// To save it as a file of a name (Message_DataSaveAck, 2).
    DataSaveAck,
    /// To load that file (Message_DataLoad, 3).
    DataLoad,
    /// Nothing more: the file was loaded (Message_DataLoadAck, 4).
    DataLoadAck,
    /// To write bytes into a buffer (Message_RAMFetch, 6).
    RamFetch,
    /// To take the bytes from the buffer (Message_RAMTransmit, 7).
    RamTransmit,
    /// Something else, by its number; or one of these, where its data is too short for it.
    Other(u32),
}

impl Action {
    /// The action's number in a message block.
    pub fn number(self) -> u32
        ensures { result ≡ action_number self }
    {
        match self {
            Action::DataSave => 1,
            Action::DataSaveAck => 2,
            Action::DataLoad => 3,
            Action::DataLoadAck => 4,
            Action::RamFetch => 6,
            Action::RamTransmit => 7,
            Action::Other(number) => number,
        }
    }

    /// The action with a number, none where it isn't one of the six.
    pub fn from_number(number: u32) -> Option<Action>
        ensures { result ≡ action_at number }
    {
        match number {
            1 => Some(Action::DataSave),
            2 => Some(Action::DataSaveAck),
            3 => Some(Action::DataLoad),
            4 => Some(Action::DataLoadAck),
            6 => Some(Action::RamFetch),
            7 => Some(Action::RamTransmit),
            _ => None,
        }
    }

    /// The action with a number: one of the six, or another.
    pub fn named(number: u32) -> Action
        ensures { result ≡ action_named number }
    {
        Action::from_number(number).unwrap_or(Action::Other(number))
    }
}

/// What the messages about a file say: where it is dropped (window, icon and place, all 0 in this desk's own messages),
/// its size in bytes, its type (&FFD there), and its name.
#[derive(Debug, Drop, PartialEq, Eq)]
pub struct FileData {
    pub window: u32,
    pub icon: u32,
    pub x: u32,
    pub y: u32,
    pub size: u32,
    pub file_type: u32,
    pub name: Pathname,
}

impl FileData {
    /// The data of the file once more, which takes no memory.
    pub fn copied(&self) -> FileData
        ensures { result ≡ self.now }
    {
        FileData {
            window: self.window,
            icon: self.icon,
            x: self.x,
            y: self.y,
            size: self.size,
            file_type: self.file_type,
            name: self.name.copied(),
        }
    }
}

/// What a message says: its action and data.
#[derive(Debug, Drop, PartialEq, Eq)]
pub enum Body {
    /// A file is offered.
    DataSave(FileData),
    /// The offer is taken, by way of a file of this name.
    DataSaveAck(FileData),
    /// The file is written, and may be loaded.
    DataLoad(FileData),
    /// The file is loaded.
    DataLoadAck(FileData),
    /// Bytes are asked for, into a buffer of so many bytes at this address.
    RamFetch { buffer: u32, length: u32 },
    /// So many bytes were written into the buffer at this address.
    RamTransmit { buffer: u32, written: u32 },
    /// Any other, by its number and its bytes: one that none of these spells byte for byte.
    Other(OtherBody),
}

impl Body {
    /// The action.
    pub fn action(&self) -> Action
        ensures { result ≡ action_of self.now }
    {
        match self {
            Body::DataSave(_) => Action::DataSave,
            Body::DataSaveAck(_) => Action::DataSaveAck,
            Body::DataLoad(_) => Action::DataLoad,
            Body::DataLoadAck(_) => Action::DataLoadAck,
            Body::RamFetch { .. } => Action::RamFetch,
            Body::RamTransmit { .. } => Action::RamTransmit,
            Body::Other(other) => Action::Other(other.action()),
        }
    }

    /// The body once more, which takes no memory.
    pub fn copied(&self) -> Body
        ensures { result ≡ self.now }
    {
        match self {
            Body::DataSave(file) => Body::DataSave(file.copied()),
            Body::DataSaveAck(file) => Body::DataSaveAck(file.copied()),
            Body::DataLoad(file) => Body::DataLoad(file.copied()),
            Body::DataLoadAck(file) => Body::DataLoadAck(file.copied()),
            Body::RamFetch { buffer, length } => Body::RamFetch {
                buffer: *buffer,
                length: *length,
            },
            Body::RamTransmit { buffer, written } => Body::RamTransmit {
                buffer: *buffer,
                written: *written,
            },
            Body::Other(other) => Body::Other(other.copied()),
        }
    }
}

/// A message as its block spells it.
#[derive(Debug, Drop, PartialEq, Eq)]
pub struct Message {
    /// The task that sent it.
    pub from: Handle,
    /// Its own ref.
    pub my_ref: Ref,
    /// The ref of the message that this one answers, 0 for an original.
    pub your_ref: Ref,
    pub body: Body,
}

/// What a task sends: a message that has no ref yet, and whom it is for.
#[derive(Debug, Drop, PartialEq, Eq)]
pub struct Letter {
    /// Whether it wants an answer.
    pub code: EventCode,
    /// The task that sends it.
    pub from: Handle,
    /// The task that it is for.
    pub to: Handle,
    /// The ref of the message that this one answers, 0 for an original.
    pub your_ref: Ref,
    pub body: Body,
}

impl Letter {
    /// The letter once more, which takes no memory.
    pub fn copied(&self) -> Letter
        ensures { result ≡ self.now }
    {
        Letter {
            code: self.code,
            from: self.from,
            to: self.to,
            your_ref: self.your_ref,
            body: self.body.copied(),
        }
    }
}

/// What a poll hands out: a message, and the event that it is.
#[derive(Debug, Drop, PartialEq, Eq)]
pub struct Event {
    pub code: EventCode,
    pub message: Message,
}

/// Why bytes spell no message.
#[derive(Clone, Copy, Debug, PartialEq, Eq, Error)]
pub enum MessageFault {
    /// The length word isn't a multiple of 4 from 20 to 256, is more than the bytes that are there, or has no room for
    /// what the action needs; or no zero byte ends the name.
    #[error("the length is not that of the message")]
    BadLength,
    /// The action isn't one of the six.
    #[error("the action is not one of a file or a RAM transfer")]
    BadAction,
}

/// A live message as it is listed.
#[derive(Clone, Copy, Debug, PartialEq, Eq)]
pub struct MessageItem {
    /// Where its block begins, in bytes from the module area's first one.
    pub block: u32,
    /// The task that it is for.
    pub to: Handle,
    /// The task that sent it.
    pub from: Handle,
    /// Its own ref.
    pub my_ref: Ref,
    /// What it asks for.
    pub action: Action,
    /// The event as which it is handed out.
    pub code: EventCode,
    /// Whether its task holds it; else it waits for a poll.
    pub held: bool,
}

impl Default for MessageItem {
    /// No message, as refs count up from 1.
    fn default() -> MessageItem {
        MessageItem {
            block: 0,
            to: Handle(0),
            from: Handle(0),
            my_ref: Ref(0),
            action: Action::DataSave,
            code: EventCode::User,
            held: false,
        }
    }
}
