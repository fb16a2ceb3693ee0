//! A message as a struct of words, with its name as bytes, and back.
ghost use Rattle.std.specs.Prelude.{◌≡◌, ◌≤◌, length};
ghost use Rattle.vf_ram.specs.MessageWords.{as_file_words, as_words, as_name, body_in_words, file_in_words};
ghost use Rattle.vf_ram.specs.MessageWords.{words_about_file, message_in_words, name_in_words, no_file};
ghost use Rattle.vf_ram.specs.MessageWords.{words_about_bytes};
ghost use Rattle.rh_defs.specs.Messages.{action_number};

use crate::status::{BAD_ARGUMENT, BAD_MESSAGE};
use rh_defs::sizes::LONGEST_PATHNAME;
use rh_defs::{Action, Body, FileData, Handle, Message, Pathname, Ref};

/// The bytes of a name's array: one more than a name has at most, so that a zero ends it.
const NAME_ROOM: usize = 212;

/// What a message about a file says of it, but for its name.
#[repr(C)]
#[derive(Clone, Copy)]
pub struct VfFileWords {
    pub window: u32,
    pub icon: u32,
    pub x: u32,
    pub y: u32,
    pub size: u32,
    pub file_type: u32,
}

/// A message of a transfer. What its action says nothing of is 0.
#[repr(C)]
#[derive(Clone, Copy)]
pub struct VfMessageWords {
    pub from: u32,
    pub my_ref: u32,
    pub your_ref: u32,
    pub action: u32,
    pub buffer: u32,
    pub count: u32,
    pub file: VfFileWords,
    pub name_length: u32,
    pub name: [u8; 212],
}

impl VfFileWords {
    fn of(file: &FileData) -> VfFileWords
        ensures { result ≡ as_file_words file.now }
    {
        VfFileWords {
            window: file.window,
            icon: file.icon,
            x: file.x,
            y: file.y,
            size: file.size,
            file_type: file.file_type,
        }
    }

    fn none() -> VfFileWords
        ensures { result ≡ no_file }
    {
        VfFileWords {
            window: 0,
            icon: 0,
            x: 0,
            y: 0,
            size: 0,
            file_type: 0,
        }
    }
}

/// A name in an array, with zeros behind it.
fn name_array(name: &[u8]) -> [u8; 212]
    requires { length name.now ≤ LONGEST_PATHNAME }
    ensures { result ≡ as_name name.now }
{
    let mut bytes = [0; NAME_ROOM];
    bytes[..name.len()].copy_from_slice(name);
    bytes
}

impl VfMessageWords {
    /// The words of a message.
    pub fn of(message: &Message) -> VfMessageWords
        ensures { result ≡ as_words message.now }
    {
        let action = message.body.action();
        match &message.body {
            Body::DataSave(file)
            | Body::DataSaveAck(file)
            | Body::DataLoad(file)
            | Body::DataLoadAck(file) => VfMessageWords::of_file(message, action, file),
            Body::RamFetch { buffer, length } => VfMessageWords::of_bytes(
                message, action, *buffer, *length,
            ),
            Body::RamTransmit { buffer, written } => {
                VfMessageWords::of_bytes(message, action, *buffer, *written)
            }
            Body::Other(_) => VfMessageWords::of_bytes(message, action, 0, 0),
        }
    }

    fn of_file(message: &Message, action: Action, file: &FileData) -> VfMessageWords
        ensures { result ≡ words_about_file message.now (action_number action) file.now }
    {
        let name = file.name.as_bytes();
        VfMessageWords {
            from: message.from.0,
            my_ref: message.my_ref.0,
            your_ref: message.your_ref.0,
            action: action.number(),
            buffer: 0,
            count: 0,
            file: VfFileWords::of(file),
            name_length: name.len() as u32,
            name: name_array(name),
        }
    }

    fn of_bytes(message: &Message, action: Action, buffer: u32, count: u32) -> VfMessageWords
        ensures { result ≡ words_about_bytes message.now (action_number action) buffer count }
    {
        VfMessageWords {
            from: message.from.0,
            my_ref: message.my_ref.0,
            your_ref: message.your_ref.0,
            action: action.number(),
            buffer,
            count,
            file: VfFileWords::none(),
            name_length: 0,
            name: [0; NAME_ROOM],
        }
    }

    /// The message that the words are.
    pub fn read(&self) -> Result<Message, u32>
        ensures { result ≡ message_in_words self.now }
    {
        Ok(Message {
            from: Handle(self.from),
            my_ref: Ref(self.my_ref),
            your_ref: Ref(self.your_ref),
            body: self.body()?,
        })
    }

    fn body(&self) -> Result<Body, u32>
        ensures { result ≡ body_in_words self.now }
    {
        match self.action {
            1 => Ok(Body::DataSave(self.file()?)),
            2 => Ok(Body::DataSaveAck(self.file()?)),
            3 => Ok(Body::DataLoad(self.file()?)),
            4 => Ok(Body::DataLoadAck(self.file()?)),
            6 => Ok(Body::RamFetch {
                buffer: self.buffer,
                length: self.count,
            }),
            7 => Ok(Body::RamTransmit {
                buffer: self.buffer,
                written: self.count,
            }),
            _ => Err(BAD_MESSAGE),
        }
    }

    fn file(&self) -> Result<FileData, u32>
        ensures { result ≡ file_in_words self.now }
    {
        let name = self.name()?;
        Ok(FileData {
            window: self.file.window,
            icon: self.file.icon,
            x: self.file.x,
            y: self.file.y,
            size: self.file.size,
            file_type: self.file.file_type,
            name,
        })
    }

    fn name(&self) -> Result<Pathname, u32>
        ensures { result ≡ name_in_words self.now }
    {
        let length = self.name_length as usize;
        if length > self.name.len() {
            return Err(BAD_ARGUMENT);
        }
        match Pathname::new(&self.name[..length]) {
            Some(name) => Ok(name),
            None => Err(BAD_ARGUMENT),
        }
    }
}
