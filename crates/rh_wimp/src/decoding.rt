//! Messages out of bytes.
ghost use Rattle.std.specs.Prelude.{◌≡◌, ◌≤◌, ◌+◌, ◌==◌, length, true, Some, Ok, IfOk};
ghost use Rattle.std.specs.List.{position};
ghost use Rattle.rh_defs.specs.declared.sizes.TheConstants.{LONGEST_MESSAGE, LONGEST_PATHNAME};
ghost use Rattle.rh_defs.specs.Bytes.{part, word};
ghost use Rattle.rh_defs.specs.AnyMessage.{any_decoded};
ghost use Rattle.rh_defs.specs.MessageImage.{SpellsMessage, body_for, decoded, file_in, has_length as has_length_of};
ghost use Rattle.rh_defs.specs.MessageImage.{name_length};
ghost use Rattle.rh_defs.specs.Pathnames.{is_plain};
ghost use Rattle.rh_defs.specs.declared.message.Message.{Message as SpecMessage};
ghost use Rattle.rh_wimp.specs.Inner.ReadAs.{body_about, decoded_as};
ghost use Rattle.rh_wimp.specs.declared.layout.TheConstants.{LEAST_LENGTH, MY_REF, NAME, SENDER, YOUR_REF};

use crate::any_body::any_body;
use crate::bytes::get_word;
use crate::layout::{
    ACTION, DATA, LEAST_FILE_LENGTH, LEAST_LENGTH, LEAST_RAM_LENGTH, MY_REF, NAME, SENDER, YOUR_REF,
};
use rh_defs::sizes::{LONGEST_MESSAGE, WORD};
use rh_defs::{Action, Body, FileData, Handle, Message, MessageFault, Pathname, Ref};

/// The place of the first zero byte.
fn first_zero(bytes: &[u8]) -> Option<usize>
    ensures { result ≡ position (λ x. x == 0) bytes.now }
{
    bytes.iter().position(|b| *b == 0)
}

/// The length of the name that begins at offset 44 and ends before a zero byte below `end`.
pub(crate) fn name_length(bytes: &[u8], end: usize) -> Option<usize>
    requires low { NAME ≤ end }
    requires high { end ≤ length bytes.now }
    ensures { result ≡ name_length bytes.now end }
{
    first_zero(&bytes[NAME..end])
}

/// The name of so many bytes that begins at offset 44.
fn read_name(bytes: &[u8], n: usize) -> Pathname
    requires within { NAME + n ≤ length bytes.now }
    requires short { n ≤ LONGEST_PATHNAME }
    requires plain { is_plain (part bytes.now NAME n) ≡ true }
    ensures { result ≡ part bytes.now NAME n }
{
    Pathname::new(&bytes[NAME..NAME + n]).unwrap()
}

/// What is said of a file in a message of so many bytes.
fn decode_file(bytes: &[u8], end: usize) -> Result<FileData, MessageFault>
    requires high { end ≤ length bytes.now }
    requires small { end ≤ LONGEST_MESSAGE }
    ensures { result ≡ file_in bytes.now end }
{
    if end < LEAST_FILE_LENGTH {
        return Err(MessageFault::BadLength);
    }
    let Some(n) = name_length(bytes, end) else {
        return Err(MessageFault::BadLength);
    };
    Ok(FileData {
        window: get_word(bytes, DATA),
        icon: get_word(bytes, DATA + WORD),
        x: get_word(bytes, DATA + 2 * WORD),
        y: get_word(bytes, DATA + 3 * WORD),
        size: get_word(bytes, DATA + 4 * WORD),
        file_type: get_word(bytes, DATA + 5 * WORD),
        name: read_name(bytes, n),
    })
}

/// What a message about a file says, by its action.
#[inline(always)]
fn file_body(action: Action, file: FileData) -> Body
    ensures { result ≡ body_about action file }
{
    match action {
        Action::DataSave => Body::DataSave(file),
        Action::DataSaveAck => Body::DataSaveAck(file),
        Action::DataLoad => Body::DataLoad(file),
        _ => Body::DataLoadAck(file),
    }
}

/// Data of a message of so many bytes, whose action this is.
#[inline(always)]
pub(crate) fn decode_body(bytes: &[u8], end: usize, action: Action) -> Result<Body, MessageFault>
    requires low { LEAST_LENGTH ≤ end }
    requires high { end ≤ length bytes.now }
    requires small { end ≤ LONGEST_MESSAGE }
    ensures { result ≡ body_for bytes.now end (Some action) }
{
    match action {
        Action::RamFetch => {
            if end < LEAST_RAM_LENGTH {
                return Err(MessageFault::BadLength);
            }
            Ok(Body::RamFetch {
                buffer: get_word(bytes, DATA),
                length: get_word(bytes, DATA + WORD),
            })
        }
        Action::RamTransmit => {
            if end < LEAST_RAM_LENGTH {
                return Err(MessageFault::BadLength);
            }
            Ok(Body::RamTransmit {
                buffer: get_word(bytes, DATA),
                written: get_word(bytes, DATA + WORD),
            })
        }
        Action::Other(_) => Err(MessageFault::BadAction),
        Action::DataSave | Action::DataSaveAck | Action::DataLoad | Action::DataLoadAck => {
            Ok(file_body(action, decode_file(bytes, end)?))
        }
    }
}

/// Whether the first word is the length of a message whose bytes are there.
fn has_length(bytes: &[u8]) -> bool
    ensures { result ≡ has_length_of bytes.now }
{
    if bytes.len() < LEAST_LENGTH {
        return false;
    }
    let end = get_word(bytes, 0) as usize;
    LEAST_LENGTH <= end && end <= LONGEST_MESSAGE && end % WORD == 0 && end <= bytes.len()
}

/// The message that says this, with the sender and the refs of a message block.
fn message_with(bytes: &[u8], body: Body) -> Message
    requires { LEAST_LENGTH ≤ length bytes.now }
    ensures { result ≡ record {
      from = word bytes.now SENDER;
      my_ref = word bytes.now MY_REF;
      your_ref = word bytes.now YOUR_REF;
      body = body;
    } }
{
    Message {
        from: Handle(get_word(bytes, SENDER)),
        my_ref: Ref(get_word(bytes, MY_REF)),
        your_ref: Ref(get_word(bytes, YOUR_REF)),
        body,
    }
}

/// Reads a message. Bytes past its length, and past what its kind needs, are ignored. Refused with the first fault:
/// `BadLength` where the length word isn't a multiple of 4 from 20 to the most or bytes are missing, `BadAction`, and
/// `BadLength` where the length is too small for the action or no zero byte ends the name.
pub fn decode(bytes: &[u8]) -> Result<Message, MessageFault>
    ensures answer { result ≡ decoded bytes.now }
    ensures spelled { IfOk result (SpellsMessage bytes.now) }
    ensures read { (m : SpecMessage) → SpellsMessage bytes.now m → result ≡ Ok m }
{
    if !has_length(bytes) {
        return Err(MessageFault::BadLength);
    }
    let end = get_word(bytes, 0) as usize;
    let Some(action) = Action::from_number(get_word(bytes, ACTION)) else {
        return Err(MessageFault::BadAction);
    };
    let body = decode_body(bytes, end, action)?;
    Ok(message_with(bytes, body))
}

/// Reads a message of any action. Bytes past its length are ignored. Refused with `BadLength` where the length word
/// isn't a multiple of 4 from 20 to the most, or bytes are missing.
pub fn decode_any(bytes: &[u8]) -> Result<Message, MessageFault>
    ensures { result ≡ any_decoded bytes.now }
{
    if !has_length(bytes) {
        return Err(MessageFault::BadLength);
    }
    let body = any_body(bytes, get_word(bytes, 0) as usize, false);
    Ok(message_with(bytes, body))
}

/// Reads a message of any action as `decode_any` does, as it is or as a task that the desk plays reads it.
#[inline(always)]
pub(crate) fn decode_as(bytes: &[u8], played: bool) -> Result<Message, MessageFault>
    ensures { result ≡ decoded_as played (any_decoded bytes.now) }
{
    if !has_length(bytes) {
        return Err(MessageFault::BadLength);
    }
    let body = any_body(bytes, get_word(bytes, 0) as usize, played);
    Ok(message_with(bytes, body))
}
