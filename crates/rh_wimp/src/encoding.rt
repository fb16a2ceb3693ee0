//! Messages into bytes.
ghost use Rattle.std.specs.Prelude.{◌≡◌, ◌+◌, ◌^◌, ◌<◌, ◌≤◌, ◌++◌, [], ◌∷◌, true, length};
ghost use Rattle.rh_defs.specs.declared.sizes.TheConstants.{LONGEST_MESSAGE};
ghost use Rattle.rh_defs.specs.Bytes.{with_part};
ghost use Rattle.rh_defs.specs.Messages.{AreWords, Fits, HasName, body_bytes, data_words, encoded, encoded_length};
ghost use Rattle.rh_defs.specs.Messages.{file_words, name_bytes, words};
ghost use Rattle.rh_defs.specs.Pathnames.{is_pathname};
ghost use Rattle.rh_defs.specs.Post.{message_of};
ghost use Rattle.rh_wimp.specs.declared.layout.TheConstants.{ACTION, DATA, FILE_LENGTH, NAME, RAM_LENGTH};

use crate::bytes::{put_bytes, put_word, put_words, put_zeros};
use crate::layout::{ACTION, DATA, FILE_LENGTH, NAME, RAM_LENGTH};
use rh_defs::sizes::{LONGEST_MESSAGE, WORD};
use rh_defs::{Body, FileData, Letter, Message, Ref};

/// The bytes that a name takes with its zero byte, in whole words.
fn name_room(name: &[u8]) -> usize
    requires { length name.now < 2 ^ 32 }
    ensures { result ≡ length (name_bytes name.now) }
{
    (name.len() + 1).next_multiple_of(WORD)
}

/// Writes a name from offset 44 on, with zeros up to whole words, and answers the bytes that it takes.
fn encode_name(name: &[u8], out: &mut [u8]) -> usize
    requires room { length out.old ≡ LONGEST_MESSAGE }
    requires name { is_pathname name.now ≡ true }
    ensures bytes { out.new ≡ with_part out.old NAME (name_bytes name.now) }
    ensures length { result ≡ length (name_bytes name.now) }
    ensures short { NAME + result ≤ LONGEST_MESSAGE }
{
    let room = name_room(name);
    put_bytes(out, NAME, name);
    put_zeros(out, NAME + name.len(), room - name.len());
    room
}

/// Writes what is said of a file from offset 20 on, and answers its length.
fn encode_file(file: &FileData, out: &mut [u8]) -> usize
    requires { length out.old ≡ LONGEST_MESSAGE }
    ensures bytes { out.new ≡ with_part out.old DATA (words (file_words file.now) ++ name_bytes file.now.name) }
    ensures length { result ≡ FILE_LENGTH + length (name_bytes file.now.name) }
    ensures short { DATA + result ≤ LONGEST_MESSAGE }
    ensures numbers { AreWords (file_words file.now) }
    ensures name { is_pathname file.now.name ≡ true }
{
    put_words(
        out,
        DATA,
        &[
            file.window,
            file.icon,
            file.x,
            file.y,
            file.size,
            file.file_type,
        ],
    );
    FILE_LENGTH + encode_name(file.name.as_bytes(), out)
}

/// Writes the two words of a RAMFetch or RAMTransmit, and answers their length.
fn encode_pair(buffer: u32, n: u32, out: &mut [u8]) -> usize
    requires { length out.old ≡ LONGEST_MESSAGE }
    ensures bytes { out.new ≡ with_part out.old DATA (words (buffer ∷ n ∷ [])) }
    ensures length { result ≡ RAM_LENGTH }
{
    put_words(out, DATA, &[buffer, n]);
    RAM_LENGTH
}

/// Writes the bytes of data from offset 20 on, and answers their length.
fn encode_data(bytes: &[u8], out: &mut [u8]) -> usize
    requires room { length out.old ≡ LONGEST_MESSAGE }
    requires fits { DATA + length bytes.now ≤ LONGEST_MESSAGE }
    ensures bytes { out.new ≡ with_part out.old DATA bytes.now }
    ensures length { result ≡ length bytes.now }
{
    put_bytes(out, DATA, bytes);
    bytes.len()
}

/// Writes action and data from offset 16 on, and answers their length.
fn encode_body(body: &Body, out: &mut [u8]) -> usize
    requires { length out.old ≡ LONGEST_MESSAGE }
    ensures bytes { out.new ≡ with_part out.old ACTION (body_bytes body.now) }
    ensures length { result ≡ length (body_bytes body.now) }
    ensures short { ACTION + result ≤ LONGEST_MESSAGE }
    ensures numbers { AreWords (data_words body.now) }
    ensures name { HasName body.now }
{
    put_word(out, ACTION, body.action().number());
    WORD + match body {
        Body::DataSave(file) => encode_file(file, out),
        Body::DataSaveAck(file) => encode_file(file, out),
        Body::DataLoad(file) => encode_file(file, out),
        Body::DataLoadAck(file) => encode_file(file, out),
        Body::RamFetch { buffer, length } => encode_pair(*buffer, *length, out),
        Body::RamTransmit { buffer, written } => encode_pair(*buffer, *written, out),
        Body::Other(other) => encode_data(other.data().as_slice(), out),
    }
}

/// The length of what is said of a file.
fn file_length(file: &FileData) -> usize
    ensures length { result ≡ FILE_LENGTH + length (name_bytes file.now.name) }
    ensures short { DATA + result ≤ LONGEST_MESSAGE }
{
    FILE_LENGTH + name_room(file.name.as_bytes())
}

/// The length of action and data.
pub fn body_length(body: &Body) -> usize
    ensures length { result ≡ length (body_bytes body.now) }
    ensures short { ACTION + result ≤ LONGEST_MESSAGE }
{
    WORD + match body {
        Body::DataSave(file) => file_length(file),
        Body::DataSaveAck(file) => file_length(file),
        Body::DataLoad(file) => file_length(file),
        Body::DataLoadAck(file) => file_length(file),
        Body::RamFetch { .. } => RAM_LENGTH,
        Body::RamTransmit { .. } => RAM_LENGTH,
        Body::Other(other) => other.data().as_slice().len(),
    }
}

/// Writes a message block, and answers its length.
fn encode_parts(from: u32, my_ref: u32, your_ref: u32, body: &Body, out: &mut [u8]) -> usize
    requires { length out.old ≡ LONGEST_MESSAGE }
    ensures length { result ≡ ACTION + length (body_bytes body.now) }
    ensures bytes { out.new ≡ with_part out.old 0 (encoded
        (record { from = from; my_ref = my_ref; your_ref = your_ref; body = body.now })) }
    ensures short { result ≤ LONGEST_MESSAGE }
    ensures fits { Fits (record { from = from; my_ref = my_ref; your_ref = your_ref; body = body.now }) }
{
    let length = ACTION + encode_body(body, out);
    put_words(out, 0, &[length as u32, from, my_ref, your_ref]);
    length
}

/// Writes the message block of a letter that gets this ref into the bytes that the longest one takes, and answers its
/// length; the bytes beyond it stay as they were.
pub(crate) fn encode_letter(letter: &Letter, my_ref: Ref, out: &mut [u8]) -> usize
    requires { length out.old ≡ LONGEST_MESSAGE }
    ensures length { result ≡ encoded_length (message_of letter.now my_ref) }
    ensures bytes { out.new ≡ with_part out.old 0 (encoded (message_of letter.now my_ref)) }
    ensures short { result ≤ LONGEST_MESSAGE }
    ensures fits { Fits (message_of letter.now my_ref) }
{
    encode_parts(
        letter.from.0,
        my_ref.0,
        letter.your_ref.0,
        &letter.body,
        out,
    )
}

/// Writes a message block as `encode_letter` does.
fn encode_into(message: &Message, out: &mut [u8]) -> usize
    requires { length out.old ≡ LONGEST_MESSAGE }
    ensures length { result ≡ encoded_length message.now }
    ensures bytes { out.new ≡ with_part out.old 0 (encoded message.now) }
    ensures short { result ≤ LONGEST_MESSAGE }
    ensures fits { Fits message.now }
{
    encode_parts(
        message.from.0,
        message.my_ref.0,
        message.your_ref.0,
        &message.body,
        out,
    )
}

/// Writes a message block, and answers its length; the bytes beyond it stay as they were.
pub fn encode(message: &Message, out: &mut [u8; LONGEST_MESSAGE]) -> usize
    ensures length { result ≡ encoded_length message.now }
    ensures bytes { out.new ≡ with_part out.old 0 (encoded message.now) }
    ensures short { result ≤ LONGEST_MESSAGE }
    ensures fits { Fits message.now }
{
    encode_into(message, out)
}
