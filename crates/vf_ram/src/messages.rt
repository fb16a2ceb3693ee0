//! Messages into blocks, and out of them.
ghost use Rattle.std.specs.Prelude.{◌≡◌};
ghost use Rattle.rh_defs.specs.MessageImage.{decoded};
ghost use Rattle.rh_defs.specs.Messages.{encoded_length};
ghost use Rattle.vf_ram.specs.MessageWords.{as_words, decode_answer, in_block, message_in_words};
ghost use Rattle.vf_ram.specs.WithStatus.{shown_or, status_of};

use crate::message_words::VfMessageWords;
use crate::status::{OK, fault_status};

/// A message block of the Wimp: words in little-endian order, of which the first says how many bytes there are.
#[repr(C)]
#[derive(Clone, Copy)]
pub struct VfMessage {
    pub bytes: [u8; 256],
}

/// Writes a message into a block, and tells its length. The bytes behind it stay. (Wimp_SendMessage.)
#[unsafe(no_mangle)]
pub extern "C" fn vf_message_encode(
    words: &VfMessageWords,
    message: &mut VfMessage,
    length: &mut u32,
) -> u32
    ensures status { result ≡ status_of (message_in_words words.now) }
    ensures message { message.new.bytes
        ≡ shown_or (in_block message.old.bytes) (message_in_words words.now) message.old.bytes }
    ensures length { length.new ≡ shown_or encoded_length (message_in_words words.now) length.old }
{
    match words.read() {
        Ok(known) => {
            *length = rh_wimp::encode(&known, &mut message.bytes) as u32;
            OK
        }
        Err(status) => status,
    }
}

/// Reads a message out of a block's bytes. (Wimp_Poll.)
#[unsafe(no_mangle)]
pub extern "C" fn vf_message_decode(bytes: &[u8], words: &mut VfMessageWords) -> u32
    ensures status { result ≡ status_of (decode_answer (decoded bytes.now)) }
    ensures words { words.new ≡ shown_or as_words (decode_answer (decoded bytes.now)) words.old }
{
    match rh_wimp::decode(bytes) {
        Ok(known) => {
            *words = VfMessageWords::of(&known);
            OK
        }
        Err(fault) => fault_status(fault),
    }
}
