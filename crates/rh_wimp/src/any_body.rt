//! What messages of any action say.
ghost use Rattle.std.specs.Prelude.{◌≡◌, ◌≤◌, ◌+◌, ◌-◌, ◌%◌, ◌^◌, ◌<◌, ◌==◌, length, true};
ghost use Rattle.std.specs.List.{list_all};
ghost use Rattle.std.specs.Result.{result_ok};
ghost use Rattle.rh_defs.specs.declared.sizes.TheConstants.{LONGEST_DATA, LONGEST_MESSAGE};
ghost use Rattle.rh_defs.specs.declared.message.Body.TheVariants.{Other};
ghost use Rattle.rh_defs.specs.AnyMessage.{body_of, kind_read, read_body};
ghost use Rattle.rh_defs.specs.Bytes.{part, word};
ghost use Rattle.rh_defs.specs.MessageImage.{body_for};
ghost use Rattle.rh_defs.specs.Messages.{action_at};
ghost use Rattle.rh_defs.specs.Pieces.{round_up};
ghost use Rattle.rh_defs.specs.OtherBodies.{is_exact as is_exact_of, is_name_data, is_other, is_whole};
ghost use Rattle.rh_wimp.specs.Chains.{body_as};
ghost use Rattle.rh_wimp.specs.declared.layout.TheConstants.{ACTION, DATA, LEAST_LENGTH, NAME};

use crate::bytes::{get_word, put_bytes, put_word};
use crate::decoding::{decode_body, name_length};
use crate::layout::{ACTION, DATA, NAME, RAM_LENGTH};
use arrayvec::ArrayVec;
use rh_defs::sizes::{LONGEST_MESSAGE, WORD};
use rh_defs::{Action, Body, Data, OtherBody};

/// Bytes as data of a message.
pub(crate) fn data_of(bytes: &[u8]) -> Data
    requires { length bytes.now ≤ LONGEST_DATA }
    ensures { result ≡ bytes.now }
{
    let mut kept = ArrayVec::new();
    kept.try_extend_from_slice(bytes).unwrap();
    Data::new(kept)
}

/// The one of the six kinds that a message of so many bytes is, whose action has this number; bytes past what the kind
/// needs are ignored.
#[inline(always)]
fn kind_at(bytes: &[u8], end: usize, number: u32) -> Option<Body>
    requires low { LEAST_LENGTH ≤ end }
    requires high { end ≤ length bytes.now }
    requires small { end ≤ LONGEST_MESSAGE }
    ensures { result ≡ result_ok (body_for bytes.now end (action_at number)) }
{
    let Some(action) = Action::from_number(number) else {
        return None;
    };
    decode_body(bytes, end, action).ok()
}

fn are_zeros(bytes: &[u8]) -> bool
    ensures { result ≡ list_all (λ x. x == 0) bytes.now }
{
    bytes.iter().all(|b| *b == 0)
}

/// The bytes that a name of so many takes with its zero byte, in whole words.
fn room_of(n: usize) -> usize
    requires { n < 2 ^ 32 }
    ensures { result ≡ round_up 4 (n + 1) }
{
    (n + 1).next_multiple_of(WORD)
}

/// Whether the name in a message of so many bytes ends it: its zero byte, and zeros up to whole words.
fn is_name_last(bytes: &[u8], end: usize) -> bool
    requires low { NAME ≤ end }
    requires high { end ≤ length bytes.now }
    requires small { end ≤ LONGEST_MESSAGE }
    ensures { result ≡ is_name_data (part bytes.now NAME (end - NAME)) }
{
    let Some(n) = name_length(bytes, end) else {
        return false;
    };
    end - NAME == room_of(n) && are_zeros(&bytes[NAME + n..end])
}

/// Whether a message of so many bytes, whose action has this number, is just what one of the six kinds has.
#[inline(always)]
fn is_exact(bytes: &[u8], end: usize, number: u32) -> bool
    requires low { LEAST_LENGTH ≤ end }
    requires high { end ≤ length bytes.now }
    requires small { end ≤ LONGEST_MESSAGE }
    ensures { result ≡ is_exact_of number (part bytes.now DATA (end - DATA)) }
{
    match number {
        6 | 7 => end == DATA + RAM_LENGTH,
        1..=4 => NAME < end && is_name_last(bytes, end),
        _ => false,
    }
}

/// The action and all bytes behind it, where none of the six kinds has them.
#[inline(never)]
fn other_of(number: u32, bytes: &[u8]) -> OtherBody
    requires few { length bytes.now ≤ LONGEST_DATA }
    requires other { is_other number bytes.now ≡ true }
    ensures { result ≡ (number, bytes.now) }
{
    OtherBody::new(number, data_of(bytes)).unwrap()
}

/// What an action and bytes say that none of the six kinds has: as they are, or as a task that the desk plays reads
/// them. The place for them is made here alone.
#[inline(always)]
fn other_as(number: u32, bytes: &[u8], played: bool) -> Body
    requires few { length bytes.now ≤ LONGEST_DATA }
    requires other { is_other number bytes.now ≡ true }
    ensures { result ≡ body_as played (Other (number, bytes.now)) }
{
    let other = other_of(number, bytes);
    if played {
        return read_other(other);
    }
    Body::Other(other)
}

/// What is said in a message of so many bytes: one of the six kinds where that kind's own message has just these, else
/// the action and all bytes behind it; or what a task that the desk plays reads in these.
#[inline(always)]
pub(crate) fn any_body(bytes: &[u8], end: usize, played: bool) -> Body
    requires low { LEAST_LENGTH ≤ end }
    requires high { end ≤ length bytes.now }
    requires small { end ≤ LONGEST_MESSAGE }
    requires whole { end % 4 ≡ 0 }
    ensures { result ≡ body_as played (body_of (word bytes.now ACTION) (part bytes.now DATA (end - DATA))) }
{
    let number = get_word(bytes, ACTION);
    if is_exact(bytes, end, number) {
        return kind_at(bytes, end, number).unwrap();
    }
    other_as(number, &bytes[DATA..end], played)
}

/// What a message with an action, by its number, and with data says: one of the six kinds where that kind's own message
/// has just these, else another.
pub fn body_of(action: u32, given: &Data) -> Body
    requires { is_whole given.now ≡ true }
    ensures { result ≡ body_of action given.now }
{
    let bytes = given.as_slice();
    let mut block = [0u8; LONGEST_MESSAGE];
    put_word(&mut block, ACTION, action);
    put_bytes(&mut block, DATA, bytes);
    any_body(&block, DATA + bytes.len(), false)
}

/// The one of the six kinds that an action, by its number, and data are; bytes past what the kind needs are ignored.
fn kind_read(action: u32, bytes: &[u8]) -> Option<Body>
    requires { length bytes.now ≤ LONGEST_DATA }
    ensures { result ≡ kind_read action bytes.now }
{
    let mut block = [0u8; LONGEST_MESSAGE];
    put_bytes(&mut block, DATA, bytes);
    kind_at(&block, DATA + bytes.len(), action)
}

/// What a task that the desk plays reads in another message.
#[inline(never)]
fn read_other(other: OtherBody) -> Body
    ensures { result ≡ read_body (Other other) }
{
    match kind_read(other.action(), other.data().as_slice()) {
        Some(kind) => kind,
        None => Body::Other(other),
    }
}

/// What a task that the desk plays reads in a message: one of the six kinds wherever its numbers and its name stand
/// there, whatever bytes follow them.
pub fn read_body(body: Body) -> Body
    ensures { result ≡ read_body body }
{
    match body {
        Body::Other(other) => read_other(other),
        kind => kind,
    }
}
