//! What messages of any action say, as a row has it.

ghost use Rattle.std.specs.Prelude.{◌≡◌, true, IfSome};
ghost use Rattle.rh_defs.specs.OtherBodies.{is_whole};

use crate::row::Row;
use arrayvec::ArrayVec;
use rh_defs::{Body, Data};
use rh_wimp::body_of;
use std::alloc::Global;

/// The bytes that hexadecimal digits spell.
pub(crate) fn spelled(alloc: Global, digits: &str) -> Option<Vec<u8>> {
    let mut bytes = Vec::new(alloc);
    for at in 0..digits.len() / 2 {
        let pair = digits.get(2 * at..2 * at + 2)?;
        bytes.push(u8::from_str_radix(pair, 16).ok()?).ok()?;
    }
    Some(bytes)
}

/// The data that hexadecimal digits spell, if they are whole words.
fn data(alloc: Global, digits: &str) -> Option<Data>
    ensures { IfSome result (λ found. is_whole found ≡ true) }
{
    let bytes = spelled(alloc, digits)?;
    let mut row = ArrayVec::new();
    row.try_extend_from_slice(bytes.as_slice()).ok()?;
    let found = Data::new(row);
    if found.is_whole() { Some(found) } else { None }
}

/// What a message with the action at a place says, whose data follow it in hexadecimal digits, if there are any.
pub(crate) fn body(alloc: Global, row: &Row<'_>, at: usize) -> Option<Body> {
    let action = row.number(at)?;
    let digits = row.word(at.checked_add(1)?).unwrap_or("");
    Some(body_of(action, &data(alloc, digits)?))
}
