//! The forms of a line's words: names, numbers, addresses and bytes.

ghost use Rattle.std.specs.Prelude.{◌≡◌, ◌-◌, ◌<◌, ◌≤◌, length, drop, slice_index, Option, Some, None, if◌then◌else◌};
ghost use Rattle.std.specs.Prelude.{[], IfOk, OnOk, IsTrue, unwrap_or, nat_le};
ghost use Rattle.std.specs.List.{list_all};
ghost use Rattle.std.specs.Char.{is_ascii_digit};
ghost use Rattle.std.specs.Result.{result_ok};
ghost use Rattle.hex.specs.Hex.{decode_of, hex_digit_value, is_hex_digit};
ghost use Rattle.rh_defs.specs.Forms.{is_name, is_anchor, is_number, is_delta, is_leaf, is_decimal, number_of};
ghost use Rattle.rh_defs.specs.Line.{name_at, number_at, delta_at, is_address, hex_number, address_at, leaf_at};
ghost use Rattle.rh_defs.specs.Grammar.{Data as DataForm};
ghost use Rattle.rh_defs.specs.Line.{choice_at, bytes_read_at, data_read_at, signed};
ghost use Rattle.rh_defs.specs.Range.{is_of};
ghost use Rattle.rh_defs.specs.declared.sizes.TheConstants.{ANCHORS, GREATEST_NUMBER, LONGEST_DATA, LONGEST_LEAF};
ghost use Rattle.rh_lines.specs.Placed.{when_placed};
ghost use Rattle.rh_lines.specs.declared.forms.TheConstants.{MOST_DIGITS};

use crate::hexadecimal::{MOST_HEX_DIGITS, hex_number};
use crate::words::LineWords;
use arrayvec::ArrayVec;
use rh_defs::sizes::{ANCHORS, GREATEST_NUMBER, MOST_BYTES};
use rh_defs::{Anchor, Data, Leaf, LineFault, Name};

/// A number has at most so many decimal digits.
const MOST_DIGITS: usize = 10;

/// Word `n` as a name: an ASCII letter, and then up to 11 ASCII letters or digits.
#[tactic(auto, unfolding(rh_defs::specs::Line::name_at))]
#[inline(always)]
pub fn name_at(words: &LineWords<'_>, n: u8) -> Result<Name, LineFault>
    requires { 0 < n }
    ensures means { result ≡ name_at words.now n }
    ensures form { IfOk result (λ name. IsTrue (is_name name)) }
{
    match Name::new(words.word(n)) {
        Some(name) if name.is_valid() => Ok(name),
        _ => Err(LineFault::Word(n)),
    }
}

/// Word `n` as an anchor, 0 to 63.
pub fn anchor_at(words: &LineWords<'_>, n: u8) -> Result<Anchor, LineFault>
    requires { 0 < n }
    ensures means { result ≡ number_at words.now n 0 (ANCHORS - 1) }
    ensures form { IfOk result (λ anchor. IsTrue (is_anchor anchor)) }
{
    let anchor = number_at(words, n, 0, ANCHORS as u32 - 1)?;
    Ok(Anchor(anchor as u8))
}

/// Word `n` as a size or an offset, 0 to 2,147,483,647.
pub fn size_at(words: &LineWords<'_>, n: u8) -> Result<u32, LineFault>
    requires { 0 < n }
    ensures means { result ≡ number_at words.now n 0 GREATEST_NUMBER }
    ensures form { IfOk result (λ size. IsTrue (is_number size)) }
{
    number_at(words, n, 0, GREATEST_NUMBER)
}

/// Word `n` as a decimal number of 1 to 10 digits, from `low` to `high`.
#[tactic(auto, unfolding(rh_defs::specs::Line::number_at))]
pub fn number_at(words: &LineWords<'_>, n: u8, low: u32, high: u32) -> Result<u32, LineFault>
    requires { 0 < n }
    ensures means { result ≡ number_at words.now n low high }
    ensures range { IfOk result (λ number. (low ≤ number) × (number ≤ high)) }
{
    match decimal(words.word(n)) {
        Some(number) if u64::from(low) <= number && number <= u64::from(high) => Ok(number as u32),
        _ => Err(LineFault::Word(n)),
    }
}

/// Word `n` as a decimal number with `-` before it or not, of a magnitude up to 2,147,483,647.
#[tactic(auto, unfolding(rh_defs::specs::Line::delta_at))]
pub fn delta_at(words: &LineWords<'_>, n: u8) -> Result<i32, LineFault>
    requires { 0 < n }
    ensures means { result ≡ delta_at words.now n }
    ensures form { IfOk result (λ delta. IsTrue (is_delta delta)) }
{
    let word = words.word(n);
    let (is_negative, digits) = match word {
        [b'-', digits @ ..] => (true, digits),
        _ => (false, word),
    };
    match decimal(digits) {
        Some(number) if number <= u64::from(GREATEST_NUMBER) => Ok(signed(
            is_negative,
            number as u32,
        )),
        _ => Err(LineFault::Word(n)),
    }
}

fn signed(is_negative: bool, magnitude: u32) -> i32
    requires { magnitude ≤ GREATEST_NUMBER }
    ensures value { result ≡ signed is_negative magnitude }
    ensures form { IsTrue (is_delta result) }
{
    if is_negative {
        -(magnitude as i32)
    } else {
        magnitude as i32
    }
}

/// The number that 1 to 10 decimal digits spell.
#[tactic(auto, unfolding(rh_defs::specs::Forms::is_decimal))]
fn decimal(word: &[u8]) -> Option<u64>
    ensures { result ≡ (if is_decimal word.now then Some (number_of word.now) else None) }
{
    if word.is_empty() || word.len() > MOST_DIGITS {
        return None;
    }
    let mut number = 0;
    for b in word {
        if !b.is_ascii_digit() {
            return None;
        }
        number = 10 * number + u64::from(*b - b'0');
    }
    Some(number)
}

/// Word `n` as an address: `&`, and 1 to 8 hexadecimal digits of either case.
#[tactic(auto, unfolding(rh_defs::specs::Line::address_at, rh_defs::specs::Line::is_address))]
#[inline(always)]
pub fn address_at(words: &LineWords<'_>, n: u8) -> Result<u32, LineFault>
    requires { 0 < n }
    ensures { result ≡ address_at words.now n }
{
    match words.word(n) {
        [b'&', digits @ ..] if !digits.is_empty() && digits.len() <= MOST_HEX_DIGITS => {
            hex_number(digits).ok_or(LineFault::Word(n))
        }
        _ => Err(LineFault::Word(n)),
    }
}

/// Word `n` as a leafname: 1 to 10 bytes from &21 to &7E.
#[tactic(auto, unfolding(rh_defs::specs::Line::leaf_at))]
pub fn leaf_at(words: &LineWords<'_>, n: u8) -> Result<Leaf, LineFault>
    requires { 0 < n }
    ensures means { result ≡ leaf_at words.now n }
    ensures form { IfOk result (λ leaf. IsTrue (is_leaf leaf)) }
{
    match leaf_of(words.word(n)) {
        Some(leaf) if leaf.is_valid() => Ok(leaf),
        _ => Err(LineFault::Word(n)),
    }
}

/// A leafname of these bytes, none where there are more than 10.
fn leaf_of(word: &[u8]) -> Option<Leaf>
    ensures { result ≡ (if nat_le (length word.now) LONGEST_LEAF then Some word.now else None) }
{
    let mut letters = ArrayVec::new();
    letters.try_extend_from_slice(word).ok()?;
    Some(Leaf::new(letters))
}

/// Word `n` as one of two words: whether it is the first.
#[tactic(auto, unfolding(rh_defs::specs::Line::choice_at))]
pub fn choice_at(
    words: &LineWords<'_>,
    n: u8,
    first: &[u8],
    second: &[u8],
) -> Result<bool, LineFault>
    requires { 0 < n }
    ensures { result ≡ choice_at words.now n first.now second.now }
{
    let word = words.word(n);
    if word == first {
        Ok(true)
    } else if word == second {
        Ok(false)
    } else {
        Err(LineFault::Word(n))
    }
}

/// Word `n` as hexadecimal digits of either case, two for each byte, at least one byte. The bytes are added to an empty
/// list.
#[tactic(auto, unfolding(rh_defs::specs::Line::bytes_read_at))]
pub fn bytes_at(
    words: &LineWords<'_>,
    n: u8,
    bytes: &mut ArrayVec<u8, MOST_BYTES>,
) -> Result<(), LineFault>
    requires counted { 0 < n }
    requires none { bytes.old.items ≡ [] }
    ensures means { when_placed result bytes.new.items ≡ bytes_read_at words.now n }
    ensures form { OnOk result (1 ≤ length bytes.new.items) }
{
    let word = words.word(n);
    let mut room = [0; MOST_BYTES];
    let spelled = &mut room[..word.len() / 2];
    if word.is_empty() || hex::decode_to_slice(word, spelled).is_err() {
        return Err(LineFault::Word(n));
    }
    bytes.try_extend_from_slice(spelled).unwrap();
    Ok(())
}

/// Word `n` as the data of a message: hexadecimal digits of whole words, at least one.
#[tactic(auto, unfolding(rh_defs::specs::Line::data_read_at, rh_defs::specs::Inner::Computing::computing_chain))]
pub fn data_at(words: &LineWords<'_>, n: u8) -> Result<Data, LineFault>
    requires { 0 < n }
    ensures means { result ≡ data_read_at words.now n }
    ensures form { IfOk result (λ found. IsTrue (is_of DataForm found)) }
{
    let mut bytes = ArrayVec::new();
    bytes_at(words, n, &mut bytes)?;
    let Some(data) = data_of(bytes.as_slice()) else {
        return Err(LineFault::Word(n));
    };
    if !data.is_whole() {
        return Err(LineFault::Word(n));
    }
    Ok(data)
}

/// Data of these bytes, none where there are more than a message has room for.
fn data_of(bytes: &[u8]) -> Option<Data>
    ensures { result ≡ (if nat_le (length bytes.now) LONGEST_DATA then Some bytes.now else None) }
{
    let mut data = ArrayVec::new();
    data.try_extend_from_slice(bytes).ok()?;
    Some(Data::new(data))
}
