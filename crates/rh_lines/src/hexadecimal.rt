//! Numbers in hexadecimal, as addresses are.

ghost use Rattle.std.specs.Prelude.{◌≡◌, ◌<◌, ◌≤◌, ◌+◌, ◌++◌, length, true, Some, None, IfSome, if◌then◌else◌};
ghost use Rattle.std.specs.Fmt.{digits, digit_glyph};
ghost use Rattle.std.specs.List.{list_all};
ghost use Rattle.hex.specs.Hex.{hex_digit_value, is_hex_digit};
ghost use Rattle.rh_defs.specs.Line.{hex_number};
ghost use Rattle.rh_lines.specs.declared.hexadecimal.TheConstants.{MOST_HEX_DIGITS};
ghost use Rattle.rh_lines.specs.declared.suffix.TheConstants.{SUFFIX};

use crate::suffix::Suffix;

/// A number has at most so many hexadecimal digits.
pub const MOST_HEX_DIGITS: usize = 8;

/// The number that up to 8 digits of either case spell, unless a byte is none.
#[inline(always)]
pub fn hex_number(digits: &[u8]) -> Option<u32>
    requires { length digits.now ≤ MOST_HEX_DIGITS }
    ensures { result ≡ (if list_all is_hex_digit digits.now then Some (hex_number digits.now) else None) }
{
    let mut number = 0;
    for b in digits {
        let digit = value_of(*b)?;
        number = 16 * number + u32::from(digit);
    }
    Some(number)
}

#[inline(always)]
fn value_of(digit: u8) -> Option<u8>
    ensures value { result ≡ hex_digit_value digit }
    ensures small { IfSome result (λ value. value < 16) }
{
    match digit {
        b'0'..=b'9' => Some(digit - b'0'),
        b'A'..=b'F' => Some(digit - b'A' + 10),
        b'a'..=b'f' => Some(digit - b'a' + 10),
        _ => None,
    }
}

/// Puts a number before a text, in upper case and without leading zeros.
#[inline(always)]
pub fn put_hex_number(number: u32, text: &mut Suffix)
    requires { length text.old + MOST_HEX_DIGITS ≤ SUFFIX }
    ensures value { text.new ≡ digits 16 true number ++ text.old }
    ensures few { length text.new ≤ length text.old + MOST_HEX_DIGITS }
{
    let mut rest = number;
    while rest >= 16 {
        text.byte(digit_of(rest % 16));
        rest /= 16;
    }
    text.byte(digit_of(rest));
}

fn digit_of(number: u32) -> u8
    requires { number < 16 }
    ensures { result ≡ digit_glyph true number }
{
    if number < 10 {
        b'0' + number as u8
    } else {
        b'A' + (number - 10) as u8
    }
}
