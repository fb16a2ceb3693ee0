//! Sets of numbers.

ghost use Rattle.std.specs.Prelude.{◌≡◌, ◌≤◌, ◌<◌, ◌+◌, length, nat_le};
ghost use Rattle.std.specs.List.{position};
ghost use Rattle.rh_pictures.specs.declared.sheet.numbers.TheConstants.{MOST_IN_SET};
ghost use Rattle.rh_sheet.specs.Chart.{inserted};

use arrayvec::ArrayVec;
use rh_sheet::sizes::MOST_NOTES;

/// A chart has at most so many steps or tasks: each message has two arrows, and each arrow two ends.
pub const MOST_IN_SET: usize = 4 * MOST_NOTES;

/// A set of numbers: in order, each once.
pub type NumberSet = ArrayVec<u32, MOST_IN_SET>;

/// Puts a number into a set.
pub fn put_number(number: u32, numbers: &mut NumberSet)
    requires { length numbers.old.items < MOST_IN_SET }
    ensures value { numbers.new.items ≡ inserted number numbers.old.items }
    ensures few { length numbers.new.items ≤ length numbers.old.items + 1 }
{
    match place_in(number, numbers) {
        Some(place) if numbers[place] == number => {}
        Some(place) => numbers.insert(place, number),
        None => numbers.push(number),
    }
}

/// The place of the first number that isn't smaller.
fn place_in(number: u32, numbers: &[u32]) -> Option<usize>
    ensures { result ≡ position (λ n. nat_le number n) numbers.now }
{
    numbers.iter().position(|other| *other >= number)
}
