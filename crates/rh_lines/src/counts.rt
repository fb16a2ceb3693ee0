//! How many words a line has.

ghost use Rattle.std.specs.Prelude.{◌≡◌, ◌==◌, ◌||◌, if◌then◌else◌, length, Ok, Err};

use crate::words::LineWords;
use rh_defs::LineFault;

/// Count where the line hasn't just the words that the command wants.
pub fn counted(words: &LineWords<'_>, wanted: usize) -> Result<(), LineFault>
    ensures { result ≡ (if length words.now == wanted then Ok tt else Err LineFault.Count) }
{
    if words.count() == wanted {
        Ok(())
    } else {
        Err(LineFault::Count)
    }
}

/// Count where the line has neither of two numbers of words.
pub fn counted_from(words: &LineWords<'_>, fewer: usize, more: usize) -> Result<(), LineFault>
    ensures { result ≡ (if length words.now == fewer || length words.now == more then Ok tt else Err LineFault.Count) }
{
    if words.count() == fewer || words.count() == more {
        Ok(())
    } else {
        Err(LineFault::Count)
    }
}
