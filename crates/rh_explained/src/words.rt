//! One word of a line.

ghost use Rattle.std.specs.Prelude.{◌≡◌, ◌<◌, ◌-◌};
ghost use Rattle.rh_defs.specs.Line.{nth_word, words_of};

use memchr::memchr;

/// Word `n` of a line, counted from 1, or no bytes. Word 0 is the first too.
pub fn word_of(line: &[u8], n: u8) -> &[u8]
    ensures { result.now ≡ nth_word (words_of line.now) n }
{
    let mut rest = line;
    let mut left = at_least_one(n);
    'pieces: loop {
        let Some(end) = memchr(b' ', rest) else {
            return if left == 1 { rest } else { &[] };
        };
        let piece = &rest[..end];
        rest = &rest[end..][1..];
        if piece.is_empty() {
            continue;
        }
        if left == 1 {
            return piece;
        }
        left -= 1;
    }
}

fn at_least_one(n: u8) -> u8
    ensures some { 0 < result }
    ensures same { result - 1 ≡ n - 1 }
{
    if n == 0 { 1 } else { n }
}
