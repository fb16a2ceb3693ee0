//! The words of a line, which spaces part.

ghost use Rattle.std.specs.Prelude.{◌≡◌, ◌<◌, ◌≤◌, ◌++◌, ◌∷◌, [], length, map, All};
ghost use Rattle.rh_defs.specs.Bytes.{space};
ghost use Rattle.rh_defs.specs.Line.{words_of, nth_word};
ghost use Rattle.memchr.specs.Find.{IsFirstByte, Nowhere, Passes, is_byte};
ghost use Rattle.rh_lines.specs.Words.{first_words};
ghost use Rattle.rh_lines.specs.Inner.PieceWords.{piece_words};
ghost use Rattle.rh_defs.specs.declared.sizes.TheConstants.{LONGEST_LINE};

use arrayvec::ArrayVec;
use memchr::memchr;
use std::marker::Model;

/// No command has more than seven words: an eighth one is a word too many, and more are not looked at.
const MOST_WORDS: usize = 8;

/// Up to so many bytes are sooner looked over one by one than by `memchr`, which looks at many at once.
const FEW: usize = 24;

/// So many bytes are looked at in a turn.
const TURN: usize = 4;

/// The words of a line, up to the eighth.
#[derive(Drop)]
pub struct LineWords<'a> {
    found: ArrayVec<&'a [u8], MOST_WORDS>,
}

impl<'a> Model for LineWords<'a> {
    ghost use Rattle.std.specs.Prelude.{◌≤◌, ℕ, List, map, length, All};
    ghost use Rattle.rh_defs.specs.declared.sizes.TheConstants.{LONGEST_LINE};

    ghost Value = { List (List ℕ) };

    ghost view = { λ s. map (λ w. w.now) s.found.items };

    ghost invariant = { λ s. All (λ w. length w.now ≤ LONGEST_LINE) s.found.items };
}

impl<'a> LineWords<'a> {
    /// No words.
    #[inline(always)]
    pub fn new() -> LineWords<'a>
        ensures { result ≡ [] }
    {
        LineWords {
            found: ArrayVec::new(),
        }
    }

    /// Finds the words of a line of at most 1,024 bytes, in place of those found before.
    pub fn find(&mut self, line: &'a [u8])
        requires { length line.now ≤ LONGEST_LINE }
        ensures { self.new ≡ first_words line.now }
    {
        self.found.clear();
        split(line, &mut self.found);
    }

    /// How many words the line has, where it has fewer than eight.
    pub fn count(&self) -> usize
        ensures { result ≡ length self.now }
    {
        self.found.len()
    }

    /// Word `n`, counted from 1, or no bytes.
    pub fn word(&self, n: u8) -> &'a [u8]
        requires { 0 < n }
        ensures value { result.now ≡ nth_word self.now n }
        ensures short { length result.now ≤ LONGEST_LINE }
    {
        match self.found.get(n as usize - 1) {
            Some(word) => word,
            None => &[],
        }
    }
}

/// Finds the words of a line, up to the eighth.
fn split<'a>(line: &'a [u8], found: &mut ArrayVec<&'a [u8], MOST_WORDS>)
    requires few { length line.now ≤ LONGEST_LINE }
    requires none { found.old.items ≡ [] }
    ensures items { map (λ w. w.now) found.new.items ≡ first_words line.now }
    ensures short { All (λ w. length w.now ≤ LONGEST_LINE) found.new.items }
{
    let mut rest = line;
    'pieces: loop {
        let Some(end) = first_space(rest) else {
            push_word(found, rest);
            return;
        };
        push_word(found, &rest[..end]);
        if found.is_full() {
            return;
        }
        rest = &rest[end + 1..];
    }
}

/// Where the first space stands.
#[tactic(auto, using(crate::proofs::SplitLemmas::none_more))]
fn first_space(piece: &[u8]) -> Option<usize>
    ensures { IsFirstByte (is_byte space) piece.now result }
{
    if piece.len() > FEW {
        return memchr(b' ', piece);
    }
    let mut at = 0;
    while piece.len() - at >= TURN {
        if piece[at] == b' ' {
            return Some(at);
        }
        if piece[at + 1] == b' ' {
            return Some(at + 1);
        }
        if piece[at + 2] == b' ' {
            return Some(at + 2);
        }
        if piece[at + 3] == b' ' {
            return Some(at + 3);
        }
        at += TURN;
    }
    space_from(piece, at)
}

/// Where the first space stands, if there is none before a place.
fn space_from(piece: &[u8], from: usize) -> Option<usize>
    requires within { from ≤ length piece.now }
    requires none { Nowhere (Passes (is_byte space) piece.now) 0 from }
    ensures { IsFirstByte (is_byte space) piece.now result }
{
    for i in from..piece.len() {
        if piece[i] == b' ' {
            return Some(i);
        }
    }
    None
}

/// Adds what stands between two spaces, unless that is nothing.
fn push_word<'a>(found: &mut ArrayVec<&'a [u8], MOST_WORDS>, piece: &'a [u8])
    requires room { length found.old.items < 8 }
    requires few { length piece.now ≤ LONGEST_LINE }
    requires short { All (λ w. length w.now ≤ LONGEST_LINE) found.old.items }
    ensures items { map (λ w. w.now) found.new.items ≡ map (λ w. w.now) found.old.items ++ piece_words piece.now }
    ensures short { All (λ w. length w.now ≤ LONGEST_LINE) found.new.items }
{
    if !piece.is_empty() {
        found.push(piece);
    }
}
