//! A row of the data: words, some of which are numbers.

use rh_defs::{Anchor, Handle, Ref};

/// A line, of which words and numbers are asked by their places.
#[derive(Drop)]
pub(crate) struct Row<'a> {
    line: &'a str,
}

impl<'a> Row<'a> {
    pub(crate) fn new(line: &'a str) -> Row<'a> {
        Row { line }
    }

    /// The word at a place, from 0 on.
    pub(crate) fn word(&self, at: usize) -> Option<&'a str> {
        self.line.split_whitespace().nth(at)
    }

    /// The number at a place, in decimal, or behind `&` in hexadecimal.
    pub(crate) fn number(&self, at: usize) -> Option<u32> {
        let word = self.word(at)?;
        match word.strip_prefix('&') {
            Some(digits) => u32::from_str_radix(digits, 16).ok(),
            None => word.parse().ok(),
        }
    }

    pub(crate) fn handle(&self, at: usize) -> Option<Handle> {
        Some(Handle(self.number(at)?))
    }

    pub(crate) fn message(&self, at: usize) -> Option<Ref> {
        Some(Ref(self.number(at)?))
    }

    pub(crate) fn anchor(&self, at: usize) -> Option<Anchor> {
        Some(Anchor(u8::try_from(self.number(at)?).ok()?))
    }
}
