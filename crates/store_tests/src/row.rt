//! A row of the data: words, some of which are numbers.

/// A line, of which words and numbers are asked by their places.
#[derive(Drop)]
pub(crate) struct Row<'a> {
    line: &'a str,
}

impl<'a> Row<'a> {
    pub(crate) fn new(line: &'a str) -> Row<'a> {
        Row { line }
    }

    /// The word at a place, from 0 on.
    pub(crate) fn word(&self, at: usize) -> Option<&'a str> {
        self.line.split_whitespace().nth(at)
    }

    /// The number at a place, in decimal, or behind `&` in hexadecimal.
    pub(crate) fn size(&self, at: usize) -> Option<usize> {
        let word = self.word(at)?;
        match word.strip_prefix('&') {
            Some(digits) => usize::from_str_radix(digits, 16).ok(),
            None => word.parse().ok(),
        }
    }

    /// The number at a place, if a word of the memory holds it.
    pub(crate) fn number(&self, at: usize) -> Option<u32> {
        u32::try_from(self.size(at)?).ok()
    }

    /// The bytes of the word at a place, none where the line ends before.
    pub(crate) fn bytes(&self, at: usize) -> &'a [u8] {
        self.word(at).unwrap_or("").as_bytes()
    }
}
