//! How the program ends on words, and how it has to.

use crate::same::same;
use arrayvec::ArrayVec;
use rh_desk::program;
use rh_lines::Flagged;
use std::alloc::{AllocError, Global};
use std::io::Read;
use std::process::Abort;
use std::rt;

/// What the program wrote to its output and its errors, and its exit status.
#[derive(Drop)]
pub(crate) struct Ended {
    output: ArrayVec<u8, 4096>,
    errors: ArrayVec<u8, 1024>,
    status: u8,
}

/// Words, and how the program has to end on them.
#[derive(Clone, Copy)]
pub(crate) struct Trial<'a> {
    pub(crate) words: &'a [&'a str],
    pub(crate) output: &'a str,
    pub(crate) errors: &'a str,
    pub(crate) status: u8,
}

impl<'a> Trial<'a> {
    pub(crate) fn new(
        words: &'a [&'a str],
        output: &'a str,
        errors: &'a str,
        status: u8,
    ) -> Trial<'a> {
        Trial {
            words,
            output,
            errors,
            status,
        }
    }

    /// The program's own name, and the words behind it.
    pub(crate) fn all_words(&self, alloc: Global) -> Result<Vec<String>, AllocError> {
        let mut all = Vec::new(alloc);
        all.push(String::from_str(alloc, "vervainfile")?)?;
        for word in self.words {
            all.push(String::from_str(alloc, word)?)?;
        }
        Ok(all)
    }

    /// Whether the program has ended so.
    pub(crate) fn is_met(&self, ended: &Ended) -> bool {
        ended.output.as_slice() == self.output.as_bytes()
            && ended.errors.as_slice() == self.errors.as_bytes()
            && ended.status == self.status
    }

    /// Ends the test where the program hasn't ended so.
    pub(crate) fn meets(&self, rt: &impl Abort, ended: &Ended) {
        let words = self.words;
        let output = self.output.as_bytes();
        same(rt, (words, ended.output.as_slice()), (words, output));
        let errors = self.errors.as_bytes();
        same(rt, (words, ended.errors.as_slice()), (words, errors));
        same(rt, (words, ended.status), (words, self.status));
    }
}

/// How the program ends on all of its words, over these files and this input.
pub(crate) fn end_of<F: rt::Files, I: Read + Drop>(
    files: &F,
    alloc: Global,
    words: &[String],
    input: I,
) -> Ended {
    let mut reader = Flagged::new(input);
    let mut output = Flagged::new(ArrayVec::new());
    let mut errors = Flagged::new(ArrayVec::new());
    let status = program(files, alloc, words, &mut reader, &mut output, &mut errors);
    Ended {
        output: output.into_inner(),
        errors: errors.into_inner(),
        status,
    }
}
