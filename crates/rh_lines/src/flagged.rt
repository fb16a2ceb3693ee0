//! Readers and writers of std, with what is noted of their calls.

ghost use Rattle.std.specs.Prelude.{◌≡◌, ◌≤◌, false};

use crate::sink::{Sink, WriteFailed};
use crate::source::{ReadFailed, Source};
use std::io::{Read, Write};

/// A reader or a writer that notes whether a call failed, and how many reads gave bytes.
/// A writer that is offered bytes and takes none has failed too.
#[derive(Drop)]
pub struct Flagged<T> {
    inner: T,
    failed: bool,
    reads: u32,
    // the count stays where it is once it is one above 1,000,000
    ghost counted: { reads ≤ 1000001 },
}

impl<T> Flagged<T> {
    ghost use Rattle.rh_lines.specs.Noted.{inner_of, has_failed, reads_of};

    /// This reader or writer, of which nothing is noted yet.
    pub fn new(inner: T) -> Self
        ensures inner { inner_of result ≡ inner }
        ensures failed { has_failed result ≡ false }
        ensures reads { reads_of result ≡ 0 }
    {
        Flagged {
            inner,
            failed: false,
            reads: 0,
        }
    }

    /// The reader or writer itself.
    pub fn into_inner(self) -> T
        ensures { result ≡ inner_of self }
    {
        let Flagged {
            inner,
            failed: _,
            reads: _,
        } = self;
        inner
    }
}

impl<R: Read> Source for Flagged<R> {
    ghost use Rattle.rh_lines.specs.Flow.{Input};

    ghost input = { λ s. record { left = R.remaining s.inner; failed = s.failed; reads = s.reads } };

    fn read(&mut self, buffer: &mut [u8]) -> Result<usize, ReadFailed> {
        match self.inner.read(buffer) {
            Ok(n) => {
                if n > 0 && self.reads < 1_000_001 {
                    self.reads += 1;
                }
                Ok(n)
            }
            Err(_) => {
                self.failed = true;
                Err(ReadFailed)
            }
        }
    }
}

impl<W: Write> Sink for Flagged<W> {
    ghost use Rattle.std.specs.Prelude.{None};
    ghost use Rattle.rh_lines.specs.Flow.{Output};

    ghost output = { λ s. record { taken = W.contents s.inner; count = None; failed = s.failed } };

    fn write(&mut self, bytes: &[u8]) -> Result<usize, WriteFailed> {
        match self.inner.write(bytes) {
            Ok(n) => {
                if n == 0 && !bytes.is_empty() {
                    self.failed = true;
                }
                Ok(n)
            }
            Err(_) => {
                self.failed = true;
                Err(WriteFailed)
            }
        }
    }
}
