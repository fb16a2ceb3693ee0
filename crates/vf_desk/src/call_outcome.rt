//! What a call with a command came to, and its words and numbers for C.
ghost use Rattle.std.specs.Prelude.{◌≡◌};
ghost use Rattle.vf_desk.specs.CallOutcome.{done_or, number_or, only_or, status_of, sums_or, was_or};

use crate::items::VfHeapSums;
use crate::status::{BAD_ARGUMENT, CLOSED, OK, refusal_number};
use rh_defs::{Numbers, Reply};

/// What a call with a command came to.
#[derive(Clone, Copy)]
pub enum CallOutcome {
    /// The desk isn't open.
    Closed,
    /// An argument isn't of its form, so that there is no command.
    BadArgument,
    /// The reply to the command.
    Said(Reply),
}

impl CallOutcome {
    /// Its status.
    pub fn status(&self) -> u32
        ensures { result ≡ status_of self.now }
    {
        match self {
            CallOutcome::Closed => CLOSED,
            CallOutcome::BadArgument => BAD_ARGUMENT,
            CallOutcome::Said(Reply::Refused(refusal)) => refusal_number(*refusal),
            CallOutcome::Said(_) => OK,
        }
    }

    /// Its status. The one number of the reply is told, if it has one.
    pub fn give_number(&self, number: &mut u32) -> u32
        ensures status { result ≡ status_of self.now }
        ensures number { number.new ≡ number_or self.now number.old }
    {
        match self {
            CallOutcome::Said(Reply::Started(handle)) => *number = handle.0,
            CallOutcome::Said(Reply::Sent(r)) | CallOutcome::Said(Reply::Answering(r)) => {
                *number = r.0;
            }
            CallOutcome::Said(Reply::Block { address }) => *number = *address,
            CallOutcome::Said(Reply::Moved { bytes }) => *number = *bytes,
            CallOutcome::Said(Reply::Made { number: made }) => *number = *made,
            CallOutcome::Said(Reply::Answered(numbers)) => tell(numbers, number),
            _ => {}
        }
        self.status()
    }

    /// Its status. A count is told, if the command was done.
    pub fn give_count(&self, n: usize, count: &mut usize) -> u32
        ensures status { result ≡ status_of self.now }
        ensures count { count.new ≡ done_or self.now n count.old }
    {
        let status = self.status();
        if status == OK {
            *count = n;
        }
        status
    }

    /// Its status. Whether budging was on is told, if it says so.
    pub fn give_was(&self, was: &mut bool) -> u32
        ensures status { result ≡ status_of self.now }
        ensures was { was.new ≡ was_or self.now was.old }
    {
        if let CallOutcome::Said(Reply::WasBudging(on)) = self {
            *was = *on;
        }
        self.status()
    }

    /// Its status. The sums over a C heap are told, if it has some.
    pub fn give_sums(&self, sums: &mut VfHeapSums) -> u32
        ensures status { result ≡ status_of self.now }
        ensures sums { sums.new ≡ sums_or self.now sums.old }
    {
        if let CallOutcome::Said(
            Reply::Answered(
                Numbers::HeapSums {
                    length,
                    largest,
                    free,
                },
            ),
        ) = self
        {
            *sums = VfHeapSums {
                length: *length,
                largest: *largest,
                free: *free,
            };
        }
        self.status()
    }
}

/// Tells the number of an answer's first line, if there is one alone.
fn tell(numbers: &Numbers, number: &mut u32)
    ensures { number.new ≡ only_or numbers.now number.old }
{
    if let [only] = numbers.each().as_slice() {
        *number = *only;
    }
}
