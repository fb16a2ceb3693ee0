//! What a writer has taken at one time, which clauses alone see.

ghost use Rattle.std.specs.Prelude.{◌≡◌};
ghost use Rattle.std.specs.Borrow.{ftrue};
ghost use Rattle.rh_lines.specs.Flow.{Output};

use crate::sink::Sink;
use std::marker::{Model, PhantomData};

/// What a writer had taken when it was noted, which clauses alone see. It takes no memory.
#[derive(Drop)]
pub struct NotedOutput {
    marker: PhantomData<u8>,
    pub ghost output: { Output },
}

impl Model for NotedOutput {
    ghost also_owns = { λ _. ftrue };
}

impl NotedOutput {
    /// Notes what this writer has taken.
    pub fn of<W: Sink>(writer: &W) -> NotedOutput
        ensures { result.output ≡ W.output writer.now }
    {
        NotedOutput::picked(writer)
    }

    /// Notes the output that the caller's proof picks, by the writer.
    fn picked<W: Sink>(_writer: &W) -> NotedOutput
        ghost output: { Output }
        ensures { result.output ≡ output }
    {
        NotedOutput::at()
    }

    /// Notes the output that the caller's proof picks.
    fn at() -> NotedOutput
        ghost output: { Output }
        ensures { result.output ≡ output }
    {
        NotedOutput {
            marker: PhantomData,
        }
    }
}
