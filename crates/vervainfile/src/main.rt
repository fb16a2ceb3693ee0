//! Runs scripts over the memory of a desktop: the program of `rh_desk`, over the words and streams of the process.
#![tactic(auto)]

use rh_desk::{program, words_unread};
use rh_lines::Flagged;
use std::alloc::Global;
use std::process::ExitCode;
use std::{env, io};

fn main(rt: HostRuntime) -> ExitCode {
    let alloc = rt.alloc();
    let mut input = Flagged::new(rt.stdin());
    let mut output = Flagged::new(rt.stdout());
    let mut errors = Flagged::new(rt.stderr());
    ExitCode::from(match words_of(&rt, alloc) {
        Ok(words) => program(
            &rt,
            alloc,
            words.as_slice(),
            &mut input,
            &mut output,
            &mut errors,
        ),
        Err(error) => words_unread(&error, &mut errors),
    })
}

/// The words of the process, its own name first.
fn words_of(rt: &HostRuntime, alloc: Global) -> io::Result<Vec<String>> {
    Ok(env::args(rt)?.collect(alloc)?)
}
