//! The program where memory is short: with more and more of it, it tells that memory was refused, until it ends as it
//! should.

use crate::ends::{Ended, Trial, end_of};
use crate::memory::{CALLS, STEP, TRIALS};
use crate::same::same;
use crate::scarce::Scarce;
use std::alloc::Global;
use std::process::Abort;
use std::test::Fail;
use std::{fs, rt};

/// How the program ends on these words.
fn ended<R: rt::Files + AllocGlobal>(runtime: &R, words: &[String]) -> Ended {
    let alloc: Global = runtime.alloc();
    end_of(runtime, alloc, words, b"areas\n".as_slice())
}

/// The program ends on these words as it should.
#[inline(never)]
fn ends<R: Abort + rt::Files + AllocGlobal>(runtime: &R, words: &[String], trial: &Trial<'_>) {
    trial.meets(runtime, &ended(runtime, words));
}

/// The program ends on these words as it should, so many calls further down. Answers how many these are.
fn ends_below<R: Abort + rt::Files + AllocGlobal>(
    runtime: &R,
    words: &[String],
    trial: &Trial<'_>,
    calls: u32,
) -> u32 {
    if calls == 0 {
        ends(runtime, words, trial);
        return 0;
    }
    let below = ends_below(runtime, words, trial, calls - 1);
    same(runtime, below, calls - 1);
    calls
}

/// Tries the program with more and more memory, until it ends as it should. Before that it tells that memory was
/// refused, and nothing else.
fn try_program<R: Abort + rt::Files + AllocGlobal>(
    runtime: &R,
    trial: &Trial<'_>,
) -> Result<(), Fail> {
    let alloc: Global = runtime.alloc();
    let all = trial.all_words(alloc)?;
    let no_memory = Trial::new(trial.words, "", "rh_desk: no memory\n", 3);
    let scarce = Scarce::new(alloc)?;
    let is_short = scarce.is_short(alloc);
    let mut refused = 0;
    for turn in 0..TRIALS {
        let _taken = scarce.leave(alloc, STEP * turn);
        let found = ended(runtime, all.as_slice());
        if trial.is_met(&found) {
            break;
        }
        no_memory.meets(runtime, &found);
        refused = turn + 1;
    }
    same(
        runtime,
        (trial.words, 0 < refused || !is_short),
        (trial.words, true),
    );
    drop(scarce);
    trial.meets(runtime, &ended(runtime, all.as_slice()));
    Ok(())
}

/// Tries the program on each of these words, at first with all memory.
fn try_all<R: Abort + rt::Files + AllocGlobal>(
    runtime: &R,
    trials: &[Trial<'_>],
) -> Result<(), Fail> {
    let alloc: Global = runtime.alloc();
    for trial in trials {
        let all = trial.all_words(alloc)?;
        let depth = ends_below(runtime, all.as_slice(), trial, CALLS);
        same(runtime, depth, CALLS);
    }
    for trial in trials {
        try_program(runtime, trial)?;
    }
    Ok(())
}

/// The answer to `areas` over 64 pages, of which the module area has one.
const AREAS_OF_64: &str =
    "ok 63\n  area 0 0\n  area 1 1\n  area 2 0\n  area 3 0\n  area 4 0\n  area 5 0\n";

/// The answer to `areas` over 8 pages, of which the module area has one.
const AREAS_OF_8: &str =
    "ok 7\n  area 0 0\n  area 1 1\n  area 2 0\n  area 3 0\n  area 4 0\n  area 5 0\n";

/// The words of a run of the input over 8 pages.
const RUN_OF_8_PAGES: [&str; 4] = ["run", "--pages", "8", "-"];

/// The words of a run of a script over a file.
const RUN_OF_A_FILE: [&str; 3] = ["run", "short.desk", "f=short.bin"];

/// Words that give two files one name.
const RUN_OF_TWO_NAMES: [&str; 4] = ["run", "short.desk", "f=x", "f=x"];

/// The words of a check of a file that is there, as a heap and as a slot, and of one that isn't.
const CHECK: [&str; 2] = ["check", "short.bin"];

const CHECK_OF_A_SLOT: [&str; 3] = ["check", "--slot", "short.bin"];

const CHECK_OF_NO_FILE: [&str; 2] = ["check", "lost.bin"];

#[test]
fn runs_and_checks_are_refused_memory_in_turn(rt: HostRuntime) -> Result<(), Fail> {
    fs::write(&rt, "short.desk", "task a 100\nload a 0 f\nshow a 0\n")?;
    fs::write(&rt, "short.bin", "hello")?;
    let shown = "ok 1\nok &9008\nok 5 68656c6c6f\n";
    let lost = "rh_desk: file lost.bin\n  no such file\n";
    let bad_word = "rh_desk: bad file word f=x\n  its name is given twice\n";
    let trials = [
        Trial::new(&[], AREAS_OF_64, "", 0),
        Trial::new(&RUN_OF_8_PAGES, AREAS_OF_8, "", 0),
        Trial::new(&RUN_OF_A_FILE, shown, "", 0),
        Trial::new(&CHECK, "bad BadDescriptor\n", "", 1),
        Trial::new(&CHECK_OF_A_SLOT, "bad BadLength\n", "", 1),
        Trial::new(&CHECK_OF_NO_FILE, "", lost, 3),
        Trial::new(&RUN_OF_TWO_NAMES, "", bad_word, 2),
    ];
    try_all(&rt, &trials)?;
    fs::remove_file(&rt, "short.desk")?;
    fs::remove_file(&rt, "short.bin")?;
    Ok(())
}

/// What `clap` says of a subcommand that there isn't.
const NO_SUBCOMMAND: &str = "\
error: unrecognized subcommand 'walk'
  to run a script: vervainfile run walk

Usage: vervainfile run [--pages N] SCRIPT [NAME=PATH ...]
       vervainfile explain [--pages N] SCRIPT [NAME=PATH ...]
       vervainfile map [--pages N] [--marked] SCRIPT [NAME=PATH ...]
       vervainfile draw [--pages N] [--marked] [--lens] SCRIPT [NAME=PATH ...]
       vervainfile check [--slot] FILE
       vervainfile help COMMAND  (one of these, or of a script, as alloc)
       vervainfile               (with no words: the script on standard input)

For more information, try '--help'.
";

/// What it says of a number below the range.
const TOO_FEW_PAGES: &str = "\
error: invalid value '7' for '--pages <N>': 7 is not in 8..=1024

For more information, try '--help'.
";

/// Its help on the program.
const HELP: &str = "\
The memory of a desktop, shared by its tasks

Usage: vervainfile run [--pages N] SCRIPT [NAME=PATH ...]
       vervainfile explain [--pages N] SCRIPT [NAME=PATH ...]
       vervainfile map [--pages N] [--marked] SCRIPT [NAME=PATH ...]
       vervainfile draw [--pages N] [--marked] [--lens] SCRIPT [NAME=PATH ...]
       vervainfile check [--slot] FILE
       vervainfile help COMMAND  (one of these, or of a script, as alloc)
       vervainfile               (with no words: the script on standard input)

Commands:
  run      Run a script and print its replies
  explain  Run a script and say what was wrong with bad and refused lines
  map      Run a script and print a map of memory after each step
  draw     Run a script and print memory after each step as a page of HTML
  check    Say whether a file's bytes are a heap or a slot, and what it has
  help     Print this message or the help of the given subcommand(s)

Options:
  -h, --help     Print help
  -V, --version  Print version

With no words at all the script on standard input is run, over 64 pages and
without files.

Example:
  vervainfile run --pages 8 hello.desk picture=logo.spr

Exit status:
  0  each line was good, or the bytes are a heap, or with --slot a slot
  1  a line was bad, or explain met a refused command, or the bytes are none
  2  the words are wrong
  3  a file, read, write, length or memory fault
";

#[test]
fn help_and_wrong_words_are_refused_memory_in_turn(rt: HostRuntime) -> Result<(), Fail> {
    let too_few = ["run", "--pages", "7", "-"];
    let trials = [
        Trial::new(&["walk"], "", NO_SUBCOMMAND, 2),
        Trial::new(&too_few, "", TOO_FEW_PAGES, 2),
        Trial::new(&["--help"], HELP, "", 0),
    ];
    try_all(&rt, &trials)
}
