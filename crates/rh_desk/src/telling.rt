//! What the program tells of faults.

ghost use Rattle.std.specs.Prelude.{◌≡◌, ◌≢◌, ◌⊎◌, ◌≤◌, ◌++◌, ℕ, List, codes, map, string_bytes};
ghost use Rattle.clap.specs.Values.{kind_of};
ghost use Rattle.rh_desk.specs.Hints.{mistake_text};
ghost use Rattle.rh_desk.specs.ProgramEnd.{ending_of, exit_status};
ghost use Rattle.rh_desk.specs.Reasons.{loss_text};
ghost use Rattle.rh_desk.specs.Telling.{Tells, TellsMistake, bad_word_text, lost_file_text, run_fault_text};
ghost use Rattle.rh_desk.specs.Telling.{shown_path};
ghost use Rattle.rh_lines.specs.Flow.{Breaks, Takes};

use crate::asked::word;
use crate::hint::Hint;
use crate::mistakes::put_mistake;
use crate::program_end::ProgramEnd;
use crate::reasons::{FileLoss, WordFault};
use clap::Error;
use clap::error::ErrorKind;
use rh_explained::put_shown;
use rh_lines::{Pen, Sink, WriterPen, put};
use rh_run::{RunFault, Status};
use std::alloc::Global;

/// So many bytes of what is told are held, and written by one call.
const HELD: usize = 600;

/// How a run's outcome ends the program; a fault is told.
#[tactic(auto, using(crate::proofs::TellLemmas::puts_tells))]
pub fn ended<E: Sink>(outcome: Result<Status, RunFault>, errors: &mut E) -> ProgramEnd
    ensures ending { result ≡ ending_of outcome }
    ensures quiet { (status : Status) → outcome ≡ Ok status → E.output errors.new ≡ E.output errors.old }
    ensures errors { (fault : RunFault) → outcome ≡ Err fault
        → Tells (E.output errors.old) (E.output errors.new) (run_fault_text fault) }
{
    match outcome {
        Ok(Status::Clean) => ProgramEnd::Clean,
        Ok(Status::BadLines) => ProgramEnd::BadLines,
        Err(fault) => {
            let _told = put(errors, run_fault_text(fault));
            ProgramEnd::Fault
        }
    }
}

/// What is told of the fault that stopped a run.
fn run_fault_text(fault: RunFault) -> &'static [u8]
    ensures { result.now ≡ run_fault_text fault }
{
    match fault {
        RunFault::NoMemory => b"rh_desk: no memory\n",
        RunFault::ReadFailed => b"rh_desk: read failed\n",
        RunFault::WriteFailed => b"rh_desk: write failed\n",
        RunFault::TooLong => b"rh_desk: script too long\n",
    }
}

/// Prints what `clap` says of the words: help and version to the output, anything else to the errors.
pub fn tell_words_error<O: Sink, E: Sink>(
    alloc: Global,
    words: &[String],
    error: &Error,
    output: &mut O,
    errors: &mut E,
) -> ProgramEnd
    ensures not_run { result ≡ ProgramEnd.BadLines → ⊥ }
    ensures memory { kind_of error.now ≡ ErrorKind.OutOfMemory → result ≡ ProgramEnd.Fault }
    ensures shown { result ≡ ProgramEnd.Clean → (kind_of error.now ≡ ErrorKind.DisplayHelp)
        ⊎ (kind_of error.now ≡ ErrorKind.DisplayVersion) }
    ensures written { result ≡ ProgramEnd.Clean → (text : List ℕ) × Takes (O.output output.old) (O.output output.new)
        text }
    ensures mistake { result ≡ ProgramEnd.WrongWords → (kind_of error.now ≢ ErrorKind.DisplayHelp)
        × (kind_of error.now ≢ ErrorKind.DisplayVersion) }
    ensures errors { result ≡ ProgramEnd.WrongWords → TellsMistake (kind_of error.now) (map string_bytes words.now)
        (E.output errors.old) (E.output errors.new) }
    ensures well { exit_status result ≤ 1 → (O.output output.new).failed ≡ (O.output output.old).failed }
    ensures wrong { result ≡ ProgramEnd.WrongWords → O.output output.new ≡ O.output output.old }
    ensures quiet { result ≡ ProgramEnd.Clean → E.output errors.new ≡ E.output errors.old }
    ensures fault { result ≡ ProgramEnd.Fault →
        (Tells (E.output errors.old) (E.output errors.new) (run_fault_text RunFault.NoMemory)
        × (O.output output.new ≡ O.output output.old))
        ⊎ (Tells (E.output errors.old) (E.output errors.new) (run_fault_text RunFault.WriteFailed)
        × ((text : List ℕ) × Breaks (O.output output.old) (O.output output.new) text)
        × ((kind_of error.now ≡ ErrorKind.DisplayHelp) ⊎ (kind_of error.now ≡ ErrorKind.DisplayVersion))) }
{
    let text = match error.to_string(alloc) {
        Ok(text) if error.kind() != ErrorKind::OutOfMemory => text,
        _ => return ended(Err(RunFault::NoMemory), errors),
    };
    if error.use_stderr() {
        let hint = Hint::of(error.kind(), words);
        tell_mistake(hint, word(words, 2), text.as_bytes(), errors);
        return ProgramEnd::WrongWords;
    }
    match put(output, text.as_bytes()) {
        Ok(()) => ProgramEnd::Clean,
        Err(_) => ended(Err(RunFault::WriteFailed), errors),
    }
}

/// Tells of a mistake in the words, as `clap` has it, and below its first line what helps.
fn tell_mistake<E: Sink>(hint: Option<Hint>, verb: &[u8], text: &[u8], errors: &mut E)
    ensures { Tells (E.output errors.old) (E.output errors.new) (mistake_text hint verb.now text.now) }
{
    let mut room = [0; HELD];
    let mut pen = WriterPen::new(errors, &mut room);
    put_mistake(hint, verb, text, &mut pen);
    let _told = pen.finish();
}

/// Tells of a file that can't be opened, or can't be read whole, and why.
pub fn tell_file<E: Sink>(path: &str, loss: FileLoss, errors: &mut E) -> ProgramEnd
    ensures ending { result ≡ ProgramEnd.Fault }
    ensures errors { Tells (E.output errors.old) (E.output errors.new) (lost_file_text path.now loss) }
{
    let mut room = [0; HELD];
    let mut pen = WriterPen::new(errors, &mut room);
    put_lost_file(path, loss, &mut pen);
    let _told = pen.finish();
    ProgramEnd::Fault
}

fn put_lost_file<P: Pen>(path: &str, loss: FileLoss, pen: &mut P)
    ensures { P.offered pen.new ≡ P.offered pen.old ++ lost_file_text path.now loss }
{
    pen.put(b"rh_desk: file ");
    put_path(path, pen);
    pen.put(b"\n");
    pen.put(loss.text());
}

/// Tells that a script which can't be read is a folder.
#[tactic(auto, using(crate::proofs::TellLemmas::puts_tells))]
pub fn tell_folder<E: Sink>(errors: &mut E)
    ensures { Tells (E.output errors.old) (E.output errors.new) (loss_text FileLoss.Folder) }
{
    let _told = put(errors, FileLoss::Folder.text());
}

fn put_path<P: Pen>(path: &str, pen: &mut P)
    ensures { P.offered pen.new ≡ P.offered pen.old ++ shown_path path.now }
{
    if path.is_empty() {
        pen.put(b"'' (an empty path)");
    } else {
        put_shown(path.as_bytes(), pen);
    }
}

/// Tells of a bad NAME=PATH word, and why.
pub fn tell_bad_word<E: Sink>(word: &str, errors: &mut E) -> ProgramEnd
    ensures ending { result ≡ ProgramEnd.WrongWords }
    ensures errors { Tells (E.output errors.old) (E.output errors.new) (bad_word_text word.now) }
{
    let mut room = [0; HELD];
    let mut pen = WriterPen::new(errors, &mut room);
    put_bad_word(word, &mut pen);
    let _told = pen.finish();
    ProgramEnd::WrongWords
}

fn put_bad_word<P: Pen>(word: &str, pen: &mut P)
    ensures { P.offered pen.new ≡ P.offered pen.old ++ bad_word_text word.now }
{
    pen.put(b"rh_desk: bad file word ");
    put_shown(word.as_bytes(), pen);
    pen.put(b"\n");
    pen.put(WordFault::of(word).text());
}
