//! The files that a run is given, and the one that is checked.

ghost use Rattle.std.specs.Prelude.{◌≡◌, ◌⊎◌, ◌≤◌, ◌+◌, ◌++◌, ℕ, List, All, IfOk, IfErr, IfSome, map, take, vec_len};
ghost use Rattle.std.specs.Prelude.{vec_items};
ghost use Rattle.std.specs.Option.{option_map};
ghost use Rattle.rh_defs.specs.declared.sizes.TheConstants.{LONGEST_FILE};
ghost use Rattle.rh_desk.specs.Done.{IsWhole};
ghost use Rattle.rh_desk.specs.ProgramEnd.{exit_status};
ghost use Rattle.rh_desk.specs.FileWords.{AreGood, IsFirstBad, word_name};
ghost use Rattle.rh_desk.specs.Inner.WordOfFile.{file_word};
ghost use Rattle.rh_desk.specs.Telling.{Tells, TellsBadFile, TellsBadWord, TellsLoss, run_fault_text};

use crate::program_end::ProgramEnd;
use crate::reasons::FileLoss;
use crate::telling::{ended, tell_bad_word, tell_file};
use rh_defs::sizes::LONGEST_FILE;
use rh_defs::{Files, Name};
use rh_lines::Sink;
use rh_run::RunFault;
use std::alloc::Global;
use std::fs::File;
use std::io::{self, Read};
use std::rt;

/// Looks over all the NAME=PATH words before any file is read. The first bad one is told: one that isn't a name, `=`
/// and a path of at least one byte, or whose name was given before.
pub fn check_words<E: Sink>(alloc: Global, words: &[&str], errors: &mut E) -> Result<(), ProgramEnd>
    ensures status { IfErr result (λ ending. 2 ≤ exit_status ending) }
    ensures good { IfOk result (λ _. AreGood (map (λ word. word.now) words.now)) }
    ensures quiet { IfOk result (λ _. E.output errors.new ≡ E.output errors.old) }
    ensures errors { IfErr result (TellsBadWord (E.output errors.old) (E.output errors.new)
        (map (λ word. word.now) words.now)) }
{
    let mut seen = Files::new(alloc);
    for word in words {
        let Some((name, _)) = file_word(word) else {
            return Err(tell_bad_word(word, errors));
        };
        if seen.contains(&name) {
            return Err(tell_bad_word(word, errors));
        }
        if seen.insert(name, Vec::new(alloc)).is_err() {
            return Err(ended(Err(RunFault::NoMemory), errors));
        }
    }
    Ok(())
}

/// Reads the files of NAME=PATH words, in the order given. What can't be read is told.
pub fn read_files<R: rt::Files, E: Sink>(
    runtime: &R,
    alloc: Global,
    words: &[&str],
    errors: &mut E,
) -> Result<Files, ProgramEnd>
    ensures status { IfErr result (λ ending. 2 ≤ exit_status ending) }
    ensures named { IfOk result (λ files. map (λ file. file.0) files ≡ map (λ word. word_name word.now) words.now) }
    ensures whole { IfOk result (λ files. All (λ file. IsWhole R.File.remaining file.1) files) }
    ensures wrong { IfErr result (λ ending. ending ≡ ProgramEnd.WrongWords → (word : List ℕ) × IsFirstBad
        (map (λ word. word.now) words.now) word) }
    ensures quiet { IfOk result (λ _. E.output errors.new ≡ E.output errors.old) }
    ensures errors { IfErr result (TellsBadFile R.File.remaining (E.output errors.old) (E.output errors.new)
        (map (λ word. word.now) words.now)) }
{
    let mut files = Files::new(alloc);
    for word in words {
        let Some((name, path)) = file_word(word) else {
            return Err(tell_bad_word(word, errors));
        };
        let bytes = read_whole(runtime, alloc, path, errors)?;
        if files.contains(&name) {
            return Err(tell_bad_word(word, errors));
        }
        if files.insert(name, bytes).is_err() {
            return Err(ended(Err(RunFault::NoMemory), errors));
        }
    }
    Ok(files)
}

/// The name and the path of a NAME=PATH word.
fn file_word(word: &str) -> Option<(Name, &str)>
    ensures { option_map (λ found. (found.0, found.1.now)) result ≡ file_word word.now }
{
    let (name, path) = word.split_once('=')?;
    let name = Name::new(name.as_bytes())?;
    if path.is_empty() || !name.is_valid() {
        return None;
    }
    Some((name, path))
}

/// All bytes of a file. One that can't be opened or read, or has too many bytes, is told.
pub fn read_whole<R: rt::Files, E: Sink>(
    runtime: &R,
    alloc: Global,
    path: &str,
    errors: &mut E,
) -> Result<Vec<u8>, ProgramEnd>
    ensures ok { IfOk result (λ bytes. vec_len bytes ≤ LONGEST_FILE) }
    ensures whole { IfOk result (λ bytes. IsWhole R.File.remaining (vec_items bytes)) }
    ensures err { IfErr result (λ ending. ending ≡ ProgramEnd.Fault) }
    ensures errors { IfErr result (λ ending.
        TellsLoss R.File.remaining (E.output errors.old) (E.output errors.new) path.now
        ⊎ Tells (E.output errors.old) (E.output errors.new) (run_fault_text RunFault.NoMemory)) }
    ensures quiet { IfOk result (λ _. E.output errors.new ≡ E.output errors.old) }
{
    let mut bytes = Vec::new(alloc);
    match read_into(runtime, path, &mut bytes) {
        Ok(()) if bytes.len() <= LONGEST_FILE => Ok(bytes),
        Ok(()) => Err(tell_file(path, FileLoss::TooLong, errors)),
        Err(error) if error.kind() == io::ErrorKind::OutOfMemory => {
            Err(ended(Err(RunFault::NoMemory), errors))
        }
        Err(error) => Err(tell_file(path, FileLoss::of(&error), errors)),
    }
}

/// Reads a file up to one byte more than it may have.
fn read_into<R: rt::Files>(runtime: &R, path: &str, bytes: &mut Vec<u8>) -> io::Result<()>
    ensures { IfOk result (λ _. (file : R.File) × IfSome (R.File.remaining file)
        (λ had. vec_items bytes.new ≡ vec_items bytes.old ++ take 1048577 had)) }
{
    let file = File::open(runtime, path)?;
    file.take(LONGEST_FILE as u64 + 1).read_to_end(bytes)?;
    Ok(())
}
