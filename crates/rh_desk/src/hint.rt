//! What helps where words are wrong: a line below the one that says so.

ghost use Rattle.std.specs.Prelude.{◌≡◌, ◌++◌, if◌then◌else◌, map, string_bytes};
ghost use Rattle.rh_desk.specs.Hints.{hint_of, hint_text, is_option as begins_as_option, is_path as has_path};
ghost use Rattle.rh_desk.specs.Hints.{of_option as hint_of_option, of_options as hint_of_options};

use crate::asked::{is, word};
use clap::error::ErrorKind;
use rh_explained::put_shown;
use rh_lines::Pen;

/// What helps where words are wrong.
#[derive(Clone, Copy)]
pub enum Hint {
    /// A script stands in a command's place.
    RunScript,
    /// `help` doesn't know the word behind it.
    CommandsOfHelp,
    /// `help` has more than one command behind it.
    OneOfHelp,
    /// An option stands before its command.
    OptionBehind,
    /// `--marked` belongs to other commands.
    Marked,
    /// `--slot` belongs to another command.
    Slot,
    /// `--pages` belongs to other commands.
    Pages,
    /// A file is named for the output.
    Output,
    /// A second file is to be checked.
    OneFile,
}

impl Hint {
    /// What helps, by the kind of the mistake and the words.
    pub fn of(kind: ErrorKind, words: &[String]) -> Option<Hint>
        ensures { result ≡ hint_of kind (map string_bytes words.now) }
    {
        let verb = word(words, 2);
        match kind {
            ErrorKind::InvalidSubcommand => Some(if !is(verb, b"help") {
                Hint::RunScript
            } else if words.len() > 3 {
                Hint::OneOfHelp
            } else {
                Hint::CommandsOfHelp
            }),
            ErrorKind::UnknownArgument => of_argument(verb, words),
            _ => None,
        }
    }

    /// Writes it as a line. `verb` is the word in the command's place.
    pub fn put<P: Pen>(self, verb: &[u8], pen: &mut P)
        ensures { P.offered pen.new ≡ P.offered pen.old ++ hint_text self verb.now }
    {
        match self {
            Hint::RunScript => {
                pen.put(b"  to run a script: vervainfile run ");
                put_shown(verb, pen);
                pen.put(b"\n");
            }
            Hint::CommandsOfHelp => {
                pen.put(
                    b"  help has run, explain, map, draw, check and commands of scripts, as alloc\n",
                );
            }
            Hint::OneOfHelp => {
                pen.put(b"  help has one command behind it, as alloc or rma claim\n");
            }
            Hint::OptionBehind => {
                pen.put(b"  options stand behind the command, as in run --pages 8 hello.desk\n");
            }
            Hint::Marked => pen.put(b"  --marked belongs to map and draw\n"),
            Hint::Slot => pen.put(b"  --slot belongs to check\n"),
            Hint::Pages => pen.put(b"  --pages belongs to run, explain, map and draw\n"),
            Hint::Output => pen.put(b"  what is written goes to standard output: add >FILE\n"),
            Hint::OneFile => pen.put(b"  one file is checked\n"),
        }
    }
}

/// Whether a word has what paths have and commands don't.
pub fn is_path(word: &[u8]) -> bool
    ensures { result ≡ has_path word.now }
{
    word.contains(&b'.') || word.contains(&b'/')
}

fn is_option(word: &[u8]) -> bool
    ensures { result ≡ begins_as_option word.now }
{
    matches!(word, [b'-', _, ..])
}

/// What helps with an argument that is none.
fn of_argument(verb: &[u8], words: &[String]) -> Option<Hint>
    ensures { result ≡ (if begins_as_option verb.now then Some Hint.OptionBehind
        else hint_of_options verb.now (map string_bytes words.now)) }
{
    if is_option(verb) {
        Some(Hint::OptionBehind)
    } else {
        of_options(verb, words)
    }
}

/// What helps with the first option that its command doesn't have.
fn of_options(verb: &[u8], words: &[String]) -> Option<Hint>
    ensures { result ≡ hint_of_options verb.now (map string_bytes words.now) }
{
    for word in words {
        let hint = of_option(verb, word.as_bytes());
        if hint.is_some() {
            return hint;
        }
    }
    if is(verb, b"check") {
        Some(Hint::OneFile)
    } else {
        None
    }
}

fn of_option(verb: &[u8], word: &[u8]) -> Option<Hint>
    ensures { result ≡ hint_of_option verb.now word.now }
{
    if is(word, b"--marked") && !(is(verb, b"map") || is(verb, b"draw")) {
        Some(Hint::Marked)
    } else if is(word, b"--slot") && !is(verb, b"check") {
        Some(Hint::Slot)
    } else if is(word, b"--pages") && is(verb, b"check") {
        Some(Hint::Pages)
    } else if is(word, b"-o") || is(word, b"--output") {
        Some(Hint::Output)
    } else {
        None
    }
}
