//! What words stand for before `clap` looks at them.

ghost use Rattle.std.specs.Prelude.{◌≡◌, ◌<◌, map, string_bytes};
ghost use Rattle.std.specs.Str.{bytes_eq};
ghost use Rattle.rh_defs.specs.Line.{nth_word};
ghost use Rattle.rh_desk.specs.Asked.{is_of_program as is_program_word, is_verb as is_command};
ghost use Rattle.rh_desk.specs.Asked.{kind_asked as kind_of_asked, meant_words};

use rh_explained::CommandKind;

/// Word `n`, counted from 1 with the program's own name as the first, or no bytes.
pub fn word(words: &[String], n: usize) -> &[u8]
    requires { 0 < n }
    ensures { result.now ≡ nth_word (map string_bytes words.now) n }
{
    match words.get(n - 1) {
        Some(word) => word.as_bytes(),
        None => &[],
    }
}

/// The command of a script whose help is asked for, as by `help alloc`.
pub fn kind_asked(words: &[String]) -> Option<CommandKind>
    ensures { result ≡ kind_of_asked (map string_bytes words.now) }
{
    if !is(word(words, 2), b"help") {
        return None;
    }
    if words.len() == 3 {
        return CommandKind::named(word(words, 3), b"");
    }
    if words.len() == 4 && is(word(words, 3), b"rma") {
        return CommandKind::named(word(words, 3), word(words, 4));
    }
    None
}

/// The words as they are meant: `run --version` asks for the program's version, and `help -h` for its help.
pub fn meant(words: &[String]) -> &[String]
    ensures { map string_bytes result.now ≡ meant_words (map string_bytes words.now) }
{
    if words.len() == 3 && is_of_program(word(words, 2), word(words, 3)) {
        &words[1..]
    } else {
        words
    }
}

fn is_of_program(verb: &[u8], word: &[u8]) -> bool
    ensures { result ≡ is_program_word verb.now word.now }
{
    (is_verb(verb) && (is(word, b"--version") || is(word, b"-V")))
        || (is(verb, b"help") && (is(word, b"--help") || is(word, b"-h")))
}

fn is_verb(word: &[u8]) -> bool
    ensures { result ≡ is_command word.now }
{
    is(word, b"run")
        || is(word, b"explain")
        || is(word, b"map")
        || is(word, b"draw")
        || is(word, b"check")
        || is(word, b"help")
}

/// Whether a word is this text.
pub fn is(word: &[u8], text: &[u8]) -> bool
    ensures { result ≡ bytes_eq word.now text.now }
{
    word == text
}
