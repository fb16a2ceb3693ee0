//! Why a word or a file can't be used: the line below the one that names it.

ghost use Rattle.std.specs.Prelude.{◌≡◌};
ghost use Rattle.rh_defs.specs.Forms.{is_name as spells_name};
ghost use Rattle.rh_desk.specs.Reasons.{loss_of, loss_text, word_fault, word_fault_text};
ghost use Rattle.std.specs.IoError.{error_kind};

use rh_defs::Name;
use std::io;

/// What is wrong with a NAME=PATH word.
#[derive(Clone, Copy, Debug, PartialEq, Eq)]
pub enum WordFault {
    /// No `=` stands in it.
    NoPair,
    /// What stands before the `=` is no name.
    NoName,
    /// Nothing stands behind the `=`.
    NoPath,
    /// A word before it has its name.
    GivenTwice,
}

impl WordFault {
    /// What is wrong with a bad word: where nothing is by itself, its name was given before.
    pub fn of(word: &str) -> WordFault
        ensures { result ≡ word_fault word.now }
    {
        match word.split_once('=') {
            None => WordFault::NoPair,
            Some((name, _)) if !is_name(name) => WordFault::NoName,
            Some((_, path)) if path.is_empty() => WordFault::NoPath,
            Some(_) => WordFault::GivenTwice,
        }
    }

    /// The line that says so.
    pub fn text(self) -> &'static [u8]
        ensures { result.now ≡ word_fault_text self }
    {
        match self {
            WordFault::NoPair =>
                b"  no = stands in it: one script is run, and files are given as NAME=PATH\n",
            WordFault::NoName => b"  a name has 1 to 12 letters and digits, a letter first\n",
            WordFault::NoPath => b"  no path stands behind the =\n",
            WordFault::GivenTwice => b"  its name is given twice\n",
        }
    }
}

fn is_name(word: &str) -> bool
    ensures { result ≡ spells_name word.now }
{
    match Name::new(word.as_bytes()) {
        Some(name) => name.is_valid(),
        None => false,
    }
}

/// Why a file can't be had.
#[derive(Clone, Copy, Debug, PartialEq, Eq)]
pub enum FileLoss {
    /// No file has this path.
    Missing,
    /// A folder has it.
    Folder,
    /// The program may not read it.
    Denied,
    /// It has more bytes than a file may have.
    TooLong,
    /// The system refused it for another reason.
    Unreadable,
}

impl FileLoss {
    /// Why a file can't be had, by the error of the call that should have opened or read it.
    pub fn of(error: &io::Error) -> FileLoss
        ensures { result ≡ loss_of (error_kind error.now) }
    {
        match error.kind() {
            io::ErrorKind::NotFound | io::ErrorKind::NotADirectory => FileLoss::Missing,
            io::ErrorKind::IsADirectory => FileLoss::Folder,
            io::ErrorKind::PermissionDenied => FileLoss::Denied,
            _ => FileLoss::Unreadable,
        }
    }

    /// The line that says so.
    pub fn text(self) -> &'static [u8]
        ensures { result.now ≡ loss_text self }
    {
        match self {
            FileLoss::Missing => b"  no such file\n",
            FileLoss::Folder => b"  a folder\n",
            FileLoss::Denied => b"  not allowed to be read\n",
            FileLoss::TooLong => b"  more than 1048576 bytes\n",
            FileLoss::Unreadable => b"  can't be read\n",
        }
    }
}
