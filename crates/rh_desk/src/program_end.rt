//! How the program ends.

ghost use Rattle.std.specs.Prelude.{◌≡◌};

/// How the program ends.
#[derive(Clone, Copy, Debug, PartialEq, Eq)]
pub enum ProgramEnd {
    /// A clean run, a good heap or slot, help or the version.
    Clean,
    /// A run with a bad line, or bytes that are no heap or slot.
    BadLines,
    /// The words are wrong.
    WrongWords,
    /// A file, read, write, length or memory fault.
    Fault,
}

impl ProgramEnd {
    ghost use Rattle.rh_desk.specs.ProgramEnd.{exit_status};

    /// The exit status, 0 to 3.
    pub fn exit_status(self) -> u8
        ensures { result ≡ exit_status self }
    {
        match self {
            ProgramEnd::Clean => 0,
            ProgramEnd::BadLines => 1,
            ProgramEnd::WrongWords => 2,
            ProgramEnd::Fault => 3,
        }
    }
}
