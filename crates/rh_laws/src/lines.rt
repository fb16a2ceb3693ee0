//! The lines that spell commands.

ghost use Rattle.rh_laws.specs.Printer.{AreRead, AreSpelled};

/// A command that a line can spell is what the line printed for it means; and what a line means is a command that a
/// line can spell, whose printed line is not the longer one. A line has at most 1,024 bytes before its line feed.
pub fn line_law()
    ensures read { AreRead }
    ensures spelled { AreSpelled }
{}
