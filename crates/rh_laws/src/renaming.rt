//! Where the bytes come from that are shown.

ghost use Rattle.rh_laws.specs.Renaming.{AlwaysRenamed, PiecesRenamed, ShowsGiven, ShowsRenamed, StepsRenamed};

/// No command looks at a byte: with the bytes of a desk, its files and its commands renamed, each command does
/// the same and has the same reply, and what is asked has the same answer, but for the bytes that it shows.
/// So each byte that `show` answers after a run is 0, or was put by one of its commands, or is one of its files'. The
/// data of messages aren't renamed: of the bytes that polls hand out the law says nothing.
pub fn renaming_law()
    ensures steps { StepsRenamed }
    ensures shows { ShowsRenamed }
    ensures pieces { PiecesRenamed }
    ensures runs { AlwaysRenamed }
    ensures given { ShowsGiven }
{}
