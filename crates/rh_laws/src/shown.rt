//! Whose the bytes are that a task shows.

ghost use Rattle.rh_laws.specs.MayShow.{AlwaysShowsOwn, AlwaysShowsOwnMarks};

/// After any commands: each byte of a live task's blocks, and each that `show` answers, is 0, or was put, written or
/// loaded by that task, or stood in a block when that was offered or spooled to it, or where it was moved from when it
/// was moved to it. So a task that begins has no other's bytes. Marks tell one byte from another of the same value.
pub fn shown_law()
    ensures bytes { AlwaysShowsOwn }
    ensures marks { AlwaysShowsOwnMarks }
{}
