//! Whom each transfer was offered to, and by whom.

ghost use Rattle.rh_laws.specs.Addressed.{AlwaysAddressed};

/// After any commands: what a task holds of a transfer was offered to it. Each record of a live task agrees with what
/// was offered under its id, by which task and to which.
pub fn addressed_law()
    ensures { AlwaysAddressed }
{}
