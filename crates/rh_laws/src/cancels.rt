//! What a cancel ends.

ghost use Rattle.rh_defs.specs.Laws.{Always};
ghost use Rattle.rh_laws.specs.Cancels.{CancelsEnd};

/// After any commands a cancel ends a record that waits for a task with code of its own, for a file, or for its
/// recipient, whatever that other end does or doesn't: it has failed with what it counts, and a buffer that fetched
/// from a task with code of its own is gone.
pub fn cancel_law()
    ensures { Always CancelsEnd }
{}
