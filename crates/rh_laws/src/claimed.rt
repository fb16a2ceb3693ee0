//! The blocks of a task's C heap: those that it claimed and hasn't released, and the buffers of its transfers.

ghost use Rattle.rh_laws.specs.Claimed.{AlwaysLeaksNone};

/// After any commands: each block of a live task's C heap is one that the task claimed and hasn't released, or the
/// buffer of one record that fetches or drains, and never both. So no transfer leaks a block, and none takes a task's.
pub fn claimed_law()
    ensures { AlwaysLeaksNone }
{}
