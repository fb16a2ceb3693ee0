//! What records wait for.

ghost use Rattle.rh_laws.specs.Beside.{AlwaysHasLiveEndsBeside};
ghost use Rattle.rh_laws.specs.LiveEnds.{AlwaysHasLiveEnds};

/// After any commands, no record of a live task waits in vain: its message that asks for what comes next is queued or
/// held, or the answer is queued. A sender that answers no fetch may have only offered. That is said of transfers that
/// no task with code of its own began, and that don't go out to one; where no command starts such a task, of all.
pub fn live_law()
    ensures beside { AlwaysHasLiveEndsBeside }
    ensures all { AlwaysHasLiveEnds }
{}
