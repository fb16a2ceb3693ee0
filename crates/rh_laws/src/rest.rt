//! What polls alone leave of transfers.

ghost use Rattle.rh_laws.specs.Beside.{AlwaysSettlesBeside};
ghost use Rattle.rh_laws.specs.Rest.{AlwaysSettles};

/// After any commands, when only polls follow, as many rounds of all live tasks as there is work leave no record that
/// fetches, drains or asks but of transfers that tasks with code of their own began. What is open then was only
/// offered, by a task that answers no fetch, or goes out to one of those. A cancel ends each at once. Where no command
/// starts a task with code of its own, no record goes on, and what is open was only offered.
pub fn rest_law()
    ensures beside { AlwaysSettlesBeside }
    ensures all { AlwaysSettles }
{}
