//! Polls alone come to rest.

ghost use Rattle.rh_laws.specs.Progress.{AlwaysProgresses};

/// After any commands, when only polls follow: each message taken leaves less to do, and at most one is sent for it.
/// After as many rounds of all live tasks as there is work nothing is queued or held.
pub fn progress_law()
    ensures { AlwaysProgresses }
{}
