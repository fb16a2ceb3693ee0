//! What a sender's Done means of the transfer's other end.

ghost use Rattle.rh_laws.specs.SendersDone.{AlwaysMatches};

/// After any commands, where a sender's record says Done, each record that comes in under its id is Done with the same
/// count, or Failed, or its last transmit is queued. Once only polls follow, rounds of them leave each Done with that
/// count, or Failed.
pub fn done_law()
    ensures { AlwaysMatches }
{}
