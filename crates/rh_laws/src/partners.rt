//! For whom a poll changes records.

ghost use Rattle.rh_defs.specs.Laws.{Always};
ghost use Rattle.rh_laws.specs.Partners.{PollsPartners};

/// After any commands, of the records that a task has after a poll that takes a message: each is one that it had, or
/// its other end sent the message, or it begins by the message and names that end. Where the message came back, each is
/// one that it had, but the one that waits by it. A record that goes on counts just what the poll says that it took or
/// sent; it says Done by the last bytes, of fewer than were asked for, or by a file that was loaded. Which records the
/// task no longer has the law doesn't say.
pub fn partner_law()
    ensures { Always PollsPartners }
{}
