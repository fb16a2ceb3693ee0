//! What went out of each transfer.

ghost use Rattle.rh_safety.specs.Counts.{AlwaysCounts};
ghost use Rattle.rh_laws.specs.Moved.{SendsOffered};

/// After any commands: what polls sent of a transfer, in order, is the front of what was offered that the sender's
/// record counts, where the record is open or failed; of a Done one it is some front, perhaps of no byte, as a
/// recipient with code of its own may say that it loaded a file. So it is whoever the recipient is.
pub fn moved_law()
    ensures { AlwaysCounts SendsOffered }
{}
