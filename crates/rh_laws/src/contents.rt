//! What stands in the buffers of transfers from tasks with code of their own.

ghost use Rattle.rh_safety.specs.Counts.{AlwaysCounts};
ghost use Rattle.rh_laws.specs.Contents.{GivesContents, HasContents};

/// After any commands: the buffer of each record that fetches from a task with code of its own has the bytes that this
/// task's transfers wrote there since the record was made, and zeros elsewhere. No other command changes it. A poll
/// gives of the transfer the first ones of these bytes, some or none.
pub fn contents_law()
    ensures stands { AlwaysCounts HasContents }
    ensures gives { AlwaysCounts GivesContents }
{}
