//! How long records live.

ghost use Rattle.rh_defs.specs.Laws.{Always};
ghost use Rattle.rh_laws.specs.RecordLives.{RecordsLive};

/// While its task lives, no record vanishes before it has ended. After any commands, one more command keeps each record
/// of a task that is live before and after it, or turns it by a poll or a cancel of that task. Or it drops the oldest
/// ended record of a full list for a new one, by a save or a poll of that task.
pub fn records_law()
    ensures { Always RecordsLive }
{}
