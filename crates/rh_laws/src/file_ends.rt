//! No scrap file is left behind.

ghost use Rattle.rh_laws.specs.ScrapEnds.{AlwaysLeavesNone};

/// After any commands, those of tasks with code of their own among them: a scrap file's DataLoad is queued or held, and
/// says the file's size and name. There is no scrap file at rest, none where no task is live, and none after as many
/// rounds of polls of all live tasks as there is work.
pub fn file_end_law()
    ensures { AlwaysLeavesNone }
{}
