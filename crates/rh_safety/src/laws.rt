//! Laws over the desk's definitions alone, each the contract of a function with nothing to do.

ghost use Rattle.rh_defs.specs.Laws.{Always};
ghost use Rattle.rh_safety.specs.Alternation.{AllAlternate, Alternates};
ghost use Rattle.rh_safety.specs.Buffers.{HasAllBuffers, HasAllGoodRanges, HasBuffers, HasGoodRanges};
ghost use Rattle.rh_safety.specs.Counts.{AlwaysCounts, CountsAllOffered, CountsHeld, CountsOffered};
ghost use Rattle.rh_safety.specs.Given.{HoldsGiven};
ghost use Rattle.rh_safety.specs.Names.{HaveOwnNames};
ghost use Rattle.rh_safety.specs.Played.{AfterPlayed, WherePlayed};
ghost use Rattle.rh_safety.specs.Polls.{CountsFit, LosesNoBlock};
ghost use Rattle.rh_safety.specs.Numbers.{NumbersGoUp};
ghost use Rattle.rh_safety.specs.Refs.{HaveOwnRefs};
ghost use Rattle.rh_safety.specs.Safe.{AlwaysSafe, AreAllSafe, AreFlagged, AreOffersSafe, ScriptsAreSafe};
ghost use Rattle.rh_safety.specs.ScrapFile.{OwnsAnyScrapFile, OwnsScrapFile};
ghost use Rattle.rh_safety.specs.TaskRecords.{AreRecorded, HasNoRecords};

/// After any commands: what a task holds of a transfer was offered, and the file begins with it; it
/// is the whole file where the task's record says Done, and where a sender's record says so, it counts
/// the whole file. Transfers of tasks with code of their own are left out; where no command starts one, none is. Each
/// that was offered is safe, whatever such tasks do; a record that fetches is flagged just where its transfer wasn't.
pub fn safe_law()
    ensures commands { AlwaysSafe }
    ensures offered { AlwaysCounts AreOffersSafe }
    ensures flags { AlwaysCounts AreFlagged }
    ensures all { WherePlayed AreAllSafe }
    ensures scripts { ScriptsAreSafe }
{}

/// After any commands: a queued fetch that would be answered, and whose sender is live, names a buffer
/// that this sender still holds for that transfer, and that is long enough; no poll answers BadRange. A fetch of a task
/// with code of its own may name any address; where no command starts one, both hold of all fetches.
pub fn buffer_law()
    ensures buffers { Always HasBuffers }
    ensures ranges { Always HasGoodRanges }
    ensures all_buffers { AfterPlayed HasAllBuffers }
    ensures all_ranges { AfterPlayed HasAllGoodRanges }
{}

/// After any commands: a save on a quiet desk, and polls in turn that are refused nothing, leave both
/// records Done and the document equal to the source. The receiver has no code of its own.
pub fn alternation_law()
    ensures turns { Always Alternates }
    ensures all { AfterPlayed AllAlternate }
{}

/// After any commands: the records of a live task stand in order of id, at most eight each way; what
/// they name is there and long enough, each buffer for one transfer; and each busy block is live. No
/// poll answers NoBlock, and no count outgrows a 32-bit word. Live tasks have different names. What
/// is held of a transfer has as many bytes as its record counts, and a record counts no more bytes than
/// were offered: all of them where it says Done. That is said of what tasks without code of their own offered; where no
/// command starts another one, of every record. A task with code of its own has no records.
pub fn record_law()
    ensures records { Always AreRecorded }
    ensures none { Always HasNoRecords }
    ensures blocks { Always LosesNoBlock }
    ensures counts { Always CountsFit }
    ensures names { Always HaveOwnNames }
    ensures held { AlwaysCounts CountsHeld }
    ensures offered { AlwaysCounts CountsOffered }
    ensures all { WherePlayed CountsAllOffered }
{}

/// Along the replies to any commands: the handles that `task` answers go up strictly, and so do the refs of
/// messages that were sent and the numbers of areas that were made. None is answered twice. After any
/// commands no two messages that are queued or held have one ref.
pub fn numbers_law()
    ensures numbers { NumbersGoUp }
    ensures refs { Always HaveOwnRefs }
{}

/// After any commands: the scrap file's ref was given, its DataLoad is queued or held and unanswered, and one open
/// record at most sent it last. It is one that a task without code of its own made, and unanswered by such tasks; where
/// no command starts another task, it is any, and nobody's message answers it.
pub fn scrap_law()
    ensures files { AlwaysCounts OwnsScrapFile }
    ensures all { AfterPlayed OwnsAnyScrapFile }
{}

/// After any commands, of transfers that tasks with code of their own began: what a task holds of one is what its polls
/// took, in order: the first bytes of its buffer, as many as each transmit said, or the scrap file. Each record counts
/// just that.
pub fn given_law()
    ensures { AlwaysCounts HoldsGiven }
{}
