//! Transfers by way of the scrap file come to their end.

ghost use Rattle.rh_defs.specs.Laws.{Always};
ghost use Rattle.rh_safety.specs.Played.{AfterPlayed};
ghost use Rattle.rh_laws.specs.ScrapTurns.{AllScrapAlternate, ScrapAlternates};

/// After any commands: a save of a task that answers no fetch, on a quiet desk, and eight polls in turn that are
/// refused nothing leave both records Done and the document equal to the source. So it is where the desk plays the
/// receiver; where no command starts a task with code of its own, of any two tasks.
pub fn scrap_alternation_law()
    ensures turns { Always ScrapAlternates }
    ensures all { AfterPlayed AllScrapAlternate }
{}
