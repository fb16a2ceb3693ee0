//! Laws of sheets over the definitions alone, each the contract of a function with nothing to do.

ghost use Rattle.rh_sheet.specs.FateLaws.{HasOneFate};
ghost use Rattle.rh_sheet.specs.SheetLaws.{DrawsNoOrder, EscapesAll, LiesInside};
ghost use Rattle.rh_sheet.specs.Slides.{SlideInSlots};
ghost use Rattle.rh_sheet.specs.TextLaws.{SaysNoMarkup};
ghost use Rattle.rh_sheet.specs.WellFormed.{EndsAll};

/// Whatever stands in a text or a tip: no `<`, `>` or `"` is in it, and `&` only before the name of a sign. So nothing
/// that a script or a file says begins or ends an element.
pub fn escape_law()
    ensures { EscapesAll }
{}

/// Whatever a script and its name say: the elements of its sheet lie in each other, and each ends where it has to. A
/// text of the script that were written as it is would break that, by a `<` alone.
pub fn elements_law()
    ensures { EndsAll }
{}

/// Whatever a script and its name say: the elements of its sheet and their attributes are the same, byte for byte. Of a
/// line that is skipped it counts whether it is a title and has words; of a command what it asks for.
pub fn markup_law()
    ensures { SaysNoMarkup }
{}

/// Each piece of an area lies within the row of its page, and rows, cards and squares within their figure.
pub fn inside_law()
    ensures { LiesInside }
{}

/// At each call on a slot all flex blocks that slide do so the same way and equally far: one arrow says it of all.
pub fn slide_law()
    ensures { SlideInSlots }
{}

/// Each of the last messages has one fate, and when it came to it is known: it is over just when the message is gone. A
/// task that isn't live takes none, and none vanishes that a live task takes.
pub fn fate_law()
    ensures { HasOneFate }
{}

/// On two desks that differ in the order of queued messages to different tasks alone, the rest of a script has the same
/// sheet.
pub fn sheet_order_law()
    ensures { DrawsNoOrder }
{}
