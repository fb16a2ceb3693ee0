//! Laws of pictures over the definitions alone, each the contract of a function with nothing to do.

ghost use Rattle.rh_defs.specs.Laws.{Always};
ghost use Rattle.rh_figure.specs.FigureLaws.{AreMaps, HasTiledAreas, KeepsStill, ShowsNoOrder};

/// After any commands the pieces of each slot and of the module area lie one after the other, from the area's first
/// byte to the end of its last page, whatever is marked as changed.
pub fn tiles_law()
    ensures { Always HasTiledAreas }
{}

/// A map has whole lines of at most 79 columns, of bytes from 32 to 126, for every script, files and shares of the
/// pool.
pub fn columns_law()
    ensures { AreMaps }
{}

/// A step that is said to leave memory as it is does so: a question or a refusal draws nothing new.
pub fn still_law()
    ensures { KeepsStill }
{}

/// On two desks that differ in the order of queued messages to different tasks alone, the rest of a script has the same
/// map.
pub fn map_order_law()
    ensures { ShowsNoOrder }
{}
