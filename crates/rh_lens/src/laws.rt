//! Laws of the lens over the definitions alone, each the contract of a function with nothing to do.

ghost use Rattle.rh_defs.specs.Laws.{Always};
ghost use Rattle.rh_lens.specs.LensLaws.{AreWholeLenses, CellsHaveRoom, LeavesNothingOut, StandsApart, WordsHaveRoom};

use rh_figure::tiles_law;

/// Parts stand in rows, each behind the one below it in memory: in the same row to the right of it, or at the left end
/// of the next row. None passes the end of its row.
pub fn rows_law()
    ensures { StandsApart }
{}

/// Whatever a part is and however wide, each line of its words lies within it, and so do the cells of its bytes.
pub fn words_law()
    ensures words { WordsHaveRoom }
    ensures cells { CellsHaveRoom }
{}

/// After any commands the parts of each slot behind its anchors, and those of the module area, are all of its bytes, in
/// order.
pub fn whole_law()
    ensures { Always LeavesNothingOut }
{
    tiles_law();
}

/// Whatever a slot or the module area holds, and at each width and scale: the elements of its lens lie in each other,
/// each ends where it has to, and none is left open.
pub fn lens_elements_law()
    ensures { AreWholeLenses }
{}
