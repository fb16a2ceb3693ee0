//! A law over the definitions alone: the contract of a function with nothing to do.

ghost use Rattle.rh_explained.specs.KindTable.{TableFits};

/// The table of kinds has what lines of commands are: the words that name each, and the forms of the others.
pub fn table_law()
    ensures { TableFits }
{}
