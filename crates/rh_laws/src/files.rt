//! How the scrap file comes and goes.

ghost use Rattle.rh_laws.specs.ScrapSteps.{KeepsScrap};

/// Whatever the desk: a command leaves the scrap file as it was, or it is given up as its DataLoad went, or a task
/// loads all of it by its own DataLoad, from the task that it asked; or a block becomes the file, by a spool or a poll,
/// where there is none. So its bytes never change, and none is written over.
pub fn file_law()
    ensures { KeepsScrap }
{}
