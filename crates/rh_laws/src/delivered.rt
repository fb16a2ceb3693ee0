//! What a sender may rely on that was told that its file was loaded.

ghost use Rattle.rh_laws.specs.Delivered.{AllDeliver, AlwaysDelivers};

/// Once a poll tells a task that its file was loaded, its recipient has all of it, whatever commands come after: each
/// record of the transfer says Done and counts the whole file, and a document that no edit came to is that file. So it
/// is of a recipient that the desk plays; where no command before the poll starts a task with code of its own, of any.
pub fn delivered_law()
    ensures told { AlwaysDelivers }
    ensures all { AllDeliver }
{}
