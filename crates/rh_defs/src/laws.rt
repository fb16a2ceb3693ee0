//! Laws over the definitions alone, each the contract of a function with nothing to do.

ghost use Rattle.rh_defs.specs.Order.{IgnoresOrder};
ghost use Rattle.rh_defs.specs.Laws.{Always, ClaimsOne, FreesOne, HasApartBlocks, HaveOneHeap, HaveOneSlot, IsBalanced};
ghost use Rattle.rh_defs.specs.Laws.{IsDesk, WritesOne};

/// After any commands the live blocks lie in their slots and in the module area, no two overlap, the pages add up to
/// the pool, and the desk is one of a run.
pub fn span_law()
    ensures apart { Always HasApartBlocks }
    ensures balanced { Always IsBalanced }
    ensures desk { Always IsDesk }
{}

/// On two desks that differ in the order of queued messages to different tasks alone, a command gives the same reply
/// and again two such desks.
pub fn order_law()
    ensures { IgnoresOrder }
{}

/// Bytes spell at most one heap, and with a flag for budging at most one slot: those that are read from them.
pub fn image_law()
    ensures heap { HaveOneHeap }
    ensures slot { HaveOneSlot }
{}

/// A claim from the module area makes a block of zeros at an address that had none, and a free takes one away. Bytes
/// written inside a block change it alone, and the area's bytes then spell the heap with that block. Other blocks stay.
pub fn block_law()
    ensures claim { ClaimsOne }
    ensures free { FreesOne }
    ensures write { WritesOne }
{}
