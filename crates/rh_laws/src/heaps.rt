//! What the description of a heap promises.

ghost use Rattle.rh_defs.specs.Laws.{Always};
ghost use Rattle.rh_laws.specs.HonestHeaps.{AreHonest, ClaimsAsDescribed, HasHonestHeaps};

/// The largest block that a heap's description names is the largest that a claim is granted without growth,
/// and each smaller one is granted too. Its free bytes, those of its blocks and its descriptor add up to
/// its length. After any commands all heaps of the desk are so, and what `heap` answers holds of the
/// task's next `claim`, which takes its bytes from the free ones.
pub fn describe_law()
    ensures heaps { AreHonest }
    ensures desk { Always HasHonestHeaps }
    ensures claims { Always ClaimsAsDescribed }
{}
