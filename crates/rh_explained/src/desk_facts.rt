//! What a desk has beside its replies.

ghost use Rattle.std.specs.Prelude.{◌≡◌};
ghost use Rattle.std.specs.Option.{option_map};
ghost use Rattle.rh_defs.specs.Desk.{Desk, free_pages as free_pages_on};
ghost use Rattle.rh_explained.specs.Subjects.{flex_size, transfers_of};

use rh_defs::{Anchor, Incoming, Name, Outgoing};
use rh_session::Desktop;

/// A desktop that has more to say of a refusal than its reply does. Nothing here changes it.
pub trait DeskFacts: Desktop {
    /// The records of a live task's transfers, those that go out first.
    fn transfers(&self, name: &Name) -> Option<(&[Outgoing], &[Incoming])>
        ensures { (d : Desk) → Self.spells self.now d
            → option_map (λ found. (found.0.now, found.1.now)) result ≡ transfers_of name.now d };

    /// The size of a live task's flex block, where a slot has such an anchor.
    fn block_size(&self, name: &Name, anchor: Anchor) -> Option<u32>
        ensures { (d : Desk) → Self.spells self.now d → result ≡ flex_size name.now anchor d };

    /// How many pages are free.
    fn free_pages(&self) -> u32
        ensures { (d : Desk) → Self.spells self.now d → result ≡ free_pages_on d };
}
