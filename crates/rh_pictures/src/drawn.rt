//! What a map is drawn of.

ghost use Rattle.rh_defs.specs.Desk.{Desk};
ghost use Rattle.rh_defs.specs.Order.{IsReordered};

use rh_scene::Sight;
use rh_session::Desktop;

/// A desktop that can be looked at. What it may be seen as are the desks that differ from the one that is looked at in
/// the order of messages to different tasks alone, which no figure shows.
pub trait Drawn: Desktop + Sight {
    ghost seen: { (s : Self) → Self.spells s (Self.desk s) };

    ghost alike: { (s : Self) (d : Desk) → Self.spells s d → IsReordered d (Self.desk s) };
}
