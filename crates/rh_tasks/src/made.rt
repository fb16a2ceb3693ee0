//! What the world keeps of an area that was made at run.

ghost use Rattle.std.specs.Prelude.{◌≡◌, Ok, Err, Some, None, IfOk, IfErr};
ghost use Rattle.std.specs.List.{position};
ghost use Rattle.rh_tasks.specs.View.{has_number};

use rh_defs::Refusal;
use rh_defs::sizes::MADE_AREAS;
use rh_store::AreaId;
use rh_wimp::Table;

/// The made areas in order of number.
pub type MadeAreas = Table<MadeArea, MADE_AREAS>;

/// What the world keeps of a made area beside its pages.
#[derive(Clone, Copy, Debug, Default, PartialEq, Eq)]
pub struct MadeArea {
    /// The number that commands name it by, from 256 on.
    pub number: u32,
    /// The most pages that it may have.
    pub most: u32,
    /// The store's area that has its pages.
    pub area: AreaId,
}

fn position_of(made: &MadeAreas, number: u32) -> Option<usize>
    ensures { result ≡ position (has_number number) made.now.items }
{
    made.iter().position(|area| area.number == number)
}

/// The place of the made area with the number; NoArea where there is none.
pub fn find_made(made: &MadeAreas, number: u32) -> Result<usize, Refusal>
    ensures ok { IfOk result (λ i. position (has_number number) made.now.items ≡ Some i) }
    ensures err { IfErr result (λ e. (e ≡ Refusal.NoArea) × (position (has_number number) made.now.items ≡ None)) }
{
    match position_of(made, number) {
        Some(i) => Ok(i),
        None => Err(Refusal::NoArea),
    }
}
