//! The scrap file.

ghost use Rattle.std.specs.Prelude.{◌≡◌};
ghost use Rattle.rh_defs.specs.Memory.{Memory};
ghost use Rattle.rh_defs.specs.Post.{Post};
ghost use Rattle.rh_wimp.specs.QueueCalls.{IsQueue};
ghost use Rattle.rh_wimp.specs.Chains.{SpellsPostIn};
ghost use Rattle.rh_tasks.specs.View.{the_module, kept_file, scrap_size as scrap_size_of};

use crate::module_area::MODULE;
use rh_defs::Ref;
use rh_store::{AreaId, Words};
use rh_wimp::Queue;

/// The area in which the scrap file lies.
pub const SCRAP: AreaId = AreaId(5);

/// The scrap file, whose bytes are the first of area 5.
#[derive(Clone, Copy, Debug, PartialEq, Eq)]
pub struct ScrapFile {
    /// The ref of its DataLoad.
    pub load: Ref,
    /// Its length in bytes.
    pub size: u32,
}

/// The length of the scrap file in bytes, 0 where there is none.
pub fn scrap_size(scrap: Option<ScrapFile>) -> u32
    ensures { result ≡ scrap_size_of scrap }
{
    match scrap {
        Some(file) => file.size,
        None => 0,
    }
}

/// The scrap file, while its DataLoad is queued or held.
pub fn kept_scrap<S: Words>(store: &S, queue: &Queue, scrap: Option<ScrapFile>) -> Option<ScrapFile>
    requires { IsQueue (S.memory store.now) the_module queue.now }
    ensures { (post : Post) → SpellsPostIn (S.memory store.now) the_module queue.now post → result
        ≡ kept_file post scrap }
{
    let file = scrap?;
    if !queue.is_live(store, MODULE, file.load) {
        return None;
    }
    Some(file)
}
