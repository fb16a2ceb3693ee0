//! What a caller lends, looked at before a script is run.

ghost use Rattle.std.specs.Prelude.{◌≡◌, ◌≢◌, ◌≤◌, IfErr, IfOk, IsTrue};
ghost use Rattle.rh_session.specs.declared.feeding.TheConstants.{LONGEST_SCRIPT};
ghost use Rattle.vf_web.specs.Packed.{files_of};
ghost use Rattle.vf_web.specs.Room.{has_room_for};
ghost use Rattle.vf_web.specs.PageStatus.{lent_status};

use crate::files::LentFiles;
use crate::memory::has_room;
use crate::status::{BAD_FILES, BAD_PAGES, LONG_SCRIPT};
use rh_session::LONGEST_SCRIPT;

/// The files for a script of so many bytes, which is to run over so many pages in so much memory; or the status of a
/// call that can't run it.
#[tactic(auto, unfolding(crate::specs::PageStatus::lent_status))]
pub fn lent_files<'a>(
    pages: u32,
    bytes: usize,
    numbers: usize,
    script: usize,
    files: &'a [u8],
) -> Result<LentFiles<'a>, u32>
    ensures room { IfOk result (λ found. IsTrue (has_room_for pages bytes numbers)) }
    ensures short { IfOk result (λ found. script ≤ LONGEST_SCRIPT) }
    ensures files { IfOk result (λ found. found ≡ files_of files.now) }
    ensures fit { IfOk result (λ found. lent_status pages bytes numbers script files.now ≡ 0) }
    ensures status { IfErr result (λ status. status ≡ lent_status pages bytes numbers script files.now) }
    ensures unfit { IfErr result (λ status. status ≢ 0) }
{
    if !has_room(pages, bytes, numbers) {
        return Err(BAD_PAGES);
    }
    let Some(files) = LentFiles::new(files) else {
        return Err(BAD_FILES);
    };
    if script > LONGEST_SCRIPT {
        return Err(LONG_SCRIPT);
    }
    Ok(files)
}
