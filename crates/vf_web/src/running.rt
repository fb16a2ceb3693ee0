//! What a script gives, its replies, its map or its sheet, in bytes that a caller lends.

ghost use Rattle.std.specs.Prelude.{◌≡◌, ◌≤◌, length, nat_lt, IfSome, if◌then◌else◌};
ghost use Rattle.rh_defs.specs.Memory.{fresh};
ghost use Rattle.rh_defs.specs.Runs.{start};
ghost use Rattle.rh_defs.specs.Script.{has_bad_line, script_text};
ghost use Rattle.rh_defs.specs.declared.sizes.TheConstants.{MAX_PAGES, MIN_PAGES};
ghost use Rattle.rh_session.specs.declared.feeding.TheConstants.{LONGEST_SCRIPT};
ghost use Rattle.rh_figure.specs.Map.{map_start};
ghost use Rattle.rh_pictures.specs.LensSizes.{IsLensSize};
ghost use Rattle.vf_web.specs.PageCalls.{MapTold, SheetTold, ToldText};
ghost use Rattle.vf_web.specs.PageStatus.{status_number};
ghost use Rattle.vf_web.specs.declared.status.TheConstants.{SHORT_TEXT};

use crate::status::{DONE, SHORT_TEXT, SOME_BAD};
use rh_lines::WholeText;
use rh_pictures::SheetForm;
use rh_run::{Status, map_of, replies_of, sheet_of};
use rh_store::{Sited, Store};
use rh_tasks::NamedFiles;

/// The replies of a script over a fresh desk.
pub fn replies<S: Store + Drop, F: NamedFiles + Drop>(
    store: S,
    files: F,
    script: &[u8],
    text: &mut [u8],
    needed: &mut usize,
) -> u32
    requires fresh { S.memory store ≡ fresh (S.memory store).pages }
    requires least { MIN_PAGES ≤ (S.memory store).pages }
    requires most { (S.memory store).pages ≤ MAX_PAGES }
    ensures text { ToldText (script_text (start (S.memory store).pages (F.contents files)) script.now)
        (has_bad_line script.now) result text.old text.new needed.new }
{
    let room = text.len();
    let mut writer = WholeText::new(text);
    let status = replies_of(store, files, script, &mut writer).unwrap();
    give_length(status, writer.length(), room, needed)
}

/// The map of a script over a fresh desk: each step, or marked steps alone.
pub fn map<S: Sited + Drop, F: NamedFiles + Drop>(
    store: S,
    files: F,
    script: &[u8],
    marked: bool,
    text: &mut [u8],
    needed: &mut usize,
) -> u32
    requires fresh { S.memory store ≡ fresh (S.memory store).pages }
    requires least { MIN_PAGES ≤ (S.memory store).pages }
    requires most { (S.memory store).pages ≤ MAX_PAGES }
    requires short { length script.now ≤ LONGEST_SCRIPT }
    ensures text { MapTold marked (map_start (S.memory store).pages
        (F.contents files)) script.now result text.old text.new needed.new }
{
    let room = text.len();
    let mut writer = WholeText::new(text);
    let status = map_of(store, files, script, &mut writer, marked).unwrap();
    give_length(status, writer.length(), room, needed)
}

/// The sheet of a script with a name over a fresh desk: each step, or marked steps alone.
pub fn sheet<S: Sited + Drop, F: NamedFiles + Drop>(
    store: S,
    files: F,
    script: &[u8],
    form: SheetForm,
    name: &[u8],
    text: &mut [u8],
    needed: &mut usize,
) -> u32
    requires fresh { S.memory store ≡ fresh (S.memory store).pages }
    requires least { MIN_PAGES ≤ (S.memory store).pages }
    requires most { (S.memory store).pages ≤ MAX_PAGES }
    requires short { length script.now ≤ LONGEST_SCRIPT }
    requires lens { IfSome form.lens IsLensSize }
    ensures text { SheetTold form name.now (start (S.memory store).pages
        (F.contents files)) script.now result text.old text.new needed.new }
{
    let room = text.len();
    let mut writer = WholeText::new(text);
    let status = sheet_of(store, files, script, &mut writer, form, name).unwrap();
    give_length(status, writer.length(), room, needed)
}

/// Tells how long a text is, and says how the call ends that wrote it to so many bytes.
pub fn give_length(status: Status, length: usize, room: usize, needed: &mut usize) -> u32
    ensures status { result ≡ (if nat_lt room length then SHORT_TEXT else status_number status) }
    ensures needed { needed.new ≡ length }
{
    *needed = length;
    if room < length {
        return SHORT_TEXT;
    }
    match status {
        Status::Clean => DONE,
        Status::BadLines => SOME_BAD,
    }
}
