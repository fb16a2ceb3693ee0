//! A whole script that lies in memory, run over a fresh desk: its replies, its map or its sheet.

ghost use Rattle.std.specs.Prelude.{◌≡◌, ◌≤◌, [], length, IfErr, IfOk, IfSome};
ghost use Rattle.rh_defs.specs.Memory.{fresh};
ghost use Rattle.rh_defs.specs.Runs.{start};
ghost use Rattle.rh_defs.specs.Script.{script_text};
ghost use Rattle.rh_defs.specs.declared.sizes.TheConstants.{MAX_PAGES, MIN_PAGES};
ghost use Rattle.rh_pictures.specs.Mapped.{Mapped, MappedUntil};
ghost use Rattle.rh_session.specs.declared.feeding.TheConstants.{LONGEST_SCRIPT};
ghost use Rattle.rh_figure.specs.Map.{map_start};
ghost use Rattle.rh_lines.specs.Flow.{unread};
ghost use Rattle.rh_pictures.specs.LensSizes.{IsLensSize};
ghost use Rattle.rh_pictures.specs.Painted.{Painted, PaintedUntil};
ghost use Rattle.rh_run.specs.Safely.{RanSafely};
ghost use Rattle.rh_session.specs.Outcome.{BrokeOff, Finished};

use crate::world::ScriptWorld;
use rh_lines::{Sink, WriteFailed};
use rh_pictures::{SheetForm, map_whole, paint_whole};
use rh_session::{Status, run_whole};
use rh_store::{Sited, Store};
use rh_tasks::{NamedFiles, World};

/// Runs a script over a fresh desk on a store that nobody has used, of 8 to 1,024 pages, and writes the answer of each
/// line. It takes no memory, and fails only where the writer failed or took none of what it was offered.
pub fn replies_of<S: Store + Drop, F: NamedFiles + Drop, W: Sink>(
    store: S,
    files: F,
    script: &[u8],
    writer: &mut W,
) -> Result<Status, WriteFailed>
    requires fresh { S.memory store ≡ fresh (S.memory store).pages }
    requires least { MIN_PAGES ≤ (S.memory store).pages }
    requires most { (S.memory store).pages ≤ MAX_PAGES }

    // The script's text was written.
    ensures ok { IfOk result (λ status. Finished (start (S.memory store).pages (F.contents files)) (unread script.now)
        (unread []) (W.output writer.old) (W.output writer.new) status) }

    // No schedule in the script lost a byte, or gave a wrong one.
    ensures safe { IfOk result (λ status. RanSafely script_text (start (S.memory store).pages (F.contents files))
        (unread script.now) (unread []) (W.output writer.old) (W.output writer.new)) }

    // The writer failed, and took a front of the script's text.
    ensures write_failed { IfErr result (λ fault. BrokeOff (start (S.memory store).pages (F.contents files))
        (unread script.now) (W.output writer.old) (W.output writer.new)) }
{
    let mut world = World::new(store, files);
    let world = ScriptWorld { world: &mut world };
    run_whole(world, script, writer)
}

/// Runs a script over a fresh desk, as `replies_of` does, and writes its map: each step, or marked steps alone.
pub fn map_of<S: Sited + Drop, F: NamedFiles + Drop, W: Sink>(
    store: S,
    files: F,
    script: &[u8],
    writer: &mut W,
    marked: bool,
) -> Result<Status, WriteFailed>
    requires fresh { S.memory store ≡ fresh (S.memory store).pages }
    requires least { MIN_PAGES ≤ (S.memory store).pages }
    requires most { (S.memory store).pages ≤ MAX_PAGES }
    requires short { length script.now ≤ LONGEST_SCRIPT }

    // The script's map was written.
    ensures ok { IfOk result (λ status. Mapped marked (map_start (S.memory store).pages (F.contents files))
        (unread script.now) (unread []) (W.output writer.old) (W.output writer.new) status) }

    // The writer failed, and took a front of the map of some lines.
    ensures write_failed { IfErr result (λ fault. MappedUntil marked
        (map_start (S.memory store).pages (F.contents files)) (unread script.now) (unread []) (W.output writer.old)
        (W.output writer.new)) }
{
    let mut world = World::new(store, files);
    let world = ScriptWorld { world: &mut world };
    map_whole(world, marked, script, writer)
}

/// Runs a script over a fresh desk, as `replies_of` does, and writes its sheet under a name: the beginning, and each
/// step, or marked steps alone.
pub fn sheet_of<S: Sited + Drop, F: NamedFiles + Drop, W: Sink>(
    store: S,
    files: F,
    script: &[u8],
    writer: &mut W,
    form: SheetForm,
    name: &[u8],
) -> Result<Status, WriteFailed>
    requires fresh { S.memory store ≡ fresh (S.memory store).pages }
    requires least { MIN_PAGES ≤ (S.memory store).pages }
    requires most { (S.memory store).pages ≤ MAX_PAGES }
    requires short { length script.now ≤ LONGEST_SCRIPT }
    requires lens { IfSome form.lens IsLensSize }

    // The script's sheet was written.
    ensures ok { IfOk result (λ status. Painted form name.now (start (S.memory store).pages (F.contents files))
        (unread script.now) (unread []) (W.output writer.old) (W.output writer.new) status) }

    // The writer failed, and took a front of the sheet of some lines.
    ensures write_failed { IfErr result (λ fault. PaintedUntil form name.now
        (start (S.memory store).pages (F.contents files)) (unread script.now) (unread []) (W.output writer.old)
        (W.output writer.new)) }
{
    let mut world = World::new(store, files);
    let world = ScriptWorld { world: &mut world };
    paint_whole(world, form, name, script, writer)
}
