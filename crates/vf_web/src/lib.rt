//! The desk for a web page, in exports that take no memory: each runs a whole script over memory that the caller lends.
//!
//! Pool and page numbers may hold anything before a call, and hold nothing of use after it. A text is written to the
//! front of its bytes, as far as there is room; what stands behind it there stays.
#![tactic(auto)]

mod checking;
mod files;
mod lent;
mod memory;
mod running;
mod status;
#[cfg(test)]
mod tests;

ghost use Rattle.std.specs.Prelude.{◌≡◌, ◌≢◌, ◌<◌, is_some, length, not, ◌==◌, None, Some};
ghost use Rattle.rh_defs.specs.HeapImage.{fault_of};
ghost use Rattle.rh_defs.specs.Runs.{start};
ghost use Rattle.rh_defs.specs.Script.{script_text, has_bad_line};
ghost use Rattle.rh_slot.specs.SlotChecks.{slot_fault_of};
ghost use Rattle.rh_figure.specs.Map.{map_start};
ghost use Rattle.rh_pictures.specs.LensSizes.{IsLensSize};
ghost use Rattle.rh_run.specs.Checked.{image_line};
ghost use Rattle.rh_run.specs.CheckedSlot.{slot_image_line};
ghost use Rattle.vf_web.specs.PageCalls.{MapTold, SheetTold, ToldText, Untouched};
ghost use Rattle.vf_web.specs.Packed.{files_of};
ghost use Rattle.vf_web.specs.PageStatus.{lent_status};
ghost use Rattle.vf_web.specs.declared.status.TheConstants.{BAD_LENS};

use crate::lent::lent_files;
use crate::memory::store_over;
use crate::status::{BAD_LENS, BAD_PAGES};
use rh_pictures::{LensSize, SheetForm};

/// Runs a script over a fresh desk, and writes the text of all replies.
#[unsafe(no_mangle)]
pub extern "C" fn vf_run(
    pages: u32,
    pool: &mut [u8],
    numbers: &mut [u16],
    script: &[u8],
    files: &[u8],
    text: &mut [u8],
    needed: &mut usize,
) -> u32
    ensures refused { let refusal = lent_status pages (length pool.old) (length numbers.old)
        (length script.now) files.now in
        refusal ≢ 0 → Untouched result refusal text.old text.new needed.old needed.new }
    ensures text { lent_status pages (length pool.old) (length numbers.old) (length script.now) files.now ≡ 0 →
        ToldText (script_text (start pages (files_of files.now)) script.now)
        (has_bad_line script.now) result text.old text.new needed.new }
{
    let files = match lent_files(pages, pool.len(), numbers.len(), script.len(), files) {
        Ok(files) => files,
        Err(status) => return status,
    };
    let store = store_over(pages, pool, numbers);
    running::replies(store, files, script, text, needed)
}

/// Runs a script over a fresh desk, and writes its map: each step, or where `marked` isn't 0 marked steps alone.
#[unsafe(no_mangle)]
pub extern "C" fn vf_map(
    pages: u32,
    pool: &mut [u8],
    numbers: &mut [u16],
    script: &[u8],
    files: &[u8],
    marked: u32,
    text: &mut [u8],
    needed: &mut usize,
) -> u32
    ensures refused { let refusal = lent_status pages (length pool.old) (length numbers.old)
        (length script.now) files.now in
        refusal ≢ 0 → Untouched result refusal text.old text.new needed.old needed.new }
    ensures text { lent_status pages (length pool.old) (length numbers.old) (length script.now) files.now ≡ 0 →
        MapTold (not (marked == 0)) (map_start pages
        (files_of files.now)) script.now result text.old text.new needed.new }
{
    let files = match lent_files(pages, pool.len(), numbers.len(), script.len(), files) {
        Ok(files) => files,
        Err(status) => return status,
    };
    let store = store_over(pages, pool, numbers);
    running::map(store, files, script, marked != 0, text, needed)
}

/// Runs a script with a name over a fresh desk, and writes its sheet: each step, or where `marked` isn't 0 marked steps
/// alone.
#[unsafe(no_mangle)]
pub extern "C" fn vf_draw(
    pages: u32,
    pool: &mut [u8],
    numbers: &mut [u16],
    script: &[u8],
    name: &[u8],
    files: &[u8],
    marked: u32,
    text: &mut [u8],
    needed: &mut usize,
) -> u32
    ensures refused { let refusal = lent_status pages (length pool.old) (length numbers.old)
        (length script.now) files.now in
        refusal ≢ 0 → Untouched result refusal text.old text.new needed.old needed.new }
    ensures text { lent_status pages (length pool.old) (length numbers.old) (length script.now) files.now ≡ 0 →
        SheetTold (record { marked = not (marked == 0); lens = None }) name.now (start pages
        (files_of files.now)) script.now result text.old text.new needed.new }
{
    let files = match lent_files(pages, pool.len(), numbers.len(), script.len(), files) {
        Ok(files) => files,
        Err(status) => return status,
    };
    let store = store_over(pages, pool, numbers);
    let form = SheetForm::at_true_scale(marked != 0);
    running::sheet(store, files, script, form, name, text, needed)
}

/// Runs a script with a name over a fresh desk, and writes its sheet as `vf_draw` does, with areas through a lens so
/// many units wide, with so many units for 8 bytes.
#[unsafe(no_mangle)]
pub extern "C" fn vf_lens(
    pages: u32,
    pool: &mut [u8],
    numbers: &mut [u16],
    script: &[u8],
    name: &[u8],
    files: &[u8],
    marked: u32,
    width: u32,
    scale: u32,
    text: &mut [u8],
    needed: &mut usize,
) -> u32
    ensures refused { let refusal = lent_status pages (length pool.old) (length numbers.old)
        (length script.now) files.now in
        refusal ≢ 0 → Untouched result refusal text.old text.new needed.old needed.new }
    ensures size { lent_status pages (length pool.old) (length numbers.old) (length script.now) files.now ≡ 0 →
        (IsLensSize (record { width = width; scale = scale }) → ⊥) →
        Untouched result BAD_LENS text.old text.new needed.old needed.new }
    ensures text { lent_status pages (length pool.old) (length numbers.old) (length script.now) files.now ≡ 0 →
        IsLensSize (record { width = width; scale = scale }) →
        SheetTold (record { marked = not (marked == 0); lens = Some (record { width = width; scale = scale }) })
        name.now (start pages (files_of files.now)) script.now result text.old text.new needed.new }
{
    let files = match lent_files(pages, pool.len(), numbers.len(), script.len(), files) {
        Ok(files) => files,
        Err(status) => return status,
    };
    let lens = LensSize { width, scale }.if_drawable();
    if lens.is_none() {
        return BAD_LENS;
    }
    let store = store_over(pages, pool, numbers);
    let form = SheetForm {
        marked: marked != 0,
        lens,
    };
    running::sheet(store, files, script, form, name, text, needed)
}

/// Writes what the heap (0) or the slot (1) of these bytes consists of, or what is wrong first with bytes that are
/// none.
#[unsafe(no_mangle)]
pub extern "C" fn vf_check(kind: u32, image: &[u8], text: &mut [u8], needed: &mut usize) -> u32
    ensures heap { kind ≡ 0 → ToldText (image_line image.now) (is_some
        (fault_of image.now)) result text.old text.new needed.new }
    ensures slot { kind ≡ 1 → ToldText (slot_image_line image.now) (is_some
        (slot_fault_of image.now)) result text.old text.new needed.new }
    ensures unknown { 1 < kind → Untouched result 2 text.old text.new needed.old needed.new }
{
    match kind {
        0 => checking::heap(image, text, needed),
        1 => checking::slot(image, text, needed),
        _ => BAD_PAGES,
    }
}
