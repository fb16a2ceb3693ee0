//! Whether bytes are a heap, or a slot.

ghost use Rattle.std.specs.Prelude.{◌≡◌, is_some};
ghost use Rattle.rh_defs.specs.HeapImage.{fault_of};
ghost use Rattle.rh_slot.specs.SlotChecks.{slot_fault_of};
ghost use Rattle.rh_run.specs.Checked.{image_line};
ghost use Rattle.rh_run.specs.CheckedSlot.{slot_image_line};
ghost use Rattle.vf_web.specs.PageCalls.{ToldText};

use crate::running::give_length;
use rh_lines::WholeText;
use rh_run::{check_image, check_slot_image};

/// What a heap of these bytes consists of, or what is wrong first.
pub fn heap(image: &[u8], text: &mut [u8], needed: &mut usize) -> u32
    ensures { ToldText (image_line image.now) (is_some (fault_of image.now)) result text.old text.new needed.new }
{
    let room = text.len();
    let mut writer = WholeText::new(text);
    let status = check_image(image, &mut writer).unwrap();
    give_length(status, writer.length(), room, needed)
}

/// What a slot of these bytes consists of, or what is wrong first.
pub fn slot(image: &[u8], text: &mut [u8], needed: &mut usize) -> u32
    ensures { ToldText (slot_image_line image.now) (is_some
        (slot_fault_of image.now)) result text.old text.new needed.new }
{
    let room = text.len();
    let mut writer = WholeText::new(text);
    let status = check_slot_image(image, &mut writer).unwrap();
    give_length(status, writer.length(), room, needed)
}
