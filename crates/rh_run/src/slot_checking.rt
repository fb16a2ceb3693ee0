//! Whether bytes are a slot, as a line of text.

ghost use Rattle.std.specs.Prelude.{◌≡◌, ◌<◌, ◌≤◌, ◌^◌, length, IfOk, IfErr};
ghost use Rattle.rh_lines.specs.Flow.{Breaks, Takes};
ghost use Rattle.rh_run.specs.CheckedSlot.{heap_length, slot_image_line, slot_image_status, slot_fault_name};
ghost use Rattle.rh_run.specs.CheckedSlot.{slot_sums_line};
ghost use Rattle.rh_run.specs.Inner.SlotWords.{AreSlotWords};

use crate::checking::{add_sum, fault_row};
use rh_defs::HeapFault;
use rh_defs::sizes::HEAP_FIRST;
use rh_heap::Summary;
use rh_lines::{Row, Sink, put};
use rh_session::{RunFault, Status};
use rh_slot::{SlotFault, SlotSummary, check};

/// Writes what a slot of these bytes consists of, `ok BLOCKS BYTES HEAP UNUSED`, or `bad FAULT` where they spell none,
/// which is BadLines. WriteFailed only where the writer failed or took none of what it was offered; a front of the line
/// is then written.
pub fn check_slot_image<W: Sink>(image: &[u8], writer: &mut W) -> Result<Status, RunFault>
    ensures ok { IfOk result (λ status. Takes (W.output writer.old) (W.output writer.new) (slot_image_line image.now)) }
    ensures status { IfOk result (λ status. status ≡ slot_image_status image.now) }
    ensures err { IfErr result (λ fault. (fault ≡ RunFault.WriteFailed) × Breaks (W.output writer.old)
        (W.output writer.new) (slot_image_line image.now)) }
{
    let (status, row) = match check(image) {
        Ok(sums) => (Status::Clean, sums_row(&sums)),
        Err(fault) => (Status::BadLines, fault_row(fault_name(fault))),
    };
    match put(writer, row.as_slice()) {
        Ok(()) => Ok(status),
        Err(_) => Err(RunFault::WriteFailed),
    }
}

/// The line of a slot's sums.
fn sums_row(sums: &SlotSummary) -> Row
    requires { AreSlotWords sums.now }
    ensures { result ≡ slot_sums_line sums.now }
{
    let mut row = Row::new();
    row.text(b"ok");
    add_sum(&mut row, sums.blocks);
    add_sum(&mut row, sums.bytes);
    add_sum(&mut row, heap_length(&sums.heap));
    add_sum(&mut row, sums.unused);
    row.byte(b'\n');
    row
}

/// The bytes of a heap with these sums: of its descriptor, its segments and its top.
fn heap_length(sums: &Summary) -> usize
    requires { heap_length sums.now < 2 ^ 32 }
    ensures { result ≡ heap_length sums.now }
{
    HEAP_FIRST + sums.used_bytes + sums.hole_bytes + sums.top
}

/// A fault's name as it is printed.
fn fault_name(fault: SlotFault) -> &'static [u8]
    ensures name { result.now ≡ slot_fault_name fault }
    ensures short { length result.now ≤ 21 }
{
    match fault {
        SlotFault::BadLength => b"BadLength",
        SlotFault::BadHeap(HeapFault::BadDescriptor) => b"BadHeap BadDescriptor",
        SlotFault::BadHeap(HeapFault::BadLink) => b"BadHeap BadLink",
        SlotFault::BadHeap(HeapFault::BadSize) => b"BadHeap BadSize",
        SlotFault::BadSize => b"BadSize",
        SlotFault::BadAnchor => b"BadAnchor",
        SlotFault::SparePage => b"SparePage",
    }
}
