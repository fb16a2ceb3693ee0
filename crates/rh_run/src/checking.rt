//! Whether bytes are a heap, as a line of text.

ghost use Rattle.std.specs.Prelude.{◌≡◌, ◌+◌, ◌<◌, ◌≤◌, ◌^◌, [], ◌∷◌, ◌++◌, codes, length, IfOk, IfErr};
ghost use Rattle.std.specs.Fmt.{decimal};
ghost use Rattle.rh_defs.specs.Bytes.{word};
ghost use Rattle.rh_defs.specs.Text.{line};
ghost use Rattle.rh_defs.specs.declared.sizes.TheConstants.{HEAP_END, HEAP_FIRST};
ghost use Rattle.rh_lines.specs.Flow.{Breaks, Takes};
ghost use Rattle.rh_lines.specs.declared.row.TheConstants.{ROW};
ghost use Rattle.rh_run.specs.Checked.{image_line, image_status, fault_name, sums_line};
ghost use Rattle.rh_run.specs.Inner.WordSums.{HasWordSums};

use rh_defs::HeapFault;
use rh_heap::{Summary, check};
use rh_lines::{Row, Sink, put};
use rh_session::{RunFault, Status};

/// Writes what a heap of these bytes consists of, `ok USED USEDBYTES HOLES HOLEBYTES TOP`, or `bad FAULT` where they
/// spell none, which is BadLines. WriteFailed only where the writer failed or took none of what it was offered; a front
/// of the line is then written.
pub fn check_image<W: Sink>(image: &[u8], writer: &mut W) -> Result<Status, RunFault>
    ensures ok { IfOk result (λ status. Takes (W.output writer.old) (W.output writer.new) (image_line image.now)) }
    ensures status { IfOk result (λ status. status ≡ image_status image.now) }
    ensures err { IfErr result (λ fault. (fault ≡ RunFault.WriteFailed) × Breaks (W.output writer.old)
        (W.output writer.new) (image_line image.now)) }
{
    let (status, row) = match check(image) {
        Ok(sums) => {
            has_small_end(image);
            (Status::Clean, sums_row(&sums))
        }
        Err(fault) => (Status::BadLines, fault_row(fault_name(fault))),
    };
    match put(writer, row.as_slice()) {
        Ok(()) => Ok(status),
        Err(_) => Err(RunFault::WriteFailed),
    }
}

/// The word that has the length of a heap is less than 2^32.
#[tactic(auto, unfolding(rh_defs::specs::Bytes::word))]
fn has_small_end(image: &[u8])
    requires { HEAP_FIRST ≤ length image.now }
    ensures { word image.now HEAP_END < 2 ^ 32 }
{}

/// The line of a heap's sums.
fn sums_row(sums: &Summary) -> Row
    requires { HasWordSums sums.now }
    ensures { result ≡ sums_line sums.now }
{
    let mut row = Row::new();
    row.text(b"ok");
    add_sum(&mut row, sums.used);
    add_sum(&mut row, sums.used_bytes);
    add_sum(&mut row, sums.holes);
    add_sum(&mut row, sums.hole_bytes);
    add_sum(&mut row, sums.top);
    row.byte(b'\n');
    row
}

/// Adds a space and a sum.
pub fn add_sum(row: &mut Row, sum: usize)
    requires small { sum < 2 ^ 32 }
    requires room { length row.old + 12 ≤ ROW }
    ensures value { row.new ≡ row.old ++ (codes " " ++ decimal sum) }
    ensures few { length row.new ≤ length row.old + 12 }
{
    row.byte(b' ');
    row.decimal(sum as u32);
}

/// The line of the fault of this name.
pub fn fault_row(name: &[u8]) -> Row
    requires { length name.now ≤ 21 }
    ensures { result ≡ line (codes "bad") (name.now ∷ []) }
{
    let mut row = Row::new();
    row.text(b"bad ");
    row.text(name);
    row.byte(b'\n');
    row
}

/// A fault's name as it is printed.
fn fault_name(fault: HeapFault) -> &'static [u8]
    ensures name { result.now ≡ fault_name fault }
    ensures short { length result.now ≤ 13 }
{
    match fault {
        HeapFault::BadDescriptor => b"BadDescriptor",
        HeapFault::BadLink => b"BadLink",
        HeapFault::BadSize => b"BadSize",
    }
}
