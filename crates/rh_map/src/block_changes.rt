//! What a command has changed of a task's flex blocks.

ghost use Rattle.std.specs.Prelude.{◌≡◌, ◌≤◌, ◌≢◌, ◌+◌, ◌++◌, codes, length};
ghost use Rattle.rh_figure.specs.Changes.{anchors_told, gone_line, new_line, resized_line, slide_line, way_text};
ghost use Rattle.rh_figure.specs.Changes.{who_slides};
ghost use Rattle.rh_figure.specs.Map.{shown_line};
ghost use Rattle.rh_lines.specs.declared.row.TheConstants.{ROW};

use crate::changes::print_change;
use crate::phrases::add_size;
use rh_defs::Anchor;
use rh_lines::{Pen, Row};

/// What a block is called.
const BLOCK: &[u8; 11] = b"Flex block ";

/// Writes that a flex block is gone.
pub fn print_block_gone<P: Pen>(anchor: Anchor, pen: &mut P)
    ensures { P.offered pen.new ≡ P.offered pen.old ++ (shown_line (codes "  " ++ gone_line anchor) ++ codes "\n") }
{
    print_change(&block_gone(anchor), pen);
}

/// That a flex block is gone.
pub fn block_gone(anchor: Anchor) -> Row
    ensures value { result ≡ gone_line anchor }
    ensures few { length result ≤ 200 }
{
    let mut row = Row::new();
    row.text(BLOCK);
    row.decimal(u32::from(anchor.0));
    row.text(b" is gone, and anchor ");
    row.decimal(u32::from(anchor.0));
    row.text(b" is 0");
    row
}

/// Writes that a flex block of so many bytes at an address is new.
pub fn print_block_new<P: Pen>(anchor: Anchor, size: u32, address: u32, pen: &mut P)
    ensures { P.offered pen.new ≡ P.offered pen.old
        ++ (shown_line (codes "  " ++ new_line anchor size address) ++ codes "\n") }
{
    print_change(&block_new(anchor, size, address), pen);
}

/// That a flex block of so many bytes at an address is new.
pub fn block_new(anchor: Anchor, size: u32, address: u32) -> Row
    ensures value { result ≡ new_line anchor size address }
    ensures few { length result ≤ 200 }
{
    let mut row = Row::new();
    row.text(BLOCK);
    row.decimal(u32::from(anchor.0));
    row.text(b" is new: ");
    add_size(&mut row, size);
    row.text(b" at ");
    row.address(address);
    row
}

/// Writes that a flex block of so many bytes has another number of them now.
pub fn print_block_resized<P: Pen>(anchor: Anchor, had: u32, has: u32, pen: &mut P)
    ensures { P.offered pen.new ≡ P.offered pen.old
        ++ (shown_line (codes "  " ++ resized_line anchor had has) ++ codes "\n") }
{
    print_change(&block_resized(anchor, had, has), pen);
}

/// That a flex block of so many bytes has another number of them now.
pub fn block_resized(anchor: Anchor, had: u32, has: u32) -> Row
    ensures value { result ≡ resized_line anchor had has }
    ensures few { length result ≤ 200 }
{
    let mut row = Row::new();
    row.text(BLOCK);
    row.decimal(u32::from(anchor.0));
    row.text(b" had ");
    add_size(&mut row, had);
    row.text(b", now ");
    row.decimal(has);
    row
}

/// Writes that so many flex blocks slide, of which the lowest lay at one address, and lies at another.
pub fn print_slide<P: Pen>(count: u32, from: u32, to: u32, pen: &mut P)
    ensures { P.offered pen.new ≡ P.offered pen.old
        ++ (shown_line (codes "  " ++ slide_line count from to) ++ codes "\n") }
{
    print_change(&blocks_slide(count, from, to), pen);
}

/// That so many flex blocks slide, of which the lowest lay at one address, and lies at another.
pub fn blocks_slide(count: u32, from: u32, to: u32) -> Row
    ensures value { result ≡ slide_line count from to }
    ensures few { length result ≤ 200 }
{
    let mut row = Row::new();
    add_sliding(&mut row, count);
    add_way(&mut row, from, to);
    add_anchors(&mut row, count, to);
    row
}

/// Adds how many blocks slide.
fn add_sliding(row: &mut Row, count: u32)
    requires { length row.old + 24 ≤ ROW }
    ensures value { row.new ≡ row.old ++ who_slides count }
    ensures few { length row.new ≤ length row.old + 24 }
{
    if count == 1 {
        row.text(b"1 block slides");
    } else {
        row.decimal(count);
        row.text(b" blocks slide");
    }
}

/// Adds which way and how far it is from one address to another.
fn add_way(row: &mut Row, from: u32, to: u32)
    requires { length row.old + 26 ≤ ROW }
    ensures value { row.new ≡ row.old ++ way_text from to }
    ensures few { length row.new ≤ length row.old + 26 }
{
    if from < to {
        row.text(b" up by ");
        add_size(row, to - from);
    } else {
        row.text(b" down by ");
        add_size(row, from - to);
    }
}

/// Adds what the anchors of so many blocks hold, the lowest of which lies at an address.
fn add_anchors(row: &mut Row, count: u32, to: u32)
    requires { length row.old + 40 ≤ ROW }
    ensures value { row.new ≡ row.old ++ anchors_told count to }
    ensures few { length row.new ≤ length row.old + 40 }
{
    if count == 1 {
        row.text(b": its anchor holds ");
        row.address(to);
        row.text(b" now");
    } else {
        row.text(b": their anchors hold the new addresses");
    }
}
