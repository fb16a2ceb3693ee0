//! The segments of a C heap as lines of text.

ghost use Rattle.std.specs.Prelude.{◌≡◌, ◌<◌, ◌≤◌, ◌+◌, ◌^◌, ◌++◌, codes, flat_map, length};
ghost use Rattle.std.specs.Fmt.{decimal};
ghost use Rattle.rh_defs.specs.Questions.{Nothing, heap};
ghost use Rattle.rh_defs.specs.Text.{address, answer_text, first_line, segment_line};
ghost use Rattle.rh_defs.specs.declared.sizes.TheConstants.{C_HEAP_START};
ghost use Rattle.rh_lines.specs.declared.row.TheConstants.{ROW};
ghost use Rattle.rh_script.specs.declared.gathered.TheConstants.{LONGEST_ITEM};
ghost use Rattle.rh_script.specs.Inner.SegmentsBehind.{item_end, segments_of_named};

use crate::gathered::{Item, print_items};
use crate::read::segments_of;
use arrayvec::ArrayVec;
use rh_defs::sizes::{C_HEAP_START, HEAP_FIRST};
use rh_defs::{Name, Numbers, Reply, SegmentItem};
use rh_lines::{Pen, Row, put_first_line};
use rh_store::Store;
use rh_tasks::{HeapSums, NamedFiles, World};

/// Writes the sums over the task's C heap, and a line for each of its segments, from below.
pub fn print_heap<S: Store, F: NamedFiles, P: Pen>(world: &World<S, F>, name: &Name, pen: &mut P)
    ensures { P.offered pen.new ≡ P.offered pen.old ++ answer_text (heap world.now.desk name.now) }
{
    match world.heap(name, HEAP_FIRST as u32) {
        Ok((sums, _)) => print_sums(world, name, sums, pen),
        Err(refusal) => put_first_line(&Reply::Refused(refusal), pen),
    }
}

fn print_sums<S: Store, F: NamedFiles, P: Pen>(
    world: &World<S, F>,
    name: &Name,
    sums: HeapSums,
    pen: &mut P,
)
    ensures { P.offered pen.new ≡ P.offered pen.old
        ++ (first_line (Reply.Answered (Numbers.HeapSums sums.0 sums.1 sums.2)) Nothing
        ++ flat_map segment_line (segments_of_named name.now world.now.desk)) }
{
    let (length, largest, free) = sums;
    let numbers = Numbers::HeapSums {
        length,
        largest,
        free,
    };
    put_first_line(&Reply::Answered(numbers), pen);
    print_segments(world, name, pen);
}

/// Writes a line for each segment of the task's C heap, from below.
fn print_segments<S: Store, F: NamedFiles, P: Pen>(world: &World<S, F>, name: &Name, pen: &mut P)
    ensures { P.offered pen.new ≡ P.offered pen.old
        ++ flat_map segment_line (segments_of_named name.now world.now.desk) }
{
    let mut place = HEAP_FIRST as u32;
    let mut items = ArrayVec::new();
    segments_of(world, name, place, &mut items);
    'places: while let Some(last) = items.last() {
        print_items(Row::new(), &items, pen);
        place = place_behind(last);
        segments_of(world, name, place, &mut items);
    }
}

/// Where a segment ends, in bytes from the heap's first one.
fn place_behind(item: &SegmentItem) -> u32
    requires low { C_HEAP_START ≤ item_end item.now }
    requires small { item_end item.now < 2 ^ 32 }
    ensures { result + C_HEAP_START ≡ item_end item.now }
{
    let end = match item {
        SegmentItem::Used { address, size } => *address + *size,
        SegmentItem::Hole { address, size } => *address + *size,
    };
    end - C_HEAP_START as u32
}

impl Item for SegmentItem {
    ghost line = { segment_line };

    #[inline(always)]
    fn add(&self, row: &mut Row) {
        match self {
            SegmentItem::Used { address, size } => add_stretch(row, b"  used ", *address, *size),
            SegmentItem::Hole { address, size } => add_stretch(row, b"  hole ", *address, *size),
        }
    }
}

fn add_stretch(row: &mut Row, kind: &[u8], place: u32, size: u32)
    requires kind { length kind.now ≤ 7 }
    requires room { length row.old + LONGEST_ITEM ≤ ROW }
    ensures { row.new ≡ row.old ++ (kind.now ++ (address place ++ (codes " " ++ (decimal size ++ codes "\n")))) }
{
    row.text(kind);
    row.address(place);
    row.byte(b' ');
    row.decimal(size);
    row.byte(b'\n');
}
