//! Flex blocks, and areas and slots, as lines of text.

ghost use Rattle.std.specs.Prelude.{◌≡◌, ◌≤◌, ◌+◌, ◌∷◌, ◌++◌, [], Ok, codes, flat_map, length};
ghost use Rattle.std.specs.Fmt.{decimal};
ghost use Rattle.rh_defs.specs.Questions.{area_items, areas, blocks};
ghost use Rattle.rh_defs.specs.Text.{answer_text, area_line, block_line, later, ok};
ghost use Rattle.rh_lines.specs.declared.row.TheConstants.{ROW};
ghost use Rattle.rh_tasks.specs.WorldItems.{area_item_of};
ghost use Rattle.rh_script.specs.declared.gathered.TheConstants.{LONGEST_ITEM};

use crate::gathered::{Item, make_room, print_items};
use arrayvec::ArrayVec;
use rh_defs::{BlockItem, Name, Reply};
use rh_lines::{Pen, Row, add_number, put_first_line};
use rh_store::Store;
use rh_tasks::{AreaEntry, NamedFiles, World};

/// Writes how many flex blocks the task has, and a line for each, from below.
pub fn print_blocks<S: Store, F: NamedFiles, P: Pen>(world: &World<S, F>, name: &Name, pen: &mut P)
    ensures { P.offered pen.new ≡ P.offered pen.old ++ answer_text (blocks world.now.desk name.now) }
{
    let mut items = ArrayVec::new();
    match world.blocks_of(name, &mut items) {
        Ok(()) => print_counted(items.len() as u32, &items, pen),
        Err(refusal) => put_first_line(&Reply::Refused(refusal), pen),
    }
}

/// Writes a number, and a line for each of these items.
fn print_counted<T: Item, P: Pen>(count: u32, items: &[T], pen: &mut P)
    ensures { P.offered pen.new ≡ P.offered pen.old
        ++ (ok (decimal count ∷ []) ++ flat_map (λ item. T.line item) items.now) }
{
    let mut row = Row::new();
    add_number(count, &mut row);
    print_items(row, items, pen)
}

impl Item for BlockItem {
    ghost line = { block_line };

    #[inline(always)]
    fn add(&self, row: &mut Row) {
        row.text(b"  ");
        row.decimal(u32::from(self.anchor.0));
        row.byte(b' ');
        row.address(self.address);
        row.byte(b' ');
        row.decimal(self.size);
        row.byte(b'\n');
    }
}

/// Writes how many pages are free, and a line for each area, and then for each slot in order of handle.
pub fn print_areas<S: Store, F: NamedFiles, P: Pen>(world: &World<S, F>, pen: &mut P)
    ensures { P.offered pen.new ≡ P.offered pen.old ++ answer_text (Ok (areas world.now.desk)) }
{
    let (free, _) = world.areas(0);
    print_entries(world, free, pen)
}

/// Writes a number, and a line for each area, and then for each slot.
fn print_entries<S: Store, F: NamedFiles, P: Pen>(world: &World<S, F>, free: u32, pen: &mut P)
    ensures { P.offered pen.new ≡ P.offered pen.old
        ++ (ok (decimal free ∷ []) ++ flat_map area_line (area_items world.now.desk)) }
{
    let mut row = Row::new();
    add_number(free, &mut row);
    let mut i = 0;
    'items: while let Some(item) = world.area_entry(i) {
        make_room(&mut row, pen);
        add_area(&mut row, item);
        i += 1;
    }
    pen.put(row.as_slice());
}

#[inline(always)]
fn add_area(row: &mut Row, item: AreaEntry<'_>)
    requires { length row.old + LONGEST_ITEM ≤ ROW }
    ensures { row.new ≡ row.old ++ area_line (area_item_of item.entry) }
{
    match item {
        AreaEntry::Area { number, pages } => add_numbered(row, number, pages),
        AreaEntry::Slot { name, pages } => add_slot(row, name, pages),
    }
}

fn add_numbered(row: &mut Row, number: u32, pages: u32)
    requires { length row.old + LONGEST_ITEM ≤ ROW }
    ensures { row.new ≡ row.old ++ later (codes "area") (decimal number ∷ decimal pages ∷ []) }
{
    row.text(b"  area ");
    row.decimal(number);
    row.byte(b' ');
    row.decimal(pages);
    row.byte(b'\n');
}

fn add_slot(row: &mut Row, name: &Name, pages: u32)
    requires { length row.old + LONGEST_ITEM ≤ ROW }
    ensures { row.new ≡ row.old ++ later (codes "slot") (name.now ∷ decimal pages ∷ []) }
{
    row.text(b"  slot ");
    row.text(name.as_bytes());
    row.byte(b' ');
    row.decimal(pages);
    row.byte(b'\n');
}
