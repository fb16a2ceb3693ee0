//! What is asked of the desk: sums, lists whole and item by item, and bytes.

ghost use Rattle.std.specs.Prelude.{◌≡◌, ◌≤◌, ◌<◌, ℕ, List, true, Ok, Err, IfErr, IfOk, OnOk, length, map, slice_get};
ghost use Rattle.std.specs.List.{AllByRecursion};
ghost use Rattle.std.specs.Option.{option_map};
ghost use Rattle.std.specs.Result.{MatchResult};
ghost use Rattle.rh_store.specs.Limits.{area_limit};
ghost use Rattle.rh_tasks.specs.declared.seat.Seat.{Seat};
ghost use Rattle.rh_defs.specs.Slot.{anchor_count};
ghost use Rattle.rh_defs.specs.Memory.{Memory, IsOpen};
ghost use Rattle.rh_defs.specs.Range.{can_be_asked};
ghost use Rattle.rh_defs.specs.Questions.{asked, area_items, areas_at, blocks_at, heap_at, shown_at, status_at};
ghost use Rattle.rh_defs.specs.Desk.{free_pages as free_pages_on};
ghost use Rattle.rh_tasks.specs.Answer.{first_told};
ghost use Rattle.rh_tasks.specs.View.{pages_at, HasAreas};
ghost use Rattle.rh_tasks.specs.WorldItems.{area_item_of, segment_item_of, placed_item, IsSmallSegment};
ghost use Rattle.rh_tasks.specs.Inner.ItemsByOwner.{items_in, slot_items};
ghost use Rattle.rh_tasks.specs.Sights.{bytes_read, size_read};
ghost use Rattle.rh_tasks.specs.WorldLists.{blocks_of, segments_of};
ghost use Rattle.rh_defs.specs.declared.sizes.TheConstants.{MAX_AREAS, SEGMENTS_AT_ONCE};

use crate::made::MadeAreas;
use crate::named_files::NamedFiles;
use crate::seat::Seats;
use crate::seats::{find, slot_of};
use crate::world::World;
use arrayvec::ArrayVec;
use rh_defs::sizes::{ANCHORS, C_HEAP_START, FIXED_AREAS, PAGE, SEGMENTS_AT_ONCE, WORD};
use rh_defs::{
    Anchor, AreaItem, BlockItem, Handle, Incoming, Name, Numbers, Outgoing, Question, Refusal,
    SegmentItem,
};
use rh_heap::Segment;
use rh_store::{AreaId, Store};

/// A C heap's length, the size of the largest block that fits, and its free bytes.
pub type HeapSums = (u32, u32, u32);

/// How many pages an area has.
#[tactic(auto, unfolding(crate::specs::View::pages_at))]
pub fn pages_in<S: Store>(store: &S, area: AreaId) -> u32
    requires { IsOpen (S.memory store.now) area.0 }
    ensures { result ≡ pages_at (S.memory store.now) area.0 }
{
    (store.len(area) / PAGE) as u32
}

/// An area or a slot as `areas` lists it, with its name where the world keeps it.
#[derive(Clone, Copy, Debug, PartialEq, Eq)]
pub enum AreaEntry<'a> {
    /// An area by its number: 0 to 5 as OS_ChangeDynamicArea has them, or that of a made one.
    Area { number: u32, pages: u32 },
    /// The slot of the task with the name.
    Slot { name: &'a Name, pages: u32 },
}

/// Item i of areas 0 to 5, the made areas in order of number, and the slots in order of handle.
fn entry_at<'a, S: Store>(
    store: &S,
    seats: &'a Seats,
    made: &MadeAreas,
    i: usize,
) -> Option<AreaEntry<'a>>
    requires { HasAreas (S.memory store.now) seats.now.items made.now.items }
    ensures { option_map area_item_of result ≡ slice_get (items_in
        (S.memory store.now) seats.now.items made.now.items) i }
{
    if i < FIXED_AREAS {
        return Some(AreaEntry::Area {
            number: i as u32,
            pages: pages_in(store, AreaId(i as u8)),
        });
    }
    let behind = i - FIXED_AREAS;
    if behind < made.len() {
        let area = &made[behind];
        return Some(AreaEntry::Area {
            number: area.number,
            pages: pages_in(store, area.area),
        });
    }
    slot_entry(store, seats, behind - made.len())
}

fn slot_entry<'a, S: Store>(store: &S, seats: &'a Seats, i: usize) -> Option<AreaEntry<'a>>
    requires { AllByRecursion (λ (s : Seat). IsOpen (S.memory store.now) s.slot.area.0) seats.now.items }
    ensures { option_map area_item_of result ≡ slice_get (slot_items (S.memory store.now) seats.now.items) i }
{
    if i >= seats.len() {
        return None;
    }
    let seat = &seats[i];
    Some(AreaEntry::Slot {
        name: &seat.name,
        pages: pages_in(store, seat.slot.area),
    })
}

/// Item i of areas 0 to 5, the made areas and the slots, with a name of its own.
fn area_item<S: Store>(store: &S, seats: &Seats, made: &MadeAreas, i: usize) -> Option<AreaItem>
    requires { HasAreas (S.memory store.now) seats.now.items made.now.items }
    ensures { result ≡ slice_get (items_in (S.memory store.now) seats.now.items made.now.items) i }
{
    match entry_at(store, seats, made, i)? {
        AreaEntry::Area { number, pages } => Some(AreaItem::Area { number, pages }),
        AreaEntry::Slot { name, pages } => Some(AreaItem::Slot {
            name: name.copied(),
            pages,
        }),
    }
}

/// A segment that begins at a place of a heap, as it is listed, by the heap's address.
fn segment_item(start: u32, place: u32, segment: Segment) -> SegmentItem
    requires start { start ≤ area_limit }
    requires low { place ≤ area_limit }
    requires small { segment.size ≤ area_limit }
    ensures { result ≡ segment_item_of start place segment }
{
    let address = start + place;
    let size = segment.size as u32;
    if segment.used {
        return SegmentItem::Used {
            address: address + WORD as u32,
            size: size.saturating_sub(WORD as u32),
        };
    }
    SegmentItem::Hole { address, size }
}

/// Puts segments of a heap into a list, in place of what it held: as they are listed, by the heap's address.
pub fn segment_items(
    start: u32,
    segments: &[Segment],
    items: &mut ArrayVec<SegmentItem, SEGMENTS_AT_ONCE>,
)
    requires start { start ≤ area_limit }
    requires few { length segments.now ≤ SEGMENTS_AT_ONCE }
    requires small { AllByRecursion IsSmallSegment segments.now }
    ensures { items.new.items ≡ map (placed_item start) segments.now }
{
    items.clear();
    for segment in segments {
        items.push(segment_item(start, segment.place as u32, *segment));
    }
}

impl<S: Store, F: NamedFiles> World<S, F> {
    /// The free pages, and item i of areas 0 to 5, the made areas in order of number and the slots in order of handle;
    /// None past the end.
    pub fn areas(&self, i: usize) -> (u32, Option<AreaItem>)
        ensures item { result ≡ areas_at self.now.desk i }
        ensures few { length (area_items self.now.desk) ≤ MAX_AREAS }
    {
        let free = self.free_pages();
        (free, area_item(&self.store, &self.seats, &self.made, i))
    }

    /// Item i of `areas` without a copy of its name, and without the free pages; None past the end.
    pub fn area_entry(&self, i: usize) -> Option<AreaEntry<'_>>
        ensures item { option_map area_item_of result ≡ slice_get (area_items self.now.desk) i }
        ensures few { length (area_items self.now.desk) ≤ MAX_AREAS }
    {
        entry_at(&self.store, &self.seats, &self.made, i)
    }

    /// How many flex blocks the task has, and block i from below, None past the end; NoName where no task has the name.
    pub fn blocks(&self, name: &Name, i: usize) -> Result<(u32, Option<BlockItem>), Refusal>
        ensures { result ≡ blocks_at self.now.desk name.now i }
    {
        let slot = slot_of(&self.seats, name)?;
        let count = slot.count(&self.store) as u32;
        Ok((count, slot.block(&self.store, i)))
    }

    /// Puts all flex blocks of the task from below into a list, in place of what it held; NoName where no task has the
    /// name, which leaves the list as it was.
    pub fn blocks_of(
        &self,
        name: &Name,
        items: &mut ArrayVec<BlockItem, ANCHORS>,
    ) -> Result<(), Refusal>
        ensures ok { OnOk result (blocks_of self.now.desk name.now ≡ Ok items.new.items) }
        ensures err { IfErr result (λ e. (blocks_of self.now.desk name.now ≡ Err e) × (items.new ≡ items.old)) }
    {
        let slot = slot_of(&self.seats, name)?;
        slot.list(&self.store, items);
        Ok(())
    }

    /// The sums over the task's C heap (OS_Heap 1), and the segment that begins at a place, in bytes from the heap's
    /// first one, None where none begins; NoName where no task has the name.
    pub fn heap(&self, name: &Name, place: u32) -> Result<(HeapSums, Option<SegmentItem>), Refusal>
        ensures { result ≡ heap_at self.now.desk name.now place }
    {
        let slot = slot_of(&self.seats, name)?;
        let (length, largest, free) = slot.describe(&self.store);
        let sums = (length as u32, largest as u32, free as u32);
        let Some(segment) = slot.segment(&self.store, place as usize) else {
            return Ok((sums, None));
        };
        Ok((
            sums,
            Some(segment_item(C_HEAP_START as u32, place, segment)),
        ))
    }

    /// Puts up to 64 segments of the task's C heap into a list, in place of what it held: in order of place, from the
    /// one that begins at `place` on, in bytes from the heap's first one, none where none begins there; NoName where no
    /// task has the name, which leaves the list as it was.
    pub fn segments_of(
        &self,
        name: &Name,
        place: u32,
        items: &mut ArrayVec<SegmentItem, SEGMENTS_AT_ONCE>,
    ) -> Result<(), Refusal>
        ensures ok { OnOk result (segments_of self.now.desk name.now place ≡ Ok items.new.items) }
        ensures err { IfErr result (λ e. (segments_of self.now.desk name.now place ≡ Err e) × (items.new ≡ items.old)) }
    {
        let slot = slot_of(&self.seats, name)?;
        let mut segments = ArrayVec::new();
        slot.segments_from(&self.store, place as usize, &mut segments);
        segment_items(C_HEAP_START as u32, &segments, items);
        Ok(())
    }

    /// The size in bytes of the task's block at the anchor (flex_size), and its bytes from an offset on; NoName,
    /// NoBlock, or BadRange where the bytes wanted don't lie in the block.
    pub fn show(
        &self,
        name: &Name,
        anchor: Anchor,
        offset: u32,
        to: &mut [u8],
    ) -> Result<u32, Refusal>
        requires { anchor < anchor_count }
        ensures { MatchResult (shown_at self.now.desk name.now anchor offset (length to.old))
            (λ p. (result ≡ Ok p.0) × (to.new ≡ p.1)) (λ e. (result ≡ Err e) × (to.new ≡ to.old)) }
    {
        let slot = slot_of(&self.seats, name)?;
        let size = slot.size(&self.store, anchor)?;
        slot.read(&self.store, anchor, offset as usize, to)?;
        Ok(size as u32)
    }

    /// The task's handle, and its records of the transfers that go out and of those that come in, each in the order
    /// made; NoName where no task has the name.
    pub fn status(&self, name: &Name) -> Result<(Handle, &[Outgoing], &[Incoming]), Refusal>
        ensures ok { IfOk result (λ s. status_at self.now.desk name.now ≡ Ok (s.0, s.1.now, s.2.now)) }
        ensures err { IfErr result (λ e. status_at self.now.desk name.now ≡ Err e) }
    {
        let i = find(&self.seats, name)?;
        let seat = &self.seats[i];
        Ok((seat.handle, seat.sending.records(), seat.taking.records()))
    }

    /// How many bytes were asked for at an address of the task's slot; NoName, or BadRange where they aren't whole
    /// inside one live block.
    pub fn read_size(&self, name: &Name, address: u32, size: u32) -> Result<u32, Refusal>
        ensures size { result ≡ size_read self.now.desk name.now address size }
        ensures whole { IfOk result (λ n. (bytes : List ℕ) → bytes_read self.now.desk name.now address size ≡ Ok bytes
            → length bytes ≡ size) }
    {
        let slot = slot_of(&self.seats, name)?;
        if !slot.inside(&self.store, address as usize, size as usize) {
            return Err(Refusal::BadRange);
        }
        Ok(size)
    }

    /// The numbers of a question's answer: NoName, NoBlock, BadRange.
    pub fn answer_question(&self, question: &Question) -> Result<Numbers, Refusal>
        requires { can_be_asked question.now ≡ true }
        ensures { result ≡ first_told (asked self.now.desk question.now) }
    {
        match question {
            Question::Show { name, anchor } => {
                let size = self.show(name, *anchor, 0, &mut [])?;
                Ok(Numbers::Shown { size })
            }
            Question::Read {
                name,
                address,
                size,
            } => {
                let size = self.read_size(name, *address, *size)?;
                Ok(Numbers::Shown { size })
            }
            Question::Blocks { name } => Ok(Numbers::BlockCount(self.blocks(name, 0)?.0)),
            Question::Heap { name } => {
                let ((length, largest, free), _) = self.heap(name, 0)?;
                Ok(Numbers::HeapSums {
                    length,
                    largest,
                    free,
                })
            }
            Question::Status { name } => match self.status(name) {
                Ok(records) => Ok(Numbers::StatusOf(records.0)),
                Err(refusal) => Err(refusal),
            },
            Question::Areas => Ok(Numbers::FreePages(self.free_pages())),
        }
    }

    /// How many pages are free.
    pub fn free_pages(&self) -> u32
        ensures { result ≡ free_pages_on self.now.desk }
    {
        self.store.free_pages() as u32
    }
}
