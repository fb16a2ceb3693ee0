//! A desk that can be looked at.

ghost use Rattle.std.specs.Prelude.{◌≡◌, ◌≤◌, ◌<◌, ◌+◌, ◌++◌, ℕ, List, IfNone, IfSome, IsSome, None, Some, length};
ghost use Rattle.std.specs.Prelude.{slice_get, take};
ghost use Rattle.std.specs.Option.{option_map};
ghost use Rattle.rh_defs.specs.Desk.{most_made, Desk, Task, free_pages as free_pages_on, most_tasks};
ghost use Rattle.rh_defs.specs.Desk.{next_ref as next_ref_on};
ghost use Rattle.rh_defs.specs.declared.sizes.TheConstants.{FIXED_AREAS, SEGMENTS_AT_ONCE};
ghost use Rattle.rh_defs.specs.Heap.{Segment, place_after};
ghost use Rattle.rh_defs.specs.Laws.{IsDesk};
ghost use Rattle.rh_defs.specs.Questions.{block_items, segment_items_from};
ghost use Rattle.rh_defs.specs.Records.{most_records};
ghost use Rattle.rh_figure.specs.Share.{IsShared};

use arrayvec::ArrayVec;
use rh_defs::sizes::{ANCHORS, MAX_PAGES, MOST_MESSAGES, SEGMENTS_AT_ONCE};
use rh_defs::{
    BlockItem, Handle, Incoming, Letter, Manner, MessageItem, Name, Outgoing, Ref, SegmentItem,
};

/// Segments of a heap from below.
pub type Segments = ArrayVec<SegmentItem, SEGMENTS_AT_ONCE>;

/// All live messages.
pub type Messages = ArrayVec<MessageItem, MOST_MESSAGES>;

/// Numbers of pages of the pool.
pub type PageList = ArrayVec<u16, MAX_PAGES>;

/// A live task. `heap_end` is the length of its C heap, `pages` those of its slot, `last_sent` the last letter that it
/// sent, with its ref.
#[derive(Clone, Copy)]
pub struct TaskSight<'a> {
    pub handle: Handle,
    pub name: &'a Name,
    pub buffer: u32,
    pub manner: Manner,
    pub pages: u32,
    pub budging: bool,
    pub heap_end: u32,
    pub sending: &'a [Outgoing],
    pub taking: &'a [Incoming],
    pub last_sent: Option<(&'a Letter, Ref)>,
}

/// A made area: its number, the most pages that it may have, and its pages.
#[derive(Clone, Copy, Debug, PartialEq, Eq)]
pub struct AreaSight {
    pub number: u32,
    pub most: u32,
    pub pages: u32,
}

/// The scrap file: its bytes, and the ref of its DataLoad.
#[derive(Clone, Copy, Debug, PartialEq, Eq)]
pub struct ScrapSight {
    pub size: u32,
    pub load: Ref,
}

/// A heap: the C heap of the task at a place in order of handle, or that of the module area.
#[derive(Clone, Copy, Debug, PartialEq, Eq)]
pub enum HeapOf {
    Task(usize),
    Module,
}

/// Who has pages: one of areas 0 to 5, the made area at a place in order of number, or the slot of the task at a place
/// in order of handle.
#[derive(Clone, Copy, Debug, PartialEq, Eq)]
pub enum PagesOf {
    Fixed(u32),
    Made(usize),
    Slot(usize),
}

/// A desk that can be looked at. Nothing here changes it, or takes memory.
pub trait Sight {
    ghost use Rattle.rh_scene.specs.Seen.{SeesBlock, HasFlex, IsAreaSeen, SeesFree, IsTaskSeen, heap_seen};
    ghost use Rattle.rh_scene.specs.Seen.{heap_start_of, scrap_seen};
    ghost use Rattle.rh_scene.specs.SightMessages.{message_items};
    ghost use Rattle.rh_scene.specs.SightPages.{share_in};

    // The desk that is seen.
    ghost desk: { Self → Desk };

    /// Runs nothing: recalls for a proof that the desk is one of a run.
    fn recall_desk(&self)
        ensures { IsDesk (desk self.now) };

    /// The task at a place in order of handle, with at most so many records each way as may be; None past the last.
    fn task(&self, i: usize) -> Option<TaskSight<'_>>
        ensures some { IfSome result (λ s. (t : Task) × (slice_get (desk self.now).tasks i ≡ Some t) × IsTaskSeen s t) }
        ensures none { IfNone result (slice_get (desk self.now).tasks i ≡ None) }
        ensures few { length (desk self.now).tasks ≤ most_tasks }
        ensures records { IfSome result (λ s. (length s.sending.now ≤ most_records)
            × (length s.taking.now ≤ most_records)) };

    /// Puts the flex blocks of a task from below into a list, in place of what it held.
    fn blocks(&self, i: usize, items: &mut ArrayVec<BlockItem, ANCHORS>)
        requires { i < length (desk self.now).tasks }
        ensures { (t : Task) → slice_get (desk self.now).tasks i ≡ Some t → items.new.items ≡ block_items t.slot };

    /// Writes the first bytes of a flex block of a task, as many as there is room for.
    fn read_block(&self, i: usize, item: &BlockItem, to: &mut [u8])
        requires { (bytes : List ℕ) × HasFlex (slice_get (desk self.now).tasks i) item.now bytes
            × (length to.old ≤ length bytes) }
        ensures { (bytes : List ℕ) → HasFlex (slice_get (desk self.now).tasks i) item.now bytes → to.new
            ≡ take (length to.old) bytes };

    /// The length of a heap.
    fn heap_end(&self, heap: HeapOf) -> u32
        requires { IsSome (heap_seen heap (desk self.now)) }
        ensures { IfSome (heap_seen heap (desk self.now)) (λ h. result ≡ h.end) };

    /// As many segments of a heap as are told at a time, of which the first begins at a place in bytes from the heap's
    /// first one; none at the end of the last.
    fn segments(&self, heap: HeapOf, place: u32) -> Segments
        requires { IfSome (heap_seen heap (desk self.now)) (λ h. (below : List Segment) × (rest : List Segment) ×
            (h.segments ≡ below ++ rest) × (place ≡ place_after below)) }
        ensures { IfSome (heap_seen heap (desk self.now)) (λ h. (below : List Segment) (rest : List Segment)
            → h.segments ≡ below ++ rest → place ≡ place_after below →
            result.items ≡ take SEGMENTS_AT_ONCE (segment_items_from (heap_start_of heap + place) rest)) };

    /// Writes the first bytes of the block of a heap whose segment begins at a place, as many as there is room for. No
    /// message lies in the block.
    fn read_heap(&self, heap: HeapOf, place: u32, to: &mut [u8])
        requires block { (bytes : List ℕ) × SeesBlock (heap_seen heap (desk self.now)) place bytes
            × (length to.old ≤ length bytes) }
        requires free { SeesFree heap place (desk self.now) }
        ensures { (bytes : List ℕ) → SeesBlock (heap_seen heap (desk self.now)) place bytes → to.new
            ≡ take (length to.old) bytes };

    /// Puts all messages into a list, in place of what it held: those that wait, task by task in order of handle and
    /// as polls hand them out, and then those that are held.
    fn messages(&self, list: &mut Messages)
        ensures { list.new.items ≡ message_items (desk self.now) };

    /// How many pages one of areas 0 to 5 has.
    fn fixed_pages(&self, number: u32) -> u32
        requires { number < FIXED_AREAS }
        ensures { IsAreaSeen number result (desk self.now) };

    /// The made area at a place in order of number; None past the last.
    fn made(&self, i: usize) -> Option<AreaSight>
        ensures some { IfSome result (λ a. slice_get (desk self.now).made i ≡ Some
            (record { number = a.number; most = a.most; pages = a.pages })) }
        ensures none { IfNone result (slice_get (desk self.now).made i ≡ None) }
        ensures few { length (desk self.now).made ≤ most_made };

    /// The scrap file, if there is one.
    fn scrap(&self) -> Option<ScrapSight>
        ensures { option_map (λ s. (s.size, s.load)) result ≡ scrap_seen (desk self.now) };

    /// How many pages are free.
    fn free_pages(&self) -> u32
        ensures { result ≡ free_pages_on (desk self.now) };

    /// The ref of the next message, up to 2^32.
    fn next_ref(&self) -> u64
        ensures { result ≡ next_ref_on (desk self.now) };

    /// Puts the numbers of all pages of the pool into a list, in place of what it held: the free ones in the order in
    /// which they were given back, and then those of each owner from below: areas 0 to 5, the made ones in order of
    /// number, and the slots in order of handle.
    fn page_list(&self, list: &mut PageList)
        ensures all { length list.new.items ≡ (desk self.now).pool }
        ensures shared { IsShared (share_in list.new.items (desk self.now)) (desk self.now) };
}
