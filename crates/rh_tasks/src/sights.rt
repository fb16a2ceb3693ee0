//! What is read of the desk beside what its questions answer: tasks, made areas and messages as they stand, and
//! bytes of blocks. Nothing changes, and no memory is taken.

ghost use Rattle.std.specs.Prelude.{◌≡◌, ◌+◌, ◌<◌, ◌≤◌, ◌↔◌, Some, Ok, Err, IfErr, IfOk, IfSome, IsTrue, OnOk, drop};
ghost use Rattle.std.specs.Prelude.{find, length, slice_get, take};
ghost use Rattle.std.specs.Option.{option_map};
ghost use Rattle.std.specs.Result.{MatchResult};
ghost use Rattle.rh_defs.specs.Desk.{Task, has_name, module_start, most_made, most_tasks, next_ref as next_ref_on};
ghost use Rattle.rh_defs.specs.Desk.{task_at};
ghost use Rattle.rh_defs.specs.Messages.{Parcel};
ghost use Rattle.rh_defs.specs.RawTasks.{handed_parts, handed_to, is_raw_task, next_taken};
ghost use Rattle.rh_defs.specs.Records.{most_records};
ghost use Rattle.rh_defs.specs.Text.{taken_of};
ghost use Rattle.rh_wimp.specs.QueueItems.{message_items, with_message};
ghost use Rattle.rh_tasks.specs.Inner.PollSteps.{IsAt};
ghost use Rattle.rh_tasks.specs.WorldLists.{items_at};
ghost use Rattle.rh_tasks.specs.Sights.{IsSeen, blocks_in, bytes_read, scrap_file_of, made_of_sight, module_shown};
ghost use Rattle.rh_tasks.specs.Sights.{next_message as next_message_on, segments_in, slot_bytes};

use crate::listing::{HeapSums, pages_in, segment_items};
use crate::module_area::MODULE;
use crate::named_files::NamedFiles;
use crate::outgoing::with_handle;
use crate::scrap::ScrapFile;
use crate::seat::SentLetter;
use crate::seats::{find, has_raw, slot_of};
use crate::world::World;
use arrayvec::ArrayVec;
use rh_defs::sizes::{
    ANCHORS, C_HEAP_START, LONGEST_MESSAGE, MODULE_START, MOST_MESSAGES, SEGMENTS_AT_ONCE,
    SLOT_START,
};
use rh_defs::{
    BlockItem, Command, Data, EventCode, Handle, Incoming, Manner, MessageItem, Name, Outgoing,
    Refusal, SegmentItem,
};
use rh_store::Store;

/// A live task, lent where the world keeps it.
#[derive(Clone, Copy)]
pub struct LiveTask<'a> {
    pub handle: Handle,
    pub name: &'a Name,
    /// The bytes of its receive buffer.
    pub buffer: u32,
    pub manner: Manner,
    /// The pages of its slot.
    pub pages: u32,
    /// Whether its flex blocks give way to its C heap.
    pub budging: bool,
    /// Its C heap's length, largest free block and free bytes (OS_Heap 1).
    pub heap: HeapSums,
    /// The records of its transfers that go out, in the order made.
    pub sending: &'a [Outgoing],
    /// The records of its transfers that come in, in the order made.
    pub taking: &'a [Incoming],
    /// The last letter that it sent.
    pub last_sent: Option<&'a SentLetter>,
}

/// An area that was made at run.
#[derive(Clone, Copy, Debug, PartialEq, Eq)]
pub struct MadeSight {
    /// The number that commands name it by, from 256 on.
    pub number: u32,
    /// The most pages that it may have.
    pub most: u32,
    /// The pages that it has.
    pub pages: u32,
}

/// Whether `n` bytes from an offset on lie in a block of `size` bytes.
pub fn fits(size: usize, offset: usize, n: usize) -> bool
    ensures { IsTrue result ↔ (offset + n ≤ size) }
{
    offset <= size && n <= size - offset
}

impl<S: Store, F: NamedFiles> World<S, F> {
    /// Live task i in order of handle, with its records; None past the last.
    pub fn task(&self, i: usize) -> Option<LiveTask<'_>>
        ensures task { IsSeen result (slice_get self.now.desk.tasks i) }
        ensures live { IfSome result (λ s. task_at s.handle self.now.desk ≡ slice_get self.now.desk.tasks i) }
        ensures few { length self.now.desk.tasks ≤ most_tasks }
        ensures records { IfSome result (λ s. (length s.sending.now ≤ most_records)
            × (length s.taking.now ≤ most_records)) }
    {
        if i >= self.seats.len() {
            return None;
        }
        let seat = &self.seats[i];
        let (length, largest, free) = seat.slot.describe(&self.store);
        let heap = (length as u32, largest as u32, free as u32);
        Some(LiveTask {
            handle: seat.handle,
            name: &seat.name,
            buffer: seat.buffer,
            manner: seat.manner,
            pages: pages_in(&self.store, seat.slot.area),
            budging: seat.slot.budge,
            heap,
            sending: seat.sending.records(),
            taking: seat.taking.records(),
            last_sent: seat.last_sent.as_ref(),
        })
    }

    /// The handle of live task i in order of handle; None past the last.
    pub fn handle_at(&self, i: usize) -> Option<Handle>
        ensures handle { result ≡ option_map (λ (t : Task). t.handle) (slice_get self.now.desk.tasks i) }
        ensures live { IfSome result (λ h. task_at h self.now.desk ≡ slice_get self.now.desk.tasks i) }
    {
        if i >= self.seats.len() {
            return None;
        }
        Some(self.seats[i].handle)
    }

    /// Puts all flex blocks of a live task from below into a list, in place of what it held; NoTask where the task
    /// isn't live, which leaves the list as it was.
    pub fn blocks_in(
        &self,
        handle: Handle,
        items: &mut ArrayVec<BlockItem, ANCHORS>,
    ) -> Result<(), Refusal>
        ensures ok { OnOk result (blocks_in self.now.desk handle ≡ Ok items.new.items) }
        ensures err { IfErr result (λ e. (blocks_in self.now.desk handle ≡ Err e) × (items.new ≡ items.old)) }
    {
        let i = with_handle(&self.seats, handle).ok_or(Refusal::NoTask)?;
        let slot = self.seats[i].slot;
        slot.list(&self.store, items);
        Ok(())
    }

    /// Up to 64 segments of a live task's C heap in order of place, from the one that begins at `place` on, in bytes
    /// from the heap's first one, none where none begins there; NoTask.
    pub fn segments_in(
        &self,
        handle: Handle,
        place: u32,
    ) -> Result<ArrayVec<SegmentItem, SEGMENTS_AT_ONCE>, Refusal>
        ensures ok { IfOk result (λ items. segments_in self.now.desk handle place ≡ Ok items.items) }
        ensures err { IfErr result (λ e. segments_in self.now.desk handle place ≡ Err e) }
    {
        let i = with_handle(&self.seats, handle).ok_or(Refusal::NoTask)?;
        let slot = self.seats[i].slot;
        let mut segments = ArrayVec::new();
        slot.segments_from(&self.store, place as usize, &mut segments);
        let mut items = ArrayVec::new();
        segment_items(C_HEAP_START as u32, &segments, &mut items);
        Ok(items)
    }

    /// Fills a buffer that was lent with the bytes at an address of a live task's slot; NoTask, or BadRange where they
    /// aren't whole inside one live block of the C heap or one flex block. (Wimp_TransferBlock reads so.)
    pub fn read_slot(&self, handle: Handle, address: u32, to: &mut [u8]) -> Result<(), Refusal>
        ensures { MatchResult (slot_bytes self.now.desk handle address (length to.old))
            (λ bytes. (result ≡ Ok tt) × (to.new ≡ bytes)) (λ e. (result ≡ Err e) × (to.new ≡ to.old)) }
    {
        let i = with_handle(&self.seats, handle).ok_or(Refusal::NoTask)?;
        let slot = self.seats[i].slot;
        let address = address as usize;
        if !slot.inside(&self.store, address, to.len()) {
            return Err(Refusal::BadRange);
        }
        let place = address - SLOT_START;
        self.store.copy_out(slot.area, place, to);
        Ok(())
    }

    /// Fills a buffer that was lent with the bytes at an address of the task's slot; NoName, or BadRange where they
    /// aren't whole inside one live block of the C heap or one flex block.
    pub fn read(&self, name: &Name, address: u32, to: &mut [u8]) -> Result<(), Refusal>
        ensures { MatchResult (bytes_read self.now.desk name.now address (length to.old))
            (λ bytes. (result ≡ Ok tt) × (to.new ≡ bytes)) (λ e. (result ≡ Err e) × (to.new ≡ to.old)) }
    {
        let slot = slot_of(&self.seats, name)?;
        let address = address as usize;
        if !slot.inside(&self.store, address, to.len()) {
            return Err(Refusal::BadRange);
        }
        self.store.copy_out(slot.area, address - SLOT_START, to);
        Ok(())
    }

    /// Fills a buffer that was lent with a part of the `size` bytes at an address of the task's slot, from an offset
    /// on; NoName, or BadRange where the `size` bytes aren't whole inside one live block.
    pub fn read_part(
        &self,
        name: &Name,
        address: u32,
        size: u32,
        offset: u32,
        to: &mut [u8],
    ) -> Result<(), Refusal>
        requires { offset + length to.old ≤ size }
        ensures { MatchResult (bytes_read self.now.desk name.now address size)
            (λ bytes. (result ≡ Ok tt) × (to.new ≡ take (length to.old) (drop offset bytes)))
            (λ e. (result ≡ Err e) × (to.new ≡ to.old)) }
    {
        let slot = slot_of(&self.seats, name)?;
        let address = address as usize;
        if !slot.inside(&self.store, address, size as usize) {
            return Err(Refusal::BadRange);
        }
        let begin = address - SLOT_START + offset as usize;
        self.store.copy_out(slot.area, begin, to);
        Ok(())
    }

    /// The length of the module area's heap in bytes, which is the area's.
    pub fn module_end(&self) -> u32
        ensures { result ≡ self.now.desk.post.heap.end }
    {
        MODULE.end(&self.store) as u32
    }

    /// Up to 64 segments of the module area in order of place, from the one that begins at `place` on, in bytes from
    /// the area's first one; none where none begins there.
    pub fn module_segments(&self, place: u32) -> ArrayVec<SegmentItem, SEGMENTS_AT_ONCE>
        ensures { result.items ≡ items_at module_start place self.now.desk.post.heap }
    {
        let segments = MODULE.segments_from(&self.store, place as usize);
        let mut items = ArrayVec::new();
        segment_items(MODULE_START as u32, &segments, &mut items);
        items
    }

    /// The size in bytes of a block of the module area that a command claimed, and its bytes from an offset on;
    /// NotABlock, NotYours where a message lies in it, or BadRange where the bytes wanted don't lie in the block.
    pub fn read_module(&self, address: u32, offset: u32, to: &mut [u8]) -> Result<u32, Refusal>
        ensures { MatchResult (module_shown self.now.desk address offset (length to.old))
            (λ p. (result ≡ Ok p.0) × (to.new ≡ p.1)) (λ e. (result ≡ Err e) × (to.new ≡ to.old)) }
    {
        let place = self.own_place(address)?;
        let size = MODULE.block_size(&self.store, place)?;
        let offset = offset as usize;
        if !fits(size, offset, to.len()) {
            return Err(Refusal::BadRange);
        }
        MODULE.read_bytes(&self.store, place, offset, to);
        Ok(size as u32)
    }

    /// Puts all live messages into a list, in place of what it held: those that wait, task by task in order of handle,
    /// each task's as polls hand them out; then those that are held, in order of handle.
    pub fn messages(&self, items: &mut ArrayVec<MessageItem, MOST_MESSAGES>)
        ensures { items.new.items ≡ message_items self.now.desk.post }
    {
        self.queue.list(&self.store, MODULE, items);
    }

    /// Writes the message block that a poll of the task would hand out now to the start of a lent block, and answers
    /// its event code; the rest of the block stays. None for no event, or NoName where no task has the name, which
    /// leave the whole block as it was. (Wimp_Poll.)
    pub fn next_message(
        &self,
        name: &Name,
        block: &mut [u8; LONGEST_MESSAGE],
    ) -> Result<Option<EventCode>, Refusal>
        ensures { MatchResult (next_message_on self.now.desk name.now)
            (λ o. (result ≡ Ok (option_map (λ (p : Parcel). p.code) o)) × (block.new ≡ with_message o block.old))
            (λ e. (result ≡ Err e) × (block.new ≡ block.old)) }
    {
        let i = find(&self.seats, name)?;
        let seat = &self.seats[i];
        let code = self.queue.peek(&self.store, MODULE, seat.handle, block);
        Ok(code)
    }

    /// Whether the task with the name has code of its own. Where it hasn't, a poll of it hands out nothing.
    pub fn is_raw(&self, name: &Name) -> bool
        ensures { result ≡ is_raw_task (find (has_name name.now) self.now.desk.tasks) }
    {
        // Where no task has, which is soon seen, none is looked for.
        if !has_raw(&self.seats) {
            return false;
        }
        match find(&self.seats, name) {
            Ok(i) => {
                let seat = &self.seats[i];
                seat.is_raw()
            }
            Err(_) => false,
        }
    }

    /// What a command would hand to a task with code of its own now: the sender's handle, and the message's data. None
    /// where it would hand out nothing.
    pub fn handed(&self, command: &Command) -> Option<(Handle, Data)>
        ensures { result ≡ option_map handed_parts (taken_of self.now.desk command.now) }
    {
        match command {
            Command::Poll { name } => self.handed_to(name),
            _ => None,
        }
    }

    /// What a poll of the task with the name would hand to it, where it has code of its own.
    fn handed_to(&self, name: &Name) -> Option<(Handle, Data)>
        ensures { result ≡ option_map handed_parts (handed_to name.now self.now.desk) }
    {
        match find(&self.seats, name) {
            Ok(i) => self.handed_at(i),
            Err(_) => None,
        }
    }

    /// What a poll of the task at a place would hand to it, where it has code of its own.
    fn handed_at(&self, i: usize) -> Option<(Handle, Data)>
        requires { i < length self.now.desk.tasks }
        ensures { (t : Task) → IsAt i t self.now.desk
            → result ≡ option_map handed_parts (next_taken self.now.desk (Some t)) }
    {
        let seat = &self.seats[i];
        if !seat.is_raw() {
            return None;
        }
        self.queue.next_parts(&self.store, MODULE, seat.handle)
    }

    /// The ref of the next message; 2^32 where all were given.
    pub fn next_ref(&self) -> u64
        ensures { result ≡ next_ref_on self.now.desk }
    {
        self.queue.next_ref()
    }

    /// The scrap file, while there is one.
    pub fn scrap(&self) -> Option<ScrapFile>
        ensures { result ≡ option_map scrap_file_of self.now.desk.scrap }
    {
        self.scrap
    }

    /// Made area i in order of number; None past the last.
    pub fn made_area(&self, i: usize) -> Option<MadeSight>
        ensures area { option_map made_of_sight result ≡ slice_get self.now.desk.made i }
        ensures few { length self.now.desk.made ≤ most_made }
    {
        if i >= self.made.len() {
            return None;
        }
        let area = &self.made[i];
        Some(MadeSight {
            number: area.number,
            most: area.most,
            pages: pages_in(&self.store, area.area),
        })
    }
}
