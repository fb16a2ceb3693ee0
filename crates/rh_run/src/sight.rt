//! A world as what a picture is drawn of.

ghost use Rattle.std.specs.Prelude.{◌≡◌, ◌≤◌, ◌<◌, ◌+◌, ◌*◌, ◌^◌, ◌++◌, [], get_or, length};
ghost use Rattle.rh_defs.specs.Memory.{IsOpen, bytes};
ghost use Rattle.rh_defs.specs.declared.sizes.TheConstants.{MAX_PAGES, PAGE, WORD};

use crate::world::ScriptWorld;
use arrayvec::ArrayVec;
use rh_defs::sizes::{ANCHORS, C_HEAP_START, MODULE_START, PAGE, WORD};
use rh_defs::{BlockItem, SegmentItem};
use rh_pictures::Drawn;
use rh_scene::{AreaSight, HeapOf, Messages, PageList, ScrapSight, Segments, Sight, TaskSight};
use rh_store::{AreaId, Sited};
use rh_tasks::{AreaEntry, NamedFiles, share_law};

/// Appends the numbers of the free pages.
fn push_free<S: Sited>(store: &S, list: &mut PageList)
    requires few { (S.memory store.now).pages ≤ MAX_PAGES }
    requires room { length list.old.items + (S.memory store.now).free ≤ MAX_PAGES }
    ensures { list.new.items ≡ list.old.items ++ S.free_of store.now }
{
    for i in 0..store.free_pages() {
        list.push(store.free_page(i) as u16);
    }
}

/// Appends the numbers of an area's pages.
fn push_area<S: Sited>(store: &S, area: AreaId, list: &mut PageList)
    requires few { (S.memory store.now).pages ≤ MAX_PAGES }
    requires opened { IsOpen (S.memory store.now) area.0 }
    requires room { PAGE * length list.old.items + length (bytes (S.memory store.now) area.0) ≤ PAGE * MAX_PAGES }
    ensures { list.new.items ≡ list.old.items ++ get_or (S.pages_of store.now) area.0 [] }
{
    for i in 0..store.len(area) / PAGE {
        list.push(store.page(area, i) as u16);
    }
}

/// The address of the bytes of a heap's block, whose segment begins at a place.
fn block_address(start: usize, place: u32) -> u32
    requires { start + place + WORD < 2 ^ 32 }
    ensures { result ≡ start + place + 4 }
{
    (start + WORD) as u32 + place
}

impl<'a, S: Sited, F: NamedFiles> Sight for ScriptWorld<'a, S, F> {
    ghost use Rattle.std.specs.Prelude.{◌≡◌};

    ghost desk = { λ w. w.world.now.desk };

    fn recall_desk(&self) {
        self.world.recall_spelling();
    }

    fn task(&self, i: usize) -> Option<TaskSight<'_>> {
        let Some(task) = self.world.task(i) else {
            return None;
        };
        let last_sent = match task.last_sent {
            Some(sent) => Some((&sent.letter, sent.my_ref)),
            None => None,
        };
        Some(TaskSight {
            handle: task.handle,
            name: task.name,
            buffer: task.buffer,
            manner: task.manner,
            pages: task.pages,
            budging: task.budging,
            heap_end: task.heap.0,
            sending: task.sending,
            taking: task.taking,
            last_sent,
        })
    }

    fn blocks(&self, i: usize, items: &mut ArrayVec<BlockItem, ANCHORS>) {
        if let Some(handle) = self.world.handle_at(i) {
            self.world.blocks_in(handle, items).unwrap();
        }
    }

    fn read_block(&self, i: usize, item: &BlockItem, to: &mut [u8]) {
        if let Some(handle) = self.world.handle_at(i) {
            self.world.read_slot(handle, item.address, to).unwrap();
        }
    }

    fn heap_end(&self, heap: HeapOf) -> u32 {
        match heap {
            HeapOf::Task(i) => match self.world.task(i) {
                Some(task) => task.heap.0,
                None => 0,
            },
            HeapOf::Module => self.world.module_end(),
        }
    }

    fn segments(&self, heap: HeapOf, place: u32) -> Segments {
        self.world.recall_spelling();
        match heap {
            HeapOf::Task(i) => match self.world.handle_at(i) {
                Some(handle) => self.world.segments_in(handle, place).unwrap(),
                None => ArrayVec::new(),
            },
            HeapOf::Module => self.world.module_segments(place),
        }
    }

    fn read_heap(&self, heap: HeapOf, place: u32, to: &mut [u8]) {
        self.world.recall_spelling();
        match heap {
            HeapOf::Task(i) => {
                if let Some(handle) = self.world.handle_at(i) {
                    let address = block_address(C_HEAP_START, place);
                    self.world.read_slot(handle, address, to).unwrap();
                }
            }
            HeapOf::Module => {
                let address = block_address(MODULE_START, place);
                self.world.read_module(address, 0, to).unwrap();
            }
        }
    }

    fn messages(&self, list: &mut Messages) {
        self.world.recall_spelling();
        self.world.messages(list);
    }

    fn fixed_pages(&self, number: u32) -> u32 {
        self.world.recall_spelling();
        match self.world.area_entry(number as usize) {
            Some(AreaEntry::Area { pages, .. }) => pages,
            Some(AreaEntry::Slot { .. }) | None => 0,
        }
    }

    fn made(&self, i: usize) -> Option<AreaSight> {
        match self.world.made_area(i) {
            Some(area) => Some(AreaSight {
                number: area.number,
                most: area.most,
                pages: area.pages,
            }),
            None => None,
        }
    }

    fn scrap(&self) -> Option<ScrapSight> {
        match self.world.scrap() {
            Some(file) => Some(ScrapSight {
                size: file.size,
                load: file.load,
            }),
            None => None,
        }
    }

    fn free_pages(&self) -> u32 {
        self.world.free_pages()
    }

    fn next_ref(&self) -> u64 {
        self.world.next_ref()
    }

    fn page_list(&self, list: &mut PageList) {
        self.world.recall_spelling();
        let mut areas = ArrayVec::new();
        let store = self.world.store(&mut areas);
        share_law(store);
        list.clear();
        push_free(store, list);
        for area in areas.as_slice() {
            push_area(store, *area, list);
        }
    }
}

impl<'a, S: Sited + Drop, F: NamedFiles + Drop> Drawn for ScriptWorld<'a, S, F> {
    ghost use Rattle.rh_tasks.proofs.Reorders.{reordered-refl};

    ghost seen = { λ w. reordered-refl w.world.now.desk };

    ghost alike = { λ w d h. h };
}
