//! What is kept of a desk before a command.

ghost use Rattle.std.specs.Prelude.{◌≡◌, ◌≤◌, ◌<◌, ◌+◌, [], ◌++◌, if◌then◌else◌, ℕ, IfNone, IfSome, length, map};
ghost use Rattle.std.specs.Prelude.{slice_get, None, Some};
ghost use Rattle.std.specs.Option.{option_map};
ghost use Rattle.rh_defs.specs.Desk.{Task};
ghost use Rattle.rh_defs.specs.declared.sizes.TheConstants.{MAX_AREAS, MOST_MESSAGES};
ghost use Rattle.rh_figure.specs.Changes.{item_with_anchor};
ghost use Rattle.rh_figure.specs.Scene.{acknowledged_by, before_of, before_task, size_named as size_named_by};
ghost use Rattle.rh_figure.specs.Share.{count_of, holdings};
ghost use Rattle.rh_scene.specs.SightMessages.{message_items};
ghost use Rattle.rh_scene.specs.SightOwners.{holdings_of, shared_owner};
ghost use Rattle.rh_scene.specs.Inner.Holdings.{made_holding, slot_holding};
ghost use Rattle.rh_scene.specs.Steps.{IsSender};

use crate::message_list::held_ref;
use crate::segments::{block_size, segment_seen};
use crate::sight::{Messages, Sight};
use crate::step_sender::StepSender;
use crate::tasks::task_about;
use arrayvec::ArrayVec;
use rh_defs::sizes::{ANCHORS, FIXED_AREAS, MAX_AREAS};
use rh_defs::{Anchor, BlockItem, Command, Handle, MessageItem, RawCommand, Ref};
use std::marker::Model;

/// Who has pages: an area by its number, or a slot by its task's handle.
#[derive(Clone, Copy, Debug, PartialEq, Eq)]
pub enum Owner {
    Area(u32),
    Slot(Handle),
}

/// An owner, and how many pages it has.
#[derive(Clone, Copy, Debug, PartialEq, Eq)]
pub struct Holding {
    pub owner: Owner,
    pub pages: u32,
}

impl Default for Holding {
    /// The system heap without a page.
    fn default() -> Holding {
        Holding {
            owner: Owner::Area(0),
            pages: 0,
        }
    }
}

/// What is kept of a desk before a command: of the task that the command names its handle, blocks, the length of its C
/// heap and the ref that it holds, 0 and none where it names no live one; the ref that it acknowledges and the size of
/// the heap's block that it names, 0 for none; all messages, the pages of each owner, the free ones, and the next ref.
#[derive(Drop)]
pub struct Kept {
    handle: Handle,
    blocks: ArrayVec<BlockItem, ANCHORS>,
    heap_end: u32,
    held: Ref,
    acknowledged: Ref,
    size: u32,
    messages: Messages,
    holdings: ArrayVec<Holding, MAX_AREAS>,
    free: u32,
    next_ref: u64,
}

impl Model for Kept {
    ghost use Rattle.rh_figure.specs.Scene.{Before};
    ghost use Rattle.rh_scene.specs.SightOwners.{holdings_of};

    ghost Value = { Before };

    ghost view = { λ s. record {
      handle = s.handle;
      blocks = s.blocks.items;
      heap_end = s.heap_end;
      held = s.held;
      acknowledged = s.acknowledged;
      size = s.size;
      messages = s.messages.items;
      holdings = holdings_of s.holdings.items;
      free = s.free;
      next_ref = s.next_ref;
    } };
}

impl Kept {
    /// What is kept of the desk before a command, or before a bad line.
    pub fn new<S: Sight>(sight: &S, command: Option<&Command>, messages: &Messages) -> Kept
        requires { messages.now.items ≡ message_items (S.desk sight.now) }
        ensures { result ≡ before_of (S.desk sight.now) (option_map (λ c. c.now) command.entry) }
    {
        sight.recall_desk();
        let mut kept = Kept {
            handle: Handle(0),
            blocks: ArrayVec::new(),
            heap_end: 0,
            held: Ref(0),
            acknowledged: Ref(0),
            size: 0,
            messages: copied(messages),
            holdings: ArrayVec::new(),
            free: sight.free_pages(),
            next_ref: sight.next_ref(),
        };
        push_holdings(sight, &mut kept.holdings);
        if let Some(i) = task_about(sight, command) {
            kept.keep_task(sight, i, messages);
        }
        kept.acknowledged = acknowledged(command, kept.held);
        kept.size = size_named(sight, kept.handle, command);
        kept
    }

    /// Keeps what there is of a task.
    fn keep_task<S: Sight>(&mut self, sight: &S, i: usize, messages: &[MessageItem])
        requires task { i < length (S.desk sight.now).tasks }
        requires messages { messages.now ≡ message_items (S.desk sight.now) }
        requires before { self.old ≡ before_task 0 0 (S.desk sight.now) None }
        ensures { (t : Task) → slice_get (S.desk sight.now).tasks i ≡ Some t → self.new
            ≡ before_task 0 0 (S.desk sight.now) (Some t) }
    {
        sight.recall_desk();
        if let Some(task) = sight.task(i) {
            self.handle = task.handle;
            self.heap_end = task.heap_end;
            self.held = held_ref(messages, task.handle);
            sight.blocks(i, &mut self.blocks);
        }
    }

    /// The task that the command named, 0 for none.
    pub fn handle(&self) -> Handle
        ensures { result ≡ self.now.handle }
    {
        self.handle
    }

    /// Who may send a letter at the command.
    pub fn sender(&self) -> StepSender
        ensures { IsSender result self.now }
    {
        StepSender {
            handle: self.handle,
            next_ref: self.next_ref,
            acknowledged: self.acknowledged,
        }
    }

    /// The length of its C heap.
    pub fn heap_end(&self) -> u32
        ensures { result ≡ self.now.heap_end }
    {
        self.heap_end
    }

    /// The ref of the message that it held, 0 for none.
    pub fn held(&self) -> Ref
        ensures { result ≡ self.now.held }
    {
        self.held
    }

    /// The size of the heap's block that the command named, 0 for none.
    pub fn size(&self) -> u32
        ensures { result ≡ self.now.size }
    {
        self.size
    }

    /// All messages.
    pub fn messages(&self) -> &[MessageItem]
        ensures value { result.now ≡ self.now.messages }
        ensures few { length result.now ≤ MOST_MESSAGES }
    {
        &self.messages
    }

    /// The free pages.
    pub fn free(&self) -> u32
        ensures { result ≡ self.now.free }
    {
        self.free
    }

    /// The ref of the next message.
    pub fn next_ref(&self) -> u64
        ensures { result ≡ self.now.next_ref }
    {
        self.next_ref
    }

    /// The blocks of the task, from below.
    pub fn blocks(&self) -> &[BlockItem]
        ensures { result.now ≡ self.now.blocks }
    {
        &self.blocks
    }

    /// The block that the task had at an anchor.
    pub fn block(&self, anchor: Anchor) -> Option<BlockItem>
        ensures { result ≡ item_with_anchor anchor self.now.blocks }
    {
        item_at(&self.blocks, anchor)
    }

    /// How many pages an owner had, 0 where it wasn't there.
    pub fn count(&self, owner: Owner) -> u32
        ensures { result ≡ count_of (shared_owner owner) self.now.holdings }
    {
        count_among(&self.holdings, owner)
    }
}

/// The size of the heap's block that a command names, 0 where it names none, by the handle of the task that it names.
fn size_named<S: Sight>(sight: &S, handle: Handle, command: Option<&Command>) -> u32
    ensures { result ≡ size_named_by handle (option_map (λ c. c.now) command.entry) (S.desk sight.now) }
{
    match command {
        Some(Command::Release { address, .. } | Command::Resize { address, .. }) => {
            block_size(segment_seen(sight, handle, *address))
        }
        Some(Command::RmaFree { address } | Command::RmaResize { address, .. }) => {
            block_size(segment_seen(sight, Handle(0), *address))
        }
        _ => 0,
    }
}

/// The ref of the message that a command acknowledges, by that of the one that its task holds.
fn acknowledged(command: Option<&Command>, held: Ref) -> Ref
    ensures { result ≡ acknowledged_by (option_map (λ c. c.now) command.entry) held }
{
    if is_acknowledgement(command) {
        held
    } else {
        Ref(0)
    }
}

/// Whether a command acknowledges the message that its task holds.
pub(crate) fn is_acknowledgement(command: Option<&Command>) -> bool
    ensures { (held : ℕ) → acknowledged_by (option_map (λ c. c.now) command.entry) held ≡ (if result then held else 0) }
{
    match command {
        Some(Command::Raw(raw)) => matches!(raw, RawCommand::Ack { .. }),
        _ => false,
    }
}

/// How many pages an owner has by a list, 0 where it isn't in it.
fn count_among(holdings: &[Holding], owner: Owner) -> u32
    ensures { result ≡ count_of (shared_owner owner) (holdings_of holdings.now) }
{
    for holding in holdings {
        if holding.owner == owner {
            return holding.pages;
        }
    }
    0
}

/// The block of an anchor in a list.
pub(crate) fn item_at(blocks: &[BlockItem], anchor: Anchor) -> Option<BlockItem>
    ensures { result ≡ item_with_anchor anchor blocks.now }
{
    for block in blocks {
        if block.anchor == anchor {
            return Some(*block);
        }
    }
    None
}

/// The same messages.
fn copied(messages: &Messages) -> Messages
    ensures { result.items ≡ messages.now.items }
{
    let mut list = ArrayVec::new();
    let _ = list.try_extend_from_slice(messages.as_slice());
    list
}

/// Puts all owners into a list: areas 0 to 5, the made ones, and the slots in order of handle.
fn push_holdings<S: Sight>(sight: &S, list: &mut ArrayVec<Holding, MAX_AREAS>)
    requires { list.old.items ≡ [] }
    ensures { holdings_of list.new.items ≡ holdings (S.desk sight.now) }
{
    sight.recall_desk();
    for number in 0..FIXED_AREAS as u32 {
        list.push(Holding {
            owner: Owner::Area(number),
            pages: sight.fixed_pages(number),
        });
    }
    push_made(sight, list);
    push_slots(sight, list);
}

/// Appends the made areas.
fn push_made<S: Sight>(sight: &S, list: &mut ArrayVec<Holding, MAX_AREAS>)
    requires { length list.old.items + length (S.desk sight.now).made ≤ MAX_AREAS }
    ensures { holdings_of list.new.items ≡ holdings_of list.old.items ++ map made_holding (S.desk sight.now).made }
{
    let mut i = 0;
    'areas: while let Some(area) = sight.made(i) {
        list.push(Holding {
            owner: Owner::Area(area.number),
            pages: area.pages,
        });
        i += 1;
    }
}

/// Appends the slots in order of handle.
fn push_slots<S: Sight>(sight: &S, list: &mut ArrayVec<Holding, MAX_AREAS>)
    requires { length list.old.items + length (S.desk sight.now).tasks ≤ MAX_AREAS }
    ensures { holdings_of list.new.items ≡ holdings_of list.old.items ++ map slot_holding (S.desk sight.now).tasks }
{
    let mut i = 0;
    'tasks: while let Some(task) = sight.task(i) {
        list.push(Holding {
            owner: Owner::Slot(task.handle),
            pages: task.pages,
        });
        i += 1;
    }
}
