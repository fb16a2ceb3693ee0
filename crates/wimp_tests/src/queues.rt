//! Rows about a queue over a store: messages that are sent, polled and bounced between tasks 1, 2 and 3.

ghost use Rattle.std.specs.Prelude.{◌≡◌, [], ◌∷◌, IfSome};
ghost use Rattle.rh_wimp.specs.QueueCalls.{handles_of, IsQueue};
ghost use Rattle.rh_wimp.specs.Chains.{HasEntry};
ghost use Rattle.rh_defs.specs.Memory.{Memory};
ghost use Rattle.rh_module.specs.ModuleArea.{IsModule};
ghost use Rattle.rh_module.specs.declared.module.Module.{Module as SpecModule};
ghost use Rattle.wimp_tests.specs.TestRuns.{Runs};

use crate::answer::{shown, tell};
use crate::bodies::body;
use crate::images::told;
use crate::live::Live;
use crate::row::Row;
use arrayvec::ArrayVec;
use rh_defs::sizes::{LONGEST_MESSAGE, MOST_MESSAGES};
use rh_defs::{
    Body, EventCode, FileData, Handle, Letter, Message, MessageItem, Pathname, Ref, Refusal,
};
use rh_module::Module;
use rh_store::{Store, Words};
use rh_wimp::{Queue, decode_any};
use std::alloc::Global;
use std::io;

/// A store with a module area of one page, a queue with tasks 1, 2 and 3, and the handles beside it.
#[derive(Drop)]
struct Bench<S: Store> {
    store: S,
    module_area: Module,
    queue: Queue,
    live: Live,
}

/// A message as a row asks for it.
#[derive(Clone, Copy, Drop)]
struct Sent {
    code: EventCode,
    from: u32,
    to: u32,
    your_ref: u32,
}

/// Makes the calls of the rows on a queue whose first ref is this one.
pub(crate) fn rows<R: Print + AllocGlobal, S: Store + Drop>(
    rt: &R,
    store: S,
    next_ref: u32,
    rows: &str,
) -> io::Result<()> {
    let Some(mut bench) = Bench::new(rt.alloc(), store, next_ref) else {
        return tell(rt, "start", None);
    };
    for line in rows.lines() {
        let answer = bench.call(rt.alloc(), &Row::new(line));
        tell(rt, line, answer)?;
    }
    Ok(())
}

/// A DataSave of five bytes under a name.
fn save(name: Pathname) -> Body {
    Body::DataSave(FileData {
        window: 0,
        icon: 0,
        x: 0,
        y: 0,
        size: 5,
        file_type: 0xffd,
        name,
    })
}

/// A letter that says this.
fn letter(sent: Sent, body: Body) -> Letter
    ensures { result.from ≡ sent.from }
{
    Letter {
        code: sent.code,
        from: Handle(sent.from),
        to: Handle(sent.to),
        your_ref: Ref(sent.your_ref),
        body,
    }
}

/// A message from a task to another one, of this kind, that answers the message with a ref, or none.
fn sent_by(row: &Row<'_>) -> Option<Sent> {
    let code = match row.word(3)? {
        "recorded" => EventCode::Recorded,
        "user" => EventCode::User,
        _ => return None,
    };
    Some(Sent {
        code,
        from: row.number(1)?,
        to: row.number(2)?,
        your_ref: row.number(4)?,
    })
}

/// An empty queue whose first ref is this one: that of a new queue is 1.
fn queue_from(next_ref: u32) -> Queue
    ensures empty { handles_of result ≡ [] }
    ensures starts { (m : Memory) (module_area : SpecModule) → IsModule m module_area → IsQueue m module_area result }
{
    if next_ref == 1 {
        Queue::new()
    } else {
        Queue::with_next_ref(Ref(next_ref))
    }
}

/// Joins tasks 1, 2 and 3 to an empty queue.
fn three(queue: &mut Queue)
    requires { handles_of queue.old ≡ [] }
    ensures handles { handles_of queue.new ≡ 1 ∷ 2 ∷ 3 ∷ [] }
    ensures still { (m : Memory) (module_area : SpecModule) → IsQueue m module_area queue.old
        → IsQueue m module_area queue.new }
{
    queue.join(Handle(1));
    queue.join(Handle(2));
    queue.join(Handle(3));
}

/// The module area in an area of one page.
#[tactic(auto, using(rh_defs::proofs::BytesLaws::word_laws, rh_defs::proofs::MemoryLaws::memory_laws, rh_defs::proofs::MemoryLaws::pool_laws))]
fn started<S: Store>(store: &mut S) -> Option<Module>
    ensures { IfSome result (IsModule (S.memory store.new)) }
{
    let Ok(area) = store.open() else {
        return None;
    };
    let Ok(()) = store.grow(area, 1) else {
        return None;
    };
    Some(Module::start(store, area))
}

impl<S: Store + Drop> Bench<S> {
    /// Tasks 1, 2 and 3 over a store, with no message.
    fn new(alloc: Global, store: S, next_ref: u32) -> Option<Bench<S>>
        ensures { IfSome result (λ bench. Runs
            (S.memory bench.store) bench.module_area bench.queue bench.live.handles.items) }
    {
        let mut store = store;
        let module_area = started(&mut store)?;
        let Ok(live) = Live::new(alloc, &[1, 2, 3]) else {
            return None;
        };
        let mut queue = queue_from(next_ref);
        three(&mut queue);
        Some(Bench {
            store,
            module_area,
            queue,
            live,
        })
    }

    /// What the call of a row answers; none too where its task isn't live.
    fn call(&mut self, alloc: Global, row: &Row<'_>) -> Option<String>
        requires { Runs (S.memory self.old.store) self.old.module_area self.old.queue self.old.live.handles.items }
        ensures { Runs (S.memory self.new.store) self.new.module_area self.new.queue self.new.live.handles.items }
    {
        match row.word(0)? {
            "send" => {
                let said = save(Pathname::new(b"doc")?);
                shown(alloc, self.try_send(sent_by(row)?, said)?)
            }
            "say" => {
                let said = body(alloc, row, 5)?;
                shown(alloc, self.try_send(sent_by(row)?, said)?)
            }
            "put_down" => shown(alloc, self.put_down(row.number(1)?)?),
            "poll" => self.poll(alloc, row.number(1)?),
            "end" => shown(alloc, self.end(row.number(1)?)?),
            _ => self.ask(alloc, row),
        }
    }

    /// Sends a message of a live task.
    fn try_send(&mut self, sent: Sent, said: Body) -> Option<Result<Ref, Refusal>>
        requires { Runs (S.memory self.old.store) self.old.module_area self.old.queue self.old.live.handles.items }
        ensures { Runs (S.memory self.new.store) self.new.module_area self.new.queue self.new.live.handles.items }
    {
        if !self.live.is_live(sent.from) {
            return None;
        }
        let letter = letter(sent, said);
        Some(self.queue.send(&mut self.store, self.module_area, letter))
    }

    /// Says that what a live task holds is answered.
    fn put_down(&mut self, task: u32) -> Option<Option<Ref>>
        requires { Runs (S.memory self.old.store) self.old.module_area self.old.queue self.old.live.handles.items }
        ensures { Runs (S.memory self.new.store) self.new.module_area self.new.queue self.new.live.handles.items }
    {
        if !self.live.is_live(task) {
            return None;
        }
        Some(
            self.queue
                .put_down(&mut self.store, self.module_area, Handle(task)),
        )
    }

    /// What a live task holds.
    fn held(&self, task: u32) -> Option<Option<Message>>
        requires { Runs (S.memory self.now.store) self.now.module_area self.now.queue self.now.live.handles.items }
    {
        if !self.live.is_live(task) {
            return None;
        }
        Some(self.queue.held(&self.store, self.module_area, Handle(task)))
    }

    /// Polls a live task, and tells what came, and whether it is what was to be seen before.
    fn poll(&mut self, alloc: Global, task: u32) -> Option<String>
        requires { Runs (S.memory self.old.store) self.old.module_area self.old.queue self.old.live.handles.items }
        ensures { Runs (S.memory self.new.store) self.new.module_area self.new.queue self.new.live.handles.items }
    {
        if !self.live.is_live(task) {
            return None;
        }
        let peeked = self.peek(task);
        let found = self
            .queue
            .poll(&mut self.store, self.module_area, Handle(task));
        match found {
            None => {
                let same = peeked.is_none();
                format!(in alloc; "nothing, seen before: {same}").ok()
            }
            Some(event) => {
                let (code, message) = (event.code, event.message);
                let (from, my_ref, your_ref) = (
                    message.from.0,
                    message.my_ref.0,
                    message.your_ref.0,
                );
                let same = peeked == Some((code, Some(message)));
                format!(in alloc;
                    "{code:?} from {from}, ref {my_ref}, answers {your_ref}, seen before: {same}"
                ).ok()
            }
        }
    }

    /// What the next poll of a live task would hand out, read off the block that is lent for it.
    fn peek(&self, task: u32) -> Option<(EventCode, Option<Message>)>
        requires runs { Runs (S.memory self.now.store) self.now.module_area self.now.queue self.now.live.handles.items }
        requires live { HasEntry task self.now.queue }
    {
        let mut block = [0xff; LONGEST_MESSAGE];
        let code = self
            .queue
            .peek(&self.store, self.module_area, Handle(task), &mut block)?;
        Some((code, decode_any(&block).ok()))
    }

    /// Ends a live task.
    fn end(&mut self, task: u32) -> Option<()>
        requires { Runs (S.memory self.old.store) self.old.module_area self.old.queue self.old.live.handles.items }
        ensures { Runs (S.memory self.new.store) self.new.module_area self.new.queue self.new.live.handles.items }
    {
        if !self.live.is_live(task) {
            return None;
        }
        self.queue
            .bounce_for_death(&mut self.store, self.module_area, Handle(task));
        self.live.leave(task);
        Some(())
    }

    /// What a question answers.
    fn ask(&self, alloc: Global, row: &Row<'_>) -> Option<String>
        requires { Runs (S.memory self.now.store) self.now.module_area self.now.queue self.now.live.handles.items }
    {
        match row.word(0)? {
            "word" => shown(alloc, self.word_at(row.size(1)?)?),
            "is_message" => {
                let block = row.size(1)?;
                let found = self.queue.is_message(&self.store, self.module_area, block);
                shown(alloc, found)
            }
            "held" => match self.held(row.number(1)?)? {
                None => shown(alloc, "nothing"),
                Some(message) => told(alloc, &message),
            },
            "live" => self.live_refs(alloc, row.number(1)?),
            "list" => as_text(alloc, &self.listed()),
            _ => None,
        }
    }

    /// The word of the module area at an offset.
    fn word_at(&self, at: usize) -> Option<u32>
        requires { Runs (S.memory self.now.store) self.now.module_area self.now.queue self.now.live.handles.items }
    {
        if at >= 4092 || self.store.len(self.module_area.area) < 4096 {
            return None;
        }
        Some(self.store.word(self.module_area.area, at))
    }

    /// The refs below a limit that are those of live messages.
    fn live_refs(&self, alloc: Global, limit: u32) -> Option<String>
        requires { Runs (S.memory self.now.store) self.now.module_area self.now.queue self.now.live.handles.items }
    {
        let mut refs = String::new(alloc);
        for my_ref in 1..limit {
            if self
                .queue
                .is_live(&self.store, self.module_area, Ref(my_ref))
            {
                let word = format!(in alloc; " {my_ref}").ok()?;
                refs.push_str(&word).ok()?;
            }
        }
        Some(refs)
    }

    /// The list of all messages.
    fn listed(&self) -> ArrayVec<MessageItem, MOST_MESSAGES>
        requires { Runs (S.memory self.now.store) self.now.module_area self.now.queue self.now.live.handles.items }
    {
        let mut items = ArrayVec::new();
        self.queue.list(&self.store, self.module_area, &mut items);
        items
    }
}

/// Of each message in turn the code, who sent it, whom it is for, its ref, and whether it waits or is held.
fn as_text(alloc: Global, items: &[MessageItem]) -> Option<String> {
    let mut seen = String::new(alloc);
    for item in items {
        let (code, from, to, my_ref) = (item.code, item.from.0, item.to.0, item.my_ref.0);
        let state = if item.held { "held" } else { "waits" };
        let word = format!(in alloc; " {code:?} {from}>{to} ref {my_ref} {state};").ok()?;
        seen.push_str(&word).ok()?;
    }
    Some(seen)
}
