//! Memory that is short. What takes memory is tried with next to none, and then each time with 64 bytes more, until it
//! has what it needs, so each of its requests is refused in turn.

ghost use Rattle.std.specs.Prelude.{◌≡◌, IfOk};
ghost use Rattle.rh_defs.specs.Memory.{fresh};
ghost use Rattle.rh_pages.specs.Paged as pages;
ghost use Rattle.rh_store.specs.Plain as plain;

use crate::same::{is_true, same};
use crate::scarce::Scarce;
use arrayvec::ArrayVec;
use callers::start_world;
use rh_defs::{Files, Handle, Ref};
use rh_desk::{RunFault, Status, run};
use rh_lines::Flagged;
use rh_pages::PagedStore;
use rh_received::run_commands;
use rh_region::Region;
use rh_store::PlainStore;
use rh_tasks::World;
use std::alloc::{AllocError, Global};
use std::process::Abort;
use std::test::Fail;

/// The bytes that each trial has more than the one before.
pub(crate) const STEP: usize = 64;

/// The trials at most, for all of which there is room in the piece that is left.
pub(crate) const TRIALS: usize = 65_536;

/// So many calls further down all trials are made first, with all memory. That takes 100 KB more of the stack than a
/// later trial, and the stack can't grow once memory beside it was taken.
pub(crate) const CALLS: u32 = 2_000;

/// A call that takes memory.
#[derive(Clone, Copy)]
enum Maker {
    Region,
    PlainStore,
    PagedStore,
    PlainWorld,
    PagedWorld,
    RunWorld,
    Run,
}

const MAKERS: [Maker; 7] = [
    Maker::Region,
    Maker::PlainStore,
    Maker::PagedStore,
    Maker::PlainWorld,
    Maker::PagedWorld,
    Maker::RunWorld,
    Maker::Run,
];

fn plain_store(alloc: Global) -> Result<PlainStore, AllocError>
    ensures fresh { IfOk result (λ s. plain.memory_of s ≡ fresh (plain.memory_of s).pages) }
    ensures pages { IfOk result (λ s. (plain.memory_of s).pages ≡ 8) }
{
    let store = PlainStore::new(alloc, 8)?;
    Ok(store)
}

fn paged_store(alloc: Global) -> Result<PagedStore, AllocError>
    ensures fresh { IfOk result (λ s. pages.paged_memory s ≡ fresh (pages.paged_memory s).pages) }
    ensures pages { IfOk result (λ s. (pages.paged_memory s).pages ≡ 8) }
{
    let store = PagedStore::new(alloc, 8)?;
    Ok(store)
}

/// A world takes no memory where its store had some.
fn makes_plain_world(alloc: Global) -> bool {
    match plain_store(alloc) {
        Ok(store) => World::new(store, Files::new(alloc)).free_pages() == 7,
        Err(AllocError) => false,
    }
}

fn makes_paged_world(alloc: Global) -> bool {
    match paged_store(alloc) {
        Ok(store) => {
            let world = World::with_next(store, Files::new(alloc), Handle(3), Ref(9));
            world.next_ref() == 9
        }
        Err(AllocError) => false,
    }
}

/// A world after no commands.
fn makes_run_world(alloc: Global) -> bool {
    match plain_store(alloc) {
        Ok(store) => run_commands(store, Files::new(alloc), &[]).next_ref() == 1,
        Err(AllocError) => false,
    }
}

/// A transfer, whose commands have no more memory than the run had at its start.
const SCRIPT: &[u8] =
    b"task a 100\ntask b 100\nalloc a 0 5\nput a 0 0 68656c6c6f\nsave a 0 b hello\npoll b\npoll a\npoll b\nshow b 0\n";

const REPLIES: &[u8] =
    b"ok 1\nok 2\nok &9008\nok\nok 1\nok 18 DataSave 1 0 fetch 2\nok 18 RAMFetch 2 1 sent 5 3\nok 17 RAMTransmit 3 2 took 5 done\nok 5 68656c6c6f\n";

/// Whether a run had memory. If so it has written all, else it has read and written nothing.
fn runs<R: Abort>(rt: &R, alloc: Global) -> bool {
    let mut reader = Flagged::new(SCRIPT);
    let mut writer = Flagged::new(ArrayVec::<u8, 256>::new());
    let outcome = run(alloc, Files::new(alloc), &mut reader, &mut writer, 8);
    let (left, written) = (reader.into_inner(), writer.into_inner());
    let had_memory = outcome != Err(RunFault::NoMemory);
    if had_memory {
        same(rt, outcome, Ok(Status::Clean));
        same(rt, written.as_slice(), REPLIES);
    } else {
        same(rt, left, SCRIPT);
        is_true(rt, written.is_empty());
    }
    had_memory
}

/// Whether it had the memory that it asked for.
#[inline(never)]
fn makes<R: Abort>(rt: &R, alloc: Global, maker: Maker) -> bool {
    match maker {
        Maker::Region => Region::new(alloc, 8).is_ok(),
        Maker::PlainStore => plain_store(alloc).is_ok(),
        Maker::PagedStore => paged_store(alloc).is_ok(),
        Maker::PlainWorld => makes_plain_world(alloc),
        Maker::PagedWorld => makes_paged_world(alloc),
        Maker::RunWorld => makes_run_world(alloc),
        Maker::Run => runs(rt, alloc),
    }
}

/// Whether it had the memory that it asked for, so many calls further down.
fn makes_below<R: Abort>(rt: &R, alloc: Global, maker: Maker, calls: u32) -> bool {
    if calls == 0 {
        return makes(rt, alloc, maker);
    }
    let made = makes_below(rt, alloc, maker, calls - 1);
    same(rt, (calls, made), (calls, true));
    made
}

#[test]
fn constructors_and_runs_are_refused_memory_in_turn(rt: HostRuntime) -> Result<(), Fail> {
    let alloc = rt.alloc();
    for (number, maker) in MAKERS.iter().enumerate() {
        let made = makes_below(&rt, alloc, *maker, CALLS);
        same(&rt, (number, made), (number, true));
    }
    for (number, maker) in MAKERS.iter().enumerate() {
        let scarce = Scarce::new(alloc)?;
        let is_short = scarce.is_short(alloc);
        let mut refused = 0;
        for trial in 0..TRIALS {
            let _taken = scarce.leave(alloc, STEP * trial);
            if makes(&rt, alloc, *maker) {
                break;
            }
            refused = trial + 1;
        }
        same(&rt, (number, 0 < refused || !is_short), (number, true));
        drop(scarce);
        let made = makes(&rt, alloc, *maker);
        same(&rt, (number, made), (number, true));
    }
    Ok(())
}

/// It asks for some 18 MB, more than the piece that is left.
#[test]
fn a_first_world_is_refused_memory(rt: HostRuntime) -> Result<(), Fail> {
    let alloc = rt.alloc();
    let scarce = Scarce::new(alloc)?;
    if scarce.is_short(alloc) {
        is_true(&rt, start_world(alloc).is_err());
    }
    Ok(())
}
