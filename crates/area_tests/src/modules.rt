//! Rows about the module area, which grows and shrinks by pages.

ghost use Rattle.std.specs.Prelude.{IfSome};
ghost use Rattle.rh_module.specs.ModuleArea.{IsModule};

use crate::answer::{shown, tell};
use crate::row::Row;
use rh_module::Module;
use rh_store::{Pages, Store};
use std::alloc::Global;
use std::io;

/// Makes the calls of the rows on a module area of one page.
pub(crate) fn rows<R: Print + AllocGlobal, S: Store + Drop>(
    rt: &R,
    store: S,
    rows: &str,
) -> io::Result<()> {
    let mut store = store;
    let Some(module_area) = started(&mut store) else {
        return tell(rt, "start", None);
    };
    for line in rows.lines() {
        let answer = call(rt.alloc(), &mut store, module_area, &Row::new(line));
        tell(rt, line, answer)?;
    }
    Ok(())
}

/// The module area in a fresh area of one page.
#[tactic(auto, using(rh_defs::proofs::BytesLaws::word_laws, rh_defs::proofs::MemoryLaws::memory_laws, rh_defs::proofs::MemoryLaws::pool_laws))]
fn started<S: Store>(store: &mut S) -> Option<Module>
    ensures { IfSome result (IsModule (S.memory store.new)) }
{
    let Ok(area) = store.open() else {
        return None;
    };
    let Ok(()) = store.grow(area, 1) else {
        return None;
    };
    Some(Module::start(store, area))
}

/// What the call of a row answers.
fn call<S: Pages>(
    alloc: Global,
    store: &mut S,
    module_area: Module,
    row: &Row<'_>,
) -> Option<String>
    requires { IsModule (S.memory store.old) module_area }
    ensures { IsModule (S.memory store.new) module_area }
{
    match row.word(0)? {
        "claim" => shown(alloc, module_area.claim(store, row.number(1)?)),
        "free" => shown(alloc, module_area.free(store, row.size(1)?)),
        "resize" => {
            let (address, delta) = (row.size(1)?, row.delta(2)?);
            shown(alloc, module_area.resize(store, address, delta))
        }
        "change" => shown(alloc, module_area.change(store, row.delta(1)?)),
        word => ask(alloc, store, module_area, word, row),
    }
}

/// What a question answers.
fn ask<S: Pages>(
    alloc: Global,
    store: &S,
    module_area: Module,
    word: &str,
    row: &Row<'_>,
) -> Option<String>
    requires { IsModule (S.memory store.now) module_area }
{
    match word {
        "need_pages" => shown(alloc, module_area.need_pages(store, row.number(1)?)),
        "block_size" => shown(alloc, module_area.block_size(store, row.size(1)?)),
        "segment" => shown(alloc, module_area.segment(store, row.size(1)?)),
        "segments" => shown(alloc, module_area.segments_from(store, row.size(1)?)),
        "holds" => shown(alloc, module_area.holds(store, row.size(1)?, row.size(2)?)),
        "end" => shown(alloc, module_area.end(store)),
        "describe" => shown(alloc, module_area.describe(store)),
        "length" => shown(alloc, store.len(module_area.area)),
        "free_pages" => shown(alloc, store.free_pages()),
        _ => None,
    }
}
