//! Rows over eight numbers, with the larger of each two over them.

ghost use Rattle.std.specs.Prelude.{ℕ};
ghost use Rattle.rh_peaks.specs.Peaks.{IsTree};

use crate::answer::{shown, tell};
use crate::row::Row;
use rh_peaks::{first, last, put};
use std::alloc::Global;
use std::io;

/// The words of a row of eight numbers.
const WORDS: usize = 16;

/// Makes the calls of the rows over eight numbers, each of which is 0 at first.
pub(crate) fn rows<R: Print + AllocGlobal>(rt: &R, rows: &str) -> io::Result<()> {
    let mut nodes = [0u64; WORDS];
    for line in rows.lines() {
        let answer = call(rt.alloc(), &mut nodes, &Row::new(line));
        tell(rt, line, answer)?;
    }
    Ok(())
}

/// What the call of a row answers, of which the first word says what is done, and the next ones with which numbers.
fn call(alloc: Global, nodes: &mut [u64], row: &Row<'_>) -> Option<String>
    requires { IsTree nodes.old }
    ensures { IsTree nodes.new }
{
    let n = row.size(1)?;
    if row.word(0)? == "first" {
        return shown(alloc, first(nodes, n as u64));
    }
    if nodes.len() / 2 <= n {
        return None;
    }
    match row.word(0)? {
        "put" => shown(alloc, put(nodes, n, row.size(2)? as u64)),
        "last" => shown(alloc, last(nodes, n)),
        _ => None,
    }
}
