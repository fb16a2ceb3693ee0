//! Calls of the records of transfers as rows of data: each line of standard input is a call of a sender or of a
//! receiver, which is made, and printed with its answer. A line that begins with `#` begins anew, with no record.
#![tactic(auto)]

mod answer;
mod letters;
mod receiving;
mod row;
mod sending;

use receiving::Receiving;
use row::Row;
use sending::Sending;
use std::alloc::Global;
use std::io;

fn main(rt: HostRuntime) -> io::Result<()> {
    let mut sending = Sending::new();
    let mut receiving = Receiving::new();
    for line in rt.lines(rt.alloc()) {
        let line = line?;
        if line.starts_with('#') {
            sending = Sending::new();
            receiving = Receiving::new();
            println!(rt; "{line}")?;
        } else {
            let row = Row::new(&line);
            let answer = answer_of(rt.alloc(), &mut sending, &mut receiving, &row);
            let text = answer.as_deref().unwrap_or("no such call");
            println!(rt; "{line} = {text}")?;
        }
    }
    Ok(())
}

/// What the call of a row answers, as text; none where the row names none.
fn answer_of(
    alloc: Global,
    sending: &mut Sending,
    receiving: &mut Receiving,
    row: &Row<'_>,
) -> Option<String> {
    match row.word(0)? {
        "sender" => sending.call(alloc, row),
        "receiver" => receiving.call(alloc, row),
        "letter" => letters::letter(alloc, sending, receiving, row),
        _ => None,
    }
}
