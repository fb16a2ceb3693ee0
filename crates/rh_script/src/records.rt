//! The records of transfers as lines of text.

ghost use Rattle.std.specs.Prelude.{◌≡◌, ◌≤◌, ◌++◌, ◌∷◌, [], codes, length, map};
ghost use Rattle.std.specs.Fmt.{decimal};
ghost use Rattle.rh_defs.specs.Questions.{Nothing, in_item as in_item_of, out_item as out_item_of, status};
ghost use Rattle.rh_defs.specs.Text.{answer_text, first_line, record_line, record_lines, state_name as state_name_of};

use rh_defs::{Handle, Incoming, Name, Numbers, Outgoing, RecordItem, Reply, State};
use rh_lines::{Pen, Row, put_first_line};
use rh_store::Store;
use rh_tasks::{NamedFiles, World};

/// Writes the task's handle, and a line for each record of its transfers, those that go out before those that come in.
pub fn print_status<S: Store, F: NamedFiles, P: Pen>(world: &World<S, F>, name: &Name, pen: &mut P)
    ensures { P.offered pen.new ≡ P.offered pen.old ++ answer_text (status world.now.desk name.now) }
{
    match world.status(name) {
        Ok(records) => print_records(records.0, records.1, records.2, pen),
        Err(refusal) => put_first_line(&Reply::Refused(refusal), pen),
    }
}

fn print_records<P: Pen>(handle: Handle, outgoing: &[Outgoing], incoming: &[Incoming], pen: &mut P)
    ensures { P.offered pen.new ≡ P.offered pen.old
        ++ (first_line (Reply.Answered (Numbers.StatusOf handle)) Nothing
        ++ (record_lines (codes "out") (map out_item_of outgoing.now)
        ++ record_lines (codes "in") (map in_item_of incoming.now))) }
{
    put_first_line(&Reply::Answered(Numbers::StatusOf(handle)), pen);
    print_outgoing(outgoing, pen);
    print_incoming(incoming, pen);
}

fn print_outgoing<P: Pen>(records: &[Outgoing], pen: &mut P)
    ensures { P.offered pen.new ≡ P.offered pen.old ++ record_lines (codes "out") (map out_item_of records.now) }
{
    if records.is_empty() {
        pen.put(b"  out idle\n");
        return;
    }
    for each in records {
        print_record(b"out", &out_item(each), pen);
    }
}

fn print_incoming<P: Pen>(records: &[Incoming], pen: &mut P)
    ensures { P.offered pen.new ≡ P.offered pen.old ++ record_lines (codes "in") (map in_item_of records.now) }
{
    if records.is_empty() {
        pen.put(b"  in idle\n");
        return;
    }
    for each in records {
        print_record(b"in", &in_item(each), pen);
    }
}

fn out_item(each: &Outgoing) -> RecordItem
    ensures { result ≡ out_item_of each.now }
{
    let (state, id, count) = match each {
        Outgoing::Open(sending) => (State::Open, sending.id, sending.count),
        Outgoing::Done { id, count } => (State::Done, *id, *count),
        Outgoing::Failed { id, count } => (State::Failed, *id, *count),
    };
    RecordItem { state, id, count }
}

fn in_item(each: &Incoming) -> RecordItem
    ensures { result ≡ in_item_of each.now }
{
    let (state, id, count) = match each {
        Incoming::Fetching(taking) => (State::Fetching, taking.id, taking.count),
        Incoming::Draining(taking) => (State::Draining, taking.id, taking.count),
        Incoming::Asking(asked) => (State::Asking, asked.id, 0),
        Incoming::Done {
            id,
            anchor: _,
            count,
        } => (State::Done, *id, *count),
        Incoming::Failed {
            id,
            anchor: _,
            count,
        } => (State::Failed, *id, *count),
    };
    RecordItem { state, id, count }
}

fn print_record<P: Pen>(way: &[u8], item: &RecordItem, pen: &mut P)
    requires { length way.now ≤ 3 }
    ensures { P.offered pen.new ≡ P.offered pen.old ++ record_line way.now item.now }
{
    let mut row = Row::new();
    row.text(b"  ");
    row.text(way);
    row.byte(b' ');
    row.text(state_name(item.state));
    row.byte(b' ');
    row.decimal(item.id.0);
    row.byte(b' ');
    row.decimal(item.count);
    row.byte(b'\n');
    pen.put(row.as_slice());
}

fn state_name(state: State) -> &'static [u8]
    ensures value { result.now ≡ state_name_of state }
    ensures short { length result.now ≤ 8 }
{
    match state {
        State::Open => b"open",
        State::Fetching => b"fetching",
        State::Draining => b"draining",
        State::Asking => b"asking",
        State::Done => b"done",
        State::Failed => b"failed",
    }
}
