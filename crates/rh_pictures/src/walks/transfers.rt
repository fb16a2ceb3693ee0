//! Transfers, with the record of either side.

ghost use Rattle.std.specs.Prelude.{◌≡◌, ◌==◌, ◌||◌, ◌∷◌, ◌++◌, [], find, flat_map, length, map, not};
ghost use Rattle.std.specs.List.{list_any};
ghost use Rattle.std.specs.Option.{option_map};
ghost use Rattle.rh_defs.specs.Questions.{in_item as in_item_of, out_item as out_item_of};
ghost use Rattle.rh_defs.specs.Records.{in_id as in_id_of, out_id as out_id_of};
ghost use Rattle.rh_pictures.specs.DrawnSides.{ins_of, outs_of};
ghost use Rattle.rh_pictures.specs.Inner.TransferWays.{alone_among, comes_alone, goes_out, ins_named, outs_named};
ghost use Rattle.rh_figure.specs.Figure.{has_id as has_id_of, transfers_of};
ghost use Rattle.rh_map.specs.Sides.{side_of};

use crate::artist::Artist;
use crate::walks::usage::{in_id, out_id};
use rh_defs::{Incoming, Name, Outgoing, RecordItem, Ref, State};
use rh_lines::Pen;
use rh_map::Side;
use rh_scene::{Sight, TaskSight};

/// Shows the transfers that go out, each with the side that comes in, and those that only come in.
pub fn show_transfers<S: Sight, A: Artist, P: Pen>(sight: &S, artist: &A, pen: &mut P)
    ensures { P.offered pen.new ≡ P.offered pen.old
        ++ flat_map A.transfer_text (transfers_of (outs_of (S.desk sight.now)) (ins_of (S.desk sight.now))) }
{
    show_outs(sight, artist, pen);
    show_ins(sight, artist, pen);
}

/// Whether some task has a record of a transfer.
pub fn has_transfers<S: Sight>(sight: &S) -> bool
    ensures { result ≡ (not (length (outs_of (S.desk sight.now)) == 0) || not
        (length (ins_of (S.desk sight.now)) == 0)) }
{
    let mut i = 0;
    'tasks: while let Some(task) = sight.task(i) {
        if has_records(&task) {
            return true;
        }
        i += 1;
    }
    false
}

/// Whether a task has a record of a transfer.
fn has_records(task: &TaskSight<'_>) -> bool
    ensures { result ≡ (not (length task.now.sending.now == 0) || not (length task.now.taking.now == 0)) }
{
    !task.sending.is_empty() || !task.taking.is_empty()
}

/// Shows the transfers that go out, task by task.
fn show_outs<S: Sight, A: Artist, P: Pen>(sight: &S, artist: &A, pen: &mut P)
    ensures { P.offered pen.new ≡ P.offered pen.old
        ++ flat_map A.transfer_text (map (goes_out (ins_of (S.desk sight.now))) (outs_of (S.desk sight.now))) }
{
    let mut i = 0;
    'tasks: while let Some(task) = sight.task(i) {
        show_task_outs(sight, &task, artist, pen);
        i += 1;
    }
}

/// Shows the transfers that go out of a task.
fn show_task_outs<S: Sight, A: Artist, P: Pen>(
    sight: &S,
    task: &TaskSight<'_>,
    artist: &A,
    pen: &mut P,
)
    ensures { P.offered pen.new ≡ P.offered pen.old
        ++ flat_map A.transfer_text (map (goes_out (ins_of (S.desk sight.now)))
        (outs_named task.now.name.now task.now.sending.now)) }
{
    for record in task.sending {
        show_out(sight, task.name, record, artist, pen);
    }
}

/// Shows the transfer of a record of one that goes out.
fn show_out<S: Sight, A: Artist, P: Pen>(
    sight: &S,
    name: &Name,
    outgoing: &Outgoing,
    artist: &A,
    pen: &mut P,
)
    ensures { P.offered pen.new ≡ P.offered pen.old
        ++ A.transfer_text (goes_out (ins_of (S.desk sight.now)) (name.now, out_item_of outgoing.now)) }
{
    let id = out_id(outgoing);
    let side = Some(Side {
        name,
        record: out_item(outgoing),
    });
    let other = in_side(sight, id);
    artist.transfer(id, &side, &other, pen);
}

/// The first side with the id that comes in.
fn in_side<S: Sight>(sight: &S, id: Ref) -> Option<Side<'_>>
    ensures { option_map side_of result ≡ find (has_id_of id) (ins_of (S.desk sight.now)) }
{
    let mut i = 0;
    'tasks: while let Some(task) = sight.task(i) {
        if let Some(record) = in_record(task.taking, id) {
            return Some(Side {
                name: task.name,
                record,
            });
        }
        i += 1;
    }
    None
}

/// The first record with the id of a transfer that comes in.
fn in_record(taking: &[Incoming], id: Ref) -> Option<RecordItem>
    ensures { result ≡ option_map in_item_of (find (λ r. in_id_of r == id) taking.now) }
{
    for record in taking {
        if in_id(record) == id {
            return Some(in_item(record));
        }
    }
    None
}

/// Shows the transfers that only come in, task by task.
fn show_ins<S: Sight, A: Artist, P: Pen>(sight: &S, artist: &A, pen: &mut P)
    ensures { P.offered pen.new ≡ P.offered pen.old
        ++ flat_map A.transfer_text (map comes_alone
        (alone_among (outs_of (S.desk sight.now)) (ins_of (S.desk sight.now)))) }
{
    let mut i = 0;
    'tasks: while let Some(task) = sight.task(i) {
        show_task_ins(sight, &task, artist, pen);
        i += 1;
    }
}

/// Shows the transfers that only come in, of a task.
fn show_task_ins<S: Sight, A: Artist, P: Pen>(
    sight: &S,
    task: &TaskSight<'_>,
    artist: &A,
    pen: &mut P,
)
    ensures { P.offered pen.new ≡ P.offered pen.old
        ++ flat_map A.transfer_text (map comes_alone
        (alone_among (outs_of (S.desk sight.now)) (ins_named task.now.name.now task.now.taking.now))) }
{
    for record in task.taking {
        show_if_alone(sight, task.name, record, artist, pen);
    }
}

/// Shows the transfer of a record of one that comes in, if it only comes in.
fn show_if_alone<S: Sight, A: Artist, P: Pen>(
    sight: &S,
    name: &Name,
    incoming: &Incoming,
    artist: &A,
    pen: &mut P,
)
    ensures { P.offered pen.new ≡ P.offered pen.old
        ++ flat_map A.transfer_text (map comes_alone
        (alone_among (outs_of (S.desk sight.now)) ((name.now, in_item_of incoming.now) ∷ []))) }
{
    let id = in_id(incoming);
    if has_out(sight, id) {
        return;
    }
    let side = Some(Side {
        name,
        record: in_item(incoming),
    });
    artist.transfer(id, &None, &side, pen);
}

/// Whether a transfer with the id goes out.
fn has_out<S: Sight>(sight: &S, id: Ref) -> bool
    ensures { result ≡ list_any (has_id_of id) (outs_of (S.desk sight.now)) }
{
    let mut i = 0;
    'tasks: while let Some(task) = sight.task(i) {
        if has_id(task.sending, id) {
            return true;
        }
        i += 1;
    }
    false
}

/// Whether one of the records of transfers that go out has the id.
fn has_id(sending: &[Outgoing], id: Ref) -> bool
    ensures { result ≡ list_any (λ r. out_id_of r == id) sending.now }
{
    sending.iter().any(|record| out_id(record) == id)
}

/// A record of a transfer that goes out, as it is listed.
fn out_item(outgoing: &Outgoing) -> RecordItem
    ensures { result ≡ out_item_of outgoing.now }
{
    let (state, count) = match outgoing {
        Outgoing::Open(sending) => (State::Open, sending.count),
        Outgoing::Done { count, .. } => (State::Done, *count),
        Outgoing::Failed { count, .. } => (State::Failed, *count),
    };
    RecordItem {
        state,
        id: out_id(outgoing),
        count,
    }
}

/// A record of a transfer that comes in, as it is listed.
fn in_item(incoming: &Incoming) -> RecordItem
    ensures { result ≡ in_item_of incoming.now }
{
    let (state, count) = match incoming {
        Incoming::Fetching(taking) => (State::Fetching, taking.count),
        Incoming::Draining(taking) => (State::Draining, taking.count),
        Incoming::Asking(_) => (State::Asking, 0),
        Incoming::Done { count, .. } => (State::Done, *count),
        Incoming::Failed { count, .. } => (State::Failed, *count),
    };
    RecordItem {
        state,
        id: in_id(incoming),
        count,
    }
}
