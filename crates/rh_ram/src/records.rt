//! Lists of records, whichever way their transfers go: one more, one written anew.

ghost use Rattle.std.specs.Prelude.{◌≡◌, ℕ, Bool, false, not, ◌<◌, Option, Ok, length, filter};
ghost use Rattle.std.specs.List.{position};
ghost use Rattle.arrayvec.specs.ArrayVec.{array_vec_len};
ghost use Rattle.rh_defs.specs.Records.{out_id, in_id, is_open, is_going, is_full as is_full_of, with_id};
ghost use Rattle.rh_defs.specs.Records.{is_meant as is_meant_by};
ghost use Rattle.rh_defs.specs.declared.refusal.Refusal.TheVariants as refusal;
ghost use Rattle.rh_ram.specs.Inner.Rooms.{roomy};
ghost use Rattle.rh_ram.specs.Told.{only_if};

use arrayvec::ArrayVec;
use rh_defs::sizes::MOST_RECORDS;
use rh_defs::{Incoming, Outgoing, Ref, Refusal};

/// A record of a transfer, whichever way it goes.
pub(crate) trait Record: Copy + Default {
    ghost id_of: { Self → ℕ };

    ghost lasts_of: { Self → Bool };

    /// The ref of its DataSave.
    fn id(&self) -> Ref
        ensures { result ≡ id_of self.now };

    /// Whether its transfer hasn't ended.
    fn lasts(&self) -> bool
        ensures { result ≡ lasts_of self.now };
}

impl Record for Outgoing {
    ghost id_of = { out_id };

    ghost lasts_of = { is_open };

    fn id(&self) -> Ref {
        match self {
            Outgoing::Open(x) => x.id,
            Outgoing::Done { id, .. } => *id,
            Outgoing::Failed { id, .. } => *id,
        }
    }

    fn lasts(&self) -> bool {
        matches!(self, Outgoing::Open(_))
    }
}

impl Record for Incoming {
    ghost id_of = { in_id };

    ghost lasts_of = { is_going };

    fn id(&self) -> Ref {
        match self {
            Incoming::Fetching(f) => f.id,
            Incoming::Draining(f) => f.id,
            Incoming::Asking(q) => q.id,
            Incoming::Done { id, .. } => *id,
            Incoming::Failed { id, .. } => *id,
        }
    }

    fn lasts(&self) -> bool {
        match self {
            Incoming::Fetching(_) | Incoming::Draining(_) | Incoming::Asking(_) => true,
            Incoming::Done { .. } | Incoming::Failed { .. } => false,
        }
    }
}

/// Whether as many transfers as may be haven't ended.
pub(crate) fn is_full<R: Record>(records: &[R]) -> bool
    ensures { result ≡ is_full_of R.lasts_of records.now }
{
    count_lasting(records) >= MOST_RECORDS
}

fn count_lasting<R: Record>(records: &[R]) -> usize
    ensures { result ≡ length (filter R.lasts_of records.now) }
{
    records.iter().filter(|entry| entry.lasts()).count()
}

/// Makes room for one more record: on a full list the first one that has ended goes.
pub(crate) fn make_room<R: Record>(records: &mut ArrayVec<R, MOST_RECORDS>)
    requires { is_full_of R.lasts_of records.old.items ≡ false }
    ensures room { array_vec_len records.new < MOST_RECORDS }
    ensures rest { records.new.items ≡ roomy R.lasts_of records.old.items }
{
    if records.is_full() {
        if let Some(i) = first_ended(records) {
            records.remove(i);
        }
    }
}

fn first_ended<R: Record>(records: &[R]) -> Option<usize>
    ensures { result ≡ position (λ r. not (R.lasts_of r)) records.now }
{
    records.iter().position(|entry| !entry.lasts())
}

/// Writes the record of the id anew.
pub(crate) fn rewrite<R: Record>(records: &mut [R], id: Ref, new: R)
    ensures { records.new ≡ with_id R.id_of id new records.old }
{
    for entry in records.iter_mut() {
        if entry.id() == id {
            *entry = new;
        }
    }
}

/// Whether a cancel means the transfer with the id: one without an id means the first.
pub(crate) fn is_meant(wanted: Option<Ref>, id: Ref) -> bool
    ensures { result ≡ is_meant_by wanted id }
{
    match wanted {
        Some(wanted) => id == wanted,
        None => true,
    }
}

/// Goes on where a transfer is as it has to be. NotOpen where it isn't.
pub(crate) fn open_if(holds: bool) -> Result<(), Refusal>
    ensures { result ≡ only_if holds refusal.NotOpen (Ok tt) }
{
    if holds {
        return Ok(());
    }
    Err(Refusal::NotOpen)
}
