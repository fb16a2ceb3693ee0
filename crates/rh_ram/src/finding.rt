//! The record that an event is for: the first that passes a test.

ghost use Rattle.std.specs.Prelude.{◌≡◌, Bool};
ghost use Rattle.std.specs.Fn.{FnReturnsAt};
ghost use Rattle.rh_defs.specs.declared.transfer.Sending.{Sending};
ghost use Rattle.rh_defs.specs.declared.transfer.Taking.{Taking};
ghost use Rattle.rh_defs.specs.declared.transfer.Asked.{Asked};
ghost use Rattle.rh_defs.specs.Records.{open_of, active_of, asking_of};

use rh_defs::{Asked, Incoming, Outgoing, Sending, Taking};

/// The first open transfer that passes.
pub(crate) fn first_open<F: Fn(&Sending) -> bool>(records: &[Outgoing], test: F) -> Option<Sending>
    requires { F.IsAlwaysCallable test }
    ensures { (wanted : Sending → Bool) → ((x : Sending) (b : Bool) → FnReturnsAt F.Fn test x b → b ≡ wanted x)
        → result ≡ open_of wanted records.now }
{
    for entry in records {
        if let Outgoing::Open(x) = entry {
            if test(x) {
                return Some(*x);
            }
        }
    }
    None
}

/// The first record with a buffer that passes.
pub(crate) fn first_active<F: Fn(&Taking) -> bool>(
    records: &[Incoming],
    test: F,
) -> Option<Incoming>
    requires { F.IsAlwaysCallable test }
    ensures { (wanted : Taking → Bool) → ((f : Taking) (b : Bool) → FnReturnsAt F.Fn test f b → b ≡ wanted f)
        → result ≡ active_of wanted records.now }
{
    for entry in records {
        if let Incoming::Fetching(f) | Incoming::Draining(f) = entry {
            if test(f) {
                return Some(*entry);
            }
        }
    }
    None
}

/// The first transfer that waits for a file and passes.
pub(crate) fn first_asking<F: Fn(&Asked) -> bool>(records: &[Incoming], test: F) -> Option<Asked>
    requires { F.IsAlwaysCallable test }
    ensures { (wanted : Asked → Bool) → ((q : Asked) (b : Bool) → FnReturnsAt F.Fn test q b → b ≡ wanted q)
        → result ≡ asking_of wanted records.now }
{
    for entry in records {
        if let Incoming::Asking(q) = entry {
            if test(q) {
                return Some(*q);
            }
        }
    }
    None
}
