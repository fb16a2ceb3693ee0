//! The transfers that use blocks.

ghost use Rattle.std.specs.Prelude.{◌≡◌, find};
ghost use Rattle.std.specs.Option.{option_map};
ghost use Rattle.rh_defs.specs.Records.{in_id as in_id_of, is_buffer_of as is_buffer_at, is_document as is_document_of};
ghost use Rattle.rh_defs.specs.Records.{is_source, out_id as out_id_of};
ghost use Rattle.rh_figure.specs.Cards.{in_use_text, out_use_text};
ghost use Rattle.rh_map.specs.MapCards.{use_text};

use rh_defs::{Anchor, Incoming, Outgoing, Ref};
use rh_map::Usage;

/// The transfer that uses the flex block at an anchor.
pub fn use_of_block(sending: &[Outgoing], taking: &[Incoming], anchor: Anchor) -> Usage
    ensures { use_text result ≡ out_use_text (find (is_source anchor) sending.now) (in_use_text
        (find (is_document_of anchor) taking.now)) }
{
    if let Some(id) = source_of(sending, anchor) {
        return Usage::Out(id);
    }
    match document_of(taking, anchor) {
        Some(id) => Usage::In(id),
        None => Usage::Unused,
    }
}

/// The transfer whose buffer the block of a C heap at an address is.
pub fn use_of_buffer(taking: &[Incoming], address: u32) -> Usage
    ensures { use_text result ≡ in_use_text (find (is_buffer_at address) taking.now) }
{
    for record in taking {
        if is_buffer_of(record, address) {
            return Usage::In(in_id(record));
        }
    }
    Usage::Unused
}

/// The id of the open transfer that sends the block at an anchor.
fn source_of(sending: &[Outgoing], anchor: Anchor) -> Option<Ref>
    ensures { result ≡ option_map out_id_of (find (is_source anchor) sending.now) }
{
    for record in sending {
        if let Outgoing::Open(sending) = record {
            if sending.anchor == anchor {
                return Some(sending.id);
            }
        }
    }
    None
}

/// The id of the transfer that the block at an anchor receives.
fn document_of(taking: &[Incoming], anchor: Anchor) -> Option<Ref>
    ensures { result ≡ option_map in_id_of (find (is_document_of anchor) taking.now) }
{
    for record in taking {
        if is_document(record, anchor) {
            return Some(in_id(record));
        }
    }
    None
}

fn is_document(incoming: &Incoming, anchor: Anchor) -> bool
    ensures { result ≡ is_document_of anchor incoming.now }
{
    match incoming {
        Incoming::Fetching(taking) => taking.anchor == anchor,
        Incoming::Asking(asked) => asked.anchor == anchor,
        _ => false,
    }
}

fn is_buffer_of(incoming: &Incoming, address: u32) -> bool
    ensures { result ≡ is_buffer_at address incoming.now }
{
    match incoming {
        Incoming::Fetching(taking) | Incoming::Draining(taking) => taking.buffer == address,
        _ => false,
    }
}

/// The id of a record of a transfer that comes in.
pub fn in_id(incoming: &Incoming) -> Ref
    ensures { result ≡ in_id_of incoming.now }
{
    match incoming {
        Incoming::Fetching(taking) | Incoming::Draining(taking) => taking.id,
        Incoming::Asking(asked) => asked.id,
        Incoming::Done { id, .. } | Incoming::Failed { id, .. } => *id,
    }
}

/// The id of a record of a transfer that goes out.
pub fn out_id(outgoing: &Outgoing) -> Ref
    ensures { result ≡ out_id_of outgoing.now }
{
    match outgoing {
        Outgoing::Open(sending) => sending.id,
        Outgoing::Done { id, .. } | Outgoing::Failed { id, .. } => *id,
    }
}
