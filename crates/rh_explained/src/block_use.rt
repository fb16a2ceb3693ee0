//! How a transfer uses a block.

ghost use Rattle.std.specs.Prelude.{◌≡◌, find};
ghost use Rattle.std.specs.Option.{option_map};
ghost use Rattle.rh_defs.specs.Records.{in_id, is_buffer_of, is_document, is_source, out_id};
ghost use Rattle.rh_explained.specs.Explanations.{user_does, user_id};
ghost use Rattle.rh_explained.specs.Subjects.{use_of_address as address_used, use_of_anchor as anchor_used};

use rh_defs::{Anchor, Incoming, Outgoing, Ref};

/// How a transfer, told by its id, uses a block.
#[derive(Clone, Copy)]
pub enum BlockUse {
    /// The block is its source.
    Sends(Ref),
    /// It is its document, which grows.
    Receives(Ref),
    /// It is its buffer.
    Buffers(Ref),
}

impl BlockUse {
    /// The id of the transfer.
    pub fn id(&self) -> Ref
        ensures { result ≡ user_id self.now }
    {
        match self {
            BlockUse::Sends(id) | BlockUse::Receives(id) | BlockUse::Buffers(id) => *id,
        }
    }

    /// What the transfer does with the block.
    pub fn deed(&self) -> &'static [u8]
        ensures { result.now ≡ user_does self.now }
    {
        match self {
            BlockUse::Sends(_) => b" sends it",
            BlockUse::Receives(_) => b" receives into it",
            BlockUse::Buffers(_) => b" has it as its buffer",
        }
    }
}

/// The transfer of these records that has the anchor's block as its source or its document.
pub fn use_of_anchor(anchor: Anchor, sending: &[Outgoing], taking: &[Incoming]) -> Option<BlockUse>
    ensures { result ≡ anchor_used anchor sending.now taking.now }
{
    match (source_of(anchor, sending), document_of(anchor, taking)) {
        (Some(id), _) => Some(BlockUse::Sends(id)),
        (None, Some(id)) => Some(BlockUse::Receives(id)),
        (None, None) => None,
    }
}

/// The transfer of these records that has the block of the C heap at the address as its buffer.
pub fn use_of_address(address: u32, taking: &[Incoming]) -> Option<BlockUse>
    ensures { result ≡ address_used address taking.now }
{
    match buffer_of(address, taking) {
        Some(id) => Some(BlockUse::Buffers(id)),
        None => None,
    }
}

fn source_of(anchor: Anchor, records: &[Outgoing]) -> Option<Ref>
    ensures { result ≡ option_map out_id (find (is_source anchor) records.now) }
{
    for record in records {
        if let Outgoing::Open(open) = record {
            if open.anchor == anchor {
                return Some(open.id);
            }
        }
    }
    None
}

fn document_of(anchor: Anchor, records: &[Incoming]) -> Option<Ref>
    ensures { result ≡ option_map in_id (find (is_document anchor) records.now) }
{
    for record in records {
        if is_document(anchor, record) {
            return Some(id_of(record));
        }
    }
    None
}

fn buffer_of(address: u32, records: &[Incoming]) -> Option<Ref>
    ensures { result ≡ option_map in_id (find (is_buffer_of address) records.now) }
{
    for record in records {
        if is_buffer_of(address, record) {
            return Some(id_of(record));
        }
    }
    None
}

fn is_document(anchor: Anchor, incoming: &Incoming) -> bool
    ensures { result ≡ is_document anchor incoming.now }
{
    match incoming {
        Incoming::Fetching(taking) => taking.anchor == anchor,
        Incoming::Asking(asked) => asked.anchor == anchor,
        _ => false,
    }
}

fn is_buffer_of(address: u32, incoming: &Incoming) -> bool
    ensures { result ≡ is_buffer_of address incoming.now }
{
    match incoming {
        Incoming::Fetching(taking) | Incoming::Draining(taking) => taking.buffer == address,
        _ => false,
    }
}

fn id_of(incoming: &Incoming) -> Ref
    ensures { result ≡ in_id incoming.now }
{
    match incoming {
        Incoming::Fetching(taking) | Incoming::Draining(taking) => taking.id,
        Incoming::Asking(asked) => asked.id,
        Incoming::Done { id, .. } | Incoming::Failed { id, .. } => *id,
    }
}
