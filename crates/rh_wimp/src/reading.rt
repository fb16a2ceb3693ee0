//! Messages out of blocks.
ghost use Rattle.std.specs.Prelude.{◌≡◌, ℕ, length};
ghost use Rattle.rh_defs.specs.declared.sizes.TheConstants.{LONGEST_MESSAGE};
ghost use Rattle.rh_defs.specs.Memory.{Memory};
ghost use Rattle.rh_module.specs.ModuleArea.{IsModule};
ghost use Rattle.rh_wimp.specs.Chains.{LiesAt, message_as};
ghost use Rattle.rh_wimp.specs.QueueItems.{LinksAt};
ghost use Rattle.rh_defs.specs.Bytes.{with_part};
ghost use Rattle.rh_defs.specs.Messages.{Parcel, encoded};
ghost use Rattle.rh_defs.specs.RawTasks.{handed_parts};

use crate::any_body::data_of;
use crate::bytes::get_word;
use crate::decoding::decode_as;
use crate::layout::{CODE, DATA, MESSAGE, SENDER};
use rh_defs::sizes::LONGEST_MESSAGE;
use rh_defs::{Data, EventCode, Handle, Message};
use rh_module::Module;
use rh_store::Words;

/// The message that lies in a block, whatever it links to, by a buffer with room for it: as it is or as a task that the
/// desk plays reads it.
#[inline(always)]
fn read_into<S: Words>(
    store: &S,
    module_area: Module,
    block: usize,
    buffer: &mut [u8],
    played: bool,
) -> Message
    requires module { IsModule (S.memory store.now) module_area }
    requires room { length buffer.old ≡ LONGEST_MESSAGE }
    requires lies { (link : ℕ) × ((p : Parcel) × LinksAt (S.memory store.now) module_area block link p) }
    ensures { (link : ℕ) (p : Parcel) → LinksAt (S.memory store.now) module_area block link p → result
        ≡ message_as played p.message }
{
    let length = module_area.read_word(store, block, MESSAGE) as usize;
    let bytes = &mut buffer[..length];
    module_area.read_bytes(store, block, MESSAGE, bytes);
    decode_as(bytes, played).unwrap()
}

/// The message that lies in a block, whatever it links to.
pub fn read_linked<S: Words>(store: &S, module_area: Module, block: usize) -> Message
    requires module { IsModule (S.memory store.now) module_area }
    requires lies { (link : ℕ) × ((p : Parcel) × LinksAt (S.memory store.now) module_area block link p) }
    ensures { (link : ℕ) (p : Parcel) → LinksAt (S.memory store.now) module_area block link p → result ≡ p.message }
{
    let mut buffer = [0u8; LONGEST_MESSAGE];
    read_into(store, module_area, block, &mut buffer, false)
}

/// The message that lies in a block.
pub fn read_message<S: Words>(store: &S, module_area: Module, block: usize) -> Message
    requires module { IsModule (S.memory store.now) module_area }
    requires lies { (p : Parcel) × LiesAt (S.memory store.now) module_area block p }
    ensures { (p : Parcel) → LiesAt (S.memory store.now) module_area block p → result ≡ p.message }
{
    read_linked(store, module_area, block)
}

/// The message that lies in a block, as it is or as a task that the desk plays reads it.
#[inline(always)]
pub fn read_as<S: Words>(store: &S, module_area: Module, block: usize, played: bool) -> Message
    requires module { IsModule (S.memory store.now) module_area }
    requires lies { (p : Parcel) × LiesAt (S.memory store.now) module_area block p }
    ensures { (p : Parcel) → LiesAt (S.memory store.now) module_area block p → result
        ≡ message_as played p.message }
{
    let mut buffer = [0u8; LONGEST_MESSAGE];
    read_into(store, module_area, block, &mut buffer, played)
}

/// The event code of the message that lies in a block.
pub fn read_code<S: Words>(store: &S, module_area: Module, block: usize) -> EventCode
    requires module { IsModule (S.memory store.now) module_area }
    requires lies { (p : Parcel) × LiesAt (S.memory store.now) module_area block p }
    ensures { (p : Parcel) → LiesAt (S.memory store.now) module_area block p → result ≡ p.code }
{
    code_in(store, module_area, block)
}

/// The event code of the message that lies in a block, whatever it links to.
pub fn code_in<S: Words>(store: &S, module_area: Module, block: usize) -> EventCode
    requires module { IsModule (S.memory store.now) module_area }
    requires lies { (link : ℕ) × ((p : Parcel) × LinksAt (S.memory store.now) module_area block link p) }
    ensures { (link : ℕ) (p : Parcel) → LinksAt (S.memory store.now) module_area block link p → result ≡ p.code }
{
    EventCode::from_number(module_area.read_word(store, block, CODE)).unwrap()
}

/// Writes the message block of the message that lies in a block, whatever it links to, to the start of a buffer with
/// room for it.
pub fn copy_block<S: Words>(store: &S, module_area: Module, block: usize, to: &mut [u8])
    requires module { IsModule (S.memory store.now) module_area }
    requires room { length to.old ≡ LONGEST_MESSAGE }
    requires lies { (link : ℕ) × ((p : Parcel) × LinksAt (S.memory store.now) module_area block link p) }
    ensures { (link : ℕ) (p : Parcel) → LinksAt (S.memory store.now) module_area block link p → to.new
        ≡ with_part to.old 0 (encoded p.message) }
{
    let length = module_area.read_word(store, block, MESSAGE) as usize;
    let bytes = &mut to[..length];
    module_area.read_bytes(store, block, MESSAGE, bytes);
}

/// The sender of the message that lies in a block, whatever it links to, and its data.
pub fn parts_in<S: Words>(store: &S, module_area: Module, block: usize) -> (Handle, Data)
    requires module { IsModule (S.memory store.now) module_area }
    requires lies { (link : ℕ) × ((p : Parcel) × LinksAt (S.memory store.now) module_area block link p) }
    ensures { (link : ℕ) (p : Parcel) → LinksAt (S.memory store.now) module_area block link p → result
        ≡ handed_parts p }
{
    let mut buffer = [0u8; LONGEST_MESSAGE];
    copy_block(store, module_area, block, &mut buffer);
    let end = get_word(&buffer, 0) as usize;
    let from = get_word(&buffer, SENDER);
    (Handle(from), data_of(&buffer[DATA..end]))
}
