//! The calls on a receiver.
ghost use Rattle.std.specs.Prelude.{◌≡◌, [], List};
ghost use Rattle.rh_defs.specs.Chain.{Granted, outcome_of, result_or};
ghost use Rattle.rh_defs.specs.declared.transfer.Incoming.{Incoming};
ghost use Rattle.rh_ram.specs.Told.{tell_fetched as tell_fetched_of, tell_finished as tell_finished_of};
ghost use Rattle.rh_ram.specs.Told.{tell_failed as tell_failed_of};
ghost use Rattle.vf_ram.specs.ReceiverCalls.{ack_bounce_answer, asking_answer, buffer_answer, cancel_taking_answer};
ghost use Rattle.vf_ram.specs.ReceiverCalls.{document_answer, fetch_bounce_asks, fetched_answer, fetching_answer};
ghost use Rattle.vf_ram.specs.ReceiverCalls.{finished_answer, first_fetch_answer, load_asks, save_asks};
ghost use Rattle.vf_ram.specs.ReceiverCalls.{taking_failed_answer, taking_loaded_answer, transmit_asks};
ghost use Rattle.vf_ram.specs.ReceiverWords.{as_fetch, as_receiver, as_take_action};
ghost use Rattle.vf_ram.specs.WithStatus.{by_rules as by_rules_of, shown_or, status_of as status_of_answer};

use crate::receiver_words::{VfFetch, VfReceiver, VfTakeAction};
use crate::status::{OK, by_rules, read_anchor, wanted};
use rh_defs::{Append, Fetch, Handle, Ref, Refusal, TakeAction};
use rh_ram::{Receiver, first_fetch};

/// Makes the struct a receiver with no transfer.
#[unsafe(no_mangle)]
pub extern "C" fn vf_receiver_start(receiver: &mut VfReceiver) -> u32
    ensures status { result ≡ 0 }
    ensures receiver { receiver.new ≡ as_receiver [] }
{
    *receiver = VfReceiver::of(&Receiver::new());
    OK
}

/// Tells what a DataSave asks for, which is nothing of a deaf task. (Message_DataSave.)
#[unsafe(no_mangle)]
pub extern "C" fn vf_receiver_on_save(
    receiver: &VfReceiver,
    is_deaf: bool,
    from: u32,
    my_ref: u32,
    action: &mut VfTakeAction,
) -> u32
    ensures status { result ≡ status_of_answer (save_asks receiver.now is_deaf from my_ref) }
    ensures action { action.new ≡ shown_or as_take_action (save_asks receiver.now is_deaf from my_ref) action.old }
{
    match receiver.read() {
        Ok(known) => show(known.on_save(is_deaf, Handle(from), Ref(my_ref)), action),
        Err(status) => status,
    }
}

/// Tells the first RAMFetch of a claim, for a buffer of so many bytes. (Message_RAMFetch.)
#[unsafe(no_mangle)]
pub extern "C" fn vf_receiver_first_fetch(
    action: &VfTakeAction,
    buffer: u32,
    room: u32,
    fetch: &mut VfFetch,
) -> u32
    ensures status { result ≡ status_of_answer (first_fetch_answer action.now buffer room) }
    ensures fetch { fetch.new ≡ shown_or as_fetch (first_fetch_answer action.now buffer room) fetch.old }
{
    match fetch_for(action, buffer, room) {
        Ok(first) => {
            *fetch = VfFetch::of(&first);
            OK
        }
        Err(status) => status,
    }
}

fn fetch_for(action: &VfTakeAction, buffer: u32, room: u32) -> Result<Fetch, u32>
    ensures { result ≡ first_fetch_answer action.now buffer room }
{
    Ok(first_fetch(&action.claim()?, buffer, room))
}

/// The buffer and the document of a claim are there, and the first RAMFetch was sent with the ref.
#[unsafe(no_mangle)]
pub extern "C" fn vf_receiver_fetching(
    receiver: &mut VfReceiver,
    action: &VfTakeAction,
    anchor: u32,
    buffer: u32,
    fetch: u32,
) -> u32
    ensures status { result ≡ status_of_answer (fetching_answer receiver.old action.now anchor buffer fetch) }
    ensures receiver { receiver.new
        ≡ shown_or as_receiver (fetching_answer receiver.old action.now anchor buffer fetch) receiver.old }
{
    let answer = fetching(receiver, action, anchor, buffer, fetch);
    write(receiver, answer)
}

fn fetching(
    receiver: &VfReceiver,
    action: &VfTakeAction,
    anchor: u32,
    buffer: u32,
    fetch: u32,
) -> Result<Receiver, u32>
    ensures { result ≡ fetching_answer receiver.now action.now anchor buffer fetch }
{
    let mut known = receiver.read()?;
    let claim = action.claim()?;
    let anchor = read_anchor(anchor)?;
    let ended = known.fetching(&claim, anchor, buffer, Ref(fetch));
    known_after(known, ended)
}

/// Tells what a RAMTransmit of n bytes asks for, where buffers have so much room. (Message_RAMTransmit.)
#[unsafe(no_mangle)]
pub extern "C" fn vf_receiver_on_transmit(
    receiver: &VfReceiver,
    room: u32,
    from: u32,
    my_ref: u32,
    your_ref: u32,
    buffer: u32,
    n: u32,
    action: &mut VfTakeAction,
) -> u32
    ensures status { result ≡ status_of_answer (transmit_asks receiver.now room from my_ref your_ref buffer n) }
    ensures action { action.new
        ≡ shown_or as_take_action (transmit_asks receiver.now room from my_ref your_ref buffer n) action.old }
{
    match receiver.read() {
        Ok(known) => {
            let asked = known.on_transmit(
                room,
                Handle(from),
                Ref(my_ref),
                Ref(your_ref),
                buffer,
                n,
            );
            show(asked, action)
        }
        Err(status) => status,
    }
}

/// The bytes of an action were appended, and the next RAMFetch was sent with the ref. (Message_RAMFetch.)
#[unsafe(no_mangle)]
pub extern "C" fn vf_receiver_fetched(
    receiver: &mut VfReceiver,
    action: &VfTakeAction,
    fetch: u32,
) -> u32
    ensures status { result ≡ status_of_answer (fetched_answer receiver.old action.now fetch) }
    ensures receiver { receiver.new ≡ shown_or as_receiver (fetched_answer receiver.old action.now fetch) receiver.old }
{
    let answer = fetched(receiver, action, fetch);
    write(receiver, answer)
}

fn fetched(receiver: &VfReceiver, action: &VfTakeAction, fetch: u32) -> Result<Receiver, u32>
    ensures { result ≡ fetched_answer receiver.now action.now fetch }
{
    let mut known = receiver.read()?;
    let Append { transfer, n, next } = action.append()?;
    let ended = tell_fetched(&mut known, Append { transfer, n, next }, Ref(fetch));
    known_after(known, ended)
}

fn tell_fetched(known: &mut Receiver, action: Append, fetch: Ref) -> Result<(), Refusal>
    ensures answer { result ≡ outcome_of (tell_fetched_of action fetch known.old) }
    ensures records { known.new ≡ result_or known.old (tell_fetched_of action fetch known.old) }
{
    known.fetched(&action, fetch)
}

/// The last bytes were appended, and the buffer was released.
#[unsafe(no_mangle)]
pub extern "C" fn vf_receiver_finished(receiver: &mut VfReceiver, action: &VfTakeAction) -> u32
    ensures status { result ≡ status_of_answer (finished_answer receiver.old action.now) }
    ensures receiver { receiver.new ≡ shown_or as_receiver (finished_answer receiver.old action.now) receiver.old }
{
    let answer = finished(receiver, action);
    write(receiver, answer)
}

fn finished(receiver: &VfReceiver, action: &VfTakeAction) -> Result<Receiver, u32>
    ensures { result ≡ finished_answer receiver.now action.now }
{
    let mut known = receiver.read()?;
    let Append { transfer, n, next } = action.append()?;
    let ended = tell_finished(&mut known, Append { transfer, n, next });
    known_after(known, ended)
}

fn tell_finished(known: &mut Receiver, action: Append) -> Result<(), Refusal>
    ensures answer { result ≡ outcome_of (tell_finished_of action known.old) }
    ensures records { known.new ≡ result_or known.old (tell_finished_of action known.old) }
{
    known.finished(&action)
}

/// The action failed, or ended its transfer, with so many of its bytes kept in the document, and the buffer was
/// released.
#[unsafe(no_mangle)]
pub extern "C" fn vf_receiver_failed(
    receiver: &mut VfReceiver,
    action: &VfTakeAction,
    kept: u32,
) -> u32
    ensures status { result ≡ status_of_answer (taking_failed_answer receiver.old action.now kept) }
    ensures receiver { receiver.new
        ≡ shown_or as_receiver (taking_failed_answer receiver.old action.now kept) receiver.old }
{
    let answer = failed(receiver, action, kept);
    write(receiver, answer)
}

fn failed(receiver: &VfReceiver, action: &VfTakeAction, kept: u32) -> Result<Receiver, u32>
    ensures { result ≡ taking_failed_answer receiver.now action.now kept }
{
    let mut known = receiver.read()?;
    match action.read() {
        Ok(action) => {
            let ended = tell_failed(&mut known, action, kept);
            known_after(known, ended)
        }
        Err(status) => Err(status),
    }
}

fn tell_failed(known: &mut Receiver, action: TakeAction, kept: u32) -> Result<(), Refusal>
    ensures answer { result ≡ outcome_of (tell_failed_of action kept known.old) }
    ensures records { known.new ≡ result_or known.old (tell_failed_of action kept known.old) }
{
    known.failed(&action, kept)
}

/// Tells what a RAMFetch that came back asks for. (User_Message_Acknowledge.)
#[unsafe(no_mangle)]
pub extern "C" fn vf_receiver_on_bounce(
    receiver: &VfReceiver,
    fetch: u32,
    action: &mut VfTakeAction,
) -> u32
    ensures status { result ≡ status_of_answer (fetch_bounce_asks receiver.now fetch) }
    ensures action { action.new ≡ shown_or as_take_action (fetch_bounce_asks receiver.now fetch) action.old }
{
    match receiver.read() {
        Ok(known) => show(known.on_bounce(Ref(fetch)), action),
        Err(status) => status,
    }
}

/// The sender was asked for a file by the DataSaveAck with the ref, and the buffer was released. (Message_DataSaveAck.)
#[unsafe(no_mangle)]
pub extern "C" fn vf_receiver_asking(
    receiver: &mut VfReceiver,
    action: &VfTakeAction,
    ack: u32,
) -> u32
    ensures status { result ≡ status_of_answer (asking_answer receiver.old action.now ack) }
    ensures receiver { receiver.new ≡ shown_or as_receiver (asking_answer receiver.old action.now ack) receiver.old }
{
    let answer = asking(receiver, action, ack);
    write(receiver, answer)
}

fn asking(receiver: &VfReceiver, action: &VfTakeAction, ack: u32) -> Result<Receiver, u32>
    ensures { result ≡ asking_answer receiver.now action.now ack }
{
    let mut known = receiver.read()?;
    let f = action.ask()?;
    let ended = known.asking(&f, Ref(ack));
    known_after(known, ended)
}

/// The DataSaveAck with the ref came back: its transfer failed. Tells whether there is one. (User_Message_Acknowledge.)
#[unsafe(no_mangle)]
pub extern "C" fn vf_receiver_on_ack_bounce(
    receiver: &mut VfReceiver,
    ack: u32,
    known: &mut bool,
) -> u32
    ensures status { result ≡ status_of_answer (ack_bounce_answer receiver.old ack) }
    ensures receiver { receiver.new
        ≡ shown_or (λ p. as_receiver p.1) (ack_bounce_answer receiver.old ack) receiver.old }
    ensures known { known.new ≡ shown_or (λ p. p.0) (ack_bounce_answer receiver.old ack) known.old }
{
    match receiver.read() {
        Ok(mut records) => {
            *known = records.on_ack_bounce(Ref(ack));
            *receiver = VfReceiver::of(&records);
            OK
        }
        Err(status) => status,
    }
}

/// Tells what a DataLoad asks for. (Message_DataLoad.)
#[unsafe(no_mangle)]
pub extern "C" fn vf_receiver_on_load(
    receiver: &VfReceiver,
    from: u32,
    my_ref: u32,
    your_ref: u32,
    action: &mut VfTakeAction,
) -> u32
    ensures status { result ≡ status_of_answer (load_asks receiver.now from my_ref your_ref) }
    ensures action { action.new ≡ shown_or as_take_action (load_asks receiver.now from my_ref your_ref) action.old }
{
    match receiver.read() {
        Ok(known) => show(
            known.on_load(Handle(from), Ref(my_ref), Ref(your_ref)),
            action,
        ),
        Err(status) => status,
    }
}

/// The document has all bytes of the file, which are so many, and the DataLoadAck was sent. (Message_DataLoadAck.)
#[unsafe(no_mangle)]
pub extern "C" fn vf_receiver_loaded(
    receiver: &mut VfReceiver,
    action: &VfTakeAction,
    size: u32,
) -> u32
    ensures status { result ≡ status_of_answer (taking_loaded_answer receiver.old action.now size) }
    ensures receiver { receiver.new
        ≡ shown_or as_receiver (taking_loaded_answer receiver.old action.now size) receiver.old }
{
    let answer = loaded(receiver, action, size);
    write(receiver, answer)
}

fn loaded(receiver: &VfReceiver, action: &VfTakeAction, size: u32) -> Result<Receiver, u32>
    ensures { result ≡ taking_loaded_answer receiver.now action.now size }
{
    let mut known = receiver.read()?;
    let action = action.load_file()?;
    let ended = known.loaded(&action, size);
    known_after(known, ended)
}

/// Gives a transfer up that fetches or waits for a file: the one with the id, with 0 for it the first.
#[unsafe(no_mangle)]
pub extern "C" fn vf_receiver_cancel(receiver: &mut VfReceiver, id: u32) -> u32
    ensures status { result ≡ status_of_answer (cancel_taking_answer receiver.old id) }
    ensures receiver { receiver.new ≡ shown_or as_receiver (cancel_taking_answer receiver.old id) receiver.old }
{
    let answer = cancelled(receiver, id);
    write(receiver, answer)
}

fn cancelled(receiver: &VfReceiver, id: u32) -> Result<Receiver, u32>
    ensures { result ≡ cancel_taking_answer receiver.now id }
{
    let mut known = receiver.read()?;
    let ended = known.cancel(wanted(id));
    known_after(known, ended)
}

/// Tells whether the anchor's block is a document that grows.
#[unsafe(no_mangle)]
pub extern "C" fn vf_receiver_is_document(
    receiver: &VfReceiver,
    anchor: u32,
    is_document: &mut bool,
) -> u32
    ensures status { result ≡ status_of_answer (document_answer receiver.now anchor) }
    ensures answer { is_document.new ≡ shown_or (λ b. b) (document_answer receiver.now anchor) is_document.old }
{
    match document(receiver, anchor) {
        Ok(holds) => {
            *is_document = holds;
            OK
        }
        Err(status) => status,
    }
}

fn document(receiver: &VfReceiver, anchor: u32) -> Result<bool, u32>
    ensures { result ≡ document_answer receiver.now anchor }
{
    let known = receiver.read()?;
    Ok(known.is_document(read_anchor(anchor)?))
}

/// Tells whether the block at the address is a transfer's buffer.
#[unsafe(no_mangle)]
pub extern "C" fn vf_receiver_is_buffer(
    receiver: &VfReceiver,
    address: u32,
    is_buffer: &mut bool,
) -> u32
    ensures status { result ≡ status_of_answer (buffer_answer receiver.now address) }
    ensures answer { is_buffer.new ≡ shown_or (λ b. b) (buffer_answer receiver.now address) is_buffer.old }
{
    match receiver.read() {
        Ok(known) => {
            *is_buffer = known.is_buffer_of(address);
            OK
        }
        Err(status) => status,
    }
}

fn show(asked: Option<TakeAction>, action: &mut VfTakeAction) -> u32
    ensures status { result ≡ 0 }
    ensures action { action.new ≡ as_take_action asked }
{
    *action = VfTakeAction::of(&asked);
    OK
}

/// A receiver behind a call of rh_ram that was done or refused.
fn known_after(known: Receiver, ended: Result<(), Refusal>) -> Result<Receiver, u32>
    ensures { (granted : Granted (List Incoming)) (old : List Incoming) → ended ≡ outcome_of granted → known
        ≡ result_or old granted
        → result ≡ by_rules_of granted }
{
    by_rules(ended)?;
    Ok(known)
}

/// Writes the struct anew, where there is a receiver.
fn write(receiver: &mut VfReceiver, answer: Result<Receiver, u32>) -> u32
    ensures status { result ≡ status_of_answer answer }
    ensures receiver { receiver.new ≡ shown_or as_receiver answer receiver.old }
{
    match answer {
        Ok(known) => {
            *receiver = VfReceiver::of(&known);
            OK
        }
        Err(status) => status,
    }
}
