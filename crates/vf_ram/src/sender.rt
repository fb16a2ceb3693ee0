//! The calls on a sender.
ghost use Rattle.std.specs.Prelude.{◌≡◌, [], List};
ghost use Rattle.rh_defs.specs.Chain.{Granted, outcome_of, result_or};
ghost use Rattle.rh_defs.specs.declared.transfer.Outgoing.{Outgoing};
ghost use Rattle.vf_ram.specs.SenderCalls.{ack_asks, bounce_answer, cancel_answer, failed_answer, fetch_asks};
ghost use Rattle.vf_ram.specs.SenderCalls.{load_ack_asks, loaded_answer, offer_answer, part_answer, saved_answer};
ghost use Rattle.vf_ram.specs.SenderCalls.{sent_answer, source_answer};
ghost use Rattle.vf_ram.specs.SenderWords.{as_part, as_send_action, as_sender};
ghost use Rattle.vf_ram.specs.WithStatus.{by_rules as by_rules_of, shown_or, status_of as status_of_answer};

use crate::sender_words::{VfPart, VfSendAction, VfSender};
use crate::status::{OK, by_rules, read_anchor, wanted};
use rh_defs::{Handle, Part, Ref, Refusal, SendAction};
use rh_ram::{Sender, part};

/// Makes the struct a sender with no transfer.
#[unsafe(no_mangle)]
pub extern "C" fn vf_sender_start(sender: &mut VfSender) -> u32
    ensures status { result ≡ 0 }
    ensures sender { sender.new ≡ as_sender [] }
{
    *sender = VfSender::of(&Sender::new());
    OK
}

/// Opens a record for a DataSave that is sent with the ref. (Message_DataSave.)
#[unsafe(no_mangle)]
pub extern "C" fn vf_sender_offer(
    sender: &mut VfSender,
    id: u32,
    recipient: u32,
    anchor: u32,
) -> u32
    ensures status { result ≡ status_of_answer (offer_answer sender.old id recipient anchor) }
    ensures sender { sender.new ≡ shown_or as_sender (offer_answer sender.old id recipient anchor) sender.old }
{
    let answer = offered(sender, id, recipient, anchor);
    write(sender, answer)
}

fn offered(sender: &VfSender, id: u32, recipient: u32, anchor: u32) -> Result<Sender, u32>
    ensures { result ≡ offer_answer sender.now id recipient anchor }
{
    let mut known = sender.read()?;
    let anchor = read_anchor(anchor)?;
    let ended = known.offer(Ref(id), Handle(recipient), anchor);
    known_after(known, ended)
}

/// Tells what a RAMFetch asks for. (Message_RAMFetch.)
#[unsafe(no_mangle)]
pub extern "C" fn vf_sender_on_fetch(
    sender: &VfSender,
    from: u32,
    my_ref: u32,
    your_ref: u32,
    buffer: u32,
    length: u32,
    action: &mut VfSendAction,
) -> u32
    ensures status { result ≡ status_of_answer (fetch_asks sender.now from my_ref your_ref buffer length) }
    ensures action { action.new
        ≡ shown_or as_send_action (fetch_asks sender.now from my_ref your_ref buffer length) action.old }
{
    match sender.read() {
        Ok(known) => {
            let asked = known.on_fetch(Handle(from), Ref(my_ref), Ref(your_ref), buffer, length);
            show(asked, action)
        }
        Err(status) => status,
    }
}

/// Tells what a DataSaveAck asks for. (Message_DataSaveAck.)
#[unsafe(no_mangle)]
pub extern "C" fn vf_sender_on_ack(
    sender: &VfSender,
    from: u32,
    my_ref: u32,
    your_ref: u32,
    action: &mut VfSendAction,
) -> u32
    ensures status { result ≡ status_of_answer (ack_asks sender.now from my_ref your_ref) }
    ensures action { action.new ≡ shown_or as_send_action (ack_asks sender.now from my_ref your_ref) action.old }
{
    match sender.read() {
        Ok(known) => {
            let asked = known.on_ack(Handle(from), Ref(my_ref), Ref(your_ref));
            show(asked, action)
        }
        Err(status) => status,
    }
}

/// Tells what a DataLoadAck asks for. (Message_DataLoadAck.)
#[unsafe(no_mangle)]
pub extern "C" fn vf_sender_on_load_ack(
    sender: &VfSender,
    from: u32,
    your_ref: u32,
    action: &mut VfSendAction,
) -> u32
    ensures status { result ≡ status_of_answer (load_ack_asks sender.now from your_ref) }
    ensures action { action.new ≡ shown_or as_send_action (load_ack_asks sender.now from your_ref) action.old }
{
    match sender.read() {
        Ok(known) => {
            let asked = known.on_load_ack(Handle(from), Ref(your_ref));
            show(asked, action)
        }
        Err(status) => status,
    }
}

fn show(asked: Option<SendAction>, action: &mut VfSendAction) -> u32
    ensures status { result ≡ 0 }
    ensures action { action.new ≡ as_send_action asked }
{
    *action = VfSendAction::of(&asked);
    OK
}

/// Tells which bytes of a source of so many an action to transmit sends.
#[unsafe(no_mangle)]
pub extern "C" fn vf_sender_part(action: &VfSendAction, size: u32, part: &mut VfPart) -> u32
    ensures status { result ≡ status_of_answer (part_answer action.now size) }
    ensures part { part.new ≡ shown_or as_part (part_answer action.now size) part.old }
{
    match part_of(action, size) {
        Ok(bytes) => {
            *part = VfPart::of(&bytes);
            OK
        }
        Err(status) => status,
    }
}

fn part_of(action: &VfSendAction, size: u32) -> Result<Part, u32>
    ensures { result ≡ part_answer action.now size }
{
    Ok(part(&action.transmit()?, size))
}

/// The part of an action went out by the RAMTransmit with the ref. (Message_RAMTransmit.)
#[unsafe(no_mangle)]
pub extern "C" fn vf_sender_sent(
    sender: &mut VfSender,
    action: &VfSendAction,
    size: u32,
    last: u32,
) -> u32
    ensures status { result ≡ status_of_answer (sent_answer sender.old action.now size last) }
    ensures sender { sender.new ≡ shown_or as_sender (sent_answer sender.old action.now size last) sender.old }
{
    let answer = sent(sender, action, size, last);
    write(sender, answer)
}

fn sent(sender: &VfSender, action: &VfSendAction, size: u32, last: u32) -> Result<Sender, u32>
    ensures { result ≡ sent_answer sender.now action.now size last }
{
    let mut known = sender.read()?;
    let action = action.transmit()?;
    let ended = known.sent(&action, size, Ref(last));
    known_after(known, ended)
}

/// The source became a file, and the DataLoad with the ref says so. (Message_DataLoad.)
#[unsafe(no_mangle)]
pub extern "C" fn vf_sender_saved(sender: &mut VfSender, action: &VfSendAction, last: u32) -> u32
    ensures status { result ≡ status_of_answer (saved_answer sender.old action.now last) }
    ensures sender { sender.new ≡ shown_or as_sender (saved_answer sender.old action.now last) sender.old }
{
    let answer = saved(sender, action, last);
    write(sender, answer)
}

fn saved(sender: &VfSender, action: &VfSendAction, last: u32) -> Result<Sender, u32>
    ensures { result ≡ saved_answer sender.now action.now last }
{
    let mut known = sender.read()?;
    let action = action.save_file()?;
    let ended = known.saved(&action, Ref(last));
    known_after(known, ended)
}

/// All bytes of the source were loaded, which are so many.
#[unsafe(no_mangle)]
pub extern "C" fn vf_sender_loaded(sender: &mut VfSender, action: &VfSendAction, size: u32) -> u32
    ensures status { result ≡ status_of_answer (loaded_answer sender.old action.now size) }
    ensures sender { sender.new ≡ shown_or as_sender (loaded_answer sender.old action.now size) sender.old }
{
    let answer = loaded(sender, action, size);
    write(sender, answer)
}

fn loaded(sender: &VfSender, action: &VfSendAction, size: u32) -> Result<Sender, u32>
    ensures { result ≡ loaded_answer sender.now action.now size }
{
    let mut known = sender.read()?;
    let x = action.finish()?;
    let ended = known.loaded(&x, size);
    known_after(known, ended)
}

/// The action was refused: its transfer failed.
#[unsafe(no_mangle)]
pub extern "C" fn vf_sender_failed(sender: &mut VfSender, action: &VfSendAction) -> u32
    ensures status { result ≡ status_of_answer (failed_answer sender.old action.now) }
    ensures sender { sender.new ≡ shown_or as_sender (failed_answer sender.old action.now) sender.old }
{
    let answer = failed(sender, action);
    write(sender, answer)
}

fn failed(sender: &VfSender, action: &VfSendAction) -> Result<Sender, u32>
    ensures { result ≡ failed_answer sender.now action.now }
{
    let mut known = sender.read()?;
    let action = action.read()?;
    let ended = known.failed(&action);
    known_after(known, ended)
}

/// The message with the ref came back: the transfer whose last one it was failed. Tells whether there is one.
/// (User_Message_Acknowledge.)
#[unsafe(no_mangle)]
pub extern "C" fn vf_sender_on_bounce(sender: &mut VfSender, last: u32, known: &mut bool) -> u32
    ensures status { result ≡ status_of_answer (bounce_answer sender.old last) }
    ensures sender { sender.new ≡ shown_or (λ p. as_sender p.1) (bounce_answer sender.old last) sender.old }
    ensures known { known.new ≡ shown_or (λ p. p.0) (bounce_answer sender.old last) known.old }
{
    match sender.read() {
        Ok(mut records) => {
            *known = records.on_bounce(Ref(last));
            *sender = VfSender::of(&records);
            OK
        }
        Err(status) => status,
    }
}

/// Gives an open transfer up: the one with the id, with 0 for it the first.
#[unsafe(no_mangle)]
pub extern "C" fn vf_sender_cancel(sender: &mut VfSender, id: u32) -> u32
    ensures status { result ≡ status_of_answer (cancel_answer sender.old id) }
    ensures sender { sender.new ≡ shown_or as_sender (cancel_answer sender.old id) sender.old }
{
    let answer = cancelled(sender, id);
    write(sender, answer)
}

fn cancelled(sender: &VfSender, id: u32) -> Result<Sender, u32>
    ensures { result ≡ cancel_answer sender.now id }
{
    let mut known = sender.read()?;
    let ended = known.cancel(wanted(id));
    known_after(known, ended)
}

/// Tells whether the anchor's block is the source of an open transfer.
#[unsafe(no_mangle)]
pub extern "C" fn vf_sender_is_source(sender: &VfSender, anchor: u32, is_source: &mut bool) -> u32
    ensures status { result ≡ status_of_answer (source_answer sender.now anchor) }
    ensures answer { is_source.new ≡ shown_or (λ b. b) (source_answer sender.now anchor) is_source.old }
{
    match source(sender, anchor) {
        Ok(holds) => {
            *is_source = holds;
            OK
        }
        Err(status) => status,
    }
}

fn source(sender: &VfSender, anchor: u32) -> Result<bool, u32>
    ensures { result ≡ source_answer sender.now anchor }
{
    let known = sender.read()?;
    Ok(known.is_source(read_anchor(anchor)?))
}

/// A sender behind a call of rh_ram that was done or refused.
fn known_after(known: Sender, ended: Result<(), Refusal>) -> Result<Sender, u32>
    ensures { (granted : Granted (List Outgoing)) (old : List Outgoing) → ended ≡ outcome_of granted → known
        ≡ result_or old granted
        → result ≡ by_rules_of granted }
{
    by_rules(ended)?;
    Ok(known)
}

/// Writes the struct anew, where there is a sender.
fn write(sender: &mut VfSender, answer: Result<Sender, u32>) -> u32
    ensures status { result ≡ status_of_answer answer }
    ensures sender { sender.new ≡ shown_or as_sender answer sender.old }
{
    match answer {
        Ok(known) => {
            *sender = VfSender::of(&known);
            OK
        }
        Err(status) => status,
    }
}
