//! A file that one task hands to another: two byte arrays, a buffer that both tasks reach, and a list of messages.
ghost use Rattle.std.specs.Prelude.{◌≡◌, [], ◌∷◌, ◌++◌, ◌+◌, ◌-◌, ◌^◌, ◌<◌, ◌≤◌, ◌&&◌, ℕ, List, Some, None, true};
ghost use Rattle.std.specs.Prelude.{false, min, nat_le, length, take, drop, slice_get, option_to_list, IfOk, OnOk};
ghost use Rattle.rh_defs.specs.declared.transfer.Outgoing.TheVariants as outgoing;
ghost use Rattle.rh_defs.specs.declared.transfer.Incoming.TheVariants as incoming;
ghost use Rattle.callers.specs.Inner.HandOver.{open_at, went_at, fetching_at, taken_at, appended_at, fetch_of};
ghost use Rattle.callers.specs.Inner.HandOver.{transmit_of, answer_to, heard, IsOnItsWay};
ghost use Rattle.rh_defs.specs.declared.message.Letter.{Letter as SpecLetter};

use rh_defs::{
    Action, Anchor, Append, Body, Claim, Handle, Letter, Message, Next, Pathname, Ref, SendAction,
    TakeAction,
};
use rh_ram::{Receiver, Sender, fetch_letter, first_fetch, part, save_letter, transmit_letter};
use std::alloc::{AllocError, Global};

/// The task that offers the file.
const OFFERS: Handle = Handle(1);

/// The task that takes it.
const TAKES: Handle = Handle(2);

/// Where each task keeps the file.
const FILE: Anchor = Anchor(0);

/// The buffer's address, by which messages name it.
const BUFFER: u32 = 0x8114;

/// Moves n bytes from a place of one array to a place of another. False, and nothing moved, where one of them is too
/// short.
fn moves(from: &[u8], at: u32, n: u32, to: &mut [u8], place: u32) -> bool
    ensures reach { result ≡ (nat_le (at + n) (length from.now) && nat_le (place + n) (length to.old)) }
    ensures moved { result ≡ true → take (place + n) to.new ≡ take place to.old ++ take n (drop at from.now) }
    ensures stays { result ≡ false → to.new ≡ to.old }
{
    let (at, n, place) = (at as usize, n as usize, place as usize);
    if from.len() < at + n || to.len() < place + n {
        return false;
    }
    to[place..place + n].copy_from_slice(&from[at..at + n]);
    true
}

/// A letter of the list as its task hears it: its ref is its place, from 1.
fn heard_at(letter: &Letter, place: u32) -> Message
    requires { place + 1 < 2 ^ 32 }
    ensures { result ≡ heard (place + 1) letter.now }
{
    Message {
        from: letter.from,
        my_ref: Ref(place + 1),
        your_ref: letter.your_ref,
        body: letter.body.copied(),
    }
}

/// What the task does with a message that offers the file: it answers a RAMFetch by bytes in the buffer, and a letter.
fn send_part(
    sender: &mut Sender,
    source: &[u8],
    buffer: &mut [u8],
    message: &Message,
    next: Ref,
) -> Option<Letter>
    requires { length source.now < 2 ^ 32 }
    ensures { (c last my : ℕ) → sender.old ≡ open_at c last → message.now ≡ heard my (fetch_of (length buffer.old) last)
        → c ≤ length source.now → 0 < length buffer.old → let n = min (length buffer.old) (length source.now - c) in
        (result ≡ Some (transmit_of (length buffer.old) my n)) × (sender.new ≡ went_at (length buffer.old) c n next)
        × (take n buffer.new ≡ take n (drop c source.now)) }
{
    let Body::RamFetch {
        buffer: address,
        length,
    } = message.body
    else {
        return None;
    };
    let action = sender.on_fetch(
        message.from,
        message.my_ref,
        message.your_ref,
        address,
        length,
    )?;
    let SendAction::Transmit(a) = action else {
        return None;
    };
    let size = source.len() as u32;
    let part = part(&a, size);
    if !moves(source, part.offset, part.n, buffer, 0) {
        sender.failed(&SendAction::Transmit(a)).ok()?;
        return None;
    }
    sender.sent(&a, size, next).ok()?;
    Some(transmit_letter(OFFERS, &a, &part))
}

/// What the task does with an offer: it asks for as many bytes as the buffer has.
fn take_offer(receiver: &mut Receiver, room: u32, message: &Message, next: Ref) -> Option<Letter>
    ensures { receiver.old ≡ [] → message.now.from ≡ 1 → message.now.my_ref ≡ 1
        → (result ≡ Some (fetch_of room 1)) × (receiver.new ≡ fetching_at 0 next) }
{
    match receiver.on_save(false, message.from, message.my_ref) {
        Some(TakeAction::Claim(claim)) => begin(receiver, &claim, room, next),
        _ => None,
    }
}

/// A claim is granted: the buffer and the document are there, and their first RAMFetch goes out.
fn begin(receiver: &mut Receiver, claim: &Claim, room: u32, next: Ref) -> Option<Letter>
    ensures { receiver.old ≡ [] → claim.now ≡ record { id = 1; sender = 1; raw = false }
        → (result ≡ Some (fetch_of room 1)) × (receiver.new ≡ fetching_at 0 next) }
{
    receiver.fetching(claim, FILE, BUFFER, next).ok()?;
    let fetch = first_fetch(claim, BUFFER, room);
    Some(fetch_letter(TAKES, &fetch))
}

/// What follows on bytes that were taken: the next RAMFetch, or nothing.
fn go_on(receiver: &mut Receiver, action: &Append, next: Ref) -> Option<Letter>
    ensures { (room c my fetch n : ℕ) → receiver.old ≡ fetching_at c fetch → action.now ≡ appended_at room c my fetch n
        → c + n < 2 ^ 32
        → (result ≡ answer_to room my n) × (receiver.new ≡ taken_at room c n next) }
{
    match action.next {
        Next::Fetch(fetch) => {
            receiver.fetched(action, next).ok()?;
            Some(fetch_letter(TAKES, &fetch))
        }
        Next::Finish => {
            receiver.finished(action).ok()?;
            None
        }
    }
}

/// What the task does with bytes in the buffer: it appends them to its document, and asks for more behind a full
/// buffer.
fn take_part(
    receiver: &mut Receiver,
    document: &mut [u8],
    buffer: &[u8],
    message: &Message,
    next: Ref,
) -> Option<Letter>
    requires { length buffer.now < 2 ^ 32 }
    ensures { (c my fetch n : ℕ) → receiver.old ≡ fetching_at c fetch → message.now
        ≡ heard my (transmit_of (length buffer.now) fetch n)
        → n ≤ length buffer.now → c + n ≤ length document.old → c + n < 2 ^ 32
        → (result ≡ answer_to (length buffer.now) my n) × (receiver.new ≡ taken_at (length buffer.now) c n next)
        × (take (c + n) document.new ≡ take c document.old ++ take n buffer.now) }
{
    let room = buffer.len() as u32;
    let Body::RamTransmit {
        buffer: address,
        written,
    } = message.body
    else {
        return None;
    };
    let action = receiver.on_transmit(
        room,
        message.from,
        message.my_ref,
        message.your_ref,
        address,
        written,
    )?;
    let TakeAction::Append(a) = action else {
        receiver.failed(&action, 0).ok()?;
        return None;
    };
    if !moves(buffer, 0, a.n, document, a.transfer.count) {
        receiver.failed(&TakeAction::Append(a), 0).ok()?;
        return None;
    }
    go_on(receiver, &a, next)
}

/// One turn: the task that a message is for does what the message asks, and may answer it.
fn take_turn(
    sender: &mut Sender,
    receiver: &mut Receiver,
    source: &[u8],
    buffer: &mut [u8],
    document: &mut [u8],
    message: &Message,
    next: Ref,
) -> Option<Letter>
    requires size { length source.now < 2 ^ 30 }
    requires room { 0 < length buffer.old }
    requires small { length buffer.old < 2 ^ 32 }
    requires same { length document.old ≡ length source.now }
    ensures { (turn : ℕ) (mail : List SpecLetter) (letter : SpecLetter)
        → IsOnItsWay source.now (length buffer.old) turn mail sender.old receiver.old document.old buffer.old
        → slice_get mail turn ≡ Some letter → message.now ≡ heard (turn + 1) letter → next ≡ turn + 2
        → IsOnItsWay source.now (length buffer.old) (turn + 1)
        (mail ++ option_to_list result) sender.new receiver.new document.new buffer.new }
{
    match message.body.action() {
        Action::RamFetch => send_part(sender, source, buffer, message, next),
        Action::RamTransmit => take_part(receiver, document, buffer, message, next),
        _ => take_offer(receiver, buffer.len() as u32, message, next),
    }
}

/// Puts an answer behind the messages, if there is one.
fn post(mail: &mut Vec<Letter>, answer: Option<Letter>) -> Result<(), AllocError>
    ensures { OnOk result (mail.new.items ≡ mail.old.items ++ option_to_list answer) }
{
    if let Some(letter) = answer {
        mail.push(letter)?;
    }
    Ok(())
}

/// Hands a file over, through a buffer of at least one byte, into a document as long as the source. AllocError where
/// memory for the list of messages is refused. (Message_DataSave, Message_RAMFetch, Message_RAMTransmit.)
pub fn hand_over(
    alloc: Global,
    source: &[u8],
    buffer: &mut [u8],
    document: &mut [u8],
) -> Result<(Sender, Receiver), AllocError>
    requires size { length source.now < 2 ^ 30 }
    requires room { 0 < length buffer.old }
    requires small { length buffer.old < 2 ^ 32 }
    requires same { length document.old ≡ length source.now }
    ensures whole { OnOk result (document.new ≡ source.now) }
    ensures sent { IfOk result (λ ends. ends.0 ≡ outgoing.Done 1 (length source.now) ∷ []) }
    ensures taken { IfOk result (λ ends. ends.1 ≡ incoming.Done 1 0 (length source.now) ∷ []) }
{
    let mut sender = Sender::new();
    let mut receiver = Receiver::new();
    let mut mail = Vec::new(alloc);
    let leaf = Pathname::new(b"file").unwrap();
    mail.push(save_letter(OFFERS, TAKES, source.len() as u32, leaf))?;
    sender.offered(Ref(1), TAKES, FILE);
    for turn in 0..2 * source.len() as u32 + 3 {
        let Some(letter) = mail.get(turn as usize) else {
            break;
        };
        let message = heard_at(letter, turn);
        let next = Ref(turn + 2);
        let answer = take_turn(
            &mut sender,
            &mut receiver,
            source,
            buffer,
            document,
            &message,
            next,
        );
        post(&mut mail, answer)?;
    }
    Ok((sender, receiver))
}
