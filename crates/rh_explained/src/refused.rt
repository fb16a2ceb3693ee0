//! Refused commands, explained.

ghost use Rattle.std.specs.Prelude.{◌≡◌, ◌++◌};
ghost use Rattle.std.specs.Option.{option_map};
ghost use Rattle.rh_explained.specs.Explanations.{busy_says, detail, detail_address, detail_name, detail_number};
ghost use Rattle.rh_explained.specs.Explanations.{detail_size, is_busy as is_about_busy, reason, refusal_explained};
ghost use Rattle.rh_explained.specs.Explanations.{use_says};

use crate::block_use::BlockUse;
use crate::command_kind::CommandKind;
use crate::facts::Facts;
use crate::faults::{put_below, put_number};
use crate::numbers::{put_address, put_decimal};
use crate::sentences::{kind_help, why, why_for};
use crate::subjects::{address_in, anchor_in, area_in, loaded_file, recipient_in};
use rh_defs::{Anchor, Command, Name, Refusal};
use rh_lines::Pen;

/// Explains why the command of a line with its number was refused, by what the desk has of it.
pub fn put_refused<P: Pen>(
    facts: &Facts,
    number: u32,
    line: &[u8],
    command: &Command,
    refusal: Refusal,
    pen: &mut P,
)
    ensures { P.offered pen.new ≡ P.offered pen.old ++ refusal_explained facts.now number line.now command.now refusal }
{
    let kind = CommandKind::of(command);
    put_number(number, pen);
    pen.put(b": ");
    put_reason(kind, facts, command, refusal, pen);
    put_below(line, kind_help(kind, refusal), pen);
}

/// Says why a command of a kind was refused.
fn put_reason<P: Pen>(
    kind: CommandKind,
    facts: &Facts,
    command: &Command,
    refusal: Refusal,
    pen: &mut P,
)
    ensures { P.offered pen.new ≡ P.offered pen.old ++ reason kind facts.now command.now refusal }
{
    if is_busy(refusal) && !kind.is_of_programs() {
        put_busy(facts.used, pen);
    } else {
        pen.put(why_for(kind, refusal));
        put_detail(facts, command, refusal, pen);
    }
}

fn is_busy(refusal: Refusal) -> bool
    ensures { result ≡ is_about_busy refusal }
{
    matches!(refusal, Refusal::Busy)
}

/// Says what is busy.
fn put_busy<P: Pen>(used: Option<BlockUse>, pen: &mut P)
    ensures { P.offered pen.new ≡ P.offered pen.old ++ busy_says used }
{
    let Some(used) = used else {
        pen.put(b"eight transfers that go out are open");
        return;
    };
    pen.put(why(Refusal::Busy));
    pen.put(b": ");
    put_use(&used, pen);
}

/// Says how a transfer uses a block.
fn put_use<P: Pen>(used: &BlockUse, pen: &mut P)
    ensures { P.offered pen.new ≡ P.offered pen.old ++ use_says used.now }
{
    pen.put(b"transfer ");
    put_decimal(used.id().0, pen);
    pen.put(used.deed());
}

/// Says what a refusal is about.
fn put_detail<P: Pen>(facts: &Facts, command: &Command, refusal: Refusal, pen: &mut P)
    ensures { P.offered pen.new ≡ P.offered pen.old ++ detail facts.now command.now refusal }
{
    match refusal {
        Refusal::NameInUse | Refusal::NoName => put_name(command.task_name(), pen),
        Refusal::NoFile => put_name(loaded_file(command), pen),
        Refusal::NoTask => put_name(recipient_in(command), pen),
        Refusal::NoBlock | Refusal::AnchorInUse => put_anchor(anchor_in(command), pen),
        Refusal::NotABlock | Refusal::NotYours => put_block(address_in(command), pen),
        Refusal::NoArea => put_number_behind(area_in(command), pen),
        Refusal::NoRoom => put_number_behind(Some(facts.free), pen),
        Refusal::BadRange => put_size(facts.size, pen),
        _ => {}
    }
}

fn put_name<P: Pen>(name: Option<&Name>, pen: &mut P)
    ensures { P.offered pen.new ≡ P.offered pen.old ++ detail_name (option_map (λ n. n.now) name.entry) }
{
    if let Some(name) = name {
        pen.put(b": ");
        pen.put(name.as_bytes());
    }
}

fn put_anchor<P: Pen>(anchor: Option<Anchor>, pen: &mut P)
    ensures { P.offered pen.new ≡ P.offered pen.old ++ detail_number anchor }
{
    if let Some(anchor) = anchor {
        pen.put(b": ");
        put_decimal(u32::from(anchor.0), pen);
    }
}

fn put_block<P: Pen>(address: Option<u32>, pen: &mut P)
    ensures { P.offered pen.new ≡ P.offered pen.old ++ detail_address address }
{
    if let Some(address) = address {
        pen.put(b": ");
        put_address(address, pen);
    }
}

fn put_number_behind<P: Pen>(number: Option<u32>, pen: &mut P)
    ensures { P.offered pen.new ≡ P.offered pen.old ++ detail_number number }
{
    if let Some(number) = number {
        pen.put(b": ");
        put_decimal(number, pen);
    }
}

fn put_size<P: Pen>(size: Option<u32>, pen: &mut P)
    ensures { P.offered pen.new ≡ P.offered pen.old ++ detail_size size }
{
    if let Some(size) = size {
        pen.put(b": its size is ");
        put_decimal(size, pen);
    }
}
