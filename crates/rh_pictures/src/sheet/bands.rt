//! Cards, drawn or read out, one after the other.

ghost use Rattle.std.specs.Prelude.{◌≡◌, ◌≤◌, ◌<◌, ◌+◌, ◌++◌, length};
ghost use Rattle.rh_elements.specs.DrawCards.{drawn_card};
ghost use Rattle.rh_figure.specs.declared.limits.TheConstants.{MOST_CARDS};
ghost use Rattle.rh_lines.specs.declared.row.TheConstants.{ROW};
ghost use Rattle.rh_pictures.specs.PaintedBands.{IsFit, form_text};
ghost use Rattle.rh_pictures.specs.Inner.BandNames.{with_comma};
ghost use Rattle.rh_sheet.specs.SheetCards.{card_sentence};
ghost use Rattle.rh_sheet.specs.Markup.{escape};

use crate::artist::CardArtist;
use rh_defs::Anchor;
use rh_elements::{Card, Look, print_high_card, print_low_card, put_escaped};
use rh_lines::{Pen, Row};
use rh_map::{
    CardBlock, CardMessage, add_size, block_bytes, block_size, flex_name, hole_name, message_name,
    message_place, message_way, others_name, used_name,
};

/// What becomes of the cards of a band: they are read out, or drawn below a height or above it.
#[derive(Clone, Copy)]
pub enum BandForm {
    Told,
    Below(u32),
    Above(u32),
}

impl CardArtist for BandForm {
    ghost has_room = { IsFit };

    ghost card_text = { form_text };

    fn flex_card<P: Pen>(&self, at: u32, anchor: Anchor, block: &CardBlock<'_>, pen: &mut P) {
        let name = flex_name(anchor, block.address);
        let size = block_size(block);
        let first = block_bytes(block);
        let card = Card {
            look: Look::Flex,
            fresh: block.fresh,
            first: name.as_slice(),
            second: size.as_slice(),
            third: first.as_slice(),
        };
        put_card(*self, at, &card, pen);
    }

    fn used_card<P: Pen>(&self, at: u32, block: &CardBlock<'_>, pen: &mut P) {
        let name = used_name(block.usage, block.address);
        let size = block_size(block);
        let first = block_bytes(block);
        let card = Card {
            look: Look::Used,
            fresh: block.fresh,
            first: name.as_slice(),
            second: size.as_slice(),
            third: first.as_slice(),
        };
        put_card(*self, at, &card, pen);
    }

    fn hole_card<P: Pen>(&self, at: u32, address: u32, size: u32, fresh: bool, pen: &mut P) {
        let name = hole_name(address);
        let mut bytes = Row::new();
        add_size(&mut bytes, size);
        let card = Card {
            look: Look::Hole,
            fresh,
            first: name.as_slice(),
            second: bytes.as_slice(),
            third: b"",
        };
        put_card(*self, at, &card, pen);
    }

    fn message_card<P: Pen>(&self, at: u32, message: &CardMessage<'_>, pen: &mut P) {
        let name = message_name(message.my_ref, message.action);
        let way = message_way(message.code, &message.from, &message.to);
        let chain = message_place(message.code, message.place);
        let card = Card {
            look: Look::Post,
            fresh: message.fresh,
            first: name.as_slice(),
            second: way.as_slice(),
            third: chain.as_slice(),
        };
        put_card(*self, at, &card, pen);
    }

    fn others<P: Pen>(&self, at: u32, count: u32, pen: &mut P) {
        let name = others_name(count);
        let card = Card {
            look: Look::More,
            fresh: false,
            first: name.as_slice(),
            second: b"",
            third: b"",
        };
        put_card(*self, at, &card, pen);
    }
}

/// Writes card k of those that are shown.
fn put_card<P: Pen>(form: BandForm, k: u32, card: &Card<'_>, pen: &mut P)
    requires few { k < MOST_CARDS }
    requires height { IsFit form }
    requires short { length card.now.first.now + length card.now.second.now + length card.now.third.now ≤ 200 }
    ensures { P.offered pen.new ≡ P.offered pen.old ++ form_text form (k, drawn_card card.now) }
{
    match form {
        BandForm::Told => tell_card(card, pen),
        BandForm::Below(y) => print_low_card(y, k, card, pen),
        BandForm::Above(y) => print_high_card(y, k, card, pen),
    }
}

/// Writes a card as it is read out.
fn tell_card<P: Pen>(card: &Card<'_>, pen: &mut P)
    requires { length card.now.first.now + length card.now.second.now + length card.now.third.now ≤ 200 }
    ensures { P.offered pen.new ≡ P.offered pen.old ++ form_text BandForm.Told (0, drawn_card card.now) }
{
    let mut row = Row::new();
    add_behind_comma(&mut row, card.first);
    add_behind_comma(&mut row, card.second);
    add_behind_comma(&mut row, card.third);
    row.text(b". ");
    put_escaped(row.as_slice(), pen);
}

/// Adds a text, if it isn't empty, behind a comma where something stands before it.
fn add_behind_comma(row: &mut Row, text: &[u8])
    requires { length row.old + length text.now + 2 ≤ ROW }
    ensures value { row.new ≡ with_comma row.old text.now }
    ensures few { length row.new ≤ length row.old + length text.now + 2 }
{
    if text.is_empty() {
        return;
    }
    if !row.as_slice().is_empty() {
        row.text(b", ");
    }
    row.text(text);
}
