//! Cards: what may be too small for its scale, written out.

ghost use Rattle.std.specs.Prelude.{◌≡◌, ◌≤◌, ◌<◌, ◌+◌, ◌++◌, length};
ghost use Rattle.rh_elements.specs.DrawCards.{drawn_card, kind_of};
ghost use Rattle.rh_elements.specs.Inner.CardClasses.{classes_of_card};
ghost use Rattle.rh_figure.specs.declared.limits.TheConstants.{MOST_CARDS};
ghost use Rattle.rh_sheet.specs.SheetCards.{card_box, card_line_text, card_text, card_x as x_of_card, high_card_text};
ghost use Rattle.rh_sheet.specs.SheetCards.{high_card_y as y_of_high_card, low_card_text};
ghost use Rattle.rh_sheet.specs.Markup.{box_text};

use crate::boxes::{Extent, print_box, print_words};
use rh_lines::{Pen, Row};
use rh_map::add_cut;
use rh_sheet::sizes::{
    CARD_BASELINE, CARD_COLUMNS, CARD_GAP, CARD_INDENT, CARD_LINE, CARD_PITCH, CARD_RISE,
    CARD_SPACE, CARDS_ACROSS, LEFT,
};

/// What a card is about: a flex block, a block or a hole of a heap, a message, or those that are left out.
#[derive(Clone, Copy)]
pub enum Look {
    Flex,
    Used,
    Hole,
    Post,
    More,
}

/// A card: its look, whether the command has changed what it is about, and its three lines.
#[derive(Clone, Copy)]
pub struct Card<'a> {
    pub look: Look,
    pub fresh: bool,
    pub first: &'a [u8],
    pub second: &'a [u8],
    pub third: &'a [u8],
}

/// The classes of a card.
fn card_class(look: Look, fresh: bool) -> &'static [u8]
    ensures value { result.now ≡ classes_of_card look fresh }
    ensures few { length result.now ≤ 16 }
{
    match (look, fresh) {
        (Look::Flex, false) => b"card flex",
        (Look::Flex, true) => b"card flex fresh",
        (Look::Used, false) => b"card used",
        (Look::Used, true) => b"card used fresh",
        (Look::Hole, false) => b"card hole",
        (Look::Hole, true) => b"card hole fresh",
        (Look::Post, false) => b"card post",
        (Look::Post, true) => b"card post fresh",
        (Look::More, false) => b"card more",
        (Look::More, true) => b"card more fresh",
    }
}

/// Writes line i of a card whose room begins at a point, cut to the card's width.
fn print_card_line<P: Pen>(class: &[u8], i: u32, x: u32, y: u32, text: &[u8], pen: &mut P)
    requires class { length class.now ≤ 8 }
    requires line { i ≤ 2 }
    requires corner { x + y ≤ 4000 }
    ensures { P.offered pen.new ≡ P.offered pen.old ++ card_line_text class.now i x y text.now }
{
    let mut row = Row::new();
    add_cut(&mut row, CARD_COLUMNS, text);
    let down = y + 1 + CARD_BASELINE + CARD_LINE * i;
    print_words(class, x + 1 + CARD_INDENT, down, row.as_slice(), pen);
}

/// Writes the rectangle of a card whose room begins at a point.
fn print_card_box<P: Pen>(look: Look, fresh: bool, x: u32, y: u32, pen: &mut P)
    requires { x + y ≤ 4000 }
    ensures { P.offered pen.new ≡ P.offered pen.old ++ box_text (card_box (kind_of look) fresh x y) }
{
    let at = Extent {
        x: x + 1,
        y: y + 1,
        width: CARD_PITCH - CARD_GAP,
        height: CARD_RISE - CARD_SPACE,
    };
    print_box(card_class(look, fresh), at, b"", pen);
}

/// Writes a card whose room begins at a point.
fn print_card<P: Pen>(card: &Card<'_>, x: u32, y: u32, pen: &mut P)
    requires { x + y ≤ 4000 }
    ensures { P.offered pen.new ≡ P.offered pen.old ++ card_text (drawn_card card.now) x y }
{
    print_card_box(card.look, card.fresh, x, y, pen);
    print_card_line(b"first", 0, x, y, card.first, pen);
    print_card_line(b"line", 1, x, y, card.second, pen);
    print_card_line(b"line", 2, x, y, card.third, pen);
}

/// Where the room of card i begins, from the left.
fn card_x(i: u32) -> u32
    ensures value { result ≡ x_of_card i }
    ensures few { result ≤ 1000 }
{
    LEFT + CARD_PITCH * (i % CARDS_ACROSS)
}

/// Writes card i of those that are shown below a height.
pub fn print_low_card<P: Pen>(y0: u32, i: u32, card: &Card<'_>, pen: &mut P)
    requires few { i < MOST_CARDS }
    requires height { y0 ≤ 1000 }
    ensures { P.offered pen.new ≡ P.offered pen.old ++ low_card_text y0 (i, drawn_card card.now) }
{
    print_card(card, card_x(i), y0 + CARD_RISE * (i / CARDS_ACROSS), pen);
}

/// Where the room of card i above a height begins, from above.
fn high_card_y(y0: u32, i: u32) -> u32
    requires { i < MOST_CARDS }
    ensures value { result ≡ y_of_high_card y0 i }
    ensures few { result ≤ y0 }
{
    y0.saturating_sub(CARD_RISE * (i / CARDS_ACROSS + 1))
}

/// Writes card i of those that are shown above a height.
pub fn print_high_card<P: Pen>(y0: u32, i: u32, card: &Card<'_>, pen: &mut P)
    requires few { i < MOST_CARDS }
    requires height { y0 ≤ 1000 }
    ensures { P.offered pen.new ≡ P.offered pen.old ++ high_card_text y0 (i, drawn_card card.now) }
{
    print_card(card, card_x(i), high_card_y(y0, i), pen);
}
