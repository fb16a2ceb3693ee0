//! What shows the things of a step: as lines of a map, or as elements of a sheet.

ghost use Rattle.std.specs.Prelude.{◌≡◌, ◌≤◌, ◌<◌, ◌++◌, ℕ, List, length, min};
ghost use Rattle.std.specs.Option.{option_map};
ghost use Rattle.rh_defs.specs.Post.{most_messages};
ghost use Rattle.rh_defs.specs.declared.sizes.TheConstants.{FIXED_AREAS, MAX_PAGES};
ghost use Rattle.rh_figure.specs.Cards.{Card, flex_card, hole_card, more_card, used_card};
ghost use Rattle.rh_figure.specs.Figure.{Letterbox, Panel, Transfer, area_panel, fixed_note, listed_pages, made_note};
ghost use Rattle.rh_figure.specs.declared.limits.TheConstants.{CARD_BYTES, MOST_CARDS, MOST_LISTED};
ghost use Rattle.rh_map.specs.MapAreas.{scrap_note_of};
ghost use Rattle.rh_map.specs.MapCards.{IsFrontOf, use_text};
ghost use Rattle.rh_map.specs.MapMessages.{card_of, mapped_letterbox};
ghost use Rattle.rh_map.specs.Sides.{side_of};

use rh_defs::{Anchor, Name, Ref};
use rh_lines::{Pen, Row};
use rh_map::{CardBlock, CardMessage, MessageEntry, ScrapLine, Side};

/// What shows the things of a step as they are walked.
pub trait Artist {
    // How something that a command has changed is shown.
    ghost change_text: { List ℕ → List ℕ };

    // How an area that is pages alone is shown.
    ghost area_text: { Panel → List ℕ };

    // How the messages of a task are shown.
    ghost letterbox_text: { Letterbox → List ℕ };

    // How a transfer is shown.
    ghost transfer_text: { Transfer → List ℕ };

    /// Shows something that a command has changed.
    fn change<P: Pen>(&self, change: &Row, pen: &mut P)
        requires { length change.now ≤ 200 }
        ensures { P.offered pen.new ≡ P.offered pen.old ++ change_text change.now };

    /// Shows one of areas 0 to 5, which has these pages, and the scrap file where it lies in that area.
    fn fixed_area<P: Pen>(&self, number: u32, pages: &[u16], scrap: Option<ScrapLine>, pen: &mut P)
        requires number { number < FIXED_AREAS }
        requires few { length pages.now ≤ MAX_PAGES }
        ensures { P.offered pen.new ≡ P.offered pen.old ++ area_text (area_panel number
            (fixed_note (length pages.now) (listed_pages (length pages.now) pages.now) (scrap_note_of scrap))) };

    /// Shows a made area, which has these pages and may have so many.
    fn made_area<P: Pen>(&self, number: u32, most: u32, pages: &[u16], pen: &mut P)
        requires number { 5 < number }
        requires few { length pages.now ≤ MAX_PAGES }
        ensures { P.offered pen.new ≡ P.offered pen.old ++ area_text (area_panel number
            (made_note (length pages.now) most (listed_pages (length pages.now) pages.now))) };

    /// Shows what the task with the name holds, and the first of `count` messages that wait for it.
    fn letterbox<P: Pen>(
        &self,
        name: &Name,
        held: Option<MessageEntry>,
        waits: &[MessageEntry],
        count: usize,
        pen: &mut P,
    )
        requires few { count ≤ most_messages }
        requires first { length waits.now ≡ min count MOST_LISTED }
        ensures { P.offered pen.new ≡ P.offered pen.old
            ++ letterbox_text (mapped_letterbox name.now held waits.now count) };

    /// Shows a transfer, of which either side may be gone.
    fn transfer<P: Pen>(
        &self,
        id: Ref,
        goes_out: &Option<Side<'_>>,
        comes_in: &Option<Side<'_>>,
        pen: &mut P,
    )
        ensures { P.offered pen.new ≡ P.offered pen.old ++ transfer_text (record {
          id = id;
          goes_out = option_map side_of goes_out.now;
          comes_in = option_map side_of comes_in.now;
        }) };
}

/// What shows the cards of a band, one after the other.
pub trait CardArtist {
    // There is room for a band.
    ghost has_room: { Self → Type 0 };

    // How a card is shown, with its place among those that are shown.
    ghost card_text: { Self → ℕ × Card → List ℕ };

    /// Shows the card of a flex block.
    fn flex_card<P: Pen>(&self, at: u32, anchor: Anchor, block: &CardBlock<'_>, pen: &mut P)
        requires few { at < MOST_CARDS }
        requires room { has_room self.now }
        requires front { length block.now.front.now ≤ CARD_BYTES }
        ensures { (bytes : List ℕ) → IsFrontOf block.now.size block.now.front.now bytes →
            P.offered pen.new ≡ P.offered pen.old ++ card_text self.now (
              at,
              flex_card block.now.address anchor bytes (use_text block.now.usage) block.now.fresh,
            ) };

    /// Shows the card of a block of a heap that is no message.
    fn used_card<P: Pen>(&self, at: u32, block: &CardBlock<'_>, pen: &mut P)
        requires few { at < MOST_CARDS }
        requires room { has_room self.now }
        requires front { length block.now.front.now ≤ CARD_BYTES }
        ensures { (bytes : List ℕ) → IsFrontOf block.now.size block.now.front.now bytes →
            P.offered pen.new ≡ P.offered pen.old ++ card_text self.now (
              at,
              used_card block.now.address bytes (use_text block.now.usage) block.now.fresh,
            ) };

    /// Shows the card of a hole.
    fn hole_card<P: Pen>(&self, at: u32, address: u32, size: u32, fresh: bool, pen: &mut P)
        requires few { at < MOST_CARDS }
        requires room { has_room self.now }
        ensures { P.offered pen.new ≡ P.offered pen.old ++ card_text self.now (at, hole_card address size fresh) };

    /// Shows the card of a message.
    fn message_card<P: Pen>(&self, at: u32, message: &CardMessage<'_>, pen: &mut P)
        requires few { at < MOST_CARDS }
        requires room { has_room self.now }
        ensures { P.offered pen.new ≡ P.offered pen.old ++ card_text self.now (at, card_of message.now) };

    /// Shows how many cards are left out.
    fn others<P: Pen>(&self, at: u32, count: u32, pen: &mut P)
        requires few { at < MOST_CARDS }
        requires room { has_room self.now }
        ensures { P.offered pen.new ≡ P.offered pen.old ++ card_text self.now (at, more_card count) };
}
