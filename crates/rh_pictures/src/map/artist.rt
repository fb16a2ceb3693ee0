//! What shows the things of a step as lines of a map.

ghost use Rattle.std.specs.Prelude.{◌++◌, codes};
ghost use Rattle.rh_figure.specs.Map.{card_line, letterbox_line, panel_lines, shown_line, transfer_line};
ghost use Rattle.rh_map.specs.Written.{shown_lines};

use crate::artist::{Artist, CardArtist};
use rh_defs::{Anchor, Name, Ref};
use rh_lines::{Pen, Row};
use rh_map::{
    CardBlock, CardMessage, MessageEntry, ScrapLine, Side, print_change, print_fixed_area,
    print_flex_card, print_hole_card, print_letterbox, print_made_area, print_message_card,
    print_more_card, print_transfer, print_used_card,
};

/// Shows each thing as a line of a map.
pub struct MapArtist;

impl Artist for MapArtist {
    ghost change_text = { λ change. shown_line (codes "  " ++ change) ++ codes "\n" };

    ghost area_text = { λ panel. shown_lines (panel_lines panel.name panel) };

    ghost letterbox_text = { λ box. shown_line (letterbox_line box) ++ codes "\n" };

    ghost transfer_text = { λ transfer. shown_line (transfer_line transfer) ++ codes "\n" };

    fn change<P: Pen>(&self, change: &Row, pen: &mut P) {
        print_change(change, pen);
    }

    fn fixed_area<P: Pen>(
        &self,
        number: u32,
        pages: &[u16],
        scrap: Option<ScrapLine>,
        pen: &mut P,
    ) {
        print_fixed_area(number, pages, scrap, pen);
    }

    fn made_area<P: Pen>(&self, number: u32, most: u32, pages: &[u16], pen: &mut P) {
        print_made_area(number, most, pages, pen);
    }

    fn letterbox<P: Pen>(
        &self,
        name: &Name,
        held: Option<MessageEntry>,
        waits: &[MessageEntry],
        count: usize,
        pen: &mut P,
    ) {
        print_letterbox(name, held, waits, count, pen);
    }

    fn transfer<P: Pen>(
        &self,
        id: Ref,
        goes_out: &Option<Side<'_>>,
        comes_in: &Option<Side<'_>>,
        pen: &mut P,
    ) {
        print_transfer(id, goes_out, comes_in, pen);
    }
}

impl CardArtist for MapArtist {
    ghost has_room = { λ artist. Unit {0} };

    ghost card_text = { λ artist placed. shown_line (card_line placed.1) ++ codes "\n" };

    fn flex_card<P: Pen>(&self, _at: u32, anchor: Anchor, block: &CardBlock<'_>, pen: &mut P) {
        print_flex_card(anchor, block, pen);
    }

    fn used_card<P: Pen>(&self, _at: u32, block: &CardBlock<'_>, pen: &mut P) {
        print_used_card(block, pen);
    }

    fn hole_card<P: Pen>(&self, _at: u32, address: u32, size: u32, fresh: bool, pen: &mut P) {
        print_hole_card(address, size, fresh, pen);
    }

    fn message_card<P: Pen>(&self, _at: u32, message: &CardMessage<'_>, pen: &mut P) {
        print_message_card(message, pen);
    }

    fn others<P: Pen>(&self, _at: u32, count: u32, pen: &mut P) {
        print_more_card(count, pen);
    }
}
