//! What shows the things of a step as elements of a sheet.

ghost use Rattle.rh_sheet.specs.Markup.{change_item};
ghost use Rattle.rh_sheet.specs.SheetSteps.{area_heading};
ghost use Rattle.rh_sheet.specs.Tables.{letterbox_row, transfer_row};

use crate::artist::Artist;
use crate::sheet::areas::print_area_heading;
use rh_defs::{Name, Ref};
use rh_elements::{print_change, print_letterbox_row, print_transfer_row};
use rh_lines::{Pen, Row};
use rh_map::{MessageEntry, ScrapLine, Side, fixed_area_note, made_area_note};

/// Shows each thing as an element of a sheet.
pub struct SheetArtist;

impl Artist for SheetArtist {
    ghost change_text = { change_item };

    ghost area_text = { area_heading };

    ghost letterbox_text = { letterbox_row };

    ghost transfer_text = { transfer_row };

    fn change<P: Pen>(&self, change: &Row, pen: &mut P) {
        print_change(change.as_slice(), pen);
    }

    fn fixed_area<P: Pen>(
        &self,
        number: u32,
        pages: &[u16],
        scrap: Option<ScrapLine>,
        pen: &mut P,
    ) {
        print_area_heading(number, &fixed_area_note(pages, scrap), pen);
    }

    fn made_area<P: Pen>(&self, number: u32, most: u32, pages: &[u16], pen: &mut P) {
        print_area_heading(number, &made_area_note(most, pages), pen);
    }

    fn letterbox<P: Pen>(
        &self,
        name: &Name,
        held: Option<MessageEntry>,
        waits: &[MessageEntry],
        count: usize,
        pen: &mut P,
    ) {
        print_letterbox_row(name.as_bytes(), held, waits, count, pen);
    }

    fn transfer<P: Pen>(
        &self,
        id: Ref,
        goes_out: &Option<Side<'_>>,
        comes_in: &Option<Side<'_>>,
        pen: &mut P,
    ) {
        print_transfer_row(id, goes_out, comes_in, pen);
    }
}
