//! Rows of areas on a sheet, cards and what leads to them, and arrows.

ghost use Rattle.std.specs.Prelude.{◌≡◌};

use rh_elements::{
    Card, Look, Plot, Slide, Tint, print_high_card, print_lens_above, print_row, print_slide_arrow,
    print_tick,
};
use rh_figure::{Kind, Piece};
use rh_lines::Pen;
use rh_sheet::Frame;

/// Rows of a slot and of a long area, a card with its lens, and two arrows.
pub(crate) fn print_rows<P: Pen>(pen: &mut P) {
    print_slot(pen);
    print_tick(115, 0, pen);
    print_gap(pen);
    print_card(pen);
    print_lens_above(frame(2, 1), 4096, 4112, 1, pen);
    let up = Slide {
        from: 0x9008,
        to: 0xa008,
    };
    print_slide_arrow(frame(3, 1), up, pen);
    let within = Slide {
        from: 0x9074,
        to: 0x90d8,
    };
    print_slide_arrow(frame(2, 2), within, pen);
}

fn frame(pages: usize, above: usize) -> Frame
    ensures pages { result.pages ≡ pages }
    ensures above { result.above ≡ above }
    ensures below { result.below ≡ 0 }
{
    Frame {
        pages,
        above,
        below: 0,
    }
}

/// The rows of a slot with an empty C heap and a flex block.
fn print_slot<P: Pen>(pen: &mut P) {
    let plot = Plot {
        start: 0x8000,
        pages: &[6, 5],
        pieces: &[
            Piece {
                kind: Kind::FreeTop,
                at: 272,
                size: 3824,
                fresh: false,
            },
            Piece {
                kind: Kind::FlexBlock { anchor: 0, size: 5 },
                at: 4096,
                size: 16,
                fresh: true,
            },
        ],
        tint: Tint::Slot(1),
    };
    rh_elements::print_rows(frame(2, 1), &plot, pen);
}

/// The row that stands for the pages between the ends of a long area.
fn print_gap<P: Pen>(pen: &mut P) {
    let plot = Plot {
        start: 0x180_0000,
        pages: &[],
        pieces: &[],
        tint: Tint::Module,
    };
    print_row(frame(1024, 0), &plot, 8, pen);
}

fn print_card<P: Pen>(pen: &mut P) {
    let card = Card {
        look: Look::Flex,
        fresh: true,
        first: b"anchor 0 &9008",
        second: b"1234567890 bytes, out 12",
        third: b"",
    };
    print_high_card(66, 0, &card, pen);
}
