//! The lenses of plain values.
#![tactic(auto)]

ghost use Rattle.std.specs.Prelude.{◌≡◌, ◌≤◌, ◌+◌};
ghost use Rattle.rh_lens.specs.declared.sizes.TheConstants.{MOST_SCALE, MOST_WIDTH};

mod told;

use crate::told::{Row, Told};
use rh_defs::Ref;
use rh_elements::Tint;
use rh_figure::{Kind, Piece};
use rh_lens::{ModuleView, ShownAnchor, SlotView, print_module_lens, print_slot_lens};
use rh_lines::{Flagged, Pen, WriteFailed, WriterPen};
use rh_map::Usage;

/// The first bytes of a block of zeros.
const ZEROS: [u8; 256] = [0; 256];

/// The first bytes of a block of no letters.
const SEVENS: [u8; 256] = [7; 256];

fn main(rt: HostRuntime) -> Result<(), WriteFailed> {
    let mut output = Flagged::new(rt.stdout());
    let mut pen = WriterPen::new(&mut output, &mut []);
    print_hello(&mut pen);
    print_busy(960, 16, &mut pen);
    print_busy(300, 64, &mut pen);
    print_busy(700, 1, &mut pen);
    print_empty(&mut pen);
    print_module(&mut pen);
    print_one_page(&mut pen);
    pen.finish()
}

/// A piece that the command hasn't changed.
fn piece(kind: Kind, at: usize, size: usize) -> Piece
    ensures at { result.at ≡ at }
    ensures size { result.size ≡ size }
{
    Piece {
        kind,
        at,
        size,
        fresh: false,
    }
}

/// A block of a C heap of so many bytes, behind a word of its own.
fn claimed(at: usize, size: u32) -> Piece
    ensures at { result.at ≡ at }
    ensures size { result.size ≡ size + 4 }
{
    piece(Kind::Claimed { size }, at, size as usize + 4)
}

/// The flex block of an anchor, of so many bytes, which takes so many of its slot as a whole.
fn flex(anchor: u32, size: u32, at: usize, whole: usize) -> Piece
    ensures at { result.at ≡ at }
    ensures size { result.size ≡ whole }
{
    piece(Kind::FlexBlock { anchor, size }, at, whole)
}

/// The piece, which the command has changed.
fn changed(piece: Piece) -> Piece
    ensures at { result.at ≡ piece.at }
    ensures size { result.size ≡ piece.size }
{
    Piece {
        fresh: true,
        ..piece
    }
}

fn block<'a>(at: usize, bytes: &'a [u8], usage: Usage) -> Row<'a> {
    Row {
        at,
        bytes,
        usage,
        first: b"",
        second: b"",
        third: b"",
    }
}

fn anchor(number: u32, held: Option<u32>, is_moved: bool) -> ShownAnchor {
    ShownAnchor {
        number,
        held,
        is_moved,
    }
}

/// A slot of one block, "hello".
fn print_hello<P: Pen>(pen: &mut P) {
    let pieces = [
        piece(Kind::AnchorWords, 0, 256),
        piece(Kind::Descriptor, 256, 16),
        piece(Kind::FreeTop, 272, 3824),
        flex(0, 5, 4096, 16),
        piece(Kind::Unused, 4112, 4080),
    ];
    let anchors = [anchor(0, Some(0x9008), false)];
    let view = SlotView {
        name: b"a",
        tint: Tint::Slot(1),
        pages: &[6, 5],
        pieces: &pieces,
        heap: &pieces[1..3],
        flex: &pieces[3..],
        anchors: &anchors,
    };
    let rows = [block(4096, b"hello", Usage::Unused)];
    print_slot_lens(&Told { rows: &rows }, &view, 600, 16, pen);
}

/// Anchors of which two have moved, one of them without a block.
fn busy_anchors() -> [ShownAnchor; 5] {
    [
        anchor(1, Some(0x9010), false),
        anchor(2, Some(0x9028), true),
        anchor(10, Some(0x9058), false),
        anchor(20, None, true),
        anchor(63, Some(0x9008), false),
    ]
}

/// What is told of blocks of all kinds.
fn busy_rows() -> [Row<'static>; 8] {
    [
        block(272, b"\x01\0\0A", Usage::In(Ref(3))),
        block(304, b"twenty letters here.", Usage::Unused),
        block(328, &ZEROS[..36], Usage::In(Ref(4))),
        block(368, &ZEROS, Usage::Unused),
        block(2368, &SEVENS, Usage::Unused),
        block(4104, b"<&>\"0123456789~\x7f", Usage::Out(Ref(12))),
        block(
            4128,
            b"a text, and zeros behind it\0\0\0\0\0\0\0\0\0\0\0\0\0",
            Usage::Unused,
        ),
        block(4176, &SEVENS, Usage::In(Ref(5))),
    ]
}

/// A slot with blocks of all kinds, of three pages.
fn print_busy<P: Pen>(width: u32, scale: u32, pen: &mut P)
    requires width { width ≤ MOST_WIDTH }
    requires scale { scale ≤ MOST_SCALE }
{
    let pieces = [
        piece(Kind::AnchorWords, 0, 256),
        piece(Kind::Descriptor, 256, 16),
        changed(claimed(272, 4)),
        piece(Kind::FreeHole, 280, 24),
        claimed(304, 20),
        claimed(328, 36),
        claimed(368, 1996),
        claimed(2368, 300),
        piece(Kind::MoreSegments { count: 7 }, 2672, 1000),
        piece(Kind::FreeTop, 3672, 424),
        flex(63, 0, 4096, 8),
        flex(1, 16, 4104, 24),
        changed(flex(2, 40, 4128, 48)),
        flex(10, 6000, 4176, 6008),
        piece(Kind::Unused, 10184, 2104),
    ];
    let view = SlotView {
        name: b"busy",
        tint: Tint::Slot(3),
        pages: &[61, 60, 4],
        pieces: &pieces,
        heap: &pieces[1..10],
        flex: &pieces[10..],
        anchors: &busy_anchors(),
    };
    print_slot_lens(&Told { rows: &busy_rows() }, &view, width, scale, pen);
}

/// A slot whose anchors are all 0.
fn print_empty<P: Pen>(pen: &mut P) {
    let pieces = [
        piece(Kind::AnchorWords, 0, 256),
        piece(Kind::Descriptor, 256, 16),
        piece(Kind::FreeTop, 272, 3824),
        piece(Kind::Unused, 4096, 0),
    ];
    let view = SlotView {
        name: b"b",
        tint: Tint::Slot(2),
        pages: &[3],
        pieces: &pieces,
        heap: &pieces[1..3],
        flex: &pieces[3..],
        anchors: &[],
    };
    print_slot_lens(&Told { rows: &[] }, &view, 480, 8, pen);
}

/// What is told of a module area with two messages.
fn module_rows() -> [Row<'static>; 3] {
    [
        Row {
            at: 16,
            bytes: b"",
            usage: Usage::Unused,
            first: b"4 RAMFetch",
            second: b"b to a",
            third: b"code 18",
        },
        Row {
            at: 128,
            bytes: b"",
            usage: Usage::Unused,
            first: b"5 DataSave",
            second: b"back to abcdefghijkl",
            third: b"code 19",
        },
        block(388, b"drawfile", Usage::Unused),
    ]
}

/// A module area of two pages with two messages.
fn print_module<P: Pen>(pen: &mut P) {
    let pieces = [
        piece(Kind::Descriptor, 0, 16),
        piece(Kind::Posted { message: 4 }, 16, 48),
        piece(Kind::FreeHole, 64, 64),
        piece(Kind::Posted { message: 5 }, 128, 260),
        claimed(388, 100),
        piece(Kind::FreeTop, 492, 7700),
    ];
    let view = ModuleView {
        pages: &[63, 2],
        pieces: &pieces,
    };
    let rows = module_rows();
    print_module_lens(&Told { rows: &rows }, &view, 640, 24, pen);
}

/// A module area of one page, with the first of the messages.
fn print_one_page<P: Pen>(pen: &mut P) {
    let pieces = [
        piece(Kind::Descriptor, 0, 16),
        piece(Kind::Posted { message: 4 }, 16, 48),
        piece(Kind::FreeHole, 64, 64),
    ];
    let view = ModuleView {
        pages: &[63],
        pieces: &pieces,
    };
    let rows = module_rows();
    print_module_lens(&Told { rows: &rows }, &view, 300, 1, pen);
}
