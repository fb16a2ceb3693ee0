//! Rows of areas and of the pool on a map, and the characters of their bytes.

use rh_figure::{Kind, Piece};
use rh_lines::Pen;
use rh_map::{AreaBytes, area_mark, cell_mark, print_area, print_pool, put_line, slot_mark};

/// Rows of a slot, of a long area and of the pool, and then characters.
pub(crate) fn print_rows<P: Pen>(pen: &mut P) {
    print_slot(pen);
    print_long_area(pen);
    let marks = b"................................................................a1";
    print_pool(marks, pen);
    pen.put(&marks_of_cells());
    pen.put(&[area_mark(5), area_mark(256)]);
    pen.put(&[slot_mark(0), slot_mark(31), b'\n']);
    put_line(&[b'a'; 79], pen);
    put_line(&[9; 80], pen);
}

fn piece(kind: Kind, at: usize, size: usize) -> Piece {
    Piece {
        kind,
        at,
        size,
        fresh: false,
    }
}

/// A slot with anchor words, an empty C heap and a flex block.
fn print_slot<P: Pen>(pen: &mut P) {
    let block = Kind::FlexBlock { anchor: 0, size: 5 };
    let area = AreaBytes {
        start: 0x8000,
        pages: &[62, 61],
        pieces: &[
            piece(Kind::AnchorWords, 0, 256),
            piece(Kind::Descriptor, 256, 16),
            piece(Kind::FreeTop, 272, 3824),
            piece(block, 4096, 16),
            piece(Kind::Unused, 4112, 4080),
        ],
    };
    print_area(&area, pen);
}

/// An area of 18 pages, of which two are left out.
fn print_long_area<P: Pen>(pen: &mut P) {
    let area = AreaBytes {
        start: 0x180_0000,
        pages: &[
            0, 1, 2, 3, 4, 5, 6, 7, 8, 9, 10, 11, 12, 13, 14, 15, 16, 1023,
        ],
        pieces: &[],
    };
    print_area(&area, pen);
}

/// The characters of a block, of a block and a message in one, of a hole, and of no piece.
fn marks_of_cells() -> [u8; 4] {
    let used = Kind::Claimed { size: 12 };
    let pieces = [
        piece(used, 0, 16),
        piece(used, 64, 16),
        piece(Kind::Posted { message: 1 }, 80, 48),
        piece(Kind::FreeHole, 128, 64),
    ];
    [
        cell_mark(&pieces, 0),
        cell_mark(&pieces, 64),
        cell_mark(&pieces, 128),
        cell_mark(&pieces, 192),
    ]
}
