//! The characters of a map's row: each stands for 64 bytes of an area.

ghost use Rattle.std.specs.Prelude.{◌≡◌, ◌∷◌, [], ◌<◌, ◌^◌, filter, find, IfNone, IfSome};
ghost use Rattle.rh_figure.specs.Rows.{begins_in, cell_mark, has_byte, is_block_kind, kind_mark, mark_or_space};

use rh_figure::limits::CELL_BYTES;
use rh_figure::{Kind, Piece};

/// The character of the 64 bytes at an offset of an area with these pieces: that of the block that begins there, a plus
/// for several, and else that of the piece that has the first byte.
pub fn cell_mark(pieces: &[Piece], at: usize) -> u8
    requires { at < 2 ^ 40 }
    ensures { result ≡ cell_mark pieces.now at }
{
    match next_begun(pieces, at) {
        None => going_on(pieces, at),
        Some((piece, others)) => match next_begun(others, at) {
            None => kind_mark(piece.kind),
            Some(_) => b'+',
        },
    }
}

/// The first block that begins in the cell, and the pieces behind it.
fn next_begun(pieces: &[Piece], at: usize) -> Option<(Piece, &[Piece])>
    requires { at < 2 ^ 40 }
    ensures none { IfNone result (filter (begins_in at) pieces.now ≡ []) }
    ensures some { IfSome result (λ next. filter (begins_in at) pieces.now ≡ next.0 ∷ filter
        (begins_in at) next.1.now) }
{
    let mut rest = pieces;
    while let Some((piece, others)) = rest.split_first() {
        if begins_in(at, piece) {
            return Some((*piece, others));
        }
        rest = others;
    }
    None
}

/// The character of the first piece that has the byte, or a space.
fn going_on(pieces: &[Piece], at: usize) -> u8
    ensures { result ≡ mark_or_space (find (has_byte at) pieces.now) }
{
    let mut rest = pieces;
    while let Some((piece, others)) = rest.split_first() {
        if has_byte(at, piece) {
            return kind_mark(piece.kind);
        }
        rest = others;
    }
    b' '
}

fn begins_in(at: usize, piece: &Piece) -> bool
    requires { at < 2 ^ 40 }
    ensures { result ≡ begins_in at piece.now }
{
    is_block(piece.kind) && at <= piece.at && piece.at < at + CELL_BYTES
}

fn has_byte(at: usize, piece: &Piece) -> bool
    ensures { result ≡ has_byte at piece.now }
{
    piece.at <= at && at - piece.at < piece.size
}

fn is_block(kind: Kind) -> bool
    ensures { result ≡ is_block_kind kind }
{
    matches!(
        kind,
        Kind::Claimed { .. } | Kind::Posted { .. } | Kind::FlexBlock { .. }
    )
}

fn kind_mark(kind: Kind) -> u8
    ensures { result ≡ kind_mark kind }
{
    match kind {
        Kind::AnchorWords => b':',
        Kind::Descriptor => b'=',
        Kind::Claimed { .. } | Kind::Posted { .. } => b'#',
        Kind::FreeHole => b'-',
        Kind::MoreSegments { .. } => b'%',
        Kind::FreeTop => b'.',
        Kind::FlexBlock { anchor, .. } => b'0' + (anchor % 10) as u8,
        Kind::Unused => b' ',
    }
}
