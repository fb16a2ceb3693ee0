//! What is told of pieces, by their places.

ghost use Rattle.std.specs.Prelude.{◌≡◌, ◌≤◌, Some, length};
ghost use Rattle.rh_lens.specs.Items.{bare};
ghost use Rattle.rh_figure.specs.declared.piece.Piece.{Piece};
ghost use Rattle.rh_lens.specs.ToldInside.{IsTold};
ghost use Rattle.rh_lens.specs.declared.sizes.TheConstants.{MOST_READ};
ghost use Rattle.lens_rows.specs.RowItems.{front as front_of, item_of_row};

use arrayvec::ArrayVec;
use rh_figure::Piece;
use rh_lens::sizes::MOST_READ;
use rh_lens::{Contents, Inside, Words};
use rh_map::Usage;

/// What is told of the piece at a place: its bytes, the transfer that uses it, and the lines of a message.
#[derive(Clone, Copy)]
pub struct Row<'a> {
    pub at: usize,
    pub bytes: &'a [u8],
    pub usage: Usage,
    pub first: &'a [u8],
    pub second: &'a [u8],
    pub third: &'a [u8],
}

/// What is told of the pieces of an area. Of others nothing is told.
#[derive(Clone, Copy)]
pub struct Told<'a> {
    pub rows: &'a [Row<'a>],
}

impl Contents for Told<'_> {
    ghost use Rattle.lens_rows.specs.RowItems.{told_item};

    ghost item = { λ t p. told_item t.rows.now p };

    ghost has_piece = { λ t p. Unit {0} };

    fn recall_items(&self) {}

    fn tell(&self, piece: &Piece, inside: &mut Inside) {
        tell_nothing(inside);
        for row in self.rows {
            if row.at == piece.at {
                tell_row(row, inside);
                return;
            }
        }
    }
}

/// Nothing is told but the piece, in place of what was told before.
fn tell_nothing(inside: &mut Inside)
    ensures { (p : Piece) → IsTold inside.new p (bare p) }
{
    inside.bytes.clear();
    inside.usage = Usage::Unused;
    inside.message = Words::new();
}

/// As many of the bytes as a lens reads.
fn front(bytes: &[u8]) -> &[u8]
    ensures value { result.now ≡ front_of bytes.now }
    ensures short { length result.now ≤ MOST_READ }
{
    &bytes[..bytes.len().min(MOST_READ)]
}

/// Puts bytes into a list in place of what it held.
fn put_front(bytes: &[u8], list: &mut ArrayVec<u8, MOST_READ>)
    requires { length bytes.now ≤ MOST_READ }
    ensures { list.new.items ≡ bytes.now }
{
    list.clear();
    for byte in bytes {
        list.push(*byte);
    }
}

/// Tells what a row has, in place of what was told before.
fn tell_row(row: &Row<'_>, inside: &mut Inside)
    ensures { (p : Piece) → IsTold inside.new p (item_of_row p (Some row.now)) }
{
    put_front(front(row.bytes), &mut inside.bytes);
    inside.usage = row.usage;
    inside.message = Words::new();
    inside.message.first.text(front(row.first));
    inside.message.second.text(front(row.second));
    inside.message.third.text(front(row.third));
}
