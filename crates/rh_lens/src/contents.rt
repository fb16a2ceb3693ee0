//! What is told of the pieces of an area.

ghost use Rattle.std.specs.Prelude.{◌≡◌, []};
ghost use Rattle.rh_figure.specs.declared.piece.Piece.{Piece};
ghost use Rattle.rh_lens.specs.Items.{bare};
ghost use Rattle.rh_lens.specs.ToldInside.{IsTold};

use crate::sizes::MOST_READ;
use arrayvec::ArrayVec;
use rh_figure::Piece;
use rh_lines::Row;
use rh_map::Usage;

/// Up to three lines of words, from above.
#[derive(Drop)]
pub struct Words {
    pub first: Row,
    pub second: Row,
    pub third: Row,
}

/// What is told of a piece: the first bytes of its block, the transfer that uses it, and the lines of a message.
#[derive(Drop)]
pub struct Inside {
    pub bytes: ArrayVec<u8, MOST_READ>,
    pub usage: Usage,
    pub message: Words,
}

/// What tells of the pieces of an area.
pub trait Contents {
    ghost use Rattle.std.specs.Prelude.{◌≡◌};
    ghost use Rattle.rh_figure.specs.declared.piece.Piece.{Piece};
    ghost use Rattle.rh_lens.specs.Items.{Item};
    ghost use Rattle.rh_lens.specs.ToldInside.{IsTold};

    // What is told of a piece.
    ghost item: { Self → Piece → Item };

    // The pieces of which something is told.
    ghost has_piece: { Self → Piece → Type 0 };

    /// Runs nothing: recalls for a proof that what is told is of the piece.
    fn recall_items(&self)
        ensures { (p : Piece) → (item self.now p).piece ≡ p };

    /// Tells of a piece, in place of what was told before.
    fn tell(&self, piece: &Piece, inside: &mut Inside)
        requires { has_piece self.now piece.now }
        ensures { IsTold inside.new piece.now (item self.now piece.now) };
}

impl Words {
    /// No words.
    pub fn new() -> Words
        ensures first { result.first ≡ [] }
        ensures second { result.second ≡ [] }
        ensures third { result.third ≡ [] }
    {
        Words {
            first: Row::new(),
            second: Row::new(),
            third: Row::new(),
        }
    }
}

impl Inside {
    /// Nothing is told but the piece.
    pub fn new() -> Inside
        ensures { (p : Piece) → IsTold result p (bare p) }
    {
        Inside {
            bytes: ArrayVec::new(),
            usage: Usage::Unused,
            message: Words::new(),
        }
    }
}
