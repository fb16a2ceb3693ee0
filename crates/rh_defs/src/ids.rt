//! Handles, refs and anchors.

ghost use Rattle.std.specs.Prelude.{◌≡◌};
ghost use Rattle.rh_defs.specs.Forms.{is_anchor};

use crate::sizes::ANCHORS;
use std::marker::Model;

/// A task's handle. Handles count up from 1 and are never used again.
#[derive(Clone, Copy, Debug, PartialEq, Eq)]
pub struct Handle(pub u32);

impl Model for Handle {
    ghost use Rattle.std.specs.Prelude.{ℕ};

    ghost Value = { ℕ };

    ghost view = { λ h. h.0 };

    ghost inverse = { λ n. record { 0 = n } };
}

/// A message's ref (my_ref of the Wimp's messages). Refs count up from 1 and are never used again.
#[derive(Clone, Copy, Debug, PartialEq, Eq)]
pub struct Ref(pub u32);

impl Model for Ref {
    ghost use Rattle.std.specs.Prelude.{ℕ};

    ghost Value = { ℕ };

    ghost view = { λ r. r.0 };

    ghost inverse = { λ n. record { 0 = n } };
}

/// One of a slot's anchors, from 0 on: anchor k is the word at &8000 + 4 * k.
#[derive(Clone, Copy, Debug, PartialEq, Eq)]
pub struct Anchor(pub u8);

impl Model for Anchor {
    ghost use Rattle.std.specs.Prelude.{ℕ};

    ghost Value = { ℕ };

    ghost view = { λ a. a.0 };

    ghost inverse = { λ n. record { 0 = n } };
}

impl Anchor {
    /// Whether a slot has this anchor.
    pub fn is_valid(self) -> bool
        ensures { result ≡ is_anchor self }
    {
        (self.0 as usize) < ANCHORS
    }
}
