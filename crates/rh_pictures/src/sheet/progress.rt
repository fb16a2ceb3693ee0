//! How far a sheet has come.

ghost use Rattle.std.specs.Prelude.{◌≡◌, ◌≤◌, ◌<◌, ◌+◌, ◌^◌, ◌&&◌, ◌||◌, nat_lt, not, true, false};
ghost use Rattle.std.specs.Prelude.{IfSome, if◌then◌else◌};
ghost use Rattle.std.specs.Bool.{OnTrue};
ghost use Rattle.rh_pictures.specs.LensSizes.{IsLensSize};
ghost use Rattle.rh_sheet.specs.declared.sizes.TheConstants.{MOST_STEPS};

use crate::deeds::and_not;
use crate::lens::size::LensSize;
use rh_sheet::sizes::MOST_STEPS;
use std::marker::Model;

/// How far a sheet has come: how many lines are behind it, and whether a mark was seen since the last command; how many
/// commands are shown, which of those has the last figure, 0 for none, and how many are left out; and whether a remark
/// has begun the next step. Through all steps areas are drawn through one lens, or at true scale.
#[derive(Drop)]
pub struct Progress {
    lines: u32,
    wanted: bool,
    shown: u32,
    last: u32,
    left: u32,
    opened: bool,
    lens: Option<LensSize>,
}

impl Model for Progress {
    ghost use Rattle.std.specs.Prelude.{◌≤◌, ◌+◌, IfSome, if◌then◌else◌};
    ghost use Rattle.rh_pictures.specs.LensSizes.{IsLensSize};
    ghost use Rattle.rh_pictures.specs.PaintedProgress.{PaintStand};
    ghost use Rattle.rh_sheet.specs.declared.sizes.TheConstants.{MOST_STEPS};

    ghost Value = { PaintStand };

    ghost view = { λ s. record {
      lines = s.lines;
      wanted = s.wanted;
      shown = s.shown;
      last = s.last;
      left = s.left;
      opened = s.opened;
      lens = s.lens;
    } };

    ghost invariant = { λ s. ((if s.opened then s.shown + 1 else s.shown) ≤ MOST_STEPS) × ((s.left ≤ s.lines)
        × IfSome s.lens IsLensSize) };
}

impl Progress {
    ghost use Rattle.rh_pictures.specs.PaintedProgress.{stand_first, stand_shown};

    /// Before the first line.
    pub fn new(lens: Option<LensSize>) -> Progress
        requires { IfSome lens IsLensSize }
        ensures { result ≡ stand_first lens }
    {
        Progress {
            lines: 0,
            wanted: false,
            shown: 0,
            last: 0,
            left: 0,
            opened: false,
            lens,
        }
    }

    /// The lens through which areas are drawn, if there is one.
    pub fn lens(&self) -> Option<LensSize>
        ensures value { result ≡ self.now.lens }
        ensures size { IfSome result IsLensSize }
    {
        self.lens
    }

    /// How many lines are behind it.
    pub fn lines(&self) -> u32
        ensures { result ≡ self.now.lines }
    {
        self.lines
    }

    /// Whether a mark was seen since the last command.
    pub fn wanted(&self) -> bool
        ensures { result ≡ self.now.wanted }
    {
        self.wanted
    }

    /// The step that has the last figure, 0 for none.
    pub fn last(&self) -> u32
        ensures { result ≡ self.now.last }
    {
        self.last
    }

    /// How many commands are left out.
    pub fn left(&self) -> u32
        ensures { result ≡ self.now.left }
    {
        self.left
    }

    /// The step that comes next.
    pub fn next(&self) -> u32
        ensures value { result ≡ self.now.shown + 1 }
        ensures few { result ≤ MOST_STEPS + 1 }
    {
        self.shown + 1
    }

    /// Whether a remark has begun it.
    pub fn is_open(&self) -> bool
        ensures { result ≡ self.now.opened }
    {
        self.opened
    }

    /// How many steps were begun.
    pub fn begun(&self) -> u32
        ensures value { result ≡ (if self.now.opened then self.now.shown + 1 else self.now.shown) }
        ensures few { result ≤ MOST_STEPS }
    {
        if self.opened {
            self.shown + 1
        } else {
            self.shown
        }
    }

    /// Whether the next command is shown, where a mark was seen or not: on a sheet of all commands, or of marked ones.
    pub fn is_shown(&self, marked: bool, wanted: bool) -> bool
        ensures value { result ≡ (nat_lt self.now.shown MOST_STEPS && (not marked || wanted)) }
        ensures room { OnTrue result (self.now.shown < MOST_STEPS) }
    {
        (self.shown as usize) < MOST_STEPS && !and_not(marked, wanted)
    }

    /// Counts one more line: a mark was seen since the last command, or not.
    pub fn count_line(&mut self, wanted: bool)
        requires { self.old.lines + 1 < 2 ^ 32 }
        ensures next { self.new ≡ record self.old { lines = self.old.lines + 1; wanted = wanted } }
        ensures few { self.new.left < self.new.lines }
    {
        self.lines += 1;
        self.wanted = wanted;
    }

    /// Counts a command that is left out.
    pub fn leave_out(&mut self)
        requires { self.old.left < self.old.lines }
        ensures { self.new ≡ record self.old { left = self.old.left + 1 } }
    {
        self.left += 1;
    }

    /// The next step has begun.
    pub fn open(&mut self)
        requires { self.old.shown < MOST_STEPS }
        ensures { self.new ≡ record self.old { opened = true } }
    {
        self.opened = true;
    }

    /// The next step has been written, with a figure or without.
    pub fn end_step(&mut self, still: bool)
        requires { self.old.shown < MOST_STEPS }
        ensures { self.new ≡ stand_shown still self.old }
    {
        self.opened = false;
        self.shown += 1;
        if !still {
            self.last = self.shown;
        }
    }
}
