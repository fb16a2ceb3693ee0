//! What the program is asked to do.

ghost use Rattle.std.specs.Prelude.{◌≤◌, IfSome};
ghost use Rattle.std.proofs.Props.{props};
ghost use Rattle.rh_defs.specs.declared.sizes.TheConstants.{MAX_PAGES, MIN_PAGES};
ghost use Rattle.rh_desk.specs.ShownLens.{lens_size};
ghost use Rattle.rh_pictures.specs.LensSizes.{IsLensSize};

use rh_pictures::SheetForm;

/// What is written of a script: the replies, the explanations of what went wrong, or a map or a sheet of all steps or
/// of marked ones alone, with areas through a lens or at true scale.
#[derive(Clone, Copy)]
pub enum Shown {
    Replies,
    Explanations,
    Map { marked: bool },
    Sheet { form: SheetForm },
}

/// A run that is asked for: of a script over so many pages, with files, and what is written of it.
#[derive(Clone, Copy)]
pub struct RunRequest<'m, 'a> {
    pub pages: u32,
    pub script: &'a str,
    pub files: &'m [&'a str],
    pub shown: Shown,
    ghost fewest: { MIN_PAGES ≤ pages },
    ghost most: { pages ≤ MAX_PAGES },
    ghost drawable: { IfSome (lens_size shown) IsLensSize } by { Prim.hlevel props },
}

/// What the bytes of a file are to be.
#[derive(Clone, Copy, Debug, PartialEq, Eq)]
pub enum ImageKind {
    Heap,
    Slot,
}

/// What the words ask for.
pub enum Request<'m, 'a> {
    /// To run a script.
    Run(RunRequest<'m, 'a>),
    /// To say whether the bytes of a file are of this kind.
    Check { kind: ImageKind, file: &'a str },
}
