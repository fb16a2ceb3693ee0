//! The lens of the module area.

ghost use Rattle.std.specs.Prelude.{◌≡◌, ◌++◌, ℕ};
ghost use Rattle.rh_defs.specs.Messages.{Parcel};
ghost use Rattle.rh_figure.specs.declared.piece.Kind.TheVariants.{Claimed, Posted};
ghost use Rattle.rh_lens.specs.Items.{bare, message_lines, module_item};
ghost use Rattle.rh_lens.specs.Lens.{module_lens};
ghost use Rattle.rh_lens.specs.ToldInside.{IsTold, lines_of};
ghost use Rattle.rh_pictures.specs.Inner.BandItems.{IsItemOf};
ghost use Rattle.rh_pictures.specs.LensContents.{IsModulePiece};
ghost use Rattle.rh_pictures.specs.LensSizes.{IsLensSize};
ghost use Rattle.rh_scene.specs.Steps.{IsStepOf, scene_at};

use crate::lens::fronts::{read_claimed, tell_nothing};
use crate::lens::size::LensSize;
use crate::lists::Lists;
use crate::who::who_of;
use rh_defs::MessageItem;
use rh_defs::sizes::{MODULE_AREA, WORD};
use rh_figure::{Kind, Piece};
use rh_lens::{Contents, Inside, ModuleView, Words, print_module_lens};
use rh_lines::{Pen, Row};
use rh_map::{message_name, message_way};
use rh_scene::{HeapOf, PagesOf, Sight, Step, message_in, module_pieces, pages_of};

/// What tells of the pieces of the module area.
#[derive(Drop)]
struct ModuleContents<'a, S> {
    sight: &'a S,
    step: &'a Step<'a>,
}

impl<S: Sight> Contents for ModuleContents<'_, S> {
    ghost use Rattle.rh_lens.specs.Items.{module_item};
    ghost use Rattle.rh_pictures.specs.LensContents.{IsModulePiece};
    ghost use Rattle.rh_scene.specs.Steps.{IsStepOf, scene_at};

    ghost item = { λ c p. module_item (scene_at (S.desk c.sight.now) c.step.now) p };

    ghost has_piece = { λ c p. IsStepOf (S.desk c.sight.now) c.step.now
        × IsModulePiece (scene_at (S.desk c.sight.now) c.step.now) p };

    fn recall_items(&self) {}

    fn tell(&self, piece: &Piece, inside: &mut Inside) {
        tell_nothing(inside);
        match piece.kind {
            Kind::Posted { .. } => self.tell_message(piece, inside),
            Kind::Claimed { size } => self.tell_block(piece, size, inside),
            _ => {}
        }
    }
}

impl<S: Sight> ModuleContents<'_, S> {
    /// Tells of a message.
    fn tell_message(&self, piece: &Piece, inside: &mut Inside)
        requires step { IsStepOf (S.desk self.now.sight.now) self.now.step.now }
        requires piece { IsModulePiece (scene_at (S.desk self.now.sight.now) self.now.step.now) piece.now }
        requires kind { (ref : ℕ) × (piece.now.kind ≡ Posted ref) }
        requires nothing { IsTold inside.old piece.now (bare piece.now) }
        ensures { IsTold inside.new piece.now
            (module_item (scene_at (S.desk self.now.sight.now) self.now.step.now) piece.now) }
    {
        self.sight.recall_desk();
        let place = (piece.at + WORD) as u32;
        if let Some(message) = message_in(self.step.messages, place) {
            inside.message = self.message_words(&message);
        }
    }

    /// Tells of a block that is no message.
    fn tell_block(&self, piece: &Piece, size: u32, inside: &mut Inside)
        requires step { IsStepOf (S.desk self.now.sight.now) self.now.step.now }
        requires piece { IsModulePiece (scene_at (S.desk self.now.sight.now) self.now.step.now) piece.now }
        requires kind { piece.now.kind ≡ Claimed size }
        requires nothing { IsTold inside.old piece.now (bare piece.now) }
        ensures { IsTold inside.new piece.now
            (module_item (scene_at (S.desk self.now.sight.now) self.now.step.now) piece.now) }
    {
        self.sight.recall_desk();
        let place = piece.at as u32;
        read_claimed(self.sight, HeapOf::Module, place, size, &mut inside.bytes);
    }

    /// The lines of a message.
    fn message_words(&self, message: &MessageItem) -> Words
        requires { IsStepOf (S.desk self.now.sight.now) self.now.step.now }
        ensures { (p : Parcel) → IsItemOf message.now p →
            lines_of result ≡ message_lines (scene_at (S.desk self.now.sight.now) self.now.step.now) p }
    {
        let sender = who_of(self.sight, message.from);
        let receiver = who_of(self.sight, message.to);
        let mut code = Row::new();
        code.text(b"code ");
        code.decimal(message.code.number());
        Words {
            first: message_name(message.my_ref, message.action),
            second: message_way(message.code, &sender, &receiver),
            third: code,
        }
    }
}

/// Writes the lens of the module area.
pub fn print_lens_of_module<S: Sight, P: Pen>(
    sight: &S,
    step: &Step<'_>,
    size: LensSize,
    lists: &mut Lists,
    pen: &mut P,
)
    requires step { IsStepOf (S.desk sight.now) step.now }
    requires size { IsLensSize size }
    ensures { P.offered pen.new ≡ P.offered pen.old
        ++ module_lens (scene_at (S.desk sight.now) step.now) size.width size.scale }
{
    sight.recall_desk();
    module_pieces(sight, step, &mut lists.pieces);
    let view = ModuleView {
        pages: pages_of(sight, step.pages, PagesOf::Fixed(MODULE_AREA)),
        pieces: &lists.pieces,
    };
    let contents = ModuleContents { sight, step };
    print_module_lens(&contents, &view, size.width, size.scale, pen);
}
