//! The arrow of a slide.

ghost use Rattle.std.specs.Prelude.{◌≡◌, ◌≤◌, ◌==◌, ◌++◌, flat_map, length};
ghost use Rattle.rh_defs.specs.declared.question.BlockItem.{BlockItem};
ghost use Rattle.rh_defs.specs.declared.sizes.TheConstants.{ANCHORS};
ghost use Rattle.rh_figure.specs.Changes.{item_with_anchor, slide_of};
ghost use Rattle.rh_figure.specs.Phrases.{where_so};
ghost use Rattle.rh_sheet.specs.Arrows.{slide_arrow};

use crate::walks::block_changes::find_slid;
use rh_defs::{BlockItem, Handle};
use rh_elements::{Slide, print_slide_arrow};
use rh_lines::Pen;
use rh_scene::Step;
use rh_sheet::Frame;

/// Writes the arrow of the slide of a task's blocks, if the command named the task and some slid.
pub fn print_arrow_of<P: Pen>(
    step: &Step<'_>,
    frame: Frame,
    handle: Handle,
    blocks: &[BlockItem],
    pen: &mut P,
)
    requires { length blocks.now ≤ ANCHORS }
    ensures { P.offered pen.new ≡ P.offered pen.old ++ where_so (handle == step.now.kept.now.handle)
        (slide_arrow frame (flat_map
        (λ (b : BlockItem). slide_of b (item_with_anchor b.anchor step.now.kept.now.blocks)) blocks.now)) }
{
    if handle != step.kept.handle() {
        return;
    }
    let Some(slid) = find_slid(step.kept, blocks) else {
        return;
    };
    let slide = Slide {
        from: slid.from,
        to: slid.to,
    };
    print_slide_arrow(frame, slide, pen);
}
