//! What has changed of the flex blocks of the task that the command names.

ghost use Rattle.std.specs.Prelude.{◌≡◌, ◌≤◌, ◌<◌, [], ◌∷◌, ◌++◌, IfSome, List, filter, flat_map, if◌then◌else◌};
ghost use Rattle.std.specs.Prelude.{length, map, not};
ghost use Rattle.rh_defs.specs.Desk.{task_at};
ghost use Rattle.rh_defs.specs.declared.question.BlockItem.{BlockItem};
ghost use Rattle.rh_defs.specs.declared.sizes.TheConstants.{ANCHORS};
ghost use Rattle.rh_pictures.specs.DrawnSlides.{summary_of};
ghost use Rattle.rh_pictures.specs.Inner.SlidesSeen.{from_seen, with_one};
ghost use Rattle.rh_figure.specs.Changes.{Slide, block_change, block_changes, gone_line, has_anchor as has_anchor_in};
ghost use Rattle.rh_figure.specs.Changes.{item_with_anchor, slide_change, slide_of, slides};
ghost use Rattle.rh_scene.specs.Steps.{scene_at};

use crate::artist::Artist;
use arrayvec::ArrayVec;
use rh_defs::BlockItem;
use rh_defs::sizes::ANCHORS;
use rh_lines::Pen;
use rh_map::{block_gone, block_new, block_resized, blocks_slide};
use rh_scene::{Kept, Sight, Step, task_with};

/// Shows which blocks of the named task are gone, are new or have another size, and how those that lie elsewhere
/// slid.
pub fn show_block_changes<S: Sight, A: Artist, P: Pen>(
    sight: &S,
    step: &Step<'_>,
    blocks: &mut ArrayVec<BlockItem, ANCHORS>,
    artist: &A,
    pen: &mut P,
)
    ensures { let x = scene_at (S.desk sight.now) step.now in
        P.offered pen.new ≡ P.offered pen.old
        ++ flat_map A.change_text (block_changes x (task_at x.before.handle x.desk) ++ slide_change (slides x)) }
{
    let Some(i) = task_with(sight, step.kept.handle()) else {
        return;
    };
    sight.blocks(i, blocks);
    show_gone(step.kept.blocks(), blocks, artist, pen);
    show_now(step.kept, blocks, artist, pen);
    show_slides(step.kept, blocks, artist, pen);
}

/// Shows which of the blocks before are gone.
fn show_gone<A: Artist, P: Pen>(before: &[BlockItem], now: &[BlockItem], artist: &A, pen: &mut P)
    ensures { P.offered pen.new ≡ P.offered pen.old
        ++ flat_map A.change_text (map (λ (b : BlockItem). gone_line b.anchor)
        (filter (λ (b : BlockItem). not (has_anchor_in b.anchor now.now)) before.now)) }
{
    for block in before {
        show_if_gone(now, block, artist, pen);
    }
}

/// Shows that a block is gone, if none of those now has its anchor.
fn show_if_gone<A: Artist, P: Pen>(now: &[BlockItem], block: &BlockItem, artist: &A, pen: &mut P)
    ensures { P.offered pen.new ≡ P.offered pen.old
        ++ flat_map A.change_text
        (if has_anchor_in block.now.anchor now.now then [] else gone_line block.now.anchor ∷ []) }
{
    if has_anchor(now, block) {
        return;
    }
    artist.change(&block_gone(block.anchor), pen);
}

/// Whether one of the blocks has the anchor of this one.
pub fn has_anchor(blocks: &[BlockItem], block: &BlockItem) -> bool
    ensures { result ≡ has_anchor_in block.now.anchor blocks.now }
{
    blocks.iter().any(|other| other.anchor == block.anchor)
}

/// Shows which of the blocks are new, and which had another size.
fn show_now<A: Artist, P: Pen>(kept: &Kept, blocks: &[BlockItem], artist: &A, pen: &mut P)
    ensures { P.offered pen.new ≡ P.offered pen.old
        ++ flat_map A.change_text (flat_map (λ (b : BlockItem). block_change b
        (item_with_anchor b.anchor kept.now.blocks)) blocks.now) }
{
    for block in blocks {
        show_block_change(kept, block, artist, pen);
    }
}

/// Shows that a block is new, or had another size, where it is so.
fn show_block_change<A: Artist, P: Pen>(kept: &Kept, block: &BlockItem, artist: &A, pen: &mut P)
    ensures { P.offered pen.new ≡ P.offered pen.old
        ++ flat_map A.change_text (block_change block.now (item_with_anchor block.now.anchor kept.now.blocks)) }
{
    match kept.block(block.anchor) {
        None => artist.change(&block_new(block.anchor, block.size, block.address), pen),
        Some(old) if old.size != block.size => {
            artist.change(&block_resized(block.anchor, old.size, block.size), pen);
        }
        Some(_) => {}
    }
}

/// Blocks that slid: how many, and from where to where the lowest of them.
#[derive(Clone, Copy)]
pub struct Slid {
    pub count: u32,
    pub from: u32,
    pub to: u32,
}

/// Shows how the blocks slid, if some did.
fn show_slides<A: Artist, P: Pen>(kept: &Kept, blocks: &[BlockItem], artist: &A, pen: &mut P)
    requires { length blocks.now ≤ ANCHORS }
    ensures { P.offered pen.new ≡ P.offered pen.old
        ++ flat_map A.change_text (slide_change (flat_map (λ (b : BlockItem). slide_of b
        (item_with_anchor b.anchor kept.now.blocks)) blocks.now)) }
{
    if let Some(slid) = find_slid(kept, blocks) {
        artist.change(&blocks_slide(slid.count, slid.from, slid.to), pen);
    }
}

/// The blocks that lie elsewhere now, if there are some.
pub fn find_slid(kept: &Kept, blocks: &[BlockItem]) -> Option<Slid>
    requires { length blocks.now ≤ ANCHORS }
    ensures { result ≡ summary_of (flat_map
        (λ (b : BlockItem). slide_of b (item_with_anchor b.anchor kept.now.blocks)) blocks.now) }
{
    let mut found = None;
    for block in blocks {
        found = with_block(found, kept, block);
    }
    found
}

/// The blocks that were found, and this one if it lies elsewhere now.
fn with_block(found: Option<Slid>, kept: &Kept, block: &BlockItem) -> Option<Slid>
    requires { IfSome found (λ slid. slid.count < ANCHORS) }
    ensures { (slides : List Slide) → found ≡ summary_of slides → result
        ≡ summary_of (slides ++ slide_of block.now (item_with_anchor block.now.anchor kept.now.blocks)) }
{
    match slid_from(kept, block) {
        Some(from) => Some(one_more(found, from, block.address)),
        None => found,
    }
}

/// Where a block lay that lies elsewhere now.
fn slid_from(kept: &Kept, block: &BlockItem) -> Option<u32>
    ensures { from_seen result block.now.address ≡ slide_of block.now
        (item_with_anchor block.now.anchor kept.now.blocks) }
{
    let old = kept.block(block.anchor)?;
    if old.address == block.address {
        return None;
    }
    Some(old.address)
}

/// The blocks that slid, with one more above them.
fn one_more(found: Option<Slid>, from: u32, to: u32) -> Slid
    requires { IfSome found (λ slid. slid.count < ANCHORS) }
    ensures { result ≡ with_one found from to }
{
    match found {
        Some(slid) => Slid {
            count: slid.count + 1,
            from: slid.from,
            to: slid.to,
        },
        None => Slid { count: 1, from, to },
    }
}
