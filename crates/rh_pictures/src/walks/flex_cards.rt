//! The cards of a task's flex blocks.

ghost use Rattle.std.specs.Prelude.{◌≡◌, ◌≤◌, ◌<◌, ◌-◌, ◌++◌, ℕ, length, slice_get, take, Some};
ghost use Rattle.rh_defs.specs.Slot.{anchor_count};
ghost use Rattle.rh_defs.specs.Desk.{Desk, Task};
ghost use Rattle.rh_defs.specs.Questions.{block_items};
ghost use Rattle.rh_defs.specs.declared.question.BlockItem.{BlockItem};
ghost use Rattle.rh_pictures.specs.DrawnCards.{cards_text};
ghost use Rattle.rh_pictures.specs.Inner.CardsBehind.{place_behind, cards_behind};
ghost use Rattle.rh_figure.specs.Cards.{Card, flex_cards, shown_cards};
ghost use Rattle.rh_figure.specs.Layout.{is_fresh_flex as is_fresh_flex_in};
ghost use Rattle.rh_figure.specs.declared.limits.TheConstants.{MOST_CARDS};
ghost use Rattle.rh_scene.specs.Seen.{IsTaskSeen};
ghost use Rattle.rh_scene.specs.Steps.{scene_at};

use crate::artist::CardArtist;
use crate::walks::cards::{front_length, shown_count};
use crate::walks::usage::use_of_block;
use rh_defs::BlockItem;
use rh_figure::limits::{CARD_BYTES, MOST_CARDS};
use rh_lines::Pen;
use rh_map::CardBlock;
use rh_scene::{Sight, Step, TaskSight, is_fresh_flex};

/// Shows the cards of a task's flex blocks, from below.
pub fn show_flex_cards<S: Sight, A: CardArtist, P: Pen>(
    sight: &S,
    step: &Step<'_>,
    i: usize,
    task: &TaskSight<'_>,
    blocks: &[BlockItem],
    artist: &A,
    pen: &mut P,
)
    requires task { (t : Task) × (slice_get (S.desk sight.now).tasks i ≡ Some t) × IsTaskSeen task.now t
        × (blocks.now ≡ block_items t.slot) }
    requires few { length blocks.now ≤ anchor_count }
    requires room { A.has_room artist.now }
    ensures { (t : Task) → slice_get (S.desk sight.now).tasks i ≡ Some t →
        P.offered pen.new ≡ P.offered pen.old
        ++ cards_text (A.card_text artist.now) 0 (shown_cards (flex_cards (scene_at (S.desk sight.now) step.now) t)) }
{
    let shown = shown_count(blocks.len());
    show_first(sight, step, i, task, blocks, shown, artist, pen);
    if shown == blocks.len() {
        return;
    }
    show_behind(sight, step, i, task, blocks, artist, pen);
}

/// Shows the cards of the first blocks.
fn show_first<S: Sight, A: CardArtist, P: Pen>(
    sight: &S,
    step: &Step<'_>,
    i: usize,
    task: &TaskSight<'_>,
    blocks: &[BlockItem],
    shown: usize,
    artist: &A,
    pen: &mut P,
)
    requires task { (t : Task) × (slice_get (S.desk sight.now).tasks i ≡ Some t) × IsTaskSeen task.now t
        × (blocks.now ≡ block_items t.slot) }
    requires few { shown ≤ length blocks.now }
    requires most { shown ≤ MOST_CARDS }
    requires room { A.has_room artist.now }
    ensures { (t : Task) → slice_get (S.desk sight.now).tasks i ≡ Some t →
        P.offered pen.new ≡ P.offered pen.old
        ++ cards_text (A.card_text artist.now) 0 (take shown (flex_cards (scene_at (S.desk sight.now) step.now) t)) }
{
    for k in 0..shown {
        show_flex(sight, step, i, task, &blocks[k], artist, k as u32, pen);
    }
}

/// Shows the card of the first changed block of those behind the first 22, and how many are left out.
fn show_behind<S: Sight, A: CardArtist, P: Pen>(
    sight: &S,
    step: &Step<'_>,
    i: usize,
    task: &TaskSight<'_>,
    blocks: &[BlockItem],
    artist: &A,
    pen: &mut P,
)
    requires task { (t : Task) × (slice_get (S.desk sight.now).tasks i ≡ Some t) × IsTaskSeen task.now t
        × (blocks.now ≡ block_items t.slot) }
    requires many { 24 < length blocks.now }
    requires few { length blocks.now ≤ anchor_count }
    requires room { A.has_room artist.now }
    ensures { (t : Task) → slice_get (S.desk sight.now).tasks i ≡ Some t →
        P.offered pen.new ≡ P.offered pen.old
        ++ cards_text (A.card_text artist.now) (MOST_CARDS - 2)
        (cards_behind (flex_cards (scene_at (S.desk sight.now) step.now) t)) }
{
    let shown = MOST_CARDS - 2;
    let at = shown as u32;
    let behind = (blocks.len() - shown) as u32;
    match next_fresh(step, task, blocks, shown) {
        Some(k) => {
            show_flex(sight, step, i, task, &blocks[k], artist, at, pen);
            artist.others(at + 1, behind - 1, pen);
        }
        None => artist.others(at, behind, pen),
    }
}

/// The first block from the kth on that the command has changed.
fn next_fresh(
    step: &Step<'_>,
    task: &TaskSight<'_>,
    blocks: &[BlockItem],
    from: usize,
) -> Option<usize>
    requires { from ≤ length blocks.now }
    ensures { (d : Desk) → result ≡ place_behind (λ (b : BlockItem). is_fresh_flex_in
        (scene_at d step.now) task.now.handle b.anchor b.size) from blocks.now }
{
    for k in from..blocks.len() {
        let block = &blocks[k];
        if is_fresh_flex(step, task.handle, block.anchor, block.size) {
            return Some(k);
        }
    }
    None
}

/// Shows the card of a block of a task, as card `at` of those that are shown.
fn show_flex<S: Sight, A: CardArtist, P: Pen>(
    sight: &S,
    step: &Step<'_>,
    i: usize,
    task: &TaskSight<'_>,
    block: &BlockItem,
    artist: &A,
    at: u32,
    pen: &mut P,
)
    requires block { (t : Task) × (k : ℕ) × (slice_get (S.desk sight.now).tasks i ≡ Some t) × IsTaskSeen task.now t
        × (slice_get (block_items t.slot) k ≡ Some block.now) }
    requires few { at < MOST_CARDS }
    requires room { A.has_room artist.now }
    ensures { (t : Task) (k : ℕ) (c : Card) → slice_get (S.desk sight.now).tasks i ≡ Some t →
        slice_get (block_items t.slot) k ≡ Some block.now →
        slice_get (flex_cards (scene_at (S.desk sight.now) step.now) t) k ≡ Some c →
        P.offered pen.new ≡ P.offered pen.old ++ A.card_text artist.now (at, c) }
{
    let mut front = [0; CARD_BYTES];
    let bytes = &mut front[..front_length(block.size)];
    sight.read_block(i, block, bytes);
    let card = CardBlock {
        address: block.address,
        size: block.size,
        front: bytes,
        usage: use_of_block(task.sending, task.taking, block.anchor),
        fresh: is_fresh_flex(step, task.handle, block.anchor, block.size),
    };
    artist.flex_card(at, block.anchor, &card, pen);
}
