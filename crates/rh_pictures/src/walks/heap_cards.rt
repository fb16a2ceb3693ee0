//! The cards of a heap's blocks and holes, and of messages.

ghost use Rattle.std.specs.Prelude.{◌≡◌, ◌≤◌, ◌<◌, ◌+◌, ◌-◌, ◌^◌, ◌==◌, ◌&&◌, ◌++◌, ℕ, IfSome, List, find};
ghost use Rattle.std.specs.Prelude.{if◌then◌else◌, length, nat_le, take, None, Some};
ghost use Rattle.std.specs.List.{AllByRecursion};
ghost use Rattle.rh_defs.specs.Desk.{Desk};
ghost use Rattle.rh_defs.specs.Heap.{Segment};
ghost use Rattle.rh_defs.specs.Questions.{segment_item};
ghost use Rattle.rh_defs.specs.Messages.{Parcel};
ghost use Rattle.rh_defs.specs.Records.{is_buffer_of};
ghost use Rattle.rh_defs.specs.declared.sizes.TheConstants.{MODULE_START};
ghost use Rattle.rh_pictures.specs.Bands.{IsBandOf, band_card, band_cards};
ghost use Rattle.rh_pictures.specs.Inner.Surveys.{IsSurvey, is_fresh_card, is_fresh_used, with_item, with_items};
ghost use Rattle.rh_pictures.specs.Inner.BandItems.{place_seen, HasSegment, IsItemOf};
ghost use Rattle.rh_pictures.specs.DrawnCards.{cards_text};
ghost use Rattle.rh_pictures.specs.Inner.CardsBehind.{cards_behind};
ghost use Rattle.rh_figure.specs.Cards.{hole_card, in_use_text, post_card, shown_cards, used_card};
ghost use Rattle.rh_figure.specs.Layout.{vacates};
ghost use Rattle.rh_figure.specs.Scene.{live};
ghost use Rattle.rh_figure.specs.declared.limits.TheConstants.{MOST_CARDS};
ghost use Rattle.rh_map.specs.MapMessages.{place_text};
ghost use Rattle.rh_scene.specs.SightMessages.{lies_in};
ghost use Rattle.rh_scene.specs.Seen.{SeesBlock, SeesFree, handle_for, heap_seen, heap_start_of};
ghost use Rattle.rh_scene.specs.Steps.{IsStepOf, scene_at};
ghost use Rattle.rh_scene.specs.Inner.WalkItems.{IsInArea};

use crate::artist::CardArtist;
use crate::walks::cards::{front_length, shown_count};
use crate::walks::usage::use_of_buffer;
use crate::who::who_of;
use rh_defs::sizes::{HEAP_FIRST, MODULE_START, WORD};
use rh_defs::{Handle, Incoming, MessageItem, SegmentItem};
use rh_figure::limits::{CARD_BYTES, MOST_CARDS};
use rh_lines::Pen;
use rh_map::{CardBlock, CardMessage, ChainPlace};
use rh_scene::{
    HeapOf, MessagePlace, Sight, Step, heap_address, is_fresh_block, is_new_ref, is_vacated,
    message_in, place_behind, place_of,
};

/// A heap whose blocks have cards, with the handle of its task and the records of its transfers that come in; 0 and
/// none for the module area's.
#[derive(Clone, Copy)]
pub struct Band<'a> {
    pub heap: HeapOf,
    pub handle: Handle,
    pub taking: &'a [Incoming],
}

/// What a first walk over a heap finds: how many segments there are, and which is the first changed one behind those
/// that are shown anyway.
#[derive(Clone, Copy)]
pub struct Survey {
    pub count: u32,
    pub fresh: Option<SegmentItem>,
}

/// Shows the cards of a heap's segments, from below.
pub fn show_heap_cards<S: Sight, A: CardArtist, P: Pen>(
    sight: &S,
    step: &Step<'_>,
    band: &Band<'_>,
    artist: &A,
    pen: &mut P,
)
    requires step { IsStepOf (S.desk sight.now) step.now }
    requires band { IsBandOf (S.desk sight.now) band.now }
    requires room { A.has_room artist.now }
    ensures { IfSome (heap_seen band.now.heap (S.desk sight.now)) (λ h. P.offered pen.new ≡ P.offered pen.old
        ++ cards_text (A.card_text artist.now) 0 (shown_cards (band_cards (scene_at (S.desk sight.now) step.now)
        (S.desk sight.now) band.now h))) }
{
    sight.recall_desk();
    let survey = take_survey(sight, step, band);
    let shown = shown_count(survey.count as usize);
    show_first(sight, step, band, shown, artist, pen);
    if shown == survey.count as usize {
        return;
    }
    show_behind(sight, step, band, &survey, artist, pen);
}

/// Shows the cards of the first segments.
fn show_first<S: Sight, A: CardArtist, P: Pen>(
    sight: &S,
    step: &Step<'_>,
    band: &Band<'_>,
    shown: usize,
    artist: &A,
    pen: &mut P,
)
    requires step { IsStepOf (S.desk sight.now) step.now }
    requires band { IsBandOf (S.desk sight.now) band.now }
    requires few { shown ≤ MOST_CARDS }
    requires there { IfSome (heap_seen band.now.heap (S.desk sight.now)) (λ h. shown ≤ length h.segments) }
    requires room { A.has_room artist.now }
    ensures { IfSome (heap_seen band.now.heap (S.desk sight.now)) (λ h. P.offered pen.new ≡ P.offered pen.old
        ++ cards_text (A.card_text artist.now) 0 (take shown (band_cards (scene_at (S.desk sight.now) step.now)
        (S.desk sight.now) band.now h))) }
{
    let items = sight.segments(band.heap, HEAP_FIRST as u32);
    let first = items.as_slice();
    for k in 0..shown {
        show_segment(sight, step, band, &first[k], artist, k as u32, pen);
    }
}

/// Shows the card of the first changed segment of those behind the first 22, and how many are left out.
fn show_behind<S: Sight, A: CardArtist, P: Pen>(
    sight: &S,
    step: &Step<'_>,
    band: &Band<'_>,
    survey: &Survey,
    artist: &A,
    pen: &mut P,
)
    requires step { IsStepOf (S.desk sight.now) step.now }
    requires band { IsBandOf (S.desk sight.now) band.now }
    requires many { MOST_CARDS < survey.now.count }
    requires few { survey.now.count < 2 ^ 32 }
    requires survey { IfSome (heap_seen band.now.heap (S.desk sight.now)) (λ h. IsSurvey (scene_at
        (S.desk sight.now) step.now) band.now h survey.now) }
    requires room { A.has_room artist.now }
    ensures { IfSome (heap_seen band.now.heap (S.desk sight.now)) (λ h. P.offered pen.new ≡ P.offered pen.old
        ++ cards_text (A.card_text artist.now) (MOST_CARDS - 2) (cards_behind (band_cards
        (scene_at (S.desk sight.now) step.now) (S.desk sight.now) band.now h))) }
{
    let at = MOST_CARDS as u32 - 2;
    let behind = survey.count - at;
    match survey.fresh {
        Some(item) => {
            show_segment(sight, step, band, &item, artist, at, pen);
            artist.others(at + 1, behind - 1, pen);
        }
        None => artist.others(at, behind, pen),
    }
}

/// Counts the segments of a heap, and finds the first changed one that isn't shown anyway where there are too many.
fn take_survey<S: Sight>(sight: &S, step: &Step<'_>, band: &Band<'_>) -> Survey
    requires step { IsStepOf (S.desk sight.now) step.now }
    requires band { IsBandOf (S.desk sight.now) band.now }
    ensures { IfSome (heap_seen band.now.heap (S.desk sight.now))
        (λ h. IsSurvey (scene_at (S.desk sight.now) step.now) band.now h result) }
{
    sight.recall_desk();
    let mut place = HEAP_FIRST as u32;
    let mut survey = Survey {
        count: 0,
        fresh: None,
    };
    let mut items = sight.segments(band.heap, place);
    'places: while let Some(last) = items.last() {
        survey = surveyed(step, band, &items, survey);
        place = place_behind(band.heap, last);
        items = sight.segments(band.heap, place);
    }
    survey
}

/// The survey with more segments.
fn surveyed(step: &Step<'_>, band: &Band<'_>, items: &[SegmentItem], mut survey: Survey) -> Survey
    requires few { survey.count + length items.now < 2 ^ 32 }
    requires items { AllByRecursion (IsInArea band.now.heap) items.now }
    ensures { (d : Desk) → IsStepOf d step.now → result ≡ with_items (is_fresh_card
        (scene_at d step.now) band.now) items.now survey }
{
    for item in items {
        survey = noted(step, band, item, survey);
    }
    survey
}

/// The survey with one more segment.
fn noted(step: &Step<'_>, band: &Band<'_>, item: &SegmentItem, survey: Survey) -> Survey
    requires few { survey.count + 1 < 2 ^ 32 }
    requires item { IsInArea band.now.heap item.now }
    ensures count { result.count ≡ survey.count + 1 }
    ensures survey { (d : Desk) → IsStepOf d step.now → result
        ≡ with_item item.now (is_fresh_card (scene_at d step.now) band.now item.now) survey }
{
    let count = survey.count + 1;
    match survey.fresh {
        Some(found) => Survey {
            count,
            fresh: Some(found),
        },
        None => Survey {
            count,
            fresh: first_fresh(step, band, item, survey.count),
        },
    }
}

/// The segment, if the command has changed it and so many are below it that it isn't shown anyway.
fn first_fresh(
    step: &Step<'_>,
    band: &Band<'_>,
    item: &SegmentItem,
    below: u32,
) -> Option<SegmentItem>
    requires { IsInArea band.now.heap item.now }
    ensures { (d : Desk) → IsStepOf d step.now → result ≡ (if nat_le (MOST_CARDS - 2) below && is_fresh_card
        (scene_at d step.now) band.now item.now then Some item.now else None) }
{
    if (below as usize) < MOST_CARDS - 2 || !is_fresh(step, band, item) {
        return None;
    }
    Some(*item)
}

/// Whether the block that the command released, or moved away, lay among the bytes of a hole.
fn is_vacated_in(step: &Step<'_>, band: &Band<'_>, address: u32, size: u32) -> bool
    ensures { (d : Desk) → result
        ≡ vacates (handle_for band.now.heap band.now.handle) address size (scene_at d step.now).marks.heap_effect }
{
    is_vacated(step, band.heap, band.handle, address, size)
}

/// Whether the command has changed the block or the hole that a segment is.
fn is_fresh(step: &Step<'_>, band: &Band<'_>, item: &SegmentItem) -> bool
    requires { IsInArea band.now.heap item.now }
    ensures { (d : Desk) → IsStepOf d step.now → result ≡ is_fresh_card (scene_at d step.now) band.now item.now }
{
    match item {
        SegmentItem::Hole { address, size } => is_vacated_in(step, band, *address, *size),
        SegmentItem::Used { address, .. } => match band.heap {
            HeapOf::Task(_) => is_fresh_block(step, band.handle, *address),
            HeapOf::Module => match message_at(step, *address) {
                Some(message) => is_new_ref(step, message.my_ref),
                None => step.marks.module_block == *address,
            },
        },
    }
}

/// The message in the block of the module area at an address.
fn message_at(step: &Step<'_>, address: u32) -> Option<MessageItem>
    requires { MODULE_START ≤ address }
    ensures { result ≡ find (lies_in (address - MODULE_START)) step.now.messages.now }
{
    message_in(step.messages, address - MODULE_START as u32)
}

/// Shows a segment as card `at` of those that are shown.
fn show_segment<S: Sight, A: CardArtist, P: Pen>(
    sight: &S,
    step: &Step<'_>,
    band: &Band<'_>,
    item: &SegmentItem,
    artist: &A,
    at: u32,
    pen: &mut P,
)
    requires step { IsStepOf (S.desk sight.now) step.now }
    requires band { IsBandOf (S.desk sight.now) band.now }
    requires segment { (place : ℕ) × (segment : Segment)
        × HasSegment (heap_seen band.now.heap (S.desk sight.now)) place segment
        × (item.now ≡ segment_item (heap_start_of band.now.heap + place) segment) }
    requires few { at < MOST_CARDS }
    requires room { A.has_room artist.now }
    ensures { (place : ℕ) (segment : Segment) →
        HasSegment (heap_seen band.now.heap (S.desk sight.now)) place segment →
        item.now ≡ segment_item (heap_start_of band.now.heap + place) segment →
        P.offered pen.new ≡ P.offered pen.old ++ A.card_text artist.now (
          at,
          band_card (scene_at (S.desk sight.now) step.now) (S.desk sight.now) band.now
              (heap_start_of band.now.heap + place) segment,
        ) }
{
    sight.recall_desk();
    match item {
        SegmentItem::Hole { address, size } => {
            let fresh = is_vacated_in(step, band, *address, *size);
            artist.hole_card(at, *address, *size, fresh, pen);
        }
        SegmentItem::Used { address, size } => match band.heap {
            HeapOf::Task(_) => show_used(sight, step, band, *address, *size, artist, at, pen),
            HeapOf::Module => match message_at(step, *address) {
                Some(message) => show_message(sight, step, &message, artist, at, pen),
                None => show_used(sight, step, band, *address, *size, artist, at, pen),
            },
        },
    }
}

/// Shows the card of a block that is no message.
fn show_used<S: Sight, A: CardArtist, P: Pen>(
    sight: &S,
    step: &Step<'_>,
    band: &Band<'_>,
    address: u32,
    size: u32,
    artist: &A,
    at: u32,
    pen: &mut P,
)
    requires start { heap_start_of band.now.heap + 4 ≤ address }
    requires block { (bytes : List ℕ)
        × SeesBlock (heap_seen band.now.heap (S.desk sight.now)) (address - heap_start_of band.now.heap - 4) bytes
        × (length bytes ≡ size) }
    requires free { SeesFree band.now.heap (address - heap_start_of band.now.heap - 4) (S.desk sight.now) }
    requires few { at < MOST_CARDS }
    requires room { A.has_room artist.now }
    ensures { (d : Desk) (bytes : List ℕ) → IsStepOf d step.now →
        SeesBlock (heap_seen band.now.heap (S.desk sight.now)) (address - heap_start_of band.now.heap - 4) bytes →
        length bytes ≡ size →
        P.offered pen.new ≡ P.offered pen.old ++ A.card_text artist.now (
          at,
          used_card address bytes (in_use_text (find (is_buffer_of address) band.now.taking.now))
              (is_fresh_used (scene_at d step.now) band.now address),
        ) }
{
    let mut front = [0; CARD_BYTES];
    let bytes = &mut front[..front_length(size)];
    let place = address - WORD as u32 - heap_address(band.heap);
    sight.read_heap(band.heap, place, bytes);
    let card = CardBlock {
        address,
        size,
        front: bytes,
        usage: use_of_buffer(band.taking, address),
        fresh: is_changed(step, band, address),
    };
    artist.used_card(at, &card, pen);
}

/// Whether the command has changed a block that is no message.
fn is_changed(step: &Step<'_>, band: &Band<'_>, address: u32) -> bool
    ensures { (d : Desk) → result ≡ is_fresh_used (scene_at d step.now) band.now address }
{
    match band.heap {
        HeapOf::Task(_) => is_fresh_block(step, band.handle, address),
        HeapOf::Module => step.marks.module_block == address,
    }
}

/// Shows the card of a message.
fn show_message<S: Sight, A: CardArtist, P: Pen>(
    sight: &S,
    step: &Step<'_>,
    message: &MessageItem,
    artist: &A,
    at: u32,
    pen: &mut P,
)
    requires step { IsStepOf (S.desk sight.now) step.now }
    requires few { at < MOST_CARDS }
    requires room { A.has_room artist.now }
    ensures { (p : Parcel) →
        find (λ (q : Parcel). q.block == p.block) (live (scene_at (S.desk sight.now) step.now)) ≡ Some p →
        IsItemOf message.now p →
        P.offered pen.new ≡ P.offered pen.old
        ++ A.card_text artist.now (at, post_card (scene_at (S.desk sight.now) step.now) p) }
{
    sight.recall_desk();
    let place = chain_place(place_of(step.messages, *message));
    let fresh = is_new_ref(step, message.my_ref);
    let sender = who_of(sight, message.from);
    let receiver = who_of(sight, message.to);
    let card = CardMessage {
        my_ref: message.my_ref,
        action: message.action,
        code: message.code,
        from: sender,
        to: receiver,
        place,
        fresh,
    };
    artist.message_card(at, &card, pen);
}

/// A message's place, as a card has it.
fn chain_place(place: MessagePlace) -> ChainPlace
    ensures { place_text result ≡ place_seen place }
{
    match place {
        MessagePlace::Held => ChainPlace::Held,
        MessagePlace::Before(next) => ChainPlace::Before(next),
        MessagePlace::Last => ChainPlace::Last,
    }
}
