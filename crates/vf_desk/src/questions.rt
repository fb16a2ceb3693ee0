//! The questions: they leave the desk as it is, and list what they are asked for.
ghost use Rattle.std.specs.Prelude.{◌≡◌, Option, length, map};
ghost use Rattle.vf_desk.specs.Console.{filled_front};
ghost use Rattle.rh_defs.specs.Desk.{Desk};
ghost use Rattle.rh_defs.specs.declared.command.Command.TheVariants as Command;
ghost use Rattle.rh_defs.specs.declared.question.Question.TheVariants as Question;
ghost use Rattle.vf_desk.specs.CallOutcome.{Asks, called, done_or, in_form, number_or, sums_or};
ghost use Rattle.vf_desk.specs.DeskItems.{as_area, areas_listed, as_block, blocks_listed, bytes_listed, incoming_in};
ghost use Rattle.vf_desk.specs.DeskItems.{list_asked, outgoing_in, record_of, as_segment, segments_listed};
ghost use Rattle.vf_desk.specs.SeenDesk.{IsSeenDesk};

use crate::desk::VfDesk;
use crate::forms;
use crate::items::{VfArea, VfBlock, VfHeapSums, VfRecord, VfSegment};
use rh_defs::Question;
use std::alloc::Global;

/// Tells the size of the anchor's block, and fills `to` with its first bytes. (flex_size.)
#[unsafe(no_mangle)]
pub extern "C" fn vf_desk_show(
    alloc: Global,
    desk: &mut VfDesk,
    name: &[u8],
    anchor: u32,
    to: &mut [u8],
    size: &mut u32,
) -> u32
    ensures asks { Asks (Question.Show name.now anchor) desk.old desk.new result }
    ensures size { (s : Option Desk) → IsSeenDesk desk.old s →
        size.new ≡ number_or (called s (in_form (Command.Ask (Question.Show name.now anchor)))) size.old }
    ensures bytes { (s : Option Desk) → IsSeenDesk desk.old s →
        to.new ≡ filled_front (bytes_listed (list_asked s (Question.Show name.now anchor))) to.old }
{
    let called = desk.step(alloc, &forms::show(name, anchor));
    let Some(open_desk) = desk.take(alloc) else {
        return called.status();
    };
    open_desk.bytes(name, anchor, to);
    desk.put(open_desk);
    called.give_number(size)
}

/// Lists the task's flex blocks from below, and tells how many there are.
#[unsafe(no_mangle)]
pub extern "C" fn vf_desk_blocks(
    alloc: Global,
    desk: &mut VfDesk,
    name: &[u8],
    blocks: &mut [VfBlock],
    count: &mut usize,
) -> u32
    ensures asks { Asks (Question.Blocks name.now) desk.old desk.new result }
    ensures list { (s : Option Desk) → IsSeenDesk desk.old s →
        blocks.new ≡ filled_front (map as_block (blocks_listed (list_asked s (Question.Blocks name.now)))) blocks.old }
    ensures count { (s : Option Desk) → IsSeenDesk desk.old s →
        count.new ≡ done_or (called s (in_form (Command.Ask (Question.Blocks name.now))))
        (length (blocks_listed (list_asked s (Question.Blocks name.now)))) count.old }
{
    let called = desk.step(alloc, &forms::blocks(name));
    let Some(open_desk) = desk.take(alloc) else {
        return called.status();
    };
    let n = open_desk.blocks(name, blocks);
    desk.put(open_desk);
    called.give_count(n, count)
}

/// Tells the sums over the task's C heap, lists its segments from below, and tells how many there are. (OS_Heap 1.)
#[unsafe(no_mangle)]
pub extern "C" fn vf_desk_heap(
    alloc: Global,
    desk: &mut VfDesk,
    name: &[u8],
    sums: &mut VfHeapSums,
    segments: &mut [VfSegment],
    count: &mut usize,
) -> u32
    ensures asks { Asks (Question.Heap name.now) desk.old desk.new result }
    ensures sums { (s : Option Desk) → IsSeenDesk desk.old s →
        sums.new ≡ sums_or (called s (in_form (Command.Ask (Question.Heap name.now)))) sums.old }
    ensures list { (s : Option Desk) → IsSeenDesk desk.old s →
        segments.new ≡ filled_front (map as_segment (segments_listed
        (list_asked s (Question.Heap name.now)))) segments.old }
    ensures count { (s : Option Desk) → IsSeenDesk desk.old s →
        count.new ≡ done_or (called s (in_form (Command.Ask (Question.Heap name.now))))
        (length (segments_listed (list_asked s (Question.Heap name.now)))) count.old }
{
    let n = put_segments(alloc, desk, name, segments);
    tell_sums(alloc, desk, name, n, sums, count)
}

/// Puts the segments of the task's C heap into a slice, and answers how many there are: none on a closed desk. Its list
/// lies on the stack beside nothing else that is large.
#[inline(never)]
fn put_segments(alloc: Global, desk: &mut VfDesk, name: &[u8], segments: &mut [VfSegment]) -> usize
    ensures same { desk.new.handle.open_desk ≡ desk.old.handle.open_desk }
    ensures list { (s : Option Desk) → IsSeenDesk desk.old s →
        segments.new ≡ filled_front (map as_segment (segments_listed
        (list_asked s (Question.Heap name.now)))) segments.old }
    ensures count { (s : Option Desk) → IsSeenDesk desk.old s →
        result ≡ length (segments_listed (list_asked s (Question.Heap name.now))) }
{
    let Some(open_desk) = desk.take(alloc) else {
        return 0;
    };
    let n = open_desk.segments(name, segments);
    desk.put(open_desk);
    n
}

/// Tells the sums over the task's C heap, and how many segments there are.
#[inline(never)]
fn tell_sums(
    alloc: Global,
    desk: &mut VfDesk,
    name: &[u8],
    n: usize,
    sums: &mut VfHeapSums,
    count: &mut usize,
) -> u32
    ensures asks { Asks (Question.Heap name.now) desk.old desk.new result }
    ensures sums { (s : Option Desk) → IsSeenDesk desk.old s →
        sums.new ≡ sums_or (called s (in_form (Command.Ask (Question.Heap name.now)))) sums.old }
    ensures count { (s : Option Desk) → IsSeenDesk desk.old s →
        count.new ≡ done_or (called s (in_form (Command.Ask (Question.Heap name.now)))) n count.old }
{
    let called = desk.step(alloc, &forms::heap(name));
    called.give_count(n, count);
    called.give_sums(sums)
}

/// Tells the task's handle, lists the records of its transfers each way, and tells how many there are.
#[unsafe(no_mangle)]
pub extern "C" fn vf_desk_status(
    alloc: Global,
    desk: &mut VfDesk,
    name: &[u8],
    handle: &mut u32,
    outgoing: &mut [VfRecord],
    outs: &mut usize,
    incoming: &mut [VfRecord],
    ins: &mut usize,
) -> u32
    ensures asks { Asks (Question.Status name.now) desk.old desk.new result }
    ensures handle { (s : Option Desk) → IsSeenDesk desk.old s →
        handle.new ≡ number_or (called s (in_form (Command.Ask (Question.Status name.now)))) handle.old }
    ensures out { (s : Option Desk) → IsSeenDesk desk.old s →
        outgoing.new ≡ filled_front (map record_of (outgoing_in
        (list_asked s (Question.Status name.now)))) outgoing.old }
    ensures outs { (s : Option Desk) → IsSeenDesk desk.old s →
        outs.new ≡ done_or (called s (in_form (Command.Ask (Question.Status name.now))))
        (length (outgoing_in (list_asked s (Question.Status name.now)))) outs.old }
    ensures taken { (s : Option Desk) → IsSeenDesk desk.old s →
        incoming.new ≡ filled_front (map record_of (incoming_in
        (list_asked s (Question.Status name.now)))) incoming.old }
    ensures ins { (s : Option Desk) → IsSeenDesk desk.old s →
        ins.new ≡ done_or (called s (in_form (Command.Ask (Question.Status name.now))))
        (length (incoming_in (list_asked s (Question.Status name.now)))) ins.old }
{
    let called = desk.step(alloc, &forms::status(name));
    let Some(open_desk) = desk.take(alloc) else {
        return called.status();
    };
    let counts = open_desk.records(name, outgoing, incoming);
    desk.put(open_desk);
    called.give_count(counts.outgoing, outs);
    called.give_count(counts.incoming, ins);
    called.give_number(handle)
}

/// Tells the free pages, lists areas 0 to 5, the made ones and the slots, and tells how many there are.
/// (OS_ReadDynamicArea, Wimp_SlotSize.)
#[unsafe(no_mangle)]
pub extern "C" fn vf_desk_areas(
    alloc: Global,
    desk: &mut VfDesk,
    free: &mut u32,
    areas: &mut [VfArea],
    count: &mut usize,
) -> u32
    ensures asks { Asks Question.Areas desk.old desk.new result }
    ensures free { (s : Option Desk) → IsSeenDesk desk.old s →
        free.new ≡ number_or (called s (in_form (Command.Ask Question.Areas))) free.old }
    ensures list { (s : Option Desk) → IsSeenDesk desk.old s →
        areas.new ≡ filled_front (map as_area (areas_listed (list_asked s Question.Areas))) areas.old }
    ensures count { (s : Option Desk) → IsSeenDesk desk.old s →
        count.new ≡ done_or (called s (in_form (Command.Ask Question.Areas)))
        (length (areas_listed (list_asked s Question.Areas))) count.old }
{
    let called = desk.step(alloc, &forms::asked(Question::Areas));
    let Some(open_desk) = desk.take(alloc) else {
        return called.status();
    };
    let n = open_desk.areas(areas);
    desk.put(open_desk);
    called.give_count(n, count);
    called.give_number(free)
}
