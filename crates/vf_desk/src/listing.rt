//! The lists of a desk that may be closed: none where it is, or where a name or an anchor isn't of its form.
ghost use Rattle.std.specs.Prelude.{◌≡◌, Option, length, map};
ghost use Rattle.vf_desk.specs.Console.{filled_front};
ghost use Rattle.rh_defs.specs.Desk.{Desk};
ghost use Rattle.rh_defs.specs.declared.question.Question.TheVariants as Question;
ghost use Rattle.vf_desk.specs.DeskItems.{as_area, areas_listed, as_block, blocks_listed, bytes_listed, incoming_in};
ghost use Rattle.vf_desk.specs.DeskItems.{list_asked, outgoing_in, record_of, as_segment, segments_listed};
ghost use Rattle.vf_desk.specs.SeenDesk.{SeenBy};

use crate::forms::{anchor_of, name_of};
use crate::items::{VfArea, VfBlock, VfRecord, VfSegment};
use crate::lists::{
    NO_RECORDS, RecordCounts, list_areas, list_blocks, list_bytes, list_records, list_segments,
};
use crate::open_desk::OpenDesk;

impl OpenDesk {
    /// Fills a slice with the first bytes of the task's block at the anchor.
    pub fn bytes(&self, name: &[u8], anchor: u32, to: &mut [u8])
        ensures { (s : Option Desk) → SeenBy self.now.console s →
            to.new ≡ filled_front (bytes_listed (list_asked s (Question.Show name.now anchor))) to.old }
    {
        let Some(console) = &self.console else {
            return;
        };
        let Some(name) = name_of(name) else {
            return;
        };
        let Some(anchor) = anchor_of(anchor) else {
            return;
        };
        list_bytes(&console.world, &name, anchor, to);
    }

    /// Puts the task's flex blocks into a slice, and answers how many there are.
    pub fn blocks(&self, name: &[u8], to: &mut [VfBlock]) -> usize
        ensures list { (s : Option Desk) → SeenBy self.now.console s →
            to.new ≡ filled_front (map as_block (blocks_listed (list_asked s (Question.Blocks name.now)))) to.old }
        ensures count { (s : Option Desk) → SeenBy self.now.console s →
            result ≡ length (blocks_listed (list_asked s (Question.Blocks name.now))) }
    {
        let Some(console) = &self.console else {
            return 0;
        };
        let Some(name) = name_of(name) else {
            return 0;
        };
        list_blocks(&console.world, &name, to)
    }

    /// Puts the segments of the task's C heap into a slice, and answers how many there are.
    pub fn segments(&self, name: &[u8], to: &mut [VfSegment]) -> usize
        ensures list { (s : Option Desk) → SeenBy self.now.console s →
            to.new ≡ filled_front (map as_segment (segments_listed (list_asked s (Question.Heap name.now)))) to.old }
        ensures count { (s : Option Desk) → SeenBy self.now.console s →
            result ≡ length (segments_listed (list_asked s (Question.Heap name.now))) }
    {
        let Some(console) = &self.console else {
            return 0;
        };
        let Some(name) = name_of(name) else {
            return 0;
        };
        list_segments(&console.world, &name, to)
    }

    /// Puts the records of the task's transfers into two slices, and answers how many there are each way.
    pub fn records(
        &self,
        name: &[u8],
        outgoing: &mut [VfRecord],
        incoming: &mut [VfRecord],
    ) -> RecordCounts
        ensures out { (s : Option Desk) → SeenBy self.now.console s →
            outgoing.new ≡ filled_front (map record_of (outgoing_in
            (list_asked s (Question.Status name.now)))) outgoing.old }
        ensures taken { (s : Option Desk) → SeenBy self.now.console s →
            incoming.new ≡ filled_front (map record_of (incoming_in
            (list_asked s (Question.Status name.now)))) incoming.old }
        ensures outs { (s : Option Desk) → SeenBy self.now.console s →
            result.outgoing ≡ length (outgoing_in (list_asked s (Question.Status name.now))) }
        ensures ins { (s : Option Desk) → SeenBy self.now.console s →
            result.incoming ≡ length (incoming_in (list_asked s (Question.Status name.now))) }
    {
        let Some(console) = &self.console else {
            return NO_RECORDS;
        };
        let Some(name) = name_of(name) else {
            return NO_RECORDS;
        };
        list_records(&console.world, &name, outgoing, incoming)
    }

    /// Puts areas and slots into a slice, and answers how many there are.
    pub fn areas(&self, to: &mut [VfArea]) -> usize
        ensures list { (s : Option Desk) → SeenBy self.now.console s →
            to.new ≡ filled_front (map as_area (areas_listed (list_asked s Question.Areas))) to.old }
        ensures count { (s : Option Desk) → SeenBy self.now.console s →
            result ≡ length (areas_listed (list_asked s Question.Areas)) }
    {
        match &self.console {
            Some(console) => list_areas(&console.world, to),
            None => 0,
        }
    }
}
