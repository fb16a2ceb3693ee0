//! A pen over a writer.

ghost use Rattle.std.specs.Prelude.{◌≡◌, ◌≤◌, ◌+◌, ◌++◌, ◌&&◌, ◌||◌, not, false, length, nat_lt};
ghost use Rattle.std.specs.Io.KnownBytes.{Appends};
ghost use Rattle.rh_lines.specs.PenFacts.{Counts};
ghost use Rattle.rh_lines.specs.Inner.Fronts.{TakesFront};
ghost use Rattle.rh_lines.specs.Inner.OneProof.{one_count, one_taking};

use crate::ghost_bytes::GhostBytes;
use crate::noted_output::NotedOutput;
use crate::pen::Pen;
use crate::sink::{Sink, WriteFailed};
use crate::whole_text::put_at;

/// A pen over a writer, which holds in lent bytes what has room there, and offers it when they are full or at the end.
/// Once the writer failed, the pen offers it nothing more.
#[derive(Drop)]
pub struct WriterPen<'a, W: Sink> {
    writer: &'a mut W,
    failed: bool,
    room: &'a mut [u8],
    /// So many bytes of the room are held.
    held: usize,
    // the writer as it was, what it has taken since, and what came in vain after it had failed
    begun: NotedOutput,
    front: GhostBytes,
    back: GhostBytes,
    ghost taken: { Appends begun.output.taken (W.output writer.now).taken front.bytes } by { one_taking _ _ _ },
    ghost counts: { Counts begun.output.count (W.output writer.now).count front.bytes } by { one_count _ _ _ },
    ghost noted: { (W.output writer.now).failed ≡ (begun.output.failed || failed) },
    ghost none: { (not failed && nat_lt 0 (length back.bytes)) ≡ false },
    ghost few: { held ≤ length room.now },
}

impl<'a, W: Sink> WriterPen<'a, W> {
    ghost use Rattle.rh_lines.specs.Pens.{begun_of, failed_of, offered_of, text_of, writer_of};
    ghost use Rattle.rh_lines.specs.Flow.{Breaks, Puts};
    ghost use Rattle.std.specs.Prelude.{[], OnErr, is_err};

    /// A pen over this writer, which was offered nothing yet.
    pub fn new(writer: &'a mut W, room: &'a mut [u8]) -> WriterPen<'a, W>
        ensures same_reference { (writer_of result).ghost_name ≡ writer.entry.ghost_name }
        ensures begun { begun_of result ≡ W.output writer.old }
        ensures same { W.output (writer_of result).now ≡ W.output writer.old }
        ensures text { text_of result ≡ [] }
    {
        let begun = NotedOutput::of(writer);
        WriterPen {
            writer,
            failed: false,
            room,
            held: 0,
            begun,
            front: GhostBytes::new(),
            back: GhostBytes::new(),
        }
    }

    /// Fails where the writer failed since the pen was made. The writer has then taken a front of the text.
    pub fn check(&self) -> Result<(), WriteFailed>
        ensures failed { is_err result ≡ failed_of self.now }
        ensures err { OnErr result (Breaks (begun_of self.now) (W.output (writer_of self.now).now) (text_of self.now)) }
    {
        if self.failed {
            Err(WriteFailed)
        } else {
            Ok(())
        }
    }

    /// Offers the writer what is held. Fails where the writer failed since the pen was made, and has then taken a
    /// front of the text, else all.
    pub fn finish(&mut self) -> Result<(), WriteFailed>
        ensures same { offered_of self.new ≡ offered_of self.old }
        ensures written { Puts (begun_of self.new) (W.output (writer_of self.new).now) result (text_of self.new) }
    {
        self.flush();
        if self.failed {
            return Err(WriteFailed);
        }
        Ok(())
    }

    /// Offers the writer what is held.
    fn flush(&mut self)
        ensures same { offered_of self.new ≡ offered_of self.old }
        ensures none { self.new.held ≡ 0 }
    {
        let room = &*self.room;
        let waiting = &room[..self.held];
        self.held = 0;
        if self.failed {
            self.back.note(waiting);
            return;
        }
        let writer = &mut *self.writer;
        let count = put_front(writer, waiting);
        self.front.note(&waiting[..count]);
        self.back.note(&waiting[count..]);
        self.failed = count < waiting.len();
    }

    /// Offers the writer these bytes, where none are held.
    fn offer(&mut self, bytes: &[u8])
        requires { self.old.held ≡ 0 }
        ensures { offered_of self.new ≡ offered_of self.old ++ bytes.now }
    {
        if self.failed {
            self.back.note(bytes);
            return;
        }
        let writer = &mut *self.writer;
        let count = put_front(writer, bytes);
        self.front.note(&bytes[..count]);
        self.back.note(&bytes[count..]);
        self.failed = count < bytes.len();
    }

    /// Holds these bytes behind the others, where there is room.
    fn hold(&mut self, bytes: &[u8])
        requires { self.old.held + length bytes.now ≤ length self.old.room.now }
        ensures { offered_of self.new ≡ offered_of self.old ++ bytes.now }
    {
        let held = self.held;
        self.held = held + bytes.len();
        let room = &mut *self.room;
        put_at(room, held, bytes);
    }

    /// Writes these bytes behind those that are held, which are offered first.
    #[inline(never)]
    fn put_behind(&mut self, bytes: &[u8])
        ensures { offered_of self.new ≡ offered_of self.old ++ bytes.now }
    {
        self.flush();
        if bytes.len() <= self.room.len() {
            self.hold(bytes);
        } else {
            self.offer(bytes);
        }
    }
}

impl<W: Sink> Pen for WriterPen<'_, W> {
    ghost use Rattle.rh_lines.specs.Pens.{offered_of};

    ghost offered = { offered_of };

    fn put(&mut self, bytes: &[u8]) {
        if bytes.len() <= self.room.len() - self.held {
            self.hold(bytes);
        } else {
            self.put_behind(bytes);
        }
    }
}

/// Writes the bytes until the writer fails, and says how many it took.
fn put_front<W: Sink>(writer: &mut W, bytes: &[u8]) -> usize
    ensures { TakesFront (W.output writer.old) (W.output writer.new) result bytes.now }
{
    let mut count = 0;
    while count < bytes.len() {
        match writer.write(&bytes[count..]) {
            Ok(taken) if taken > 0 => count += taken,
            _ => return count,
        }
    }
    count
}
