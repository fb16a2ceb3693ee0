//! What a lens tells before it tells of a block, and the first bytes of blocks.

ghost use Rattle.std.specs.Prelude.{◌≡◌, ◌≤◌, ℕ, List, length, min, slice_get, take};
ghost use Rattle.rh_figure.specs.declared.piece.Piece.{Piece};
ghost use Rattle.rh_lens.specs.Items.{bare};
ghost use Rattle.rh_lens.specs.ToldInside.{IsTold};
ghost use Rattle.rh_lens.specs.declared.sizes.TheConstants.{MOST_READ};
ghost use Rattle.rh_scene.specs.Seen.{HasFlex, SeesBlock, SeesFree, heap_seen};

use arrayvec::ArrayVec;
use rh_defs::BlockItem;
use rh_lens::sizes::MOST_READ;
use rh_lens::{Inside, Words};
use rh_map::Usage;
use rh_scene::{HeapOf, Sight};

/// The first bytes of a block.
pub type Front = ArrayVec<u8, MOST_READ>;

/// Nothing is told but the piece, in place of what was told before.
pub fn tell_nothing(inside: &mut Inside)
    ensures { (p : Piece) → IsTold inside.new p (bare p) }
{
    inside.bytes.clear();
    inside.usage = Usage::Unused;
    inside.message = Words::new();
}

/// How many bytes of a block of this size a lens reads.
fn read_length(size: u32) -> usize
    ensures { result ≡ min size MOST_READ }
{
    (size as usize).min(MOST_READ)
}

/// Puts bytes into a list in place of what it held.
fn put_front(bytes: &[u8], front: &mut Front)
    requires { length bytes.now ≤ MOST_READ }
    ensures { front.new.items ≡ bytes.now }
{
    front.clear();
    for byte in bytes {
        front.push(*byte);
    }
}

/// Puts the first bytes of a flex block of a task into a list in place of what it held.
pub fn read_flex<S: Sight>(sight: &S, i: usize, block: &BlockItem, front: &mut Front)
    requires { (bytes : List ℕ) × HasFlex (slice_get (S.desk sight.now).tasks i) block.now bytes
        × (length bytes ≡ block.now.size) }
    ensures { (bytes : List ℕ) → HasFlex (slice_get (S.desk sight.now).tasks i) block.now bytes →
        length bytes ≡ block.now.size → front.new.items ≡ take MOST_READ bytes }
{
    let mut read = [0; MOST_READ];
    let bytes = &mut read[..read_length(block.size)];
    sight.read_block(i, block, bytes);
    put_front(bytes, front);
}

/// Puts the first bytes of the block of a heap whose segment begins at a place into a list in place of what it held.
pub fn read_claimed<S: Sight>(sight: &S, heap: HeapOf, place: u32, size: u32, front: &mut Front)
    requires block { (bytes : List ℕ) × SeesBlock (heap_seen heap (S.desk sight.now)) place bytes
        × (length bytes ≡ size) }
    requires free { SeesFree heap place (S.desk sight.now) }
    ensures { (bytes : List ℕ) → SeesBlock (heap_seen heap (S.desk sight.now)) place bytes → length bytes ≡ size →
        front.new.items ≡ take MOST_READ bytes }
{
    let mut read = [0; MOST_READ];
    let bytes = &mut read[..read_length(size)];
    sight.read_heap(heap, place, bytes);
    put_front(bytes, front);
}
