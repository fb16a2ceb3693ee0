//! Sizes, places and limits that several crates name, and what is reckoned from them. Sizes and places are in bytes.

ghost use Rattle.std.specs.Prelude.{◌≡◌, ℕ, ◌+◌, ◌*◌, ◌^◌, ◌<◌, ◌≤◌};
ghost use Rattle.rh_defs.specs.Heap.{segment_size};
ghost use Rattle.rh_defs.specs.Pieces.{is_inside, moved, pages_for};
ghost use Rattle.rh_defs.specs.Slot.{flex_weight};
ghost use Rattle.rh_defs.specs.declared.sizes.TheConstants.{ANCHORS, FIRST_MADE, FIXED_AREAS, FLEX_HEADER};
ghost use Rattle.rh_defs.specs.declared.sizes.TheConstants.{GREATEST_NUMBER, HEAP_UNIT, LAST_AREA, LONGEST_BUFFER};
ghost use Rattle.rh_defs.specs.declared.sizes.TheConstants.{LONGEST_DATA, LONGEST_FILE, LONGEST_LEAF, LONGEST_LINE};
ghost use Rattle.rh_defs.specs.declared.sizes.TheConstants.{LONGEST_MESSAGE, LONGEST_NAME, MADE_AREAS, MAX_AREAS};
ghost use Rattle.rh_defs.specs.declared.sizes.TheConstants.{MAX_PAGES, MAX_TASKS, MESSAGE_NAME, MESSAGE_WORDS};
ghost use Rattle.rh_defs.specs.declared.sizes.TheConstants.{MIN_PAGES, MODULE_START, MOST_MESSAGES, MOST_READS};
ghost use Rattle.rh_defs.specs.declared.sizes.TheConstants.{MOST_RECORDS, PAGE, SEGMENTS_AT_ONCE, SLOT_START, WORD};

/// The bytes of a word, the unit of all layouts.
pub const WORD: usize = 4;

/// The bytes of a page, the unit in which areas grow and shrink.
pub const PAGE: usize = 4096;

/// The least number of pages that a desk is given.
pub const MIN_PAGES: usize = 8;

/// The greatest number of pages that a desk is given.
pub const MAX_PAGES: usize = 1024;

/// How many areas a desk has from its start on: the system heap, the module area, the screen, sprites, fonts and the
/// RAM disc.
pub const FIXED_AREAS: usize = 6;

/// How many areas that were made at run can be live at a time.
pub const MADE_AREAS: usize = 32;

/// How many tasks can be live at a time, each with an area for its slot.
pub const MAX_TASKS: usize = 32;

/// How many areas can be open at a time: the fixed ones, those made at run and those of slots.
pub const MAX_AREAS: usize = FIXED_AREAS + MADE_AREAS + MAX_TASKS;

/// Where a heap has the word that says that it is one.
pub const HEAP_SPECIAL: usize = 0;

/// Where a heap has the link to its first hole.
pub const HEAP_FREE: usize = 4;

/// Where a heap has the place above its last segment.
pub const HEAP_BASE: usize = 8;

/// Where a heap has its length.
pub const HEAP_END: usize = 12;

/// Where a heap's first segment begins, behind the descriptor.
pub const HEAP_FIRST: usize = 16;

/// The bytes of which a heap's places and sizes are multiples.
pub const HEAP_UNIT: usize = 8;

/// The word that says that a heap stands here: the bytes `Heap`.
pub const HEAP_WORD: usize = 0x7061_6548;

/// The address of the module area's first byte.
pub const MODULE_START: usize = 0x0180_0000;

/// The address of application space, and of a slot's first byte.
pub const SLOT_START: usize = 0x8000;

/// How many anchors a task has, each a word at the head of its slot.
pub const ANCHORS: usize = 64;

/// Where a slot has its C heap, behind the anchor words.
pub const C_HEAP_PLACE: usize = WORD * ANCHORS;

/// The address of the C heap's first byte.
pub const C_HEAP_START: usize = SLOT_START + C_HEAP_PLACE;

/// The length of the C heap of a slot that was just started, up to the end of its first page.
pub const C_HEAP_LENGTH: usize = PAGE - C_HEAP_PLACE;

/// The bytes of a flex block's header: the address of its anchor word, and its size.
pub const FLEX_HEADER: usize = 8;

/// The most bytes of a script's line, without its line feed.
pub const LONGEST_LINE: usize = 1024;

/// The greatest number that a script can spell.
pub const GREATEST_NUMBER: u32 = 2_147_483_647;

/// The most bytes of a task's or a file's name.
pub const LONGEST_NAME: usize = 12;

/// The most bytes of a leafname.
pub const LONGEST_LEAF: usize = 10;

/// The most bytes of a file.
pub const LONGEST_FILE: usize = 1_048_576;

/// A command has room for so many bytes, two digits of a line for each. A line spells 507 at most: the other words of a
/// `put` take ten of its bytes.
pub const MOST_BYTES: usize = LONGEST_LINE / 2;

/// The size in bytes of the longest receive buffer.
pub const LONGEST_BUFFER: u32 = 65_536;

/// How many messages can be queued and held at a time.
pub const MOST_MESSAGES: usize = 256;

/// The most bytes of a message as it lies in its block, from its length word on.
pub const LONGEST_MESSAGE: usize = 256;

/// The words of a message before its data: its length, sender, refs and action.
pub const MESSAGE_WORDS: usize = 5;

/// The most bytes of a message's data.
pub const LONGEST_DATA: usize = LONGEST_MESSAGE - WORD * MESSAGE_WORDS;

/// Where a message has its file's name.
pub const MESSAGE_NAME: usize = 44;

/// The most bytes of a name in a message: with its zero byte it fills the longest one.
pub const LONGEST_PATHNAME: usize = LONGEST_MESSAGE - MESSAGE_NAME - 1;

/// How many records a task has each way: of transfers that go out, and of those that come in.
pub const MOST_RECORDS: usize = 8;

/// The most segments of a heap that are told at a time.
pub const SEGMENTS_AT_ONCE: usize = 64;

/// The most reads of a script.
pub const MOST_READS: u32 = 1_000_000;

/// The number of the module area, in which messages and modules have their blocks.
pub const MODULE_AREA: u32 = 1;

/// The number of the area that has the scrap file.
pub const SCRAP_AREA: u32 = 5;

/// The number of the first area that is made at run.
pub const FIRST_MADE: u32 = 256;

/// The greatest number of an area.
pub const LAST_AREA: u32 = 65_535;

/// What each limit is as a number. The areas of a desk fit exactly, with as many made ones and slots as there can be.
/// Pages are from 8 up to as many as make 4 MiB.
pub fn limits_law()
    ensures fixed { FIXED_AREAS ≡ 6 }
    ensures made { MADE_AREAS ≡ 32 }
    ensures tasks { MAX_TASKS ≡ 32 }
    ensures areas { MAX_AREAS ≡ FIXED_AREAS + MADE_AREAS + MAX_TASKS }
    ensures made_numbers { (FIRST_MADE ≡ 256) × (LAST_AREA ≡ 65535) }
    ensures least { MIN_PAGES ≡ 8 }
    ensures most { PAGE * MAX_PAGES ≡ 2 ^ 22 }
    ensures page { PAGE ≡ 4096 }
    ensures starts { (SLOT_START ≡ 2 ^ 15) × (MODULE_START ≡ 3 * 2 ^ 23) }
    ensures slots { (ANCHORS ≡ 64) × (FLEX_HEADER ≡ 8) }
    ensures names { (LONGEST_NAME ≡ 12) × (LONGEST_LEAF ≡ 10) }
    ensures messages { (MOST_MESSAGES ≡ 256) × (LONGEST_MESSAGE ≡ 256) × (MESSAGE_NAME ≡ 44) }
    ensures data { (MESSAGE_WORDS ≡ 5) × (LONGEST_DATA ≡ 236) }
    ensures transfers { (MOST_RECORDS ≡ 8) × (LONGEST_BUFFER ≡ 2 ^ 16) × (LONGEST_FILE ≡ 2 ^ 20) }
    ensures scripts { (LONGEST_LINE ≡ 1024) × (MOST_READS ≡ 1000000) × (GREATEST_NUMBER + 1 ≡ 2 ^ 31) }
    ensures segments { SEGMENTS_AT_ONCE ≡ 64 }
{}

/// How many pages hold `n` bytes.
pub fn pages_for(n: usize) -> usize
    ensures { result ≡ pages_for n }
{
    n.div_ceil(PAGE)
}

/// A length moved by a signed amount, 0 where that would be below 0.
pub fn moved(n: usize, delta: i32) -> usize
    requires { n < 2 ^ 40 }
    ensures value { result ≡ moved n delta }
    ensures bound { result < n + 2 ^ 31 }
{
    let amount = delta.unsigned_abs() as usize;
    if delta < 0 {
        n.saturating_sub(amount)
    } else {
        n + amount
    }
}

/// Whether the `n` bytes at `x` lie whole in the `m` bytes at `a`, also where `n` is 0. Any numbers may be asked for.
pub fn is_inside(x: usize, n: usize, a: usize, m: usize) -> bool
    ensures { result ≡ is_inside x n a m }
{
    a <= x && x - a <= m && n <= m - (x - a)
}

/// The size of a heap's segment for a block of `n` bytes: with a word for its size, in whole units.
pub fn segment_size(n: usize) -> usize
    requires { n < 2 ^ 40 }
    ensures size { result ≡ segment_size n }
    ensures least { HEAP_UNIT ≤ result }
    ensures bound { result < n + WORD + HEAP_UNIT }
{
    (n + WORD + (HEAP_UNIT - 1)) / HEAP_UNIT * HEAP_UNIT
}

/// What a flex block of `n` bytes takes of its slot: its header, and its bytes in whole words.
pub fn flex_weight(n: usize) -> usize
    requires { n < 2 ^ 40 }
    ensures { result ≡ flex_weight n }
{
    FLEX_HEADER + (n + (WORD - 1)) / WORD * WORD
}
