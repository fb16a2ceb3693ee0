//! Words, writes and moves in slices of bytes, by whole runs.
ghost use Rattle.std.specs.Prelude.{◌≡◌, ◌+◌, ◌<◌, ◌≤◌, length, replicate};
ghost use Rattle.rh_defs.specs.Bytes.{word, with_part, put_word, part};

use rh_defs::sizes::WORD;

/// The longest piece of bytes that move over themselves: the C library moves more by single bytes.
const LONG: usize = 4032;

/// The piece for what is shorter.
const MIDDLE: usize = 2048;

/// The piece for what is shorter still, which moves without a call.
const SHORT: usize = 128;

/// What moves by so many bytes or fewer, in whole words, moves by a distance that is known when this is built.
const NEAR: usize = 64;

/// What moves by so many bytes or more, and is shorter than the longest piece or moves further than that, is copied in
/// pieces that don't lie over their old places.
const FAR: usize = 256;

/// The word of four bytes in little-endian order at an offset.
#[tactic(auto, unfolding(rh_defs::specs::Bytes::word))]
pub fn word_in(b: &[u8], at: usize) -> u32
    requires { at + 4 ≤ length b.now }
    ensures { result ≡ word b.now at }
{
    u32::from_le_bytes([b[at], b[at + 1], b[at + 2], b[at + 3]])
}

/// Writes bytes from an offset on.
pub fn put_in(b: &mut [u8], at: usize, from: &[u8])
    requires { at + length from.now ≤ length b.old }
    ensures { b.new ≡ with_part b.old at from.now }
{
    b[at..at + from.len()].copy_from_slice(from);
}

/// Writes a word of four bytes in little-endian order at an offset.
#[tactic(auto, unfolding(rh_defs::specs::Bytes::put_word))]
pub fn put_word_in(b: &mut [u8], at: usize, w: u32)
    requires { at + 4 ≤ length b.old }
    ensures { b.new ≡ put_word b.old at w }
{
    put_in(b, at, &w.to_le_bytes());
}

/// Writes n zeros from an offset on.
pub fn zero_in(b: &mut [u8], at: usize, n: usize)
    requires { at + n ≤ length b.old }
    ensures { b.new ≡ with_part b.old at (replicate n 0) }
{
    b[at..at + n].fill(0);
}

/// Copies n bytes down to where none of them lies.
fn copy_down(b: &mut [u8], from: usize, to: usize, n: usize)
    requires source { from + n ≤ length b.old }
    requires apart { to + n ≤ from }
    ensures { b.new ≡ with_part b.old to (part b.old from n) }
{
    let (low, high) = b.split_at_mut(from);
    put_in(low, to, part_of(high, 0, n));
}

/// Copies n bytes up to where none of them lies.
fn copy_up(b: &mut [u8], from: usize, to: usize, n: usize)
    requires target { to + n ≤ length b.old }
    requires apart { from + n ≤ to }
    ensures { b.new ≡ with_part b.old to (part b.old from n) }
{
    let (low, high) = b.split_at_mut(to);
    put_in(high, 0, part_of(low, from, n));
}

/// Writes an array over as many bytes.
#[inline(always)]
fn put_array<const N: usize>(b: &mut [u8], piece: [u8; N])
    requires { length b.old ≡ N }
    ensures { b.new ≡ piece.entry }
{
    if let Some(place) = b.as_mut_array::<N>() {
        *place = piece;
    }
}

/// Moves N bytes, all of which are read before one is written. N is known when this is built, and a move is then one
/// `memmove`, or a few wide words.
#[inline(always)]
fn move_whole<const N: usize>(b: &mut [u8], from: usize, to: usize)
    requires source { from + N ≤ length b.old }
    requires target { to + N ≤ length b.old }
    ensures { b.new ≡ with_part b.old to (part b.old from N) }
{
    if let Some(read) = part_of(b, from, N).as_array::<N>() {
        let piece = *read;
        put_array(&mut b[to..to + N], piece);
    }
}

/// How many of n bytes that move by a gap the next piece has.
#[inline(always)]
fn next_piece(n: usize, gap: usize) -> usize
    ensures most { result ≤ n }
    ensures some { 0 < n → 0 < result }
{
    if 0 < gap && gap <= NEAR && gap % WORD == 0 {
        n.min(LONG)
    } else if gap < LONG && LONG <= n {
        LONG
    } else if FAR <= gap {
        n.min(gap)
    } else if MIDDLE <= n {
        MIDDLE
    } else if SHORT <= n {
        SHORT
    } else {
        n
    }
}

/// Moves n bytes down by D, over themselves. D is known when this is built, and the move is then one `memmove`.
#[inline(always)]
fn lower_by<const D: usize>(b: &mut [u8], from: usize, to: usize, n: usize)
    requires gap { from ≡ to + D }
    requires source { from + n ≤ length b.old }
    ensures { b.new ≡ with_part b.old to (part b.old from n) }
{
    b[to..from + n].copy_within(D..D + n, 0);
}

/// Moves n bytes up by D, over themselves, as `lower_by` does.
#[inline(always)]
fn raise_by<const D: usize>(b: &mut [u8], from: usize, to: usize, n: usize)
    requires gap { to ≡ from + D }
    requires target { to + n ≤ length b.old }
    ensures { b.new ≡ with_part b.old to (part b.old from n) }
{
    b[from..to + n].copy_within(0..n, D);
}

/// Moves the n bytes of a piece.
#[inline(always)]
fn move_piece(b: &mut [u8], from: usize, to: usize, n: usize)
    requires source { from + n ≤ length b.old }
    requires target { to + n ≤ length b.old }
    ensures { b.new ≡ with_part b.old to (part b.old from n) }
{
    match n {
        LONG => move_whole::<LONG>(b, from, to),
        MIDDLE => move_whole::<MIDDLE>(b, from, to),
        SHORT => move_whole::<SHORT>(b, from, to),
        _ => b.copy_within(from..from + n, to),
    }
}

/// Moves the n bytes of a piece down.
fn lower(b: &mut [u8], from: usize, to: usize, n: usize)
    requires source { from + n ≤ length b.old }
    requires down { to ≤ from }
    ensures { b.new ≡ with_part b.old to (part b.old from n) }
{
    match from - to {
        4 => lower_by::<4>(b, from, to, n),
        8 => lower_by::<8>(b, from, to, n),
        12 => lower_by::<12>(b, from, to, n),
        16 => lower_by::<16>(b, from, to, n),
        20 => lower_by::<20>(b, from, to, n),
        24 => lower_by::<24>(b, from, to, n),
        28 => lower_by::<28>(b, from, to, n),
        32 => lower_by::<32>(b, from, to, n),
        36 => lower_by::<36>(b, from, to, n),
        40 => lower_by::<40>(b, from, to, n),
        44 => lower_by::<44>(b, from, to, n),
        48 => lower_by::<48>(b, from, to, n),
        52 => lower_by::<52>(b, from, to, n),
        56 => lower_by::<56>(b, from, to, n),
        60 => lower_by::<60>(b, from, to, n),
        64 => lower_by::<64>(b, from, to, n),
        gap if n <= gap => copy_down(b, from, to, n),
        _ => move_piece(b, from, to, n),
    }
}

/// Moves the n bytes of a piece up.
fn raise(b: &mut [u8], from: usize, to: usize, n: usize)
    requires target { to + n ≤ length b.old }
    requires up { from ≤ to }
    ensures { b.new ≡ with_part b.old to (part b.old from n) }
{
    match to - from {
        4 => raise_by::<4>(b, from, to, n),
        8 => raise_by::<8>(b, from, to, n),
        12 => raise_by::<12>(b, from, to, n),
        16 => raise_by::<16>(b, from, to, n),
        20 => raise_by::<20>(b, from, to, n),
        24 => raise_by::<24>(b, from, to, n),
        28 => raise_by::<28>(b, from, to, n),
        32 => raise_by::<32>(b, from, to, n),
        36 => raise_by::<36>(b, from, to, n),
        40 => raise_by::<40>(b, from, to, n),
        44 => raise_by::<44>(b, from, to, n),
        48 => raise_by::<48>(b, from, to, n),
        52 => raise_by::<52>(b, from, to, n),
        56 => raise_by::<56>(b, from, to, n),
        60 => raise_by::<60>(b, from, to, n),
        64 => raise_by::<64>(b, from, to, n),
        gap if n <= gap => copy_up(b, from, to, n),
        _ => move_piece(b, from, to, n),
    }
}

/// Moves n bytes down over themselves, in pieces from the lowest on.
fn slide_down(b: &mut [u8], from: usize, to: usize, n: usize)
    requires source { from + n ≤ length b.old }
    requires down { to ≤ from }
    ensures { b.new ≡ with_part b.old to (part b.old from n) }
{
    let mut moved = 0;
    'walk: while moved < n {
        let size = next_piece(n - moved, from - to);
        lower(b, from + moved, to + moved, size);
        moved += size;
    }
}

/// Moves n bytes up over themselves, in pieces from the highest on.
fn slide_up(b: &mut [u8], from: usize, to: usize, n: usize)
    requires target { to + n ≤ length b.old }
    requires up { from ≤ to }
    ensures { b.new ≡ with_part b.old to (part b.old from n) }
{
    let mut left = n;
    'walk: while 0 < left {
        let size = next_piece(left, to - from);
        left -= size;
        raise(b, from + left, to + left, size);
    }
}

/// Moves n bytes from one offset to another. The two ranges may overlap; where they don't, this is one copy. Out of
/// line, so that its loops are no part of callers that move nothing.
#[inline(never)]
pub fn slide_in(b: &mut [u8], from: usize, to: usize, n: usize)
    requires source { from + n ≤ length b.old }
    requires target { to + n ≤ length b.old }
    ensures { b.new ≡ with_part b.old to (part b.old from n) }
{
    if to + n <= from {
        copy_down(b, from, to, n);
    } else if from + n <= to {
        copy_up(b, from, to, n);
    } else if to < from {
        slide_down(b, from, to, n);
    } else {
        slide_up(b, from, to, n);
    }
}

/// Fills a buffer with the bytes from an offset on.
pub fn copy_from(b: &[u8], at: usize, to: &mut [u8])
    requires { at + length to.old ≤ length b.now }
    ensures { to.new ≡ part b.now at (length to.old) }
{
    to.copy_from_slice(&b[at..at + to.len()]);
}

/// The n bytes from an offset on.
pub fn part_of(b: &[u8], at: usize, n: usize) -> &[u8]
    requires { at + n ≤ length b.now }
    ensures { result.now ≡ part b.now at n }
{
    &b[at..at + n]
}

/// Copies n bytes from an offset of one slice to an offset of another.
pub fn copy_over(from: &[u8], at: usize, to: &mut [u8], at2: usize, n: usize)
    requires source { at + n ≤ length from.now }
    requires target { at2 + n ≤ length to.old }
    ensures { to.new ≡ with_part to.old at2 (part from.now at n) }
{
    to[at2..at2 + n].copy_from_slice(&from[at..at + n]);
}
