//! The maps that are kept, by the numbers of their areas.
ghost use Rattle.std.specs.Prelude.{◌≡◌, ◌≤◌, IfOk, IfSome, IsTrue, vec_capacity};
ghost use Rattle.rh_heap_index.specs.Maps.{AreLaid, AreReached, AreStale, Forgot, IsEnough, IsLaid, IsStale};
ghost use Rattle.rh_heap_index.specs.Maps.{Loosened, Spoilt};
ghost use Rattle.rh_store.specs.Limits.{pool_limit};
ghost use Rattle.rh_store.specs.Starts.{HasRows};

use crate::needs::Needs;
use crate::rows::{self, NUMBERED, are_numbers_for, numbers_behind, room_of, with_numbers};
use rh_defs::sizes::MAX_AREAS;
use rh_store::{AreaId, Starts};
use std::alloc::{AllocError, Global};

/// A map whose rows stand in a vector.
pub type Map = Starts<Vec<u64>>;

/// How many numbers an area may have.
pub const AREA_NUMBERS: usize = u8::MAX as usize + 1;

/// Says of an area's map that it isn't up to date, where its heap meets the bytes from `low` up to `upper`. Most writes
/// lie above all that the area's map reaches to, and cost no more than to see that.
#[inline(always)]
pub fn forget(
    maps: &mut Vec<Option<Map>>,
    reach: &[usize; AREA_NUMBERS],
    id: AreaId,
    low: usize,
    upper: usize,
)
    requires { AreReached maps.old.items reach.now }
    ensures { Forgot maps.old.items maps.new.items id.0 low upper }
{
    if low < reach[id.0 as usize] {
        forget_met(maps, id.0 as usize, low, upper);
    }
}

/// Says of an area's map that it isn't up to date, where the map may reach up to the bytes from `low` up to `upper`.
#[inline(never)]
fn forget_met(maps: &mut Vec<Option<Map>>, id: usize, low: usize, upper: usize)
    ensures { Forgot maps.old.items maps.new.items id low upper }
{
    if id < maps.len() {
        if let Some(starts) = &mut maps[id] {
            if low < starts.upper && starts.at < upper {
                starts.known = false;
            }
        }
    }
}

/// A map of no heap for each area. The nth has room for an area of the nth part of so many pages, and the first of them
/// have room for numbers too where memory for it is granted, which is asked for last.
#[tactic(auto, using(crate::proofs::KeptLaws::stale_reversed))]
pub fn blank_maps(alloc: Global, pages: usize) -> Result<Vec<Option<Map>>, AllocError>
    requires { pages ≤ pool_limit }
    ensures { IfOk result (λ maps. AreStale maps.items) }
{
    let mut maps = Vec::with_capacity(alloc, MAX_AREAS)?;
    append(
        alloc,
        &mut maps,
        pages,
        MAX_AREAS,
        MAX_AREAS - NUMBERED,
        false,
    )?;
    append_longest(alloc, &mut maps, pages)?;
    maps.reverse();
    Ok(maps)
}

/// Appends the maps of the longest areas: with room for numbers, or without where memory for that is refused.
#[tactic(auto, using(crate::proofs::KeptLaws::stale_taken))]
fn append_longest(
    alloc: Global,
    maps: &mut Vec<Option<Map>>,
    pages: usize,
) -> Result<(), AllocError>
    requires pages { pages ≤ pool_limit }
    requires stale { AreStale maps.old.items }
    ensures { AreStale maps.new.items }
{
    let others = maps.len();
    if append(alloc, maps, pages, NUMBERED, NUMBERED, true).is_ok() {
        return Ok(());
    }
    maps.truncate(others);
    append(alloc, maps, pages, NUMBERED, NUMBERED, false)
}

/// Appends so many maps of no heaps, of the ranks from one down. Where memory is refused it has appended some of them.
fn append(
    alloc: Global,
    maps: &mut Vec<Option<Map>>,
    pages: usize,
    rank: usize,
    count: usize,
    numbered: bool,
) -> Result<(), AllocError>
    requires pages { pages ≤ pool_limit }
    requires ranks { count ≤ rank }
    requires stale { AreStale maps.old.items }
    ensures { AreStale maps.new.items }
{
    for i in 0..count {
        let map = blank(alloc, room_of(pages, rank - i, numbered))?;
        maps.push(Some(map))?;
    }
    Ok(())
}

/// A map that isn't up to date, with no lines yet, and with room for so many words.
fn blank(alloc: Global, words: usize) -> Result<Map, AllocError>
    ensures { IfOk result IsStale }
{
    let lines = Vec::with_capacity(alloc, words)?;
    Ok(unknown(lines, 0))
}

/// A map that isn't up to date, with lines up to a word and numbers from there on.
fn unknown(lines: Vec<u64>, split: usize) -> Map
    requires { HasRows lines.items split 0 }
    ensures stale { IsStale result }
    ensures lines { result.lines.items ≡ lines.items }
    ensures split { result.split ≡ split }
{
    Starts {
        lines,
        split,
        known: false,
        at: 0,
        upper: 0,
    }
}

/// Whether a map has so many words of lines, and numbers for all of their tracts or none.
#[inline(always)]
pub fn is_enough(map: &Map, words: usize) -> bool
    requires { IsLaid map.now }
    ensures { IsTrue result → IsEnough words map.now }
{
    words <= map.split && are_numbers_for(map.lines.len() - map.split, words)
}

/// The map of an area that has come to need so many words of lines, which isn't up to date then. Where there is no room
/// for them it changes places with that of another area. None where no area has one to give; it keeps its own then.
pub fn widened(
    maps: &mut Vec<Option<Map>>,
    needs: &Needs,
    id: usize,
    map: Map,
    words: usize,
) -> Option<Map>
    requires all { AreLaid maps.old.items }
    requires own { IsLaid map }
    ensures others { Loosened maps.old.items maps.new.items }
    ensures stale { IfSome result IsStale }
    ensures enough { IfSome result (IsEnough words) }
{
    let map = roomy(maps, needs, map, words);
    if words <= map.lines.capacity() {
        return Some(lengthened(map, words));
    }
    put_back(maps, id, unknown(map.lines, map.split));
    None
}

/// Puts a map that isn't up to date in an area's place.
fn put_back(maps: &mut Vec<Option<Map>>, id: usize, map: Map)
    requires { IsStale map }
    ensures { Spoilt maps.old.items maps.new.items id }
{
    if id < maps.len() {
        maps[id] = Some(map);
    }
}

/// The map, or that of the area that gives one. The two change places, and that area's map isn't up to date then.
fn roomy(maps: &mut Vec<Option<Map>>, needs: &Needs, map: Map, words: usize) -> Map
    requires all { AreLaid maps.old.items }
    requires own { IsLaid map }
    ensures others { Loosened maps.old.items maps.new.items }
    ensures laid { IsLaid result }
{
    match giver(maps, needs, words, map.lines.capacity()) {
        Some(id) => exchanged(maps, id, map),
        None => map,
    }
}

/// The area that gives its map for one with room for so many words: where that has no room for so many words of lines
/// and their numbers, one that has; and where there is none and that has no room for the lines alone, one with room for
/// those.
fn giver(maps: &Vec<Option<Map>>, needs: &Needs, words: usize, own: usize) -> Option<usize> {
    let numbered = with_numbers(words);
    if numbered <= own {
        return None;
    }
    let longer = first_with_room(maps, needs, words, numbered);
    if longer.is_some() || words <= own {
        return longer;
    }
    first_with_room(maps, needs, words, words)
}

/// The first area that needs fewer words of lines than so many, and whose map has room for so many words.
fn first_with_room(
    maps: &Vec<Option<Map>>,
    needs: &Needs,
    lines: usize,
    room: usize,
) -> Option<usize> {
    for id in 0..maps.len() {
        if needs.words(id) < lines && has_room(&maps[id], room) {
            return Some(id);
        }
    }
    None
}

/// Whether there is a map, with room for so many words.
fn has_room(map: &Option<Map>, words: usize) -> bool {
    match map {
        Some(starts) => words <= starts.lines.capacity(),
        None => false,
    }
}

/// Puts a map in place of an area's, where it isn't up to date, and answers the old one.
fn exchanged(maps: &mut Vec<Option<Map>>, id: usize, map: Map) -> Map
    requires all { AreLaid maps.old.items }
    requires own { IsLaid map }
    ensures others { Spoilt maps.old.items maps.new.items id }
    ensures laid { IsLaid result }
{
    if id >= maps.len() {
        return map;
    }
    match maps[id].take() {
        Some(old) => {
            maps[id] = Some(unknown(map.lines, map.split));
            old
        }
        None => map,
    }
}

/// The map with so many words of lines, or more where there is room, and with numbers behind them where there is room.
/// It isn't up to date.
fn lengthened(map: Map, words: usize) -> Map
    requires { words ≤ vec_capacity map.lines }
    ensures stale { IsStale result }
    ensures enough { IsEnough words result }
{
    let mut lines = map.lines;
    let room = lines.capacity();
    let split = rows::lengthened(map.split, words, room);
    let _done = lines.resize(split + numbers_behind(split, room), 0);
    unknown(lines, split)
}

/// Says of an area's map that it isn't up to date.
pub fn spoil(maps: &mut Vec<Option<Map>>, id: usize)
    requires { AreLaid maps.old.items }
    ensures { Spoilt maps.old.items maps.new.items id }
{
    if id < maps.len() {
        if let Some(starts) = &mut maps[id] {
            starts.known = false;
        }
    }
}
