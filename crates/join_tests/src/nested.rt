//! Joins made of joins.
use crate::laws::laws_hold;
use join_core::{Exact, Flat, Join, Max, OutOfMemory};
use join_nest::{Changes, Keyed, Trunc};
use std::alloc::Global;
use std::test::Fail;

// The map of these entries.
fn map_of(alloc: Global, entries: &[(u32, u32)]) -> Result<Keyed<u32, Max>, OutOfMemory> {
    let mut map = Keyed::new(alloc);
    for entry in entries {
        map.put(entry.0, Max(entry.1))?;
    }
    Ok(map)
}

// The board of these entries, none of which is below the front.
fn board_of(alloc: Global, front: u32, entries: &[(u32, u32)]) -> Result<Trunc<Max>, OutOfMemory> {
    let mut board = Trunc::new(alloc, front);
    for entry in entries {
        if board.dropped() <= entry.0 {
            board.put(entry.0, Max(entry.1))?;
        }
    }
    Ok(board)
}

// Whether the map is that of these entries.
fn is_map(
    alloc: Global,
    map: &Keyed<u32, Max>,
    entries: &[(u32, u32)],
) -> Result<bool, OutOfMemory> {
    let wanted = map_of(alloc, entries)?;
    Ok(map.same(&wanted))
}

// Whether the board is that of these entries, with nothing below the front.
fn is_board(
    alloc: Global,
    board: &Trunc<Max>,
    front: u32,
    entries: &[(u32, u32)],
) -> Result<bool, OutOfMemory> {
    let wanted = board_of(alloc, front, entries)?;
    Ok(board.same(&wanted))
}

// Whether what the known map lacks of the other is the map of these entries.
fn lacks(
    alloc: Global,
    map: &Keyed<u32, Max>,
    known: &Keyed<u32, Max>,
    entries: &[(u32, u32)],
) -> Result<bool, OutOfMemory> {
    let delta = map.delta(alloc, known)?;
    is_map(alloc, &delta, entries)
}

fn lacks_nothing_itself(alloc: Global, map: &Keyed<u32, Max>) -> Result<bool, OutOfMemory> {
    let delta = map.delta(alloc, map)?;
    Ok(delta.is_empty())
}

fn keys_rise(map: &Keyed<u32, Max>) -> bool {
    let mut rise = true;
    let mut keys = 0;
    for entry in map.entries() {
        rise &= keys < entry.0;
        keys = entry.0;
    }
    rise
}

// Whether the map of three entries has 4 at 5, and nothing at 3.
fn has_three(map: &Keyed<u32, Max>) -> bool {
    matches!(map.get(&5), Some(Max(4)))
        & map.get(&3).is_none()
        & (map.len() == 3)
        & keys_rise(map)
        & are_found_from_ends(map)
}

// Whether each key is found as by a search where the ends are looked at first, and no other.
fn are_found_from_ends(map: &Keyed<u32, Max>) -> bool {
    let mut found = map.get_from_ends(&3).is_none() & map.get_from_ends(&100).is_none();
    for entry in map.entries() {
        found &= matches!(map.get_from_ends(&entry.0), Some(Max(value)) if *value == (entry.1).0);
    }
    found
}

// Whether the join of both maps is the map of three entries, and what both lack of it.
fn is_joined(
    alloc: Global,
    joined: &Keyed<u32, Max>,
    left: &Keyed<u32, Max>,
    right: &Keyed<u32, Max>,
) -> Result<bool, OutOfMemory> {
    Ok(
        is_map(alloc, joined, &[(1, 3), (2, 7), (5, 4)])?
            & !joined.leq(left)
            & lacks(alloc, joined, right, &[(1, 3)])?
            & lacks_nothing_itself(alloc, joined)?,
    )
}

// Whether the laws hold of both maps, and their join is as told.
fn join(
    alloc: Global,
    left: &Keyed<u32, Max>,
    right: &Keyed<u32, Max>,
) -> Result<bool, OutOfMemory> {
    let lawful = laws_hold(alloc, left, right)? & laws_hold(alloc, right, left)?;
    let joined = left.joined(alloc, right)?;
    Ok(lawful & is_joined(alloc, &joined, left, right)? & has_three(&joined))
}

#[test]
fn maps_join_key_by_key(rt: HostRuntime) -> Result<(), Fail> {
    let left = map_of(rt.alloc(), &[(1, 3), (5, 9), (5, 1)])?;
    let right = map_of(rt.alloc(), &[(5, 4), (2, 7)])?;
    assert!(rt; join(rt.alloc(), &left, &right)?);
    Ok(())
}

fn is_joined_to_none(alloc: Global, map: &Keyed<u32, Max>) -> Result<bool, OutOfMemory> {
    let mut empty = Keyed::new(alloc);
    empty.join_in(alloc, map)?;
    Ok(empty.same(map))
}

// Whether the map is that of the wanted entries once the part of these is joined in, at once or made ready first.
fn joins_part(
    alloc: Global,
    map: &mut Keyed<u32, Max>,
    entries: &[(u32, u32)],
    wanted: &[(u32, u32)],
) -> Result<bool, OutOfMemory> {
    let part = map_of(alloc, entries)?;
    let mut beside = map.copy(alloc)?;
    let prepared = beside.prepare(alloc, &part)?;
    let stays = beside.same(map);
    beside.put_prepared(prepared);
    map.join_in(alloc, &part)?;
    Ok(stays & beside.same(map) & is_map(alloc, map, wanted)?)
}

// A part below the map leaves it as it is; other parts leave the join of both, also where keys are new before, between and
// behind those of the map, or behind all.
#[test]
fn a_part_is_joined_in_place(rt: HostRuntime) -> Result<(), Fail> {
    let mut map = map_of(rt.alloc(), &[(2, 3), (5, 9), (8, 1)])?;
    for (part, wanted) in [
        (
            [(5, 9), (8, 0)].as_slice(),
            [(2, 3), (5, 9), (8, 1)].as_slice(),
        ),
        (&[], &[(2, 3), (5, 9), (8, 1)]),
        (&[(2, 4), (5, 7), (8, 6)], &[(2, 4), (5, 9), (8, 6)]),
        (
            &[(1, 7), (3, 0), (4, 2), (8, 2), (9, 5)],
            &[(1, 7), (2, 4), (3, 0), (4, 2), (5, 9), (8, 6), (9, 5)],
        ),
        (
            &[(9, 4), (10, 1), (12, 2)],
            &[
                (1, 7),
                (2, 4),
                (3, 0),
                (4, 2),
                (5, 9),
                (8, 6),
                (9, 5),
                (10, 1),
                (12, 2),
            ],
        ),
    ] {
        assert!(rt; joins_part(rt.alloc(), &mut map, part, wanted)?);
    }
    assert!(rt; is_joined_to_none(rt.alloc(), &map)?);
    Ok(())
}

// Joins the board of these entries to the board in place.
fn join_board(
    alloc: Global,
    board: &mut Trunc<Max>,
    front: u32,
    entries: &[(u32, u32)],
) -> Result<(), OutOfMemory> {
    let part = board_of(alloc, front, entries)?;
    board.join_in(alloc, &part)
}

// A lower front and calls that are there leave the board as it is; calls below either front stay dropped; a later front drops
// what is below, whether or not a call is new.
#[test]
fn a_board_is_joined_in_place(rt: HostRuntime) -> Result<(), Fail> {
    let alloc = rt.alloc();
    let mut board = board_of(alloc, 2, &[(3, 6), (5, 8)])?;
    for (front, entries, left, wanted) in [
        (
            1,
            [(1, 9), (5, 7)].as_slice(),
            2,
            [(3, 6), (5, 8)].as_slice(),
        ),
        (0, &[(1, 9), (4, 2)], 2, &[(3, 6), (4, 2), (5, 8)]),
        (4, &[(4, 1), (6, 3)], 4, &[(4, 2), (5, 8), (6, 3)]),
        (6, &[], 6, &[(6, 3)]),
    ] {
        join_board(alloc, &mut board, front, entries)?;
        assert!(rt; is_board(alloc, &board, left, wanted)?);
    }
    Ok(())
}

// A board of two known values.
fn two_known(alloc: Global) -> Result<Trunc<Flat<u32>>, OutOfMemory> {
    let mut part = Trunc::new(alloc, 0);
    part.put(3, Flat::Known(7u32))?;
    part.put(6, Flat::Known(8))?;
    Ok(part)
}

// Whether the join of both is this board.
fn joins_to(
    alloc: Global,
    left: &Trunc<Flat<u32>>,
    right: &Trunc<Flat<u32>>,
    wanted: &Trunc<Flat<u32>>,
) -> Result<bool, OutOfMemory> {
    let joined = left.joined(alloc, right)?;
    Ok(wanted.same(&joined))
}

// Whether what is below 5 is dropped, and 6 alone is there.
fn has_dropped(joined: &Trunc<Flat<u32>>) -> bool {
    (joined.dropped() == 5)
        & joined.get(&3).is_none()
        & joined.get(&6).is_some()
        & (joined.entries().len() == 1)
}

// Whether the laws hold of both, and their join is as told, from either side.
fn stay_dropped(
    alloc: Global,
    board: &Trunc<Flat<u32>>,
    part: &Trunc<Flat<u32>>,
) -> Result<bool, OutOfMemory> {
    let lawful = laws_hold(alloc, board, part)? & laws_hold(alloc, part, board)?;
    let joined = board.joined(alloc, part)?;
    Ok(lawful & joins_to(alloc, part, board, &joined)? & has_dropped(&joined))
}

// What either side has dropped is gone from the join, whichever way it is made.
#[test]
fn dropped_calls_stay_dropped(rt: HostRuntime) -> Result<(), Fail> {
    let part = two_known(rt.alloc())?;
    assert!(rt; stay_dropped(rt.alloc(), &Trunc::new(rt.alloc(), 5), &part)?);
    Ok(())
}

// Whether the map at 7 is that of these entries.
fn is_under(
    alloc: Global,
    maps: &Keyed<u32, Keyed<u32, Max>>,
    entries: &[(u32, u32)],
) -> Result<bool, OutOfMemory> {
    match maps.get(&7) {
        None => Ok(false),
        Some(map) => is_map(alloc, map, entries),
    }
}

// Whether of these the third alone is joined at its place, in a map that has all their keys.
fn is_third(changes: &Changes<Max>) -> bool {
    let values = changes.values();
    match values.first() {
        None => false,
        Some(change) => (values.len() == 1) & (change.0 == 2) & change.1.same(&Max(9)),
    }
}

// Whether the change, put in once and once more, has come and gone.
fn comes_and_goes(
    alloc: Global,
    map: Keyed<u32, Max>,
    mut changes: Changes<Max>,
) -> Result<bool, OutOfMemory> {
    let mut maps = Keyed::new(alloc);
    maps.put(7, map)?;
    maps.exchange_under(&7, &mut changes);
    let came = is_under(alloc, &maps, &[(1, 3), (2, 4), (5, 9)])?;
    maps.exchange_under(&8, &mut changes);
    maps.exchange_under(&7, &mut changes);
    let gone = is_under(alloc, &maps, &[(1, 3), (2, 4), (5, 6)])?;
    Ok(came & gone & is_third(&changes))
}

// Whether what a map of three has in common with the other is joined at its place, and comes and goes.
fn is_exchanged(alloc: Global, map: Keyed<u32, Max>) -> Result<bool, OutOfMemory> {
    let other = map_of(alloc, &[(1, 2), (5, 9)])?;
    match map.joined_places(alloc, &other)? {
        None => Ok(false),
        Some(changes) => comes_and_goes(alloc, map, changes),
    }
}

// Whether nothing is joined where the map lacks a key.
fn has_no_place(alloc: Global, map: &Keyed<u32, Max>) -> Result<bool, OutOfMemory> {
    let other = map_of(alloc, &[(1, 5), (4, 1)])?;
    let changes = map.joined_places(alloc, &other)?;
    Ok(changes.is_none())
}

#[test]
fn values_are_exchanged_at_their_places(rt: HostRuntime) -> Result<(), Fail> {
    let alloc = rt.alloc();
    let map = map_of(alloc, &[(1, 3), (2, 4), (5, 6)])?;
    assert!(rt; has_no_place(alloc, &map)?);
    assert!(rt; is_exchanged(alloc, map)?);
    Ok(())
}
