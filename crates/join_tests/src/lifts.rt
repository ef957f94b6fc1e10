//! Values that may be dead for good.
use crate::laws::{join_laws_hold, joins_in};
use join_core::{Exact, Join, Max, OutOfMemory};
use join_nest::{Keyed, Lift};
use std::alloc::Global;
use std::test::Fail;

// Whether the laws of joins are seen to hold of both, and their join, made in place from either side, is the wanted one.
fn join_to<J: Join>(alloc: Global, left: &J, right: &J, wanted: &J) -> Result<bool, OutOfMemory> {
    let lawful = join_laws_hold(alloc, left, right)? & join_laws_hold(alloc, right, left)?;
    Ok(lawful & joins_in(alloc, left, right, wanted)? & joins_in(alloc, right, left, wanted)?)
}

// What is dead on either side is dead in the join, whichever way it is made; live values are joined as they are.
#[test]
fn dead_values_stay_dead(rt: HostRuntime) -> Result<(), Fail> {
    let alloc = rt.alloc();
    for (left, right, wanted) in [
        (Lift::Live(Max(3)), Lift::Live(Max(5)), Lift::Live(Max(5))),
        (Lift::Live(Max(3)), Lift::Dead, Lift::Dead),
        (Lift::Dead, Lift::Dead, Lift::Dead),
    ] {
        assert!(rt; join_to(alloc, &left, &right, &wanted)?);
    }
    Ok(())
}

#[test]
fn live_values_are_below_dead(rt: HostRuntime) -> Result<(), Fail> {
    for (value, other, below) in [
        (Lift::Live(Max(3)), Lift::Live(Max(5)), true),
        (Lift::Live(Max(5)), Lift::Live(Max(3)), false),
        (Lift::Live(Max(5)), Lift::Dead, true),
        (Lift::Dead, Lift::Live(Max(5)), false),
        (Lift::Dead, Lift::Dead, true),
    ] {
        assert!(rt; value.leq(&other) == below);
    }
    Ok(())
}

// Whether what the known value lacks of the other is the wanted one.
fn lacks(
    alloc: Global,
    value: &Lift<Max>,
    known: &Lift<Max>,
    wanted: &Lift<Max>,
) -> Result<bool, OutOfMemory> {
    let delta = value.delta(alloc, known)?;
    Ok(delta.same(wanted))
}

// Of a live value against dead nothing is told, and dead is told again.
#[test]
fn deltas_tell_that_a_value_is_dead(rt: HostRuntime) -> Result<(), Fail> {
    for (value, known, wanted) in [
        (Lift::Live(Max(5)), Lift::Live(Max(3)), Lift::Live(Max(5))),
        (Lift::Live(Max(3)), Lift::Live(Max(5)), Lift::Live(Max(0))),
        (Lift::Live(Max(3)), Lift::Dead, Lift::Live(Max(0))),
        (Lift::Dead, Lift::Live(Max(3)), Lift::Dead),
        (Lift::Dead, Lift::Dead, Lift::Dead),
    ] {
        assert!(rt; lacks(rt.alloc(), &value, &known, &wanted)?);
    }
    Ok(())
}

// The map of a live value at 1 and a dead one at 5.
fn one_dead(alloc: Global) -> Result<Keyed<u32, Lift<Max>>, OutOfMemory> {
    let mut map = Keyed::new(alloc);
    map.put(1, Lift::Live(Max(3)))?;
    map.put(5, Lift::Dead)?;
    Ok(map)
}

// The map of a live value at 5.
fn one_live(alloc: Global) -> Result<Keyed<u32, Lift<Max>>, OutOfMemory> {
    let mut map = Keyed::new(alloc);
    map.put(5, Lift::Live(Max(9)))?;
    Ok(map)
}

// A live entry of one map doesn't bring back what is dead at its key in the other.
#[test]
fn maps_keep_dead_values(rt: HostRuntime) -> Result<(), Fail> {
    let dead = one_dead(rt.alloc())?;
    let live = one_live(rt.alloc())?;
    assert!(rt; join_to(rt.alloc(), &dead, &live, &dead)?);
    Ok(())
}
