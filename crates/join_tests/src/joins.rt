//! The joins of one value and of two.
use crate::laws::{joins_in, laws_hold};
use join_core::{Exact, Flat, Join, Key, Max, OutOfMemory, Pair};
use std::alloc::Global;
use std::test::Fail;

// Whether a copy of the key is the key.
fn copies<K: Key>(alloc: Global, key: &K) -> Result<bool, OutOfMemory> {
    let copy = key.copy(alloc)?;
    Ok(copy.same(key) && copy == *key)
}

// Whether the laws hold of two pairs.
fn pairs_keep_their_laws(alloc: Global) -> Result<bool, OutOfMemory> {
    let left = Pair {
        first: Max(3),
        second: Flat::Known(7u32),
    };
    let right = Pair {
        first: Max(2),
        second: Flat::Clash,
    };
    laws_hold(alloc, &left, &right)
}

#[test]
fn joins_keep_their_laws(rt: HostRuntime) -> Result<(), Fail> {
    let alloc = rt.alloc();
    for (left, right) in [(3, 5), (5, 3)] {
        assert!(rt; laws_hold(alloc, &Max(left), &Max(right))?);
    }
    for right in [Flat::Unknown, Flat::Known(3), Flat::Known(4)] {
        assert!(rt; laws_hold(alloc, &Flat::Known(3u32), &right)?);
    }
    assert!(rt; pairs_keep_their_laws(alloc)?);
    assert!(rt; copies(alloc, &7u32)?);
    Ok(())
}

// Whether the greater number and the clash of the other pair come into the pair.
fn pair_joins_in_place(alloc: Global) -> Result<bool, OutOfMemory> {
    let mut pair = Pair {
        first: Max(3),
        second: Flat::Known(7u32),
    };
    let other = Pair {
        first: Max(5),
        second: Flat::Known(8),
    };
    pair.join_in(alloc, &other)?;
    Ok(matches!(pair.first, Max(5)) & matches!(pair.second, Flat::Clash))
}

#[test]
fn values_join_in_place(rt: HostRuntime) -> Result<(), Fail> {
    let alloc = rt.alloc();
    for (value, other, wanted) in [(3, 5, 5), (5, 3, 5), (4, 4, 4)] {
        assert!(rt; joins_in(alloc, &Max(value), &Max(other), &Max(wanted))?);
    }
    for (value, other, wanted) in [
        (Flat::Unknown, Flat::Known(3u32), Flat::Known(3)),
        (Flat::Known(3), Flat::Unknown, Flat::Known(3)),
        (Flat::Known(3), Flat::Known(3), Flat::Known(3)),
        (Flat::Known(3), Flat::Known(4), Flat::Clash),
        (Flat::Clash, Flat::Known(3), Flat::Clash),
    ] {
        assert!(rt; joins_in(alloc, &value, &other, &wanted)?);
    }
    assert!(rt; pair_joins_in_place(alloc)?);
    Ok(())
}

#[test]
fn two_values_clash(rt: HostRuntime) -> Result<(), Fail> {
    let told = Flat::Known(3u32).joined(rt.alloc(), &Flat::Known(4))?;
    let joined = Max(3).joined(rt.alloc(), &Max(5))?;
    let delta = Max(3).delta(rt.alloc(), &Max(5))?;
    assert!(rt; told.same(&Flat::Clash) & (joined == Max(5)) & (delta == Max(0)));
    Ok(())
}
