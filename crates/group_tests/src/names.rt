//! Names of communicators. No function owns more than it looks at: each exit of a function walks the drop of all that it owns.
ghost use Rattle.std.specs.Prelude.{◌<◌, ◌^◌};

use join_core::{Exact, OutOfMemory};
use mpx_group::{Group, Proc};
use mpx_name::{Name, NameError, Step};
use std::alloc::Global;
use std::test::Fail;

// The gathering of one process below world.
fn gathering_of_one(alloc: Global, tag: u16) -> Result<Name, Fail>
    requires { tag < 2 ^ 15 }
{
    let lone = Group::new(vec![in alloc; Proc::new(0)]?)?;
    Ok(Name::world(alloc).gathering(alloc, tag, &lone)?)
}

fn gathering_of_two(alloc: Global) -> Result<Name, Fail> {
    let pair = Group::new(vec![in alloc; Proc::new(0), Proc::new(1)]?)?;
    Ok(Name::world(alloc).gathering(alloc, 0, &pair)?)
}

fn grandchild(alloc: Global) -> Result<Name, NameError> {
    let first = Name::world(alloc).child(alloc, 0, 0)?;
    first.child(alloc, 5, 0)
}

// The names in their order, by their places.
fn ordered(alloc: Global, place: u8) -> Result<Name, Fail> {
    match place {
        0 => Ok(Name::world(alloc)),
        1 => Ok(Name::world(alloc).child(alloc, 0, 0)?),
        2 => Ok(grandchild(alloc)?),
        3 => Ok(Name::world(alloc).child(alloc, 0, 1)?),
        4 => Ok(Name::world(alloc).child(alloc, 1, 0)?),
        5 => gathering_of_one(alloc, 0),
        6 => gathering_of_two(alloc),
        _ => gathering_of_one(alloc, 1),
    }
}

fn is_copied(alloc: Global, name: &Name) -> Result<bool, OutOfMemory> {
    let copy = name.copy(alloc)?;
    Ok(name.same(name) & (copy == *name))
}

// Whether the name is above the last one, and the same as its copy.
fn rises(alloc: Global, last: &Name, name: &Name) -> Result<bool, OutOfMemory> {
    Ok((*last < *name) & (*name > *last) & (*last != *name) & is_copied(alloc, name)?)
}

// Whether the name at the next place rises above the one at this.
fn rises_at(alloc: Global, place: u8) -> Result<bool, Fail> {
    let last = ordered(alloc, place)?;
    let name = ordered(alloc, place.saturating_add(1))?;
    Ok(rises(alloc, &last, &name)?)
}

#[test]
fn names_strictly_rise(rt: HostRuntime) -> Result<(), Fail> {
    for place in 0..7 {
        assert!(rt; rises_at(rt.alloc(), place)?);
    }
    Ok(())
}

fn gathering(alloc: Global) -> Result<Name, Fail> {
    let pair = Group::new(vec![in alloc; Proc::new(3), Proc::new(1)]?)?;
    Ok(Name::world(alloc).gathering(alloc, 9, &pair)?)
}

// The name seven children below.
fn deepest(alloc: Global, gathering: Name) -> Result<Name, NameError> {
    let mut name = gathering;
    for call in 1..8 {
        name = name.child(alloc, call, 2)?;
    }
    Ok(name)
}

// Whether neither a child nor a gathering is below the name of eight steps.
fn is_full(alloc: Global, name: &Name) -> Result<bool, Fail> {
    let pair = Group::new(vec![in alloc; Proc::new(3), Proc::new(1)]?)?;
    let gathered = name.gathering(alloc, 0, &pair);
    Ok(
        (name.depth() == 8)
            & matches!(gathered, Err(NameError::DepthUsedUp))
            & has_no_child(alloc, name),
    )
}

fn has_no_child(alloc: Global, name: &Name) -> bool {
    matches!(name.child(alloc, 0, 0), Err(NameError::DepthUsedUp))
}

fn is_parent(alloc: Global, parent: &Name, name: &Name) -> Result<bool, NameError> {
    let child = parent.child(alloc, 7, 2)?;
    Ok((parent.depth() == 7) & (child == *name) & !parent.is_gathering())
}

fn has_parent(alloc: Global, name: &Name) -> Result<bool, Fail> {
    match name.parent(alloc)? {
        Some(parent) => Ok(is_parent(alloc, &parent, name)?),
        None => Ok(false),
    }
}

fn world_has_no_parent(alloc: Global) -> Result<bool, OutOfMemory> {
    Ok(Name::world(alloc).parent(alloc)?.is_none())
}

fn has_eight_steps(name: &Name) -> bool {
    matches!(name.step(0), Some(Step::Gathering { tag: 9, .. }))
        & matches!(name.step(7), Some(Step::Child { call: 7, colour: 2 }))
        & name.step(8).is_none()
}

// Whether all is so of the name of eight steps.
fn is_deepest(alloc: Global, name: &Name) -> Result<bool, Fail> {
    let parented = has_parent(alloc, name)? & world_has_no_parent(alloc)?;
    Ok(parented & is_full(alloc, name)? & has_eight_steps(name))
}

#[test]
fn goes_down_eight_steps(rt: HostRuntime) -> Result<(), Fail> {
    let gathering = gathering(rt.alloc())?;
    assert!(rt; gathering.is_gathering());
    let name = deepest(rt.alloc(), gathering)?;
    assert!(rt; is_deepest(rt.alloc(), &name)?);
    Ok(())
}
