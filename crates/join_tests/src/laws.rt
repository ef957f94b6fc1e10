//! The laws of joins, each seen of two values. No function owns more than it looks at: each exit of a function walks the drop of
//! all that it owns.
use join_core::{EmptyDelta, Join, OutOfMemory, empty_delta_laws};
use std::alloc::Global;

// Whether the join is that from the other side.
fn is_turned<J: Join>(alloc: Global, joined: &J, a: &J, b: &J) -> Result<bool, OutOfMemory> {
    let turned = b.joined(alloc, a)?;
    Ok(joined.same(&turned))
}

// Whether the delta serves the other side as well as the value.
fn is_served<J: Join>(alloc: Global, joined: &J, a: &J, b: &J) -> Result<bool, OutOfMemory> {
    let delta = a.delta(alloc, b)?;
    is_turned(alloc, joined, &delta, b)
}

fn is_copied<J: Join>(alloc: Global, joined: &J) -> Result<bool, OutOfMemory> {
    let copy = joined.copy(alloc)?;
    Ok(joined.same(&copy))
}

// Whether the other, joined in place to a copy of the value, leaves the wanted one.
pub fn joins_in<J: Join>(
    alloc: Global,
    value: &J,
    other: &J,
    wanted: &J,
) -> Result<bool, OutOfMemory> {
    let mut copy = value.copy(alloc)?;
    copy.join_in(alloc, other)?;
    Ok(copy.same(wanted))
}

// Whether the join is above both, and the same whichever way it is made.
fn is_joined<J: Join>(alloc: Global, a: &J, b: &J) -> Result<bool, OutOfMemory> {
    let joined = a.joined(alloc, b)?;
    let turned = is_turned(alloc, &joined, a, b)?;
    let served = is_served(alloc, &joined, a, b)?;
    let copied = is_copied(alloc, &joined)?;
    let in_place = joins_in(alloc, a, b, &joined)?;
    Ok(turned & served & copied & in_place & a.leq(&joined) & b.leq(&joined))
}

// Whether the delta of the value, of what is known, is below the other.
fn has_delta_below<J: Join>(
    alloc: Global,
    value: &J,
    known: &J,
    other: &J,
) -> Result<bool, OutOfMemory> {
    let delta = value.delta(alloc, known)?;
    Ok(delta.leq(other))
}

// Whether the laws of joins are seen to hold of these two values.
pub fn join_laws_hold<J: Join>(alloc: Global, a: &J, b: &J) -> Result<bool, OutOfMemory> {
    Ok(is_joined(alloc, a, b)? & has_delta_below(alloc, a, b, a)?)
}

// Whether the laws of joins are seen to hold of these two values, and the first one's delta against itself tells nothing.
pub fn laws_hold<J: EmptyDelta>(alloc: Global, a: &J, b: &J) -> Result<bool, OutOfMemory> {
    empty_delta_laws::<J>();
    Ok(join_laws_hold(alloc, a, b)? & has_delta_below(alloc, a, a, b)?)
}
