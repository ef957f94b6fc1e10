//! Two ports at a queue with room for one frame.
ghost use Rattle.std.specs.Prelude.{◌≡◌, [], false, IfOk};
ghost use Rattle.mpx_bus.specs.Buses.{table_of};
ghost use Rattle.mpx_bus.specs.Ports.{IsSamePort};
ghost use Rattle.process_tests.specs.Fresh.{ArePair};

use crate::ports::{LIMIT, harvests, sum_at};
use mpx_bus::{Bus, Pop, Port, Push};
use mpx_name::Name;
use mpx_num::{Listing, Ops};
use std::alloc::Global;
use std::marker::Brand;
use std::sync::Wait;
use std::test::Fail;
use test_drafts::a_sum;

/// What the two ports come to: how many instances both have finished when they meet, and the sum that each has.
#[derive(Clone, Copy, PartialEq, Eq, Debug)]
pub struct Ended {
    pub both: u64,
    pub first: Option<i128>,
    pub second: Option<i128>,
}

// The first port's frame fills the queue, so that the second port's comes back. That goes in once the second has popped the other, and found
// no more; and the first pops it. Whether all came so.
fn swap_frames<R: Wait>(
    rt: &R,
    alloc: Global,
    bus: &Bus,
    first: &mut Port,
    second: &mut Port,
) -> Result<bool, Fail>
    requires first { (first.old.table ≡ table_of bus.now) × (first.old.setup.planned ≡ false) }
    requires second { (second.old.table ≡ table_of bus.now) × (second.old.setup.planned ≡ false) }
    ensures first { IsSamePort first.old first.new }
    ensures second { IsSamePort second.old second.new }
{
    let pushed = matches!(bus.push_own(rt, alloc, first, LIMIT)?, Push::Pushed);
    let Push::Full(frame) = bus.push_own(rt, alloc, second, LIMIT)? else {
        return Ok(false);
    };
    let took = matches!(bus.pop(rt, alloc, second), Pop::Took(_));
    let empty = matches!(bus.pop(rt, alloc, second), Pop::Empty);
    let pushed_on = matches!(bus.push_on(rt, second, frame), Push::Pushed);
    let took_back = matches!(bus.pop(rt, alloc, first), Pop::Took(_));
    Ok(pushed & took & empty & pushed_on & took_back)
}

// The port posts its number to a sum of all.
fn post(alloc: Global, port: &mut Port, number: i128, ops: &Ops) -> Result<u32, Fail>
    requires list { ⟦<Ops as Listing>⟧.operations ops.now ≡ port.old.setup.operations }
    ensures { IsSamePort port.old port.new }
{
    let draft = a_sum(alloc, number)?;
    Ok(port.post(alloc, &Name::world(alloc), draft, ops)?)
}

// Both post, and swap frames; where it is asked for, both harvest. Whether all came so.
fn go_on<R: Wait>(
    rt: &R,
    alloc: Global,
    bus: &Bus,
    first: &mut Port,
    second: &mut Port,
    harvested: bool,
    ops: &Ops,
) -> Result<bool, Fail>
    requires list { (⟦<Ops as Listing>⟧.operations ops.now ≡ first.old.setup.operations) × (⟦<Ops as Listing>⟧.operations ops.now ≡ second.old.setup.operations) }
    requires first { (first.old.table ≡ table_of bus.now) × (first.old.setup.planned ≡ false) }
    requires second { (second.old.table ≡ table_of bus.now) × (second.old.setup.planned ≡ false) }
    ensures first { IsSamePort first.old first.new }
    ensures second { IsSamePort second.old second.new }
{
    let posted = post(alloc, first, 1, ops)? == 0 && post(alloc, second, 2, ops)? == 0;
    let swapped = swap_frames(rt, alloc, bus, first, second)?;
    if !harvested {
        return Ok(posted && swapped);
    }
    let all = harvests(alloc, first, 0, ops)? && harvests(alloc, second, 0, ops)?;
    Ok(posted && swapped && all)
}

// The two ports meet.
fn met(alloc: Global, bus: &Bus, first: Port, second: Port) -> Ended
    requires first { (first.table ≡ table_of bus.now) × (first.setup.planned ≡ false) }
    requires second { (second.table ≡ table_of bus.now) × (second.setup.planned ≡ false) }
    requires setup { second.setup ≡ first.setup }
{
    let met = bus.meet(first, second);
    Ended {
        both: met.both,
        first: sum_at(alloc, &met.first, 0),
        second: sum_at(alloc, &met.second, 0),
    }
}

// Does that with these two ports.
fn go_on_and_meet<R: Wait>(
    rt: &R,
    alloc: Global,
    bus: &Bus,
    mut first: Port,
    mut second: Port,
    harvested: bool,
    ops: &Ops,
) -> Result<Option<Ended>, Fail>
    requires list { ⟦<Ops as Listing>⟧.operations ops.now ≡ [] }
    requires ports { ArePair [] (table_of bus.now) first second }
{
    let so = go_on(rt, alloc, bus, &mut first, &mut second, harvested, ops);
    let ended = met(alloc, bus, first, second);
    if so? { Ok(Some(ended)) } else { Ok(None) }
}

/// What two ports of a new bus with room for one frame come to, which post 1 and 2 to a sum and swap their frames; with harvests or without.
pub fn two_at_a_queue<R: Wait>(
    rt: &R,
    alloc: Global,
    harvested: bool,
    ops: &Ops,
) -> Result<Option<Ended>, Fail>
    requires list { ⟦<Ops as Listing>⟧.operations ops.now ≡ [] }
{
    let (bus, first, second) = two_ports(alloc)?;
    go_on_and_meet(rt, alloc, &bus, first, second, harvested, ops)
}

// A bus of two ranks with room for one frame, and its ports.
fn two_ports(alloc: Global) -> Result<(Bus, Port, Port), Fail>
    ensures { IfOk result (λ r. ArePair [] (table_of r.0) r.1 r.2) }
{
    let (bus, mut ports) = Bus::new::<Brand>(alloc, 1, 2, 2)?;
    let Some(second) = ports.pop() else {
        return Err(Fail::from("no port"));
    };
    let Some(first) = ports.pop() else {
        return Err(Fail::from("no port"));
    };
    Ok((bus, first, second))
}
