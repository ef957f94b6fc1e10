//! What one port does.
ghost use Rattle.std.specs.Prelude.{◌≡◌, false};
ghost use Rattle.mpx_bus.specs.Ports.{CanPush, IsSamePort, PortGoesOn};
ghost use Rattle.mpx_bus.specs.Buses.{table_of};

use join_core::OutOfMemory;
use mpx_bus::{Bus, Frame, Pop, Port, Push};
use mpx_name::Name;
use mpx_node::{Finished, Harvest, Node};
use mpx_num::{Listing, Ops};
use mpx_value::Outcome;
use std::alloc::Global;
use std::sync::Wait;
use std::test::Fail;
use test_drafts::a_sum;

/// The most bytes of a frame.
pub const LIMIT: usize = 1_048_576;

#[derive(Clone, Copy)]
pub enum Act {
    // It posts its number and so much more to the next sum of all, which is this call.
    Posts(u32, i128),
    // It finds room for just so many frames, in a queue that is empty.
    HasRoom(usize),
    // It pops a frame, pushes that on three times, and then two of its own.
    Gossips,
    // It harvests the next sum of all, which is this call, and gives this.
    Harvests(u32, i128),
    // It lets the sums of calls below the first number go. The first that is left then is that of the second number's call, which gives this.
    Forgets(u32, u32, i128),
}

// The port posts its number to the next sum of all, which is this call.
fn posts(alloc: Global, port: &mut Port, number: i128, call: u32, ops: &Ops) -> Result<bool, Fail>
    requires list { ⟦<Ops as Listing>⟧.operations ops.now ≡ port.old.setup.operations }
    ensures { IsSamePort port.old port.new }
{
    let draft = a_sum(alloc, number)?;
    Ok(port.post(alloc, &Name::world(alloc), draft, ops)? == call)
}

// Whether so many frames come out, and then none.
fn drains<R: Wait>(rt: &R, alloc: Global, bus: &Bus, port: &mut Port, room: usize) -> bool
    requires queue { port.old.table ≡ table_of bus.now }
    requires plan { port.old.setup.planned ≡ false }
    ensures { IsSamePort port.old port.new }
{
    for _ in 0..room {
        let took = matches!(bus.pop(rt, alloc, port), Pop::Took(_));
        if !took {
            return false;
        }
    }
    matches!(bus.pop(rt, alloc, port), Pop::Empty)
}

// Whether the port's next own frame comes back and goes in once another came out, and then so many come out, and no more.
fn pushes_on<R: Wait>(
    rt: &R,
    alloc: Global,
    bus: &Bus,
    port: &mut Port,
    room: usize,
) -> Result<bool, Fail>
    requires queue { port.old.table ≡ table_of bus.now }
    requires plan { port.old.setup.planned ≡ false }
    ensures { IsSamePort port.old port.new }
{
    let Push::Full(frame) = bus.push_own(rt, alloc, port, LIMIT)? else {
        return Ok(false);
    };
    let took = matches!(bus.pop(rt, alloc, port), Pop::Took(_));
    let pushed = matches!(bus.push_on(rt, port, frame), Push::Pushed);
    Ok(took && pushed && drains(rt, alloc, bus, port, room))
}

// Whether just so many frames of the port's own go in.
fn has_room<R: Wait>(
    rt: &R,
    alloc: Global,
    bus: &Bus,
    port: &mut Port,
    room: usize,
) -> Result<bool, Fail>
    requires queue { port.old.table ≡ table_of bus.now }
    requires plan { port.old.setup.planned ≡ false }
    ensures { IsSamePort port.old port.new }
{
    for _ in 0..room {
        if let Push::Full(_) = bus.push_own(rt, alloc, port, LIMIT)? {
            return Ok(false);
        }
    }
    pushes_on(rt, alloc, bus, port, room)
}

// The frame goes in; where there is no room, once the port has popped another.
fn pushes<R: Wait>(rt: &R, alloc: Global, bus: &Bus, port: &mut Port, frame: Frame) -> bool
    requires queue { port.old.table ≡ table_of bus.now }
    requires plan { port.old.setup.planned ≡ false }
    requires frame { CanPush port.old frame }
    ensures { PortGoesOn port.old port.new }
{
    let Push::Full(frame) = bus.push_on(rt, port, frame) else {
        return true;
    };
    let took = matches!(bus.pop(rt, alloc, port), Pop::Took(_));
    let pushed = matches!(bus.push_on(rt, port, frame), Push::Pushed);
    took & pushed
}

// The frame goes in three times, twice by copies.
fn pushes_thrice<R: Wait>(
    rt: &R,
    alloc: Global,
    bus: &Bus,
    port: &mut Port,
    frame: Frame,
) -> Result<bool, Fail>
    requires queue { port.old.table ≡ table_of bus.now }
    requires plan { port.old.setup.planned ≡ false }
    requires frame { CanPush port.old frame }
    ensures { PortGoesOn port.old port.new }
{
    let first = frame.copy()?;
    let second = frame.copy()?;
    let once = pushes(rt, alloc, bus, port, first);
    let twice = pushes(rt, alloc, bus, port, second);
    let thrice = pushes(rt, alloc, bus, port, frame);
    Ok(once & twice & thrice)
}

// The port pops a frame, where there is one, and pushes it on three times.
fn pops_and_pushes<R: Wait>(rt: &R, alloc: Global, bus: &Bus, port: &mut Port) -> Result<bool, Fail>
    requires queue { port.old.table ≡ table_of bus.now }
    requires plan { port.old.setup.planned ≡ false }
    ensures { IsSamePort port.old port.new }
{
    let Pop::Took(frame) = bus.pop(rt, alloc, port) else {
        return Ok(true);
    };
    pushes_thrice(rt, alloc, bus, port, frame)
}

// The port's next own frame goes in.
fn pushes_own<R: Wait>(rt: &R, alloc: Global, bus: &Bus, port: &mut Port) -> Result<bool, Fail>
    requires queue { port.old.table ≡ table_of bus.now }
    requires plan { port.old.setup.planned ≡ false }
    ensures { IsSamePort port.old port.new }
{
    match bus.push_own(rt, alloc, port, LIMIT)? {
        Push::Pushed => Ok(true),
        Push::Full(frame) => Ok(pushes(rt, alloc, bus, port, frame)),
    }
}

fn gossips<R: Wait>(rt: &R, alloc: Global, bus: &Bus, port: &mut Port) -> Result<bool, Fail>
    requires queue { port.old.table ≡ table_of bus.now }
    requires plan { port.old.setup.planned ≡ false }
    ensures { IsSamePort port.old port.new }
{
    let popped = pops_and_pushes(rt, alloc, bus, port)?;
    let own = pushes_own(rt, alloc, bus, port)?;
    let next = pushes_own(rt, alloc, bus, port)?;
    Ok(popped && own && next)
}

/// Whether the next sum of all, which is this call, is done.
pub fn harvests(alloc: Global, port: &mut Port, call: u32, ops: &Ops) -> Result<bool, OutOfMemory>
    requires list { ⟦<Ops as Listing>⟧.operations ops.now ≡ port.old.setup.operations }
    ensures { IsSamePort port.old port.new }
{
    Ok(port.harvest(alloc, &Name::world(alloc), ops)? == Harvest::Done(call))
}

/// The sum that a call gave, where it gave one.
pub fn sum_in(finished: &Finished) -> Option<i128> {
    match &finished.outcome {
        Outcome::Items(items) => items.nums().first().copied(),
        _ => None,
    }
}

/// What this sum of all gave a process, where that has it.
pub fn sum_at(alloc: Global, node: &Node, call: u32) -> Option<i128> {
    sum_in(node.result(&Name::world(alloc), call)?)
}

// Whether it has none of the sums of all below this call.
fn has_none_below(alloc: Global, node: &Node, call: u32) -> bool {
    for gone in 0..call {
        if sum_at(alloc, node, gone).is_some() {
            return false;
        }
    }
    true
}

// Lets the sums of all below a call go. Whether the first that is left then is that of this call, which gives this.
fn forgets(alloc: Global, port: &mut Port, below: u32, call: u32, sum: i128) -> bool
    ensures { IsSamePort port.old port.new }
{
    port.forget(&Name::world(alloc), below);
    has_none_below(alloc, port.node(), call) && sum_at(alloc, port.node(), call) == Some(sum)
}

/// Whether the port with this number does that.
pub fn does<R: Wait>(
    rt: &R,
    alloc: Global,
    bus: &Bus,
    port: &mut Port,
    number: i128,
    act: Act,
    ops: &Ops,
) -> Result<bool, Fail>
    requires list { ⟦<Ops as Listing>⟧.operations ops.now ≡ port.old.setup.operations }
    requires queue { port.old.table ≡ table_of bus.now }
    requires plan { port.old.setup.planned ≡ false }
    ensures { IsSamePort port.old port.new }
{
    match act {
        Act::Posts(call, more) => posts(alloc, port, number.wrapping_add(more), call, ops),
        Act::HasRoom(room) => has_room(rt, alloc, bus, port, room),
        Act::Gossips => gossips(rt, alloc, bus, port),
        Act::Harvests(call, sum) => {
            Ok(harvests(alloc, port, call, ops)? && sum_at(alloc, port.node(), call) == Some(sum))
        }
        Act::Forgets(below, call, sum) => Ok(forgets(alloc, port, below, call, sum)),
    }
}
