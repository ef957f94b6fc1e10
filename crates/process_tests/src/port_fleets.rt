//! What all ports of a bus do in turn, and two of them in a thread each.
ghost use Rattle.std.specs.Prelude.{◌≡◌, ◌<◌, ◌≤◌, All, [], false, map};
ghost use Rattle.mpx_num.specs.Own.{operation_of};
ghost use Rattle.mpx_bus.specs.Ports.{IsSamePort};
ghost use Rattle.mpx_bus.specs.Buses.{table_of};
ghost use Rattle.process_tests.specs.Homes.{IsHome};

use crate::ports::{Act, LIMIT, does, harvests, sum_at};
use join_core::OutOfMemory;
use mpx_bus::{Bus, Port};
use mpx_num::{Listing, Ops};
use std::alloc::Global;
use std::marker::Brand;
use std::sync::Wait;
use std::test::Fail;
use std::thread::{Threads, join, yield_now};

// How many ranks there are, and for how many frames the bus has room; what all ports do in their order, each so many times; and for how many
// turns at most the last two then work, in a thread each.
pub type Fleet = (u8, usize, &'static [(u32, Act)], u32);

// Whether each port does that.
fn all_do<R: Wait>(
    rt: &R,
    alloc: Global,
    bus: &Bus,
    ranks: u8,
    ports: &mut [Port],
    act: Act,
    ops: &Ops,
) -> Result<bool, Fail>
    requires list { ⟦<Ops as Listing>⟧.operations ops.now ≡ [] }
    requires homes { All (IsHome bus.now ranks) ports.old }
    ensures { All (IsHome bus.now ranks) ports.new }
{
    let mut all = ports.len() == ranks as usize;
    for i in 0..ports.len() {
        all = does(rt, alloc, bus, &mut ports[i], i as i128, act, ops)? && all;
    }
    Ok(all)
}

// Whether all do all of that.
fn go_on<R: Wait>(
    rt: &R,
    alloc: Global,
    bus: &Bus,
    ranks: u8,
    ports: &mut [Port],
    acts: &[(u32, Act)],
    ops: &Ops,
) -> Result<bool, Fail>
    requires list { ⟦<Ops as Listing>⟧.operations ops.now ≡ [] }
    requires homes { All (IsHome bus.now ranks) ports.old }
    ensures { All (IsHome bus.now ranks) ports.new }
{
    let mut all = true;
    for step in acts {
        for _ in 0..step.0 {
            all = all_do(rt, alloc, bus, ranks, ports, step.1, ops)? && all;
        }
    }
    Ok(all)
}

// Pushes, pops and harvests. Whether the sum is done.
fn harvests_in_turn<R: Wait>(
    rt: &R,
    alloc: Global,
    bus: &Bus,
    port: &mut Port,
    ops: &Ops,
) -> Result<bool, OutOfMemory>
    requires list { ⟦<Ops as Listing>⟧.operations ops.now ≡ port.old.setup.operations }
    requires queue { port.old.table ≡ table_of bus.now }
    requires plan { port.old.setup.planned ≡ false }
    ensures { IsSamePort port.old port.new }
{
    drop(bus.push_own(rt, alloc, port, LIMIT)?);
    drop(bus.pop(rt, alloc, port));
    harvests(alloc, port, 0, ops)
}

// Does so until the sum is done, and pushes once more, so that the other gets on.
fn work<R: Wait>(rt: &R, alloc: Global, bus: &Bus, mut port: Port, turns: u32, ops: &Ops) -> Port
    requires list { ⟦<Ops as Listing>⟧.operations ops.now ≡ port.setup.operations }
    requires queue { port.table ≡ table_of bus.now }
    requires plan { port.setup.planned ≡ false }
    ensures { IsSamePort port result }
{
    for _ in 0..turns {
        let done = harvests_in_turn(rt, alloc, bus, &mut port, ops);
        if done == Ok(true) {
            drop(bus.push_own(rt, alloc, &mut port, LIMIT));
            return port;
        }
        yield_now();
    }
    port
}

// Two ports work in a thread each, and then meet. How many instances both have finished.
fn work_and_meet<R: Threads + Wait + Sync>(
    rt: &R,
    alloc: Global,
    bus: &Bus,
    first: Port,
    second: Port,
    turns: u32,
    ops: &Ops,
) -> u64
    requires list { ⟦<Ops as Listing>⟧.operations ops.now ≡ first.setup.operations }
    requires first { (first.table ≡ table_of bus.now) × (first.setup.planned ≡ false) }
    requires second { (second.table ≡ table_of bus.now) × (second.setup.planned ≡ false) }
    requires setup { second.setup ≡ first.setup }
{
    let (first, second) = join(
        rt,
        move || -> Port
            requires { (first.table ≡ table_of bus.now) × ((first.setup.planned ≡ false) × (map (λ b. operation_of (word_bytes (b.vtable, b.value)) (fits_type (b.vtable, b.value)) (combination (b.vtable, b.value))) ops.now.list.items ≡ first.setup.operations)) }
            ensures { IsSamePort first result }
        { work(rt, alloc, bus, first, turns, ops) },
        move || -> Port
            requires { (second.table ≡ table_of bus.now) × ((second.setup.planned ≡ false) × (map (λ b. operation_of (word_bytes (b.vtable, b.value)) (fits_type (b.vtable, b.value)) (combination (b.vtable, b.value))) ops.now.list.items ≡ second.setup.operations)) }
            ensures { IsSamePort second result }
        { work(rt, alloc, bus, second, turns, ops) },
    );
    bus.meet(first, second).both
}

// The same of the last two ports.
fn last_two_meet<R: Threads + Wait + Sync>(
    rt: &R,
    alloc: Global,
    bus: &Bus,
    ranks: u8,
    mut ports: Vec<Port>,
    turns: u32,
    ops: &Ops,
) -> Option<u64>
    requires list { ⟦<Ops as Listing>⟧.operations ops.now ≡ [] }
    requires homes { All (IsHome bus.now ranks) ports.items }
{
    let _ = ranks;
    let second = ports.pop()?;
    let first = ports.pop()?;
    Some(work_and_meet(rt, alloc, bus, first, second, turns, ops))
}

/// How many instances two ports of a new bus have both finished in the end, where all did all that they were to do.
pub fn both_finish<R: Threads + Wait + Sync>(
    rt: &R,
    alloc: Global,
    fleet: Fleet,
    ops: &Ops,
) -> Result<Option<u64>, Fail>
    requires list { ⟦<Ops as Listing>⟧.operations ops.now ≡ [] }
{
    let (ranks, room, acts, turns) = fleet;
    if ranks == 0 || ranks > 64 || room == 0 || room > 65_536 {
        return Err(Fail::from("no bus"));
    }
    let (bus, mut ports) = Bus::new::<Brand>(alloc, room, ranks, ranks)?;
    let did = go_on(rt, alloc, &bus, ranks, ports.as_mut_slice(), acts, ops);
    let both = last_two_meet(rt, alloc, &bus, ranks, ports, turns, ops);
    drop(bus);
    if did? { Ok(both) } else { Ok(None) }
}

// Whether ports that meet leave a node each, which has the first sum of all, and that is this.
fn meet_with_sum(
    alloc: Global,
    bus: &Bus,
    ranks: u8,
    first: Port,
    others: Vec<Port>,
    sum: i128,
) -> Result<bool, OutOfMemory>
    requires first { IsHome bus.now ranks first }
    requires others { All (IsHome bus.now ranks) others.items }
{
    let nodes = bus.meet_all::<Brand>(alloc, first, others)?;
    let mut all = nodes.len() == ranks as usize;
    for node in nodes.as_slice() {
        all = sum_at(alloc, node, 0) == Some(sum) && all;
    }
    Ok(all)
}

// The same of all these ports, the last one first.
fn all_meet_with_sum(
    alloc: Global,
    bus: &Bus,
    ranks: u8,
    mut ports: Vec<Port>,
    sum: i128,
) -> Result<bool, OutOfMemory>
    requires { All (IsHome bus.now ranks) ports.items }
{
    let Some(first) = ports.pop() else {
        return Ok(false);
    };
    meet_with_sum(alloc, bus, ranks, first, ports, sum)
}

/// Whether eight ports of a new bus do all that, and then meet, each with this sum of all.
pub fn all_meet<R: Wait>(
    rt: &R,
    alloc: Global,
    acts: &[(u32, Act)],
    sum: i128,
    ops: &Ops,
) -> Result<bool, Fail>
    requires list { ⟦<Ops as Listing>⟧.operations ops.now ≡ [] }
{
    let (bus, mut ports) = Bus::new::<Brand>(alloc, 256, 8, 8)?;
    let did = go_on(rt, alloc, &bus, 8, ports.as_mut_slice(), acts, ops);
    let met = all_meet_with_sum(alloc, &bus, 8, ports, sum);
    drop(bus);
    Ok(did? && met?)
}
