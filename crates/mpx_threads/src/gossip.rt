//! The gossip of one process: it takes frames out of the queue and puts its own in.
ghost use Rattle.std.specs.Prelude.{◌≡◌, IfNone, IfOk, IfSome};
ghost use Rattle.mpx_bus.specs.Buses.{table_of};
ghost use Rattle.mpx_threads.specs.Gates.{GivesUpAt, GivesUpWithin};

use crate::calm::Calm;
use crate::gate::{BusStep, Gate, Pass};
use crate::watch::{Signal, Watch};
use join_core::OutOfMemory;
use mpx_bus::Bus;
use mpx_group::Proc;
use mpx_num::{Listing, Ops};
use mpx_shared::{PortLock, Pull, SharedPort};
use std::alloc::Global;
use std::sync::Wait;

/// What all processes of a run have in common: the queue, the gate, what their threads tell each other, how many ranks there are, and
/// how many turns each process makes at most.
#[derive(Drop)]
pub(crate) struct Bench<'a, G> {
    pub(crate) bus: &'a Bus,
    pub(crate) gate: &'a G,
    pub(crate) watch: &'a Watch,
    pub(crate) ranks: u8,
    pub(crate) relays: u8,
    pub(crate) turns: u32,
}

/// How a gossip ended.
#[derive(Clone, Copy, Debug, Drop, PartialEq, Eq)]
pub(crate) enum GossipEnd {
    /// Nobody needed it more, or all its turns were made.
    Over,
    /// The gate gave up at one of its own steps.
    GaveUp,
}

/// Gossips until nobody needs it more or can hear anything new, the gate gives up, memory is wanting, or all turns are made. It tells the
/// rank at its end, and the run to stop where it ended for the gate or for memory.
pub(crate) fn gossip<L: PortLock, G: Gate, R: Wait>(
    rt: &R,
    alloc: Global,
    bench: &Bench<'_, G>,
    me: Proc,
    port: &SharedPort<L>,
    signal: &Signal,
    ops: &Ops,
) -> Result<GossipEnd, OutOfMemory>
    requires list { ⟦<Ops as Listing>⟧.operations ops.now ≡ L.setup.operations }
    requires queue { table_of bench.now.bus.now ≡ L.table }
    ensures { IfOk result (λ end. end ≡ GossipEnd.GaveUp → GivesUpWithin (G.gives_up bench.now.gate.now) me bench.now.turns) }
{
    let gossiped = make_turns(rt, alloc, bench, me, port, signal, ops);
    match gossiped {
        Ok(GossipEnd::Over) => bench.watch.gossip_ends(me),
        Ok(GossipEnd::GaveUp) => bench.watch.stop(),
        Err(OutOfMemory) => bench.watch.stop(),
    }
    signal.end();
    gossiped
}

fn make_turns<L: PortLock, G: Gate, R: Wait>(
    rt: &R,
    alloc: Global,
    bench: &Bench<'_, G>,
    me: Proc,
    port: &SharedPort<L>,
    signal: &Signal,
    ops: &Ops,
) -> Result<GossipEnd, OutOfMemory>
    requires list { ⟦<Ops as Listing>⟧.operations ops.now ≡ L.setup.operations }
    requires queue { table_of bench.now.bus.now ≡ L.table }
    ensures { IfOk result (λ end. end ≡ GossipEnd.GaveUp → GivesUpWithin (G.gives_up bench.now.gate.now) me bench.now.turns) }
{
    let mut calm = Calm::new(me, port.fingerprint(rt));
    for nth in 0..bench.turns {
        if bench.watch.is_over(bench.ranks) {
            return Ok(GossipEnd::Over);
        }
        match turn(rt, alloc, bench, me, port, nth, ops)? {
            Pass::Go => {}
            Pass::GiveUp => return Ok(GossipEnd::GaveUp),
        }
        if calm.note(bench.watch, me, port.fingerprint(rt)) {
            signal.tell();
        }
        calm.rest(rt, bench.watch);
    }
    Ok(GossipEnd::Over)
}

// A frame out, and one in, as far as the gate lets them pass.
fn turn<L: PortLock, G: Gate, R: Wait>(
    rt: &R,
    alloc: Global,
    bench: &Bench<'_, G>,
    me: Proc,
    port: &SharedPort<L>,
    nth: u32,
    ops: &Ops,
) -> Result<Pass, OutOfMemory>
    requires list { ⟦<Ops as Listing>⟧.operations ops.now ≡ L.setup.operations }
    requires queue { table_of bench.now.bus.now ≡ L.table }
    ensures { IfOk result (λ pass. pass ≡ Pass.GiveUp → GivesUpAt (G.gives_up bench.now.gate.now) me nth) }
{
    let Some(leave) = ask(bench.gate, me, BusStep::Pop, nth) else {
        return Ok(Pass::GiveUp);
    };
    let pulled = take_out(rt, alloc, bench.bus, port, leave, nth, ops);
    match pulled {
        Pull::OutOfMemory(_) => return Err(OutOfMemory),
        Pull::Empty => {}
        Pull::Took => {}
    }
    let Some(leave) = ask(bench.gate, me, BusStep::Push, nth) else {
        return Ok(Pass::GiveUp);
    };
    put_in(rt, alloc, bench.bus, port, leave, nth)?;
    Ok(Pass::Go)
}

// That the gate lets a process take its nth step of this kind.
#[derive(Drop)]
struct Leave {
    step: BusStep,
    nth: u32,
}

// Asks the gate for a step: its leave, where it doesn't give up.
fn ask<G: Gate>(gate: &G, me: Proc, step: BusStep, nth: u32) -> Option<Leave>
    ensures leave { IfSome result (λ leave. (leave.step ≡ step) × (leave.nth ≡ nth)) }
    ensures none { IfNone result (GivesUpAt (G.gives_up gate.now) me nth) }
{
    match gate.pass(me, step, u64::from(nth)) {
        Pass::Go => Some(Leave { step, nth }),
        Pass::GiveUp => None,
    }
}

// Takes a frame out, with the gate's leave for that.
fn take_out<L: PortLock, R: Wait>(
    rt: &R,
    alloc: Global,
    bus: &Bus,
    port: &SharedPort<L>,
    leave: Leave,
    nth: u32,
    ops: &Ops,
) -> Pull
    requires leave { (leave.step ≡ BusStep.Pop) × (leave.nth ≡ nth) }
    requires list { ⟦<Ops as Listing>⟧.operations ops.now ≡ L.setup.operations }
    requires queue { table_of bus.now ≡ L.table }
{
    let _ = (leave, nth);
    port.pull(rt, alloc, bus, ops)
}

// Puts a frame in, with the gate's leave for that.
fn put_in<L: PortLock, R: Wait>(
    rt: &R,
    alloc: Global,
    bus: &Bus,
    port: &SharedPort<L>,
    leave: Leave,
    nth: u32,
) -> Result<(), OutOfMemory>
    requires leave { (leave.step ≡ BusStep.Push) × (leave.nth ≡ nth) }
    requires queue { table_of bus.now ≡ L.table }
{
    let _ = (leave, nth);
    let _ = port.put(rt, alloc, bus)?;
    Ok(())
}
