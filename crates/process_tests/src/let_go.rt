//! A port that lets results go between two locks.
ghost use Rattle.std.specs.Prelude.{◌≡◌, ◌<◌, false, length, [], IfOk};
ghost use Rattle.mpx_bus.specs.Buses.{table_of};
ghost use Rattle.mpx_bus.specs.Ports.{PortGoesOn};
ghost use Rattle.mpx_shared.specs.LawfulPorts.{IsLawful, made_in};
ghost use Rattle.process_tests.specs.Fresh.{IsFresh};

use crate::shared_pairs::{Shared, is_told, post_sum, share};
use join_core::OutOfMemory;
use mpx_bus::{Bus, Port};
use mpx_name::Name;
use mpx_num::{Listing, Ops};
use mpx_shared::{PortLock, SharedPort, Ticket, TicketTested};
use std::alloc::Global;
use std::marker::Brand;
use std::sync::Wait;
use std::sync::ledger::Blank;
use std::test::Fail;

// The port of the only rank posts 7 and then 8 to sums of all, and stores both sums.
fn two_sums<L: PortLock, R: Wait>(
    rt: &R,
    alloc: Global,
    bus: &Bus,
    shared: &mut Shared<L>,
    ops: &Ops,
) -> Result<(Ticket, Ticket), Fail>
    requires list { ⟦<Ops as Listing>⟧.operations ops.now ≡ L.setup.operations }
    requires ledger { (L.all ≡ L.parts) × (0 < L.parts) }
    requires bus { (L.setup.planned ≡ false) × (table_of bus.now ≡ L.table) }
{
    let first = post_sum(rt, alloc, shared, 7, ops)?;
    let second = post_sum(rt, alloc, shared, 8, ops)?;
    shared.port.gossip(rt, alloc, bus, 1, ops)?;
    Ok((first, second))
}

// Does that under a lock, and takes the port out.
fn with_two_sums<L: PortLock, R: Wait>(
    rt: &R,
    alloc: Global,
    bus: &Bus,
    port: Port,
    blank: Blank,
    ops: &Ops,
) -> (Port, Result<(Ticket, Ticket), Fail>)
    requires list { ⟦<Ops as Listing>⟧.operations ops.now ≡ L.setup.operations }
    requires ledger { (blank.name ≡ L.name) × ((blank.parts ≡ L.parts) × ((L.all ≡ L.parts) × (0 < L.parts))) }
    requires port { (0 ≡ L.me) × (IsLawful L.table L.setup L.me port × ((port.journal ≡ L.opening) × (length (made_in port) ≡ L.before))) }
    requires bus { (L.setup.planned ≡ false) × (table_of bus.now ≡ L.table) }
    ensures { IsLawful L.table L.setup L.me result.0 }
{
    let mut shared = share::<L>(alloc, port, 0, blank);
    let tickets = two_sums(rt, alloc, bus, &mut shared, ops);
    let Shared { port, poster } = shared;
    (port.into_port(poster), tickets)
}

// Whether the port tells that the first ticket's result is let go, and of the second the sum 8.
fn first_is_gone<L: PortLock, R: Wait>(
    rt: &R,
    alloc: Global,
    port: &SharedPort<L>,
    tickets: &(Ticket, Ticket),
) -> Result<bool, OutOfMemory> {
    let tested = port.test(rt, alloc, &tickets.0)?;
    let gone = matches!(&tested, TicketTested::LetGo);
    drop(tested);
    Ok(gone && is_told(rt, alloc, port, &tickets.1, Some(8))?)
}

// Whether it tells so once it is under a lock again.
fn tells_again<L: PortLock, R: Wait>(
    rt: &R,
    alloc: Global,
    port: Port,
    blank: Blank,
    tickets: &(Ticket, Ticket),
) -> Result<bool, OutOfMemory>
    requires ledger { (blank.name ≡ L.name) × ((blank.parts ≡ L.parts) × (L.all ≡ L.parts)) }
    requires port { (0 ≡ L.me) × (IsLawful L.table L.setup L.me port × ((port.journal ≡ L.opening) × (length (made_in port) ≡ L.before))) }
{
    let shared = share::<L>(alloc, port, 0, blank);
    let told = first_is_gone(rt, alloc, &shared.port, tickets);
    drop(shared);
    told
}

// Lets the first call's result go.
fn let_first_go(alloc: Global, port: &mut Port)
    ensures { PortGoesOn port.old port.new }
{
    let world = Name::world(alloc);
    port.forget(&world, 1);
}

// Stores two sums under a lock, lets the first go, and asks under another lock.
fn between_two_locks<R: Wait>(
    rt: &R,
    alloc: Global,
    bus: &Bus,
    port: Port,
    ops: &Ops,
) -> Result<bool, Fail>
    requires list { ⟦<Ops as Listing>⟧.operations ops.now ≡ [] }
    requires port { IsFresh [] (table_of bus.now) 0 port }
{
    let blank = Blank::new(1);
    let (mut taken, tickets) = with_two_sums::<Brand, R>(rt, alloc, bus, port, blank, ops);
    let_first_go(alloc, &mut taken);
    // so that the proof knows that the port stands where its journal says
    let _node = taken.node();
    let tickets = tickets?;
    let again = Blank::new(1);
    let told = tells_again::<Brand, R>(rt, alloc, taken, again, &tickets);
    drop(tickets);
    Ok(told?)
}

/// A bus of one rank, and its port.
pub fn one_port(alloc: Global) -> Result<(Bus, Port), Fail>
    ensures { IfOk result (λ r. IsFresh [] (table_of r.0) 0 r.1) }
{
    let (bus, mut ports) = Bus::new::<Brand>(alloc, 4, 1, 1)?;
    let Some(port) = ports.pop() else {
        return Err(Fail::from("no port"));
    };
    Ok((bus, port))
}

/// Whether a port that let the first of two results go between two locks tells that of its ticket, and the second's result.
pub fn is_told_as_let_go<R: Wait>(rt: &R, alloc: Global, ops: &Ops) -> Result<bool, Fail>
    requires list { ⟦<Ops as Listing>⟧.operations ops.now ≡ [] }
{
    let (bus, port) = one_port(alloc)?;
    between_two_locks(rt, alloc, &bus, port, ops)
}
