//! Two ports under locks at one bus.
ghost use Rattle.std.specs.Prelude.{◌≡◌, ◌<◌, false, length, [], IfOk};
ghost use Rattle.mpx_bus.specs.Buses.{table_of};
ghost use Rattle.mpx_shared.specs.LawfulPorts.{IsLawful, made_in};
ghost use Rattle.process_tests.specs.Fresh.{ArePair};

use crate::ports::sum_in;
use join_core::{Exact, OutOfMemory};
use mpx_bus::{Bus, Port};
use mpx_group::Proc;
use mpx_name::Name;
use mpx_num::{Listing, Ops};
use mpx_shared::{PortLock, Poster, SharedPort, Ticket, TicketTested};
use std::alloc::Global;
use std::marker::Brand;
use std::sync::Wait;
use std::sync::ledger::Blank;
use std::test::Fail;
use test_drafts::a_sum;

/// A shared port, and the right to post on it.
#[derive(Drop)]
pub struct Shared<L: PortLock> {
    pub port: SharedPort<L>,
    pub poster: Poster<L>,
}

/// Puts the port of this process under a lock.
pub fn share<L: PortLock>(alloc: Global, port: Port, me: u8, blank: Blank) -> Shared<L>
    requires ledger { (blank.name ≡ L.name) × ((blank.parts ≡ L.parts) × (L.all ≡ L.parts)) }
    requires me { (me < 64) × (me ≡ L.me) }
    requires port { IsLawful L.table L.setup L.me port }
    requires opening { port.journal ≡ L.opening }
    requires count { length (made_in port) ≡ L.before }
{
    let (port, poster) = SharedPort::<L>::new(alloc, port, Proc::new(me), blank);
    Shared { port, poster }
}

/// The port posts its number to the next sum of all.
pub fn post_sum<L: PortLock, R: Wait>(
    rt: &R,
    alloc: Global,
    shared: &mut Shared<L>,
    number: i128,
    ops: &Ops,
) -> Result<Ticket, Fail>
    requires list { ⟦<Ops as Listing>⟧.operations ops.now ≡ L.setup.operations }
    requires ledger { (L.all ≡ L.parts) × (0 < L.parts) }
    requires plan { L.setup.planned ≡ false }
{
    let draft = a_sum(alloc, number)?;
    let poster = &mut shared.poster;
    Ok(
        shared
            .port
            .post(rt, alloc, poster, &Name::world(alloc), draft, ops)?,
    )
}

// Whether that tells this sum beside the ticket's post; or that there is no such post, where no sum is wanted.
fn tells(tested: &TicketTested, ticket: &Ticket, wanted: Option<i128>) -> bool {
    match tested {
        TicketTested::Done(finished) => {
            wanted.is_some() && sum_in(finished) == wanted && finished.mine.same(&ticket.post)
        }
        TicketTested::Strange => wanted.is_none(),
        _ => false,
    }
}

/// Whether the port tells this sum of the ticket, beside its post; or that there is no such post, where no sum is wanted.
pub fn is_told<L: PortLock, R: Wait>(
    rt: &R,
    alloc: Global,
    port: &SharedPort<L>,
    ticket: &Ticket,
    wanted: Option<i128>,
) -> Result<bool, OutOfMemory> {
    let tested = port.test(rt, alloc, ticket)?;
    let told = tells(&tested, ticket, wanted);
    drop(tested);
    Ok(told)
}

// Both gossip in turn.
fn gossip_on<M: PortLock, N: PortLock, R: Wait>(
    rt: &R,
    alloc: Global,
    bus: &Bus,
    first: &SharedPort<M>,
    second: &SharedPort<N>,
    ops: &Ops,
) -> Result<(), OutOfMemory>
    requires list { (⟦<Ops as Listing>⟧.operations ops.now ≡ M.setup.operations) × (⟦<Ops as Listing>⟧.operations ops.now ≡ N.setup.operations) }
    requires first { table_of bus.now ≡ M.table }
    requires second { table_of bus.now ≡ N.table }
{
    for _ in 0..20 {
        first.gossip(rt, alloc, bus, 10, ops)?;
        second.gossip(rt, alloc, bus, 10, ops)?;
    }
    Ok(())
}

// Whether both are told the sum once they have gossiped, and a ticket of the first is strange to the second.
fn have_sum<M: PortLock, N: PortLock, R: Wait>(
    rt: &R,
    alloc: Global,
    bus: &Bus,
    first: (&SharedPort<M>, &Ticket),
    second: (&SharedPort<N>, &Ticket),
    ops: &Ops,
) -> Result<bool, OutOfMemory>
    requires list { (⟦<Ops as Listing>⟧.operations ops.now ≡ M.setup.operations) × (⟦<Ops as Listing>⟧.operations ops.now ≡ N.setup.operations) }
    requires first { table_of bus.now ≡ M.table }
    requires second { table_of bus.now ≡ N.table }
{
    gossip_on(rt, alloc, bus, first.0, second.0, ops)?;
    Ok(
        is_told(rt, alloc, first.0, first.1, Some(15))?
            && is_told(rt, alloc, second.0, second.1, Some(15))?
            && is_told(rt, alloc, second.0, first.1, None)?,
    )
}

// Both post a number. Whether both are told the sum.
fn sum_up<M: PortLock, N: PortLock, R: Wait>(
    rt: &R,
    alloc: Global,
    bus: &Bus,
    first: &mut Shared<M>,
    second: &mut Shared<N>,
    ops: &Ops,
) -> Result<bool, Fail>
    requires list { (⟦<Ops as Listing>⟧.operations ops.now ≡ M.setup.operations) × (⟦<Ops as Listing>⟧.operations ops.now ≡ N.setup.operations) }
    requires first { ((M.all ≡ M.parts) × (0 < M.parts)) × ((M.setup.planned ≡ false) × (table_of bus.now ≡ M.table)) }
    requires second { ((N.all ≡ N.parts) × (0 < N.parts)) × ((N.setup.planned ≡ false) × (table_of bus.now ≡ N.table)) }
{
    let one = post_sum(rt, alloc, first, 7, ops)?;
    let told = with_first(rt, alloc, bus, (&first.port, &one), second, ops);
    drop(one);
    told
}

// The second posts too. Whether both are told the sum.
fn with_first<M: PortLock, N: PortLock, R: Wait>(
    rt: &R,
    alloc: Global,
    bus: &Bus,
    first: (&SharedPort<M>, &Ticket),
    second: &mut Shared<N>,
    ops: &Ops,
) -> Result<bool, Fail>
    requires list { (⟦<Ops as Listing>⟧.operations ops.now ≡ M.setup.operations) × (⟦<Ops as Listing>⟧.operations ops.now ≡ N.setup.operations) }
    requires first { table_of bus.now ≡ M.table }
    requires second { ((N.all ≡ N.parts) × (0 < N.parts)) × ((N.setup.planned ≡ false) × (table_of bus.now ≡ N.table)) }
{
    let two = post_sum(rt, alloc, second, 8, ops)?;
    let told = have_sum(rt, alloc, bus, first, (&second.port, &two), ops);
    drop(two);
    Ok(told?)
}

// Shares two new ports. Whether gossip brings both the sum.
fn share_two<M: PortLock, N: PortLock, R: Wait>(
    rt: &R,
    alloc: Global,
    bus: &Bus,
    first: (Port, Blank),
    second: (Port, Blank),
    ops: &Ops,
) -> Result<bool, Fail>
    requires list { (⟦<Ops as Listing>⟧.operations ops.now ≡ M.setup.operations) × (⟦<Ops as Listing>⟧.operations ops.now ≡ N.setup.operations) }
    requires first_ledger { (first.1.name ≡ M.name) × ((first.1.parts ≡ M.parts) × ((M.all ≡ M.parts) × (0 < M.parts))) }
    requires first_port { (0 ≡ M.me) × (IsLawful M.table M.setup M.me first.0 × ((first.0.journal ≡ M.opening) × (length (made_in first.0) ≡ M.before))) }
    requires first_bus { (M.setup.planned ≡ false) × (table_of bus.now ≡ M.table) }
    requires second_ledger { (second.1.name ≡ N.name) × ((second.1.parts ≡ N.parts) × ((N.all ≡ N.parts) × (0 < N.parts))) }
    requires second_port { (1 ≡ N.me) × (IsLawful N.table N.setup N.me second.0 × ((second.0.journal ≡ N.opening) × (length (made_in second.0) ≡ N.before))) }
    requires second_bus { (N.setup.planned ≡ false) × (table_of bus.now ≡ N.table) }
{
    let mut first = share::<M>(alloc, first.0, 0, first.1);
    let mut second = share::<N>(alloc, second.0, 1, second.1);
    sum_up(rt, alloc, bus, &mut first, &mut second, ops)
}

// A bus of two ranks, and its ports.
fn two_ports(alloc: Global) -> Result<(Bus, Port, Port), Fail>
    ensures { IfOk result (λ r. ArePair [] (table_of r.0) r.1 r.2) }
{
    let (bus, mut ports) = Bus::new::<Brand>(alloc, 16, 2, 2)?;
    let Some(second) = ports.pop() else {
        return Err(Fail::from("no port"));
    };
    let Some(first) = ports.pop() else {
        return Err(Fail::from("no port"));
    };
    Ok((bus, first, second))
}

/// Whether the two ports of a new bus are told the sum of 7 and 8, and a ticket of one is strange to the other.
pub fn meet<R: Wait>(rt: &R, alloc: Global, ops: &Ops) -> Result<bool, Fail>
    requires list { ⟦<Ops as Listing>⟧.operations ops.now ≡ [] }
{
    let (bus, first, second) = two_ports(alloc)?;
    let first = (first, Blank::new(1));
    let second = (second, Blank::new(1));
    share_two::<Brand, Brand, R>(rt, alloc, &bus, first, second, ops)
}
