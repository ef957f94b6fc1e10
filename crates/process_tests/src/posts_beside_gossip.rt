//! One thread posts on a shared port, while another gossips on it.
ghost use Rattle.std.specs.Prelude.{◌≡◌, ◌<◌, false, length, map, []};
ghost use Rattle.mpx_num.specs.Own.{operation_of};
ghost use Rattle.mpx_bus.specs.Buses.{table_of};
ghost use Rattle.mpx_shared.specs.LawfulPorts.{IsLawful, made_in};

use crate::let_go::one_port;
use crate::shared_pairs::{Shared, share};
use mpx_bus::{Bus, Port};
use mpx_name::Name;
use mpx_num::{Listing, Ops};
use mpx_post::PostError;
use mpx_shared::{PortLock, Poster, SharedPort};
use std::alloc::Global;
use std::marker::Brand;
use std::sync::Wait;
use std::sync::ledger::Blank;
use std::test::Fail;
use std::thread::{Threads, join};
use test_drafts::{draft, just, kinds};

fn post_barrier<L: PortLock, R: Wait>(
    rt: &R,
    alloc: Global,
    port: &SharedPort<L>,
    poster: &mut Poster<L>,
    ops: &Ops,
) -> Result<(), PostError>
    requires list { ⟦<Ops as Listing>⟧.operations ops.now ≡ L.setup.operations }
    requires ledger { (L.all ≡ L.parts) × (0 < L.parts) }
    requires plan { L.setup.planned ≡ false }
{
    let Ok(draft) = draft(alloc, &just(kinds::BARRIER)) else {
        return Err(PostError::OutOfMemory);
    };
    let ticket = port.post(rt, alloc, poster, &Name::world(alloc), draft, ops)?;
    drop(ticket);
    Ok(())
}

// Posts a thousand barriers, and ends at the first refusal.
fn post_barriers<L: PortLock, R: Wait>(
    rt: &R,
    alloc: Global,
    port: &SharedPort<L>,
    mut poster: Poster<L>,
    ops: &Ops,
) -> Poster<L>
    requires list { ⟦<Ops as Listing>⟧.operations ops.now ≡ L.setup.operations }
    requires ledger { (L.all ≡ L.parts) × (0 < L.parts) }
    requires plan { L.setup.planned ≡ false }
{
    for _ in 0..1_000 {
        if post_barrier(rt, alloc, port, &mut poster, ops).is_err() {
            return poster;
        }
    }
    poster
}

// Both at once. Whether the gossip had all the memory that it asked for.
fn post_and_gossip<L: PortLock + Send + Sync, R: Threads + Wait + Sync>(
    rt: &R,
    alloc: Global,
    bus: &Bus,
    port: &SharedPort<L>,
    poster: Poster<L>,
    ops: &Ops,
) -> (Poster<L>, bool)
    requires list { ⟦<Ops as Listing>⟧.operations ops.now ≡ L.setup.operations }
    requires ledger { (L.all ≡ L.parts) × (0 < L.parts) }
    requires plan { L.setup.planned ≡ false }
    requires queue { table_of bus.now ≡ L.table }
{
    join(
        rt,
        move || -> Poster<L>
            requires { (((L.all ≡ L.parts) × (0 < L.parts)) × (L.setup.planned ≡ false)) × (map (λ b. operation_of (word_bytes (b.vtable, b.value)) (fits_type (b.vtable, b.value)) (combination (b.vtable, b.value))) ops.now.list.items ≡ L.setup.operations) }
        { post_barriers(rt, alloc, port, poster, ops) },
        || -> bool
            requires { (table_of bus.now ≡ L.table) × (map (λ b. operation_of (word_bytes (b.vtable, b.value)) (fits_type (b.vtable, b.value)) (combination (b.vtable, b.value))) ops.now.list.items ≡ L.setup.operations) }
        { port.gossip(rt, alloc, bus, 1_000, ops).is_ok() },
    )
}

// How many posts the port's node has made on the world.
fn work<L: PortLock + Send + Sync, R: Threads + Wait + Sync>(
    rt: &R,
    alloc: Global,
    bus: &Bus,
    port: Port,
    blank: Blank,
    ops: &Ops,
) -> Result<u32, Fail>
    requires list { ⟦<Ops as Listing>⟧.operations ops.now ≡ L.setup.operations }
    requires ledger { (blank.name ≡ L.name) × ((blank.parts ≡ L.parts) × ((L.all ≡ L.parts) × (0 < L.parts))) }
    requires port { (0 ≡ L.me) × (IsLawful L.table L.setup L.me port × ((port.journal ≡ L.opening) × (length (made_in port) ≡ L.before))) }
    requires bus { (L.setup.planned ≡ false) × (table_of bus.now ≡ L.table) }
{
    let Shared { port, poster } = share::<L>(alloc, port, 0, blank);
    let (poster, gossiped) = post_and_gossip(rt, alloc, bus, &port, poster, ops);
    if !gossiped {
        return Err(Fail::from("out of memory"));
    }
    Ok(port.into_port(poster).node().posted(&Name::world(alloc)))
}

/// How many barriers the only port of a new bus has posted, of a thousand beside a thousand turns of gossip.
pub fn posted<R: Threads + Wait + Sync>(rt: &R, alloc: Global, ops: &Ops) -> Result<u32, Fail>
    requires list { ⟦<Ops as Listing>⟧.operations ops.now ≡ [] }
{
    let (bus, port) = one_port(alloc)?;
    work::<Brand, R>(rt, alloc, &bus, port, Blank::new(1), ops)
}
