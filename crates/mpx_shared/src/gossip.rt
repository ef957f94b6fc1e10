//! What a pull does to a port: a pop with its take, then harvests, and prunings.
ghost use Rattle.std.specs.Prelude.{◌≡◌, true, false, IfOk, OnOk, OnErr};
ghost use Rattle.mpx_bus.specs.Ports.{KeepsPlan};
ghost use Rattle.mpx_bus.specs.Buses.{table_of};
ghost use Rattle.mpx_shared.specs.LawfulPorts.{MakesNoPost};
ghost use Rattle.mpx_shared.specs.Gossip.{HarvestsAndPrunes, PortHarvestsNext, Prunes, Pulls, Settles, SettlesAll, SettlesEach, WantsResult, has_next};

use crate::pull::Pull;
use join_core::OutOfMemory;
use mpx_bus::{Bus, Pop, Port};
use mpx_name::Name;
use mpx_node::Harvest;
use mpx_num::{Listing, Ops};
use std::alloc::Global;
use std::sync::Wait;

// Pops a frame and takes in its part; then harvests and prunes on the world and these contexts.
pub(crate) fn pull_on<R: Wait>(
    rt: &R,
    alloc: Global,
    bus: &Bus,
    port: &mut Port,
    contexts: &[Name],
    ops: &Ops,
) -> Pull
    requires list { ⟦<Ops as Listing>⟧.operations ops.now ≡ port.old.setup.operations }
    requires queue { port.old.table ≡ table_of bus.now }
    requires plan { KeepsPlan port.old }
    ensures port { MakesNoPost port.old port.new }
    ensures pulls { Pulls result contexts.now port.old port.new }
{
    let took = match bus.pop(rt, alloc, port) {
        Pop::OutOfMemory(frame) => return Pull::OutOfMemory(Some(frame)),
        Pop::Took(_) => true,
        Pop::Empty => false,
    };
    if settle(alloc, port, contexts, ops).is_err() {
        return Pull::OutOfMemory(None);
    }
    if took { Pull::Took } else { Pull::Empty }
}

// Stores the results of the world and of these contexts, until no further one can be had, and drops the posts that every member has
// harvested, as far as the board knows.
fn settle(alloc: Global, port: &mut Port, contexts: &[Name], ops: &Ops) -> Result<(), OutOfMemory>
    requires list { ⟦<Ops as Listing>⟧.operations ops.now ≡ port.old.setup.operations }
    requires plan { KeepsPlan port.old }
    ensures port { MakesNoPost port.old port.new }
    ensures ok { OnOk result (SettlesAll contexts.now port.old port.new) }
    ensures err { OnErr result (WantsResult port.old port.new) }
{
    let world = Name::world(alloc);
    settle_on(alloc, port, &world, ops)?;
    settle_each(alloc, port, contexts, ops)
}

fn settle_each(
    alloc: Global,
    port: &mut Port,
    contexts: &[Name],
    ops: &Ops,
) -> Result<(), OutOfMemory>
    requires list { ⟦<Ops as Listing>⟧.operations ops.now ≡ port.old.setup.operations }
    requires plan { KeepsPlan port.old }
    ensures port { HarvestsAndPrunes port.old port.new }
    ensures ok { OnOk result (SettlesEach contexts.now port.old port.new) }
    ensures err { OnErr result (WantsResult port.old port.new) }
{
    for name in contexts {
        settle_on(alloc, port, name, ops)?;
    }
    Ok(())
}

fn settle_on(alloc: Global, port: &mut Port, name: &Name, ops: &Ops) -> Result<(), OutOfMemory>
    requires list { ⟦<Ops as Listing>⟧.operations ops.now ≡ port.old.setup.operations }
    requires plan { KeepsPlan port.old }
    ensures port { HarvestsAndPrunes port.old port.new }
    ensures ok { OnOk result (Settles name.now port.old port.new) }
    ensures err { OnErr result (has_next port.new name.now ≡ true) }
{
    harvest_on(alloc, port, name, ops)?;
    prune_on(port, name);
    Ok(())
}

// Stores the results of one context, until no further one can be had.
fn harvest_on(alloc: Global, port: &mut Port, name: &Name, ops: &Ops) -> Result<(), OutOfMemory>
    requires list { ⟦<Ops as Listing>⟧.operations ops.now ≡ port.old.setup.operations }
    ensures port { HarvestsAndPrunes port.old port.new }
    ensures ok { OnOk result (has_next port.new name.now ≡ false) }
    ensures err { OnErr result (has_next port.new name.now ≡ true) }
{
    for _call in port.node().front(name)..port.node().posted(name) {
        if !harvest_next(alloc, port, name, ops)? {
            return Ok(());
        }
    }
    Ok(())
}

// Stores the next result of a context, and answers whether there was one.
fn harvest_next(alloc: Global, port: &mut Port, name: &Name, ops: &Ops) -> Result<bool, OutOfMemory>
    requires list { ⟦<Ops as Listing>⟧.operations ops.now ≡ port.old.setup.operations }
    ensures port { HarvestsAndPrunes port.old port.new }
    ensures next { IfOk result (λ had. PortHarvestsNext had name.now port.old port.new) }
    ensures err { OnErr result (has_next port.new name.now ≡ true) }
{
    match port.harvest(alloc, name, ops)? {
        Harvest::Done(_) => Ok(true),
        Harvest::NotYet => Ok(false),
        Harvest::NotOpened => Ok(false),
    }
}

// Drops the posts of a context that every member has harvested, as far as the board knows. Where that is past a free, the context is
// dead then, whatever others had dropped before.
fn prune_on(port: &mut Port, name: &Name)
    ensures { Prunes name.now port.old port.new }
{
    let Some(number) = port.node().to_drop(name) else {
        return;
    };
    let _ = port.prune(name, number);
}
