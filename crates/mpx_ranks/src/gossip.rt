//! What a member's turn does to its port.
ghost use Rattle.std.specs.Prelude.{◌≡◌, ◌||◌, Some, false, is_err, true, OnErr, OnOk};
ghost use Rattle.mpx_bus.specs.Answers.{FoundNone, PopsOne};
ghost use Rattle.mpx_bus.specs.Buses.{table_of};
ghost use Rattle.mpx_bus.specs.Ports.{IsSamePort, node_in};
ghost use Rattle.mpx_node.specs.Settling.{IsToDrop};
ghost use Rattle.mpx_node.specs.Shown.{node_of};
ghost use Rattle.mpx_ranks.specs.Had.{DoesMore};
ghost use Rattle.mpx_ranks.specs.Members.{DropsOne, FindsOne, HasHeard, Prunes, PushesAnother, Turns, wanted_memory};

use join_core::{Exact, OutOfMemory};
use mpx_bus::{Bus, Pop, Port, Push};
use mpx_name::Name;
use mpx_node::Node;
use std::alloc::Global;
use std::sync::Wait;

// The most bytes of a frame.
const LIMIT: usize = 1_048_576;

/// Takes a frame out of the queue, drops posts that every member has harvested, and puts a frame in. Where memory is wanting for the
/// part of the frame that came, that one is lost.
pub(crate) fn gossip<R: Wait>(
    rt: &R,
    alloc: Global,
    bus: &Bus,
    port: &mut Port,
) -> Result<(), OutOfMemory>
    requires queue { port.old.table ≡ table_of bus.now }
    requires free { port.old.setup.planned ≡ false }
    ensures same { IsSamePort port.old port.new }
    ensures more { DoesMore port.old port.new }
    ensures heard { HasHeard (node_in port.old) (node_in port.new) }
    ensures turns { OnOk result (Turns false port.old port.new) }
    ensures wanted { OnErr result (Turns true port.old port.new) }
{
    let popped = pull(rt, alloc, bus, port);
    let pruned = prune(alloc, port);
    let pushed = push(rt, alloc, bus, port);
    came_to(popped, pruned, pushed)
}

// Want of memory, where it was wanting for one of them, and only then.
fn came_to(
    popped: Pop,
    pruned: Result<(), OutOfMemory>,
    pushed: Result<Push, OutOfMemory>,
) -> Result<(), OutOfMemory>
    ensures { is_err result ≡ (wanted_memory popped || (is_err pruned || is_err pushed)) }
{
    if let Pop::OutOfMemory(_) = popped {
        return Err(OutOfMemory);
    }
    if pruned.is_err() {
        return pruned;
    }
    match pushed {
        Ok(_) => Ok(()),
        Err(OutOfMemory) => Err(OutOfMemory),
    }
}

// A frame out of the queue.
fn pull<R: Wait>(rt: &R, alloc: Global, bus: &Bus, port: &mut Port) -> Pop
    requires queue { port.old.table ≡ table_of bus.now }
    requires free { port.old.setup.planned ≡ false }
    ensures same { IsSamePort port.old port.new }
    ensures more { DoesMore port.old port.new }
    ensures heard { HasHeard (node_in port.old) (node_in port.new) }
    ensures kept { port.new.kept ≡ port.old.kept }
    ensures answer { PopsOne result port.old port.new }
    ensures empty { FoundNone result port.new }
{
    bus.pop(rt, alloc, port)
}

// The next frame of what others may lack into the queue.
fn push<R: Wait>(rt: &R, alloc: Global, bus: &Bus, port: &mut Port) -> Result<Push, OutOfMemory>
    requires queue { port.old.table ≡ table_of bus.now }
    requires free { port.old.setup.planned ≡ false }
    ensures same { IsSamePort port.old port.new }
    ensures more { DoesMore port.old port.new }
    ensures heard { HasHeard (node_in port.old) (node_in port.new) }
    ensures pushes { PushesAnother result port.old port.new }
{
    bus.push_own(rt, alloc, port, LIMIT)
}

// Drops the posts of one context that every member has harvested, where there are any. An `Err` is want of memory for that one's name.
fn prune(alloc: Global, port: &mut Port) -> Result<(), OutOfMemory>
    ensures same { IsSamePort port.old port.new }
    ensures more { DoesMore port.old port.new }
    ensures heard { HasHeard (node_in port.old) (node_in port.new) }
    ensures prunes { Prunes result port.old port.new }
{
    let Some((name, number)) = first_to_drop(alloc, port.node())? else {
        return Ok(());
    };
    prune_on(port, &name, number);
    Ok(())
}

// Drops the posts of one context that every member has harvested.
fn prune_on(port: &mut Port, name: &Name, number: u32)
    requires { IsToDrop name.now (node_in port.old) (Some number) }
    ensures same { IsSamePort port.old port.new }
    ensures more { DoesMore port.old port.new }
    ensures heard { HasHeard (node_in port.old) (node_in port.new) }
    ensures drops { DropsOne port.old port.new }
{
    let _pruned = port.prune(name, number);
}

// The first context of which every member has harvested a call that isn't dropped, or a free, with the number of those calls; none where
// there is none. An `Err` is want of memory for its name.
fn first_to_drop(alloc: Global, node: &Node) -> Result<Option<(Name, u32)>, OutOfMemory>
    ensures { FindsOne result (node_of node.now) }
{
    for (name, _) in node.board().pair().first.entries() {
        if let Some(number) = node.to_drop(name) {
            return Ok(Some((name.copy(alloc)?, number)));
        }
    }
    Ok(None)
}
