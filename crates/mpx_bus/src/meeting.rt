//! How any number of ports meet.
ghost use Rattle.std.specs.Prelude.{◌≡◌, ◌∷◌, [], ℕ, Some, map, slice_get, IfOk, OnOk};
ghost use Rattle.crossbeam_queue.specs.Passes.{view, IsPassOf, IsSamePass};
ghost use Rattle.mpx_node.specs.Shown.{node_of};
ghost use Rattle.mpx_bus.specs.Acts.{IsAhead};
ghost use Rattle.mpx_bus.specs.Buses.{table_of};
ghost use Rattle.mpx_bus.specs.Meetings.{HaveAllMet};
ghost use Rattle.mpx_bus.specs.Ports.{PortView, node_in};
ghost use Rattle.mpx_bus.specs.Views.{met, seen_as, standing};

use crate::port::{Bus, Port};
use crate::rule::{Meets, Named, QueuePass};
use join_core::OutOfMemory;
use mpx_node::Node;
use std::alloc::Global;

impl Bus {
    /// Takes in ports for good, any number of them, and gives their nodes as they are, in their order. All that they did is of one sound
    /// world. It makes no push and no pop. An `Err` is want of memory.
    pub fn meet_all<N: Named>(
        &self,
        alloc: Global,
        first: Port,
        others: Vec<Port>,
    ) -> Result<Vec<Node>, OutOfMemory>
        requires first { (first.table ≡ table_of self.now) × (first.setup ≡ N.setup) }
        requires tables { (i : ℕ) (b : PortView) → slice_get others.items i ≡ Some b → b.table ≡ table_of self.now }
        requires setups { (i : ℕ) (b : PortView) → slice_get others.items i ≡ Some b → b.setup ≡ N.setup }
        ensures nodes { IfOk result (λ nodes. map node_of nodes.items ≡ map node_in (first ∷ others.items)) }
        ensures history { OnOk result (HaveAllMet N.setup (first ∷ others.items)) }
    {
        let (node, mut all) = taken_in(first);
        let mut nodes = Vec::new(alloc);
        nodes.push(node)?;
        for port in others {
            nodes.push(self.take_in(&mut all, port))?;
        }
        self.queue.learn_as::<Meets>(&mut all);
        Ok(nodes)
    }

    // Takes in one port more, for which the pass of the meeting stands then too.
    fn take_in(&self, all: &mut QueuePass, port: Port) -> Node
        requires queue { IsPassOf self.now.queue all.old }
        requires table { port.table ≡ table_of self.now }
        requires stands { view all.old ≡ standing (view all.old).setup (view all.old).seats }
        ensures queue { IsSamePass all.old all.new }
        ensures stands { view all.new ≡ met (view all.old) (standing port.setup (seen_as port.me port.published ∷ [])) }
        ensures node { node_of result ≡ node_in port }
        ensures ahead { IsAhead port.setup port.me port.published port.journal }
    {
        let (node, pass) = taken_in(port);
        self.queue.absorb::<Meets>(all, pass);
        node
    }
}

// A port's node, and the pass that stands for it.
fn taken_in(port: Port) -> (Node, QueuePass)
    ensures node { node_of result.0 ≡ node_in port }
    ensures table { result.1.table_id ≡ port.table }
    ensures place { result.1.me.1 ≡ [] }
    ensures stands { view result.1 ≡ standing port.setup (seen_as port.me port.published ∷ []) }
    ensures ahead { IsAhead port.setup port.me port.published port.journal }
{
    let Port {
        node,
        kept: _,
        pass,
        empty: _,
        line: _,
    } = port;
    (node, pass)
}
