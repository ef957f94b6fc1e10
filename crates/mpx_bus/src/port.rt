//! The queue that all ports share, and a port's calls.
ghost use Rattle.std.specs.Prelude.{◌≡◌, ◌≢◌, ℕ, List, is_some, ◌<◌, ◌≤◌, ◌++◌, ◌∷◌, [], Err, IfOk, IfErr, OnOk, OnErr};
ghost use Rattle.crossbeam_queue.specs.Passes.{view, IsPassOf};
ghost use Rattle.mpx_board.specs.Changes.{pruned_on};
ghost use Rattle.mpx_node.specs.Nodes.{Opens, Posts, checked_on, gathers_on, next_result};
ghost use Rattle.mpx_node.specs.Forgetting.{forgets};
ghost use Rattle.mpx_node.specs.Harvests.{Harvests};
ghost use Rattle.mpx_node.specs.Shown.{node_of};
ghost use Rattle.mpx_bus.specs.declared.act.Act.TheVariants as A;
ghost use Rattle.mpx_bus.specs.Views.{seat_of};
ghost use Rattle.mpx_bus.specs.Rule.{Stood};
ghost use Rattle.mpx_bus.specs.Ports.{CanPush, PortGoes, PortGoesOn, HaveMet, IsFleet, IsSamePort, KeepsPlan, node_in};
ghost use Rattle.mpx_bus.specs.Buses.{room_of, table_of};
ghost use Rattle.mpx_bus.specs.Finished.{BothHaveFinished};
ghost use Rattle.mpx_bus.specs.Answers.{FoundNoRoom, FoundNone, HarvestsOne, PassesOn, PopsOne, PushesNext, PushesOne, PushesLast, TakesIn};

use crate::both::both_finished;
use crate::frame::Frame;
use crate::rule::{Meets, Named, Queue, QueuePass, Seats};
use crate::steps::{name_all, opened_line, pop_to, push_to};
use crate::trace::{
    EmptyQueue, JournalPass, forgot, gathered, harvested, popped, posted, pruned, pushed, stopped,
    took,
};
use join_core::OutOfMemory;
use mpx_board::PruneError;
use mpx_group::Proc;
use mpx_name::Name;
use mpx_node::{Harvest, Node};
use mpx_num::{Listing, Ops};
use mpx_post::{Draft, PostError};
use std::alloc::Global;
use std::marker::{Brand, Model};
use std::sync::Wait;

/// The queue of frames that all ports share.
#[derive(Drop)]
pub struct Bus {
    pub(crate) queue: Queue,
}

/// A process: its node, its place at the queue, the frames of its list that are not sent yet, and the list of what it did, which
/// contracts alone see.
#[derive(Drop)]
pub struct Port {
    pub(crate) node: Node,
    pub(crate) kept: Vec<Frame>,
    pub(crate) pass: QueuePass,
    pub(crate) empty: EmptyQueue,
    pub(crate) line: JournalPass,
}

impl Model for Port {
    ghost use Rattle.std.specs.Prelude.{◌≡◌, []};
    ghost use Rattle.crossbeam_queue.specs.Passes.{IsPassOf};
    ghost use Rattle.mpx_node.specs.Shown.{node_of};
    ghost use Rattle.mpx_bus.specs.Views.{seat_of};
    ghost use Rattle.mpx_bus.specs.Ports.{PortView, port_view, IsPort, MayPushAll};

    ghost Value = { PortView };

    ghost view = { λ p. port_view p.pass.me.0.client p.line.me.0.client p.kept.items p.pass.table_id p.pass.id };

    ghost invariant = { λ p. (p.pass.me.1 ≡ []) × IsPassOf p.empty p.line × IsPort (node_of p.node) p.pass.me.0.client p.line.me.0.client
        × MayPushAll p.pass.me.0.client.setup (seat_of p.pass.me.0.client).me p.line.me.0.client p.kept.items };
}

/// Drops ports, as `drop_nodes` of `mpx_node` does nodes: so the caller's crate doesn't prove how.
pub fn drop_ports(ports: Vec<Port>) {
    drop(ports);
}

/// What a push came to.
#[derive(Drop)]
pub enum Push {
    /// The frame is in the queue.
    Pushed,
    /// The queue was full: the frame comes back, and may be pushed on later.
    Full(Frame),
}

/// What a pop came to.
#[derive(Drop)]
pub enum Pop {
    /// The part of this frame is on the port's board.
    Took(Frame),
    /// The queue was empty at a moment of the call.
    Empty,
    /// Memory was wanting to join the part of this frame, which the queue has lost: the port's board is one between the old one
    /// and the join.
    OutOfMemory(Frame),
}

/// What two ports leave when they have met: their nodes, and how many instances both have finished.
#[derive(Drop)]
pub struct Met {
    pub first: Node,
    pub second: Node,
    /// How many instances both have finished, or the greatest number where there are more.
    pub both: u64,
}

impl Bus {
    /// A bus with room for `capacity` frames, 1 to 65,536, and a port for each of 1 to 64 processes, in order; the first `ranks` of them
    /// are ranks. What the ports plan to post, where they do, and which operations of the job's own they have is `N`'s, which
    /// contracts alone see. An `Err` is want of memory.
    pub fn new<N: Named>(
        alloc: Global,
        capacity: usize,
        ranks: u8,
        processes: u8,
    ) -> Result<(Bus, Vec<Port>), OutOfMemory>
        requires capacity { 0 < capacity }
        requires most { capacity ≤ 65536 }
        requires some { 0 < ranks }
        requires ranks { ranks ≤ processes }
        requires few { processes ≤ 64 }
        requires setup { (N.setup.ranks ≡ ranks) × (N.setup.size ≡ processes) }
        ensures room { IfOk result (λ r. room_of r.0 ≡ capacity) }
        ensures ports { IfOk result (λ r. IsFleet N.setup (table_of r.0) processes r.1.items) }
    {
        let (queue, mut maker) = Queue::ruled(alloc, capacity)?;
        name_all::<N>(&queue, &mut maker);
        let mut ports = Vec::new(alloc);
        for me in 0..processes {
            let pass = queue.another::<Seats>(&mut maker);
            let node = Node::new(alloc, Proc::new(me), ranks, processes)?;
            let (empty, line) = opened_line(alloc)?;
            let kept = Vec::new(alloc);
            ports.push(Port {
                node,
                kept,
                pass,
                empty,
                line,
            })?;
        }
        Ok((Bus { queue }, ports))
    }

    /// Pushes the next frame of the port's list of what others may lack of its board, and makes a new list where all of the last
    /// one were sent: the port then says what it has, and its list is its board without the posts that all processes say that
    /// they have, in parts whose frames have at most `limit` bytes, from 524,288 to 1,048,576. What is left of the last list was made under
    /// the limit of its own call. A frame that comes back counts as sent. It may wait. The port is one of this bus, as for all its calls.
    ///
    /// # Errors
    /// Memory may be wanting for a new list, and then the port has done nothing.
    pub fn push_own<R: Wait>(
        &self,
        rt: &R,
        alloc: Global,
        port: &mut Port,
        limit: usize,
    ) -> Result<Push, OutOfMemory>
        requires queue { port.old.table ≡ table_of self.now }
        requires plan { KeepsPlan port.old }
        requires least { 524288 ≤ limit }
        requires most { limit ≤ 1048576 }
        ensures port { PortGoesOn port.old port.new }
        ensures next { IfOk result (λ push. PushesNext limit push port.old port.new) }
        ensures full { IfOk result (λ push. FoundNoRoom (room_of self.now) push port.new) }
        ensures err { OnErr result (port.new ≡ port.old) }
        ensures memory { OnErr result (port.old.kept ≡ []) }
    {
        port.lists(alloc, limit)?;
        Ok(self.push_kept(rt, port))
    }

    // Pushes the last of the frames that the port keeps.
    fn push_kept<R: Wait>(&self, rt: &R, port: &mut Port) -> Push
        requires queue { port.old.table ≡ table_of self.now }
        requires plan { KeepsPlan port.old }
        requires some { port.old.kept ≢ [] }
        ensures port { PortGoesOn port.old port.new }
        ensures next { (bytes : List ℕ) × (port.old.kept ≡ port.new.kept ++ bytes ∷ []) × PushesLast bytes result port.old port.new }
        ensures full { FoundNoRoom (room_of self.now) result port.new }
    {
        let Some(frame) = port.kept.pop() else {
            unreachable!()
        };
        self.push(rt, port, frame)
    }

    // Pushes a frame that may be pushed. Where the queue is full, it comes back.
    fn push<R: Wait>(&self, rt: &R, port: &mut Port, frame: Frame) -> Push
        requires queue { port.old.table ≡ table_of self.now }
        requires plan { KeepsPlan port.old }
        requires frame { CanPush port.old frame }
        ensures port { IsSamePort port.old port.new }
        ensures kept { port.new.kept ≡ port.old.kept }
        ensures answer { PushesOne frame result port.old port.new }
        ensures full { FoundNoRoom (room_of self.now) result port.new }
    {
        let next = pushed::<Brand>(&port.empty, &mut port.line, &frame);
        match push_to::<Brand, R>(rt, &self.queue, &mut port.pass, &port.line, frame) {
            Ok(()) => {
                port.line = next;
                Push::Pushed
            }
            Err(frame) => Push::Full(frame),
        }
    }

    /// Pushes a frame that this port popped or that was refused to it, or a copy of one; where the queue is full it comes back. It may
    /// wait, and takes no memory.
    pub fn push_on<R: Wait>(&self, rt: &R, port: &mut Port, frame: Frame) -> Push
        requires queue { port.old.table ≡ table_of self.now }
        requires plan { KeepsPlan port.old }
        requires frame { CanPush port.old frame }
        ensures port { PortGoesOn port.old port.new }
        ensures kept { port.new.kept ≡ port.old.kept }
        ensures answer { PushesOne frame result port.old port.new }
        ensures full { FoundNoRoom (room_of self.now) result port.new }
    {
        self.push(rt, port, frame)
    }

    /// Pops a frame, and joins its part to the port's board. A frame that it gives may be pushed on. It may wait.
    pub fn pop<R: Wait>(&self, rt: &R, alloc: Global, port: &mut Port) -> Pop
        requires queue { port.old.table ≡ table_of self.now }
        requires plan { KeepsPlan port.old }
        ensures port { PortGoesOn port.old port.new }
        ensures kept { port.new.kept ≡ port.old.kept }
        ensures answer { PopsOne result port.old port.new }
        ensures empty { FoundNone result port.new }
        ensures board { TakesIn result (node_in port.old) (node_in port.new) }
        ensures passes_on { PassesOn result port.new }
    {
        self.pop_one(rt, alloc, port)
    }

    fn pop_one<R: Wait>(&self, rt: &R, alloc: Global, port: &mut Port) -> Pop
        requires queue { port.old.table ≡ table_of self.now }
        requires plan { KeepsPlan port.old }
        ensures port { IsSamePort port.old port.new }
        ensures kept { port.new.kept ≡ port.old.kept }
        ensures answer { PopsOne result port.old port.new }
        ensures empty { FoundNone result port.new }
    {
        let Some(frame) = pop_to::<Brand, R>(rt, &self.queue, &mut port.pass, &port.line) else {
            return Pop::Empty;
        };
        popped::<Brand>(&port.empty, &mut port.line, &frame);
        match port.node.take_rope(alloc, &frame.lent()) {
            Ok(()) => {
                took::<Brand>(&port.empty, &mut port.line, &frame);
                Pop::Took(frame)
            }
            Err(_) => {
                stopped::<Brand>(&port.empty, &mut port.line, &frame, port.node.board());
                Pop::OutOfMemory(frame)
            }
        }
    }

    /// Takes in two ports for good, and gives their nodes as they are. All that both did is of one sound world. It makes no push
    /// and no pop.
    pub fn meet(&self, first: Port, second: Port) -> Met
        requires first { first.table ≡ table_of self.now }
        requires second { second.table ≡ table_of self.now }
        requires setup { second.setup ≡ first.setup }
        ensures first { node_of result.first ≡ node_in first }
        ensures second { node_of result.second ≡ node_in second }
        ensures both { BothHaveFinished (node_in first) (node_in second) result.both }
        ensures history { HaveMet first second }
    {
        let Port {
            node: first,
            kept: _,
            mut pass,
            empty: _,
            line: _,
        } = first;
        let Port {
            node: second,
            kept: _,
            pass: other,
            empty: _,
            line: _,
        } = second;
        self.queue.absorb::<Meets>(&mut pass, other);
        self.queue.learn_as::<Meets>(&mut pass);
        let both = both_finished(&first, &second);
        Met {
            first,
            second,
            both,
        }
    }
}

impl Port {
    /// The port's node. A port that keeps its plan stands in a world that can be reached.
    pub fn node(&self) -> &Node
        ensures node { node_of result.now ≡ node_in self.now }
        ensures stood { KeepsPlan self.now → Stood self.now.setup self.now.me self.now.journal }
    {
        &self.node
    }

    /// Posts the draft as the next call on a context, as [`Node::post`] does, with its refusals. The operations are those that the bus was
    /// set up with.
    pub fn post(
        &mut self,
        alloc: Global,
        name: &Name,
        draft: Draft,
        ops: &Ops,
    ) -> Result<u32, PostError>
        requires { ⟦<Ops as Listing>⟧.operations ops.now ≡ self.old.setup.operations }
        ensures port { PortGoes self.old self.new }
        ensures still { (self.new.published ≡ self.old.published) × (self.new.kept ≡ self.old.kept) }
        ensures ok { OnOk result (self.new.journal ≡ self.old.journal ++ A.Posted name.now draft ∷ []) }
        ensures err { OnErr result (self.new ≡ self.old) }
        ensures node { Posts name.now (checked_on self.old.setup.operations (node_in self.old) name.now draft) result (node_in self.old) (node_in self.new) }
    {
        let next = posted::<Brand>(&self.empty, &mut self.line, name, &draft);
        match self.node.post(alloc, name, draft, ops) {
            Ok(call) => {
                self.line = next;
                Ok(call)
            }
            Err(refusal) => Err(refusal),
        }
    }

    /// Stores the result of the next call on a context, as [`Node::harvest`] does, with the same operations.
    pub fn harvest(&mut self, alloc: Global, name: &Name, ops: &Ops) -> Result<Harvest, OutOfMemory>
        requires { ⟦<Ops as Listing>⟧.operations ops.now ≡ self.old.setup.operations }
        ensures port { PortGoesOn self.old self.new }
        ensures still { (self.new.published ≡ self.old.published) × (self.new.kept ≡ self.old.kept) }
        ensures journal { HarvestsOne name.now result self.old self.new }
        ensures node { Harvests self.old.setup.operations (is_some ((node_in self.old).opened name.now)) name.now (next_result self.old.setup.operations (node_in self.old) name.now) result (node_in self.old) (node_in self.new) }
    {
        match self.node.harvest(alloc, name, ops)? {
            Harvest::Done(call) => {
                harvested::<Brand>(&self.empty, &mut self.line, name);
                Ok(Harvest::Done(call))
            }
            Harvest::NotYet => Ok(Harvest::NotYet),
            Harvest::NotOpened => Ok(Harvest::NotOpened),
        }
    }

    /// Opens a gathering, as [`Node::open_gathering`] does, with its refusals.
    pub fn open_gathering(
        &mut self,
        alloc: Global,
        parent: &Name,
        tag: i128,
        ranks: &[i128],
    ) -> Result<Name, PostError>
        ensures port { PortGoesOn self.old self.new }
        ensures still { (self.new.published ≡ self.old.published) × (self.new.kept ≡ self.old.kept) }
        ensures ok { OnOk result (self.new.journal ≡ self.old.journal ++ A.Gathered parent.now tag ranks.now ∷ []) }
        ensures err { OnErr result (self.new ≡ self.old) }
        ensures node { Opens parent.now (gathers_on (node_in self.old) parent.now tag ranks.now) result (node_in self.old) (node_in self.new) }
    {
        match self.node.open_gathering(alloc, parent, tag, ranks) {
            Ok(name) => {
                gathered::<Brand>(&self.empty, &mut self.line, parent, tag, ranks);
                Ok(name)
            }
            Err(refusal) => Err(refusal),
        }
    }

    /// Drops the posts of calls below the number on a context, as [`Node::prune`] does, with its errors. It takes no memory.
    pub fn prune(&mut self, name: &Name, number: u32) -> Result<(), PruneError>
        ensures port { PortGoesOn self.old self.new }
        ensures still { (self.new.published ≡ self.old.published) × (self.new.kept ≡ self.old.kept) }
        ensures answer { result ≡ pruned_on (node_in self.old).board name.now number }
        ensures ok { OnOk result (self.new.journal ≡ self.old.journal ++ A.Pruned name.now number ∷ []) }
        ensures err { OnErr result (self.new ≡ self.old) }
    {
        match self.node.prune(name, number) {
            Ok(()) => {
                pruned::<Brand>(&self.empty, &mut self.line, name, number);
                Ok(())
            }
            Err(refusal) => Err(refusal),
        }
    }

    /// Lets the results of calls below the number on a context go, as [`Node::forget`] does. It takes no memory.
    pub fn forget(&mut self, name: &Name, below: u32)
        ensures port { PortGoesOn self.old self.new }
        ensures still { (self.new.published ≡ self.old.published) × (self.new.kept ≡ self.old.kept) }
        ensures journal { self.new.journal ≡ self.old.journal ++ A.Forgot name.now below ∷ [] }
        ensures node { node_in self.new ≡ forgets name.now below (node_in self.old) }
    {
        self.node.forget(name, below);
        forgot::<Brand>(&self.empty, &mut self.line, name, below);
    }
}
