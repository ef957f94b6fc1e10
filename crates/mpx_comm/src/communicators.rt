//! The calls that make communicators and the one that frees them, which all block. Each is a draft that is posted and waited for.
ghost use Rattle.std.specs.Prelude.{◌≡◌, Some};
ghost use Rattle.mpx_comm.specs.Desks.{DeskAsksGathered, DeskCalls, DeskCallsGathered};
ghost use Rattle.mpx_comm.specs.Lines as line;

use crate::answers::CallError;
use crate::comm::Comm;
use crate::desk::Desk;
use crate::lines;
use mpx_kind::NewCommunicator;
use mpx_node::Finished;
use mpx_num::{Listing, Numbers, Ops};
use mpx_post::{DraftedEdge, DraftedNeighbour, PostError};
use mpx_request::{Host, Request};
use std::alloc::Global;

/// What `turns` counts, and which refusals and errors every call has, is told at [`Desk`]; each call tells its own. The new
/// communicator of a result is [`Comm::of`] it.
impl<H: Host> Desk<H> {
    /// `MPI_COMM_DUP` (MPI 4.1 section 7.4.2): every member gives nothing, and gets a new communicator of the same members, with the
    /// same topology. `DepthUsedUp` where its name would have over 8 steps.
    pub fn dup(
        &mut self,
        alloc: Global,
        comm: &Comm,
        turns: u64,
        ops: &Ops,
    ) -> Result<Finished, CallError>
        ensures { DeskCalls (H.goes_by self.old.host (⟦<Ops as Listing>⟧.operations ops.now)) H.node H.turned H.turn_refused comm.now.name line.dup turns result self.old self.new }
    {
        let draft = lines::dup();
        self.call_on(alloc, &comm.name, draft, turns, ops)
    }

    /// `MPI_COMM_SPLIT` (MPI 4.1 section 7.4.2): every member gets the new communicator of those that give its colour, ordered by key,
    /// of equal keys by rank; one without a colour (`MPI_UNDEFINED`) the null communicator. A colour is from 0 to 2,147,483,647, and a
    /// key has 32 bits with a sign (`BadTag`). `DepthUsedUp` where the new name would have over 8 steps.
    pub fn split(
        &mut self,
        alloc: Global,
        comm: &Comm,
        colour: Option<i128>,
        key: i128,
        turns: u64,
        ops: &Ops,
    ) -> Result<Finished, CallError>
        ensures { DeskCalls (H.goes_by self.old.host (⟦<Ops as Listing>⟧.operations ops.now)) H.node H.turned H.turn_refused comm.now.name (line.split colour key) turns result self.old self.new }
    {
        let draft = lines::split(colour, key);
        self.call_on(alloc, &comm.name, draft, turns, ops)
    }

    /// `MPI_COMM_CREATE` (MPI 4.1 section 7.4.2), which all members call: a member gets the new communicator of the members with these
    /// ranks, in this order, or the null communicator where it isn't among the ranks that it gives. All members of a list give that
    /// list, else it is the fault `Groups`. `BadGroup` where a rank is none of the communicator or stands twice; `DepthUsedUp` as of
    /// [`Desk::dup`].
    pub fn create(
        &mut self,
        alloc: Global,
        comm: &Comm,
        ranks: Numbers,
        turns: u64,
        ops: &Ops,
    ) -> Result<Finished, CallError>
        ensures { DeskCalls (H.goes_by self.old.host (⟦<Ops as Listing>⟧.operations ops.now)) H.node H.turned H.turn_refused comm.now.name (line.create ranks) turns result self.old self.new }
    {
        let draft = lines::create(ranks);
        self.call_on(alloc, &comm.name, draft, turns, ops)
    }

    /// `MPI_COMM_CREATE_GROUP` (MPI 4.1 section 7.4.2), which the members with these ranks call alone: each gets the new communicator
    /// of them, in this order. It opens their gathering under the tag and posts there; a refused post keeps the gathering opened. The
    /// refusals of [`Desk::open_gathering`] come first, then `CallsUsedUp` and `DepthUsedUp`, since the new name has two steps more
    /// than the communicator's; want of memory may come before a refusal of the post.
    pub fn create_group(
        &mut self,
        alloc: Global,
        comm: &Comm,
        tag: i128,
        ranks: Numbers,
        turns: u64,
        ops: &Ops,
    ) -> Result<Finished, CallError>
        ensures { DeskCallsGathered (H.goes_by self.old.host (⟦<Ops as Listing>⟧.operations ops.now)) H.node H.turned H.turn_refused comm.now.name tag ranks turns result self.old self.new }
    {
        match self.open_gathering(alloc, comm, tag, ranks) {
            Err(refusal) => Err(CallError::Refused(refusal)),
            Ok(gathering) => {
                let draft = lines::create_group();
                self.call_on(alloc, &gathering.name, draft, turns, ops)
            }
        }
    }

    /// The post of [`Desk::create_group`] alone, whose result is to be waited for: it opens the gathering, and posts there. It makes
    /// no turn. Its refusals are those of [`Desk::create_group`].
    pub fn start_create_group(
        &mut self,
        alloc: Global,
        comm: &Comm,
        tag: i128,
        ranks: Numbers,
        ops: &Ops,
    ) -> Result<Request, PostError>
        ensures asks { DeskAsksGathered (H.goes_by self.old.host (⟦<Ops as Listing>⟧.operations ops.now)) H.node H.turned comm.now.name tag ranks result self.old self.new }
        ensures no_turn { H.turned self.old.host 0 self.new.host }
    {
        match self.open_gathering(alloc, comm, tag, ranks) {
            Err(refusal) => Err(refusal),
            Ok(gathering) => {
                let draft = lines::create_group();
                self.post_on(alloc, &gathering.name, draft, ops)
            }
        }
    }

    /// `MPI_DIST_GRAPH_CREATE` (MPI 4.1 section 8.5.4): each member gives any edges, also between others, and gets the new communicator
    /// of the same members with the graph of all edges. An end that is no rank, or, with `weighted`, a weight outside 0 to
    /// 2,147,483,647, is `BadEdge`; over 512 edges are `TooManyEdges`. All or none are `weighted`, else it is the fault `Weights`.
    /// `DepthUsedUp` as of [`Desk::dup`].
    pub fn dist_graph(
        &mut self,
        alloc: Global,
        comm: &Comm,
        weighted: bool,
        edges: Vec<DraftedEdge>,
        turns: u64,
        ops: &Ops,
    ) -> Result<Finished, CallError>
        ensures { DeskCalls (H.goes_by self.old.host (⟦<Ops as Listing>⟧.operations ops.now)) H.node H.turned H.turn_refused comm.now.name (line.dist_graph weighted edges.items) turns result self.old self.new }
    {
        let (sources, destinations) = (Vec::new(alloc), Vec::new(alloc));
        let new = NewCommunicator::DistGraph;
        let draft = lines::of_graph(new, weighted, edges, sources, destinations);
        self.call_on(alloc, &comm.name, draft, turns, ops)
    }

    /// `MPI_DIST_GRAPH_CREATE_ADJACENT` (MPI 4.1 section 8.5.4): each member gives its own sources and destinations, at most 512
    /// together, and gets the new communicator of the same members with the graph of these neighbours. The two members of an edge
    /// give it equally often and with the same weights, else it is the fault `Edges`. All else is as of [`Desk::dist_graph`].
    pub fn dist_graph_adjacent(
        &mut self,
        alloc: Global,
        comm: &Comm,
        weighted: bool,
        sources: Vec<DraftedNeighbour>,
        destinations: Vec<DraftedNeighbour>,
        turns: u64,
        ops: &Ops,
    ) -> Result<Finished, CallError>
        ensures { DeskCalls (H.goes_by self.old.host (⟦<Ops as Listing>⟧.operations ops.now)) H.node H.turned H.turn_refused comm.now.name (line.dist_graph_adjacent weighted sources.items destinations.items) turns result self.old self.new }
    {
        let new = NewCommunicator::DistGraphAdjacent;
        let draft = lines::of_graph(new, weighted, Vec::new(alloc), sources, destinations);
        self.call_on(alloc, &comm.name, draft, turns, ops)
    }

    /// `MPI_COMM_FREE` (MPI 4.1 section 7.4.3), which all members call, and of which each gets nothing. The member posts nothing more
    /// on the communicator, whatever comes of this call: from its post on each other one is refused as [`PostError::Closed`]. What is
    /// open there can still be waited for.
    pub fn free(
        &mut self,
        alloc: Global,
        comm: &Comm,
        turns: u64,
        ops: &Ops,
    ) -> Result<Finished, CallError>
        ensures { DeskCalls (H.goes_by self.old.host (⟦<Ops as Listing>⟧.operations ops.now)) H.node H.turned H.turn_refused comm.now.name line.free turns result self.old self.new }
    {
        let draft = lines::free();
        self.call_on(alloc, &comm.name, draft, turns, ops)
    }
}
