//! The calls that make communicators, and the one that frees them.
ghost use Rattle.std.specs.Prelude.{◌≡◌, [], IfErr, IfOk, IsOk, Ok, OnOk, Some, map, pos};
ghost use Rattle.mpx_comm.specs.Comms.{comm_of};
ghost use Rattle.mpx_comm.specs.Given.{numbers_given};
ghost use Rattle.mpx_comm.specs.Lines as line;
ghost use Rattle.mpx_program_rank.specs.Gives.{Gives, GivesGathered, IsComm, IsDone, IsNewComm, IsUnread};
ghost use Rattle.mpx_program_rank.specs.declared.call_error.Cause.TheVariants.{OutOfMemory};

use crate::call_error::{CallError, Cause};
use crate::rank::Rank;
use crate::reading::Made;
use mpx_comm::{CallError as DeskError, Comm, Host, numbers_of};
use mpx_node::Finished;
use mpx_num::{Integer, Numbers, Ops};
use mpx_post::{DraftedEdge, DraftedNeighbour};
use std::alloc::Global;

/// Each call is the one of [`Desk`](crate::Desk) with its name.
impl<'a, H: Host> Rank<'a, H> {
    /// `MPI_COMM_DUP`: a new communicator of the same members, with the same graph.
    pub fn dup(&mut self, comm: &Comm) -> Result<Comm, CallError>
        ensures gives { Gives (H.goes_by self.old.desk.now.host []) H.node H.turned H.turn_refused comm.now.name (line.dup) self.old.turns IsNewComm result self.old.desk.now self.new.desk.now }
        ensures same { self.new.desk.ghost_name ≡ self.old.desk.ghost_name }
        ensures kept { (self.new.world ≡ self.old.world) × (self.new.turns ≡ self.old.turns) }
    {
        let made = Made::new("dup", comm, 0);
        let ops = Ops::none(self.alloc);
        let answer = self.desk.dup(self.alloc, comm, self.turns, &ops);
        self.new_comm(made, answer)
    }

    /// `MPI_COMM_SPLIT`: the new communicator of the ranks that give the same colour, ordered by key; none where the colour is none (`MPI_UNDEFINED`).
    pub fn split(
        &mut self,
        comm: &Comm,
        colour: Option<i128>,
        key: i128,
    ) -> Result<Option<Comm>, CallError>
        ensures gives { Gives (H.goes_by self.old.desk.now.host []) H.node H.turned H.turn_refused comm.now.name (line.split colour key) self.old.turns IsComm result self.old.desk.now self.new.desk.now }
        ensures same { self.new.desk.ghost_name ≡ self.old.desk.ghost_name }
        ensures kept { (self.new.world ≡ self.old.world) × (self.new.turns ≡ self.old.turns) }
    {
        let made = Made::new("split", comm, 0);
        let ops = Ops::none(self.alloc);
        let answer = self
            .desk
            .split(self.alloc, comm, colour, key, self.turns, &ops);
        self.comm_given(made, answer)
    }

    /// [`Rank::split`] where every rank gives a colour: the new communicator.
    pub fn split_by<C: Integer>(
        &mut self,
        comm: &Comm,
        colour: C,
        key: C,
    ) -> Result<Comm, CallError>
        ensures gives { Gives (H.goes_by self.old.desk.now.host []) H.node H.turned H.turn_refused comm.now.name (line.split (Some (C.value colour)) (C.value key)) self.old.turns IsNewComm result self.old.desk.now self.new.desk.now }
        ensures same { self.new.desk.ghost_name ≡ self.old.desk.ghost_name }
        ensures kept { (self.new.world ≡ self.old.world) × (self.new.turns ≡ self.old.turns) }
    {
        let made = Made::new("split", comm, 0);
        let (colour, key) = (Some(colour.number()), key.number());
        let ops = Ops::none(self.alloc);
        let answer = self
            .desk
            .split(self.alloc, comm, colour, key, self.turns, &ops);
        self.new_comm(made, answer)
    }

    /// `MPI_COMM_CREATE`: the new communicator of these ranks, in this order, at each of them. All ranks call it.
    pub fn create(&mut self, comm: &Comm, ranks: &[u8]) -> Result<Option<Comm>, CallError>
        ensures gives { Gives (H.goes_by self.old.desk.now.host []) H.node H.turned H.turn_refused comm.now.name (line.create (map pos ranks.now)) self.old.turns IsComm result self.old.desk.now self.new.desk.now }
        ensures same { self.new.desk.ghost_name ≡ self.old.desk.ghost_name }
        ensures kept { (self.new.world ≡ self.old.world) × (self.new.turns ≡ self.old.turns) }
    {
        let made = Made::new("create", comm, 0);
        let ranks = self.ranks(made, ranks)?;
        let ops = Ops::none(self.alloc);
        let answer = self.desk.create(self.alloc, comm, ranks, self.turns, &ops);
        self.comm_given(made, answer)
    }

    /// `MPI_COMM_FREE`: this rank calls nothing on the communicator any more.
    pub fn free(&mut self, comm: &Comm) -> Result<(), CallError>
        ensures gives { Gives (H.goes_by self.old.desk.now.host []) H.node H.turned H.turn_refused comm.now.name (line.free) self.old.turns IsDone result self.old.desk.now self.new.desk.now }
        ensures same { self.new.desk.ghost_name ≡ self.old.desk.ghost_name }
        ensures kept { (self.new.world ≡ self.old.world) × (self.new.turns ≡ self.old.turns) }
    {
        let made = Made::new("free", comm, 0);
        let ops = Ops::none(self.alloc);
        let answer = self.desk.free(self.alloc, comm, self.turns, &ops);
        self.nothing(made, answer)
    }

    /// `MPI_DIST_GRAPH_CREATE`: the new communicator of the same ranks with the graph of all edges that ranks give.
    pub fn dist_graph(
        &mut self,
        comm: &Comm,
        weighted: bool,
        edges: &[DraftedEdge],
    ) -> Result<Comm, CallError>
        ensures gives { Gives (H.goes_by self.old.desk.now.host []) H.node H.turned H.turn_refused comm.now.name (line.dist_graph weighted edges.now) self.old.turns IsNewComm result self.old.desk.now self.new.desk.now }
        ensures same { self.new.desk.ghost_name ≡ self.old.desk.ghost_name }
        ensures kept { (self.new.world ≡ self.old.world) × (self.new.turns ≡ self.old.turns) }
    {
        let made = Made::new("dist_graph", comm, 0);
        let edges = self.list(made, edges)?;
        let ops = Ops::none(self.alloc);
        let answer = self
            .desk
            .dist_graph(self.alloc, comm, weighted, edges, self.turns, &ops);
        self.new_comm(made, answer)
    }

    /// `MPI_DIST_GRAPH_CREATE_ADJACENT`: the same, where each rank gives its own sources and destinations.
    pub fn dist_graph_adjacent(
        &mut self,
        comm: &Comm,
        weighted: bool,
        sources: &[DraftedNeighbour],
        destinations: &[DraftedNeighbour],
    ) -> Result<Comm, CallError>
        ensures gives { Gives (H.goes_by self.old.desk.now.host []) H.node H.turned H.turn_refused comm.now.name (line.dist_graph_adjacent weighted sources.now destinations.now) self.old.turns IsNewComm result self.old.desk.now self.new.desk.now }
        ensures same { self.new.desk.ghost_name ≡ self.old.desk.ghost_name }
        ensures kept { (self.new.world ≡ self.old.world) × (self.new.turns ≡ self.old.turns) }
    {
        let made = Made::new("dist_graph_adjacent", comm, 0);
        let sources = self.list(made, sources)?;
        let destinations = self.list(made, destinations)?;
        let ops = Ops::none(self.alloc);
        let answer = self.desk.dist_graph_adjacent(
            self.alloc,
            comm,
            weighted,
            sources,
            destinations,
            self.turns,
            &ops,
        );
        self.new_comm(made, answer)
    }

    /// `MPI_COMM_CREATE_GROUP`: the new communicator of these ranks, in this order. Only they call it, with the same tag.
    pub fn create_group(&mut self, comm: &Comm, tag: u16, ranks: &[u8]) -> Result<Comm, CallError>
        ensures gives { GivesGathered (H.goes_by self.old.desk.now.host []) H.node H.turned H.turn_refused comm.now.name (pos tag) (map pos ranks.now) self.old.turns IsNewComm result self.old.desk.now self.new.desk.now }
        ensures same { self.new.desk.ghost_name ≡ self.old.desk.ghost_name }
        ensures kept { (self.new.world ≡ self.old.world) × (self.new.turns ≡ self.old.turns) }
    {
        let made = Made::new("create_group", comm, 0);
        let ranks = self.ranks(made, ranks)?;
        let tag = i128::from(tag);
        let ops = Ops::none(self.alloc);
        let answer = self
            .desk
            .create_group(self.alloc, comm, tag, ranks, self.turns, &ops);
        self.new_comm(made, answer)
    }

    // The communicator that the desk's answer gives, or none.
    fn comm_given(
        &self,
        made: Made<'_>,
        answer: Result<Finished, DeskError>,
    ) -> Result<Option<Comm>, CallError>
        ensures { IsComm answer result }
    {
        match answer {
            Ok(finished) => {
                let comm = comm_in(self.alloc, &finished);
                drop(finished);
                match comm {
                    Ok(comm) => Ok(comm),
                    Err(cause) => Err(self.failed(made, self.last_call(made.comm), cause)),
                }
            }
            Err(why) => Err(self.error_of(made, why)),
        }
    }

    // The communicator that the desk's answer gives.
    fn new_comm(
        &self,
        made: Made<'_>,
        answer: Result<Finished, DeskError>,
    ) -> Result<Comm, CallError>
        ensures { IsNewComm answer result }
    {
        match answer {
            Ok(finished) => {
                let comm = comm_in(self.alloc, &finished);
                drop(finished);
                let call = self.last_call(made.comm);
                match comm {
                    Ok(Some(comm)) => Ok(comm),
                    Ok(None) => Err(self.failed(made, call, Cause::NoComm)),
                    Err(cause) => Err(self.failed(made, call, cause)),
                }
            }
            Err(why) => Err(self.error_of(made, why)),
        }
    }

    // The numbers of these ranks.
    fn ranks(&self, made: Made<'_>, ranks: &[u8]) -> Result<Numbers, CallError>
        ensures numbers { IfOk result (λ given. given ≡ map pos ranks.now) }
        ensures none { IfErr result (λ e. e.cause ≡ OutOfMemory) }
    {
        match Numbers::from_slice(self.alloc, ranks) {
            Ok(given) => Ok(given),
            Err(_) => Err(self.failed(made, self.next_call(made.comm), Cause::OutOfMemory)),
        }
    }

    // The same list once more.
    fn list<E: Copy>(&self, made: Made<'_>, list: &[E]) -> Result<Vec<E>, CallError>
        ensures value { IfOk result (λ given. given.items ≡ list.now) }
        ensures none { IfErr result (λ e. e.cause ≡ OutOfMemory) }
    {
        match Vec::from_slice(self.alloc, list) {
            Ok(given) => Ok(given),
            Err(_) => Err(self.failed(made, self.next_call(made.comm), Cause::OutOfMemory)),
        }
    }
}

// The communicator that a call gave, or none; or why it isn't had.
fn comm_in(alloc: Global, finished: &Finished) -> Result<Option<Comm>, Cause>
    ensures comm { IfOk result (λ comm. comm ≡ comm_of finished.now.outcome) }
    ensures fine { OnOk result (IsOk (numbers_given finished.now.outcome)) }
    ensures none { IfErr result (λ cause. IsUnread (numbers_given finished.now.outcome) cause) }
{
    match numbers_of(finished) {
        Ok(_) => match Comm::of(alloc, finished) {
            Ok(comm) => Ok(comm),
            Err(_) => Err(Cause::OutOfMemory),
        },
        Err(fault) => Err(Cause::Fault(fault)),
    }
}
