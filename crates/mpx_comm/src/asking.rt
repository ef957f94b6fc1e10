//! Questions about a communicator, which are answered by what the host's process knows.
ghost use Rattle.std.specs.Prelude.{◌≡◌, ◌≤◌, ◌++◌, ◌∷◌, [], IfOk, OnOk, Ok, cond, length, map};
ghost use Rattle.mpx_birth.specs.Topologies.{destinations_at, sources_at};
ghost use Rattle.mpx_board.specs.Looks.{look};
ghost use Rattle.mpx_group.specs.Group.{IsGroup, comparison_of};
ghost use Rattle.mpx_group.specs.Translation.{translated};
ghost use Rattle.mpx_comm.specs.Asking.{Answers, awaited_on, comparison_on, lacking_in, lacks_post, members_on, read, relation_of, topology_on, translation_on};
ghost use Rattle.mpx_comm.specs.declared.asking.AskError.TheVariants.{OutOfMemory};

use crate::comm::Comm;
use crate::desk::Desk;
use mpx_birth::{Neighbour, Topology};
use mpx_board::Board;
use mpx_group::{Group, Proc, Rank, all_in};
use mpx_name::Name;
use mpx_request::{Host, Request};
use std::alloc::Global;
use thiserror::Error;

/// Why a question about a communicator has no answer.
#[derive(Clone, Copy, Debug, PartialEq, Eq, Error)]
pub enum AskError {
    /// The host doesn't know how the communicator came to be, or not any more: all members have freed it.
    #[error("communicator not known")]
    NotKnown,
    /// The communicator has no graph (`MPI_ERR_TOPOLOGY`).
    #[error("no topology")]
    NoTopology,
    #[error("out of memory")]
    OutOfMemory,
}

impl From<join_core::OutOfMemory> for AskError {
    ghost from_gives = { λ _ e. e ≡ OutOfMemory };

    fn from(_e: join_core::OutOfMemory) -> AskError {
        AskError::OutOfMemory
    }
}

/// How two communicators compare (`MPI_COMM_COMPARE`, MPI 4.1 section 7.4.1).
#[derive(Clone, Copy, Debug, PartialEq, Eq)]
pub enum Relation {
    /// They are the same communicator: one context.
    Ident,
    /// The same members in the same order, in another context.
    Congruent,
    /// The same members in another order.
    Similar,
    /// Other members.
    Unequal,
}

/// What a member asks of its communicator. It posts nothing, makes no turn and changes nothing.
impl<H: Host> Desk<H> {
    /// The members as processes, in rank order. The error is `NotKnown`.
    pub fn members(&self, comm: &Comm) -> Result<&[Proc], AskError>
        ensures told { read (λ members. members.now) result ≡ members_on (H.node self.now.host) comm.now.name }
        ensures group { IfOk result (λ members. IsGroup members.now) }
    {
        match self.host.board().birth(&comm.name) {
            None => Err(AskError::NotKnown),
            Some(birth) => Ok(birth.members()),
        }
    }

    /// The members as a group (`MPI_COMM_GROUP`, MPI 4.1 section 7.3.2). The errors are `NotKnown` and `OutOfMemory`.
    pub fn group(&self, alloc: Global, comm: &Comm) -> Result<Group, AskError>
        ensures { Answers (members_on (H.node self.now.host) comm.now.name) result }
    {
        match self.members(comm) {
            Ok(members) => group_of(alloc, members),
            Err(e) => Err(e),
        }
    }

    /// How two communicators compare (`MPI_COMM_COMPARE`, MPI 4.1 section 7.4.1): the same one is `Ident`, known or not. The error is
    /// `NotKnown`, of either.
    pub fn compare(&self, one: &Comm, other: &Comm) -> Result<Relation, AskError>
        ensures { result ≡ comparison_on (H.node self.now.host) one.now.name other.now.name }
    {
        if one.name == other.name {
            return Ok(Relation::Ident);
        }
        match (self.members(one), self.members(other)) {
            (Ok(one), Ok(other)) => Ok(related(one, other)),
            (Err(e), _) => Err(e),
            (Ok(_), Err(e)) => Err(e),
        }
    }

    /// The ranks in the other communicator of the processes at these ranks of the one (`MPI_GROUP_TRANSLATE_RANKS` of their groups, MPI 4.1
    /// section 7.3.1): `Undefined` of a process that is no member there, and of a rank that is none here. The errors are `NotKnown`, of
    /// either, and `OutOfMemory`.
    pub fn translate(
        &self,
        alloc: Global,
        from: &Comm,
        ranks: &[Rank],
        to: &Comm,
    ) -> Result<Vec<Rank>, AskError>
        ensures { Answers (translation_on (H.node self.now.host) from.now.name to.now.name ranks.now) (read (λ v. v.items) result) }
    {
        match (self.members(from), self.members(to)) {
            (Ok(from), Ok(to)) => translated(alloc, from, ranks, to),
            (Err(e), _) => Err(e),
            (Ok(_), Err(e)) => Err(e),
        }
    }

    /// From whom edges come to this member, in order, each as often as there are edges, with their weights, 0 where edges have none
    /// (`MPI_DIST_GRAPH_NEIGHBORS`, MPI 4.1 section 8.5.5). The errors are `NotKnown` and `NoTopology`.
    pub fn sources(&self, comm: &Comm) -> Result<&[Neighbour], AskError>
        ensures { read (λ near. near.now) result ≡ read (λ topology. sources_at topology comm.now.rank) (topology_on (H.node self.now.host) comm.now.name) }
    {
        Ok(self.topology(comm)?.sources(comm.rank()))
    }

    /// To whom edges go from this member, as [`Desk::sources`] tells it of the others.
    pub fn destinations(&self, comm: &Comm) -> Result<&[Neighbour], AskError>
        ensures { read (λ near. near.now) result ≡ read (λ topology. destinations_at topology comm.now.rank) (topology_on (H.node self.now.host) comm.now.name) }
    {
        Ok(self.topology(comm)?.destinations(comm.rank()))
    }

    /// Whether edges have weights (`MPI_DIST_GRAPH_NEIGHBORS_COUNT`, MPI 4.1 section 8.5.5). The errors are those of [`Desk::sources`].
    pub fn is_weighted(&self, comm: &Comm) -> Result<bool, AskError>
        ensures { result ≡ read (λ topology. topology.weighted) (topology_on (H.node self.now.host) comm.now.name) }
    {
        Ok(self.topology(comm)?.weighted())
    }

    // The graph of the communicator.
    fn topology(&self, comm: &Comm) -> Result<&Topology, AskError>
        ensures { read (λ topology. topology.now) result ≡ topology_on (H.node self.now.host) comm.now.name }
    {
        match self.host.board().birth(&comm.name) {
            None => Err(AskError::NotKnown),
            Some(birth) => match birth.topology() {
                None => Err(AskError::NoTopology),
                Some(topology) => Ok(topology),
            },
        }
    }

    /// For whose posts a request is still waited: the ranks of its communicator, in rising order, whose post of this call the host
    /// hasn't heard of. Nobody is where every member has harvested the call. Calls of one communicator are done in their order, so one that
    /// has all posts may wait for an earlier one. The errors are `NotKnown` and `OutOfMemory`.
    pub fn awaited(&self, alloc: Global, request: &Request) -> Result<Vec<u8>, AskError>
        ensures { Answers (awaited_on (H.node self.now.host) request.now.name request.now.call) (read (λ v. v.items) result) }
    {
        let board = self.host.board();
        match board.birth(request.name()) {
            None => Err(AskError::NotKnown),
            Some(birth) => {
                match lacking(
                    alloc,
                    board,
                    request.name(),
                    request.call(),
                    birth.members(),
                ) {
                    Ok(ranks) => Ok(ranks),
                    Err(_) => Err(AskError::OutOfMemory),
                }
            }
        }
    }
}

// How communicators of these members compare, whose contexts aren't the same.
fn related(one: &[Proc], other: &[Proc]) -> Relation
    ensures { result ≡ relation_of (comparison_of one.now other.now) }
{
    if one == other {
        Relation::Congruent
    } else if all_in(one, other) && all_in(other, one) {
        Relation::Similar
    } else {
        Relation::Unequal
    }
}

// The ranks of these processes among others.
fn translated(
    alloc: Global,
    from: &[Proc],
    ranks: &[Rank],
    to: &[Proc],
) -> Result<Vec<Rank>, AskError>
    requires from { IsGroup from.now }
    requires to { IsGroup to.now }
    ensures { Answers (Ok (map (translated from.now to.now) ranks.now)) (read (λ v. v.items) result) }
{
    let from = group_of(alloc, from)?;
    let found = translated_to(alloc, &from, ranks, to);
    drop(from);
    found
}

fn translated_to(
    alloc: Global,
    from: &Group,
    ranks: &[Rank],
    to: &[Proc],
) -> Result<Vec<Rank>, AskError>
    requires { IsGroup to.now }
    ensures { Answers (Ok (map (translated from.now to.now) ranks.now)) (read (λ v. v.items) result) }
{
    let to = group_of(alloc, to)?;
    let found = from.translate(alloc, ranks, &to);
    drop(to);
    Ok(found?)
}

// The group of these processes.
fn group_of(alloc: Global, members: &[Proc]) -> Result<Group, AskError>
    requires { IsGroup members.now }
    ensures { Answers (Ok members.now) result }
{
    match Vec::from_slice(alloc, members) {
        Ok(members) => Ok(Group::of(members)),
        Err(_) => Err(AskError::OutOfMemory),
    }
}

// The ranks of these members whose post of the call is lacking.
fn lacking(
    alloc: Global,
    board: &Board,
    name: &Name,
    call: u32,
    members: &[Proc],
) -> Result<Vec<u8>, join_core::OutOfMemory>
    requires few { length members.now ≤ 64 }
    ensures { IfOk result (λ ranks. ranks.items ≡ lacking_in ((look board.now).contexts name.now) call members.now) }
{
    let mut ranks = Vec::new(alloc);
    for rank in 0..members.len() {
        let is_lacking = lacks(board, name, call, members[rank]);
        add_if(&mut ranks, rank as u8, is_lacking)?;
    }
    Ok(ranks)
}

// Adds the rank, where it is to be added.
fn add_if(ranks: &mut Vec<u8>, rank: u8, is_lacking: bool) -> Result<(), join_core::OutOfMemory>
    ensures { OnOk result (ranks.new.items ≡ ranks.old.items ++ cond is_lacking (rank ∷ []) []) }
{
    if is_lacking {
        ranks.push(rank)?;
    }
    Ok(())
}

// Whether the process's post of the call is lacking.
fn lacks(board: &Board, name: &Name, call: u32, process: Proc) -> bool
    ensures { result ≡ lacks_post ((look board.now).contexts name.now) call process }
{
    board.dropped(name) <= call && board.holds(name, call, process).is_none()
}
