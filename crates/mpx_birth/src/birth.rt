//! How a communicator came to be.
ghost use Rattle.std.specs.Prelude.{◌≡◌, ◌<◌, ◌≤◌, All, IfOk, OnErr, Some, false, length, true};
ghost use Rattle.std.specs.Option.{option_copied};
ghost use Rattle.mpx_group.specs.Group.{IsGroup, has_twice};
ghost use Rattle.mpx_birth.specs.Births.{IsBirthOf, fits_topology, is_birth, of_members, rank_in, same_topologies, upto};
ghost use Rattle.mpx_birth.specs.Topologies.{IsKept, indegree_in, most_neighbours, outdegree_in};

use crate::topology::Topology;
use join_core::{Exact, OutOfMemory};
use mpx_group::Proc;
use std::alloc::Global;
use std::marker::Model;
use std::sync::Arc;

/// How a communicator came to be: its members, 1 to 64, none twice, in rank order, and their topology where it is a distributed graph
/// (MPI 4.1 sections 7.2 and 8.5). Copies share both.
#[derive(Debug, Drop)]
pub struct Birth {
    members: Arc<Vec<Proc>>,
    topology: Option<Topology>,
}

impl Model for Birth {
    ghost use Rattle.std.specs.Arc.{arc_value};
    ghost use Rattle.mpx_birth.specs.Births.{BirthView, IsBirth};

    ghost Value = { BirthView };

    ghost view = { λ b. record { members = (arc_value b.members).items; topology = b.topology } };

    ghost invariant = { λ b. IsBirth (record { members = (arc_value b.members).items; topology = b.topology }) };
}

impl Exact for Birth {
    ghost use Rattle.join_core.specs.Joins.{never_between, never_joined};
    ghost use Rattle.mpx_birth.specs.Births.{BirthView, same_birth, birth_equality};

    ghost View = { BirthView };

    ghost view = { λ b. b };

    ghost equal = { same_birth };

    ghost joining = { never_joined };

    ghost between = { never_between };

    fn same(&self, other: &Birth) -> bool {
        (self.members() == other.members()) & are_same(&self.topology, &other.topology)
    }

    fn copy(&self, alloc: Global) -> Result<Birth, OutOfMemory> {
        let _alloc = alloc;
        Ok(Birth {
            members: Arc::try_clone(&self.members)?,
            topology: copied(&self.topology)?,
        })
    }

    ghost equality = { birth_equality };
}

impl Birth {
    /// The communicator `world`, whose members are the processes below `ranks`.
    pub fn world(alloc: Global, ranks: u8) -> Result<Birth, OutOfMemory>
        requires some { 0 < ranks }
        requires few { ranks ≤ 64 }
        ensures { IfOk result (λ birth. birth ≡ of_members (upto ranks)) }
    {
        let mut members = Vec::new(alloc);
        for rank in 0..ranks {
            members.push(Proc::new(rank))?;
        }
        Birth::of_members(alloc, members)
    }

    /// The communicator of these members in this order, with this topology: `None` where there are none of them, where one
    /// stands there twice, and where the topology has another number of ranks. Memory is wanting only where there is a birth.
    #[tactic(auto, unfolding(crate::specs::Births::is_birth))]
    pub fn new(
        alloc: Global,
        members: Vec<Proc>,
        topology: Option<Topology>,
    ) -> Result<Option<Birth>, OutOfMemory>
        ensures made { IfOk result (λ made. IsBirthOf (record { members = members.items; topology = topology }) made) }
        ensures memory { OnErr result (is_birth (record { members = members.items; topology = topology }) ≡ true) }
    {
        let as_many = match &topology {
            None => true,
            Some(topology) => topology.size() == members.len(),
        };
        if members.len() == 0 || 64 < members.len() || has_twice(&members) || !as_many {
            return Ok(None);
        }
        Ok(Some(Birth::from_parts(alloc, members, topology)?))
    }

    /// The communicator of these members in this order, without a topology.
    pub fn of_members(alloc: Global, members: Vec<Proc>) -> Result<Birth, OutOfMemory>
        requires some { 0 < length members.items }
        requires few { length members.items ≤ 64 }
        requires distinct { has_twice members.items ≡ false }
        ensures { IfOk result (λ birth. birth ≡ of_members members.items) }
    {
        Birth::from_parts(alloc, members, None)
    }

    /// The communicator of these members in this order, with this topology of as many ranks. It asks nothing of them.
    pub fn from_parts(
        alloc: Global,
        members: Vec<Proc>,
        topology: Option<Topology>,
    ) -> Result<Birth, OutOfMemory>
        requires some { 0 < length members.items }
        requires distinct { has_twice members.items ≡ false }
        requires topology { fits_topology (length members.items) topology }
        ensures value { IfOk result (λ birth. birth ≡ record { members = members.items; topology = topology }) }
        ensures kept { is_birth (record { members = members.items; topology = topology }) ≡ true }
    {
        are_below(&members);
        match Arc::new(alloc, members) {
            Ok(members) => Ok(Birth { members, topology }),
            Err(_) => Err(OutOfMemory),
        }
    }

    /// A birth of these members with this topology, which is of as many ranks (the caller's condition).
    pub fn with_topology(&self, topology: Topology) -> Result<Birth, OutOfMemory>
        requires { length topology.ranks ≡ length self.now.members }
        ensures { IfOk result (λ birth. birth ≡ record { members = self.now.members; topology = Some topology }) }
    {
        Ok(Birth {
            members: Arc::try_clone(&self.members)?,
            topology: Some(topology),
        })
    }

    /// A birth of these members without a topology.
    pub fn without_topology(&self) -> Result<Birth, OutOfMemory>
        ensures { IfOk result (λ birth. birth ≡ of_members self.now.members) }
    {
        Ok(Birth {
            members: Arc::try_clone(&self.members)?,
            topology: None,
        })
    }

    /// The members, 1 to 64, in rank order.
    pub fn members(&self) -> &[Proc]
        ensures value { result.now ≡ self.now.members }
        ensures some { 0 < length result.now }
        ensures small { length result.now ≤ 64 }
        ensures group { IsGroup result.now }
        ensures kept { is_birth self.now ≡ true }
    {
        self.members.as_slice()
    }

    /// The topology, which has as many ranks, of a distributed graph.
    pub fn topology(&self) -> Option<&Topology>
        ensures value { option_copied result ≡ self.now.topology }
        ensures ranks { fits_topology (length self.now.members) self.now.topology }
        ensures kept { IsKept self.now.topology }
    {
        match &self.topology {
            None => None,
            Some(topology) => {
                prove!(topology.size() <= 64);
                Some(topology)
            }
        }
    }

    /// How many edges of its topology come to this rank, 0 without one (MPI 4.1 section 8.5.5).
    pub fn indegree(&self, rank: u8) -> usize
        ensures value { result ≡ indegree_in self.now.topology rank }
        ensures few { result ≤ most_neighbours }
    {
        match &self.topology {
            None => 0,
            Some(topology) => topology.sources(rank).len(),
        }
    }

    /// How many edges of its topology go from this rank, 0 without one (MPI 4.1 section 8.5.5).
    pub fn outdegree(&self, rank: u8) -> usize
        ensures value { result ≡ outdegree_in self.now.topology rank }
        ensures few { result ≤ most_neighbours }
    {
        match &self.topology {
            None => 0,
            Some(topology) => topology.destinations(rank).len(),
        }
    }

    /// The rank of the process, where it is a member.
    pub fn rank_of(&self, process: Proc) -> Option<u8>
        ensures { result ≡ rank_in process self.now.members }
    {
        let place = self.members.iter().position(|member| *member == process)?;
        Some(place as u8)
    }
}

// Whether a process stands there twice.
fn has_twice(members: &[Proc]) -> bool
    ensures { result ≡ has_twice members.now }
{
    for (i, member) in members.iter().enumerate() {
        if members[..i].contains(member) {
            return true;
        }
    }
    false
}

// Their numbers are below 64, which is known once each is read.
fn are_below(members: &[Proc])
    ensures { All (λ p. p < 64) members.now }
{
    for member in members {
        let _number = member.number();
    }
}

// Whether both have none, or the same topology.
fn are_same(left: &Option<Topology>, right: &Option<Topology>) -> bool
    ensures { result ≡ same_topologies left.now right.now }
{
    match (left, right) {
        (None, None) => true,
        (None, Some(_)) => false,
        (Some(_), None) => false,
        (Some(left), Some(right)) => left.same(right),
    }
}

// A copy of the topology, where there is one, which shares the neighbours.
fn copied(topology: &Option<Topology>) -> Result<Option<Topology>, OutOfMemory>
    ensures { IfOk result (λ copied. copied ≡ topology.now) }
{
    match topology {
        None => Ok(None),
        Some(topology) => Ok(Some(topology.copy()?)),
    }
}
