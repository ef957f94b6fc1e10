//! The neighbours of each rank of a distributed graph.
ghost use Rattle.std.specs.Prelude.{◌≡◌, ◌≤◌, ◌++◌, ◌∷◌, [], IfOk, OnOk, OnErr, length, true};
ghost use Rattle.std.specs.Arc.{arc_value};
ghost use Rattle.mpx_birth.specs.Topologies.{AgreesAtBothEnds, IsTopology, IsTopologyOf, destinations_at, is_topology, most_neighbours, nobody, same_near, same_nears, same_topology, sources_at};

use crate::edges::Neighbour;
use crate::limits::is_topology;
use join_core::OutOfMemory;
use std::alloc::Global;
use std::marker::Model;
use std::sync::Arc;

/// The sources and destinations of one rank, in order, each as often as an edge has it.
#[derive(Debug, Drop)]
pub struct Neighbours {
    sources: Vec<Neighbour>,
    destinations: Vec<Neighbour>,
}

impl Model for Neighbours {
    ghost use Rattle.mpx_birth.specs.Topologies.{Near};

    ghost Value = { Near };

    ghost view = { λ n. record { sources = n.sources.items; destinations = n.destinations.items } };
}

impl Neighbours {
    /// Nobody.
    pub fn none(alloc: Global) -> Neighbours
        ensures { result ≡ nobody }
    {
        Neighbours {
            sources: Vec::new(alloc),
            destinations: Vec::new(alloc),
        }
    }

    /// These sources and destinations.
    pub fn new(sources: Vec<Neighbour>, destinations: Vec<Neighbour>) -> Neighbours
        ensures { result ≡ record { sources = sources.items; destinations = destinations.items } }
    {
        Neighbours {
            sources,
            destinations,
        }
    }

    /// Copies of these sources and destinations.
    pub fn copied(
        alloc: Global,
        sources: &[Neighbour],
        destinations: &[Neighbour],
    ) -> Result<Neighbours, OutOfMemory>
        ensures { IfOk result (λ near. near ≡ record { sources = sources.now; destinations = destinations.now }) }
    {
        let sources = Vec::from_slice(alloc, sources)?;
        let destinations = Vec::from_slice(alloc, destinations)?;
        Ok(Neighbours {
            sources,
            destinations,
        })
    }

    /// Adds a source, as the last. An `Err` changes nothing.
    pub fn add_source(&mut self, source: Neighbour) -> Result<(), OutOfMemory>
        ensures ok { OnOk result (self.new ≡ record { sources = self.old.sources ++ source ∷ []; destinations = self.old.destinations }) }
        ensures err { OnErr result (self.new ≡ self.old) }
    {
        self.sources.push(source)?;
        Ok(())
    }

    /// Adds a destination, as the last. An `Err` changes nothing.
    pub fn add_destination(&mut self, destination: Neighbour) -> Result<(), OutOfMemory>
        ensures ok { OnOk result (self.new ≡ record { sources = self.old.sources; destinations = self.old.destinations ++ destination ∷ [] }) }
        ensures err { OnErr result (self.new ≡ self.old) }
    {
        self.destinations.push(destination)?;
        Ok(())
    }

    /// From whom edges come, in order.
    pub fn sources(&self) -> &[Neighbour]
        ensures { result.now ≡ self.now.sources }
    {
        self.sources.as_slice()
    }

    /// To whom edges go, in order.
    pub fn destinations(&self) -> &[Neighbour]
        ensures { result.now ≡ self.now.destinations }
    {
        self.destinations.as_slice()
    }
}

/// The neighbours of each of at most 64 ranks of a communicator, which copies share (MPI 4.1 section 8.5.4). A rank stands
/// among another's destinations as often as that one among its sources. All ranks have at most 32,768 sources together, and
/// as many destinations. Weights are below 2,147,483,648, and 0 where edges have none.
#[derive(Debug, Drop)]
pub struct Topology {
    weighted: bool,
    ranks: Arc<Vec<Neighbours>>,
}

impl Model for Topology {
    ghost use Rattle.std.specs.Arc.{arc_value};
    ghost use Rattle.mpx_birth.specs.Topologies.{IsTopology, TopologyView};

    ghost Value = { TopologyView };

    ghost view = { λ t. record { weighted = t.weighted; ranks = (arc_value t.ranks).items } };

    ghost invariant = { λ t. IsTopology (record { weighted = t.weighted; ranks = (arc_value t.ranks).items }) };
}

impl Topology {
    /// The topology of these neighbours, one entry for each rank, where they are those of one: else `None`, as where one end
    /// alone tells an edge. It takes a step for each neighbour, and one for each two ranks. Memory is wanting only where there is a
    /// topology.
    pub fn new(
        alloc: Global,
        weighted: bool,
        ranks: Vec<Neighbours>,
    ) -> Result<Option<Topology>, OutOfMemory>
        ensures made { IfOk result (λ made. IsTopologyOf (record { weighted = weighted; ranks = ranks.items }) made) }
        ensures memory { OnErr result (is_topology (record { weighted = weighted; ranks = ranks.items }) ≡ true) }
    {
        if !is_topology(weighted, &ranks) {
            return Ok(None);
        }
        Ok(Some(Topology::from_neighbours(alloc, weighted, ranks)?))
    }

    /// The topology of these neighbours, which are those of one, one entry for each rank.
    pub fn from_neighbours(
        alloc: Global,
        weighted: bool,
        ranks: Vec<Neighbours>,
    ) -> Result<Topology, OutOfMemory>
        requires { is_topology (record { weighted = weighted; ranks = ranks.items }) ≡ true }
        ensures { IfOk result (λ topology. topology ≡ record { weighted = weighted; ranks = ranks.items }) }
    {
        match Arc::new(alloc, ranks) {
            Ok(ranks) => Ok(Topology { weighted, ranks }),
            Err(_) => Err(OutOfMemory),
        }
    }

    /// Whether its edges have weights.
    pub fn weighted(&self) -> bool
        ensures { result ≡ self.now.weighted }
    {
        self.weighted
    }

    /// How many ranks it has, at most 64.
    pub fn size(&self) -> usize
        ensures size { result ≡ length self.now.ranks }
        ensures kept { IsTopology self.now }
    {
        self.ranks.len()
    }

    /// From whom edges come to this rank, in order: nobody where there is no such rank.
    pub fn sources(&self, rank: u8) -> &[Neighbour]
        ensures value { result.now ≡ sources_at self.now rank }
        ensures agree { AgreesAtBothEnds self.now.ranks }
        ensures few { length result.now ≤ most_neighbours }
    {
        match self.ranks.get(usize::from(rank)) {
            None => &[],
            Some(near) => near.sources(),
        }
    }

    /// To whom edges go from this rank, in order: nobody where there is no such rank.
    pub fn destinations(&self, rank: u8) -> &[Neighbour]
        ensures value { result.now ≡ destinations_at self.now rank }
        ensures agree { AgreesAtBothEnds self.now.ranks }
        ensures few { length result.now ≤ most_neighbours }
    {
        match self.ranks.get(usize::from(rank)) {
            None => &[],
            Some(near) => near.destinations(),
        }
    }

    /// Whether it is the same.
    pub fn same(&self, other: &Topology) -> bool
        ensures { result ≡ same_topology self.now other.now }
    {
        (self.weighted == other.weighted) & are_same(&self.ranks, &other.ranks)
    }

    /// A copy, which shares the neighbours.
    pub fn copy(&self) -> Result<Topology, OutOfMemory>
        ensures { IfOk result (λ copied. copied ≡ self.now) }
    {
        Ok(Topology {
            weighted: self.weighted,
            ranks: Arc::try_clone(&self.ranks)?,
        })
    }
}

// Whether the ranks have the same neighbours.
fn are_same(left: &[Neighbours], right: &[Neighbours]) -> bool
    ensures { result ≡ same_nears left.now right.now }
{
    if left.len() != right.len() {
        return false;
    }
    for i in 0..left.len() {
        if !have_same(&left[i], &right[i]) {
            return false;
        }
    }
    true
}

fn have_same(left: &Neighbours, right: &Neighbours) -> bool
    ensures { result ≡ same_near left.now right.now }
{
    (left.sources == right.sources) & (left.destinations == right.destinations)
}
