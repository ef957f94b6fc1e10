//! Whether lists of neighbours are within the limits of a topology.
ghost use Rattle.std.specs.Prelude.{◌≡◌, length, nat_le};
ghost use Rattle.std.specs.List.{list_all};
ghost use Rattle.mpx_birth.specs.Topologies.{destinations_in_all, is_near, fits_neighbour, is_topology, fits_weight, most_neighbours, sources_in_all};

use crate::edges::Neighbour;
use crate::pairs::are_paired;
use crate::topology::Neighbours;

// So many sources all ranks have together at most, and as many destinations.
const MOST_NEIGHBOURS: usize = 32_768;

// Weights are below this one.
const WEIGHTS_END: u32 = 2_147_483_648;

// Whether these are the neighbours of each rank of a topology.
#[tactic(auto, unfolding(crate::specs::Topologies::is_topology))]
pub(crate) fn is_topology(weighted: bool, ranks: &[Neighbours]) -> bool
    ensures { result ≡ is_topology (record { weighted = weighted; ranks = ranks.now }) }
{
    if 64 < ranks.len() || !are_near(weighted, ranks) {
        return false;
    }
    are_few_sources(ranks) && are_few_destinations(ranks) && are_paired(ranks)
}

// Whether the ranks have neighbours among them.
fn are_near(weighted: bool, ranks: &[Neighbours]) -> bool
    ensures { result ≡ list_all (is_near (length ranks.now) weighted) ranks.now }
{
    for near in ranks {
        if !is_near(ranks.len(), weighted, near) {
            return false;
        }
    }
    true
}

fn is_near(size: usize, weighted: bool, near: &Neighbours) -> bool
    ensures { result ≡ is_near size weighted near.now }
{
    are_neighbours(size, weighted, near.sources())
        & are_neighbours(size, weighted, near.destinations())
}

fn are_neighbours(size: usize, weighted: bool, neighbours: &[Neighbour]) -> bool
    ensures { result ≡ list_all (fits_neighbour size weighted) neighbours.now }
{
    for neighbour in neighbours {
        if !fits_neighbour(size, weighted, *neighbour) {
            return false;
        }
    }
    true
}

fn fits_neighbour(size: usize, weighted: bool, neighbour: Neighbour) -> bool
    ensures { result ≡ fits_neighbour size weighted neighbour }
{
    (usize::from(neighbour.rank) < size) & fits_weight(weighted, neighbour.weight)
}

fn fits_weight(weighted: bool, weight: u32) -> bool
    ensures { result ≡ fits_weight weighted weight }
{
    if weighted {
        weight < WEIGHTS_END
    } else {
        weight == 0
    }
}

fn are_few_sources(ranks: &[Neighbours]) -> bool
    ensures { result ≡ nat_le (sources_in_all ranks.now) most_neighbours }
{
    let mut room = MOST_NEIGHBOURS;
    for near in ranks {
        let count = near.sources().len();
        if room < count {
            return false;
        }
        room -= count;
    }
    true
}

fn are_few_destinations(ranks: &[Neighbours]) -> bool
    ensures { result ≡ nat_le (destinations_in_all ranks.now) most_neighbours }
{
    let mut room = MOST_NEIGHBOURS;
    for near in ranks {
        let count = near.destinations().len();
        if room < count {
            return false;
        }
        room -= count;
    }
    true
}
