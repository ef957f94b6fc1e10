//! Whether both ends of each edge tell it equally often.
ghost use Rattle.std.specs.Prelude.{◌≡◌, ◌<◌, ◌≤◌, length};
ghost use Rattle.std.specs.List.{list_all};
ghost use Rattle.mpx_birth.specs.Orders.{upto};
ghost use Rattle.mpx_birth.specs.Tallies.{tallies_of, tally_of};
ghost use Rattle.mpx_birth.specs.Topologies.{are_paired, tell_alike};

use crate::edges::Neighbour;
use crate::topology::Neighbours;

// How often each rank stands among some neighbours.
#[derive(Clone, Copy)]
struct Tally {
    counts: [usize; 64],
}

// How often each rank stands among these neighbours.
fn tallied(neighbours: &[Neighbour]) -> Tally
    ensures { result ≡ tally_of neighbours.now }
{
    let mut counts = [0; 64];
    for neighbour in neighbours {
        let rank = usize::from(neighbour.rank);
        if rank < 64 {
            counts[rank] += 1;
        }
    }
    Tally { counts }
}

// Whether of each two ranks both tell the same number of edges between them. It takes no memory: the tallies lie on the stack.
pub(crate) fn are_paired(ranks: &[Neighbours]) -> bool
    requires { length ranks.now ≤ 64 }
    ensures { result ≡ are_paired ranks.now }
{
    let mut told = [Tally { counts: [0; 64] }; 64];
    for i in 0..ranks.len() {
        told[i] = tallied(ranks[i].destinations());
    }
    let told = &told[..ranks.len()];
    for rank in 0..ranks.len() {
        if !are_awaited(ranks, told, rank) {
            return false;
        }
    }
    true
}

// Whether the rank tells of as many edges from each rank as that one does.
fn are_awaited(ranks: &[Neighbours], told: &[Tally], rank: usize) -> bool
    requires small { length ranks.now ≤ 64 }
    requires told { told.now ≡ tallies_of ranks.now }
    requires rank { rank < length ranks.now }
    ensures { result ≡ list_all (λ i. tell_alike ranks.now i rank) (upto (length ranks.now)) }
{
    let awaited = tallied(ranks[rank].sources());
    for i in 0..ranks.len() {
        if told[i].counts[rank] != awaited.counts[i] {
            return false;
        }
    }
    true
}
