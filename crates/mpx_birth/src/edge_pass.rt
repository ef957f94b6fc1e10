//! Which places of two neighbour lists are the two ends of one edge.
ghost use Rattle.std.specs.Prelude.{◌≡◌, ◌<◌, ◌≤◌, ◌+◌, length, drop, replicate, slice_index, slice_set};
ghost use Rattle.mpx_birth.specs.Ends.{place_of};

use crate::edges::Neighbour;
use std::marker::Model;

/// How far the neighbours of each rank are met, in one pass over a rank's own neighbours (MPI 4.1 section 8.6). It takes no
/// memory.
#[derive(Debug, Drop)]
pub struct EdgePass {
    next: [usize; 64],
}

impl Model for EdgePass {
    ghost use Rattle.std.specs.Prelude.{List, ℕ};

    ghost Value = { List ℕ };

    ghost view = { λ p. p.next };
}

impl EdgePass {
    /// None is met.
    pub fn new() -> EdgePass
        ensures { result ≡ replicate 64 0 }
    {
        EdgePass { next: [0; 64] }
    }

    /// The first place among the other's neighbours that isn't passed.
    pub fn next(&self, other: u8) -> usize
        requires { other < 64 }
        ensures { result ≡ slice_index self.now other }
    {
        self.next[usize::from(other)]
    }

    /// The next place at which this rank stands among the other's neighbours, which is passed then; their number where it stands
    /// at no more.
    pub fn meet(&mut self, me: u8, other: u8, theirs: &[Neighbour]) -> usize
        requires rank { other < 64 }
        requires within { slice_index self.old other ≤ length theirs.now }
        ensures place { result ≡ slice_index self.old other + place_of me 0 (drop (slice_index self.old other) theirs.now) }
        ensures after { self.new ≡ slice_set self.old other (result + 1) }
    {
        let next = &mut self.next[usize::from(other)];
        let place = place_from(theirs, *next, me);
        *next = place + 1;
        place
    }
}

// The first place from this one on at which the rank stands; the length where it stands at none.
fn place_from(neighbours: &[Neighbour], from: usize, rank: u8) -> usize
    requires { from ≤ length neighbours.now }
    ensures value { result ≡ from + place_of rank 0 (drop from neighbours.now) }
    ensures within { result ≤ length neighbours.now }
{
    for place in from..neighbours.len() {
        if neighbours[place].rank == rank {
            return place;
        }
    }
    neighbours.len()
}
