//! How far the blocks for each neighbour are read.
ghost use Rattle.std.specs.Prelude.{◌≡◌, ◌<◌, ◌≤◌, ◌+◌, ◌*◌, Some, length, replicate, take, true};
ghost use Rattle.std.specs.List.{All, sum};
ghost use Rattle.mpx_birth.specs.Topologies.{most_neighbours, sources_at};
ghost use Rattle.mpx_post.specs.Agreement.{IsFineWith, count_at, first_of};
ghost use Rattle.mpx_post.specs.Posts.{most_counts, most_items};
ghost use Rattle.mpx_neigh.specs.Cursors.{AreTaken, IsMet, sends_blocks};
ghost use Rattle.mpx_neigh.specs.Neighbourhoods.{source_at};

use mpx_birth::{EdgePass, Topology};
use mpx_kind::{Kind, Neighbourhood};
use mpx_post::{Block, Row};
use std::marker::Model;

// How far the blocks of each sender are taken, in one pass over a rank's sources: which place is next, and how many items the
// blocks before it have. It takes no memory.
#[derive(Drop)]
pub(crate) struct Cursors {
    pass: EdgePass,
    before: [usize; 64],
}

impl Model for Cursors {
    ghost use Rattle.mpx_neigh.specs.Cursors.{CursorsView};

    ghost Value = { CursorsView };

    ghost view = { λ c. record { next = c.pass; before = c.before } };
}

impl Cursors {
    // None is taken.
    pub(crate) fn new() -> Cursors
        ensures { result ≡ record { next = replicate 64 0; before = replicate 64 0 } }
    {
        Cursors {
            pass: EdgePass::new(),
            before: [0; 64],
        }
    }

    // Takes the block for the rank from the sender that stands at this place among its sources: where it stands in what the
    // sender sends.
    pub(crate) fn take(
        &mut self,
        exchange: Neighbourhood,
        topology: &Topology,
        row: &Row<'_>,
        rank: u8,
        place: usize,
        sender: u8,
    ) -> Block
        requires fine { IsFineWith (Some topology.now) row.now }
        requires size { length row.now ≡ length topology.now.ranks }
        requires kind { (first_of row.now).kind ≡ Kind.Neighbourhood exchange }
        requires blocks { sends_blocks exchange ≡ true }
        requires place { place < length (sources_at topology.now rank) }
        requires sender { sender ≡ source_at topology.now rank place }
        requires rank { sender < length row.now }
        requires few { length row.now ≤ 64 }
        requires taken { AreTaken topology.now row.now rank place self.old }
        ensures block { IsMet topology.now row.now rank place result }
        ensures taken { AreTaken topology.now row.now rank (place + 1) self.new }
    {
        let index = usize::from(sender);
        let next = self.pass.next(sender);
        let sent = self.pass.meet(rank, sender, topology.destinations(sender));
        let counts = row.post(index).scounts().as_slice();
        let block = match exchange {
            Neighbourhood::Alltoallv => counted_block(counts, next, self.before[index], sent),
            _ => equal_block(counts, sent),
        };
        self.before[index] = block.first + block.count;
        block
    }
}

// The block at this place where each has a count of its own, and those before the next place have so many items.
fn counted_block(counts: &[u16], next: usize, before: usize, place: usize) -> Block
    requires next { next ≤ place }
    requires place { place < length counts.now }
    requires before { before ≡ sum (take next counts.now) }
    requires few { sum counts.now ≤ most_counts * most_items }
    ensures value { result ≡ record { first = sum (take place counts.now); count = count_at counts.now place } }
    ensures small { result.first + result.count ≤ most_counts * most_items }
{
    let mut first = before;
    for earlier in next..place {
        first += usize::from(counts[earlier]);
    }
    Block {
        first,
        count: usize::from(counts[place]),
    }
}

// The block at this place where all have one count.
fn equal_block(counts: &[u16], place: usize) -> Block
    requires one { length counts.now ≡ 1 }
    requires small { All (λ count. count ≤ most_items) counts.now }
    requires place { place ≤ most_neighbours }
    ensures value { result ≡ record { first = place * count_at counts.now 0; count = count_at counts.now 0 } }
    ensures small { result.first + result.count ≤ most_counts * most_items }
{
    let count = usize::from(counts[0]);
    Block {
        first: place * count,
        count,
    }
}
