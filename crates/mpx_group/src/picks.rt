//! Ranks that were asked for, each once.
ghost use Rattle.std.specs.Prelude.{◌≡◌, ◌≤◌, ◌<◌, ℕ, Bool, false, true, List, [], All, unsigned_abs};
ghost use Rattle.std.specs.Bool.{OnTrue};
ghost use Rattle.std.specs.List.{list_all};
ghost use Rattle.mpx_group.specs.Group.{has_twice};
ghost use Rattle.mpx_group.specs.Triplet.{is_bad, triplet_ranks};
ghost use Rattle.mpx_group.specs.Choice.{is_rank, places};
ghost use Rattle.mpx_group.specs.Picks.{with_rank, with_ranks};

use crate::Triplet;
use arrayvec::ArrayVec;
use std::marker::Model;

/// Ranks that were asked for, each once, and whether one was asked for twice. It takes no memory.
#[derive(Drop)]
pub struct Picks {
    ranks: ArrayVec<u8, 64>,
    twice: bool,
}

impl Model for Picks {
    ghost Value = { List ℕ × Bool };

    ghost view = { λ p. (p.ranks.items, p.twice) };

    ghost invariant = { λ p. (has_twice p.ranks.items ≡ false) × All (λ r. r < 64) p.ranks.items };
}

impl Picks {
    pub fn new() -> Self
        ensures { result ≡ ([], false) }
    {
        Picks {
            ranks: ArrayVec::new(),
            twice: false,
        }
    }

    pub fn ranks(&self) -> &[u8]
        ensures ranks { result.now ≡ self.now.0 }
        ensures once { has_twice result.now ≡ false }
    {
        self.ranks.as_slice()
    }

    pub fn has_twice(&self) -> bool
        ensures { result ≡ self.now.1 }
    {
        self.twice
    }

    /// Asks for a rank; answers whether it is one in a group of this size.
    pub fn pick(&mut self, size: u8, rank: i128) -> bool
        requires { size ≤ 64 }
        ensures valid { result ≡ is_rank size rank }
        ensures picked { OnTrue result (self.new ≡ with_rank self.old (unsigned_abs rank)) }
    {
        if rank < 0 || i128::from(size) <= rank {
            return false;
        }
        let place = rank as u8;
        if self.ranks.as_slice().contains(&place) {
            self.twice = true;
        } else {
            self.ranks.push(place);
        }
        true
    }

    /// Asks for each rank of a triplet in turn; answers whether all are ranks in a group of this size.
    pub fn pick_triplet(&mut self, size: u8, triplet: &Triplet) -> bool
        requires small { size ≤ 64 }
        requires good { is_bad triplet.now ≡ false }
        ensures valid { result ≡ list_all (is_rank size) (triplet_ranks triplet.now) }
        ensures picked { OnTrue result (self.new ≡ with_ranks self.old (places (triplet_ranks triplet.now))) }
    {
        let mut rank = triplet.first;
        'ranks: loop {
            if !self.pick(size, rank) {
                return false;
            }
            match triplet.after(rank) {
                Some(next) => rank = next,
                None => return true,
            }
        }
    }
}
