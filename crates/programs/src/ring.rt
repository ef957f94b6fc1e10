//! A ring: the ranks hand their numbers round, and each sums what it hears until its own is back.
use crate::why::Why;
use mpx_job::RankProgram;
use mpx_post::DraftedNeighbour;
use mpx_program_rank::{Comm, Host, Rank};

pub struct Ring;

impl RankProgram for Ring {
    type Answer = String;

    type Error = Why;

    fn run<H: Host>(&self, rank: &mut Rank<'_, H>) -> Result<String, Why> {
        let ring = ring_of(rank)?;
        let sum = sum_round(rank, &ring)?;
        match (rank.desk.sources(&ring)?, rank.desk.destinations(&ring)?) {
            ([before], [after]) => {
                Ok(format!(in rank.alloc; "{sum}, between {} and {}", before.rank, after.rank)?)
            }
            _ => Err(Why::NoAnswer),
        }
    }
}

// Each rank hears the one before it.
fn ring_of<H: Host>(rank: &mut Rank<'_, H>) -> Result<Comm, Why> {
    let (mine, last) = (i128::from(rank.number()), i128::from(rank.size()) - 1);
    let before = if mine > 0 { mine - 1 } else { last };
    let after = if mine < last { mine + 1 } else { 0 };
    let edge = |rank| DraftedNeighbour { rank, weight: 0 };
    Ok(rank.dist_graph_adjacent(rank.world(), false, &[edge(before)], &[edge(after)])?)
}

// Each round hands on what the round before has given.
fn sum_round<H: Host>(rank: &mut Rank<'_, H>, ring: &Comm) -> Result<u32, Why> {
    let (mut token, mut sum) = (u32::from(rank.number()) + 1, 0u32);
    for _round in 0..rank.size() {
        for heard in rank.neighbor_allgather(ring, 1, &[token])? {
            token = heard;
            sum = sum.saturating_add(heard);
        }
    }
    Ok(sum)
}
