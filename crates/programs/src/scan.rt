//! A scan of matrices by the program's own operation: each rank gets the product of its own matrix after all before it.
use crate::why::Why;
use mpx_job::RankProgram;
use mpx_num::Op;
use mpx_program_rank::{Host, Rank};
use std::alloc::Global;

pub struct Scan;

impl RankProgram for Scan {
    type Answer = String;

    type Error = Why;

    fn run<H: Host>(&self, rank: &mut Rank<'_, H>) -> Result<String, Why> {
        let world = rank.world();
        let product = rank.scan_one(world, Op::Own(0), matrix_of(world.rank()))?;
        told(rank.alloc, product)
    }
}

// The matrix of a rank: 30,000 and its number, and 1, above; 1 and 0 below.
fn matrix_of(rank: u8) -> u64 {
    30_000 + u64::from(rank) + (1 << 16) + (1 << 32)
}

// Both rows of a matrix.
fn told(alloc: Global, matrix: u64) -> Result<String, Why> {
    let (above, below) = (matrix % (1 << 32), matrix >> 32);
    Ok(format!(in alloc;
        "{} {}, {} {}",
        above % 65_536,
        above >> 16,
        below % 65_536,
        below >> 16
    )?)
}
