//! A histogram: rank 0 scatters numbers, each rank counts its part by their upper bits, and rank 0 gets the sums.
use crate::why::Why;
use mpx_job::RankProgram;
use mpx_num::Op;
use mpx_program_rank::{Host, Rank};
use std::alloc::Global;

/// Each rank counts this number of numbers. Of all together one call takes at most 4,096, so the scatter makes more than one.
pub struct Histogram {
    pub each: usize,
}

impl RankProgram for Histogram {
    type Answer = String;

    type Error = Why;

    fn run<H: Host>(&self, rank: &mut Rank<'_, H>) -> Result<String, Why> {
        let world = rank.world();
        let count = if world.rank() == 0 {
            usize::from(world.size())
        } else {
            0
        };
        let all = numbers(rank.alloc, self.each.saturating_mul(count))?;
        let mine = rank.scatter(world, 0, self.each, &all)?;
        let sums = rank.reduce(world, 0, Op::Sum, &counts_of(&mine))?;
        Ok(format!(in rank.alloc; "{sums:?}")?)
    }
}

// So many numbers.
fn numbers(alloc: Global, count: usize) -> Result<Vec<u32>, Why> {
    let (mut numbers, mut number) = (Vec::new(alloc), 0u32);
    for _ in 0..count {
        number = number.wrapping_mul(1_664_525).wrapping_add(1_013_904_223);
        numbers.push(number)?;
    }
    Ok(numbers)
}

// How many of the numbers are in each eighth of their range.
fn counts_of(numbers: &[u32]) -> [u32; 8] {
    let mut counts = [0u32; 8];
    for number in numbers {
        if let Some(count) = counts.get_mut((*number >> 29) as usize) {
            *count = count.saturating_add(1);
        }
    }
    counts
}
