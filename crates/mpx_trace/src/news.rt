//! Which lines of a rank are new.

use mpx_meaning::Line;

/// How many lines of each rank were told.
#[derive(Drop)]
pub(crate) struct News {
    told: [usize; 64],
}

impl News {
    /// None yet.
    pub(crate) fn new() -> News {
        News { told: [0; 64] }
    }

    /// Those of a rank's lines that were not told; from now on they are.
    pub(crate) fn of<'l>(&mut self, rank: u8, lines: &'l [Line]) -> &'l [Line] {
        match self.told.get_mut(usize::from(rank)) {
            Some(told) => {
                let new = lines.get(*told..).unwrap_or(&[]);
                *told = lines.len();
                new
            }
            None => &[],
        }
    }
}
