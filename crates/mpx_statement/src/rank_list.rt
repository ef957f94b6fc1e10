//! Lists of ranks as a script has them.
ghost use Rattle.std.specs.Prelude.{◌≡◌, IfOk};

use join_core::OutOfMemory;
use std::alloc::Global;
use std::marker::Model;

/// Ranks of a communicator, which may be out of its range; None stands for `MPI_PROC_NULL`. Contracts see their list.
#[derive(Debug, Drop)]
pub struct RankList {
    ranks: Vec<Option<i128>>,
}

impl Model for RankList {
    ghost use Rattle.std.specs.Prelude.{List, Option, ℤ};

    ghost Value = { List (Option ℤ) };

    ghost view = { λ r. r.ranks.items };
}

impl RankList {
    /// The list of these ranks.
    pub fn new(ranks: Vec<Option<i128>>) -> RankList
        ensures { result ≡ ranks.items }
    {
        RankList { ranks }
    }

    /// The ranks.
    pub fn as_slice(&self) -> &[Option<i128>]
        ensures { result.now ≡ self.now }
    {
        self.ranks.as_slice()
    }

    /// A copy, with a list of its own.
    pub fn copy(&self, alloc: Global) -> Result<RankList, OutOfMemory>
        ensures { IfOk result (λ copied. copied ≡ self.now) }
    {
        let ranks = Vec::from_slice(alloc, &self.ranks)?;
        Ok(RankList { ranks })
    }
}
