//! A call that is done, as its process keeps it.
ghost use Rattle.std.specs.Prelude.{◌≡◌, IfOk};

use join_core::{Exact, OutOfMemory};
use mpx_post::Post;
use mpx_value::Outcome;
use std::alloc::Global;

/// A call that is done.
#[derive(Debug, Drop)]
pub struct Finished {
    /// What the process itself posted.
    pub mine: Post,
    /// What the call gave it.
    pub outcome: Outcome,
}

impl Finished {
    ghost use Rattle.mpx_node.specs.Nodes.{is_fine_free, is_nothing};

    /// Whether it is the result of a free whose row is fine: another row of a free gives a fault.
    pub fn is_fine_free(&self) -> bool
        ensures { result ≡ is_fine_free self.now }
    {
        self.mine.is_free() && self.gave_nothing()
    }

    /// A copy, which shares the items.
    pub fn copy(&self, alloc: Global) -> Result<Finished, OutOfMemory>
        ensures { IfOk result (λ copied. copied ≡ self.now) }
    {
        Ok(Finished {
            mine: self.mine.copy(alloc)?,
            outcome: self.outcome.copy(alloc)?,
        })
    }

    // Whether the call gave nothing.
    fn gave_nothing(&self) -> bool
        ensures { result ≡ is_nothing self.now.outcome }
    {
        matches!(self.outcome, Outcome::Nothing)
    }
}
