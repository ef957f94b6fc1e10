//! Lists of ranks, none twice.
ghost use Rattle.std.specs.Prelude.{◌≡◌, IfOk};
ghost use Rattle.mpx_post.specs.Ranks.{AreRanks};

use join_core::OutOfMemory;
use std::alloc::Global;
use std::marker::Model;
use std::sync::Arc;

/// Ranks of members, each below 64 and none twice, in an order of their own. Copies share them.
#[derive(Debug, Drop)]
pub struct Ranks {
    list: Arc<Vec<u8>>,
}

impl Model for Ranks {
    ghost use Rattle.std.specs.Prelude.{List, ℕ};
    ghost use Rattle.std.specs.Arc.{arc_value};
    ghost use Rattle.mpx_post.specs.Ranks.{AreRanks};

    ghost Value = { List ℕ };

    ghost view = { λ r. (arc_value r.list).items };

    ghost invariant = { λ r. AreRanks (arc_value r.list).items };
}

impl Ranks {
    /// These ranks.
    pub fn new(alloc: Global, list: Vec<u8>) -> Result<Ranks, OutOfMemory>
        requires { AreRanks list.items }
        ensures { IfOk result (λ ranks. ranks ≡ list.items) }
    {
        match Arc::new(alloc, list) {
            Ok(list) => Ok(Ranks { list }),
            Err(_) => Err(OutOfMemory),
        }
    }

    /// The ranks.
    pub fn as_slice(&self) -> &[u8]
        ensures value { result.now ≡ self.now }
        ensures ranks { AreRanks self.now }
    {
        self.list.as_slice()
    }

    // A copy, which shares the list of ranks.
    pub(crate) fn copy(&self) -> Result<Ranks, OutOfMemory>
        ensures { IfOk result (λ copied. copied ≡ self.now) }
    {
        Ok(Ranks {
            list: Arc::try_clone(&self.list)?,
        })
    }
}
