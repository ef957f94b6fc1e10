//! What came of a call, for carriers whose communicators are names and births.
ghost use Rattle.std.specs.Prelude.{◌≡◌, IfOk};
ghost use Rattle.mpx_meaning.specs.Ranks.{bound_by};

use join_core::{Exact, OutOfMemory};
use mpx_birth::Birth;
use mpx_name::Name;
use mpx_value::Outcome;
use std::alloc::Global;

/// What came of a call, and how the communicator came to be that it gave.
#[derive(Drop)]
pub struct Answered {
    pub outcome: Outcome,
    /// How that communicator came to be, where the call gave one.
    pub born: Option<Birth>,
}

impl Answered {
    ghost use Rattle.mpx_rank.specs.Places.{bound_as};

    /// The communicator that the call gave, where it gave one.
    pub fn given(&self, alloc: Global) -> Result<Option<(Name, Birth)>, OutOfMemory>
        ensures { IfOk result (λ given. bound_as given ≡ bound_by self.now.outcome self.now.born) }
    {
        match &self.outcome {
            Outcome::NewComm { name, .. } => match &self.born {
                Some(birth) => Ok(Some((name.copy(alloc)?, birth.copy(alloc)?))),
                None => Ok(None),
            },
            Outcome::Nothing => Ok(None),
            Outcome::Absent => Ok(None),
            Outcome::Items(_) => Ok(None),
            Outcome::Null => Ok(None),
            Outcome::Fault(_) => Ok(None),
        }
    }
}
