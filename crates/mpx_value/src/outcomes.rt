//! What a call gives a member: nothing, items, or a communicator.
ghost use Rattle.std.specs.Prelude.{◌≡◌, IfOk};

use join_core::{Exact, OutOfMemory};
use mpx_match::Fault;
use mpx_name::Name;
use mpx_num::Items;
use std::alloc::Global;

/// What a call gives a member.
#[derive(Debug, Drop)]
pub enum Outcome {
    /// Nothing.
    Nothing,
    /// What `MPI_EXSCAN` gives rank 0: there is nothing below it (MPI 4.1 section 6.11.2).
    Absent,
    /// The items that the member gets.
    Items(Items),
    /// A new communicator (MPI 4.1 sections 7.4.2 and 8.5.4): its name, how many members it has, and the member's rank in it.
    NewComm { name: Name, size: u8, rank: u8 },
    /// The null communicator: the member is in none that the call made.
    Null,
    /// The fault of the call's posts, which every member is told.
    Fault(Fault),
}

impl Outcome {
    /// A copy, which shares the items.
    pub fn copy(&self, alloc: Global) -> Result<Outcome, OutOfMemory>
        ensures { IfOk result (λ copied. copied ≡ self.now) }
    {
        match self {
            Outcome::Nothing => Ok(Outcome::Nothing),
            Outcome::Absent => Ok(Outcome::Absent),
            Outcome::Items(items) => Ok(Outcome::Items(items.copy()?)),
            Outcome::NewComm { name, size, rank } => Ok(Outcome::NewComm {
                name: name.copy(alloc)?,
                size: *size,
                rank: *rank,
            }),
            Outcome::Null => Ok(Outcome::Null),
            Outcome::Fault(fault) => Ok(Outcome::Fault(*fault)),
        }
    }
}
