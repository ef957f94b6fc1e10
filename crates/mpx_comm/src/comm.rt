//! Communicators, as one of their members has them.
ghost use Rattle.std.specs.Prelude.{◌≡◌, ◌<◌, ◌≤◌, [], IfOk, IsSome, OnErr};
ghost use Rattle.mpx_comm.specs.Comms.{comm_of};

use join_core::{Exact, OutOfMemory};
use mpx_name::Name;
use mpx_node::Finished;
use mpx_value::Outcome;
use std::alloc::Global;

/// A communicator as one of its members has it.
#[derive(Debug, Drop)]
pub struct Comm {
    pub(crate) name: Name,
    size: u8,
    rank: u8,
}

impl Comm {
    /// `MPI_COMM_WORLD` (MPI 4.1 section 7.2) of `size` ranks, 64 at most, at the one with this rank.
    pub fn world(alloc: Global, size: u8, rank: u8) -> Comm
        requires small { size ≤ 64 }
        requires member { rank < size }
        ensures { result ≡ record { name = []; size = size; rank = rank } }
    {
        Comm {
            name: Name::world(alloc),
            size,
            rank,
        }
    }

    /// The new communicator that a call gave the process, where it gave one: not the null communicator, nor a fault. An `Err` is want of
    /// memory for its name, and so only where there is one.
    pub fn of(alloc: Global, finished: &Finished) -> Result<Option<Comm>, OutOfMemory>
        ensures comm { IfOk result (λ comm. comm ≡ comm_of finished.now.outcome) }
        ensures memory { OnErr result (IsSome (comm_of finished.now.outcome)) }
    {
        match &finished.outcome {
            Outcome::NewComm { name, size, rank } => Ok(Some(Comm {
                name: name.copy(alloc)?,
                size: *size,
                rank: *rank,
            })),
            Outcome::Nothing => Ok(None),
            Outcome::Absent => Ok(None),
            Outcome::Items(_) => Ok(None),
            Outcome::Null => Ok(None),
            Outcome::Fault(_) => Ok(None),
        }
    }

    /// The same communicator once more, for the same member.
    pub fn copy(&self, alloc: Global) -> Result<Comm, OutOfMemory>
        ensures { IfOk result (λ comm. comm ≡ self.now) }
    {
        Ok(Comm {
            name: self.name.copy(alloc)?,
            size: self.size,
            rank: self.rank,
        })
    }

    /// The name of its context.
    pub fn name(&self) -> &Name
        ensures { result.now ≡ self.now.name }
    {
        &self.name
    }

    /// How many members it has (`MPI_COMM_SIZE`, MPI 4.1 section 7.4.1).
    pub fn size(&self) -> u8
        ensures { result ≡ self.now.size }
    {
        self.size
    }

    /// The rank of the member who has it (`MPI_COMM_RANK`, MPI 4.1 section 7.4.1).
    pub fn rank(&self) -> u8
        ensures { result ≡ self.now.rank }
    {
        self.rank
    }
}

/// The context of a gathering that was opened: some members of a communicator, under a tag.
#[derive(Debug, Drop)]
pub struct OpenedGathering {
    pub(crate) name: Name,
}
