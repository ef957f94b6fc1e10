//! A rank's own value, by which its program calls.
ghost use Rattle.std.specs.Prelude.{◌≡◌};

use mpx_comm::{Comm, Desk, Host};
use std::alloc::Global;

/// A rank of a job: its desk, its allocator, the communicator of all ranks as it has it, and how many turns a call that waits makes at most.
/// Each call is the one of [`Desk`] with its name. It is given a communicator and slices, and answers vectors; a fault is an `Err`. What is asked of
/// a communicator without a post is asked of the `desk`.
///
/// Calls lend an empty list of own operations: a rank's host goes by those of its job, whatever is lent.
#[derive(Drop)]
pub struct Rank<'a, H: Host> {
    pub desk: &'a mut Desk<H>,
    pub alloc: Global,
    pub world: &'a Comm,
    pub turns: u64,
}

impl<'a, H: Host> Rank<'a, H> {
    /// The communicator of all ranks (`MPI_COMM_WORLD`).
    pub fn world(&self) -> &'a Comm
        ensures { result.now ≡ self.now.world.now }
    {
        self.world
    }

    /// Its number in it (`MPI_COMM_RANK`).
    pub fn number(&self) -> u8
        ensures { result ≡ self.now.world.now.rank }
    {
        self.world.rank()
    }

    /// How many ranks there are (`MPI_COMM_SIZE`).
    pub fn size(&self) -> u8
        ensures { result ≡ self.now.world.now.size }
    {
        self.world.size()
    }
}
