//! A task: work that a thread does once, and what is known of what it gives.
ghost use Rattle.std.specs.Prelude.{List};
ghost use Rattle.mpx_num.specs.declared.own.Operation.{Operation};

use mpx_num::Listing;
use std::snapshot::Snapshot;
use std::thread::Promise;

/// Work that is done once, where such a list of the job's own operations is lent.
pub trait Task<L: Listing> {
    type Output;

    /// Whether it can be done where these are the job's own operations.
    ghost can_run: { Self → List Operation → Type 0 };

    /// What it may give.
    ghost gives: { Self → Self.Output → Type 0 };

    /// Does it.
    fn run(self, ops: &L) -> Self::Output
        requires { can_run self (L.operations ops.now) }
        ensures { gives self result };
}

/// That a thread gives what its task does with the list that it is lent.
#[derive(Drop)]
pub struct TaskPromise<L, T> {
    pub task: Snapshot<T>,
    pub ops: Snapshot<L>,
}

impl<L: Listing, A, T: Task<L, Output = A>> Promise<A> for TaskPromise<L, T> {
    ghost kept_by = { λ p r. T.gives p.task.value r };
}

/// A call of a function with a job.
#[derive(Drop)]
pub struct Calling<'a, F, J> {
    pub f: &'a F,
    pub job: J,
}

impl<'a, L: Listing, J, X, F: Fn(J) -> X> Task<L> for Calling<'a, F, J> {
    type Output = X;

    ghost can_run = { λ t operations. F.pre t.f.now t.job };

    ghost gives = { λ t r. F.post t.f.now t.job r };

    fn run(self, _ops: &L) -> X {
        let Calling { f, job } = self;
        f(job)
    }
}
