//! What every rank of a job runs.
ghost use Rattle.std.specs.Prelude.{IsTrue, List, ℕ, ⊤};
ghost use Rattle.mpx_name.specs.Name.{Name};
ghost use Rattle.mpx_num.specs.declared.own.Operation.{Operation};
ghost use Rattle.mpx_comm.specs.declared.comm.Comm.{Comm as CommView};
ghost use Rattle.mpx_node.specs.declared.finished.Finished.{Finished};
ghost use Rattle.mpx_node.specs.Nodes.{NodeView};

use mpx_comm::{Comm, Desk, Host};
use mpx_num::{Listing, Ops};
use std::alloc::Global;

/// What every rank of a job runs. It is written once, over any host.
pub trait Program {
    /// What a rank answers.
    type Answer;

    /// What it may answer, by these operations of the job's own, where it has this world, its node is so before and so after, and it has had
    /// these results of calls, also those that it let go since. Who leaves it out promises nothing.
    ghost gives: { Self → List Operation → CommView → NodeView → NodeView → (Name → ℕ → Finished → Type 0) → Self.Answer → Type 0 } = { λ p operations world before after had answer. ⊤ };

    /// Of which answers [`Program::gives_up`] may say so. Who leaves it out promises nothing.
    ghost has_given_up: { Self → Self.Answer → Type 0 } = { λ p answer. ⊤ };

    /// The part of one rank. `world` is the communicator of all ranks, as this one has it; `ops` are the job's own operations.
    fn run<H: Host>(
        &self,
        alloc: Global,
        desk: &mut Desk<H>,
        world: &Comm,
        ops: &Ops,
    ) -> Self::Answer
        ensures { gives self.now (H.goes_by desk.old.host (⟦<Ops as Listing>⟧.operations ops.now)) world.now (H.node desk.old.host) (H.node desk.new.host) (H.has_had desk.new.host) result };

    /// Whether a rank that answers this has given up, so that no other is to wait for it: each call that waits and isn't done answers `GaveUp`,
    /// with the number of a rank that did. Who leaves it out lets the others wait for as many turns as they are given.
    fn gives_up(&self, answer: &Self::Answer) -> bool
        ensures { IsTrue result → has_given_up self.now answer.now }
    {
        let _answer = answer;
        false
    }
}
