//! What a rank was told of its calls.
ghost use Rattle.std.specs.Prelude.{◌≡◌, ◌++◌, ◌∷◌, [], IfNone, IfSome, OnOk, Some, true, false};
ghost use Rattle.mpx_rank.specs.Answered.{answer_of};
ghost use Rattle.mpx_threads.specs.Plans.{planned_results};
ghost use Rattle.mpx_threads.specs.ToldCalls.{is_among};

use join_core::{Exact, OutOfMemory};
use mpx_name::Name;
use mpx_rank::Answered;
use mpx_shared::{PortLock, Ticket};
use std::alloc::Global;
use std::marker::{Model, PhantomData};

/// A call, and what came of it.
#[derive(Drop)]
pub(crate) struct ToldCall {
    pub(crate) name: Name,
    pub(crate) call: u32,
    pub(crate) answered: Answered,
}

/// All that a rank was told of its calls, each as the plan's posts give it.
#[derive(Drop)]
pub(crate) struct Told<L: PortLock> {
    calls: Vec<ToldCall>,
    of: PhantomData<L>,
}

impl<L: PortLock> Model for Told<L> {
    ghost use Rattle.std.specs.Prelude.{List};
    ghost use Rattle.mpx_threads.specs.declared.told.ToldCall.{ToldCall};
    ghost use Rattle.mpx_threads.specs.Plans.{planned_results};
    ghost use Rattle.mpx_threads.specs.ToldCalls.{AreSo};

    ghost Value = { List ToldCall };

    ghost view = { λ t. t.calls.items };

    ghost invariant = { λ t. AreSo (planned_results L.setup L.me) t.calls.items };
}

impl<L: PortLock> Told<L> {
    /// Nothing yet.
    pub(crate) fn new(alloc: Global) -> Told<L>
        ensures { result ≡ [] }
    {
        Told {
            calls: Vec::new(alloc),
            of: PhantomData,
        }
    }

    /// One more: what came of the ticket's call.
    pub(crate) fn add(
        &mut self,
        alloc: Global,
        ticket: &Ticket,
        answered: Answered,
    ) -> Result<(), OutOfMemory>
        requires { planned_results L.setup L.me ticket.now.name ticket.now.call ≡ Some (answer_of answered) }
        ensures { OnOk result (self.new ≡ self.old ++ record { name = ticket.now.name; call = ticket.now.call; answered = answered } ∷ []) }
    {
        let name = ticket.name.copy(alloc)?;
        self.calls.push(ToldCall {
            name,
            call: ticket.call,
            answered,
        })?;
        Ok(())
    }

    /// What was told of a call.
    pub(crate) fn find(&self, name: &Name, call: u32) -> Option<&Answered>
        ensures some { IfSome result (λ answered. planned_results L.setup L.me name.now call ≡ Some (answer_of answered.now)) }
        ensures is_there { IfSome result (λ answered. is_among self.now name.now call ≡ true) }
        ensures none { IfNone result (is_among self.now name.now call ≡ false) }
    {
        for told in &self.calls {
            if told.call == call && told.name.same(name) {
                return Some(&told.answered);
            }
        }
        None
    }
}
