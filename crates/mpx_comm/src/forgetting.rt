//! Results that a desk lets go.
ghost use Rattle.std.specs.Prelude.{◌≡◌};
ghost use Rattle.mpx_comm.specs.Forgetting.{AreUntouched, HostForgets, IsLeastCall, WaitsAndForgets};

use crate::comm::Comm;
use crate::desk::Desk;
use mpx_name::Name;
use mpx_node::Finished;
use mpx_num::Ops;
use mpx_request::{Host, Request, TurnError, WaitError, await_one, was_let_go};
use std::alloc::Global;

/// Letting results go.
impl<H: Host> Desk<H> {
    /// Lets the results on the communicator go that no open request is for: those of calls below the least open one there, or of all calls
    /// where none is open. The newest stays in both cases. Their memory is free for what follows; the open requests and all else stay.
    /// It makes no turn and takes no memory. Whoever hands in a request later whose result was let go is told so: [`Tested::LetGo`],
    /// [`WaitError::LetGo`].
    ///
    /// [`Tested::LetGo`]: crate::Tested::LetGo
    pub fn forget(&mut self, comm: &Comm)
        ensures forgets { HostForgets H.node H.turned comm.now.name self.old.requests.keys self.old.host self.new.host }
        ensures open { AreUntouched (H.node self.old.host) (H.node self.new.host) self.old.requests.keys }
        ensures requests { self.new.requests.keys ≡ self.old.requests.keys }
    {
        self.forget_on(&comm.name)
    }

    /// Waits as [`Desk::wait`] does, and where that ends with the result, hands it over and lets go what [`Desk::forget`] does on its
    /// communicator. So a loop of calls keeps one result of them. An `Err` lets nothing go.
    pub fn wait_and_forget(
        &mut self,
        alloc: Global,
        request: Request,
        turns: u64,
        ops: &Ops,
    ) -> Result<Finished, WaitError<Request>>
        ensures waits { WaitsAndForgets H.node H.turned H.turn_refused request turns result self.old.host self.new.host self.old.requests.keys self.new.requests.keys }
    {
        if was_let_go(&self.host, &request) {
            return Err(WaitError::LetGo(request));
        }
        match await_one(alloc, &mut self.host, &request, turns, ops) {
            Err(TurnError::OutOfMemory) => Err(WaitError::OutOfMemory(request)),
            Err(TurnError::GaveUp(rank)) => Err(WaitError::GaveUp(request, rank)),
            Ok(None) => Err(WaitError::StillWaiting(request)),
            Ok(Some(finished)) => {
                self.requests.shift_remove(&request);
                self.forget_on(request.name());
                drop(request);
                Ok(finished)
            }
        }
    }

    // Lets go on the context what no open request is for.
    fn forget_on(&mut self, name: &Name)
        ensures forgets { HostForgets H.node H.turned name.now self.old.requests.keys self.old.host self.new.host }
        ensures open { AreUntouched (H.node self.old.host) (H.node self.new.host) self.old.requests.keys }
        ensures requests { self.new.requests.keys ≡ self.old.requests.keys }
    {
        let below = least_open(self.host.front(name), name, self.requests.as_slice());
        self.host.forget(name, below);
    }
}

// The least of this number and of the calls of the context that the requests are for.
fn least_open(most: u32, name: &Name, requests: &[Request]) -> u32
    ensures { IsLeastCall most name.now requests.now result }
{
    let mut least = most;
    for request in requests {
        let at = request.name();
        let call = request.call();
        if *at == *name && call < least {
            least = call;
        }
    }
    least
}
