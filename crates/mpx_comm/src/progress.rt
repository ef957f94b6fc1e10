//! Turns of the host alone, and waits for any of the open requests.
ghost use Rattle.std.specs.Prelude.{◌≡◌};
ghost use Rattle.mpx_request.specs.Any.{TestsSome, WaitsAny, WaitsSome};
ghost use Rattle.mpx_request.specs.Harvested.{Harvested};
ghost use Rattle.mpx_request.specs.Later.{Later};
ghost use Rattle.mpx_request.specs.Turns.{MakesTurns};

use crate::desk::Desk;
use join_core::OutOfMemory;
use mpx_node::Finished;
use mpx_num::{Listing, Ops};
use mpx_request::{
    Host, Request, TurnError, WaitError, await_any, await_some, close_done, look_some, make_turns,
};
use std::alloc::Global;

/// Progress, which no test makes.
impl<H: Host> Desk<H> {
    /// Makes just `turns` turns of the host, which tell others and hear of them: between tests, or where the rank waits for nothing itself.
    /// It posts nothing, harvests nothing and closes no request. An `Err` says why the host made no further turn.
    pub fn turn(&mut self, alloc: Global, turns: u64) -> Result<(), TurnError>
        ensures turns { MakesTurns H.turned H.turn_refused turns result self.old.host self.new.host }
        ensures later { Later (H.node self.old.host) (H.node self.new.host) }
        ensures opened { (H.node self.new.host).opened ≡ (H.node self.old.host).opened }
        ensures requests { self.new.requests.keys ≡ self.old.requests.keys }
    {
        make_turns(alloc, &mut self.host, turns)
    }

    /// Waits for the first open request in order of posting that is done (`MPI_WAITANY`, MPI 4.1 section 3.7.5), while the host makes at
    /// most `turns` turns: it looks as [`Desk::testany`] does, once before the first turn and once after each, and makes no turn after the
    /// look that finds one. That is closed, and given with its result. `None` where no request is open (`MPI_UNDEFINED`): nothing is done
    /// then. An `Err` closes none, as that of [`Desk::wait`].
    pub fn waitany(
        &mut self,
        alloc: Global,
        turns: u64,
        ops: &Ops,
    ) -> Result<Option<(Request, Finished)>, WaitError<()>>
        ensures waits { WaitsAny (H.goes_by self.old.host (⟦<Ops as Listing>⟧.operations ops.now)) H.node H.turned H.turn_refused turns result self.old.host self.new.host self.old.requests.keys self.new.requests.keys }
        ensures later { Later (H.node self.old.host) (H.node self.new.host) }
    {
        if self.requests.is_empty() {
            return Ok(None);
        }
        match await_any(alloc, &mut self.host, self.requests.as_slice(), turns, ops) {
            Err(TurnError::OutOfMemory) => Err(WaitError::OutOfMemory(())),
            Err(TurnError::GaveUp(rank)) => Err(WaitError::GaveUp((), rank)),
            Ok(None) => Err(WaitError::StillWaiting(())),
            Ok(Some((place, finished))) => {
                let request = self.requests.shift_remove_index(place).unwrap();
                Ok(Some((request, finished)))
            }
        }
    }

    /// All open requests that are done, each with its result, in order of posting (`MPI_TESTSOME`, MPI 4.1 section 3.7.5). They are closed. It
    /// makes no turn. An `Err`, for want of memory, closes none.
    pub fn testsome(
        &mut self,
        alloc: Global,
        ops: &Ops,
    ) -> Result<Vec<(Request, Finished)>, OutOfMemory>
        ensures tests { TestsSome (H.goes_by self.old.host (⟦<Ops as Listing>⟧.operations ops.now)) result (H.node self.old.host) (H.node self.new.host) self.old.requests.keys self.new.requests.keys }
        ensures later { Later (H.node self.old.host) (H.node self.new.host) }
        ensures harvested { Harvested (H.goes_by self.old.host (⟦<Ops as Listing>⟧.operations ops.now)) (H.node self.old.host) (H.node self.new.host) }
        ensures no_turn { H.turned self.old.host 0 self.new.host }
    {
        let done = look_some(alloc, &mut self.host, self.requests.as_slice(), ops)?;
        close_done(&mut self.requests, &done);
        Ok(done)
    }

    /// Waits for the open requests (`MPI_WAITSOME`, MPI 4.1 section 3.7.5) as [`Desk::waitany`] does, but gives and closes all that are done at
    /// the look that finds one, as [`Desk::testsome`]. None are given where no request is open.
    pub fn waitsome(
        &mut self,
        alloc: Global,
        turns: u64,
        ops: &Ops,
    ) -> Result<Vec<(Request, Finished)>, WaitError<()>>
        ensures waits { WaitsSome (H.goes_by self.old.host (⟦<Ops as Listing>⟧.operations ops.now)) H.node H.turned H.turn_refused turns result self.old.host self.new.host self.old.requests.keys self.new.requests.keys }
        ensures later { Later (H.node self.old.host) (H.node self.new.host) }
    {
        if self.requests.is_empty() {
            return Ok(Vec::new(alloc));
        }
        match await_some(alloc, &mut self.host, self.requests.as_slice(), turns, ops) {
            Err(TurnError::OutOfMemory) => Err(WaitError::OutOfMemory(())),
            Err(TurnError::GaveUp(rank)) => Err(WaitError::GaveUp((), rank)),
            Ok(None) => Err(WaitError::StillWaiting(())),
            Ok(Some(done)) => {
                close_done(&mut self.requests, &done);
                Ok(done)
            }
        }
    }
}
