//! The user's calls over a host.
ghost use Rattle.std.specs.Prelude.{◌≡◌, ◌≤◌, [], ℕ, Result, OnOk, IfOk, IfErr};
ghost use Rattle.indexmap.specs.IndexSet.{spare};
ghost use Rattle.mpx_node.specs.Nodes.{Opens, gathers_on, with_post};
ghost use Rattle.mpx_post.specs.declared.draft.PostError.{PostError as PostErrorView};
ghost use Rattle.mpx_post.specs.Drafts.{given_by, refusal_of};
ghost use Rattle.mpx_post.specs.Posts.{Given};
ghost use Rattle.mpx_comm.specs.Comms.{gathering_in};
ghost use Rattle.mpx_request.specs.Harvested.{Harvested};
ghost use Rattle.mpx_request.specs.Later.{Later, IsAtHand};
ghost use Rattle.mpx_request.specs.Requests.{HasStatus, Tests, TestsAll, TestsAny, Waits, WaitsAll};
ghost use Rattle.mpx_comm.specs.Calls.{IsRefusal, ArePosted};

use crate::answers::CallError;
use crate::comm::{Comm, OpenedGathering};
use indexmap::IndexSet;
use join_core::{Exact, OutOfMemory};
use mpx_name::Name;
use mpx_node::Finished;
use mpx_num::{Listing, Numbers, Ops};
use mpx_post::{Draft, PostError};
use mpx_request::{
    Host, Request, Tested, TurnError, WaitError, await_all, await_one, close_each, look, look_any,
    one_was_let_go, test_all, was_let_go,
};
use std::alloc::{AllocFailed, Global};

/// The user's calls over a host, and the requests that are open, in order of posting.
///
/// A call by its name in MPI posts what the member gives, as the member's next call on the communicator. `items` are numbers of the
/// type `ty`, of `2int` two for each item, and `ops` are the job's own operations. What members get stands in rank order. The ranks,
/// tags and counts that a member gives are whole numbers, an `i128` each, or [`Numbers`]: one out of range is a refusal. A rank or a size
/// that it is told is in range, and a `u8`.
///
/// A call that blocks then waits for its result: it looks once before the first turn of the host and once after each, and `turns`
/// is how many turns the host makes at most. It answers the result, which is a fault where the members' posts don't fit together,
/// or a [`CallError`]. One with `i` before its name (MPI 4.1 sections 6.12 and 8.7) makes no turn, and answers its request, to be
/// waited for or tested, or a [`PostError`]. The two don't match: where some members block and others don't, it is the fault `Mode`.
///
/// A refusal posts nothing, and is the first that holds, in the order of [`PostError`]. Every post may be refused as `NotMember`,
/// where the communicator isn't opened at the host, as `Closed` behind the member's own [`Desk::free`], as `CallsUsedUp` behind
/// 4,294,967,295 calls, and for want of memory; one with items also as `ItemsLength` where an item of `2int` is cut, as
/// `ItemOutOfRange`, and as `TooManyItems` over 4,096 items, or where a count is outside 0 to 4,096. What else may refuse a call,
/// and which numbers of items are the fault `Amount`, is told at the call.
#[derive(Drop)]
pub struct Desk<H: Host> {
    pub(crate) host: H,
    pub(crate) requests: IndexSet<Request>,
    ghost posted: { ArePosted (H.node host) requests.keys },
}

impl<H: Host> Desk<H> {
    ghost use Rattle.mpx_comm.specs.Desks.{DeskAsks, DeskCalls};

    /// A desk over this host, without requests.
    pub fn new(alloc: Global, host: H) -> Desk<H>
        ensures host { result.host ≡ host }
        ensures requests { result.requests.keys ≡ [] }
    {
        Desk {
            host,
            requests: IndexSet::new(alloc),
        }
    }

    /// The host.
    pub fn host(&self) -> &H
        ensures { result.now ≡ self.now.host }
    {
        &self.host
    }

    /// The host; the desk's requests are gone with the desk, and what was posted stays.
    pub fn into_host(self) -> H
        ensures { result ≡ self.host }
    {
        self.host
    }

    /// Posts the draft as the next call on the communicator, and answers its request, which is then the last open one. It makes no
    /// turn. An `Err` changes nothing: it is the draft's first refusal, or want of memory where the draft has none.
    pub fn post(
        &mut self,
        alloc: Global,
        comm: &Comm,
        draft: Draft,
        ops: &Ops,
    ) -> Result<Request, PostError>
        ensures asks { DeskAsks (H.goes_by self.old.host (⟦<Ops as Listing>⟧.operations ops.now)) H.node comm.now.name draft result self.old self.new }
        ensures no_turn { H.turned self.old.host 0 self.new.host }
    {
        self.post_on(alloc, &comm.name, draft, ops)
    }

    /// Opens the gathering with this tag, from 0 to 32,767, of the members with these ranks, in their order, for the posts of
    /// `MPI_COMM_CREATE_GROUP` (MPI 4.1 section 7.4.2), which go there by [`Desk::post_gathered`]. It makes no turn. An `Err` changes
    /// nothing: it is `NotMember`, `Closed`, `DepthUsedUp`, `BadGroup` (a rank is none of the communicator, or stands twice, or none
    /// is the member's own) or `BadTag`, the first that holds, else want of memory.
    pub fn open_gathering(
        &mut self,
        alloc: Global,
        comm: &Comm,
        tag: i128,
        ranks: Numbers,
    ) -> Result<OpenedGathering, PostError>
        ensures opens { Opens comm.now.name (gathers_on (H.node self.old.host) comm.now.name tag ranks) (gathering_in result) (H.node self.old.host) (H.node self.new.host) }
        ensures no_turn { H.turned self.old.host 0 self.new.host }
        ensures requests { self.new.requests.keys ≡ self.old.requests.keys }
    {
        let opened = self
            .host
            .open_gathering(alloc, &comm.name, tag, ranks.as_slice());
        drop(ranks);
        match opened {
            Ok(name) => Ok(OpenedGathering { name }),
            Err(refusal) => Err(refusal),
        }
    }

    /// Posts the draft as the next call of a gathering, as [`Desk::post`] does on a communicator. There a draft of another kind than
    /// `create_group` is a `BadGroup`.
    pub fn post_gathered(
        &mut self,
        alloc: Global,
        gathering: &OpenedGathering,
        draft: Draft,
        ops: &Ops,
    ) -> Result<Request, PostError>
        ensures asks { DeskAsks (H.goes_by self.old.host (⟦<Ops as Listing>⟧.operations ops.now)) H.node gathering.now.name draft result self.old self.new }
        ensures no_turn { H.turned self.old.host 0 self.new.host }
    {
        self.post_on(alloc, &gathering.name, draft, ops)
    }

    /// Whether the call is done (`MPI_TEST`, MPI 4.1 section 3.7.3), after as many harvests as there are: `Done` closes the request and
    /// gives the result, `NotYet` hands the request back, and so does an `Err`, for want of memory for a result that is at hand.
    /// `LetGo` hands back one that was closed before and whose result was let go; an open request's never is. It makes no turn. The
    /// request is one that this desk made, as for all calls that take one.
    pub fn test(
        &mut self,
        alloc: Global,
        request: Request,
        ops: &Ops,
    ) -> Result<Tested<Finished, Request>, AllocFailed<Request>>
        ensures tests { Tests request result (H.node self.new.host) self.old.requests.keys self.new.requests.keys }
        ensures later { Later (H.node self.old.host) (H.node self.new.host) }
        ensures harvested { Harvested (H.goes_by self.old.host (⟦<Ops as Listing>⟧.operations ops.now)) (H.node self.old.host) (H.node self.new.host) }
        ensures no_turn { H.turned self.old.host 0 self.new.host }
    {
        if was_let_go(&self.host, &request) {
            return Ok(Tested::LetGo(request));
        }
        match look(alloc, &mut self.host, &request, ops) {
            Err(_) => Err(AllocFailed { value: request }),
            Ok(None) => Ok(Tested::NotYet(request)),
            Ok(Some(finished)) => {
                self.requests.shift_remove(&request);
                Ok(Tested::Done(finished))
            }
        }
    }

    /// Whether the call is done, after as many harvests as there are (`MPI_REQUEST_GET_STATUS`, MPI 4.1 section 3.7.6): its
    /// request stays open. One whose result was let go is done. It makes no turn. An `Err` is want of memory for a result that is at hand.
    pub fn status(
        &mut self,
        alloc: Global,
        request: &Request,
        ops: &Ops,
    ) -> Result<bool, OutOfMemory>
        ensures status { IfOk result (λ done. HasStatus done request.now (H.node self.new.host)) }
        ensures wanting { IfErr result (λ e. IsAtHand (H.node self.new.host) request.now.name request.now.call) }
        ensures later { Later (H.node self.old.host) (H.node self.new.host) }
        ensures harvested { Harvested (H.goes_by self.old.host (⟦<Ops as Listing>⟧.operations ops.now)) (H.node self.old.host) (H.node self.new.host) }
        ensures no_turn { H.turned self.old.host 0 self.new.host }
        ensures requests { self.new.requests.keys ≡ self.old.requests.keys }
    {
        if was_let_go(&self.host, request) {
            return Ok(true);
        }
        match look(alloc, &mut self.host, request, ops)? {
            Some(finished) => {
                drop(finished);
                Ok(true)
            }
            None => Ok(false),
        }
    }

    /// Whether all of these are done (`MPI_TESTALL`, MPI 4.1 section 3.7.5): `LetGo` where the result of one was let go, whatever the
    /// others are. Else `Done` closes all and gives their results, in the order of the requests; `NotYet` where one isn't done; an `Err`
    /// for want of memory, for what is at hand. All but `Done` close none and hand them back. It makes no turn.
    pub fn testall(
        &mut self,
        alloc: Global,
        requests: Vec<Request>,
        ops: &Ops,
    ) -> Result<Tested<Vec<Finished>, Vec<Request>>, AllocFailed<Vec<Request>>>
        ensures tests { TestsAll requests.items result (H.node self.new.host) self.old.requests.keys self.new.requests.keys }
        ensures later { Later (H.node self.old.host) (H.node self.new.host) }
        ensures harvested { Harvested (H.goes_by self.old.host (⟦<Ops as Listing>⟧.operations ops.now)) (H.node self.old.host) (H.node self.new.host) }
        ensures no_turn { H.turned self.old.host 0 self.new.host }
    {
        test_all(alloc, &mut self.host, &mut self.requests, requests, ops)
    }

    /// The first open request in order of posting that is done, and its result, or `None` where none is (`MPI_TESTANY`, MPI 4.1
    /// section 3.7.5). It is closed; who hands it in later still gets the result, until that is let go. It makes no turn. An `Err`, for
    /// want of memory, closes none.
    pub fn testany(
        &mut self,
        alloc: Global,
        ops: &Ops,
    ) -> Result<Option<(Request, Finished)>, OutOfMemory>
        ensures tests { TestsAny (H.goes_by self.old.host (⟦<Ops as Listing>⟧.operations ops.now)) result (H.node self.old.host) (H.node self.new.host) self.old.requests.keys self.new.requests.keys }
        ensures later { Later (H.node self.old.host) (H.node self.new.host) }
        ensures harvested { Harvested (H.goes_by self.old.host (⟦<Ops as Listing>⟧.operations ops.now)) (H.node self.old.host) (H.node self.new.host) }
        ensures no_turn { H.turned self.old.host 0 self.new.host }
    {
        match look_any(alloc, &mut self.host, self.requests.as_slice(), ops)? {
            None => Ok(None),
            Some((place, finished)) => {
                let request = self.requests.shift_remove_index(place).unwrap();
                Ok(Some((request, finished)))
            }
        }
    }

    /// Waits for the result (`MPI_WAIT`, MPI 4.1 section 3.7.3) while the host makes at most `turns` turns: it looks once before the
    /// first and once after each, and makes no turn after the look that finds it, which closes the request. An `Err` hands the request
    /// back: `StillWaiting` after just `turns` turns; `OutOfMemory` at a look at what is at hand, or for a turn; `GaveUp` with the
    /// number of a rank that gave up, where the host makes no turn any more; `LetGo`, at once, one that was closed before and whose result was let go.
    pub fn wait(
        &mut self,
        alloc: Global,
        request: Request,
        turns: u64,
        ops: &Ops,
    ) -> Result<Finished, WaitError<Request>>
        ensures waits { Waits H.node H.turned H.turn_refused request turns result self.old.host self.new.host self.old.requests.keys self.new.requests.keys }
        ensures later { Later (H.node self.old.host) (H.node self.new.host) }
    {
        if was_let_go(&self.host, &request) {
            return Err(WaitError::LetGo(request));
        }
        match await_one(alloc, &mut self.host, &request, turns, ops) {
            Err(TurnError::OutOfMemory) => Err(WaitError::OutOfMemory(request)),
            Err(TurnError::GaveUp(rank)) => Err(WaitError::GaveUp(request, rank)),
            Ok(None) => Err(WaitError::StillWaiting(request)),
            Ok(Some(finished)) => {
                self.requests.shift_remove(&request);
                drop(request);
                Ok(finished)
            }
        }
    }

    /// Waits for all their results (`MPI_WAITALL`, MPI 4.1 section 3.7.5), in the order of the requests, while the host makes at most
    /// `turns` turns: it looks once before the first and once after each, and makes no turn after the look that finds them all. All
    /// are closed, or none is. An `Err` hands them back, as that of [`Desk::wait`] does: `LetGo`, at once, where the result of one was let
    /// go, whatever the others are, and else one of the others.
    pub fn waitall(
        &mut self,
        alloc: Global,
        requests: Vec<Request>,
        turns: u64,
        ops: &Ops,
    ) -> Result<Vec<Finished>, WaitError<Vec<Request>>>
        ensures waits { WaitsAll H.node H.turned H.turn_refused requests.items turns result self.old.host self.new.host self.old.requests.keys self.new.requests.keys }
        ensures later { Later (H.node self.old.host) (H.node self.new.host) }
    {
        if one_was_let_go(&self.host, &requests) {
            return Err(WaitError::LetGo(requests));
        }
        match await_all(alloc, &mut self.host, &requests, turns, ops) {
            Err(TurnError::OutOfMemory) => Err(WaitError::OutOfMemory(requests)),
            Err(TurnError::GaveUp(rank)) => Err(WaitError::GaveUp(requests, rank)),
            Ok(None) => Err(WaitError::StillWaiting(requests)),
            Ok(Some(all)) => {
                close_each(&mut self.requests, &requests);
                Ok(all)
            }
        }
    }

    // Posts the draft as the next call on the context.
    pub(crate) fn post_on(
        &mut self,
        alloc: Global,
        name: &Name,
        draft: Draft,
        ops: &Ops,
    ) -> Result<Request, PostError>
        ensures asks { DeskAsks (H.goes_by self.old.host (⟦<Ops as Listing>⟧.operations ops.now)) H.node name.now draft result self.old self.new }
        ensures no_turn { H.turned self.old.host 0 self.new.host }
    {
        let Ok((mine, twin)) = room_and_names(alloc, &mut self.requests, name) else {
            let refusal = self.host.refusal(name, &draft, ops);
            drop(draft);
            return Err(refusal_or_memory(refusal));
        };
        let call = self.host.post(alloc, name, draft, ops)?;
        self.requests.insert(Request::new(twin, call)).unwrap();
        Ok(Request::new(mine, call))
    }

    // Posts the draft, and waits for its result for so many turns.
    pub(crate) fn call_on(
        &mut self,
        alloc: Global,
        name: &Name,
        draft: Draft,
        turns: u64,
        ops: &Ops,
    ) -> Result<Finished, CallError>
        ensures { DeskCalls (H.goes_by self.old.host (⟦<Ops as Listing>⟧.operations ops.now)) H.node H.turned H.turn_refused name.now draft turns result self.old self.new }
    {
        let request = match self.post_on(alloc, name, draft, ops) {
            Ok(request) => request,
            Err(refusal) => return Err(CallError::Refused(refusal)),
        };
        match self.wait(alloc, request, turns, ops) {
            Ok(finished) => Ok(finished),
            Err(WaitError::StillWaiting(request)) => Err(CallError::StillWaiting(request)),
            Err(WaitError::OutOfMemory(request)) => Err(CallError::OutOfMemory(request)),
            Err(WaitError::GaveUp(request, rank)) => Err(CallError::GaveUp(request, rank)),
            // The result of an open request isn't let go.
            Err(WaitError::LetGo(_)) => unreachable!(),
        }
    }
}

// The draft's refusal, or want of memory where it has none.
fn refusal_or_memory(refusal: Option<PostError>) -> PostError
    ensures { (checked : Result Given PostErrorView) → refusal ≡ refusal_of checked → IsRefusal checked result }
{
    refusal.unwrap_or(PostError::OutOfMemory)
}

// Room for one more request, and the name of its context twice. Here stand most exits of a post, and no draft is dropped at them.
fn room_and_names(
    alloc: Global,
    requests: &mut IndexSet<Request>,
    name: &Name,
) -> Result<(Name, Name), OutOfMemory>
    ensures keys { requests.new.keys ≡ requests.old.keys }
    ensures room { OnOk result (1 ≤ spare requests.new) }
    ensures names { IfOk result (λ names. (names.0 ≡ name.now) × (names.1 ≡ name.now)) }
{
    requests.reserve(1)?;
    let mine = name.copy(alloc)?;
    Ok((mine, name.copy(alloc)?))
}
