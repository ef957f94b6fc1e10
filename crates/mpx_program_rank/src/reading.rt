//! What a rank's calls are given, and what they answer of what the desk answers.
ghost use Rattle.std.specs.Prelude.{◌≡◌, Err, IfErr, IfOk, IfSome, IsNone, IsOk, Ok, Some, map, pos};
ghost use Rattle.mpx_comm.specs.Given.{numbers_given};
ghost use Rattle.mpx_comm.specs.declared.answers.CallError.TheVariants as C;
ghost use Rattle.mpx_program_rank.specs.Gives.{IsDone, IsRead, IsUnread, desk_error};
ghost use Rattle.mpx_program_rank.specs.declared.call_error.Cause.TheVariants.{OutOfMemory};

use crate::call_error::{CallError, Cause};
use crate::called::{Awaited, Called, Detail};
use crate::rank::Rank;
use join_core::Exact;
use mpx_call::Item;
use mpx_comm::{CallError as DeskError, Comm, Host, numbers_of};
use mpx_match::Fault;
use mpx_name::Name;
use mpx_node::Finished;
use mpx_num::{IntegersError, MOST_ITEMS, Numbers};
use mpx_post::PostError;
use mpx_request::Request;
use std::alloc::Global;

/// A call that is made: its name in MPI, its communicator, and what else it is given, as far as a refusal is of it.
#[derive(Clone, Copy)]
pub(crate) struct Made<'c> {
    pub(crate) name: &'static str,
    pub(crate) comm: &'c Comm,
    pub(crate) root: i128,
    pub(crate) items: usize,
    pub(crate) taken: Option<usize>,
    pub(crate) counts: usize,
}

impl<'c> Made<'c> {
    /// With so many items.
    pub(crate) fn new(name: &'static str, comm: &'c Comm, items: usize) -> Made<'c> {
        Made {
            name,
            comm,
            root: 0,
            items,
            taken: None,
            counts: 0,
        }
    }

    /// With this root.
    pub(crate) fn rooted(self, root: i128) -> Made<'c> {
        Made { root, ..self }
    }

    /// Where the root gives so many items, and the others none.
    pub(crate) fn sent(self, count: usize) -> Made<'c> {
        let is_root = i128::from(self.comm.rank()) == self.root;
        Made {
            taken: Some(if is_root { count } else { 0 }),
            ..self
        }
    }

    /// Where each gives a block of `count` items for each rank.
    pub(crate) fn blocks(self, count: usize) -> Made<'c> {
        let all = count.saturating_mul(usize::from(self.comm.size()));
        Made {
            taken: Some(all),
            ..self
        }
    }

    /// Where the root gives a block of `count` items for each rank, and the others none.
    pub(crate) fn scattered(self, count: usize) -> Made<'c> {
        self.sent(count.saturating_mul(usize::from(self.comm.size())))
    }

    /// With so many counts.
    pub(crate) fn counted(self, counts: usize) -> Made<'c> {
        Made { counts, ..self }
    }

    // The number that a refusal is of.
    fn detail(&self, refusal: PostError) -> Detail {
        let size = self.comm.size();
        match refusal {
            PostError::RootOutOfRange => Detail::Root {
                root: self.root,
                size,
            },
            PostError::CountsLength => Detail::Counts {
                given: self.counts,
                size,
            },
            PostError::TooManyItems if self.items > MOST_ITEMS => Detail::TooMany {
                given: self.items,
            },
            PostError::ItemsLength => match self.taken {
                Some(taken) => Detail::Items {
                    given: self.items,
                    taken,
                },
                None => Detail::None,
            },
            _ => Detail::None,
        }
    }
}

/// A count as the desk takes it.
pub(crate) fn number_of(count: usize) -> i128
    ensures { result ≡ pos count }
{
    count as i128
}

/// The list of items that a call gave, or why there is none.
pub(crate) fn list_in<T: Item>(alloc: Global, finished: &Finished) -> Result<Vec<T>, Cause>
    ensures list { IfOk result (λ list. numbers_given finished.now.outcome ≡ Ok (T.numbers list.items)) }
    ensures none { IfErr result (λ cause. IsUnread (numbers_given finished.now.outcome) cause) }
{
    match numbers_of(finished) {
        Ok(numbers) => match T::list_of(alloc, numbers) {
            Ok(list) => Ok(list),
            Err(IntegersError::OutOfRange) => Err(Cause::OutOfRange),
            Err(IntegersError::OutOfMemory) => Err(Cause::OutOfMemory),
        },
        Err(fault) => Err(Cause::Fault(fault)),
    }
}

/// The fault that a call gave, where it gave one.
pub(crate) fn fault_in(finished: &Finished) -> Option<Fault>
    ensures some { IfSome result (λ fault. numbers_given finished.now.outcome ≡ Err fault) }
    ensures none { IsNone result → IsOk (numbers_given finished.now.outcome) }
{
    match numbers_of(finished) {
        Ok(_) => None,
        Err(fault) => Some(fault),
    }
}

impl<'a, H: Host> Rank<'a, H> {
    /// The numbers of a call's items.
    pub(crate) fn given<T: Item>(&self, made: Made<'_>, items: &[T]) -> Result<Numbers, CallError>
        ensures numbers { IfOk result (λ given. given ≡ T.numbers items.now) }
        ensures none { IfErr result (λ e. e.cause ≡ OutOfMemory) }
    {
        match T::numbers_of(self.alloc, items) {
            Ok(given) => Ok(given),
            Err(_) => Err(self.failed(made, self.next_call(made.comm), Cause::OutOfMemory)),
        }
    }

    /// The numbers of a call's counts.
    pub(crate) fn counts(&self, made: Made<'_>, counts: &[u32]) -> Result<Numbers, CallError>
        ensures numbers { IfOk result (λ given. given ≡ map pos counts.now) }
        ensures none { IfErr result (λ e. e.cause ≡ OutOfMemory) }
    {
        match Numbers::from_slice(self.alloc, counts) {
            Ok(given) => Ok(given),
            Err(_) => Err(self.failed(made, self.next_call(made.comm), Cause::OutOfMemory)),
        }
    }

    /// The list that the desk's answer gives.
    pub(crate) fn listed<T: Item>(
        &self,
        made: Made<'_>,
        answer: Result<Finished, DeskError>,
    ) -> Result<Vec<T>, CallError>
        ensures { IsRead T.numbers answer result }
    {
        match answer {
            Ok(finished) => {
                let list = list_in(self.alloc, &finished);
                drop(finished);
                match list {
                    Ok(list) => Ok(list),
                    Err(cause) => Err(self.failed(made, self.last_call(made.comm), cause)),
                }
            }
            Err(why) => Err(self.error_of(made, why)),
        }
    }

    /// That the desk's answer gives nothing, and is no fault.
    pub(crate) fn nothing(
        &self,
        made: Made<'_>,
        answer: Result<Finished, DeskError>,
    ) -> Result<(), CallError>
        ensures { IsDone answer result }
    {
        match answer {
            Ok(finished) => {
                let fault = fault_in(&finished);
                drop(finished);
                match fault {
                    None => Ok(()),
                    Some(fault) => {
                        let call = self.last_call(made.comm);
                        Err(self.failed(made, call, Cause::Fault(fault)))
                    }
                }
            }
            Err(why) => Err(self.error_of(made, why)),
        }
    }

    /// Why a call of the desk has no result, with what is known of it.
    pub(crate) fn error_of(&self, made: Made<'_>, why: DeskError) -> CallError
        ensures { desk_error result.cause ≡ Some why }
    {
        match why {
            DeskError::Refused(refusal) => self.refused(made, refusal),
            DeskError::StillWaiting(request) => {
                let call = request.call();
                let awaited = self.awaited(&request);
                let cause = Cause::StillWaiting(Some(request), self.turns, awaited);
                self.failed(made, call, cause)
            }
            DeskError::OutOfMemory(request) => {
                let call = request.call();
                self.failed(made, call, Cause::NoMemory(Some(request)))
            }
            DeskError::GaveUp(request, rank) => {
                let call = request.call();
                self.failed(made, call, Cause::GaveUp(Some(request), rank))
            }
        }
    }

    /// That a call is refused.
    pub(crate) fn refused(&self, made: Made<'_>, refusal: PostError) -> CallError
        ensures { desk_error result.cause ≡ Some (C.Refused refusal) }
    {
        let call = self.next_call(made.comm);
        let detail = made.detail(refusal);
        self.failed(made, call, Cause::Refused(refusal, detail))
    }

    /// The error of the call with this number.
    pub(crate) fn failed(&self, made: Made<'_>, call: u32, cause: Cause) -> CallError
        ensures { result.cause ≡ cause }
    {
        let comm = self.copy_of(made.comm.name());
        let called = Called {
            name: made.name,
            call,
            comm,
        };
        CallError::of(called, cause)
    }

    /// The name once more, where there is memory for it.
    pub(crate) fn copy_of(&self, name: &Name) -> Option<Name> {
        match name.copy(self.alloc) {
            Ok(name) => Some(name),
            Err(_) => None,
        }
    }

    /// For whose posts a request waits, as far as that is known.
    pub(crate) fn awaited(&self, request: &Request) -> Awaited {
        let ranks = match self.desk.awaited(self.alloc, request) {
            Ok(ranks) => ranks,
            Err(_) => Vec::new(self.alloc),
        };
        Awaited { ranks }
    }

    /// The number of the next call on the communicator: the first one from its front on of which the host has no post of its own.
    pub(crate) fn next_call(&self, comm: &Comm) -> u32 {
        let host = self.desk.host();
        let (board, name) = (host.board(), comm.name());
        let front = host.front(name);
        let Some(birth) = board.birth(name) else {
            return front;
        };
        let Some(&me) = birth.members().get(usize::from(comm.rank())) else {
            return front;
        };
        for call in front..u32::MAX {
            if board.holds(name, call, me).is_none() {
                return call;
            }
        }
        u32::MAX
    }

    /// The number of the last call on the communicator that is done.
    pub(crate) fn last_call(&self, comm: &Comm) -> u32 {
        self.desk.host().front(comm.name()).saturating_sub(1)
    }
}
