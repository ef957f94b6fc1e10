//! Requests of calls that don't block: each knows the type of its items.
ghost use Rattle.std.specs.Prelude.{◌≡◌, [], IfErr, IfOk, Ok, Some};
ghost use Rattle.mpx_comm.specs.Given.{numbers_given};
ghost use Rattle.mpx_request.specs.Requests.{same_request};
ghost use Rattle.mpx_program_rank.specs.Gives.{IsStarted, IsUnread};
ghost use Rattle.mpx_program_rank.specs.Waiting.{AnyGives, IsAny, IsSome, IsStatus, IsTested, IsWaited, SomeGives, StatusGives, TestGives, TurnsGive, WaitAnyGives, WaitGives, any_error, turn_error, wait_error};

use crate::call_error::{CallError, Cause};
use crate::called::{Awaited, Called};
use crate::rank::Rank;
use crate::reading::{Made, list_in};
use join_core::OutOfMemory;
use mpx_call::Item;
use mpx_comm::{Host, Request, Tested, TurnError, WaitError};
use mpx_name::Name;
use mpx_node::Finished;
use mpx_num::Ops;
use mpx_post::PostError;
use std::alloc::{AllocFailed, Global};
use std::marker::PhantomData;

/// A call that was posted and may not be done: its request, and the type of the items that it gives.
#[derive(Drop)]
pub struct Pending<T: Item> {
    pub request: Request,
    pub name: &'static str,
    pub of: PhantomData<T>,
}

/// A call that is done, whatever its items are.
#[derive(Debug, Drop)]
pub struct Done {
    pub request: Request,
    pub finished: Finished,
}

impl Done {
    /// Whether it is this call.
    pub fn is<T: Item>(&self, pending: &Pending<T>) -> bool
        ensures { result ≡ same_request self.now.request pending.now.request }
    {
        self.request == pending.request
    }

    /// The items that it gave.
    pub fn list<T: Item>(&self, alloc: Global) -> Result<Vec<T>, CallError>
        ensures list { IfOk result (λ list. numbers_given self.now.finished.outcome ≡ Ok (T.numbers list.items)) }
        ensures none { IfErr result (λ e. IsUnread (numbers_given self.now.finished.outcome) e.cause) }
    {
        match list_in(alloc, &self.finished) {
            Ok(list) => Ok(list),
            Err(cause) => Err(CallError::bare(cause)),
        }
    }
}

impl<'a, H: Host> Rank<'a, H> {
    /// Waits for what the call gives (`MPI_WAIT`), at most the rank's turns. An `Err` has the request, where it isn't done.
    pub fn wait<T: Item>(&mut self, pending: Pending<T>) -> Result<Vec<T>, CallError>
        ensures gives { WaitGives H.node H.turned H.turn_refused pending.request self.old.turns (IsWaited T.numbers) result self.old.desk.now self.new.desk.now }
        ensures same { self.new.desk.ghost_name ≡ self.old.desk.ghost_name }
        ensures kept { (self.new.world ≡ self.old.world) × (self.new.turns ≡ self.old.turns) }
    {
        let Pending {
            request,
            name,
            of: _,
        } = pending;
        let called = self.called(name, request.name(), request.call());
        let ops = Ops::none(self.alloc);
        match self.desk.wait(self.alloc, request, self.turns, &ops) {
            Ok(finished) => read(self.alloc, called, finished),
            Err(why) => Err(CallError::of(called, self.waited(why))),
        }
    }

    /// Makes a turn, and says whether the call is done (`MPI_TEST`): so a loop of tests ends. What it gave, or the request once more.
    pub fn test<T: Item>(
        &mut self,
        pending: Pending<T>,
    ) -> Result<Tested<Vec<T>, Pending<T>>, CallError>
        ensures gives { TestGives H.node H.turned H.turn_refused pending.request (IsTested T.numbers (λ again. again.request)) result self.old.desk.now self.new.desk.now }
        ensures same { self.new.desk.ghost_name ≡ self.old.desk.ghost_name }
        ensures kept { (self.new.world ≡ self.old.world) × (self.new.turns ≡ self.old.turns) }
    {
        let Pending {
            request,
            name,
            of: _,
        } = pending;
        let called = self.called(name, request.name(), request.call());
        let turned = self.desk.turn(self.alloc, 1);
        let ops = Ops::none(self.alloc);
        let answer = self.desk.test(self.alloc, request, &ops);
        tested(self.alloc, called, turned, answer)
    }

    /// Makes a turn, and says whether the call is done (`MPI_REQUEST_GET_STATUS`). It stays open, and [`Rank::wait`] gives its items.
    pub fn status<T: Item>(&mut self, pending: &Pending<T>) -> Result<bool, CallError>
        ensures gives { StatusGives H.node H.turned H.turn_refused pending.now.request result self.old.desk.now self.new.desk.now }
        ensures same { self.new.desk.ghost_name ≡ self.old.desk.ghost_name }
        ensures kept { (self.new.world ≡ self.old.world) × (self.new.turns ≡ self.old.turns) }
    {
        let turned = self.desk.turn(self.alloc, 1);
        let ops = Ops::none(self.alloc);
        let answer = self.desk.status(self.alloc, &pending.request, &ops);
        self.status_of(pending, turned, answer)
    }

    /// Makes a turn, and gives the first open call in order of posting that is done (`MPI_TESTANY`), or none.
    pub fn testany(&mut self) -> Result<Option<Done>, CallError>
        ensures gives { AnyGives (λ host. H.goes_by host []) H.node H.turned H.turn_refused result self.old.desk.now self.new.desk.now }
        ensures same { self.new.desk.ghost_name ≡ self.old.desk.ghost_name }
        ensures kept { (self.new.world ≡ self.old.world) × (self.new.turns ≡ self.old.turns) }
    {
        let turned = self.desk.turn(self.alloc, 1);
        let ops = Ops::none(self.alloc);
        let answer = self.desk.testany(self.alloc, &ops);
        any_tested(turned, answer)
    }

    /// Makes a turn, and gives all open calls that are done, each with its result, in order of posting (`MPI_TESTSOME`). They are closed. An `Err`
    /// closes none.
    pub fn testsome(&mut self) -> Result<Vec<(Request, Finished)>, CallError>
        ensures gives { SomeGives (λ host. H.goes_by host []) H.node H.turned H.turn_refused result self.old.desk.now self.new.desk.now }
        ensures same { self.new.desk.ghost_name ≡ self.old.desk.ghost_name }
        ensures kept { (self.new.world ≡ self.old.world) × (self.new.turns ≡ self.old.turns) }
    {
        let turned = self.desk.turn(self.alloc, 1);
        let ops = Ops::none(self.alloc);
        let answer = self.desk.testsome(self.alloc, &ops);
        some_tested(turned, answer)
    }

    /// Waits for the first open call in order of posting that is done (`MPI_WAITANY`), at most the rank's turns. None where none is open.
    pub fn waitany(&mut self) -> Result<Option<Done>, CallError>
        ensures gives { WaitAnyGives (H.goes_by self.old.desk.now.host []) H.node H.turned H.turn_refused self.old.turns result self.old.desk.now self.new.desk.now }
        ensures same { self.new.desk.ghost_name ≡ self.old.desk.ghost_name }
        ensures kept { (self.new.world ≡ self.old.world) × (self.new.turns ≡ self.old.turns) }
    {
        let ops = Ops::none(self.alloc);
        match self.desk.waitany(self.alloc, self.turns, &ops) {
            Ok(Some((request, finished))) => Ok(Some(Done { request, finished })),
            Ok(None) => Ok(None),
            Err(why) => Err(CallError::bare(self.waited_for_any(why))),
        }
    }

    /// Makes turns for the others, where this rank waits for nothing.
    pub fn turn(&mut self, turns: u64) -> Result<(), CallError>
        ensures gives { TurnsGive H.turned H.turn_refused turns result self.old.desk.now self.new.desk.now }
        ensures same { self.new.desk.ghost_name ≡ self.old.desk.ghost_name }
        ensures kept { (self.new.world ≡ self.old.world) × (self.new.turns ≡ self.old.turns) }
    {
        match self.desk.turn(self.alloc, turns) {
            Ok(()) => Ok(()),
            Err(why) => Err(CallError::bare(cause_of(why, None))),
        }
    }

    /// The request of a call that was posted, once a turn has taken it on its way.
    pub(crate) fn pending<T: Item>(
        &mut self,
        made: Made<'_>,
        posted: Result<Request, PostError>,
    ) -> Result<Pending<T>, CallError>
        ensures starts { IsStarted H.turned H.turn_refused (λ pending. pending.request) posted result self.old.desk.now self.new.desk.now }
        ensures same { self.new.desk.ghost_name ≡ self.old.desk.ghost_name }
        ensures kept { (self.new.world ≡ self.old.world) × (self.new.turns ≡ self.old.turns) }
    {
        match posted {
            Ok(request) => {
                let _turned = self.desk.turn(self.alloc, 1);
                Ok(Pending {
                    request,
                    name: made.name,
                    of: PhantomData,
                })
            }
            Err(refusal) => Err(self.refused(made, refusal)),
        }
    }

    // Whether a call is done, of the turn before and of what the desk says.
    fn status_of<T: Item>(
        &self,
        pending: &Pending<T>,
        turned: Result<(), TurnError>,
        answer: Result<bool, OutOfMemory>,
    ) -> Result<bool, CallError>
        ensures { IsStatus turned answer result }
    {
        match answer {
            Ok(true) => Ok(true),
            Ok(false) => match turned {
                Ok(()) => Ok(false),
                Err(why) => Err(self.not_known(pending, cause_of(why, None))),
            },
            Err(_) => Err(self.not_known(pending, Cause::NoMemory(None))),
        }
    }

    // Why it isn't known whether a call is done.
    fn not_known<T: Item>(&self, pending: &Pending<T>, cause: Cause) -> CallError
        ensures { result.cause ≡ cause }
    {
        let request = &pending.request;
        let called = self.called(pending.name, request.name(), request.call());
        CallError::of(called, cause)
    }

    // The call with this number on a communicator.
    fn called(&self, name: &'static str, comm: &Name, call: u32) -> Called {
        Called {
            name,
            call,
            comm: self.copy_of(comm),
        }
    }

    // Why a wait ended without a result.
    fn waited(&self, why: WaitError<Request>) -> Cause
        ensures { wait_error result ≡ Some why }
    {
        match why {
            WaitError::StillWaiting(request) => {
                let awaited = self.awaited(&request);
                Cause::StillWaiting(Some(request), self.turns, awaited)
            }
            WaitError::OutOfMemory(request) => Cause::NoMemory(Some(request)),
            WaitError::GaveUp(request, rank) => Cause::GaveUp(Some(request), rank),
            WaitError::LetGo(request) => Cause::LetGo(Some(request)),
        }
    }

    // Why a wait for any ended without one.
    fn waited_for_any(&self, why: WaitError<()>) -> Cause
        ensures { any_error result ≡ Some why }
    {
        match why {
            WaitError::StillWaiting(()) => {
                let awaited = Awaited {
                    ranks: Vec::new(self.alloc),
                };
                Cause::StillWaiting(None, self.turns, awaited)
            }
            WaitError::OutOfMemory(()) => Cause::NoMemory(None),
            WaitError::GaveUp((), rank) => Cause::GaveUp(None, rank),
            WaitError::LetGo(()) => Cause::LetGo(None),
        }
    }
}

// What a test says, of the turn before it and of the desk's test.
fn tested<T: Item>(
    alloc: Global,
    called: Called,
    turned: Result<(), TurnError>,
    answer: Result<Tested<Finished, Request>, AllocFailed<Request>>,
) -> Result<Tested<Vec<T>, Pending<T>>, CallError>
    ensures { IsTested T.numbers (λ again. again.request) turned answer result }
{
    let name = called.name;
    match answer {
        Ok(Tested::Done(finished)) => match read(alloc, called, finished) {
            Ok(list) => Ok(Tested::Done(list)),
            Err(e) => Err(e),
        },
        Ok(Tested::NotYet(request)) => match turned {
            Ok(()) => Ok(Tested::NotYet(Pending {
                request,
                name,
                of: PhantomData,
            })),
            Err(why) => Err(CallError::of(called, cause_of(why, Some(request)))),
        },
        Ok(Tested::LetGo(request)) => Err(CallError::of(called, Cause::LetGo(Some(request)))),
        Err(AllocFailed { value }) => Err(CallError::of(called, Cause::NoMemory(Some(value)))),
    }
}

// What a test of all open calls says, of the turn before it and of the desk's test.
fn any_tested(
    turned: Result<(), TurnError>,
    answer: Result<Option<(Request, Finished)>, OutOfMemory>,
) -> Result<Option<Done>, CallError>
    ensures { IsAny turned answer result }
{
    match answer {
        Ok(Some((request, finished))) => Ok(Some(Done { request, finished })),
        Ok(None) => match turned {
            Ok(()) => Ok(None),
            Err(why) => Err(CallError::bare(cause_of(why, None))),
        },
        Err(_) => Err(CallError::bare(Cause::OutOfMemory)),
    }
}

// The same of a test for those that are done.
fn some_tested(
    turned: Result<(), TurnError>,
    answer: Result<Vec<(Request, Finished)>, OutOfMemory>,
) -> Result<Vec<(Request, Finished)>, CallError>
    ensures { IsSome turned answer result }
{
    match answer {
        Ok(done) => match turned {
            Ok(()) => Ok(done),
            Err(why) => {
                if done.is_empty() {
                    return Err(CallError::bare(cause_of(why, None)));
                }
                Ok(done)
            }
        },
        Err(_) => Err(CallError::bare(Cause::OutOfMemory)),
    }
}

// Why a turn was refused, beside which this request isn't done.
fn cause_of(why: TurnError, request: Option<Request>) -> Cause
    ensures { turn_error result ≡ Some why }
{
    match why {
        TurnError::OutOfMemory => Cause::NoMemory(request),
        TurnError::GaveUp(rank) => Cause::GaveUp(request, rank),
    }
}

// The items that a call gave.
fn read<T: Item>(alloc: Global, called: Called, finished: Finished) -> Result<Vec<T>, CallError>
    ensures { IsWaited T.numbers (Ok finished) result }
{
    let list = list_in(alloc, &finished);
    drop(finished);
    match list {
        Ok(list) => Ok(list),
        Err(cause) => Err(CallError::of(called, cause)),
    }
}
