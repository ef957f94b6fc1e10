//! Tasks that are done at once, in threads that end before the call does.
ghost use Rattle.std.specs.Prelude.{◌≡◌, IfOk, [], length, map};
ghost use Rattle.std.specs.Fork.{AcceptsJobs, GivesJobs};
ghost use Rattle.mpx_at_once.specs.declared.task.Calling.{Calling};
ghost use Rattle.mpx_at_once.specs.Tasks.{AllCan, AllGive, beside, tasks_of};

use crate::task::{Calling, Task, TaskPromise};
use join_core::OutOfMemory;
use mpx_num::Listing;
use std::alloc::Global;
use std::snapshot::Snapshot;
use std::sync::Wait;
use std::thread::{PromisedHandle, Scope, Threads, scope, scope_env};
use thiserror::Error;

/// Why tasks were not done.
#[derive(Clone, Copy, Debug, Drop, PartialEq, Eq, Error)]
pub enum AtOnceError {
    /// Memory was wanting.
    #[error("out of memory")]
    OutOfMemory,
    /// The system refused a thread.
    #[error("the system refused a thread")]
    NoThread,
}

impl From<OutOfMemory> for AtOnceError {
    ghost use Rattle.mpx_at_once.specs.declared.at_once.AtOnceError.TheVariants.{OutOfMemory};

    ghost from_gives = { λ _ e. e ≡ OutOfMemory };

    fn from(_e: OutOfMemory) -> AtOnceError {
        AtOnceError::OutOfMemory
    }
}

/// Who doesn't tell the two apart counts a refused thread as want of memory.
impl From<AtOnceError> for OutOfMemory {
    fn from(_e: AtOnceError) -> OutOfMemory {
        OutOfMemory
    }
}

/// Who stands by in the thread that has tasks done.
pub trait Stop {
    /// Tells the tasks under way that they are to end, since others couldn't begin.
    fn stop(&self);

    /// What that thread does once all tasks have begun, before it joins them. It may wait for them.
    fn meanwhile<R: Wait>(&self, _rt: &R) {}
}

/// Does the first task in a thread of its own, and the second in this one. Where that thread is refused neither is done.
pub fn both<
    R: Threads + Wait,
    L: Listing + Sync,
    A: Send + Drop,
    B: Drop,
    T: Task<L, Output = A> + Send + Drop,
    U: Task<L, Output = B> + Drop,
>(rt: &R, first: T, second: U, ops: &L) -> Result<(A, B), AtOnceError>
    requires { T.can_run first (L.operations ops.now) × U.can_run second (L.operations ops.now) }
    ensures first { IfOk result (λ r. T.gives first r.0) }
    ensures second { IfOk result (λ r. U.gives second r.1) }
{
    scope(
        scope_env(),
        rt,
        move |scope| -> Result<(A, B), AtOnceError>
            requires { T.can_run first (L.operations ops.now) × U.can_run second (L.operations ops.now) }
            ensures { IfOk result (λ r. T.gives first r.0 × U.gives second r.1) }
        {
            let handle = start(scope, first, ops)?;
            let other = second.run(ops);
            Ok((handle.join(rt), other))
        },
    )
}

/// Calls f with each job, each time in a thread of its own, and gives the results in their order. Where a thread is refused the others are
/// told to stop.
pub fn map_at_once<
    R: Threads + Wait,
    L: Listing + Sync,
    J: Send + Drop,
    X: Send + Drop,
    F: Fn(J) -> X + Sync,
    S: Stop,
>(rt: &R, alloc: Global, jobs: Vec<J>, f: &F, ops: &L, stop: &S) -> Result<Vec<X>, AtOnceError>
    requires { AcceptsJobs F.Fn f.now jobs.items }
    ensures len { IfOk result (λ all. length all.items ≡ length jobs.items) }
    ensures each { IfOk result (λ all. GivesJobs F.Fn f.now jobs.items all.items) }
{
    let calls = calls_of(alloc, f, jobs)?;
    all_at_once(rt, alloc, calls, ops, stop)
}

// A task for each job.
fn calls_of<'a, J: Drop, F>(
    alloc: Global,
    f: &'a F,
    jobs: Vec<J>,
) -> Result<Vec<Calling<'a, F, J>>, OutOfMemory>
    ensures { IfOk result (λ calls. map (λ (t : Calling F J). beside t.f.now t.job) calls.items ≡ map (beside f.now) jobs.items) }
{
    let mut calls = Vec::new(alloc);
    for job in jobs {
        calls.push(Calling { f, job })?;
    }
    Ok(calls)
}

/// Does all tasks, each in a thread of its own, and gives what they gave, in their order. Room for all is asked for before the first begins.
/// Where a thread is refused the others are told to stop, and all of them are joined.
pub fn all_at_once<
    R: Threads + Wait,
    L: Listing + Sync,
    A: Send + Drop,
    T: Task<L, Output = A> + Send + Drop,
    S: Stop,
>(rt: &R, alloc: Global, tasks: Vec<T>, ops: &L, stop: &S) -> Result<Vec<A>, AtOnceError>
    requires { AllCan T.can_run (L.operations ops.now) tasks.items }
    ensures { IfOk result (λ all. AllGive T.gives tasks.items all.items) }
{
    scope(
        scope_env(),
        rt,
        move |scope| -> Result<Vec<A>, AtOnceError>
            requires { AllCan T.can_run (L.operations ops.now) tasks.items }
            ensures { IfOk result (λ all. AllGive T.gives tasks.items all.items) }
        {
            let Ok(room) = Vec::with_capacity(alloc, tasks.len()) else {
                return Err(AtOnceError::OutOfMemory);
            };
            let handles = start_all(scope, rt, alloc, tasks, ops, stop)?;
            stop.meanwhile(rt);
            Ok(join_all(rt, handles, room)?)
        },
    )
}

// A thread for the task.
fn start<
    's,
    E,
    L: Listing + Sync + 's,
    A: Send + Drop + 's,
    T: Task<L, Output = A> + Send + Drop + 's,
>(
    scope: &Scope<'s, E>,
    task: T,
    ops: &'s L,
) -> Result<PromisedHandle<A, TaskPromise<L, T>>, AtOnceError>
    requires { T.can_run task (L.operations ops.now) }
    ensures { IfOk result (λ handle. handle.promise.task.value ≡ task) }
{
    let promise = TaskPromise {
        task: Snapshot::of(&task),
        ops: Snapshot::of(ops),
    };
    let running = move || -> A
        requires { T.can_run task (L.operations ops.now) }
        ensures { T.gives task result }
    { task.run(ops) };
    match scope.spawn_with(promise, running) {
        Ok(handle) => Ok(handle),
        Err(_) => Err(AtOnceError::NoThread),
    }
}

// A thread for each task.
fn start_all<
    's,
    E,
    R: Threads,
    L: Listing + Sync + 's,
    A: Send + Drop + 's,
    T: Task<L, Output = A> + Send + Drop + 's,
    S: Stop,
>(
    scope: &Scope<'s, E>,
    rt: &R,
    alloc: Global,
    tasks: Vec<T>,
    ops: &'s L,
    stop: &S,
) -> Result<Vec<PromisedHandle<A, TaskPromise<L, T>>>, AtOnceError>
    requires { AllCan T.can_run (L.operations ops.now) tasks.items }
    ensures { IfOk result (λ handles. tasks_of handles.items ≡ tasks.items) }
{
    let Ok(mut handles) = Vec::with_capacity(alloc, tasks.len()) else {
        return Err(AtOnceError::OutOfMemory);
    };
    for task in tasks {
        let handle = match start(scope, task, ops) {
            Ok(handle) => handle,
            Err(refusal) => {
                stop.stop();
                let_go(rt, handles);
                return Err(refusal);
            }
        };
        if let Err(left) = handles.push(handle) {
            stop.stop();
            drop(left.value.join(rt));
            let_go(rt, handles);
            return Err(AtOnceError::OutOfMemory);
        }
    }
    Ok(handles)
}

// Joins threads that were told to stop, and drops what they gave: where a thread isn't joined, that is never freed.
fn let_go<R: Threads, L: Listing, A: Send + Drop, T: Task<L, Output = A>>(
    rt: &R,
    handles: Vec<PromisedHandle<A, TaskPromise<L, T>>>,
) {
    for handle in handles {
        drop(handle.join(rt));
    }
}

// What each thread gave, in the room for it.
fn join_all<R: Threads, L: Listing, A: Send + Drop, T: Task<L, Output = A>>(
    rt: &R,
    handles: Vec<PromisedHandle<A, TaskPromise<L, T>>>,
    room: Vec<A>,
) -> Result<Vec<A>, OutOfMemory>
    requires { room.items ≡ [] }
    ensures { IfOk result (λ all. AllGive T.gives (tasks_of handles.items) all.items) }
{
    let mut all = room;
    for handle in handles {
        all.push(handle.join(rt))?;
    }
    Ok(all)
}
