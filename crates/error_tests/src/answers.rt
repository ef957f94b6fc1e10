//! Errors that hand a request back.
use crate::shown::shows;
use mpx_comm::{CallError, Comm, Desk, Request, WaitError};
use mpx_group::Proc;
use mpx_node::Node;
use mpx_num::Ops;
use mpx_post::PostError;
use std::alloc::Global;
use std::test::Fail;

// A request of the only rank's barrier.
fn request(alloc: Global, ops: &Ops) -> Result<Request, Fail> {
    let node = Node::new(alloc, Proc::new(0), 1, 1)?;
    let mut desk = Desk::new(alloc, node);
    let request = desk.ibarrier(alloc, &Comm::world(alloc, 1, 0), ops);
    drop(desk);
    Ok(request?)
}

fn call_shows(alloc: Global, error: CallError, text: &'static str) -> Result<(), Fail> {
    let shown = shows(alloc, &error, text);
    drop(error);
    shown
}

fn wait_shows(alloc: Global, error: WaitError<()>, text: &'static str) -> Result<(), Fail> {
    shows(alloc, &error, text)
}

#[test]
fn calls(rt: HostRuntime) -> Result<(), Fail> {
    let ops = Ops::none(rt.alloc());
    let alloc = rt.alloc();
    call_shows(
        alloc,
        CallError::Refused(PostError::RootOutOfRange),
        "refused RootOutOfRange",
    )?;
    call_shows(
        alloc,
        CallError::StillWaiting(request(alloc, &ops)?),
        "posted, and not done after the turns given",
    )?;
    call_shows(
        alloc,
        CallError::OutOfMemory(request(alloc, &ops)?),
        "posted, and out of memory",
    )?;
    call_shows(
        alloc,
        CallError::GaveUp(request(alloc, &ops)?, 3),
        "posted and not done, and rank 3 gave up",
    )
}

#[test]
fn waits(rt: HostRuntime) -> Result<(), Fail> {
    let alloc = rt.alloc();
    wait_shows(
        alloc,
        WaitError::StillWaiting(()),
        "not done after the turns given",
    )?;
    wait_shows(alloc, WaitError::OutOfMemory(()), "out of memory")?;
    wait_shows(
        alloc,
        WaitError::GaveUp((), 3),
        "not done, and rank 3 gave up",
    )?;
    wait_shows(alloc, WaitError::LetGo(()), "done, and its result let go")
}
