//! What ranks do at their desks, and what they get.
use crate::boards::takes;
use crate::calls::make_call;
use crate::looks::{Look, is_seen, sum_in};
use join_core::{Exact, OutOfMemory};
use mpx_board::PruneError;
use mpx_comm::{CallError, Comm, Desk, Request, Tested, WaitError};
use mpx_kind::{Call, Kind, Mode, Reduction};
use mpx_node::{Finished, Harvest, Node};
use mpx_num::{Numbers, Op, Ops, Ty};
use mpx_post::PostError;
use std::alloc::Global;
use std::mem;
use std::test::Fail;
use test_drafts::bare;
use test_drafts::contexts::{On, WORLD, name_of, sum_of};

// What a rank does, and what it gets. Requests are told by their places in its list.
#[derive(Clone, Copy)]
pub enum Act {
    // It posts its number to a sum by all: the request is the last one of the list.
    Starts(i128),
    // It may neither post nor open a gathering.
    MayNot(PostError),
    // A blocking call, without a turn, that isn't done: the request is the last one of the list.
    Calls(Kind),
    Tests(usize, Told),
    Waits(usize, Told),
    WaitsAndForgets(usize, Told),
    // Whether the request is done, which stays open.
    IsDone(usize, bool),
    // All requests of the list: what the first one gave.
    TestsAll(Told),
    WaitsAll(Told),
    TestsAny(Told),
    // For any open request, a turn.
    WaitsAny(Told),
    // So many open requests are done.
    TestsSome(usize),
    WaitsSome(usize),
    Turns,
    // Of whom it waits for, at most one: of this rank, or of none.
    Awaits(usize, Option<u8>),
    // It lets go what no open request is for: so many results then.
    Forgets(u32),
    // It takes the board of this frame.
    Takes(&'static [u8]),
    Harvests(On, Harvest),
    Prunes(On, u32, Result<(), PruneError>),
    Sees(On, Look),
}

// What requests come to.
#[derive(Clone, Copy, PartialEq, Eq)]
pub enum Told {
    // It isn't done: each request is handed back, and is the last one of the list.
    NotYet,
    // Its result was let go: the same.
    LetGo,
    // Of a sum, whose own post has this number: the number and the sum.
    Sum(i128, i128),
    // The call with this number is the first one that is done.
    First(u32),
    // None is done, or none is open.
    None,
}

// A rank: its desk, the communicator of all, and its requests.
#[derive(Drop)]
pub struct Member {
    pub desk: Desk<Node>,
    pub comm: Comm,
    pub requests: Vec<Request>,
}

// Whether it is the sum, beside the own post of the number.
fn is_sum(alloc: Global, finished: &Finished, own: i128, sum: i128) -> Result<bool, OutOfMemory> {
    let given = [own];
    let mut posted = sum_of(&given);
    posted.call = Call::Reduction(Reduction::Allreduce, Mode::Nonblocking);
    let mine = bare(alloc, &posted)?;
    let is_mine = match &mine {
        Some(mine) => finished.mine.same(mine),
        None => false,
    };
    drop(mine);
    Ok(is_mine && sum_in(finished) == Some(sum))
}

fn gives(alloc: Global, finished: &Finished, wanted: Told) -> Result<bool, OutOfMemory> {
    match wanted {
        Told::Sum(own, sum) => is_sum(alloc, finished, own, sum),
        _ => Ok(false),
    }
}

fn first_gives(alloc: Global, all: &[Finished], wanted: Told) -> Result<bool, OutOfMemory> {
    match all.first() {
        Some(finished) => gives(alloc, finished, wanted),
        None => Ok(false),
    }
}

fn keeps(member: &mut Member, request: Request, so: bool) -> Result<bool, OutOfMemory> {
    member.requests.push(request)?;
    Ok(so)
}

fn starts(alloc: Global, member: &mut Member, number: i128, ops: &Ops) -> Result<bool, Fail> {
    let items = Numbers::one(number);
    let request = member
        .desk
        .iallreduce(alloc, &member.comm, Op::Sum, Ty::I64, items, ops)?;
    Ok(keeps(member, request, true)?)
}

fn may_not(alloc: Global, member: &mut Member, why: PostError, ops: &Ops) -> bool {
    let items = Numbers::one(2);
    let desk = &mut member.desk;
    let posted = desk.iallreduce(alloc, &member.comm, Op::Sum, Ty::I64, items, ops);
    let opened = desk.open_gathering(alloc, &member.comm, 9, Numbers::one(0));
    posted.err() == Some(why) && opened.err() == Some(why)
}

fn calls(alloc: Global, member: &mut Member, kind: Kind, ops: &Ops) -> Result<bool, OutOfMemory> {
    match make_call(alloc, &mut member.desk, &member.comm, kind, ops) {
        Err(CallError::StillWaiting(request)) => keeps(member, request, true),
        other => {
            drop(other);
            Ok(false)
        }
    }
}

// The request at this place, which goes out of the list.
fn taken(member: &mut Member, at: usize) -> Result<Request, Fail> {
    if at < member.requests.len() {
        return Ok(member.requests.remove(at));
    }
    Err(Fail::from("no request"))
}

// A wait's answer as that of a test.
fn waited<F: Drop, R: Drop>(answer: Result<F, WaitError<R>>) -> Option<Tested<F, R>> {
    match answer {
        Ok(finished) => Some(Tested::Done(finished)),
        Err(WaitError::StillWaiting(requests)) => Some(Tested::NotYet(requests)),
        Err(WaitError::LetGo(requests)) => Some(Tested::LetGo(requests)),
        Err(other) => {
            drop(other);
            None
        }
    }
}

// Whether a request came to that.
fn comes_to(
    alloc: Global,
    member: &mut Member,
    came: Tested<Finished, Request>,
    wanted: Told,
) -> Result<bool, OutOfMemory> {
    match came {
        Tested::NotYet(request) => keeps(member, request, wanted == Told::NotYet),
        Tested::LetGo(request) => keeps(member, request, wanted == Told::LetGo),
        Tested::Done(finished) => {
            let is_so = gives(alloc, &finished, wanted);
            drop(finished);
            is_so
        }
    }
}

fn tests(
    alloc: Global,
    member: &mut Member,
    at: usize,
    wanted: Told,
    ops: &Ops,
) -> Result<bool, Fail> {
    let request = taken(member, at)?;
    let came = member.desk.test(alloc, request, ops)?;
    Ok(comes_to(alloc, member, came, wanted)?)
}

fn waits(
    alloc: Global,
    member: &mut Member,
    at: usize,
    forgets: bool,
    wanted: Told,
    ops: &Ops,
) -> Result<bool, Fail> {
    let request = taken(member, at)?;
    let answer = if forgets {
        member.desk.wait_and_forget(alloc, request, 0, ops)
    } else {
        member.desk.wait(alloc, request, 0, ops)
    };
    let came = waited(answer).ok_or("no turn")?;
    Ok(comes_to(alloc, member, came, wanted)?)
}

fn is_done(
    alloc: Global,
    member: &mut Member,
    at: usize,
    done: bool,
    ops: &Ops,
) -> Result<bool, OutOfMemory> {
    match member.requests.get(at) {
        Some(request) => Ok(member.desk.status(alloc, request, ops)? == done),
        None => Ok(false),
    }
}

// Whether all requests came to that.
fn all_come_to(
    alloc: Global,
    member: &mut Member,
    came: Tested<Vec<Finished>, Vec<Request>>,
    wanted: Told,
) -> Result<bool, OutOfMemory> {
    match came {
        Tested::NotYet(requests) => {
            member.requests = requests;
            Ok(wanted == Told::NotYet)
        }
        Tested::LetGo(requests) => {
            member.requests = requests;
            Ok(wanted == Told::LetGo)
        }
        Tested::Done(all) => {
            let is_so = first_gives(alloc, &all, wanted);
            drop(all);
            is_so
        }
    }
}

fn tests_all(alloc: Global, member: &mut Member, wanted: Told, ops: &Ops) -> Result<bool, Fail> {
    let requests = mem::replace(&mut member.requests, Vec::new(alloc));
    let came = member.desk.testall(alloc, requests, ops)?;
    Ok(all_come_to(alloc, member, came, wanted)?)
}

fn waits_all(alloc: Global, member: &mut Member, wanted: Told, ops: &Ops) -> Result<bool, Fail> {
    let requests = mem::replace(&mut member.requests, Vec::new(alloc));
    let came = waited(member.desk.waitall(alloc, requests, 1, ops)).ok_or("no turn")?;
    Ok(all_come_to(alloc, member, came, wanted)?)
}

fn first_of(done: Option<(Request, Finished)>) -> Told {
    let told = match &done {
        Some((request, _)) => Told::First(request.call()),
        None => Told::None,
    };
    drop(done);
    told
}

fn tests_any(
    alloc: Global,
    member: &mut Member,
    wanted: Told,
    ops: &Ops,
) -> Result<bool, OutOfMemory> {
    let done = member.desk.testany(alloc, ops)?;
    Ok(first_of(done) == wanted)
}

fn waits_any(alloc: Global, member: &mut Member, wanted: Told, ops: &Ops) -> bool {
    match member.desk.waitany(alloc, 1, ops) {
        Ok(done) => first_of(done) == wanted,
        Err(WaitError::StillWaiting(())) => wanted == Told::NotYet,
        Err(_) => false,
    }
}

fn tests_some(
    alloc: Global,
    member: &mut Member,
    count: usize,
    ops: &Ops,
) -> Result<bool, OutOfMemory> {
    let done = member.desk.testsome(alloc, ops)?;
    let same = done.len() == count;
    drop(done);
    Ok(same)
}

fn waits_some(alloc: Global, member: &mut Member, count: usize, ops: &Ops) -> bool {
    match member.desk.waitsome(alloc, 1, ops) {
        Ok(done) => {
            let same = done.len() == count;
            drop(done);
            same
        }
        Err(_) => false,
    }
}

fn awaits(alloc: Global, member: &Member, at: usize, wanted: Option<u8>) -> Result<bool, Fail> {
    let request = member.requests.get(at).ok_or("no request")?;
    let ranks = member.desk.awaited(alloc, request)?;
    let is_so = match ranks.as_slice() {
        [] => wanted.is_none(),
        [rank] => wanted == Some(*rank),
        _ => false,
    };
    drop(ranks);
    Ok(is_so)
}

fn forgets(alloc: Global, member: &mut Member, gone: u32) -> Result<bool, Fail> {
    member.desk.forget(&member.comm);
    is_seen(alloc, member.desk.host(), WORLD, Look::Forgotten(gone))
}

fn harvests(
    alloc: Global,
    desk: &mut Desk<Node>,
    on: On,
    wanted: Harvest,
    ops: &Ops,
) -> Result<bool, Fail> {
    let name = name_of(alloc, on)?;
    let told = desk.harvest(alloc, &name, ops);
    drop(name);
    Ok(told? == wanted)
}

fn prunes(
    alloc: Global,
    desk: &mut Desk<Node>,
    on: On,
    number: u32,
    wanted: Result<(), PruneError>,
) -> Result<bool, Fail> {
    let name = name_of(alloc, on)?;
    let told = desk.prune(&name, number);
    drop(name);
    Ok(told == wanted)
}

// Of what takes no request out of the list, on no context by its name.
fn does_at_once(
    alloc: Global,
    member: &mut Member,
    act: Act,
    ops: &Ops,
) -> Result<bool, OutOfMemory> {
    match act {
        Act::MayNot(why) => Ok(may_not(alloc, member, why, ops)),
        Act::Calls(kind) => calls(alloc, member, kind, ops),
        Act::IsDone(at, done) => is_done(alloc, member, at, done, ops),
        Act::TestsAny(wanted) => tests_any(alloc, member, wanted, ops),
        Act::WaitsAny(wanted) => Ok(waits_any(alloc, member, wanted, ops)),
        Act::TestsSome(count) => tests_some(alloc, member, count, ops),
        Act::WaitsSome(count) => Ok(waits_some(alloc, member, count, ops)),
        Act::Turns => Ok(member.desk.turn(alloc, 3).is_ok()),
        _ => Ok(false),
    }
}

// Whether the rank that does this gets that.
pub fn does(alloc: Global, member: &mut Member, act: Act, ops: &Ops) -> Result<bool, Fail> {
    match act {
        Act::Starts(number) => starts(alloc, member, number, ops),
        Act::Tests(at, wanted) => tests(alloc, member, at, wanted, ops),
        Act::Waits(at, wanted) => waits(alloc, member, at, false, wanted, ops),
        Act::WaitsAndForgets(at, wanted) => waits(alloc, member, at, true, wanted, ops),
        Act::TestsAll(wanted) => tests_all(alloc, member, wanted, ops),
        Act::WaitsAll(wanted) => waits_all(alloc, member, wanted, ops),
        Act::Awaits(at, wanted) => awaits(alloc, member, at, wanted),
        Act::Forgets(gone) => forgets(alloc, member, gone),
        Act::Takes(frame) => takes(alloc, &mut member.desk, frame),
        Act::Harvests(on, wanted) => harvests(alloc, &mut member.desk, on, wanted, ops),
        Act::Prunes(on, number, wanted) => prunes(alloc, &mut member.desk, on, number, wanted),
        Act::Sees(on, look) => is_seen(alloc, member.desk.host(), on, look),
        _ => Ok(does_at_once(alloc, member, act, ops)?),
    }
}
