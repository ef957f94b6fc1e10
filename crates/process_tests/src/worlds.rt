//! Rows of what processes of a world do, and what they are told.
ghost use Rattle.std.specs.Prelude.{◌≡◌, []};

use join_core::OutOfMemory;
use mpx_board::PruneError;
use mpx_group::Proc;
use mpx_name::Name;
use mpx_num::{Listing, Numbers, Ops};
use mpx_world::{Cut, Event, Names, Reply, World};
use std::alloc::Global;
use std::marker::Brand;
use std::test::Fail;
use test_drafts::contexts::{On, name_of, sum_of};
use test_drafts::{Drafted, draft, just, kinds, proc};

// What a process does, on the context of all.
#[derive(Clone, Copy)]
pub enum Act {
    // It gives this number to a sum by all.
    Sum(i128),
    Barrier,
    Harvest,
    Prune(u32),
    // It sends its whole board.
    Send,
    // It sends what it knows of no context.
    SendNothing,
    Take(usize),
    // It opens the gathering of ranks 0 and 2.
    Gather,
    // It lets go its results of the calls below this one.
    Forget(u32),
}

// What it is told.
#[derive(Clone, Copy)]
pub enum Told {
    Posted(u32),
    Harvested(u32),
    NotYet,
    NotOpened,
    Opened,
    Pruned,
    AboveFloor(u32),
    Sent(usize),
    Taken,
    Forgot,
    NoSuchProcess,
    NoSuchPart,
}

// So many times a process does the same, and is told this the first time; numbers in what it is told go up by one each time.
pub type Row = (u32, u8, Act, Told);

fn posts(alloc: Global, proc: Proc, drafted: &Drafted<'_>) -> Result<Event, OutOfMemory> {
    let draft = draft(alloc, drafted)?;
    let name = Name::world(alloc);
    Ok(Event::Post { proc, name, draft })
}

fn gathers(alloc: Global, proc: Proc) -> Result<Event, OutOfMemory> {
    let ranks = Numbers::new(alloc, vec![in alloc; 0, 2]?)?;
    let parent = Name::world(alloc);
    let tag = 9;
    Ok(Event::Gather {
        proc,
        parent,
        tag,
        ranks,
    })
}

fn event(alloc: Global, proc: Proc, act: Act) -> Result<Event, OutOfMemory> {
    match act {
        Act::Sum(item) => posts(alloc, proc, &sum_of(&[item])),
        Act::Barrier => posts(alloc, proc, &just(kinds::BARRIER)),
        Act::Gather => gathers(alloc, proc),
        Act::Harvest => {
            let name = Name::world(alloc);
            Ok(Event::Harvest { proc, name })
        }
        Act::Prune(number) => {
            let name = Name::world(alloc);
            Ok(Event::Prune { proc, name, number })
        }
        Act::Send => {
            let cut = Cut::Whole;
            Ok(Event::Send { proc, cut })
        }
        Act::SendNothing => {
            let cut = Cut::Names(Names::new(Vec::new(alloc)));
            Ok(Event::Send { proc, cut })
        }
        Act::Take(part) => Ok(Event::Take { proc, part }),
        Act::Forget(below) => {
            let name = Name::world(alloc);
            Ok(Event::Forget { proc, name, below })
        }
    }
}

// What it is told so many times later.
fn reply(alloc: Global, told: Told, times: u32) -> Result<Reply, Fail> {
    match told {
        Told::Posted(call) => Ok(Reply::Posted(call.wrapping_add(times))),
        Told::Harvested(call) => Ok(Reply::Harvested(call.wrapping_add(times))),
        Told::NotYet => Ok(Reply::NotYet),
        Told::NotOpened => Ok(Reply::NotOpened),
        Told::Opened => Ok(Reply::Opened(name_of(alloc, On::Gathering)?)),
        Told::Pruned => Ok(Reply::Pruned),
        Told::AboveFloor(floor) => Ok(Reply::PruneRefused(PruneError::AboveFloor(floor))),
        Told::Sent(place) => Ok(Reply::Sent(place.wrapping_add(times as usize))),
        Told::Taken => Ok(Reply::Taken),
        Told::Forgot => Ok(Reply::Forgot),
        Told::NoSuchProcess => Ok(Reply::NoSuchProcess),
        Told::NoSuchPart => Ok(Reply::NoSuchPart),
    }
}

fn events(alloc: Global, rows: &[Row]) -> Result<Vec<Event>, OutOfMemory> {
    let mut events = Vec::new(alloc);
    for &(count, number, act, _) in rows {
        for _ in 0..count {
            events.push(event(alloc, proc(number), act)?)?;
        }
    }
    Ok(events)
}

fn replies(alloc: Global, rows: &[Row]) -> Result<Vec<Reply>, Fail> {
    let mut replies = Vec::new(alloc);
    for &(count, _, _, told) in rows {
        for times in 0..count {
            replies.push(reply(alloc, told, times)?)?;
        }
    }
    Ok(replies)
}

// The place of the first reply that isn't what the rows tell, if there is one.
fn first_other(alloc: Global, told: &[Reply], rows: &[Row]) -> Result<Option<usize>, Fail> {
    let wanted = replies(alloc, rows)?;
    let mut first = None;
    for (at, (told, wanted)) in told.iter().zip(wanted.iter()).enumerate() {
        if first.is_none() && told != wanted {
            first = Some(at);
        }
    }
    drop(wanted);
    Ok(first)
}

// The place of the first event that isn't answered as it should be, if there is one.
pub fn first_wrong(
    alloc: Global,
    world: &mut World<Brand>,
    rows: &[Row],
    ops: &Ops,
) -> Result<Option<usize>, Fail>
    requires list { ⟦<Ops as Listing>⟧.operations ops.now ≡ [] }
{
    let events = events(alloc, rows)?;
    let ran = world.run(alloc, &events, ops);
    drop(events);
    let told = ran?;
    let wrong = first_other(alloc, &told, rows);
    drop(told);
    wrong
}
