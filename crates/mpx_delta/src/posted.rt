//! What all processes say that they have, as far as it tells posts apart that a board holds.
ghost use Rattle.std.specs.Prelude.{◌≡◌, ◌-◌, ◌<◌, ◌≤◌, IfOk, Some};
ghost use Rattle.std.specs.Option.{option_copied, option_map};
ghost use Rattle.mpx_board.specs.Looks.{look, parts_of};
ghost use Rattle.mpx_board.specs.Views.{view_of_acks, view_of_all_acks, view_of_lifted, view_of_numbers};
ghost use Rattle.mpx_digest.specs.Digest.{numbers_acked};
ghost use Rattle.mpx_delta.specs.Digests.{common_on, without};
ghost use Rattle.mpx_delta.specs.Posted.{above, least_above, least_posted, lesser, said_on};

use crate::least::place_from;
use join_core::{Exact, Max, OutOfMemory};
use join_nest::{Keyed, Lift};
use mpx_board::{Board, Digest, Lifted, VersionVector};
use mpx_digest::{number_near, value_near};
use mpx_group::Proc;
use mpx_name::Name;
use std::alloc::Global;

// For each context with posts, and each process, the least number that one of the first so many processes acknowledges, where
// that is above the first call with posts: without the posts below these the board is as without those that all have.
pub fn common_of_posts(
    alloc: Global,
    board: &Board,
    said: &Board,
    processes: u8,
) -> Result<Digest, OutOfMemory>
    requires some { 0 < processes }
    requires few { processes ≤ 64 }
    ensures { IfOk result (λ made. without (numbers_acked (view_of_acks made)) (look board.now) ≡ without (common_on processes (look said.now)) (look board.now)) }
{
    let mut made = Vec::new(alloc);
    let mut near = 0;
    for (name, known) in board.pair().first.entries() {
        let numbers = least_posted(alloc, &said.pair().second, name, known, processes, near)?;
        if !numbers.is_empty() {
            made.push((name.copy(alloc)?, numbers))?;
        }
        near = near.wrapping_add(1);
    }
    Ok(Keyed::from_rising(made))
}

// Those of one context, whose name is looked for at the place first: without calls, and of a dead one, there are none.
fn least_posted(
    alloc: Global,
    acks: &Keyed<Proc, Digest>,
    name: &Name,
    known: &Lifted,
    processes: u8,
    near: usize,
) -> Result<VersionVector, OutOfMemory>
    requires some { 0 < processes }
    requires few { processes ≤ 64 }
    ensures { IfOk result (λ made. view_of_numbers made ≡ least_posted (view_of_all_acks acks.now) (processes - 1) name.now (view_of_lifted known.now)) }
{
    match known {
        Lift::Dead => Ok(Keyed::new(alloc)),
        Lift::Live(entry) => match entry.second.second.entries() {
            [] => Ok(Keyed::new(alloc)),
            [first, ..] => least_above(alloc, acks, name, first.0, processes, near),
        },
    }
}

// For each process the least number that one of so many acknowledges on the context, where it is above the call.
fn least_above(
    alloc: Global,
    acks: &Keyed<Proc, Digest>,
    name: &Name,
    call: u32,
    processes: u8,
    near: usize,
) -> Result<VersionVector, OutOfMemory>
    requires some { 0 < processes }
    requires few { processes ≤ 64 }
    ensures { IfOk result (λ made. view_of_numbers made ≡ least_above (view_of_all_acks acks.now) name.now call (processes - 1)) }
{
    let mut made = first_above(alloc, acks, name, call, near)?;
    for number in 1..processes {
        if made.is_empty() {
            return Ok(made);
        }
        made = lesser_on(alloc, acks, name, Proc::new(number), call, &made, near)?;
    }
    Ok(made)
}

// Those of the first process.
fn first_above(
    alloc: Global,
    acks: &Keyed<Proc, Digest>,
    name: &Name,
    call: u32,
    near: usize,
) -> Result<VersionVector, OutOfMemory>
    ensures { IfOk result (λ made. view_of_numbers made ≡ above call (said_on (view_of_all_acks acks.now) name.now 0)) }
{
    match said_on(acks, name, Proc::new(0), near) {
        None => Ok(Keyed::new(alloc)),
        Some(numbers) => above(alloc, numbers, call),
    }
}

// The lesser ones of these and those of the process.
fn lesser_on(
    alloc: Global,
    acks: &Keyed<Proc, Digest>,
    name: &Name,
    process: Proc,
    call: u32,
    numbers: &VersionVector,
    near: usize,
) -> Result<VersionVector, OutOfMemory>
    ensures { IfOk result (λ made. view_of_numbers made ≡ lesser call (view_of_numbers numbers.now) (said_on (view_of_all_acks acks.now) name.now process)) }
{
    match said_on(acks, name, process, near) {
        None => Ok(Keyed::new(alloc)),
        Some(others) => lesser(alloc, numbers, others, call),
    }
}

// What the process says of the context, whose name is looked for at the place first.
fn said_on<'a>(
    acks: &'a Keyed<Proc, Digest>,
    name: &Name,
    process: Proc,
    near: usize,
) -> Option<&'a VersionVector>
    ensures { option_map view_of_numbers (option_copied result) ≡ said_on (view_of_all_acks acks.now) name.now process }
{
    match value_near(acks, process.number() as usize, &process) {
        None => None,
        Some(names) => value_near(names, near, name),
    }
}

// The numbers above the call.
fn above(alloc: Global, numbers: &VersionVector, call: u32) -> Result<VersionVector, OutOfMemory>
    ensures { IfOk result (λ made. view_of_numbers made ≡ above call (Some (view_of_numbers numbers.now))) }
{
    let mut made = Vec::with_capacity(alloc, numbers.len())?;
    for (process, number) in numbers.entries() {
        if call < number.0 {
            made.push((*process, *number))?;
        }
    }
    Ok(Keyed::from_rising(made))
}

// Of these numbers the lesser ones of both, where they are above the call, in one walk of both.
fn lesser(
    alloc: Global,
    numbers: &VersionVector,
    others: &VersionVector,
    call: u32,
) -> Result<VersionVector, OutOfMemory>
    ensures { IfOk result (λ made. view_of_numbers made ≡ lesser call (view_of_numbers numbers.now) (Some (view_of_numbers others.now))) }
{
    let mut made = Vec::with_capacity(alloc, numbers.len())?;
    let mut at = 0;
    for (process, number) in numbers.entries() {
        at = place_from(others.entries(), at, process);
        let least = number.0.min(number_near(others, at, *process));
        if call < least {
            made.push((*process, Max(least)))?;
        }
    }
    Ok(Keyed::from_rising(made))
}
