//! What the board tells of a call: its result, and what it makes.
ghost use Rattle.std.specs.Prelude.{◌≡◌, ◌<◌, ◌∷◌, [], List, Some, true, IfOk, is_some};
ghost use Rattle.mpx_num.specs.declared.own.Operation.{Operation};
ghost use Rattle.mpx_board.specs.Boards.{Front, join, join_all, only, told};
ghost use Rattle.mpx_board.specs.Looks.{look};
ghost use Rattle.mpx_board.specs.Prepared.{IsReady};
ghost use Rattle.mpx_post.specs.Drafts.{most_calls};
ghost use Rattle.mpx_node.specs.Nodes.{births_of, children_on, outcome_on, result_of};

use crate::finished::Finished;
use join_core::{Exact, OutOfMemory};
use mpx_birth::Birth;
use mpx_board::{Board, Prepared};
use mpx_group::Proc;
use mpx_name::Name;
use mpx_num::{Listing, Ops};
use mpx_value::{Outcome, children, makes_none, outcome};
use std::alloc::Global;

// Whether the board has the birth and the posts of all members to a call, of which the process is one. No operation is asked
// for that.
pub fn has_result(board: &Board, name: &Name, me: Proc, call: u32) -> bool
    ensures { result ≡ is_some (result_of [] (look board.now) name.now me call) }
{
    match board.birth(name) {
        None => false,
        Some(birth) => birth.rank_of(me).is_some() && board.has_row(name, call),
    }
}

// The result of a call on a context, where the board has the birth and the posts of all members.
pub fn finished(
    alloc: Global,
    board: &Board,
    name: &Name,
    me: Proc,
    call: u32,
    ops: &Ops,
) -> Result<Option<Finished>, OutOfMemory>
    requires { call < most_calls }
    ensures { IfOk result (λ o. o ≡ result_of (⟦<Ops as Listing>⟧.operations ops.now) (look board.now) name.now me call) }
{
    let Some(post) = board.holds(name, call, me) else {
        return Ok(None);
    };
    let Some(outcome) = outcome_on(alloc, board, name, me, call, ops)? else {
        return Ok(None);
    };
    match post.copy(alloc) {
        Ok(mine) => Ok(Some(Finished { mine, outcome })),
        Err(e) => {
            drop(outcome);
            Err(e)
        }
    }
}

// What a call gives the process, where the board has the birth and the posts of all members, and it is one.
fn outcome_on(
    alloc: Global,
    board: &Board,
    name: &Name,
    me: Proc,
    call: u32,
    ops: &Ops,
) -> Result<Option<Outcome>, OutOfMemory>
    requires { call < most_calls }
    ensures { IfOk result (λ o. o ≡ outcome_on (⟦<Ops as Listing>⟧.operations ops.now) (look board.now) name.now me call) }
{
    let Some(birth) = board.birth(name) else {
        return Ok(None);
    };
    let Some(row) = board.row(alloc, name, call)? else {
        return Ok(None);
    };
    let Some(rank) = birth.rank_of(me) else {
        return Ok(None);
    };
    Ok(Some(outcome(alloc, birth, &row, name, call, rank, ops)?))
}

// Whether the first member's post tells that the call makes no communicators.
fn makes_none_on(board: &Board, name: &Name, call: u32, birth: &Birth) -> bool
    ensures { result ≡ true → (ops : List Operation) → told ((look board.now).contexts name.now).birth ≡ Some birth.now → children_on ops (look board.now) name.now call ≡ [] }
{
    match board.holds(name, call, birth.members()[0]) {
        None => false,
        Some(first) => makes_none(first),
    }
}

// The communicators that a call makes, where the board has the birth and the posts of all members: names and births.
pub fn children_on(
    alloc: Global,
    board: &Board,
    name: &Name,
    call: u32,
    ops: &Ops,
) -> Result<Vec<(Name, Birth)>, OutOfMemory>
    requires { call < most_calls }
    ensures { IfOk result (λ made. made.items ≡ children_on (⟦<Ops as Listing>⟧.operations ops.now) (look board.now) name.now call) }
{
    let Some(birth) = board.birth(name) else {
        return Ok(Vec::new(alloc));
    };
    if makes_none_on(board, name, call, birth) {
        return Ok(Vec::new(alloc));
    }
    let Some(row) = board.row(alloc, name, call)? else {
        return Ok(Vec::new(alloc));
    };
    children(alloc, birth, &row, name, call, ops)
}

// What a process tells that has harvested so many calls, and of what the last of these made.
fn harvest_part(
    alloc: Global,
    name: &Name,
    me: Proc,
    number: u32,
    made: &[(Name, Birth)],
) -> Result<Board, OutOfMemory>
    ensures { IfOk result (λ part. look part ≡ join_all (only (Front name.now me number) ∷ births_of made.now)) }
{
    let mut part = Board::new(alloc);
    part.raise_front(alloc, name, me, number)?;
    for (child, birth) in made {
        part.add_birth(alloc, child, birth.copy(alloc)?)?;
    }
    Ok(part)
}

// Makes that ready to be joined. The board stays the same.
pub fn prepared_harvest(
    alloc: Global,
    board: &mut Board,
    name: &Name,
    me: Proc,
    number: u32,
    made: &[(Name, Birth)],
) -> Result<Prepared, OutOfMemory>
    ensures same { look board.new ≡ look board.old }
    ensures ready { IfOk result (λ prepared. IsReady prepared board.new (join (look board.old) (join_all (only (Front name.now me number) ∷ births_of made.now)))) }
{
    let part = harvest_part(alloc, name, me, number, made)?;
    board.prepare(alloc, &part)
}
