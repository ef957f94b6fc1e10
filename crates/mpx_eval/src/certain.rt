//! Refusals that are certain before anything is evaluated: of calls on `world`, whose members the script's first line tells.
ghost use Rattle.std.specs.Prelude.{◌≡◌, ◌<◌, ◌≤◌, ◌++◌, IfOk, OnOk, map, option_map, slice_index_or, string_bytes, []};
ghost use Rattle.mpx_birth.specs.Births.{of_members, upto};
ghost use Rattle.mpx_eval.specs.Certain.{certain_at, certain_from, certain_in, refused_on, statement_refused};
ghost use Rattle.mpx_eval.specs.Complaints.{complaints_upto};
ghost use Rattle.mpx_eval.specs.Found.{complaint_view};

use crate::complaints::Complaint;
use join_core::OutOfMemory;
use mpx_birth::Birth;
use mpx_group::Proc;
use mpx_meaning::Line;
use mpx_name::Name;
use mpx_num::{Listing, Ops};
use mpx_post::{At, Draft, PostError};
use mpx_script::Script;
use mpx_statement::{Posting, Statement, Word};
use std::alloc::Global;

/// The statements of a script whose drafts on `world` are refused as first calls there, rank by rank and in their order, each with
/// the line that tells it. Where a rank gets to one it is refused: for that reason, or because the rank has freed `world`. An `Err` is
/// want of memory.
pub fn certain_refusals(
    alloc: Global,
    script: &Script,
    ops: &Ops,
) -> Result<Vec<Complaint>, OutOfMemory>
    ensures { IfOk result (λ found. map complaint_view found.items ≡ certain_in (⟦<Ops as Listing>⟧.operations ops.now) script.now) }
{
    let ranks = script.ranks();
    let world = Birth::world(alloc, ranks)?;
    let mut found = Vec::new(alloc);
    for p in 0..ranks {
        push_certain(
            alloc,
            ranks,
            p,
            script.statements(p),
            &world,
            &mut found,
            ops,
        )?;
    }
    Ok(found)
}

// Adds those of a rank with these statements.
fn push_certain(
    alloc: Global,
    ranks: u8,
    rank: u8,
    statements: &[Statement],
    world: &Birth,
    found: &mut Vec<Complaint>,
    ops: &Ops,
) -> Result<(), OutOfMemory>
    requires world { world.now ≡ of_members (upto ranks) }
    requires few { rank < 64 }
    ensures { OnOk result (map complaint_view found.new.items ≡ map complaint_view found.old.items ++ certain_from (⟦<Ops as Listing>⟧.operations ops.now) ranks rank 0 statements.now) }
{
    for place in 0..statements.len() {
        push_at(
            alloc,
            ranks,
            rank,
            place,
            &statements[place],
            world,
            found,
            ops,
        )?;
    }
    Ok(())
}

// Adds that of a statement, where it has one.
fn push_at(
    alloc: Global,
    ranks: u8,
    rank: u8,
    place: usize,
    statement: &Statement,
    world: &Birth,
    found: &mut Vec<Complaint>,
    ops: &Ops,
) -> Result<(), OutOfMemory>
    requires world { world.now ≡ of_members (upto ranks) }
    requires few { rank < 64 }
    ensures { OnOk result (map complaint_view found.new.items ≡ map complaint_view found.old.items ++ certain_at (⟦<Ops as Listing>⟧.operations ops.now) ranks rank place statement.now) }
{
    let Some(refusal) = statement_refused(alloc, ranks, rank, statement, world, ops) else {
        return Ok(());
    };
    found.push(Complaint {
        rank,
        statement: place,
        line: Line::Refused(refusal),
    })?;
    Ok(())
}

// Why a statement is refused that posts on `world`.
fn statement_refused(
    alloc: Global,
    ranks: u8,
    rank: u8,
    statement: &Statement,
    world: &Birth,
    ops: &Ops,
) -> Option<PostError>
    requires world { world.now ≡ of_members (upto ranks) }
    requires few { rank < 64 }
    ensures { result ≡ statement_refused (⟦<Ops as Listing>⟧.operations ops.now) ranks rank statement.now }
{
    match statement {
        Statement::Post(Posting::Call { on, draft }) => {
            refused_on(alloc, ranks, rank, on, draft, world, ops)
        }
        Statement::Post(Posting::Start { on, draft, .. }) => {
            refused_on(alloc, ranks, rank, on, draft, world, ops)
        }
        Statement::Post(Posting::New { on, draft, .. }) => {
            refused_on(alloc, ranks, rank, on, draft, world, ops)
        }
        Statement::Post(Posting::CreateGroup { .. }) => None,
        Statement::Wait(_) => None,
        Statement::Ask(_) => None,
    }
}

// Why a draft is refused on the communicator of this word, where that is `world`.
fn refused_on(
    alloc: Global,
    ranks: u8,
    rank: u8,
    on: &Word,
    draft: &Draft,
    world: &Birth,
    ops: &Ops,
) -> Option<PostError>
    requires world { world.now ≡ of_members (upto ranks) }
    requires few { rank < 64 }
    ensures { result ≡ refused_on (⟦<Ops as Listing>⟧.operations ops.now) ranks rank on.now draft.now }
{
    if on.as_bytes() != b"world".as_slice() {
        return None;
    }
    let at = At::on(&Name::world(alloc), 0, false);
    draft.refusal(world, Proc::new(rank), &at, ops)
}
