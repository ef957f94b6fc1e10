//! What a call gives each member.
ghost use Rattle.std.specs.Prelude.{◌≡◌, ◌<◌, length};
ghost use Rattle.mpx_post.specs.Agreement.{AllSuit, IsFine, IsFineWith, first_of};
ghost use Rattle.mpx_post.specs.Drafts.{most_calls};
ghost use Rattle.mpx_value.specs.Values.{GivesOutcome, as_outcome, given_as, new_communicator, place_among, value};

use crate::births::{has_room, made};
use crate::outcomes::Outcome;
use join_core::OutOfMemory;
use mpx_birth::Birth;
use mpx_fold::fold_value;
use mpx_group::Proc;
use mpx_kind::{Kind, NewCommunicator};
use mpx_match::{Fault, FaultKind, Verdict, verdict};
use mpx_move::move_value;
use mpx_name::Name;
use mpx_neigh::neigh_value;
use mpx_num::{Listing, Ops};
use mpx_post::{Row, Value};
use std::alloc::Global;

/// What the call with this number on a context with this name and birth, of which this is the row of posts, gives the
/// member with this rank, by the job's own operations. Memory is wanting only where that has items, or tells of new communicators.
#[tactic(auto, unfolding(crate::specs::Values::value))]
pub fn outcome(
    alloc: Global,
    birth: &Birth,
    row: &Row<'_>,
    name: &Name,
    call: u32,
    rank: u8,
    ops: &Ops,
) -> Result<Outcome, OutOfMemory>
    requires members { length row.now ≡ length birth.now.members }
    requires rank { rank < length row.now }
    requires call { call < most_calls }
    ensures { GivesOutcome (value (⟦<Ops as Listing>⟧.operations ops.now) birth.now row.now name.now call rank) result }
{
    match verdict(birth, row, ops) {
        Verdict::Fault(fault) => Ok(Outcome::Fault(fault)),
        Verdict::Fine => given_as(alloc, birth, row, name, call, rank, ops),
    }
}

// What a fine row gives the member.
fn given_as(
    alloc: Global,
    birth: &Birth,
    row: &Row<'_>,
    name: &Name,
    call: u32,
    rank: u8,
    ops: &Ops,
) -> Result<Outcome, OutOfMemory>
    requires fine { IsFineWith birth.now.topology row.now }
    requires suits { AllSuit (⟦<Ops as Listing>⟧.operations ops.now) row.now }
    requires members { length row.now ≡ length birth.now.members }
    requires rank { rank < length row.now }
    requires call { call < most_calls }
    ensures { GivesOutcome (given_as (first_of row.now).kind (⟦<Ops as Listing>⟧.operations ops.now) birth.now row.now name.now call rank) result }
{
    match row.kind() {
        Kind::Exchange(_) => Ok(as_outcome(move_value(alloc, row, rank)?)),
        Kind::Reduction(_) => Ok(as_outcome(fold_value(alloc, row, rank, ops)?)),
        Kind::Neighbourhood(_) => Ok(as_outcome(neigh_value(alloc, birth, row, rank)?)),
        Kind::NewCommunicator(new) => {
            let process = birth.members()[usize::from(rank)];
            new_communicator(alloc, birth, row, new, name, call, process)
        }
        Kind::Free => Ok(Outcome::Nothing),
    }
}

fn as_outcome(value: Value) -> Outcome
    ensures { result ≡ as_outcome value }
{
    match value {
        Value::Nothing => Outcome::Nothing,
        Value::Absent => Outcome::Absent,
        Value::Items(items) => Outcome::Items(items),
    }
}

// What a fine row gives the process by the communicators that it makes.
fn new_communicator(
    alloc: Global,
    birth: &Birth,
    row: &Row<'_>,
    new: NewCommunicator,
    name: &Name,
    call: u32,
    process: Proc,
) -> Result<Outcome, OutOfMemory>
    requires fine { IsFine row.now }
    requires kind { (first_of row.now).kind ≡ Kind.NewCommunicator new }
    requires members { length row.now ≡ length birth.now.members }
    requires call { call < most_calls }
    ensures { GivesOutcome (new_communicator birth.now row.now name.now call process) result }
{
    if has_room(name) {
        Ok(place_among(made(alloc, birth, row, new, name, call)?, process))
    } else {
        Ok(Outcome::Fault(Fault {
            what: FaultKind::Amount,
            rank: 0,
        }))
    }
}

// Which of these communicators has the process.
fn place_among(made: Vec<(Name, Birth)>, process: Proc) -> Outcome
    ensures { result ≡ place_among made.items process }
{
    for (name, birth) in made {
        if let Some(rank) = birth.rank_of(process) {
            let size = birth.members().len() as u8;
            return Outcome::NewComm { name, size, rank };
        }
    }
    Outcome::Null
}
