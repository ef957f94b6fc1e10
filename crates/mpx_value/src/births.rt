//! Which communicators a call makes.
ghost use Rattle.std.specs.Prelude.{◌≡◌, ◌<◌, ◌≤◌, ◌^◌, ◌∷◌, [], ℕ, List, IfOk, OnErr, Some, false, true, not, length};
ghost use Rattle.std.specs.List.{All};
ghost use Rattle.mpx_group.specs.Group.{has_twice};
ghost use Rattle.mpx_kind.specs.Kinds.{makes_communicators};
ghost use Rattle.mpx_name.specs.declared.steps.Step.TheVariants.{Child};
ghost use Rattle.mpx_post.specs.Agreement.{IsFine, first_of};
ghost use Rattle.mpx_birth.specs.Births.{BirthView, of_members};
ghost use Rattle.mpx_name.specs.Name.{Name as NameView};
ghost use Rattle.mpx_num.specs.declared.own.Operation.{Operation};
ghost use Rattle.mpx_post.specs.Rows.{RowView};
ghost use Rattle.mpx_post.specs.Drafts.{most_calls, most_steps};
ghost use Rattle.mpx_graph.specs.Graphs.{adjacent, general};
ghost use Rattle.mpx_value.specs.Children.{MakesSome, children, children_in, has_room as has_room_for, named_children, only_child, processes};

use crate::groups::created;
use crate::splits::split;
use join_core::{Exact, OutOfMemory};
use mpx_birth::Birth;
use mpx_graph::{topology_adjacent, topology_general};
use mpx_group::Proc;
use mpx_kind::{Kind, NewCommunicator};
use mpx_match::{Verdict, verdict};
use mpx_name::{Name, NameError};
use mpx_num::{Listing, Ops};
use mpx_post::{Post, Row};
use std::alloc::Global;

// So many steps a name has at most.
const MOST_STEPS: usize = 8;

/// The communicators that the call with this number makes on a context with this name and birth, of which this is the row
/// of posts: their names in rising order, with their births. There are none where the posts don't fit together, where the
/// name has eight steps, and where the kind makes none: then none are told without memory.
#[tactic(auto, unfolding(crate::specs::Children::children))]
pub fn children(
    alloc: Global,
    birth: &Birth,
    row: &Row<'_>,
    name: &Name,
    call: u32,
    ops: &Ops,
) -> Result<Vec<(Name, Birth)>, OutOfMemory>
    requires members { length row.now ≡ length birth.now.members }
    requires call { call < most_calls }
    ensures made { IfOk result (λ made. made.items ≡ named_children name.now call (children (⟦<Ops as Listing>⟧.operations ops.now) birth.now row.now name.now call)) }
    ensures memory { OnErr result (MakesSome (⟦<Ops as Listing>⟧.operations ops.now) birth.now row.now name.now) }
{
    let Kind::NewCommunicator(new) = row.kind() else {
        return Ok(Vec::new(alloc));
    };
    match verdict(birth, row, ops) {
        Verdict::Fault(_) => Ok(Vec::new(alloc)),
        Verdict::Fine => {
            if has_room(name) {
                made(alloc, birth, row, new, name, call)
            } else {
                Ok(Vec::new(alloc))
            }
        }
    }
}

/// Whether rank 0's post is of a kind that makes no communicators: then the call makes none, whatever the other members post.
pub fn makes_none(first: &Post) -> bool
    ensures kind { result ≡ not (makes_communicators first.now.kind) }
    ensures none { result ≡ true → (ops : List Operation) (birth : BirthView) (row : RowView) (name : NameView) (call : ℕ) → first_of row ≡ first.now → children ops birth row name call ≡ [] }
{
    !first.kind().makes_communicators()
}

// Whether the name can have one step more.
pub(crate) fn has_room(name: &Name) -> bool
    ensures { result ≡ has_room_for name.now }
{
    name.depth() < MOST_STEPS
}

// What a fine row of this kind makes.
pub(crate) fn made(
    alloc: Global,
    birth: &Birth,
    row: &Row<'_>,
    new: NewCommunicator,
    name: &Name,
    call: u32,
) -> Result<Vec<(Name, Birth)>, OutOfMemory>
    requires fine { IsFine row.now }
    requires kind { (first_of row.now).kind ≡ Kind.NewCommunicator new }
    requires room { length name.now < most_steps }
    requires members { length row.now ≡ length birth.now.members }
    requires call { call < most_calls }
    ensures { IfOk result (λ made. made.items ≡ named_children name.now call (children_in (first_of row.now).kind birth.now row.now)) }
{
    match new {
        NewCommunicator::Dup => only_child(alloc, birth.copy(alloc)?, name, call),
        NewCommunicator::Split => split(alloc, birth, row, name, call),
        NewCommunicator::Create => created(alloc, birth, row, name, call),
        NewCommunicator::CreateGroup => only_child(alloc, birth.without_topology()?, name, call),
        NewCommunicator::DistGraph => {
            only_child(alloc, general_graph(alloc, birth, row)?, name, call)
        }
        NewCommunicator::DistGraphAdjacent => {
            only_child(alloc, adjacent_graph(alloc, birth, row)?, name, call)
        }
    }
}

// The birth of the general graph: the members, with the topology of all edges that they give.
fn general_graph(alloc: Global, birth: &Birth, row: &Row<'_>) -> Result<Birth, OutOfMemory>
    requires fine { IsFine row.now }
    requires members { length row.now ≡ length birth.now.members }
    ensures { IfOk result (λ graph. graph ≡ record { members = birth.now.members; topology = Some (general row.now) }) }
{
    let topology = topology_general(alloc, row)?;
    birth.with_topology(topology)
}

// The birth of the adjacent graph: the members, with the topology of the neighbours that each names as its own.
fn adjacent_graph(alloc: Global, birth: &Birth, row: &Row<'_>) -> Result<Birth, OutOfMemory>
    requires fine { IsFine row.now }
    requires members { length row.now ≡ length birth.now.members }
    ensures { IfOk result (λ graph. graph ≡ record { members = birth.now.members; topology = Some (adjacent row.now) }) }
{
    let topology = topology_adjacent(alloc, row)?;
    birth.with_topology(topology)
}

// The one communicator that came to be so.
fn only_child(
    alloc: Global,
    birth: Birth,
    name: &Name,
    call: u32,
) -> Result<Vec<(Name, Birth)>, OutOfMemory>
    requires room { length name.now < most_steps }
    requires call { call < most_calls }
    ensures { IfOk result (λ made. made.items ≡ named_children name.now call (only_child birth)) }
{
    let name = child_name(alloc, name, call, 0)?;
    let mut made = Vec::new(alloc);
    made.push((name, birth))?;
    Ok(made)
}

// The child of this colour of these members.
pub(crate) fn child(
    alloc: Global,
    name: &Name,
    call: u32,
    colour: u32,
    members: Vec<Proc>,
) -> Result<(Name, Birth), OutOfMemory>
    requires room { length name.now < most_steps }
    requires call { call < most_calls }
    requires colour { colour < 2 ^ 31 }
    requires some { 0 < length members.items }
    requires few { length members.items ≤ 64 }
    requires distinct { has_twice members.items ≡ false }
    ensures { IfOk result (λ child. child ≡ (Child call colour ∷ name.now, of_members members.items)) }
{
    let name = child_name(alloc, name, call, colour)?;
    let birth = Birth::of_members(alloc, members)?;
    Ok((name, birth))
}

fn child_name(alloc: Global, name: &Name, call: u32, colour: u32) -> Result<Name, OutOfMemory>
    requires room { length name.now < most_steps }
    requires call { call < most_calls }
    requires colour { colour < 2 ^ 31 }
    ensures { IfOk result (λ child. child ≡ Child call colour ∷ name.now) }
{
    match name.child(alloc, call, colour) {
        Ok(child) => Ok(child),
        Err(NameError::OutOfMemory) => Err(OutOfMemory),
        Err(NameError::DepthUsedUp) => unreachable!(),
    }
}

// The processes with these ranks, of which none stands twice.
pub(crate) fn processes(
    alloc: Global,
    birth: &Birth,
    ranks: &[u8],
) -> Result<Vec<Proc>, OutOfMemory>
    requires within { All (λ r. r < length birth.now.members) ranks.now }
    requires differ { has_twice ranks.now ≡ false }
    ensures value { IfOk result (λ found. found.items ≡ processes birth.now.members ranks.now) }
    ensures distinct { IfOk result (λ found. has_twice found.items ≡ false) }
{
    let members = birth.members();
    let mut found = Vec::new(alloc);
    for &rank in ranks {
        found.push(members[usize::from(rank)])?;
    }
    Ok(found)
}
