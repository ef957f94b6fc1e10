//! Whose posts to a call a process's own board lacks.
ghost use Rattle.std.specs.Prelude.{◌≡◌, ◌++◌, IfOk, OnOk};
ghost use Rattle.std.specs.List.{flat_map};
ghost use Rattle.std.specs.Option.{option_map};
ghost use Rattle.mpx_node.specs.Shown.{node_of};
ghost use Rattle.mpx_eval.specs.Found.{missing_view};
ghost use Rattle.mpx_explain.specs.RunEnds.{has_closed, lacked_by, lacked_of, lacking_at, member_of, with_missing};

use crate::ended::{EndedRun, node_at};
use join_core::{Exact, OutOfMemory};
use mpx_eval::{MissingCall, MissingMember};
use mpx_group::Proc;
use mpx_name::Name;
use mpx_node::Node;
use mpx_script::Word;
use std::alloc::Global;

/// The call with this number on a context, be it asked for by a request, where the node has no result of it and its board lacks posts of it.
pub(crate) fn lacking_call(
    alloc: Global,
    run: &EndedRun<'_>,
    node: &Node,
    request: &Option<Word>,
    name: &Name,
    call: u32,
) -> Result<Option<MissingCall>, OutOfMemory>
    ensures { IfOk result (λ found. option_map missing_view found ≡ lacking_at run.now (node_of node.now) request.now name.now call) }
{
    if call < node.front(name) {
        return Ok(None);
    }
    let missing = lacking(alloc, run, node, name, call)?;
    with_missing(alloc, request, name, call, missing)
}

// A call on that context, with these members, where there are some.
fn with_missing(
    alloc: Global,
    request: &Option<Word>,
    name: &Name,
    call: u32,
    missing: Vec<MissingMember>,
) -> Result<Option<MissingCall>, OutOfMemory>
    ensures { IfOk result (λ found. option_map missing_view found ≡ with_missing request.now name.now call missing.items) }
{
    if missing.is_empty() {
        return Ok(None);
    }
    let request = word_of(alloc, request)?;
    let name = name.copy(alloc)?;
    Ok(Some(MissingCall {
        request,
        name,
        call,
        missing,
    }))
}

// The word of a request once more, where there is one.
fn word_of(alloc: Global, request: &Option<Word>) -> Result<Option<Word>, OutOfMemory>
    ensures { IfOk result (λ copied. copied ≡ request.now) }
{
    match request {
        Some(word) => Ok(Some(word.copy(alloc)?)),
        None => Ok(None),
    }
}

// The members whose posts to the call with this number the node's board lacks, in rank order.
fn lacking(
    alloc: Global,
    run: &EndedRun<'_>,
    node: &Node,
    name: &Name,
    call: u32,
) -> Result<Vec<MissingMember>, OutOfMemory>
    ensures { IfOk result (λ missing. missing.items ≡ lacked_by run.now (node_of node.now) name.now call) }
{
    match node.board().birth(name) {
        Some(birth) => lacking_of(alloc, run, node, name, call, birth.members()),
        None => Ok(Vec::new(alloc)),
    }
}

// Those of these members.
fn lacking_of(
    alloc: Global,
    run: &EndedRun<'_>,
    node: &Node,
    name: &Name,
    call: u32,
    members: &[Proc],
) -> Result<Vec<MissingMember>, OutOfMemory>
    ensures { IfOk result (λ missing. missing.items ≡ flat_map (lacked_of run.now (node_of node.now) name.now call) members.now) }
{
    let mut missing = Vec::new(alloc);
    for member in members {
        push_lacking(run, node, name, call, *member, &mut missing)?;
    }
    Ok(missing)
}

// Adds a member, where the board has no post of it.
fn push_lacking(
    run: &EndedRun<'_>,
    node: &Node,
    name: &Name,
    call: u32,
    member: Proc,
    missing: &mut Vec<MissingMember>,
) -> Result<(), OutOfMemory>
    ensures { OnOk result (missing.new.items ≡ missing.old.items ++ lacked_of run.now (node_of node.now) name.now call member) }
{
    match node.board().holds(name, call, member) {
        Some(_) => Ok(()),
        None => Ok(missing.push(missing_member(run, name, call, member))?),
    }
}

fn missing_member(run: &EndedRun<'_>, name: &Name, call: u32, member: Proc) -> MissingMember
    ensures { result ≡ member_of run.now name.now call member }
{
    MissingMember {
        rank: member.number(),
        closed: has_closed(run, name, call, member),
    }
}

// Whether a process has posted a free on a context, and no post to the call with this number before it, by its own node.
fn has_closed(run: &EndedRun<'_>, name: &Name, call: u32, process: Proc) -> bool
    ensures { result ≡ has_closed run.now name.now call process }
{
    match node_at(run, process.number()) {
        Some(node) => node.has_freed(name) && node.posted(name) <= call,
        None => false,
    }
}
