//! Where ranks wait at the end of a run that ended early, and whose posts they lack by what their own boards hold.
ghost use Rattle.std.specs.Prelude.{◌≡◌, ◌-◌, ◌++◌, ◌∷◌, [], ℕ, IfOk, OnOk, cond, length, map};
ghost use Rattle.std.specs.List.{flat_map};
ghost use Rattle.std.specs.Option.{option_copied, option_map};
ghost use Rattle.mpx_node.specs.Shown.{node_of};
ghost use Rattle.mpx_meaning.specs.Ends.{asked_view, waits_at_view};
ghost use Rattle.mpx_eval.specs.Found.{missing_view, waiting_view};
ghost use Rattle.mpx_explain.specs.Firsts.{HasLooked};
ghost use Rattle.mpx_explain.specs.RunEnds.{TellsRun, calls_of, first_view, firsts_at, firsts_of, lacking_of, process_of, served_at, served_by, statements_of_rank, told_of, unmade_at, waits_at, waits_in, with_first, with_firsts};

use crate::ended::{EndedRun, end_at, node_at};
use crate::firsts::{EarlierCall, Firsts, Waiter, push_before};
use crate::lacking::lacking_call;
use join_core::OutOfMemory;
use mpx_eval::{MissingCall, WaitingRank};
use mpx_meaning::{AskedCall, WaitsAt};
use std::alloc::Global;
use std::collections::BTreeMap;

/// Where ranks wait at the end of a run.
#[derive(Drop)]
pub struct RunEnd {
    /// The ranks that wait, with the calls of which their boards lack posts.
    pub waiting: Vec<WaitingRank>,
    /// Those of them whose boards lack posts of earlier calls alone, which come first.
    pub earlier: Vec<EarlierCall>,
    /// Those of them whose boards lack none: the rank, and the place of its statement.
    pub served: Vec<(u8, usize)>,
    /// Those of them that ask for no call's outcome, as they have not come to that statement; of threads alone.
    pub unmade: Vec<(u8, usize)>,
}

/// Where ranks wait at the end of a run, in rank order.
pub(crate) fn run_end(alloc: Global, run: &EndedRun<'_>) -> Result<RunEnd, OutOfMemory>
    ensures { IfOk result (λ end. TellsRun run.now end) }
{
    let mut end = RunEnd {
        waiting: Vec::new(alloc),
        earlier: Vec::new(alloc),
        served: Vec::new(alloc),
        unmade: Vec::new(alloc),
    };
    for rank in 0..run.script.ranks() {
        push_rank(alloc, run, rank, &mut end)?;
    }
    Ok(end)
}

// Adds where a rank waits, if it does.
fn push_rank(
    alloc: Global,
    run: &EndedRun<'_>,
    rank: u8,
    end: &mut RunEnd,
) -> Result<(), OutOfMemory>
    ensures waiting { OnOk result (map waiting_view end.new.waiting.items ≡ map waiting_view end.old.waiting.items ++ told_of run.now rank (λ w. waits_at run.now rank w ∷ [])) }
    ensures earlier { OnOk result (map first_view end.new.earlier.items ≡ map first_view end.old.earlier.items ++ told_of run.now rank (firsts_at run.now rank)) }
    ensures served { OnOk result (end.new.served.items ≡ end.old.served.items ++ told_of run.now rank (served_at run.now rank)) }
    ensures unmade { OnOk result (end.new.unmade.items ≡ end.old.unmade.items ++ told_of run.now rank (unmade_at run.now rank)) }
{
    match waits_in(run, rank) {
        Some(waits) => push_waiting(alloc, run, rank, waits, end),
        None => Ok(()),
    }
}

// Where a rank waits, if it does.
fn waits_in<'r>(run: &EndedRun<'r>, rank: u8) -> Option<&'r WaitsAt>
    ensures { option_map waits_at_view (option_copied result) ≡ waits_in run.now rank }
{
    match end_at(run, rank) {
        Some(end) => end.waits.as_ref(),
        None => None,
    }
}

// Adds a rank that waits.
fn push_waiting(
    alloc: Global,
    run: &EndedRun<'_>,
    rank: u8,
    waits: &WaitsAt,
    end: &mut RunEnd,
) -> Result<(), OutOfMemory>
    ensures waiting { OnOk result (map waiting_view end.new.waiting.items ≡ map waiting_view end.old.waiting.items ++ waits_at run.now rank (waits_at_view waits.now) ∷ []) }
    ensures earlier { OnOk result (map first_view end.new.earlier.items ≡ map first_view end.old.earlier.items ++ firsts_at run.now rank (waits_at_view waits.now)) }
    ensures served { OnOk result (end.new.served.items ≡ end.old.served.items ++ served_at run.now rank (waits_at_view waits.now)) }
    ensures unmade { OnOk result (end.new.unmade.items ≡ end.old.unmade.items ++ unmade_at run.now rank (waits_at_view waits.now)) }
{
    let asked = waits.calls.as_slice();
    let statement = statement_with(run, rank, waits.left);
    let mut firsts = Vec::new(alloc);
    let calls = calls_at(alloc, run, (rank, statement), asked, &mut firsts)?;
    let served = is_served(asked, calls.as_slice(), firsts.as_slice());
    end.waiting.push(WaitingRank {
        rank,
        statement,
        calls,
    })?;
    end.earlier.append(&mut firsts)?;
    push_where(served, (rank, statement), &mut end.served)?;
    push_where(asked.is_empty(), (rank, statement), &mut end.unmade)?;
    Ok(())
}

// The place of the statement at which so many are left.
fn statement_with(run: &EndedRun<'_>, rank: u8, left: usize) -> usize
    ensures { result ≡ length (statements_of_rank run.now rank) - left }
{
    run.script.statements(rank).len().saturating_sub(left)
}

// Whether calls are asked for, none of them lacks posts, and none comes first.
fn is_served(asked: &[AskedCall], calls: &[MissingCall], firsts: &[EarlierCall]) -> bool
    ensures { (place : ℕ × ℕ) → cond result (place ∷ []) [] ≡ served_by place (map asked_view asked.now) (map missing_view calls.now) (map first_view firsts.now) }
{
    let is_unasked = asked.is_empty();
    if is_unasked {
        return false;
    }
    let is_held = calls.is_empty();
    if is_held { firsts.is_empty() } else { false }
}

// Adds a place where this is so.
fn push_where(
    is_so: bool,
    place: (u8, usize),
    places: &mut Vec<(u8, usize)>,
) -> Result<(), OutOfMemory>
    ensures { OnOk result (places.new.items ≡ places.old.items ++ cond is_so (place ∷ []) []) }
{
    if is_so {
        places.push(place)?;
    }
    Ok(())
}

// Those of these calls of which the rank's node has no result and its board lacks posts; and, behind none, those that come first.
fn calls_at(
    alloc: Global,
    run: &EndedRun<'_>,
    place: (u8, usize),
    asked: &[AskedCall],
    firsts: &mut Vec<EarlierCall>,
) -> Result<Vec<MissingCall>, OutOfMemory>
    requires { firsts.old.items ≡ [] }
    ensures calls { IfOk result (λ calls. map missing_view calls.items ≡ calls_of run.now (process_of run.now place.0) (map asked_view asked.now)) }
    ensures firsts { OnOk result (map first_view firsts.new.items ≡ firsts_of run.now place (process_of run.now place.0) (map asked_view asked.now)) }
{
    match node_at(run, place.0) {
        Some(node) => {
            let waiter = Waiter {
                run,
                node: *node,
                rank: place.0,
                statement: place.1,
            };
            calls_by(alloc, &waiter, asked, firsts)
        }
        None => Ok(Vec::new(alloc)),
    }
}

// The same by this node.
fn calls_by(
    alloc: Global,
    waiter: &Waiter<'_>,
    asked: &[AskedCall],
    firsts: &mut Vec<EarlierCall>,
) -> Result<Vec<MissingCall>, OutOfMemory>
    requires { firsts.old.items ≡ [] }
    ensures calls { IfOk result (λ calls. map missing_view calls.items ≡ flat_map (lacking_of waiter.now.run.now (node_of waiter.now.node.now)) (map asked_view asked.now)) }
    ensures firsts { OnOk result (map first_view firsts.new.items ≡ with_firsts waiter.now.run.now (node_of waiter.now.node.now) (waiter.now.rank, waiter.now.statement) [] (map asked_view asked.now)) }
{
    let mut calls = Vec::new(alloc);
    let mut found = Firsts {
        told: Vec::new(alloc),
        looked: BTreeMap::new(alloc),
    };
    for one in asked {
        push_call(alloc, waiter, one, &mut calls, &mut found)?;
    }
    firsts.append(&mut found.told)?;
    Ok(calls)
}

// Adds a call, where the node has no result of it and its board lacks posts of it; else the first one before it that comes first.
fn push_call(
    alloc: Global,
    waiter: &Waiter<'_>,
    asked: &AskedCall,
    calls: &mut Vec<MissingCall>,
    firsts: &mut Firsts,
) -> Result<(), OutOfMemory>
    requires { HasLooked waiter.now.run.now (node_of waiter.now.node.now) (map first_view firsts.old.told.items) firsts.old.looked }
    ensures calls { OnOk result (map missing_view calls.new.items ≡ map missing_view calls.old.items ++ lacking_of waiter.now.run.now (node_of waiter.now.node.now) (asked_view asked.now)) }
    ensures looked { OnOk result (HasLooked waiter.now.run.now (node_of waiter.now.node.now) (map first_view firsts.new.told.items) firsts.new.looked) }
    ensures firsts { OnOk result (map first_view firsts.new.told.items
        ≡ with_first waiter.now.run.now (node_of waiter.now.node.now) (waiter.now.rank, waiter.now.statement) (map first_view firsts.old.told.items) (asked_view asked.now)) }
{
    let found = lacking_call(
        alloc,
        waiter.run,
        waiter.node,
        &asked.request,
        &asked.name,
        asked.call,
    )?;
    match found {
        Some(call) => Ok(calls.push(call)?),
        None => push_before(alloc, waiter, asked, firsts),
    }
}
