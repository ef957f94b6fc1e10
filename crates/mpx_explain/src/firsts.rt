//! Which calls come first where a rank waits: of a call's context an earlier one of which the rank's board lacks posts.
ghost use Rattle.std.specs.Prelude.{◌≡◌, ◌⊎◌, ◌++◌, ℕ, IfOk, MatchOption, None, OnOk, Some, cond, false, map, true};
ghost use Rattle.std.specs.BTreeMap.{get};
ghost use Rattle.std.specs.Option.{option_map, option_to_list};
ghost use Rattle.mpx_name.specs.Order.{name_cmp};
ghost use Rattle.mpx_node.specs.Shown.{node_of};
ghost use Rattle.mpx_eval.specs.Found.{missing_view};
ghost use Rattle.mpx_explain.specs.Firsts.{HasLooked, is_told_in};
ghost use Rattle.mpx_explain.specs.RunEnds.{first_at, first_lacking, first_view, is_told_on, lacking_at, with_first};

use crate::ended::{EndedRun, end_at};
use crate::lacking::lacking_call;
use crate::made::made_at;
use join_core::{Exact, OutOfMemory};
use mpx_eval::MissingCall;
use mpx_meaning::AskedCall;
use mpx_name::Name;
use mpx_node::Node;
use std::alloc::Global;
use std::collections::BTreeMap;

/// An earlier call on the communicator of a call that a rank waits for: its result comes first, and the rank's board lacks posts of it.
#[derive(Drop)]
pub struct EarlierCall {
    pub rank: u8,
    /// The place of the statement at which the rank waits.
    pub statement: usize,
    /// The place of the statement that made the earlier call, where it is known.
    pub made: Option<usize>,
    pub call: MissingCall,
}

/// A rank that waits at the statement with this place, and its node.
#[derive(Clone, Copy, Drop)]
pub(crate) struct Waiter<'r> {
    pub(crate) run: &'r EndedRun<'r>,
    pub(crate) node: &'r Node,
    pub(crate) rank: u8,
    pub(crate) statement: usize,
}

/// The calls that come first where a rank waits, one of each context.
#[derive(Drop)]
pub(crate) struct Firsts {
    pub(crate) told: Vec<EarlierCall>,
    /// Before which call none of a context lacks posts; None where one is told.
    pub(crate) looked: BTreeMap<Name, Option<u32>>,
}

/// Adds what comes before a call that is asked for, and that doesn't lack posts itself.
pub(crate) fn push_before(
    alloc: Global,
    waiter: &Waiter<'_>,
    asked: &AskedCall,
    firsts: &mut Firsts,
) -> Result<(), OutOfMemory>
    requires { HasLooked waiter.now.run.now (node_of waiter.now.node.now) (map first_view firsts.old.told.items) firsts.old.looked }
    ensures looked { OnOk result (HasLooked waiter.now.run.now (node_of waiter.now.node.now) (map first_view firsts.new.told.items) firsts.new.looked) }
    ensures told { OnOk result (map first_view firsts.new.told.items ≡ map first_view firsts.old.told.items
        ++ option_to_list (option_map (first_at (waiter.now.rank, waiter.now.statement)) (cond (is_told_on asked.now.name (map first_view firsts.old.told.items)) None (first_lacking waiter.now.run.now (node_of waiter.now.node.now) asked.now.name asked.now.call)))) }
{
    match upto(waiter, &firsts.looked, &asked.name) {
        Some(from) => push_from(alloc, waiter, asked, from, firsts),
        None => Ok(()),
    }
}

// Before which call none of a context lacks posts; None where one of it is told.
fn upto(waiter: &Waiter<'_>, looked: &BTreeMap<Name, Option<u32>>, name: &Name) -> Option<u32>
    requires { (calls : ℕ) → get name_cmp looked.now name.now ≡ Some (Some calls) → first_lacking waiter.now.run.now (node_of waiter.now.node.now) name.now calls ≡ None }
    ensures { MatchOption result (is_told_in (get name_cmp looked.now name.now) ≡ true)
        (λ from. (is_told_in (get name_cmp looked.now name.now) ≡ false) × (first_lacking waiter.now.run.now (node_of waiter.now.node.now) name.now from ≡ None)) }
{
    match looked.get(name) {
        Some(upto) => *upto,
        None => Some(waiter.node.front(name)),
    }
}

// The same of a context of which none is told, and none before this one lacks posts.
fn push_from(
    alloc: Global,
    waiter: &Waiter<'_>,
    asked: &AskedCall,
    from: u32,
    firsts: &mut Firsts,
) -> Result<(), OutOfMemory>
    requires looked { HasLooked waiter.now.run.now (node_of waiter.now.node.now) (map first_view firsts.old.told.items) firsts.old.looked }
    requires untold { is_told_in (get name_cmp firsts.old.looked asked.now.name) ≡ false }
    requires none { first_lacking waiter.now.run.now (node_of waiter.now.node.now) asked.now.name from ≡ None }
    ensures looked { OnOk result (HasLooked waiter.now.run.now (node_of waiter.now.node.now) (map first_view firsts.new.told.items) firsts.new.looked) }
    ensures told { OnOk result (map first_view firsts.new.told.items ≡ map first_view firsts.old.told.items
        ++ option_to_list (option_map (first_at (waiter.now.rank, waiter.now.statement)) (first_lacking waiter.now.run.now (node_of waiter.now.node.now) asked.now.name asked.now.call))) }
{
    let name = asked.name.copy(alloc)?;
    let found = first_from(alloc, waiter, &asked.name, from, asked.call)?;
    match found {
        Some(call) => {
            drop(firsts.looked.insert(name, None)?);
            Ok(firsts.told.push(earlier_call(waiter, call))?)
        }
        None => {
            let upto = later(from, asked.call);
            drop(firsts.looked.insert(name, Some(upto))?);
            Ok(())
        }
    }
}

fn later(one: u32, other: u32) -> u32
    ensures { (result ≡ one) ⊎ (result ≡ other) }
{
    if one < other { other } else { one }
}

// A call of which the node's board lacks posts, if it does.
fn lacking_on(
    alloc: Global,
    waiter: &Waiter<'_>,
    name: &Name,
    call: u32,
) -> Result<Option<MissingCall>, OutOfMemory>
    ensures { IfOk result (λ found. option_map missing_view found ≡ lacking_at waiter.now.run.now (node_of waiter.now.node.now) None name.now call) }
{
    lacking_call(alloc, waiter.run, waiter.node, &None, name, call)
}

// The first of so many calls of which the node's board lacks posts, where none before this one does.
fn first_from(
    alloc: Global,
    waiter: &Waiter<'_>,
    name: &Name,
    from: u32,
    calls: u32,
) -> Result<Option<MissingCall>, OutOfMemory>
    requires { first_lacking waiter.now.run.now (node_of waiter.now.node.now) name.now from ≡ None }
    ensures { IfOk result (λ found. option_map missing_view found ≡ first_lacking waiter.now.run.now (node_of waiter.now.node.now) name.now calls) }
{
    for call in from..calls {
        let found = lacking_on(alloc, waiter, name, call)?;
        if found.is_some() {
            return Ok(found);
        }
    }
    Ok(None)
}

// An earlier call, with the statement that made it, where that is known.
fn earlier_call(waiter: &Waiter<'_>, call: MissingCall) -> EarlierCall
    ensures { first_view result ≡ first_at (waiter.now.rank, waiter.now.statement) (missing_view call) }
{
    EarlierCall {
        rank: waiter.rank,
        statement: waiter.statement,
        made: statement_of(waiter, &call),
        call,
    }
}

// The place of the statement that made a call of the rank, where it is known.
fn statement_of(waiter: &Waiter<'_>, call: &MissingCall) -> Option<usize> {
    let end = end_at(waiter.run, waiter.rank)?;
    let statements = waiter.run.script.statements(waiter.rank);
    made_at(statements, end, &call.name, call.call)
}
