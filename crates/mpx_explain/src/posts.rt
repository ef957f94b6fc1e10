//! The statements by which ranks have posted on `world`.
ghost use Rattle.std.specs.Prelude.{◌≡◌, ◌<◌, ◌++◌, ◌∷◌, ◌&&◌, ◌||◌, ◌==◌, [], ℕ, IfOk, None, OnOk, Some, bytes_eq, codes, cond, false, length, map, slice_index_or};
ghost use Rattle.std.specs.List.{range_with_len};
ghost use Rattle.std.specs.Option.{option_copied};
ghost use Rattle.mpx_eval.specs.Found.{complaint_view, waiting_view};
ghost use Rattle.mpx_explain.specs.Overflows.{draft_by, evaluated, has_posted, is_named_at, posted_at, posts_of, waits_before};

use join_core::OutOfMemory;
use mpx_eval::{Complaint, Findings, WaitingRank};
use mpx_post::Draft;
use mpx_script::{Posting, Script, Statement, Word};
use std::alloc::Global;

/// Of each rank the places of its statements that have posted on `world`, but for calls that are faults.
pub(crate) fn all_posts(
    alloc: Global,
    script: &Script,
    found: &Findings,
) -> Result<Vec<Vec<usize>>, OutOfMemory>
    ensures { IfOk result (λ all. map (λ posts. posts.items) all.items ≡ map (posts_of (evaluated script.now found.now)) (range_with_len 0 (length script.now.statements))) }
{
    let mut all = Vec::new(alloc);
    for rank in 0..script.ranks() {
        all.push(posts_of(alloc, script, found, rank)?)?;
    }
    Ok(all)
}

// The same of one rank.
fn posts_of(
    alloc: Global,
    script: &Script,
    found: &Findings,
    rank: u8,
) -> Result<Vec<usize>, OutOfMemory>
    ensures { IfOk result (λ posts. posts.items ≡ posts_of (evaluated script.now found.now) rank) }
{
    let named = named_by(alloc, script, found, rank)?;
    let mut posts = Vec::new(alloc);
    for place in 0..named.len() {
        push_post(script, found, rank, place, named[place], &mut posts)?;
    }
    drop(named);
    Ok(posts)
}

// Adds a statement that is named so, where it has posted.
fn push_post(
    script: &Script,
    found: &Findings,
    rank: u8,
    place: usize,
    is_named: bool,
    posts: &mut Vec<usize>,
) -> Result<(), OutOfMemory>
    requires { is_named ≡ (is_named_at rank place (map complaint_view found.now.complaints.items) || is_named_at rank place (map complaint_view found.now.unheard.items)) }
    ensures { OnOk result (posts.new.items ≡ posts.old.items ++ cond (has_posted (evaluated script.now found.now) rank place) (place ∷ []) []) }
{
    if posted_at(script, rank, place).is_some()
        && !(waits_before(rank, place, &found.waiting) || is_named)
    {
        posts.push(place)?;
    }
    Ok(())
}

// Of each statement of a rank whether it was refused, or its call is a fault.
fn named_by(
    alloc: Global,
    script: &Script,
    found: &Findings,
    rank: u8,
) -> Result<Vec<bool>, OutOfMemory>
    ensures { IfOk result (λ named. (length named.items ≡ length (slice_index_or script.now.statements rank []))
        × ((place : ℕ) → place < length named.items → slice_index_or named.items place false ≡ (is_named_at rank place (map complaint_view found.now.complaints.items) || is_named_at rank place (map complaint_view found.now.unheard.items)))) }
{
    let mut named = vec![in alloc; false; script.statements(rank).len()]?;
    mark(rank, &found.complaints, &mut named);
    mark(rank, &found.unheard, &mut named);
    Ok(named)
}

// Marks the statements of a rank that these are of.
fn mark(rank: u8, complaints: &[Complaint], named: &mut Vec<bool>)
    ensures len { length named.new.items ≡ length named.old.items }
    ensures at { (place : ℕ) → place < length named.old.items → slice_index_or named.new.items place false ≡ (slice_index_or named.old.items place false || is_named_at rank place (map complaint_view complaints.now)) }
{
    for complaint in complaints {
        mark_one(rank, complaint, named);
    }
}

fn mark_one(rank: u8, complaint: &Complaint, named: &mut Vec<bool>)
    ensures len { length named.new.items ≡ length named.old.items }
    ensures at { (place : ℕ) → place < length named.old.items → slice_index_or named.new.items place false ≡ (slice_index_or named.old.items place false || ((complaint.now.rank == rank) && (complaint.now.statement == place))) }
{
    if complaint.rank == rank && complaint.statement < named.len() {
        named[complaint.statement] = true;
    }
}

fn waits_before(rank: u8, place: usize, waiting: &[WaitingRank]) -> bool
    ensures { result ≡ waits_before rank place (map waiting_view waiting.now) }
{
    waiting
        .iter()
        .any(|one| one.rank == rank && one.statement < place)
}

/// What the rank's statement with this place posts on `world`.
pub(crate) fn posted_at(script: &Script, rank: u8, place: usize) -> Option<&Draft>
    ensures { option_copied result ≡ posted_at script.now.statements rank place }
{
    match script.statements(rank).get(place) {
        Some(statement) => posted_by(statement),
        None => None,
    }
}

fn posted_by(statement: &Statement) -> Option<&Draft>
    ensures { option_copied result ≡ draft_by statement.now }
{
    match statement {
        Statement::Post(Posting::Call { on, draft }) => on_world(on, draft),
        Statement::Post(Posting::Start { on, draft, .. }) => on_world(on, draft),
        Statement::Post(Posting::New { on, draft, .. }) => on_world(on, draft),
        Statement::Post(Posting::CreateGroup { .. }) => None,
        Statement::Wait(_) => None,
        Statement::Ask(_) => None,
    }
}

fn on_world<'d>(on: &Word, draft: &'d Draft) -> Option<&'d Draft>
    ensures { option_copied result ≡ cond (bytes_eq on.now (codes "world")) (Some draft.now) None }
{
    if on.as_bytes() == b"world".as_slice() {
        Some(draft)
    } else {
        None
    }
}
