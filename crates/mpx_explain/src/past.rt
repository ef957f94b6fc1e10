//! Sums and products that are past the range of their signed type.
ghost use Rattle.std.specs.Prelude.{◌≡◌, ◌+◌, ◌<◌, ◌&&◌, [], ℕ, Bool, IfOk, IsSomeAnd, MatchOption, None, OnOk, Option, Some, ℤ, cond, length, nat_le, nat_lt, slice_index_or, true};
ghost use Rattle.std.specs.List.{AllZip};
ghost use Rattle.std.specs.Option.{option_copied};
ghost use Rattle.mpx_post.specs.Drafts.{is_of};
ghost use Rattle.mpx_explain.specs.Overflows.{IsKnownAs, IsToldAs, all_past, all_posts, draft_to, evaluated, first_past, is_posted, past_in_call, past_in_row, past_there, past_type, post_to, taken};
ghost use Rattle.mpx_explain.specs.Sums.{AreTold, AreUpto, IsExact, IsRow, past_for, past_upto, posts_in, statements_in, taken_by};
ghost use Rattle.mpx_explain.specs.declared.exact.Exact.TheVariants.{Unknown};

use crate::blocks::bounds_of;
use crate::exact::{Exact, add, is_product, neutral};
use crate::overflows::Overflow;
use crate::posts::{all_posts, posted_at};
use crate::summed::summed;
use join_core::OutOfMemory;
use mpx_eval::Findings;
use mpx_kind::Reduction;
use mpx_num::{Ty, is_in_range};
use mpx_post::Draft;
use mpx_script::Script;
use std::alloc::Global;

/// The first number of each rank's result that is past its type, of all calls on `world`.
pub(crate) fn results_of(
    alloc: Global,
    script: &Script,
    found: &Findings,
) -> Result<Vec<Overflow>, OutOfMemory>
    ensures { IfOk result (λ all. AllZip IsToldAs all.items (all_past script.now.statements (all_posts (evaluated script.now found.now)))) }
{
    let posts = all_posts(alloc, script, found)?;
    let results = results_in(alloc, script, &posts);
    drop(posts);
    results
}

// The same by what the ranks have posted.
fn results_in(
    alloc: Global,
    script: &Script,
    posts: &[Vec<usize>],
) -> Result<Vec<Overflow>, OutOfMemory>
    ensures { IfOk result (λ all. AllZip IsToldAs all.items (all_past script.now.statements (posts_in posts.now))) }
{
    let mut all = Vec::new(alloc);
    for call in 0..calls_in(posts) {
        push_call(alloc, script, posts, call, &mut all)?;
    }
    Ok(all)
}

// How many calls rank 0 has posted to.
fn calls_in(posts: &[Vec<usize>]) -> usize
    ensures { result ≡ length (slice_index_or (posts_in posts.now) 0 []) }
{
    match posts.first() {
        Some(first) => first.as_slice().len(),
        None => 0,
    }
}

/// A call on `world` that all ranks have posted to: a sum or product of signed numbers, as rank 0 has it.
#[derive(Clone, Copy, Drop)]
pub(crate) struct Row<'r> {
    script: &'r Script,
    posts: &'r [Vec<usize>],
    call: usize,
    draft: &'r Draft,
    reduction: Reduction,
}

// Adds the results of a call that are past their type, where each rank has posted to it.
fn push_call(
    alloc: Global,
    script: &Script,
    posts: &[Vec<usize>],
    call: usize,
    all: &mut Vec<Overflow>,
) -> Result<(), OutOfMemory>
    ensures { OnOk result (AreTold (past_in_call script.now.statements (posts_in posts.now) call) all.old.items all.new.items) }
{
    let posted = is_posted(posts, call);
    if posted {
        push_posted(alloc, script, posts, call, all)
    } else {
        Ok(())
    }
}

// The same, where each has.
fn push_posted(
    alloc: Global,
    script: &Script,
    posts: &[Vec<usize>],
    call: usize,
    all: &mut Vec<Overflow>,
) -> Result<(), OutOfMemory>
    requires { is_posted (posts_in posts.now) call ≡ true }
    ensures { OnOk result (AreTold (past_in_call script.now.statements (posts_in posts.now) call) all.old.items all.new.items) }
{
    match draft_to(script, posts, call, 0) {
        Some(draft) => push_draft(alloc, script, posts, call, draft, all),
        None => Ok(()),
    }
}

// Whether each rank has posted to a call.
fn is_posted(posts: &[Vec<usize>], call: usize) -> bool
    ensures { result ≡ is_posted (posts_in posts.now) call }
{
    for one in posts {
        let many = one.as_slice().len();
        if many <= call {
            return false;
        }
    }
    true
}

// The same, where rank 0 posts this to it.
fn push_draft(
    alloc: Global,
    script: &Script,
    posts: &[Vec<usize>],
    call: usize,
    draft: &Draft,
    all: &mut Vec<Overflow>,
) -> Result<(), OutOfMemory>
    requires posted { is_posted (posts_in posts.now) call ≡ true }
    requires draft { draft_to script.now.statements (posts_in posts.now) call 0 ≡ Some draft.now }
    ensures { OnOk result (AreTold (past_in_row script.now.statements (posts_in posts.now) call draft.now) all.old.items all.new.items) }
{
    match summed(draft) {
        Some(reduction) => {
            let row = Row {
                script,
                posts,
                call,
                draft,
                reduction,
            };
            push_row(alloc, &row, all)
        }
        None => Ok(()),
    }
}

// What a rank posts to a call.
fn draft_to<'s>(
    script: &'s Script,
    posts: &[Vec<usize>],
    call: usize,
    rank: u8,
) -> Option<&'s Draft>
    ensures { option_copied result ≡ draft_to script.now.statements (posts_in posts.now) call rank }
{
    match place_in(posts, call, rank) {
        Some(place) => posted_at(script, rank, place),
        None => None,
    }
}

fn place_in(posts: &[Vec<usize>], call: usize, rank: u8) -> Option<usize>
    ensures { result ≡ post_to (posts_in posts.now) call rank }
{
    match posts.get(usize::from(rank)) {
        Some(posts) => posts.as_slice().get(call).copied(),
        None => None,
    }
}

// Adds those of each rank once all that count for it are taken into the sums.
fn push_row(alloc: Global, row: &Row<'_>, all: &mut Vec<Overflow>) -> Result<(), OutOfMemory>
    requires { IsRow row.now }
    ensures { OnOk result (AreTold (past_upto row.now (length (statements_in row.now))) all.old.items all.new.items) }
{
    match row.reduction {
        Reduction::Scan => push_scanned(alloc, row, all),
        Reduction::Exscan => push_scanned_before(alloc, row, all),
        _ => push_reduced(alloc, row, all),
    }
}

// Of a scan: to each rank what is given up to its own.
fn push_scanned(alloc: Global, row: &Row<'_>, all: &mut Vec<Overflow>) -> Result<(), OutOfMemory>
    requires row { IsRow row.now }
    requires taken { (ranks rank : ℕ) → taken row.now.reduction ranks rank ≡ rank + 1 }
    ensures { OnOk result (AreTold (past_upto row.now (length (statements_in row.now))) all.old.items all.new.items) }
{
    let mut sums = first_sums(alloc, row)?;
    for rank in 0..row.script.ranks() {
        add_given(row, rank, &mut sums);
        push_result(row, rank, &sums, all)?;
    }
    Ok(())
}

// Of an exclusive one: to each rank what is given before its own.
fn push_scanned_before(
    alloc: Global,
    row: &Row<'_>,
    all: &mut Vec<Overflow>,
) -> Result<(), OutOfMemory>
    requires row { IsRow row.now }
    requires taken { (ranks rank : ℕ) → taken row.now.reduction ranks rank ≡ rank }
    ensures { OnOk result (AreTold (past_upto row.now (length (statements_in row.now))) all.old.items all.new.items) }
{
    let mut sums = first_sums(alloc, row)?;
    for rank in 0..row.script.ranks() {
        push_result(row, rank, &sums, all)?;
        add_given(row, rank, &mut sums);
    }
    Ok(())
}

// Of another reduction: to each rank what all give.
fn push_reduced(alloc: Global, row: &Row<'_>, all: &mut Vec<Overflow>) -> Result<(), OutOfMemory>
    requires row { IsRow row.now }
    requires taken { (ranks rank : ℕ) → taken row.now.reduction ranks rank ≡ ranks }
    ensures { OnOk result (AreTold (past_upto row.now (length (statements_in row.now))) all.old.items all.new.items) }
{
    let sums = all_sums(alloc, row)?;
    for rank in 0..row.script.ranks() {
        push_result(row, rank, &sums, all)?;
    }
    Ok(())
}

// What all ranks give comes to.
fn all_sums(alloc: Global, row: &Row<'_>) -> Result<Vec<Exact>, OutOfMemory>
    ensures { IfOk result (λ sums. AreUpto row.now (length (statements_in row.now)) sums.items) }
{
    let mut sums = first_sums(alloc, row)?;
    for rank in 0..row.script.ranks() {
        add_given(row, rank, &mut sums);
    }
    Ok(sums)
}

// What no rank gives comes to.
fn first_sums(alloc: Global, row: &Row<'_>) -> Result<Vec<Exact>, OutOfMemory>
    ensures { IfOk result (λ sums. AreUpto row.now 0 sums.items) }
{
    let first = Exact::Number(neutral(is_product(row.draft.op)));
    let sums = vec![in alloc; first; row.draft.items.as_slice().len()]?;
    Ok(sums)
}

// Takes what a rank gives into the sums or products.
fn add_given(row: &Row<'_>, rank: u8, sums: &mut Vec<Exact>)
    ensures { AreUpto row.now rank sums.old.items → AreUpto row.now (rank + 1) sums.new.items }
{
    let is_product = is_product(row.draft.op);
    match draft_to(row.script, row.posts, row.call, rank) {
        Some(draft) => add(is_product, draft.items.as_slice(), sums),
        None => add(is_product, &[], sums),
    }
}

// Adds the result of a rank, for which these sums count, where it is past its type.
fn push_result(
    row: &Row<'_>,
    rank: u8,
    sums: &[Exact],
    all: &mut Vec<Overflow>,
) -> Result<(), OutOfMemory>
    requires row { IsRow row.now }
    requires sums { AreUpto row.now (taken_by row.now rank) sums.now }
    ensures { OnOk result (AreTold (past_for row.now rank) all.old.items all.new.items) }
{
    match place_in(row.posts, row.call, rank) {
        Some(statement) => push_past(row, rank, statement, sums, all),
        None => Ok(()),
    }
}

// The same, where its statement is this.
fn push_past(
    row: &Row<'_>,
    rank: u8,
    statement: usize,
    sums: &[Exact],
    all: &mut Vec<Overflow>,
) -> Result<(), OutOfMemory>
    requires row { IsRow row.now }
    requires sums { AreUpto row.now (taken_by row.now rank) sums.now }
    requires post { Some statement ≡ post_to (posts_in row.now.posts.now) row.now.call rank }
    ensures { OnOk result (AreTold (past_for row.now rank) all.old.items all.new.items) }
{
    let bounds = bounds_of(row.reduction, row.draft, rank);
    let past = first_past(row.draft.ty, bounds, sums);
    match past {
        Some(exact) => Ok(all.push(Overflow {
            rank,
            statement,
            ty: row.draft.ty,
            exact,
        })?),
        None => Ok(()),
    }
}

// The first of these numbers, within these bounds, that is past its type.
fn first_past(ty: Ty, bounds: (usize, usize), numbers: &[Exact]) -> Option<Option<i128>>
    ensures { (is_product : Bool) (comes : ℕ → Option ℤ) → ((index : ℕ) → index < length numbers.now → IsExact is_product (slice_index_or numbers.now index Unknown) (comes index))
        → MatchOption result (first_past ty bounds comes (length numbers.now) ≡ None) (λ exact. IsSomeAnd (first_past ty bounds comes (length numbers.now)) (IsKnownAs exact)) }
{
    for index in 0..numbers.len() {
        let past = past_within(ty, bounds, index, number_at(numbers, index));
        if past.is_some() {
            return past;
        }
    }
    None
}

fn number_at(numbers: &[Exact], index: usize) -> Exact
    ensures { result ≡ slice_index_or numbers.now index Unknown }
{
    match numbers.get(index) {
        Some(number) => *number,
        None => Exact::Unknown,
    }
}

// A number with this index that is past its type, where it is within these bounds.
fn past_within(ty: Ty, bounds: (usize, usize), index: usize, exact: Exact) -> Option<Option<i128>>
    ensures { (is_product : Bool) (comes : Option ℤ) → IsExact is_product exact comes
        → MatchOption result (past_there ty bounds index comes ≡ None) (λ exact. IsSomeAnd (past_there ty bounds index comes) (IsKnownAs exact)) }
{
    let is_within = is_within(bounds, index);
    if is_within {
        past_type(ty, exact)
    } else {
        None
    }
}

fn is_within(bounds: (usize, usize), index: usize) -> bool
    ensures { result ≡ (nat_le bounds.0 index && nat_lt index bounds.1) }
{
    bounds.0 <= index && index < bounds.1
}

// A number that is past its type; one that is past 128 bits is.
fn past_type(ty: Ty, exact: Exact) -> Option<Option<i128>>
    ensures { (is_product : Bool) (comes : Option ℤ) → IsExact is_product exact comes → MatchOption result (past_type ty comes ≡ None) (λ exact. IsSomeAnd (past_type ty comes) (IsKnownAs exact)) }
{
    match exact {
        Exact::Number(number) => past_number(ty, number),
        Exact::Far => Some(None),
        Exact::Unknown => None,
    }
}

fn past_number(ty: Ty, number: i128) -> Option<Option<i128>>
    ensures { result ≡ cond (is_of ty number) None (Some (Some number)) }
{
    if is_in_range(ty, number) {
        None
    } else {
        Some(Some(number))
    }
}
