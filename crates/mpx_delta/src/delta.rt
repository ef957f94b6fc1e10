//! A board without the posts that are known, in parts.
ghost use Rattle.std.specs.Prelude.{◌≡◌, ◌≤◌, All, map, IfOk};
ghost use Rattle.mpx_board.specs.Boards.{Look, join, join_all};
ghost use Rattle.mpx_board.specs.Looks.{look, parts_of};
ghost use Rattle.mpx_board.specs.Views.{view_of_acks, view_of_call, view_of_calls, view_of_entries, view_of_entry, view_of_lifted, view_of_numbers};
ghost use Rattle.mpx_format.specs.Encoding.{length_told};
ghost use Rattle.mpx_digest.specs.Digest.{number_at, numbers_acked};
ghost use Rattle.mpx_digest.specs.Keep.{keep};
ghost use Rattle.mpx_delta.specs.Facts.{OnlyFactsOf};
ghost use Rattle.mpx_delta.specs.Pieces.{NoNeighboursFit};
ghost use Rattle.mpx_delta.specs.Digests.{Covers, without};
ghost use Rattle.mpx_delta.specs.Lean.{lean_call, lean_calls, lean_context, lean_entry, lean_lifted, lean_post};

use crate::packing::parts;
use join_core::{Exact, OutOfMemory, Pair};
use join_nest::{Keyed, Lift, Trunc};
use mpx_board::{Board, CallPosts, Digest, Entry, Lifted, VersionVector, is_said};
use mpx_group::Proc;
use mpx_name::Name;
use std::alloc::Global;

/// The board without the posts below the digest, in parts, each of which has only facts of the board and a frame of at
/// most `limit` bytes, from 524,288 to 1,048,576: they serve each board in which those posts stand as the whole would. They tell of each
/// dead context that it is dead. Of no two parts beside each other would the join have such a frame. An `Err` is want of memory.
pub fn delta_for(
    alloc: Global,
    board: &Board,
    digest: &Digest,
    limit: usize,
) -> Result<Vec<Board>, OutOfMemory>
    requires least { 524288 ≤ limit }
    requires most { limit ≤ 1048576 }
    ensures facts { IfOk result (λ made. All (λ part. OnlyFactsOf (look part) (look board.now)) made.items) }
    ensures fit { IfOk result (λ made. All (λ part. length_told (parts_of part) ≤ limit) made.items) }
    ensures join { IfOk result (λ made. join_all (map look made.items) ≡ without (numbers_acked (view_of_acks digest.now)) (look board.now)) }
    ensures serves { IfOk result (λ made. (b : Look) → Covers (numbers_acked (view_of_acks digest.now)) b (look board.now)
        → join b (join_all (map look made.items)) ≡ join (look board.now) b) }
    ensures few { IfOk result (λ made. NoNeighboursFit limit made.items) }
{
    let said = board.only_acks(alloc)?;
    let lean = lean_board(alloc, board, said, digest)?;
    parts(alloc, &lean, limit)
}

// The board without the posts below the digest, and with the acknowledgements of the other.
pub fn lean_board(
    alloc: Global,
    board: &Board,
    said: Board,
    digest: &Digest,
) -> Result<Board, OutOfMemory>
    ensures { IfOk result (λ made. look made ≡ without (numbers_acked (view_of_acks digest.now)) (record (look board.now) { acks = (look said).acks })) }
{
    match lean_contexts(alloc, &board.pair().first, digest) {
        Ok(first) => {
            let second = Keyed::new(alloc);
            let lean = Board::from_tidy(Pair { first, second });
            Ok(lean.with_acks(said))
        }
        Err(e) => {
            drop(said);
            Err(e)
        }
    }
}

// The contexts without those posts.
pub fn lean_contexts(
    alloc: Global,
    contexts: &Keyed<Name, Lifted>,
    digest: &Digest,
) -> Result<Keyed<Name, Lifted>, OutOfMemory>
    ensures { IfOk result (λ made. view_of_entries made ≡ keep (lean_context (view_of_acks digest.now)) (view_of_entries contexts.now)) }
{
    let mut made = Vec::new(alloc);
    for (name, known) in contexts.entries() {
        let lean = lean_lifted(alloc, name, known, digest)?;
        if is_said(&lean) {
            made.push((name.copy(alloc)?, lean))?;
        }
    }
    Ok(Keyed::from_rising(made))
}

// What is known of the context with this name, without those posts; a dead one has none.
fn lean_lifted(
    alloc: Global,
    name: &Name,
    known: &Lifted,
    digest: &Digest,
) -> Result<Lifted, OutOfMemory>
    ensures { IfOk result (λ made. view_of_lifted made ≡ lean_lifted (numbers_acked (view_of_acks digest.now) name.now) (view_of_lifted known.now)) }
{
    match known {
        Lift::Live(entry) => Ok(Lift::Live(lean_context(alloc, name, entry, digest)?)),
        Lift::Dead => Ok(Lift::Dead),
    }
}

// What is known of the live context with this name, without the posts below its numbers in the digest.
fn lean_context(
    alloc: Global,
    name: &Name,
    entry: &Entry,
    digest: &Digest,
) -> Result<Entry, OutOfMemory>
    ensures { IfOk result (λ made. view_of_entry made ≡ lean_entry (numbers_acked (view_of_acks digest.now) name.now) (view_of_entry entry.now)) }
{
    match digest.get(name) {
        None => lean_entry(alloc, entry, &Keyed::new(alloc)),
        Some(numbers) => lean_entry(alloc, entry, numbers),
    }
}

// What is known of a context, without the posts below the numbers.
pub fn lean_entry(
    alloc: Global,
    entry: &Entry,
    numbers: &VersionVector,
) -> Result<Entry, OutOfMemory>
    ensures { IfOk result (λ made. view_of_entry made ≡ lean_entry (number_at (view_of_numbers numbers.now)) (view_of_entry entry.now)) }
{
    let first = entry.first.copy(alloc)?;
    let fronts = entry.second.first.copy(alloc)?;
    let calls = lean_calls(alloc, &entry.second.second, numbers)?;
    Ok(Pair {
        first,
        second: Pair {
            first: fronts,
            second: calls,
        },
    })
}

// The calls without those posts.
fn lean_calls(
    alloc: Global,
    calls: &Trunc<CallPosts>,
    numbers: &VersionVector,
) -> Result<Trunc<CallPosts>, OutOfMemory>
    ensures { IfOk result (λ made. view_of_calls made ≡ lean_calls (number_at (view_of_numbers numbers.now)) (view_of_calls calls.now)) }
{
    let mut made = Vec::new(alloc);
    for (call, posts) in calls.entries() {
        let lean = lean_call(alloc, *call, posts, numbers)?;
        if !lean.is_empty() {
            made.push((*call, lean))?;
        }
    }
    Ok(Trunc::from_rising(calls.dropped(), made))
}

// The posts of the call without those below the numbers.
fn lean_call(
    alloc: Global,
    call: u32,
    posts: &CallPosts,
    numbers: &VersionVector,
) -> Result<CallPosts, OutOfMemory>
    ensures { IfOk result (λ made. view_of_call made ≡ keep (lean_post (number_at (view_of_numbers numbers.now)) call) (view_of_call posts.now)) }
{
    let mut made = Vec::new(alloc);
    for (process, post) in posts.entries() {
        if call >= number_at(numbers, *process) {
            made.push((*process, post.copy(alloc)?))?;
        }
    }
    Ok(Keyed::from_rising(made))
}

// The number of the process: 0 where there is none.
fn number_at(numbers: &VersionVector, process: Proc) -> u32
    ensures { result ≡ number_at (view_of_numbers numbers.now) process }
{
    match numbers.get(&process) {
        None => 0,
        Some(number) => number.0,
    }
}
