//! All pieces of a board, part by part.
ghost use Rattle.std.specs.Prelude.{◌≡◌, ◌<◌, [], true, All, OnOk, IfOk};
ghost use Rattle.std.specs.Ordering.{nat_cmp};
ghost use Rattle.std.specs.FinMap.{entries};
ghost use Rattle.join_nest.specs.Seen.{seen};
ghost use Rattle.mpx_name.specs.Order.{name_cmp};
ghost use Rattle.mpx_post.specs.Drafts.{most_calls};
ghost use Rattle.mpx_board.specs.Boards.{Dead};
ghost use Rattle.mpx_board.specs.Looks.{parts_of};
ghost use Rattle.mpx_board.specs.Tidy.{all_entries, are_tidy_posts, is_tidy_acks, is_tidy_call, is_neat_entry, is_tidy_entry, is_tidy_lifted, is_tidy_numbers};
ghost use Rattle.mpx_board.specs.Views.{view_of_acks, view_of_call, view_of_calls, view_of_entry, view_of_lifted, view_of_numbers};
ghost use Rattle.mpx_delta.specs.Facts.{SaysAcks, SaysCall, SaysEntry, SaysHead, SaysLifted, SaysNumbers, SaysParts};
ghost use Rattle.mpx_delta.specs.Pieces.{AddsPieces, IsEntryRun};

use crate::entry_runs::{acks_piece, contexts_piece, names_piece};
use crate::pieces::{dead_piece, has_head, head_piece, number_piece, post_piece};
use join_core::OutOfMemory;
use join_nest::{Lift, Trunc};
use mpx_board::{Board, CallPosts, Digest, Entry, Lifted, VersionVector};
use mpx_group::Proc;
use mpx_name::Name;
use std::alloc::Global;

// Adds the posts of the call.
fn add_posts(
    alloc: Global,
    made: &mut Vec<Board>,
    name: &Name,
    call: u32,
    posts: &CallPosts,
) -> Result<(), OutOfMemory>
    requires { is_tidy_call call (view_of_call posts.now) ≡ true }
    ensures { OnOk result (AddsPieces (λ P. SaysCall P name.now (call, view_of_call posts.now)) made.old.items made.new.items) }
{
    for (process, post) in posts.entries() {
        made.push(post_piece(alloc, name, call, *process, post)?)?;
    }
    Ok(())
}

// Adds the posts of all calls.
fn add_calls(
    alloc: Global,
    made: &mut Vec<Board>,
    name: &Name,
    calls: &Trunc<CallPosts>,
) -> Result<(), OutOfMemory>
    requires { all_entries is_tidy_call (view_of_calls calls.now).calls ≡ true }
    ensures { OnOk result (AddsPieces (λ P. All (SaysCall P name.now) (entries (view_of_calls calls.now).calls)) made.old.items made.new.items) }
{
    for (call, posts) in calls.entries() {
        add_posts(alloc, made, name, *call, posts)?;
    }
    Ok(())
}

// Adds what is said of the context beside its posts, where there is something.
fn add_head(
    alloc: Global,
    made: &mut Vec<Board>,
    name: &Name,
    entry: &Entry,
) -> Result<(), OutOfMemory>
    requires { is_neat_entry (view_of_entry entry.now) ≡ true }
    ensures { OnOk result (AddsPieces (λ P. SaysHead P name.now (view_of_entry entry.now)) made.old.items made.new.items) }
{
    if !has_head(entry) {
        return Ok(());
    }
    made.push(head_piece(alloc, name, entry)?)?;
    Ok(())
}

// Adds what is said of the live context.
fn add_entry(
    alloc: Global,
    made: &mut Vec<Board>,
    name: &Name,
    entry: &Entry,
) -> Result<(), OutOfMemory>
    requires { is_tidy_entry (view_of_entry entry.now) ≡ true }
    ensures { OnOk result (AddsPieces (λ P. SaysEntry P (name.now, view_of_entry entry.now)) made.old.items made.new.items) }
{
    add_head(alloc, made, name, entry)?;
    add_calls(alloc, made, name, &entry.second.second)
}

// Adds that the context is dead.
fn add_dead(alloc: Global, made: &mut Vec<Board>, name: &Name) -> Result<(), OutOfMemory>
    ensures { OnOk result (AddsPieces (λ P. P (Dead name.now)) made.old.items made.new.items) }
{
    made.push(dead_piece(alloc, name)?)?;
    Ok(())
}

// Adds what is said of the context.
fn add_context(
    alloc: Global,
    made: &mut Vec<Board>,
    name: &Name,
    known: &Lifted,
) -> Result<(), OutOfMemory>
    requires { is_tidy_lifted (view_of_lifted known.now) ≡ true }
    ensures { OnOk result (AddsPieces (λ P. SaysLifted P (name.now, view_of_lifted known.now)) made.old.items made.new.items) }
{
    match known {
        Lift::Live(entry) => add_entry(alloc, made, name, entry),
        Lift::Dead => add_dead(alloc, made, name),
    }
}

// Adds what is said of these contexts: as one piece where that is short, else by halves.
fn add_contexts(
    alloc: Global,
    made: &mut Vec<Board>,
    contexts: &[(Name, Lifted)],
) -> Result<(), OutOfMemory>
    requires { IsEntryRun name_cmp view_of_lifted (λ e. is_tidy_lifted e.1) contexts.now }
    ensures { OnOk result (AddsPieces (λ P. All (SaysLifted P) (seen view_of_lifted contexts.now)) made.old.items made.new.items) }
{
    if contexts.is_empty() {
        return Ok(());
    }
    if let Some(piece) = contexts_piece(alloc, contexts)? {
        made.push(piece)?;
        return Ok(());
    }
    if contexts.len() == 1 {
        let (name, known) = &contexts[0];
        return add_context(alloc, made, name, known);
    }
    let half = contexts.len() / 2;
    add_contexts(alloc, made, &contexts[..half])?;
    add_contexts(alloc, made, &contexts[half..])
}

// Adds what the process acknowledges of these contexts: as one piece where that is short, else by halves.
fn add_names(
    alloc: Global,
    made: &mut Vec<Board>,
    process: Proc,
    names: &[(Name, VersionVector)],
) -> Result<(), OutOfMemory>
    requires { IsEntryRun name_cmp view_of_numbers (λ e. is_tidy_numbers e.1) names.now }
    ensures { OnOk result (AddsPieces (λ P. All (SaysNumbers P process) (seen view_of_numbers names.now)) made.old.items made.new.items) }
{
    if names.is_empty() {
        return Ok(());
    }
    if names.len() == 1 {
        let (name, numbers) = &names[0];
        made.push(number_piece(alloc, process, name, numbers)?)?;
        return Ok(());
    }
    if let Some(piece) = names_piece(alloc, process, names)? {
        made.push(piece)?;
        return Ok(());
    }
    let half = names.len() / 2;
    add_names(alloc, made, process, &names[..half])?;
    add_names(alloc, made, process, &names[half..])
}

// Adds what these processes acknowledge: as one piece where that is short, else by halves.
fn add_acks(
    alloc: Global,
    made: &mut Vec<Board>,
    processes: &[(Proc, Digest)],
) -> Result<(), OutOfMemory>
    requires { IsEntryRun nat_cmp view_of_acks (λ e. is_tidy_acks e.1) processes.now }
    ensures { OnOk result (AddsPieces (λ P. All (SaysAcks P) (seen view_of_acks processes.now)) made.old.items made.new.items) }
{
    if processes.is_empty() {
        return Ok(());
    }
    if processes.len() == 1 {
        let (process, acks) = &processes[0];
        return add_names(alloc, made, *process, acks.entries());
    }
    if let Some(piece) = acks_piece(alloc, processes)? {
        made.push(piece)?;
        return Ok(());
    }
    let half = processes.len() / 2;
    add_acks(alloc, made, &processes[..half])?;
    add_acks(alloc, made, &processes[half..])
}

// All pieces of the board: runs of contexts, and runs of what processes acknowledge. Where the frame of one context alone is
// too long, its head and each of its posts; where that of one process's acknowledgements is, runs of the contexts that it names.
pub fn pieces(alloc: Global, board: &Board) -> Result<Vec<Board>, OutOfMemory>
    ensures { IfOk result (λ made. AddsPieces (λ P. SaysParts P (parts_of board.now)) [] made.items) }
{
    let parts = board.pair();
    let mut made = Vec::new(alloc);
    add_contexts(alloc, &mut made, parts.first.entries())?;
    add_acks(alloc, &mut made, parts.second.entries())?;
    Ok(made)
}
