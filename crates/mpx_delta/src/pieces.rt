//! Pieces of a board: the smallest boards into which it is taken apart.
ghost use Rattle.std.specs.Prelude.{◌≡◌, ◌∷◌, [], ◌<◌, ◌||◌, true, false, IfOk};
ghost use Rattle.std.specs.FinMap.{from_sorted, empty};
ghost use Rattle.join_core.specs.FlatSeen.{flat_view};
ghost use Rattle.mpx_post.specs.Drafts.{most_calls};
ghost use Rattle.mpx_board.specs.Boards.{Dead, Held};
ghost use Rattle.mpx_board.specs.Looks.{parts_of};
ghost use Rattle.mpx_board.specs.Parts.{PartsView};
ghost use Rattle.mpx_board.specs.Tidy.{is_bare, is_neat_entry, is_tidy, is_tidy_numbers, is_unknown};
ghost use Rattle.mpx_board.specs.Views.{view_of_entry, view_of_lifted, view_of_numbers, view_of_parts};
ghost use Rattle.mpx_delta.specs.Facts.{SaysHead, SaysNumbers};
ghost use Rattle.mpx_delta.specs.Pieces.{IsPiece, has_head};

use crate::limits::{few_numbers, short_birth, short_name, short_post};
use join_core::{Exact, Flat, Key, OutOfMemory, Pair};
use join_nest::{Keyed, Lift, Trunc};
use mpx_board::{Board, Entry, Lifted, Parts, VersionVector};
use mpx_group::Proc;
use mpx_name::Name;
use mpx_post::Post;
use std::alloc::Global;

// The map with this one entry.
pub fn one<K: Key, J: Exact>(alloc: Global, key: K, value: J) -> Result<Keyed<K, J>, OutOfMemory>
    ensures { IfOk result (λ made. ⟦<Keyed<K, J> as Exact>⟧.view made ≡ from_sorted ((key, J.view value) ∷ [])) }
{
    let mut entries = Vec::new(alloc);
    entries.push((key, value))?;
    Ok(Keyed::from_rising(entries))
}

// The calls with this one value, none of them dropped.
fn one_call<J: Exact>(alloc: Global, call: u32, value: J) -> Result<Trunc<J>, OutOfMemory>
    ensures dropped { IfOk result (λ made. (⟦<Trunc<J> as Exact>⟧.view made).dropped ≡ 0) }
    ensures calls { IfOk result (λ made. (⟦<Trunc<J> as Exact>⟧.view made).calls ≡ from_sorted ((call, J.view value) ∷ [])) }
{
    let mut calls = Vec::new(alloc);
    calls.push((call, value))?;
    Ok(Trunc::from_rising(0, calls))
}

// The board of this one context.
fn about(alloc: Global, name: &Name, known: Lifted) -> Result<Board, OutOfMemory>
    requires { (v : PartsView) → v ≡ (from_sorted ((name.now, view_of_lifted known) ∷ []), empty) → is_tidy v ≡ true }
    ensures { IfOk result (λ made. parts_of made ≡ (from_sorted ((name.now, view_of_lifted known) ∷ []), empty)) }
{
    let parts = Pair {
        first: one(alloc, name.copy(alloc)?, known)?,
        second: Keyed::new(alloc),
    };
    Ok(Board::of(parts).unwrap())
}

// What the process posted as this call, where that is told.
pub fn post_piece(
    alloc: Global,
    name: &Name,
    call: u32,
    process: Proc,
    post: &Flat<Post>,
) -> Result<Board, OutOfMemory>
    requires call { call < most_calls }
    requires told { is_unknown (flat_view (λ v. v) post.now) ≡ false }
    ensures { IfOk result (IsPiece (λ P. P (Held name.now call process (flat_view (λ v. v) post.now)))) }
{
    short_name(name);
    short_post(post);
    let of_call = one(alloc, process, post.copy(alloc)?)?;
    let entry = Pair {
        first: Flat::Unknown,
        second: Pair {
            first: Keyed::new(alloc),
            second: one_call(alloc, call, of_call)?,
        },
    };
    about(alloc, name, Lift::Live(entry))
}

// What is said of the context beside its posts, where there is something.
pub fn head_piece(alloc: Global, name: &Name, entry: &Entry) -> Result<Board, OutOfMemory>
    requires head { has_head (view_of_entry entry.now) ≡ true }
    requires neat { is_neat_entry (view_of_entry entry.now) ≡ true }
    ensures { IfOk result (IsPiece (λ P. SaysHead P name.now (view_of_entry entry.now))) }
{
    short_name(name);
    short_birth(&entry.first);
    few_numbers(&entry.second.first);
    let head = Pair {
        first: entry.first.copy(alloc)?,
        second: Pair {
            first: entry.second.first.copy(alloc)?,
            second: Trunc::new(alloc, entry.second.second.dropped()),
        },
    };
    about(alloc, name, Lift::Live(head))
}

// That the context is dead.
pub fn dead_piece(alloc: Global, name: &Name) -> Result<Board, OutOfMemory>
    ensures { IfOk result (IsPiece (λ P. P (Dead name.now))) }
{
    short_name(name);
    about(alloc, name, Lift::Dead)
}

// What the process acknowledges of the context.
pub fn number_piece(
    alloc: Global,
    process: Proc,
    name: &Name,
    numbers: &VersionVector,
) -> Result<Board, OutOfMemory>
    requires { is_tidy_numbers (view_of_numbers numbers.now) ≡ true }
    ensures { IfOk result (IsPiece (λ P. SaysNumbers P process (name.now, view_of_numbers numbers.now))) }
{
    short_name(name);
    few_numbers(numbers);
    let of_process = one(alloc, name.copy(alloc)?, numbers.copy(alloc)?)?;
    let parts = Pair {
        first: Keyed::new(alloc),
        second: one(alloc, process, of_process)?,
    };
    Ok(Board::of(parts).unwrap())
}

// Whether something is said of the context beside its posts.
pub fn has_head(entry: &Entry) -> bool
    ensures { result ≡ has_head (view_of_entry entry.now) }
{
    !matches!(entry.first, Flat::Unknown)
        || !entry.second.first.is_empty()
        || entry.second.second.dropped() != 0
}
