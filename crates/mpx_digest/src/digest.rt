//! How many calls of each process are known.
ghost use Rattle.std.specs.Prelude.{◌≡◌, ◌<◌, ◌||◌, ℕ, Bool, IfOk, IsTrue, true, false, cond, get_or};
ghost use Rattle.std.specs.FinMap.{entries};
ghost use Rattle.join_core.specs.FlatSeen.{flat_view};
ghost use Rattle.mpx_board.specs.Boards.{told};
ghost use Rattle.mpx_board.specs.Looks.{look, parts_of};
ghost use Rattle.mpx_board.specs.Tidy.{all_entries, are_tidy_numbers, is_tidy_call, is_tidy_lifted};
ghost use Rattle.mpx_board.specs.Views.{view_of_acks, view_of_call, view_of_calls, view_of_entry, view_of_lifted, view_of_numbers};
ghost use Rattle.mpx_group.specs.Group.{has};
ghost use Rattle.mpx_post.specs.Drafts.{most_calls};
ghost use Rattle.mpx_digest.specs.Beyond.{digest_above, numbers_above};
ghost use Rattle.mpx_digest.specs.Digest.{IsDigest, IsDigestBeyond, numbers_acked};
ghost use Rattle.mpx_digest.specs.Reach.{AreMarks, digest_lifted, digest_numbers, has_posted, is_member_of, is_told_of, next_number, reach};

use crate::quiet::says_all;
use join_core::{Exact, Flat, Max, OutOfMemory};
use join_nest::{Keyed, Lift, Trunc};
use mpx_birth::Birth;
use mpx_board::{Board, CallPosts, Digest, Entry, Lifted, VersionVector, is_told};
use mpx_group::Proc;
use mpx_name::Name;
use std::alloc::Global;

/// For each live context, and each process that is a member or has a post there, how many of its calls are told or dropped,
/// in order up to the first gap. Dead contexts are left out. An `Err` is want of memory.
pub fn digest_of(alloc: Global, board: &Board) -> Result<Digest, OutOfMemory>
    ensures digest { IfOk result (λ made. IsDigest (numbers_acked (view_of_acks made)) (look board.now)) }
    ensures tidy { IfOk result (λ made. IsTrue (are_tidy_numbers (view_of_acks made))) }
{
    let mut made = Vec::new(alloc);
    for (name, known) in board.pair().first.entries() {
        let numbers = lifted_digest(alloc, known)?;
        if !numbers.is_empty() {
            made.push((name.copy(alloc)?, numbers))?;
        }
    }
    Ok(Keyed::from_rising(made))
}

/// As [`digest_of`], without contexts that have no post held and of which the process says as much already. An `Err` is want of memory.
pub fn digest_beyond(alloc: Global, board: &Board, me: Proc) -> Result<Digest, OutOfMemory>
    ensures digest { IfOk result (λ made. IsDigestBeyond me (numbers_acked (view_of_acks made)) (look board.now)) }
    ensures tidy { IfOk result (λ made. IsTrue (are_tidy_numbers (view_of_acks made))) }
{
    match board.pair().second.get(&me) {
        None => digest_of(alloc, board),
        Some(said) => digest_above(alloc, board, said),
    }
}

// The digest, without quiet contexts of which these say as much.
fn digest_above(alloc: Global, board: &Board, said: &Digest) -> Result<Digest, OutOfMemory>
    ensures { IfOk result (λ made. view_of_acks made ≡ digest_above (view_of_acks said.now) (parts_of board.now)) }
{
    let mut made = Vec::new(alloc);
    let mut near = 0usize;
    for (name, known) in board.pair().first.entries() {
        let numbers = numbers_above(alloc, said, near, name, known)?;
        if !numbers.is_empty() {
            made.push((name.copy(alloc)?, numbers))?;
        }
        near = near.wrapping_add(1);
    }
    Ok(Keyed::from_rising(made))
}

// The digest of one context, whose name is looked for at the place first: empty where these say as much.
fn numbers_above(
    alloc: Global,
    said: &Digest,
    near: usize,
    name: &Name,
    known: &Lifted,
) -> Result<VersionVector, OutOfMemory>
    requires { is_tidy_lifted (view_of_lifted known.now) ≡ true }
    ensures { IfOk result (λ made. view_of_numbers made ≡ numbers_above (view_of_acks said.now) name.now (view_of_lifted known.now)) }
{
    if says_all(said, near, name, known) {
        return Ok(Keyed::new(alloc));
    }
    lifted_digest(alloc, known)
}

// The digest of one context: for each process how many calls are told or dropped in order. Of a dead one it is empty.
fn lifted_digest(alloc: Global, known: &Lifted) -> Result<VersionVector, OutOfMemory>
    requires { is_tidy_lifted (view_of_lifted known.now) ≡ true }
    ensures { IfOk result (λ made. view_of_numbers made ≡ digest_lifted (view_of_lifted known.now)) }
{
    match known {
        Lift::Live(entry) => entry_digest(alloc, entry),
        Lift::Dead => Ok(Keyed::new(alloc)),
    }
}

// And of a live one.
fn entry_digest(alloc: Global, entry: &Entry) -> Result<VersionVector, OutOfMemory>
    requires { all_entries is_tidy_call (view_of_entry entry.now).1.1.calls ≡ true }
    ensures { IfOk result (λ made. view_of_numbers made ≡ digest_numbers (view_of_entry entry.now)) }
{
    let are_members = members_of(&entry.first);
    let have_posted = posters_of(&entry.second.second);
    let reached = reaches(&entry.second.second);
    let mut made = Vec::with_capacity(alloc, most_of(&entry.first))?;
    for process in 0..64 {
        let number = digest_number(&are_members, &have_posted, &reached, process);
        if number != 0 {
            made.push((Proc::new(process), Max(number)))?;
        }
    }
    Ok(Keyed::from_rising(made))
}

// So many members, where these are known.
fn most_of(birth: &Flat<Birth>) -> usize {
    match birth {
        Flat::Known(birth) => birth.members().len(),
        _ => 0,
    }
}

// How far the process has come, where it is a member or has a post.
fn digest_number(
    are_members: &[bool; 64],
    have_posted: &[bool; 64],
    reached: &[u32; 64],
    process: u8,
) -> u32
    requires { process < 64 }
    ensures { result ≡ cond (get_or are_members.now process false || get_or have_posted.now process false) (get_or reached.now process 0) 0 }
{
    let at = process as usize;
    if are_members[at] || have_posted[at] {
        reached[at]
    } else {
        0
    }
}

// For each process whether it is known as a member.
fn members_of(birth: &Flat<Birth>) -> [bool; 64]
    ensures { AreMarks (λ p. is_member_of p (told (flat_view (λ v. v) birth.now))) result }
{
    match birth {
        Flat::Known(birth) => marks_of(birth.members()),
        Flat::Unknown => [false; 64],
        Flat::Clash => [false; 64],
    }
}

// For each process whether it is one of these.
fn marks_of(members: &[Proc]) -> [bool; 64]
    ensures { AreMarks (has members.now) result }
{
    let mut marks = [false; 64];
    for member in members {
        marks[member.number() as usize] = true;
    }
    marks
}

// For each process whether it has a post.
fn posters_of(calls: &Trunc<CallPosts>) -> [bool; 64]
    ensures { AreMarks (λ p. has_posted p (entries (view_of_calls calls.now).calls)) result }
{
    let mut marks = [false; 64];
    for call in calls.entries() {
        mark_posters(&call.1, &mut marks);
    }
    marks
}

// Marks the processes whose posts are told.
fn mark_posters(posts: &CallPosts, marks: &mut [bool; 64])
    ensures { (before : ℕ → Bool) → AreMarks before marks.old → AreMarks (λ p. before p || is_told_of p (view_of_call posts.now)) marks.new }
{
    for (process, post) in posts.entries() {
        if !matches!(post, Flat::Unknown) {
            marks[process.number() as usize] = true;
        }
    }
}

// How many calls of each process are told or dropped, in order up to the first gap, in one pass over the posts.
fn reaches(calls: &Trunc<CallPosts>) -> [u32; 64]
    requires { all_entries is_tidy_call (view_of_calls calls.now).calls ≡ true }
    ensures { (p : ℕ) → p < 64 → get_or result p 0 ≡ reach p (view_of_calls calls.now).dropped (entries (view_of_calls calls.now).calls) }
{
    let mut numbers = [calls.dropped(); 64];
    for call in calls.entries() {
        reach_call(call.0, &call.1, &mut numbers);
    }
    numbers
}

// Steps over this call, for each process with a post on it that has come so far.
fn reach_call(call: u32, posts: &CallPosts, numbers: &mut [u32; 64])
    requires { call < most_calls }
    ensures { (p : ℕ) → p < 64 → get_or numbers.new p 0 ≡ next_number call (is_told_of p (view_of_call posts.now)) (get_or numbers.old p 0) }
{
    for (process, post) in posts.entries() {
        let at = process.number() as usize;
        numbers[at] = next_number(call, is_told(post), numbers[at]);
    }
}

// The number past the call, where that is the number's and its post is told.
fn next_number(call: u32, told: bool, number: u32) -> u32
    requires { call < most_calls }
    ensures { result ≡ next_number call told number }
{
    if told && number == call {
        call + 1
    } else {
        number
    }
}
