//! What all processes say that they have.
ghost use Rattle.std.specs.Prelude.{◌≡◌, ◌<◌, ◌≤◌, ℕ, IfOk, IsTrue, min};
ghost use Rattle.std.specs.FinMap.{get};
ghost use Rattle.mpx_name.specs.Name.{Name as NameView};
ghost use Rattle.mpx_board.specs.Looks.{look};
ghost use Rattle.mpx_board.specs.Tidy.{are_tidy_numbers};
ghost use Rattle.mpx_board.specs.Views.{view_of_acks, view_of_numbers};
ghost use Rattle.mpx_digest.specs.Digest.{numbers_acked};
ghost use Rattle.mpx_digest.specs.Keep.{keep};
ghost use Rattle.mpx_delta.specs.Digests.{common_on};
ghost use Rattle.mpx_delta.specs.Least.{least, least_number, least_numbers};

use join_core::{Exact, Join, Key, Max, OutOfMemory};
use join_nest::Keyed;
use mpx_board::{Board, Digest, VersionVector};
use mpx_digest::value_near;
use mpx_group::Proc;
use mpx_name::Name;
use std::alloc::Global;
use std::cmp::Ordering;

/// For each context and process the least number that one of the first `processes` processes acknowledges, 1 to 64 of them. An `Err`
/// is want of memory.
pub fn common(alloc: Global, board: &Board, processes: u8) -> Result<Digest, OutOfMemory>
    requires some { 0 < processes }
    requires few { processes ≤ 64 }
    ensures least { IfOk result (λ made. (name : NameView) (p : ℕ) → numbers_acked (view_of_acks made) name p ≡ common_on processes (look board.now) name p) }
    ensures tidy { IfOk result (λ made. IsTrue (are_tidy_numbers (view_of_acks made))) }
{
    let mut made = acks_of(alloc, board, Proc::new(0))?;
    for number in 1..processes {
        if made.is_empty() {
            return Ok(made);
        }
        made = least_of(alloc, board, Proc::new(number), made)?;
    }
    Ok(made)
}

// What the process acknowledges.
fn acks_of(alloc: Global, board: &Board, process: Proc) -> Result<Digest, OutOfMemory>
    ensures numbers { IfOk result (λ made. (name : NameView) (p : ℕ) → numbers_acked (view_of_acks made) name p ≡ (look board.now).acks process name p) }
    ensures tidy { IfOk result (λ made. IsTrue (are_tidy_numbers (view_of_acks made))) }
{
    match board.pair().second.get(&process) {
        None => Ok(Keyed::new(alloc)),
        Some(acks) => acks.copy(alloc),
    }
}

// The lesser of these numbers and those that the process acknowledges: mostly these, since the least is soon found.
fn least_of(
    alloc: Global,
    board: &Board,
    process: Proc,
    numbers: Digest,
) -> Result<Digest, OutOfMemory>
    requires { IsTrue (are_tidy_numbers (view_of_acks numbers)) }
    ensures least { IfOk result (λ made. (name : NameView) (p : ℕ) → numbers_acked (view_of_acks made) name p
        ≡ min (numbers_acked (view_of_acks numbers) name p) ((look board.now).acks process name p)) }
    ensures tidy { IfOk result (λ made. IsTrue (are_tidy_numbers (view_of_acks made))) }
{
    match board.pair().second.get(&process) {
        None => Ok(Digest::new(alloc)),
        Some(acks) => {
            if numbers.leq(acks) {
                return Ok(numbers);
            }
            least(alloc, &numbers, acks)
        }
    }
}

// The lesser numbers of both, where both have one, in one walk of both.
fn least(alloc: Global, numbers: &Digest, others: &Digest) -> Result<Digest, OutOfMemory>
    ensures { IfOk result (λ made. view_of_acks made ≡ least (view_of_acks numbers.now) (view_of_acks others.now)) }
{
    let mut made = Vec::new(alloc);
    made.reserve(numbers.len())?;
    let mut at = 0;
    for (name, of_name) in numbers.entries() {
        at = place_from(others.entries(), at, name);
        let least = least_on(alloc, name, of_name, others, at)?;
        if !least.is_empty() {
            made.push((name.copy(alloc)?, least))?;
        }
    }
    Ok(Keyed::from_rising(made))
}

// The lesser numbers of one context, by process, where both have one: the other side's are looked for at the place first.
fn least_on(
    alloc: Global,
    name: &Name,
    numbers: &VersionVector,
    others: &Digest,
    at: usize,
) -> Result<VersionVector, OutOfMemory>
    ensures { IfOk result (λ made. view_of_numbers made ≡ least_numbers (view_of_numbers numbers.now) (get (view_of_acks others.now) name.now)) }
{
    match value_near(others, at, name) {
        None => Ok(Keyed::new(alloc)),
        Some(others) => least_numbers(alloc, numbers, others),
    }
}

fn least_numbers(
    alloc: Global,
    numbers: &VersionVector,
    others: &VersionVector,
) -> Result<VersionVector, OutOfMemory>
    ensures { IfOk result (λ made. view_of_numbers made ≡ keep (least_number (view_of_numbers others.now)) (view_of_numbers numbers.now)) }
{
    let mut made = Vec::new(alloc);
    made.reserve(numbers.len())?;
    let mut at = 0;
    for (process, number) in numbers.entries() {
        at = place_from(others.entries(), at, process);
        if let Some(other) = value_near(others, at, process) {
            made.push((*process, Max(number.0.min(other.0))))?;
        }
    }
    Ok(Keyed::from_rising(made))
}

// The first place from this one on whose key isn't smaller.
pub fn place_from<K: Key, J>(entries: &[(K, J)], from: usize, key: &K) -> usize {
    let mut at = from;
    while at < entries.len() && entries[at].0.cmp(key) == Ordering::Less {
        at += 1;
    }
    at
}
