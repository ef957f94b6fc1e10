//! Numbers of calls by process joined as their bytes are read, four at once as long as the taker has the same processes.
ghost use Rattle.std.specs.Prelude.{◌≡◌, ◌+◌, ◌++◌, ◌≤◌, ◌<◌, ℕ, IfOk, IfSome, IsTrue, OnErr, IfNone, get_or, length, max, set};
ghost use Rattle.std.specs.Ordering.{nat_cmp};
ghost use Rattle.std.specs.FinMap.{is_sorted};
ghost use Rattle.join_core.specs.Max.{max_joining};
ghost use Rattle.join_core.specs.Joins.{old_or_joined};
ghost use Rattle.join_nest.specs.Between.{keyed_between};
ghost use Rattle.join_nest.specs.Keyed.{keyed_joining};
ghost use Rattle.join_nest.specs.Seen.{keyed_view};
ghost use Rattle.mpx_format.specs.Fields.{process, some_calls};
ghost use Rattle.mpx_decode.specs.Raising.{JoinsFront, RaisesRows, StandsInFront, StopsBetween, row, rows};

use crate::join_rows::raise_entry;
use crate::process_numbers::{front_row, read_rows};
use join_core::{Join, Max, OutOfMemory};
use join_nest::Keyed;
use mpx_format::Version;
use mpx_group::Proc;
use mpx_rope::{Beyond, Source};
use std::mem;

// Where at least so many are new, they are read as a list, to which the taker's are joined: each that is put in moves all behind it.
const FEWEST_NEW: usize = 4;

// Joins so many numbers at the front, one after the other.
pub fn raise_numbers<'a>(
    version: Version,
    beyond: &mut Beyond<'a>,
    entries: &mut Vec<(Proc, Max)>,
    count: usize,
    bytes: &'a [u8],
) -> Result<&'a [u8], OutOfMemory>
    requires rising { IsTrue (is_sorted nat_cmp entries.old.items) }
    requires spelled { StandsInFront (rows nat_cmp process some_calls count) (bytes.now ++ beyond.old) }
    ensures ok { IfOk result (λ rest. JoinsFront (rows nat_cmp process some_calls count) (keyed_joining max_joining) (bytes.now ++ beyond.old) (rest.now ++ beyond.new)
        (keyed_view nat_cmp (λ n. n.0) entries.old.items) (keyed_view nat_cmp (λ n. n.0) entries.new.items)) }
    ensures err { OnErr result (StopsBetween (rows nat_cmp process some_calls count) (keyed_between (old_or_joined max_joining)) (bytes.now ++ beyond.old)
        (keyed_view nat_cmp (λ n. n.0) entries.old.items) (keyed_view nat_cmp (λ n. n.0) entries.new.items)) }
    ensures rising { IsTrue (is_sorted nat_cmp entries.new.items) }
    ensures less { length beyond.new ≤ length beyond.old }
{
    if entries.len() + FEWEST_NEW <= count {
        return merge_numbers(version, beyond, entries, count, bytes);
    }
    let (done, behind) = raise_fours(entries, count, bytes);
    let mut next = done;
    let mut rest = behind;
    for _ in done..count {
        let (after, left) = raise_entry(version, beyond, entries, next, rest)?;
        next = after;
        rest = left;
    }
    Ok(rest)
}

// Joins so many numbers at the front, in one pass over both: the taker's to those that are read.
fn merge_numbers<'a>(
    version: Version,
    beyond: &mut Beyond<'a>,
    entries: &mut Vec<(Proc, Max)>,
    count: usize,
    bytes: &'a [u8],
) -> Result<&'a [u8], OutOfMemory>
    requires rising { IsTrue (is_sorted nat_cmp entries.old.items) }
    requires spelled { StandsInFront (rows nat_cmp process some_calls count) (bytes.now ++ beyond.old) }
    ensures ok { IfOk result (λ rest. JoinsFront (rows nat_cmp process some_calls count) (keyed_joining max_joining) (bytes.now ++ beyond.old) (rest.now ++ beyond.new)
        (keyed_view nat_cmp (λ n. n.0) entries.old.items) (keyed_view nat_cmp (λ n. n.0) entries.new.items)) }
    ensures err { OnErr result (StopsBetween (rows nat_cmp process some_calls count) (keyed_between (old_or_joined max_joining)) (bytes.now ++ beyond.old)
        (keyed_view nat_cmp (λ n. n.0) entries.old.items) (keyed_view nat_cmp (λ n. n.0) entries.new.items)) }
    ensures rising { IsTrue (is_sorted nat_cmp entries.new.items) }
    ensures less { length beyond.new ≤ length beyond.old }
{
    let Ok((read, rest)) = read_rows(version, Source::of(beyond.alloc()), count, bytes) else {
        return Err(OutOfMemory);
    };
    let held = Keyed::from_rising(mem::replace(entries, Vec::new(beyond.alloc())));
    let mut all = Keyed::from_rising(read);
    match all.join_in(beyond.alloc(), &held) {
        Err(e) => {
            *entries = held.into_entries();
            Err(e)
        }
        Ok(()) => {
            *entries = all.into_entries();
            Ok(rest)
        }
    }
}

// Joins fours of them, as long as they stand at the taker's first processes. Tells how many were joined, and the bytes after them.
fn raise_fours<'a>(
    entries: &mut Vec<(Proc, Max)>,
    count: usize,
    bytes: &'a [u8],
) -> (usize, &'a [u8])
    requires { IsTrue (is_sorted nat_cmp entries.old.items) }
    ensures few { result.0 ≤ count }
    ensures joined { RaisesRows nat_cmp (λ n. n.0) (row process some_calls) max_joining result.0 bytes.now result.1.now entries.old.items entries.new.items }
    ensures rising { IsTrue (is_sorted nat_cmp entries.new.items) }
{
    let fours = count.min(entries.len()) / 4;
    let mut rest = bytes;
    for i in 0..fours {
        match raise_four(entries, 4 * i, rest) {
            None => return (4 * i, rest),
            Some(after) => rest = after,
        }
    }
    (4 * fours, rest)
}

// Joins the four numbers at the front to those from this place on, where they are of the same processes.
fn raise_four<'a>(entries: &mut Vec<(Proc, Max)>, at: usize, bytes: &'a [u8]) -> Option<&'a [u8]>
    requires within { at + 4 ≤ length entries.old.items }
    requires rising { IsTrue (is_sorted nat_cmp entries.old.items) }
    ensures joined { IfSome result (λ rest. RaisesRows nat_cmp (λ n. n.0) (row process some_calls) max_joining 4 bytes.now rest.now entries.old.items entries.new.items) }
    ensures others { IfNone result (entries.new.items ≡ entries.old.items) }
    ensures rising { IsTrue (is_sorted nat_cmp entries.new.items) }
    ensures len { length entries.new.items ≡ length entries.old.items }
{
    if bytes.len() < 20 {
        return None;
    }
    let (p, a, rest) = front_row(bytes)?;
    let (q, b, rest) = front_row(rest)?;
    let (r, c, rest) = front_row(rest)?;
    let (s, d, rest) = front_row(rest)?;
    if p != entries[at].0.number()
        || q != entries[at + 1].0.number()
        || r != entries[at + 2].0.number()
        || s != entries[at + 3].0.number()
    {
        return None;
    }
    if a == 0 || b == 0 || c == 0 || d == 0 {
        return None;
    }
    raise_at(entries, at, a);
    raise_at(entries, at + 1, b);
    raise_at(entries, at + 2, c);
    raise_at(entries, at + 3, d);
    Some(rest)
}

// Raises the number at the place to this one, where it is less.
fn raise_at(entries: &mut Vec<(Proc, Max)>, at: usize, number: u32)
    requires { at < length entries.old.items }
    ensures { (e : ℕ × Max) → e ≡ get_or entries.old.items at e → entries.new.items ≡ set entries.old.items at (e.0, record { 0 = max e.1.0 number }) }
{
    let held = entries[at].1.0;
    entries[at].1 = Max(held.max(number));
}
