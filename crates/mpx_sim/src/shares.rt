//! Work at each place of a list, in threads that are all begun by the one that waits for them.
ghost use Rattle.std.specs.Prelude.{◌≡◌, ◌+◌, ◌^◌, ◌<◌, length};
ghost use denote.Param.Send.{IsSync, IsSend};
ghost use Rattle.std.specs.Fork.{AcceptsAt, AcceptsEach, ChangesAt, ChangesEach};
ghost use Rattle.mpx_sim.specs.Shares.{AcceptsFrom, ChangesFrom};

use std::marker::{Send, Sync};
use std::thread::{Threads, join_mut};

/// Does the work at each place, in at most so many threads, each of which has places next to each other, and no more threads than places. The
/// calling thread begins all others, one after the other, since halves of halves, as `for_each_mut` makes them, begin later. It does the last
/// share itself, which is greater, since it has no thread to wait for.
pub(crate) fn for_each_share<R: Threads + Sync, T: Send, F: Fn(usize, &mut T) + Sync>(
    rt: &R,
    places: &mut [T],
    threads: usize,
    work: &F,
)
    requires accepts { AcceptsEach F.Fn work.now places.old }
    ensures { ChangesEach F.Fn work.now places.old places.new }
{
    let threads = threads.min(places.len());
    share_out(rt, work, 0, threads, places);
}

// Does the work at each place, of which the first has this number: the first share in a thread of its own, the others in one fewer.
#[cycle(shares)]
fn share_out<R: Threads + Sync, T: Send, F: Fn(usize, &mut T) + Sync>(
    rt: &R,
    work: &F,
    first: usize,
    threads: usize,
    places: &mut [T],
)
    requires room { first + length places.old < 2 ^ 64 }
    requires accepts { AcceptsFrom F.Fn work.now first places.old }
    ensures { ChangesFrom F.Fn work.now first places.old places.new }
{
    if threads < 2 || places.len() < threads {
        in_turn(work, first, places);
        return;
    }
    let even = places.len() / threads;
    let share = even - even / 6;
    let (front, rest) = places.split_at_mut(share);
    both(rt, work, first, front, first + share, threads - 1, rest);
}

// Does the work of a share in a thread of its own, and the rest in this one and so many less one.
#[cycle(shares)]
fn both<R: Threads + Sync, T: Send, F: Fn(usize, &mut T) + Sync>(
    rt: &R,
    work: &F,
    first: usize,
    share: &mut [T],
    next: usize,
    threads: usize,
    rest: &mut [T],
)
    requires room { first + length share.old < 2 ^ 64 }
    requires room_behind { next + length rest.old < 2 ^ 64 }
    requires accepts { AcceptsFrom F.Fn work.now first share.old }
    requires accepts_behind { AcceptsFrom F.Fn work.now next rest.old }
    ensures share { ChangesFrom F.Fn work.now first share.old share.new }
    ensures rest { ChangesFrom F.Fn work.now next rest.old rest.new }
{
    let mut front = ||
        requires { IsSync F.row × IsSend T.row × (first + length share.now < 2 ^ 64) × AcceptsFrom F.Fn work.now first share.now }
        ensures { ChangesFrom F.Fn work.entry.now first share.entry.now share.exit.now }
    { in_turn(work, first, share) };
    let mut back = ||
        requires { IsSync R.row × IsSync F.row × IsSend T.row × (next + length rest.now < 2 ^ 64) × AcceptsFrom F.Fn work.now next rest.now }
        ensures { ChangesFrom F.Fn work.entry.now next rest.entry.now rest.exit.now }
    { share_out(rt, work, next, threads, rest) };
    join_mut(rt, &mut front, &mut back);
}

// Does the work at each place, one after the other.
fn in_turn<T, F: Fn(usize, &mut T)>(work: &F, first: usize, places: &mut [T])
    requires room { first + length places.old < 2 ^ 64 }
    requires accepts { AcceptsFrom F.Fn work.now first places.old }
    ensures { ChangesFrom F.Fn work.now first places.old places.new }
{
    for place in 0..places.len() {
        at_one(work, first + place, &mut places[place]);
    }
}

// Does the work at one place.
fn at_one<T, F: Fn(usize, &mut T)>(work: &F, number: usize, it: &mut T)
    requires { AcceptsAt F.Fn work.now number it.old }
    ensures { ChangesAt F.Fn work.now number it.old it.new }
{
    work(number, it);
}
