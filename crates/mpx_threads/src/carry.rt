//! A rank in a thread: it carries out its statements as far as it can.
ghost use Rattle.std.specs.Prelude.{◌≡◌, ◌<◌, IfOk};
ghost use Rattle.mpx_meaning.specs.Ends.{end_view};
ghost use Rattle.mpx_threads.specs.Plans.{IsPlannedByScript};
ghost use Rattle.mpx_threads.specs.Work.{HasCome};

use crate::desk::ThreadDesk;
use crate::looks::Looks;
use join_core::OutOfMemory;
use mpx_birth::Birth;
use mpx_group::Proc;
use mpx_meaning::RankEnd;
use mpx_name::Name;
use mpx_num::{Listing, Ops};
use mpx_rank::Interpreter;
use mpx_script::Script;
use mpx_shared::{PortLock, Poster, SharedPort};
use std::alloc::Global;
use std::sync::Wait;

/// What a rank leaves when it goes no further: how it ends, and the right to post.
#[derive(Drop)]
pub(crate) struct Carried<L: PortLock> {
    pub(crate) end: RankEnd,
    pub(crate) poster: Poster<L>,
}

/// Carries out the statements of a rank, until it has none left, or there is nothing more to come for it.
pub(crate) fn carry_out<L: PortLock, R: Wait>(
    rt: &R,
    alloc: Global,
    script: &Script,
    me: Proc,
    port: &SharedPort<L>,
    looks: &Looks<'_>,
    poster: Poster<L>,
    ops: &Ops,
) -> Result<Carried<L>, OutOfMemory>
    requires list { ⟦<Ops as Listing>⟧.operations ops.now ≡ L.setup.operations }
    requires ledger { (L.all ≡ L.parts) × (0 < L.parts) }
    requires me { (me ≡ L.me) × (me < script.now.ranks) }
    requires new { (L.before ≡ 0) × (poster.share.amount ≡ 0) }
    requires plan { IsPlannedByScript script.now L.setup }
    ensures { IfOk result (λ carried. HasCome script.now L.setup me carried.poster.share.amount (end_view carried.end)) }
{
    // Each exit owns little, and none of them is a `?`, which is two calls more: the prover has each step with all that is alive.
    let world = match Birth::world(alloc, script.ranks()) {
        Ok(birth) => Some((Name::world(alloc), birth)),
        Err(e) => return Err(e),
    };
    let mut rank = match Interpreter::new(alloc, me, world, script.statements(me.number())) {
        Ok(rank) => rank,
        Err(e) => return Err(e),
    };
    let mut desk = ThreadDesk::new(alloc, rt, port, looks, poster);
    let moved = rank.go_on(alloc, &mut desk, ops);
    let end = rank.into_end(alloc);
    let poster = desk.into_poster();
    match moved {
        Ok(_) => match end {
            Ok(end) => Ok(Carried { end, poster }),
            Err(e) => Err(e),
        },
        Err(e) => Err(e),
    }
}
