//! A process of a job in its thread: a rank runs the program and then gossips on for the others, a relay gossips alone.
ghost use Rattle.std.specs.Prelude.{◌≡◌, ◌<◌, ◌≤◌, false, IfSome, IsSome};
ghost use Rattle.mpx_bus.specs.Buses.{table_of};
ghost use Rattle.mpx_bus.specs.Ports.{IsNew};
ghost use Rattle.mpx_ranks.specs.Members.{IsSeated, setup_of};
ghost use Rattle.mpx_ranks.specs.Ranks.{AreQuitters, HasAnswered, HasWorked, IsReady};

use crate::crew::{Crew, Job, Quitter};
use crate::folds::Folds;
use crate::member::Member;
use crate::program::Program;
use crate::seat::Seat;
use crate::start::{Place, Start};
use mpx_at_once::Task;
use mpx_bus::{Bus, Port};
use mpx_comm::{Comm, Desk};
use mpx_num::{Listing, Ops};
use std::alloc::Global;
use std::marker::Brand;
use std::sync::Wait;

/// What a process has to do, its place where the threads meet, and its port.
#[derive(Drop)]
pub(crate) struct Work<'a, K: Job, P, R> {
    pub(crate) rt: &'a R,
    pub(crate) alloc: Global,
    pub(crate) bus: &'a Bus,
    pub(crate) crew: &'a Crew<K>,
    pub(crate) start: &'a Start<K>,
    pub(crate) place: Place<K>,
    pub(crate) program: &'a P,
    pub(crate) ranks: u8,
    pub(crate) size: u8,
    pub(crate) me: u8,
    pub(crate) port: Port,
}

/// A process when it has worked: its port, and of a rank its answer, where it was let begin.
#[derive(Drop)]
pub(crate) struct Worked<A> {
    pub(crate) port: Port,
    pub(crate) answer: Option<A>,
}

impl<'a, K: Job, P: Program, R: Wait> Task<Ops> for Work<'a, K, P, R> {
    type Output = Worked<P::Answer>;

    ghost can_run = { λ t operations. (t.ranks ≤ 64) × IsReady operations t.ranks t.size t.me (table_of t.bus.now) t.port × AreQuitters (P.gives t.program.now) (P.has_given_up t.program.now) (setup_of operations t.ranks t.size) K.gave_up };

    ghost gives = { λ t r. HasWorked (P.gives t.program.now) t.port.setup.operations t.ranks t.size t.me (table_of t.bus.now) r.port r.answer };

    fn run(self, ops: &Ops) -> Worked<P::Answer> {
        carry_out(self, ops)
    }
}

// The port is the process's own, whichever that is.
fn carry_out<'a, K: Job, P: Program, R: Wait>(
    work: Work<'a, K, P, R>,
    ops: &Ops,
) -> Worked<P::Answer>
    requires few { work.ranks ≤ 64 }
    requires port { IsReady (⟦<Ops as Listing>⟧.operations ops.now) work.ranks work.size work.me (table_of work.bus.now) work.port }
    requires quitters { AreQuitters (P.gives work.program.now) (P.has_given_up work.program.now) (setup_of (⟦<Ops as Listing>⟧.operations ops.now) work.ranks work.size) K.gave_up }
    ensures { HasWorked (P.gives work.entry.program.now) work.entry.port.setup.operations work.entry.ranks work.entry.size work.entry.me (table_of work.entry.bus.now) result.port result.answer }
{
    let Work {
        rt,
        alloc,
        bus,
        crew,
        start,
        place,
        program,
        ranks,
        size: _,
        me,
        port,
    } = work;
    if me < ranks {
        return work_as_rank::<Brand, Ops, K, P, R>(
            rt, alloc, bus, crew, start, place, program, ranks, me, port, ops, ops,
        );
    }
    let port = work_as_relay::<Brand, Ops, K, R>(rt, alloc, bus, crew, start, place, me, port, ops);
    Worked { port, answer: None }
}

// A rank runs the program, and then gossips on until all ranks have returned. The list of operations comes twice: by its own type for the
// program's calls, and by any for the member.
fn work_as_rank<L: Seat, O: Folds, K: Job, P: Program, R: Wait>(
    rt: &R,
    alloc: Global,
    bus: &Bus,
    crew: &Crew<K>,
    start: &Start<K>,
    place: Place<K>,
    program: &P,
    ranks: u8,
    me: u8,
    port: Port,
    list: &O,
    ops: &Ops,
) -> Worked<P::Answer>
    requires queue { table_of bus.now ≡ L.table }
    requires list { O.operations list.now ≡ L.setup.operations }
    requires free { L.setup.planned ≡ false }
    requires me { me ≡ L.me }
    requires rank { me < ranks }
    requires few { ranks ≤ 64 }
    requires count { L.setup.ranks ≡ ranks }
    requires port { IsNew L.setup L.table me port }
    requires quitters { AreQuitters (P.gives program.now) (P.has_given_up program.now) L.setup K.gave_up }
    ensures sits { IsSeated L.table L.setup L.me result.port }
    ensures gave { IfSome result.answer (λ a. HasAnswered (P.gives program.now) L.setup me a result.port.journal) }
{
    let Ok(came) = crew.begins(rt, start, place) else {
        return Worked { port, answer: None };
    };
    let member = Member::<L, O, K, R>::new(rt, bus, list, crew, start, came, me, port);
    let mut desk = Desk::new(alloc, member);
    let world = Comm::world(alloc, ranks, me);
    let answer = program.run(alloc, &mut desk, &world, ops);
    let _told = crew.returns(rt, quitter_of(program, me, &answer));
    let mut host = desk.into_host();
    host.gossip_on(alloc);
    let port = host.into_port();
    Worked {
        port,
        answer: Some(answer),
    }
}

// That the rank has given up, where the program says so of its answer.
fn quitter_of<K: Job, P: Program>(program: &P, me: u8, answer: &P::Answer) -> Option<Quitter<K>>
    requires { P.has_given_up program.now answer.now → K.gave_up me }
    ensures rank { IfSome result (λ quitter. quitter.rank ≡ me) }
    ensures said { IsSome result → P.has_given_up program.now answer.now }
{
    if program.gives_up(answer) {
        return Some(Quitter::new(me));
    }
    None
}

// A relay gossips until all ranks have returned.
fn work_as_relay<L: Seat, O: Folds, K: Job, R: Wait>(
    rt: &R,
    alloc: Global,
    bus: &Bus,
    crew: &Crew<K>,
    start: &Start<K>,
    place: Place<K>,
    me: u8,
    port: Port,
    list: &O,
) -> Port
    requires queue { table_of bus.now ≡ L.table }
    requires list { O.operations list.now ≡ L.setup.operations }
    requires free { L.setup.planned ≡ false }
    requires me { me ≡ L.me }
    requires port { IsNew L.setup L.table me port }
    ensures { IsSeated L.table L.setup L.me result }
{
    let Ok(came) = crew.begins(rt, start, place) else {
        return port;
    };
    let mut member = Member::<L, O, K, R>::new(rt, bus, list, crew, start, came, me, port);
    member.gossip_on(alloc);
    member.into_port()
}
