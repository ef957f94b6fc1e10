//! A job: so many ranks that all run one program, each in a thread of its own.
ghost use Rattle.std.specs.Prelude.{◌≡◌, ◌≢◌, ◌+◌, ◌<◌, ◌≤◌, ◌++◌, ◌∷◌, [], ◌⊎◌, map, slice_get, length, take, Some, IfErr, IfOk, IsErrOf, OnOk};
ghost use Rattle.mpx_bus.specs.Buses.{table_of};
ghost use Rattle.mpx_bus.specs.Meetings.{HaveAllMet};
ghost use Rattle.mpx_bus.specs.Ports.{IsFleet, node_in};
ghost use Rattle.mpx_node.specs.Shown.{node_of};
ghost use Rattle.mpx_ranks.specs.Members.{setup_of};
ghost use Rattle.mpx_ranks.specs.Ranks.{AreQuitters, HaveRun};
ghost use Rattle.mpx_ranks.specs.Works.{AreOfBus, AreWorks, answer_of, port_of};

use crate::crew::{Crew, Job};
use crate::program::Program;
use crate::start::{Places, Start};
use crate::work::{Work, Worked};
use join_core::OutOfMemory;
use mpx_at_once::{AtOnceError, all_at_once};
use mpx_bus::{Bus, Named, Port};
use mpx_node::{Node, drop_nodes};
use mpx_num::{Listing, Ops};
use std::alloc::Global;
use std::marker::Brand;
use std::sync::Wait;
use std::sync::ledger::Blank;
use std::thread::Threads;
use thiserror::Error;

/// So many frames have room in the queue of a job.
const ROOM: usize = 256;

/// What comes of a job.
#[derive(Drop)]
pub struct Ran<A> {
    /// What each rank answered, in rank order.
    pub answers: Vec<A>,
    /// The node of each process in the end: first those of the ranks, then the relays'. Who wants to ask further asks them.
    pub nodes: Vec<Node>,
}

impl<A: Drop> Ran<A> {
    /// The answers alone. The nodes are dropped here, so that the caller's crate doesn't prove how.
    pub fn into_answers(self) -> Vec<A>
        ensures { result.items ≡ self.answers.items }
    {
        let Ran { answers, nodes } = self;
        drop_nodes(nodes);
        answers
    }
}

/// Why a job came to nothing.
#[derive(Clone, Copy, Debug, Drop, PartialEq, Eq, Error)]
pub enum RanksError {
    /// There are no ranks, or more than 64 ranks and relays.
    #[error("a job has 1 to 64 ranks, and at most 64 ranks and relays")]
    BadCount,
    /// Memory was wanting.
    #[error("out of memory")]
    OutOfMemory,
    /// The system refused a thread.
    #[error("the system refused a thread")]
    NoThread,
}

impl From<OutOfMemory> for RanksError {
    ghost use Rattle.mpx_ranks.specs.declared.job.RanksError.TheVariants.{OutOfMemory};

    ghost from_gives = { λ _ e. e ≡ OutOfMemory };

    fn from(_e: OutOfMemory) -> RanksError {
        RanksError::OutOfMemory
    }
}

/// Runs a program on so many ranks, each in a thread of its own with a desk of its own, whose calls block for as many turns as they are
/// given; and so many relays, which only pass on what they hear. A rank that has returned gossips on until all have. Then all threads
/// are joined. `ops` are the job's own operations. It may wait.
///
/// # Errors
/// `BadCount` where there are no ranks, or more than 64 processes; `NoThread` where the system refused a thread, and then no rank has
/// run; `OutOfMemory` where memory was wanting for the job itself: what a rank's calls want is told to the rank. All threads have ended then.
pub fn ranks<P: Program + Sync, R: Threads + Wait + Sync>(
    rt: &R,
    alloc: Global,
    ranks: u8,
    relays: u8,
    program: &P,
    ops: &Ops,
) -> Result<Ran<P::Answer>, RanksError>
where
    P::Answer: Send + Drop,
    ensures ok { OnOk result ((0 < ranks) × (ranks + relays ≤ 64)) }
    ensures err { IfErr result (λ e. e ≡ RanksError.BadCount → 0 < ranks → 64 < ranks + relays) }
    ensures none { ranks ≡ 0 → IsErrOf result RanksError.BadCount }
    ensures many { 64 < ranks + relays → IsErrOf result RanksError.BadCount }
    ensures ran { IfOk result (λ ran. HaveRun (P.gives program.now) (⟦<Ops as Listing>⟧.operations ops.now) ranks (ranks + relays) ran.answers.items (map node_of ran.nodes.items)) }
{
    if ranks == 0 || ranks > 64 || relays > 64 - ranks {
        return Err(RanksError::BadCount);
    }
    let blank = Blank::new(u64::from(ranks) + u64::from(relays));
    let ran = run_by::<Brand, Brand, P, R>(rt, alloc, blank, ranks, relays, program, ops);
    match ran {
        Ok(ran) => Ok(ran),
        Err(AtOnceError::OutOfMemory) => Err(RanksError::OutOfMemory),
        Err(AtOnceError::NoThread) => Err(RanksError::NoThread),
    }
}

// Runs it by what all agree on, and on a ledger of its threads; the call picks both.
fn run_by<N: Named, K: Job + Send + Sync, P: Program + Sync, R: Threads + Wait + Sync>(
    rt: &R,
    alloc: Global,
    blank: Blank,
    ranks: u8,
    relays: u8,
    program: &P,
    ops: &Ops,
) -> Result<Ran<P::Answer>, AtOnceError>
where
    P::Answer: Send + Drop,
    requires some { 0 < ranks }
    requires few { ranks + relays ≤ 64 }
    requires counts { (N.setup.ranks ≡ ranks) × (N.setup.size ≡ ranks + relays) }
    requires setup { N.setup ≡ setup_of (⟦<Ops as Listing>⟧.operations ops.now) ranks (ranks + relays) }
    requires ledger { (blank.name ≡ K.name) × (blank.parts ≡ K.parts) }
    requires parts { K.parts ≡ ranks + relays }
    requires quitters { AreQuitters (P.gives program.now) (P.has_given_up program.now) N.setup K.gave_up }
    ensures { IfOk result (λ ran. HaveRun (P.gives program.now) (⟦<Ops as Listing>⟧.operations ops.now) ranks (ranks + relays) ran.answers.items (map node_of ran.nodes.items)) }
{
    let size = ranks + relays;
    let (bus, ports) = Bus::new::<N>(alloc, ROOM, ranks, size)?;
    let crew = Crew::<K>::new(ranks);
    let (start, places) = Start::<K>::new(blank, u64::from(size));
    let works = works_of(
        rt, alloc, &bus, &crew, &start, places, program, ranks, size, ports,
    )?;
    let worked = all_at_once(rt, alloc, works, ops, &crew)?;
    told_of::<N, P::Answer>(alloc, &bus, ranks, worked)
}

// What comes of it when all have worked: the answers of the ranks, the first so many, and the nodes of all, whose ports meet.
fn told_of<N: Named, A: Drop>(
    alloc: Global,
    bus: &Bus,
    ranks: u8,
    worked: Vec<Worked<A>>,
) -> Result<Ran<A>, AtOnceError>
    requires some { 0 < length worked.items }
    requires ports { AreOfBus N.setup (table_of bus.now) (map port_of worked.items) }
    ensures answers { IfOk result (λ ran. map Some ran.answers.items ≡ take ranks (map answer_of worked.items)) }
    ensures nodes { IfOk result (λ ran. map node_of ran.nodes.items ≡ map node_in (map port_of worked.items)) }
    ensures history { OnOk result (HaveAllMet N.setup (map port_of worked.items)) }
{
    let (mut said, ports) = parts_of(alloc, worked)?;
    let nodes = met::<N>(alloc, bus, ports)?;
    said.truncate(usize::from(ranks));
    let answers = all_answers(alloc, said)?;
    Ok(Ran { answers, nodes })
}

// The work of each process, whose port is at its place.
fn works_of<'a, K: Job, P, R>(
    rt: &'a R,
    alloc: Global,
    bus: &'a Bus,
    crew: &'a Crew<K>,
    start: &'a Start<K>,
    places: Places<K>,
    program: &'a P,
    ranks: u8,
    size: u8,
    ports: Vec<Port>,
) -> Result<Vec<Work<'a, K, P, R>>, OutOfMemory>
    ensures { IfOk result (λ works. AreWorks program.now (table_of bus.now) ranks size ports.items works.items) }
{
    let mut places = places;
    let mut works = Vec::new(alloc);
    for port in ports {
        let Ok(me) = u8::try_from(works.len()) else {
            return Err(OutOfMemory);
        };
        let Some(place) = places.next() else {
            return Err(OutOfMemory);
        };
        works.push(Work {
            rt,
            alloc,
            bus,
            crew,
            start,
            place,
            program,
            ranks,
            size,
            me,
            port,
        })?;
    }
    Ok(works)
}

// What each process answered, and its port.
fn parts_of<A: Drop>(
    alloc: Global,
    worked: Vec<Worked<A>>,
) -> Result<(Vec<Option<A>>, Vec<Port>), OutOfMemory>
    ensures answers { IfOk result (λ parts. parts.0.items ≡ map answer_of worked.items) }
    ensures ports { IfOk result (λ parts. parts.1.items ≡ map port_of worked.items) }
{
    let mut answers = Vec::new(alloc);
    let mut ports = Vec::new(alloc);
    for one in worked {
        let Worked { port, answer } = one;
        answers.push(answer)?;
        ports.push(port)?;
    }
    Ok((answers, ports))
}

// The answers of all of them; where one was not let begin, a thread was refused.
fn all_answers<A: Drop>(alloc: Global, answers: Vec<Option<A>>) -> Result<Vec<A>, AtOnceError>
    ensures { IfOk result (λ all. map Some all.items ≡ answers.items) }
{
    let mut all = Vec::new(alloc);
    for answer in answers {
        let Some(answer) = answer else {
            return Err(AtOnceError::NoThread);
        };
        push_one(&mut all, answer)?;
    }
    Ok(all)
}

fn push_one<A: Drop>(all: &mut Vec<A>, answer: A) -> Result<(), OutOfMemory>
    ensures { OnOk result (all.new.items ≡ all.old.items ++ answer ∷ []) }
{
    all.push(answer)?;
    Ok(())
}

// The nodes of all ports, which meet.
fn met<N: Named>(alloc: Global, bus: &Bus, ports: Vec<Port>) -> Result<Vec<Node>, OutOfMemory>
    requires some { 0 < length ports.items }
    requires ports { AreOfBus N.setup (table_of bus.now) ports.items }
    ensures nodes { IfOk result (λ nodes. map node_of nodes.items ≡ map node_in ports.items) }
    ensures history { OnOk result (HaveAllMet N.setup ports.items) }
{
    let mut others = ports;
    let first = others.remove(0);
    bus.meet_all::<N>(alloc, first, others)
}
