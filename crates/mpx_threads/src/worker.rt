//! A process of a run: a rank works in two threads over one port, a relay in one.
ghost use Rattle.std.specs.Prelude.{◌≡◌, ◌+◌, ◌<◌, ◌≤◌, ℕ, IfOk, [], length};
ghost use Rattle.std.specs.List.{list_all};
ghost use Rattle.mpx_bus.specs.Buses.{table_of};
ghost use Rattle.mpx_node.specs.Shown.{node_of};
ghost use Rattle.mpx_bus.specs.Ports.{node_in};
ghost use Rattle.mpx_shared.specs.LawfulPorts.{IsLawful, made_in};
ghost use Rattle.mpx_threads.specs.Gates.{GivesUpWithin};
ghost use Rattle.mpx_threads.specs.Plans.{Plans};
ghost use Rattle.mpx_threads.specs.Work.{AreHeld, GossipEndsSo, HasCome, HasWorked, IsNewLedger, IsReadyProcess, IsWorked, end_first, is_held};
ghost use Rattle.mpx_meaning.specs.Ends.{end_view};

use crate::carry::{Carried, carry_out};
use crate::gate::Gate;
use crate::gossip::{Bench, GossipEnd, gossip};
use crate::looks::Looks;
use crate::watch::Signal;
use join_core::OutOfMemory;
use mpx_at_once::{Task, both};
use mpx_bus::Port;
use mpx_group::Proc;
use mpx_meaning::{Line, RankEnd, WaitsAt};
use mpx_node::Node;
use mpx_num::{Listing, Ops};
use mpx_script::Script;
use mpx_shared::{PortLock, Poster, SharedPort};
use mpx_statement::Statement;
use std::alloc::Global;
use std::marker::Brand;
use std::sync::Wait;
use std::sync::ledger::Blank;
use std::thread::Threads;

/// A process before it works: its number and its port.
#[derive(Drop)]
pub(crate) struct ReadyProcess {
    pub(crate) me: u8,
    pub(crate) port: Port,
}

/// A process when it has worked: its port, how its gossip ended, how its rank ends (of a relay it says nothing).
#[derive(Drop)]
pub(crate) struct Worked {
    pub(crate) port: Port,
    pub(crate) gossip: GossipEnd,
    pub(crate) end: RankEnd,
}

/// Lets a process work.
pub(crate) fn work<G: Gate + Sync, R: Threads + Wait + Sync>(
    rt: &R,
    alloc: Global,
    bench: &Bench<'_, G>,
    script: &Script,
    job: ReadyProcess,
    ops: &Ops,
) -> Result<Worked, OutOfMemory>
    requires { IsReadyProcess script.now bench.now.relays job.port.setup (table_of bench.now.bus.now) job × ((bench.now.ranks ≡ script.now.ranks) × ((bench.now.ranks + bench.now.relays ≤ 64) × (⟦<Ops as Listing>⟧.operations ops.now ≡ job.port.setup.operations))) }
    ensures { IfOk result (λ worked. IsWorked script.now bench.now.relays job.port.setup (table_of bench.now.bus.now) job.me worked × GossipEndsSo (G.gives_up bench.now.gate.now) job.me bench.now.turns worked.gossip) }
{
    let ReadyProcess { me, port } = job;
    if me < bench.ranks {
        work_as_rank::<Brand, G, R>(
            rt,
            alloc,
            bench,
            script,
            Proc::new(me),
            port,
            Blank::new(1),
            ops,
        )
    } else {
        work_as_relay::<Brand, G, R>(rt, alloc, bench, Proc::new(me), port, Blank::new(1), ops)
    }
}

// A rank goes on with its statements in one thread, and gossips in the other.
fn work_as_rank<L: PortLock + Send + Sync, G: Gate + Sync, R: Threads + Wait + Sync>(
    rt: &R,
    alloc: Global,
    bench: &Bench<'_, G>,
    script: &Script,
    me: Proc,
    port: Port,
    blank: Blank,
    ops: &Ops,
) -> Result<Worked, OutOfMemory>
    requires list { ⟦<Ops as Listing>⟧.operations ops.now ≡ L.setup.operations }
    requires ledger { (blank.name ≡ L.name) × ((blank.parts ≡ L.parts) × ((L.all ≡ L.parts) × (0 < L.parts))) }
    requires me { (me ≡ L.me) × (me < script.now.ranks) }
    requires port { IsLawful L.table L.setup L.me port }
    requires opening { port.journal ≡ L.opening }
    requires new { (L.before ≡ 0) × (length (made_in port) ≡ 0) }
    requires queue { table_of bench.now.bus.now ≡ L.table }
    requires plan { Plans script.now bench.now.relays L.setup }
    ensures lawful { IfOk result (λ worked. IsLawful L.table L.setup L.me worked.port) }
    ensures worked { IfOk result (λ worked. HasWorked script.now bench.now.relays L.setup L.me worked.port (end_view worked.end)) }
    ensures gate { IfOk result (λ worked. worked.gossip ≡ GossipEnd.GaveUp → GivesUpWithin (G.gives_up bench.now.gate.now) me bench.now.turns) }
{
    let (shared, poster) = SharedPort::<L>::new(alloc, port, me, blank);
    let signal = Signal::new();
    let (carried, gossip) = carry_and_gossip(
        rt, alloc, bench, script, me, &shared, &signal, poster, ops,
    )?;
    let Carried { end, poster } = carried;
    let port = shared.into_port(poster);
    Ok(with_port::<L>(alloc, script, me, port, gossip, end))
}

// Both at once; where the thread is refused, the run stops.
fn carry_and_gossip<L: PortLock + Send + Sync, G: Gate + Sync, R: Threads + Wait + Sync>(
    rt: &R,
    alloc: Global,
    bench: &Bench<'_, G>,
    script: &Script,
    me: Proc,
    port: &SharedPort<L>,
    signal: &Signal,
    poster: Poster<L>,
    ops: &Ops,
) -> Result<(Carried<L>, GossipEnd), OutOfMemory>
    requires list { ⟦<Ops as Listing>⟧.operations ops.now ≡ L.setup.operations }
    requires ledger { (L.all ≡ L.parts) × (0 < L.parts) }
    requires me { (me ≡ L.me) × (me < script.now.ranks) }
    requires new { (L.before ≡ 0) × (poster.share.amount ≡ 0) }
    requires queue { table_of bench.now.bus.now ≡ L.table }
    requires plan { Plans script.now bench.now.relays L.setup }
    ensures come { IfOk result (λ both. HasCome script.now L.setup me both.0.poster.share.amount (end_view both.0.end)) }
    ensures gate { IfOk result (λ both. both.1 ≡ GossipEnd.GaveUp → GivesUpWithin (G.gives_up bench.now.gate.now) me bench.now.turns) }
{
    let carrying = Carrying {
        rt,
        alloc,
        bench,
        script,
        me,
        port,
        signal,
        poster,
    };
    let gossiping = Gossiping {
        rt,
        alloc,
        bench,
        me,
        port,
        signal,
    };
    match both(rt, carrying, gossiping, ops) {
        Ok((carried, gossiped)) => Ok((carried?, gossiped?)),
        Err(_) => {
            bench.watch.stop();
            Err(OutOfMemory)
        }
    }
}

// A rank's part.
#[derive(Drop)]
struct Carrying<'a, L: PortLock, G, R> {
    rt: &'a R,
    alloc: Global,
    bench: &'a Bench<'a, G>,
    script: &'a Script,
    me: Proc,
    port: &'a SharedPort<L>,
    signal: &'a Signal,
    poster: Poster<L>,
}

impl<'a, L: PortLock, G: Gate, R: Wait> Task<Ops> for Carrying<'a, L, G, R> {
    type Output = Result<Carried<L>, OutOfMemory>;

    ghost can_run = { λ t operations. (operations ≡ L.setup.operations) × (IsNewLedger L.all L.parts L.before t.poster.share.amount × ((t.me ≡ L.me) × ((t.me < t.script.now.ranks) × Plans t.script.now t.bench.now.relays L.setup))) };

    ghost gives = { λ t r. IfOk r (λ carried. HasCome t.script.now L.setup t.me carried.poster.share.amount (end_view carried.end)) };

    fn run(self, ops: &Ops) -> Result<Carried<L>, OutOfMemory> {
        let Carrying {
            rt,
            alloc,
            bench,
            script,
            me,
            port,
            signal,
            poster,
        } = self;
        carry(rt, alloc, bench, script, me, port, signal, poster, ops)
    }
}

// A process's gossip.
#[derive(Drop)]
struct Gossiping<'a, L: PortLock, G, R> {
    rt: &'a R,
    alloc: Global,
    bench: &'a Bench<'a, G>,
    me: Proc,
    port: &'a SharedPort<L>,
    signal: &'a Signal,
}

impl<'a, L: PortLock, G: Gate, R: Wait> Task<Ops> for Gossiping<'a, L, G, R> {
    type Output = Result<GossipEnd, OutOfMemory>;

    ghost can_run = { λ t operations. (operations ≡ L.setup.operations) × (table_of t.bench.now.bus.now ≡ L.table) };

    ghost gives = { λ t r. IfOk r (GossipEndsSo (G.gives_up t.bench.now.gate.now) t.me t.bench.now.turns) };

    fn run(self, ops: &Ops) -> Result<GossipEnd, OutOfMemory> {
        let Gossiping {
            rt,
            alloc,
            bench,
            me,
            port,
            signal,
        } = self;
        gossip(rt, alloc, bench, me, port, signal, ops)
    }
}

// The rank's part: it says so when it ends, and stops the run where memory was wanting.
fn carry<L: PortLock, G: Gate, R: Wait>(
    rt: &R,
    alloc: Global,
    bench: &Bench<'_, G>,
    script: &Script,
    me: Proc,
    port: &SharedPort<L>,
    signal: &Signal,
    poster: Poster<L>,
    ops: &Ops,
) -> Result<Carried<L>, OutOfMemory>
    requires list { ⟦<Ops as Listing>⟧.operations ops.now ≡ L.setup.operations }
    requires ledger { (L.all ≡ L.parts) × (0 < L.parts) }
    requires me { (me ≡ L.me) × (me < script.now.ranks) }
    requires new { (L.before ≡ 0) × (poster.share.amount ≡ 0) }
    requires plan { Plans script.now bench.now.relays L.setup }
    ensures { IfOk result (λ carried. HasCome script.now L.setup me carried.poster.share.amount (end_view carried.end)) }
{
    let looks = Looks {
        watch: bench.watch,
        signal,
        me,
        count: u64::from(bench.turns) + 2,
    };
    let carried = carry_out(rt, alloc, script, me, port, &looks, poster, ops);
    if carried.is_err() {
        bench.watch.stop();
    }
    bench.watch.rank_ends(me);
    carried
}

// The rank's end beside its port, which holds what its lines tell; that before its statements, if ever it didn't.
fn with_port<L: PortLock>(
    alloc: Global,
    script: &Script,
    me: Proc,
    port: Port,
    gossip: GossipEnd,
    end: RankEnd,
) -> Worked
    requires port { IsLawful L.table L.setup L.me port }
    requires me { me ≡ L.me }
    requires come { HasCome script.now L.setup L.me (length (made_in port)) (end_view end) }
    ensures port { result.port ≡ port }
    ensures gossip { result.gossip ≡ gossip }
    ensures worked { (relays : ℕ) → HasWorked script.now relays L.setup L.me port (end_view result.end) }
    ensures whole { AreHeld (node_in port) end.lines.items → result.end ≡ end }
{
    if are_held(port.node(), end.lines.as_slice()) {
        return Worked { port, gossip, end };
    }
    drop(end);
    let end = end_first(alloc, script.statements(me.number()));
    Worked { port, gossip, end }
}

// Whether the node holds a result of the call of each of these lines that tells an outcome.
fn are_held(node: &Node, lines: &[Line]) -> bool
    ensures { result ≡ list_all (is_held (node_of node.now)) lines.now }
{
    lines.iter().all(|line| is_held(node, line))
}

// The same of one line.
fn is_held(node: &Node, line: &Line) -> bool
    ensures { result ≡ is_held (node_of node.now) line.now }
{
    match line {
        Line::Told { name, call, .. } => node.result(name, *call).is_some(),
        Line::Refused(_) => true,
        Line::Idle => true,
        Line::Near { .. } => true,
        Line::Compared(_) => true,
        Line::Translated(_) => true,
        Line::StrayRank => true,
    }
}

// How a rank with these statements would end before them.
fn end_first(alloc: Global, statements: &[Statement]) -> RankEnd
    ensures { end_view result ≡ end_first statements.now }
{
    let Some(_first) = statements.first() else {
        return no_end(alloc);
    };
    let waits = Some(WaitsAt {
        left: statements.len(),
        calls: Vec::new(alloc),
    });
    RankEnd {
        lines: Vec::new(alloc),
        origins: Vec::new(alloc),
        waits,
    }
}

// The end of a rank without statements.
fn no_end(alloc: Global) -> RankEnd
    ensures { end_view result ≡ end_first [] }
{
    RankEnd {
        lines: Vec::new(alloc),
        origins: Vec::new(alloc),
        waits: None,
    }
}

// A relay gossips alone.
fn work_as_relay<L: PortLock, G: Gate, R: Wait>(
    rt: &R,
    alloc: Global,
    bench: &Bench<'_, G>,
    me: Proc,
    port: Port,
    blank: Blank,
    ops: &Ops,
) -> Result<Worked, OutOfMemory>
    requires list { ⟦<Ops as Listing>⟧.operations ops.now ≡ L.setup.operations }
    requires ledger { (blank.name ≡ L.name) × ((blank.parts ≡ L.parts) × (L.all ≡ L.parts)) }
    requires me { me ≡ L.me }
    requires port { IsLawful L.table L.setup L.me port }
    requires opening { port.journal ≡ L.opening }
    requires new { (L.before ≡ 0) × (length (made_in port) ≡ 0) }
    requires queue { table_of bench.now.bus.now ≡ L.table }
    ensures lawful { IfOk result (λ worked. IsLawful L.table L.setup L.me worked.port) }
    ensures none { IfOk result (λ worked. made_in worked.port ≡ []) }
    ensures gate { IfOk result (λ worked. worked.gossip ≡ GossipEnd.GaveUp → GivesUpWithin (G.gives_up bench.now.gate.now) me bench.now.turns) }
{
    let (shared, poster) = SharedPort::<L>::new(alloc, port, me, blank);
    let gossip = gossip(rt, alloc, bench, me, &shared, &Signal::new(), ops)?;
    Ok(Worked {
        port: shared.into_port(poster),
        gossip,
        end: no_end(alloc),
    })
}
