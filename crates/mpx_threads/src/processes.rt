//! All processes of a run at work, each in a thread of its own.
ghost use Rattle.std.specs.Prelude.{◌≡◌, ◌+◌, ◌≤◌, IfOk, Ok, map};
ghost use Rattle.mpx_num.specs.Own.{operation_of};
ghost use Rattle.mpx_bus.specs.Buses.{table_of};
ghost use Rattle.mpx_bus.specs.declared.act.Setup.{Setup};
ghost use Rattle.mpx_threads.specs.Work.{AreGivenUpBy, AreReady, AreWorked, GossipEndsSo, IsReadyProcess, IsWorked};

use crate::gate::Gate;
use crate::gossip::Bench;
use crate::onlooker::{Onlooker, StandsBy};
use crate::watch::Watch;
use crate::worker::{ReadyProcess, Worked, work};
use join_core::OutOfMemory;
use mpx_at_once::map_at_once;
use mpx_bus::Bus;
use mpx_num::{Listing, Ops};
use mpx_script::Script;
use mpx_statement::Options;
use std::alloc::Global;
use std::cell::RefCell;
use std::sync::Wait;
use std::thread::Threads;

/// Lets all processes work, each in a thread of its own, while somebody may look on. Where one is refused, or memory is wanting, the run
/// stops.
pub(crate) fn work_all<G: Gate + Sync, O: Onlooker, R: Threads + Wait + Sync>(
    rt: &R,
    alloc: Global,
    bus: &Bus,
    gate: &G,
    script: &Script,
    options: &Options,
    jobs: Vec<ReadyProcess>,
    onlooker: O,
    ops: &Ops,
) -> Result<Vec<Worked>, OutOfMemory>
    requires ready { (setup : Setup) × (AreReady script.now options.now.relays setup (table_of bus.now) jobs.items × (⟦<Ops as Listing>⟧.operations ops.now ≡ setup.operations)) }
    requires few { script.now.ranks + options.now.relays ≤ 64 }
    ensures worked { IfOk result (λ worked. (setup : Setup) × (AreWorked script.now options.now.relays setup (table_of bus.now) worked.items × (⟦<Ops as Listing>⟧.operations ops.now ≡ setup.operations))) }
    ensures gate { IfOk result (λ worked. AreGivenUpBy (G.gives_up gate.now) options.now.turns worked.items) }
{
    let ranks = script.ranks();
    let watch = Watch::new(alloc, ranks, ranks + options.relays)?;
    let bench = Bench {
        bus,
        gate,
        watch: &watch,
        ranks,
        relays: options.relays,
        turns: options.turns,
    };
    let by = StandsBy {
        watch: &watch,
        script,
        onlooker: RefCell::new(onlooker),
    };
    work_each(rt, alloc, &bench, script, jobs, &by, ops)
}

// The job's own operations, lent to threads: that they may share these is plain of this type alone, whatever else they see.
#[derive(Drop)]
struct Lent<'a> {
    ops: &'a Ops,
}

// What threads see beside that.
#[derive(Drop)]
struct Around<'a, G, R> {
    rt: &'a R,
    alloc: Global,
    bench: &'a Bench<'a, G>,
    script: &'a Script,
}

// Has each process work in a thread of its own, at the bench that all of them share; the threads end before the call does.
fn work_each<G: Gate + Sync, O: Onlooker, R: Threads + Wait + Sync>(
    rt: &R,
    alloc: Global,
    bench: &Bench<'_, G>,
    script: &Script,
    jobs: Vec<ReadyProcess>,
    by: &StandsBy<'_, O>,
    ops: &Ops,
) -> Result<Vec<Worked>, OutOfMemory>
    requires ready { (setup : Setup) × (AreReady script.now bench.now.relays setup (table_of bench.now.bus.now) jobs.items × (⟦<Ops as Listing>⟧.operations ops.now ≡ setup.operations)) }
    requires ranks { bench.now.ranks ≡ script.now.ranks }
    requires few { bench.now.ranks + bench.now.relays ≤ 64 }
    ensures worked { IfOk result (λ worked. (setup : Setup) × (AreWorked script.now bench.now.relays setup (table_of bench.now.bus.now) worked.items × (⟦<Ops as Listing>⟧.operations ops.now ≡ setup.operations))) }
    ensures gate { IfOk result (λ worked. AreGivenUpBy (G.gives_up bench.now.gate.now) bench.now.turns worked.items) }
{
    let around = &Around {
        rt,
        alloc,
        bench,
        script,
    };
    let lent = &Lent { ops };
    let at_work = |job: ReadyProcess| -> Result<Worked, OutOfMemory>
        requires { IsReadyProcess around.now.script.now around.now.bench.now.relays job.port.setup (table_of around.now.bench.now.bus.now) job × ((around.now.bench.now.ranks ≡ around.now.script.now.ranks) × ((around.now.bench.now.ranks + around.now.bench.now.relays ≤ 64) × (map (λ b. operation_of (word_bytes (b.vtable, b.value)) (fits_type (b.vtable, b.value)) (combination (b.vtable, b.value))) lent.now.ops.now.list.items ≡ job.port.setup.operations))) }
        ensures worked { IfOk result (λ worked. IsWorked around.entry.now.script.now around.entry.now.bench.now.relays job.port.setup (table_of around.entry.now.bench.now.bus.now) job.me worked) }
        ensures gate { IfOk result (λ worked. GossipEndsSo (G.gives_up around.entry.now.bench.now.gate.now) job.me around.entry.now.bench.now.turns worked.gossip) }
    {
        let worked = work(
            around.rt,
            around.alloc,
            around.bench,
            around.script,
            job,
            lent.ops,
        );
        around.bench.watch.process_ends();
        worked
    };
    let worked = map_at_once(rt, alloc, jobs, &at_work, ops, by)?;
    all_worked(alloc, worked)
}

// All of them, where memory was wanting for none.
fn all_worked(
    alloc: Global,
    worked: Vec<Result<Worked, OutOfMemory>>,
) -> Result<Vec<Worked>, OutOfMemory>
    ensures { IfOk result (λ all. map Ok all.items ≡ worked.items) }
{
    let mut all = Vec::new(alloc);
    for one in worked {
        all.push(one?)?;
    }
    Ok(all)
}
