//! The processes of a run before its first turn.
ghost use Rattle.std.specs.Prelude.{◌≡◌, ◌<◌, ◌≤◌, ◌+◌, [], IfOk, map, List, Some, ℕ};
ghost use Rattle.mpx_num.specs.declared.own.Operation.{Operation};
ghost use Rattle.mpx_system.specs.Systems.{start_system};
ghost use Rattle.mpx_sim.specs.Draws.{ScheduleView};
ghost use Rattle.mpx_sim.specs.Running.{IsAt, IsUnderWay};
ghost use Rattle.mpx_sim.specs.Senders.{first_sender};
ghost use Rattle.mpx_sim.specs.Shown.{process_of};
ghost use Rattle.mpx_sim.specs.SideBySide.{AreReady, IsReady};
ghost use Rattle.mpx_sim.specs.Turns.{Alone, first_moment};

use crate::process::Process;
use join_core::OutOfMemory;
use mpx_name::Name;
use mpx_script::Script;
use std::alloc::Global;

// A process before the first turn: a relay has no statements.
fn start_at<'a>(
    alloc: Global,
    script: &'a Script,
    me: u8,
    size: u8,
    notes: bool,
) -> Result<Process<'a>, OutOfMemory>
    requires me { me < size }
    requires ranks { script.now.ranks ≤ size }
    requires few { size ≤ 64 }
    ensures ready { IfOk result (λ process. IsReady process) }
    ensures sender { IfOk result (λ process. (process_of process).sender ≡ first_sender) }
    ensures at { IfOk result (λ process. (operations : List Operation) → IsAt script.now.ranks (start_system operations script.now.statements script.now.ranks size) me (process_of process)) }
{
    let ranks = script.ranks();
    if me >= ranks {
        return Process::new(alloc, me, ranks, size, &script.statements(0)[..0], notes);
    }
    Process::new(alloc, me, ranks, size, script.statements(me), notes)
}

/// The processes before the first turn, when no frame is under way. They note posts where that is asked for.
pub(crate) fn start<'a>(
    alloc: Global,
    script: &'a Script,
    relays: u8,
    notes: bool,
) -> Result<Vec<Process<'a>>, OutOfMemory>
    requires { script.now.ranks + relays ≤ 64 }
    ensures ready { IfOk result (λ processes. AreReady processes.items) }
    ensures run { IfOk result (λ processes. (operations : List Operation) (first : ScheduleView)
        → IsUnderWay operations script.now.statements script.now.ranks (script.now.ranks + relays) (first_moment operations script.now.statements script.now.ranks (script.now.ranks + relays) first) Alone (map process_of processes.items) []) }
{
    let mut processes = Vec::new(alloc);
    let ranks = script.ranks();
    for me in 0..ranks + relays {
        processes.push(start_at(alloc, script, me, ranks + relays, notes)?)?;
    }
    Ok(processes)
}

/// The world as a rank has it. A relay has none.
pub(crate) fn world_of(alloc: Global, me: u8, ranks: u8) -> Option<Name>
    ensures { me < ranks → result ≡ Some [] }
{
    if me >= ranks {
        return None;
    }
    Some(Name::world(alloc))
}
