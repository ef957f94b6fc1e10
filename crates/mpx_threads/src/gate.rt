//! Who may stop a run, and at which step of which process.
ghost use Rattle.std.specs.Prelude.{◌≡◌};

use mpx_group::Proc;

/// A step of a process at the bus.
#[derive(Clone, Copy, Debug, PartialEq, Eq)]
pub enum BusStep {
    /// It puts a frame in.
    Push,
    /// It takes a frame out.
    Pop,
}

/// What a gate says to a step.
#[derive(Clone, Copy, Debug, PartialEq, Eq)]
pub enum Pass {
    /// The process takes the step.
    Go,
    /// The whole run gives up.
    GiveUp,
}

/// It is asked before each step of each process at the bus, by the process's own thread, which holds no lock then. So a gate that waits
/// holds that process back, and one that gives up ends the run. Its contract says where it may give up, and by what a run promises no
/// run is told to have been given up elsewhere.
pub trait Gate {
    ghost use Rattle.std.specs.Prelude.{ℕ};
    ghost use Rattle.mpx_threads.specs.declared.gate.BusStep.{BusStep};

    /// At which of a process's steps of a kind, by its number from 0, the gate may give up.
    ghost gives_up: { Self → ℕ → BusStep → ℕ → Type 0 };

    /// Whether this process goes on with its next step of this kind; `nth` counts the process's steps of this kind, from 0.
    fn pass(&self, process: Proc, step: BusStep, nth: u64) -> Pass
        ensures { result ≡ Pass.GiveUp → gives_up self.now process step nth };
}

/// A gate that lets each step pass.
#[derive(Clone, Copy, Debug)]
pub struct OpenGate;

impl Gate for OpenGate {
    ghost use Rattle.mpx_threads.specs.Gates.{nowhere};

    ghost gives_up = { λ _gate. nowhere };

    fn pass(&self, _process: Proc, _step: BusStep, _nth: u64) -> Pass {
        Pass::Go
    }
}
