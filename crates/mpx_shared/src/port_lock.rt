//! Which port a shared port is.
use std::marker::Brand;
use std::sync::ledger::Ledger;

/// Names one shared port: its ledger, its queue, what all agree on, its process, and what that had done before.
pub trait PortLock: Ledger {
    ghost use Rattle.std.specs.Prelude.{ℕ, List};
    ghost use Rattle.atomic_table.specs.Seated.{TableId};
    ghost use Rattle.mpx_bus.specs.declared.act.Act.{Act};
    ghost use Rattle.mpx_bus.specs.declared.act.Setup.{Setup};

    /// All parts of its ledger.
    ghost all: { ℕ };

    ghost table: { TableId };

    ghost setup: { Setup };

    ghost me: { ℕ };

    /// All that its port had done when it was put under the lock.
    ghost opening: { List Act };

    /// How many posts that were.
    ghost before: { ℕ };
}

impl PortLock for Brand {
    ghost use Rattle.std.specs.Prelude.{[]};
    ghost use Rattle.mpx_bus.specs.Views.{no_setup, no_table};

    ghost all = { 1 };

    ghost table = { no_table };

    ghost setup = { no_setup };

    ghost me = { 0 };

    ghost opening = { [] };

    ghost before = { 0 };
}
