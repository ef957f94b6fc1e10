//! Which port a member has.
use std::marker::Brand;

/// Names one port: its queue, what all agree on, and its process.
pub(crate) trait Seat {
    ghost use Rattle.std.specs.Prelude.{ℕ};
    ghost use Rattle.atomic_table.specs.Seated.{TableId};
    ghost use Rattle.mpx_bus.specs.declared.act.Setup.{Setup};

    ghost table: { TableId };

    ghost setup: { Setup };

    ghost me: { ℕ };
}

impl Seat for Brand {
    ghost use Rattle.mpx_bus.specs.Views.{no_setup, no_table};

    ghost table = { no_table };

    ghost setup = { no_setup };

    ghost me = { 0 };
}
