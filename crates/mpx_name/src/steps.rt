//! The steps of names, and their order.
ghost use Rattle.std.specs.Prelude.{refl};
ghost use Rattle.std.specs.Cmp.{partial_equiv_from_equiv, partial_order_from_total, eq_by_cmp_equiv};
ghost use Rattle.std.specs.Ordering.{eq_by_cmp, as_partial_cmp};
ghost use Rattle.join_core.specs.Joins.{never_between, never_joined};

use join_core::{Exact, OutOfMemory};
use mpx_group::Group;
use std::alloc::Global;
use std::cmp::Ordering;

/// One step of a name.
#[derive(Debug, Drop)]
pub enum Step {
    /// A communicator made by the call with this number, told from its sisters by a colour.
    Child { call: u32, colour: u32 },
    /// The calls of `create_group` with this tag and these members.
    Gathering { tag: u16, members: Group },
}

impl Ord for Step {
    ghost use Rattle.mpx_name.specs.Order.{step_cmp, step_total};

    ghost cmp = { step_cmp };

    ghost total = { step_total };

    ghost matches_partial_cmp = { λ a b. refl };

    ghost matches_eq = { λ a b. refl };

    fn cmp(&self, other: &Step) -> Ordering {
        match (self, other) {
            (Step::Child { call, colour }, Step::Child { call: k, colour: c }) => {
                call.cmp(k).then(colour.cmp(c))
            }
            (Step::Child { .. }, Step::Gathering { .. }) => Ordering::Less,
            (Step::Gathering { .. }, Step::Child { .. }) => Ordering::Greater,
            (Step::Gathering { tag, members }, Step::Gathering { tag: t, members: m }) => {
                tag.cmp(t).then(members.members().cmp(m.members()))
            }
        }
    }
}

impl PartialOrd for Step {
    ghost use Rattle.mpx_name.specs.Order.{step_cmp, step_total};

    ghost partial_cmp = { as_partial_cmp step_cmp };

    ghost laws = { partial_order_from_total step_total };

    fn partial_cmp(&self, other: &Step) -> Option<Ordering> {
        Some(self.cmp(other))
    }
}

impl PartialEq for Step {
    ghost use Rattle.mpx_name.specs.Order.{step_cmp, step_total};

    ghost eq = { eq_by_cmp step_cmp };

    ghost laws = { partial_equiv_from_equiv (eq_by_cmp_equiv step_total) };

    fn eq(&self, other: &Step) -> bool {
        self.cmp(other) == Ordering::Equal
    }
}

impl Eq for Step {
    ghost use Rattle.mpx_name.specs.Order.{step_cmp, step_total};

    ghost laws = { eq_by_cmp_equiv step_total };
}

impl Exact for Step {
    ghost use Rattle.mpx_name.specs.declared.steps.Step.{Step};
    ghost use Rattle.mpx_name.specs.Order.{step_cmp, step_equality};

    ghost View = { Step };

    ghost view = { λ s. s };

    ghost equal = { eq_by_cmp step_cmp };

    ghost joining = { never_joined };

    ghost between = { never_between };

    fn same(&self, other: &Step) -> bool {
        *self == *other
    }

    fn copy(&self, alloc: Global) -> Result<Step, OutOfMemory> {
        match self {
            Step::Child { call, colour } => Ok(Step::Child {
                call: *call,
                colour: *colour,
            }),
            Step::Gathering { tag, members } => Ok(Step::Gathering {
                tag: *tag,
                members: members.copy(alloc)?,
            }),
        }
    }

    ghost equality = { step_equality };
}
