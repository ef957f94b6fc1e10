//! Numbers that only go up, and numbers as keys.
ghost use Rattle.std.specs.Prelude.{ℕ, nat_eq};
ghost use Rattle.join_core.specs.Max.{max_joining};
ghost use Rattle.join_core.specs.laws.Max.{nat_equality, max_laws, max_deltas};
ghost use Rattle.join_core.specs.Joins.{never_between, never_joined, old_or_joined};
ghost use Rattle.join_core.specs.laws.Between.{old_or_joined-laws};
ghost use Rattle.std.specs.FinMap.{nat_cmp-IsAntisymmetric};

use crate::{EmptyDelta, Exact, Join, Key, OutOfMemory};
use std::alloc::Global;

/// A number that only goes up: the join is the greater one.
#[derive(Clone, Copy, Debug, PartialEq, Eq)]
pub struct Max(pub u32);

impl Exact for Max {
    ghost View = { ℕ };

    ghost view = { λ m. m.0 };

    ghost equal = { nat_eq };

    ghost joining = { max_joining };

    ghost between = { old_or_joined max_joining };

    fn same(&self, other: &Max) -> bool {
        self.0 == other.0
    }

    fn copy(&self, _alloc: Global) -> Result<Max, OutOfMemory> {
        Ok(*self)
    }

    ghost equality = { nat_equality };
}

impl Join for Max {
    fn leq(&self, other: &Max) -> bool {
        self.0 <= other.0
    }

    fn joined(&self, _alloc: Global, other: &Max) -> Result<Max, OutOfMemory> {
        Ok(Max(self.0.max(other.0)))
    }

    fn delta(&self, _alloc: Global, known: &Max) -> Result<Max, OutOfMemory> {
        if self.0 <= known.0 {
            Ok(Max(0))
        } else {
            Ok(*self)
        }
    }

    fn join_in(&mut self, _alloc: Global, other: &Max) -> Result<(), OutOfMemory> {
        if self.0 < other.0 {
            self.0 = other.0;
        }
        Ok(())
    }

    ghost laws = { max_laws };

    ghost between_laws = { old_or_joined-laws max_laws };
}

impl EmptyDelta for Max {
    ghost empty_deltas = { max_deltas };
}

impl Exact for u32 {
    ghost View = { ℕ };

    ghost view = { λ n. n };

    ghost equal = { nat_eq };

    ghost joining = { never_joined };

    ghost between = { never_between };

    fn same(&self, other: &u32) -> bool {
        *self == *other
    }

    fn copy(&self, _alloc: Global) -> Result<u32, OutOfMemory> {
        Ok(*self)
    }

    ghost equality = { nat_equality };
}

impl Key for u32 {
    ghost one_form = { λ a b e. e };

    ghost exact_order = { nat_cmp-IsAntisymmetric };
}
