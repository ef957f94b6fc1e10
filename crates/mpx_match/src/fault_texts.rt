//! What faults print as, for whoever writes a program.
ghost use Rattle.std.specs.Prelude.{◌≡◌, Some};
ghost use Rattle.mpx_match.specs.FaultTexts.{difference, fault_text};

use crate::faults::{Fault, FaultKind};
use std::fmt;

impl FaultKind {
    /// What the least rank that differs gives, as "another root".
    pub fn difference(self) -> &'static str
        ensures { result.now ≡ difference self }
    {
        match self {
            FaultKind::Kind => "another kind of call",
            FaultKind::Mode => "a call that blocks beside one that doesn't",
            FaultKind::Root => "another root",
            FaultKind::Op => "another operation",
            FaultKind::ItemType => "another type of items",
            FaultKind::Amount => "another number of items",
            FaultKind::Weights => "edges with weights beside edges without",
            FaultKind::Edges => "an edge that its other end doesn't tell",
            FaultKind::Groups => "another group",
        }
    }
}

impl fmt::Display for FaultKind {
    ghost output = { λ kind. Some (difference kind) };

    fn fmt<W: fmt::Write>(&self, f: &mut fmt::Formatter<W>) -> fmt::Result {
        let text = self.difference();
        write!(f, "{text}")
    }
}

// As "another root at rank 2".
impl fmt::Display for Fault {
    ghost output = { λ fault. Some (fault_text fault) };

    fn fmt<W: fmt::Write>(&self, f: &mut fmt::Formatter<W>) -> fmt::Result {
        let what = self.what;
        let rank = self.rank;
        write!(f, "{what} at rank {rank}")
    }
}
