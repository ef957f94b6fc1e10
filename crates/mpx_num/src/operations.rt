//! The operations, and the types that each is for.
ghost use Rattle.std.specs.Prelude.{◌≡◌};
ghost use Rattle.mpx_num.specs.Codes.{code_of_operation, operation_at};
ghost use Rattle.mpx_num.specs.Operations.{fits, is_for};

use crate::ops::{Listing, Ops};
use crate::types::Ty;

/// A reduction operation: a predefined one (MPI 4.1, sections 6.9.2 and 6.9.4), or one of a job's own (section 6.9.5).
#[derive(Clone, Copy, PartialEq, Eq, Debug)]
pub enum Op {
    /// The greater number.
    Max,
    /// The lesser number.
    Min,
    /// The sum, wrapping at the type's width.
    Sum,
    /// The product, wrapping at the type's width.
    Prod,
    /// 1 where both are not 0, else 0.
    Land,
    /// 1 where one or both are not 0, else 0.
    Lor,
    /// 1 where just one is not 0, else 0.
    Lxor,
    /// The bits that both have.
    Band,
    /// The bits that one or both have.
    Bor,
    /// The bits that just one has.
    Bxor,
    /// The greater value with its index, for equal values the lesser index.
    Maxloc,
    /// The lesser value with its index, for equal values the lesser index.
    Minloc,
    /// The job's own operation at this place in its list, which is below 16.
    Own(u8),
}

impl Op {
    /// The number by which frames spell the operation.
    pub fn code(self) -> u16
        ensures { result ≡ code_of_operation self }
    {
        match self {
            Op::Max => 1,
            Op::Min => 2,
            Op::Sum => 3,
            Op::Prod => 4,
            Op::Land => 5,
            Op::Lor => 6,
            Op::Lxor => 7,
            Op::Band => 8,
            Op::Bor => 9,
            Op::Bxor => 10,
            Op::Maxloc => 11,
            Op::Minloc => 12,
            Op::Own(place) => u16::from(place) + 16,
        }
    }

    /// The operation with this number, as frames spell it: one of a job's own from 16 on. A number that spells none stands for
    /// the one before it, or for the first.
    pub fn at(code: u8) -> Op
        ensures { result ≡ operation_at code }
    {
        if 16 <= code {
            return Op::Own(code - 16);
        }
        match code {
            0 => Op::Max,
            1 => Op::Max,
            2 => Op::Min,
            3 => Op::Sum,
            4 => Op::Prod,
            5 => Op::Land,
            6 => Op::Lor,
            7 => Op::Lxor,
            8 => Op::Band,
            9 => Op::Bor,
            10 => Op::Bxor,
            11 => Op::Maxloc,
            12 => Op::Minloc,
            13 => Op::Minloc,
            14 => Op::Minloc,
            15 => Op::Minloc,
            _ => unreachable!(),
        }
    }
}

/// Whether the operation may stand beside the type: `Maxloc` and `Minloc` beside pairs, each other predefined one beside
/// single numbers, and one of a job's own, whose place is below 16, beside each.
pub fn may_stand(op: Op, ty: Ty) -> bool
    ensures { result ≡ fits op ty }
{
    match op {
        Op::Own(place) => place < 16,
        Op::Maxloc | Op::Minloc => ty.is_paired(),
        _ => !ty.is_paired(),
    }
}

/// Whether the operation is for the type: it may stand beside it, and where it is one of a job's own, its object says so.
pub fn op_fits(op: Op, ty: Ty, ops: &Ops) -> bool
    ensures { result ≡ is_for (⟦<Ops as Listing>⟧.operations ops.now) op ty }
{
    match op {
        Op::Own(place) => place < 16 && ops.fits(place, ty),
        _ => may_stand(op, ty),
    }
}
