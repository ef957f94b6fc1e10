//! Which calls are sums or products of signed numbers.
ghost use Rattle.std.specs.Prelude.{◌≡◌};
ghost use Rattle.mpx_explain.specs.Overflows.{is_signed, is_summed, reduction_in, summed_in};

use crate::blocks::are_counts;
use mpx_kind::{Call, Reduction};
use mpx_num::{Op, Ty};
use mpx_post::Draft;

/// The kind of a sum or product of signed numbers, with counts within their limit.
pub(crate) fn summed(draft: &Draft) -> Option<Reduction>
    ensures { result ≡ summed_in draft.now }
{
    let counts = are_counts(draft.rcounts.as_slice());
    let summed = is_signed(draft.ty) & is_summed(draft.op);
    if summed & counts {
        reduction_in(draft.call)
    } else {
        None
    }
}

fn reduction_in(call: Call) -> Option<Reduction>
    ensures { result ≡ reduction_in call }
{
    match call {
        Call::Reduction(reduction, _) => Some(reduction),
        _ => None,
    }
}

fn is_signed(ty: Ty) -> bool
    ensures { result ≡ is_signed ty }
{
    match ty {
        Ty::I8 => true,
        Ty::I16 => true,
        Ty::I32 => true,
        Ty::I64 => true,
        _ => false,
    }
}

fn is_summed(op: Op) -> bool
    ensures { result ≡ is_summed op }
{
    match op {
        Op::Sum => true,
        Op::Prod => true,
        _ => false,
    }
}
