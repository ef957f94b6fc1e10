//! The composition of affine maps.
ghost use Rattle.std.specs.Prelude.{◌≡◌, codes, true};
ghost use Rattle.mpx_num.specs.Types.{is_paired};
ghost use Rattle.mpx_num.specs.Own.{IsItem};
ghost use Rattle.mpx_affine.specs.Composition.{composed};

use mpx_num::{OwnOp, Ty, into_range};

/// Composes affine maps: the item (a, b) stands for x to a * x + b, each wrapped to 32 bits, and the map of the lower rank
/// comes first. Each object has its own word.
#[derive(Drop)]
pub struct Affine {
    pub word: &'static str,
}

impl Affine {
    /// The operation by which the programs of this repository compose maps, of the word `affine`.
    pub fn of_programs() -> Affine
        ensures { result.word.now ≡ codes "affine" }
    {
        Affine { word: "affine" }
    }
}

impl OwnOp for Affine {
    ghost use Rattle.mpx_num.specs.Types.{is_paired};
    ghost use Rattle.mpx_affine.specs.Composition.{composed};

    ghost word_bytes = { λ o. o.word.now };

    ghost fits_type = { λ o ty. is_paired ty };

    ghost combination = { λ o ty p q. composed ty p q };

    fn word(&self) -> &str {
        self.word
    }

    fn fits(&self, ty: Ty) -> bool {
        matches!(ty, Ty::TwoInt)
    }

    fn combine(&self, ty: Ty, left: (i128, i128), right: (i128, i128)) -> (i128, i128) {
        compose(ty, left, right)
    }
}

// First the one map, then the other.
fn compose(ty: Ty, left: (i128, i128), right: (i128, i128)) -> (i128, i128)
    requires { is_paired ty ≡ true }
    ensures value { result ≡ composed ty left right }
    ensures item { IsItem ty result }
{
    (
        into_range(ty, right.0.wrapping_mul(left.0)),
        into_range(
            ty,
            into_range(ty, right.0.wrapping_mul(left.1)).wrapping_add(right.1),
        ),
    )
}
