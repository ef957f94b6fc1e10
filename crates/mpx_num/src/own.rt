//! Operations of a job's own, as their objects say.
ghost use Rattle.std.specs.Prelude.{◌≡◌};

use crate::types::Ty;
use std::collections::LinkedList;

/// What an operation of a job's own means, as data. No value of this type is made: contracts alone see it.
pub struct Operation {
    /// Its word in scripts.
    pub word: LinkedList<u8>,
    /// For each code of a type, whether the operation is for that type.
    pub types: LinkedList<bool>,
    /// For each code of a type, and each two items by the bits of their numbers, the bits of the item that they give.
    pub results: LinkedList<LinkedList<LinkedList<u128>>>,
}

/// An operation of a job's own. An item is given as a pair of numbers, of which the second is 0 but for pairs. No call takes
/// memory.
pub trait OwnOp {
    ghost use Rattle.std.specs.Prelude.{ℕ, ℤ, Bool, List, IsTrue};
    ghost use Rattle.mpx_num.specs.declared.types.Ty.{Ty};
    ghost use Rattle.mpx_num.specs.Own.{IsItem};

    ghost word_bytes: { Self → List ℕ };

    ghost fits_type: { Self → Ty → Bool };

    ghost combination: { Self → Ty → (ℤ × ℤ) → (ℤ × ℤ) → (ℤ × ℤ) };

    /// The operation's word in scripts.
    fn word(&self) -> &str
        ensures { result.now ≡ word_bytes self.now };

    /// Whether the operation is for items of the type.
    fn fits(&self, ty: Ty) -> bool
        ensures { result ≡ fits_type self.now ty };

    /// What two items give, the one of the lower rank first. It is an item of the same type.
    fn combine(&self, ty: Ty, a: (i128, i128), b: (i128, i128)) -> (i128, i128)
        requires fit { IsTrue (fits_type self.now ty) }
        requires left { IsItem ty a }
        requires right { IsItem ty b }
        ensures value { result ≡ combination self.now ty a b }
        ensures item { IsItem ty result };
}
