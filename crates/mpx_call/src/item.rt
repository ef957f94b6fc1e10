//! The types of items, by which a call knows MPI's type of its slice.
ghost use Rattle.std.specs.Prelude.{◌≡◌, ◌∷◌, [], IfOk, List, ℤ, map};
ghost use Rattle.mpx_num.specs.declared.types.Ty.{Ty as TyView};
ghost use Rattle.mpx_call.specs.Pairs.{both_numbers};

use mpx_num::{Integer, IntegersError, Numbers, Ty, integers_in};
use std::alloc::{AllocError, Global};
use std::slice::from_ref;

/// A type of items: an integer, or a pair of a value and its index (MPI 4.1, sections 3.2.2 and 6.9.4).
pub trait Item: Copy {
    /// The numbers that a list of them is, in its order, of a pair both.
    ghost numbers: { List Self → List ℤ };

    /// MPI's type of them.
    ghost ty: { TyView };

    /// MPI's type of them.
    fn item_type() -> Ty
        ensures { result ≡ ty };

    /// The numbers of a list of them.
    fn numbers_of(alloc: Global, list: &[Self]) -> Result<Numbers, AllocError>
        ensures { IfOk result (λ given. given ≡ numbers list.now) };

    /// The list of them that has these numbers.
    fn list_of(alloc: Global, given: &[i128]) -> Result<Vec<Self>, IntegersError>
        ensures { IfOk result (λ list. numbers list.items ≡ given.now) };

    /// The list of one of them.
    fn one(item: &Self) -> &[Self]
        ensures { result.now ≡ item.now ∷ [] };
}

impl Item for i8 {
    ghost use Rattle.mpx_num.specs.declared.types.Ty.TheVariants.{I8};

    ghost numbers = { map (⟦<i8 as Integer>⟧.value) };

    ghost ty = { I8 };

    fn item_type() -> Ty {
        Ty::I8
    }

    fn numbers_of(alloc: Global, list: &[Self]) -> Result<Numbers, AllocError> {
        Numbers::from_slice(alloc, list)
    }

    fn list_of(alloc: Global, given: &[i128]) -> Result<Vec<Self>, IntegersError> {
        integers_in(alloc, given)
    }

    fn one(item: &Self) -> &[Self] {
        from_ref(item)
    }
}

impl Item for i16 {
    ghost use Rattle.mpx_num.specs.declared.types.Ty.TheVariants.{I16};

    ghost numbers = { map (⟦<i16 as Integer>⟧.value) };

    ghost ty = { I16 };

    fn item_type() -> Ty {
        Ty::I16
    }

    fn numbers_of(alloc: Global, list: &[Self]) -> Result<Numbers, AllocError> {
        Numbers::from_slice(alloc, list)
    }

    fn list_of(alloc: Global, given: &[i128]) -> Result<Vec<Self>, IntegersError> {
        integers_in(alloc, given)
    }

    fn one(item: &Self) -> &[Self] {
        from_ref(item)
    }
}

impl Item for i32 {
    ghost use Rattle.mpx_num.specs.declared.types.Ty.TheVariants.{I32};

    ghost numbers = { map (⟦<i32 as Integer>⟧.value) };

    ghost ty = { I32 };

    fn item_type() -> Ty {
        Ty::I32
    }

    fn numbers_of(alloc: Global, list: &[Self]) -> Result<Numbers, AllocError> {
        Numbers::from_slice(alloc, list)
    }

    fn list_of(alloc: Global, given: &[i128]) -> Result<Vec<Self>, IntegersError> {
        integers_in(alloc, given)
    }

    fn one(item: &Self) -> &[Self] {
        from_ref(item)
    }
}

impl Item for i64 {
    ghost use Rattle.mpx_num.specs.declared.types.Ty.TheVariants.{I64};

    ghost numbers = { map (⟦<i64 as Integer>⟧.value) };

    ghost ty = { I64 };

    fn item_type() -> Ty {
        Ty::I64
    }

    fn numbers_of(alloc: Global, list: &[Self]) -> Result<Numbers, AllocError> {
        Numbers::from_slice(alloc, list)
    }

    fn list_of(alloc: Global, given: &[i128]) -> Result<Vec<Self>, IntegersError> {
        integers_in(alloc, given)
    }

    fn one(item: &Self) -> &[Self] {
        from_ref(item)
    }
}

impl Item for u8 {
    ghost use Rattle.mpx_num.specs.declared.types.Ty.TheVariants.{U8};

    ghost numbers = { map (⟦<u8 as Integer>⟧.value) };

    ghost ty = { U8 };

    fn item_type() -> Ty {
        Ty::U8
    }

    fn numbers_of(alloc: Global, list: &[Self]) -> Result<Numbers, AllocError> {
        Numbers::from_slice(alloc, list)
    }

    fn list_of(alloc: Global, given: &[i128]) -> Result<Vec<Self>, IntegersError> {
        integers_in(alloc, given)
    }

    fn one(item: &Self) -> &[Self] {
        from_ref(item)
    }
}

impl Item for u16 {
    ghost use Rattle.mpx_num.specs.declared.types.Ty.TheVariants.{U16};

    ghost numbers = { map (⟦<u16 as Integer>⟧.value) };

    ghost ty = { U16 };

    fn item_type() -> Ty {
        Ty::U16
    }

    fn numbers_of(alloc: Global, list: &[Self]) -> Result<Numbers, AllocError> {
        Numbers::from_slice(alloc, list)
    }

    fn list_of(alloc: Global, given: &[i128]) -> Result<Vec<Self>, IntegersError> {
        integers_in(alloc, given)
    }

    fn one(item: &Self) -> &[Self] {
        from_ref(item)
    }
}

impl Item for u32 {
    ghost use Rattle.mpx_num.specs.declared.types.Ty.TheVariants.{U32};

    ghost numbers = { map (⟦<u32 as Integer>⟧.value) };

    ghost ty = { U32 };

    fn item_type() -> Ty {
        Ty::U32
    }

    fn numbers_of(alloc: Global, list: &[Self]) -> Result<Numbers, AllocError> {
        Numbers::from_slice(alloc, list)
    }

    fn list_of(alloc: Global, given: &[i128]) -> Result<Vec<Self>, IntegersError> {
        integers_in(alloc, given)
    }

    fn one(item: &Self) -> &[Self] {
        from_ref(item)
    }
}

impl Item for u64 {
    ghost use Rattle.mpx_num.specs.declared.types.Ty.TheVariants.{U64};

    ghost numbers = { map (⟦<u64 as Integer>⟧.value) };

    ghost ty = { U64 };

    fn item_type() -> Ty {
        Ty::U64
    }

    fn numbers_of(alloc: Global, list: &[Self]) -> Result<Numbers, AllocError> {
        Numbers::from_slice(alloc, list)
    }

    fn list_of(alloc: Global, given: &[i128]) -> Result<Vec<Self>, IntegersError> {
        integers_in(alloc, given)
    }

    fn one(item: &Self) -> &[Self] {
        from_ref(item)
    }
}

impl Item for (i32, i32) {
    ghost use Rattle.mpx_num.specs.declared.types.Ty.TheVariants.{TwoInt};

    ghost numbers = { λ pairs. map (⟦<i32 as Integer>⟧.value) (both_numbers pairs) };

    ghost ty = { TwoInt };

    fn item_type() -> Ty {
        Ty::TwoInt
    }

    fn numbers_of(alloc: Global, list: &[Self]) -> Result<Numbers, AllocError> {
        let both = both_of(alloc, list)?;
        Numbers::from_slice(alloc, &both)
    }

    fn list_of(alloc: Global, given: &[i128]) -> Result<Vec<Self>, IntegersError> {
        let both = integers_in::<i32>(alloc, given)?;
        pairs_of(alloc, &both)
    }

    fn one(item: &Self) -> &[Self] {
        from_ref(item)
    }
}

// Both numbers of each pair.
#[tactic(auto, using(crate::proofs::Pairs::both_push))]
fn both_of<T: Copy>(alloc: Global, pairs: &[(T, T)]) -> Result<Vec<T>, AllocError>
    ensures { IfOk result (λ both. both.items ≡ both_numbers pairs.now) }
{
    let mut both = Vec::new(alloc);
    for pair in pairs {
        both.push(pair.0)?;
        both.push(pair.1)?;
    }
    Ok(both)
}

// The pairs of these numbers.
#[tactic(auto, using(crate::proofs::Pairs::both_more))]
fn pairs_of<T: Copy>(alloc: Global, both: &[T]) -> Result<Vec<(T, T)>, IntegersError>
    ensures { IfOk result (λ pairs. both_numbers pairs.items ≡ both.now) }
{
    if both.len() % 2 == 1 {
        return Err(IntegersError::OutOfRange);
    }
    let mut pairs = Vec::new(alloc);
    for i in 0..both.len() / 2 {
        let pair = (both[2 * i], both[2 * i + 1]);
        if pairs.push(pair).is_err() {
            return Err(IntegersError::OutOfMemory);
        }
    }
    Ok(pairs)
}
