//! The integers of a program: numbers are made of them, and read as them.
ghost use Rattle.std.specs.Prelude.{◌≡◌, ◌∷◌, [], length, map, IfOk, IfSome, IfNone};
ghost use Rattle.std.specs.Result.{IsErrOf};
ghost use Rattle.std.specs.List.{All, Any};
ghost use Rattle.mpx_num.specs.Types.{IsInRange, IsOutOfRange};

use crate::numbers::Numbers;
use std::alloc::{AllocError, Global};

/// An integer type that MPI has a predefined type of (MPI 4.1, section 3.2.2).
pub trait Integer: Copy {
    ghost use Rattle.std.specs.Prelude.{◌≡◌, ℤ, IfSome, IfNone};
    ghost use Rattle.mpx_num.specs.declared.types.Ty.{Ty};
    ghost use Rattle.mpx_num.specs.Types.{IsInRange, IsOutOfRange};

    // The whole number that a value is.
    ghost value: { Self → ℤ };

    // The predefined type.
    ghost ty: { Ty };

    /// The number that it is. It is in the type's range.
    fn number(self) -> i128
        ensures value { result ≡ value self }
        ensures in_range { IsInRange ty (value self) };

    /// The number as an integer of this type, where it is in the type's range.
    fn of(number: i128) -> Option<Self>
        ensures some { IfSome result (λ x. value x ≡ number) }
        ensures in_range { IfSome result (λ _. IsInRange ty number) }
        ensures none { IfNone result (IsOutOfRange ty number) };
}

impl Integer for i8 {
    ghost use Rattle.mpx_num.specs.declared.types.Ty.TheVariants.{I8};

    ghost value = { λ x. x };

    ghost ty = { I8 };

    fn number(self) -> i128 {
        self as i128
    }

    fn of(number: i128) -> Option<Self> {
        i8::try_from(number).ok()
    }
}

impl Integer for i16 {
    ghost use Rattle.mpx_num.specs.declared.types.Ty.TheVariants.{I16};

    ghost value = { λ x. x };

    ghost ty = { I16 };

    fn number(self) -> i128 {
        self as i128
    }

    fn of(number: i128) -> Option<Self> {
        i16::try_from(number).ok()
    }
}

impl Integer for i32 {
    ghost use Rattle.mpx_num.specs.declared.types.Ty.TheVariants.{I32};

    ghost value = { λ x. x };

    ghost ty = { I32 };

    fn number(self) -> i128 {
        self as i128
    }

    fn of(number: i128) -> Option<Self> {
        i32::try_from(number).ok()
    }
}

impl Integer for i64 {
    ghost use Rattle.mpx_num.specs.declared.types.Ty.TheVariants.{I64};

    ghost value = { λ x. x };

    ghost ty = { I64 };

    fn number(self) -> i128 {
        self as i128
    }

    fn of(number: i128) -> Option<Self> {
        i64::try_from(number).ok()
    }
}

impl Integer for u8 {
    ghost use Rattle.std.specs.Prelude.{pos};
    ghost use Rattle.mpx_num.specs.declared.types.Ty.TheVariants.{U8};

    ghost value = { λ x. pos x };

    ghost ty = { U8 };

    fn number(self) -> i128 {
        self as i128
    }

    fn of(number: i128) -> Option<Self> {
        u8::try_from(number).ok()
    }
}

impl Integer for u16 {
    ghost use Rattle.std.specs.Prelude.{pos};
    ghost use Rattle.mpx_num.specs.declared.types.Ty.TheVariants.{U16};

    ghost value = { λ x. pos x };

    ghost ty = { U16 };

    fn number(self) -> i128 {
        self as i128
    }

    fn of(number: i128) -> Option<Self> {
        u16::try_from(number).ok()
    }
}

impl Integer for u32 {
    ghost use Rattle.std.specs.Prelude.{pos};
    ghost use Rattle.mpx_num.specs.declared.types.Ty.TheVariants.{U32};

    ghost value = { λ x. pos x };

    ghost ty = { U32 };

    fn number(self) -> i128 {
        self as i128
    }

    fn of(number: i128) -> Option<Self> {
        u32::try_from(number).ok()
    }
}

impl Integer for u64 {
    ghost use Rattle.std.specs.Prelude.{pos};
    ghost use Rattle.mpx_num.specs.declared.types.Ty.TheVariants.{U64};

    ghost value = { λ x. pos x };

    ghost ty = { U64 };

    fn number(self) -> i128 {
        self as i128
    }

    fn of(number: i128) -> Option<Self> {
        u64::try_from(number).ok()
    }
}

/// Why numbers are no integers of a type.
#[derive(Clone, Copy, PartialEq, Eq, Debug, thiserror::Error)]
pub enum IntegersError {
    #[error("a number is out of the range of the integers")]
    OutOfRange,
    #[error("out of memory")]
    OutOfMemory,
}

impl Numbers {
    /// The integers as numbers, in their order. Each is in the range of their type.
    pub fn from_slice<T: Integer>(alloc: Global, list: &[T]) -> Result<Self, AllocError>
        ensures value { IfOk result (λ numbers. numbers ≡ map T.value list.now) }
        ensures in_range { IfOk result (All (IsInRange T.ty)) }
    {
        let mut numbers = Vec::new(alloc);
        for x in list {
            numbers.push(x.number())?;
        }
        Numbers::new(alloc, numbers)
    }
}

/// The numbers as integers of a type, in their order.
pub fn integers_in<T: Integer>(alloc: Global, numbers: &[i128]) -> Result<Vec<T>, IntegersError>
    ensures value { IfOk result (λ list. map T.value list.items ≡ numbers.now) }
    ensures in_range { IfOk result (λ _. All (IsInRange T.ty) numbers.now) }
    ensures out_of_range { IsErrOf result IntegersError.OutOfRange → Any (IsOutOfRange T.ty) numbers.now }
{
    let mut list = Vec::new(alloc);
    for &number in numbers {
        match T::of(number) {
            Some(x) => {
                if list.push(x).is_err() {
                    return Err(IntegersError::OutOfMemory);
                }
            }
            None => return Err(IntegersError::OutOfRange),
        }
    }
    Ok(list)
}

/// The one number of a list as an integer of a type. None is where the list has none or more, or its number is out of range.
pub fn integer_in<T: Integer>(numbers: &[i128]) -> Option<T>
    ensures some { IfSome result (λ x. numbers.now ≡ T.value x ∷ []) }
    ensures in_range { IfSome result (λ x. IsInRange T.ty (T.value x)) }
    ensures none { IfNone result (length numbers.now ≡ 1 → Any (IsOutOfRange T.ty) numbers.now) }
{
    if numbers.len() != 1 {
        return None;
    }
    T::of(numbers[0])
}
