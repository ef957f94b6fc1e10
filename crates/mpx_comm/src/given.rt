//! The numbers that a call gave.
ghost use Rattle.std.specs.Prelude.{◌≡◌, Err, IfErr, IfNone, IfOk, IfSome, Ok, [], ◌∷◌, map};
ghost use Rattle.mpx_comm.specs.Given.{IsWhyNone, IsNotOne, numbers_given};

use mpx_match::Fault;
use mpx_node::Finished;
use mpx_num::{Integer, IntegersError, integer_in, integers_in};
use mpx_value::Outcome;
use std::alloc::Global;
use thiserror::Error;

/// Why a call gave no list of such integers.
#[derive(Clone, Copy, Debug, PartialEq, Eq, Error)]
pub enum GivenError {
    /// The posts of the call don't fit together.
    #[error("{0}")]
    Fault(Fault),
    #[error("a number is out of the range of the integers")]
    OutOfRange,
    #[error("out of memory")]
    OutOfMemory,
}

/// The numbers that a call gave this rank, of a pair both, one behind the other; none where it gives no items. The program `first_sum`
/// reads its sums so.
///
/// # Errors
/// The fault, where the posts of the call don't fit together.
pub fn numbers_of(finished: &Finished) -> Result<&[i128], Fault>
    ensures ok { IfOk result (λ numbers. numbers_given finished.now.outcome ≡ Ok numbers.now) }
    ensures err { IfErr result (λ fault. numbers_given finished.now.outcome ≡ Err fault) }
{
    match &finished.outcome {
        Outcome::Items(items) => Ok(items.nums()),
        Outcome::Fault(fault) => Err(*fault),
        Outcome::Nothing => Ok(&[]),
        Outcome::Absent => Ok(&[]),
        Outcome::NewComm {
            name: _,
            size: _,
            rank: _,
        } => Ok(&[]),
        Outcome::Null => Ok(&[]),
    }
}

/// The same numbers as integers of a type, in their order.
///
/// # Errors
/// The fault, where the posts of the call don't fit together; else `OutOfRange`, where a number is none of the type, or `OutOfMemory`, after
/// which it may be asked for once more.
pub fn integers_of<T: Integer>(alloc: Global, finished: &Finished) -> Result<Vec<T>, GivenError>
    ensures value { IfOk result (λ list. numbers_given finished.now.outcome ≡ Ok (map T.value list.items)) }
    ensures err { IfErr result (λ why. IsWhyNone T.ty (numbers_given finished.now.outcome) why) }
{
    match numbers_of(finished) {
        Ok(numbers) => match integers_in(alloc, numbers) {
            Ok(list) => Ok(list),
            Err(IntegersError::OutOfRange) => Err(GivenError::OutOfRange),
            Err(IntegersError::OutOfMemory) => Err(GivenError::OutOfMemory),
        },
        Err(fault) => Err(GivenError::Fault(fault)),
    }
}

/// The one number that a call gave this rank, as an integer of a type: none where it gives none or more, where it doesn't fit, or where
/// the posts are at fault.
pub fn integer_of<T: Integer>(finished: &Finished) -> Option<T>
    ensures some { IfSome result (λ x. numbers_given finished.now.outcome ≡ Ok (T.value x ∷ [])) }
    ensures none { IfNone result (IsNotOne T.ty (numbers_given finished.now.outcome)) }
{
    match numbers_of(finished) {
        Ok(numbers) => integer_in(numbers),
        Err(_) => None,
    }
}
