//! Why a name is not made.
ghost use Rattle.std.specs.Prelude.{◌≡◌};
ghost use Rattle.mpx_name.specs.declared.errors.NameError.TheVariants.{OutOfMemory};

use thiserror::Error;

/// Why a name was not made. Of two reasons the first in this order is told.
#[derive(Clone, Copy, Debug, PartialEq, Eq, Error)]
pub enum NameError {
    /// The name has eight steps already.
    #[error("depth used up")]
    DepthUsedUp,
    #[error("out of memory")]
    OutOfMemory,
}

impl From<join_core::OutOfMemory> for NameError {
    ghost from_gives = { λ _ e. e ≡ OutOfMemory };

    fn from(_e: join_core::OutOfMemory) -> NameError {
        NameError::OutOfMemory
    }
}
