//! Why bytes are no frame, and where.
ghost use Rattle.std.specs.Prelude.{◌≡◌};
ghost use Rattle.mpx_format.specs.Format.{out_of_limits, not_canonical};
ghost use Rattle.mpx_format.specs.Decoding.{placed};
ghost use Rattle.mpx_format.specs.declared.defects.ReadError.TheVariants.{OutOfMemory as Memory};

use std::alloc::{AllocError, AllocFailed};

// The first field that is wrong. A place is told by how many bytes there are from the field's first byte to the end.
#[derive(Clone, Copy, Debug, PartialEq, Eq)]
pub enum Defect {
    BadMagic,
    BadVersion,
    ShortFrame,
    OutOfLimits(usize),
    NotCanonical(usize),
}

// Why nothing was read.
#[derive(Clone, Copy, Debug, PartialEq, Eq)]
pub enum ReadError {
    OutOfMemory,
    Defect(Defect),
}

impl From<AllocError> for ReadError {
    ghost from_gives = { λ _ e. e ≡ Memory };

    fn from(_e: AllocError) -> ReadError {
        ReadError::OutOfMemory
    }
}

impl<T: Drop> From<AllocFailed<T>> for ReadError {
    ghost from_gives = { λ _ e. e ≡ Memory };

    fn from(_e: AllocFailed<T>) -> ReadError {
        ReadError::OutOfMemory
    }
}

impl From<join_core::OutOfMemory> for ReadError {
    ghost from_gives = { λ _ e. e ≡ Memory };

    fn from(_e: join_core::OutOfMemory) -> ReadError {
        ReadError::OutOfMemory
    }
}

// The field at the front of these bytes is over its limits.
pub fn out_of_limits(bytes: &[u8]) -> ReadError
    ensures { result ≡ ReadError.Defect (out_of_limits bytes.now) }
{
    ReadError::Defect(Defect::OutOfLimits(bytes.len()))
}

// The field at the front of these bytes isn't as it is written.
pub fn not_canonical(bytes: &[u8]) -> ReadError
    ensures { result ≡ ReadError.Defect (not_canonical bytes.now) }
{
    ReadError::Defect(Defect::NotCanonical(bytes.len()))
}

pub const SHORT: ReadError = ReadError::Defect(Defect::ShortFrame);

/// Why bytes are no frame: the first field that is wrong, with the offset of its first byte.
#[derive(Clone, Copy, Debug, PartialEq, Eq, thiserror::Error)]
pub enum WireError {
    /// There are over 1,048,576 bytes.
    #[error("TooLong")]
    TooLong,
    /// The frame doesn't begin with its magic.
    #[error("BadMagic")]
    BadMagic,
    /// The frame is of another version.
    #[error("BadVersion")]
    BadVersion,
    /// The bytes end before a field does.
    #[error("ShortFrame")]
    ShortFrame,
    /// A field is over its limits.
    #[error("OutOfLimits({0})")]
    OutOfLimits(usize),
    /// A field isn't as it is written.
    #[error("NotCanonical({0})")]
    NotCanonical(usize),
    /// A growth was refused.
    #[error("OutOfMemory")]
    OutOfMemory,
}

// The fault by its place from the front, of so many bytes.
pub fn placed(len: usize, fault: Defect) -> WireError
    ensures { result ≡ placed len fault }
{
    match fault {
        Defect::BadMagic => WireError::BadMagic,
        Defect::BadVersion => WireError::BadVersion,
        Defect::ShortFrame => WireError::ShortFrame,
        Defect::OutOfLimits(left) => WireError::OutOfLimits(len.saturating_sub(left)),
        Defect::NotCanonical(left) => WireError::NotCanonical(len.saturating_sub(left)),
    }
}
