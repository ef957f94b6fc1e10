//! Reading the bytes of a script, and writing a text.
ghost use Rattle.std.specs.Prelude.{◌≡◌, ℕ, IfOk, OnErr, OnOk, take};
ghost use Rattle.std.specs.Io.KnownBytes.{Appends};
ghost use Rattle.mpx_run.specs.Texts.{TakesInput, TakesPart};
ghost use Rattle.mpx_run.specs.declared.streams.ReadFault.TheVariants.{OutOfMemory};

use std::alloc::{AllocError, AllocFailed, Global};
use std::io::{ErrorKind, Read, Write};

// One more byte than a script may have, so that a longer one is seen to be longer.
const MOST_BYTES: usize = 1_048_577;

// So many bytes are read at once.
const PIECE: usize = 8192;

/// Why bytes could not be read.
#[derive(Drop)]
pub enum ReadFault {
    OutOfMemory,
    /// A call of `read` failed, for this reason.
    Reader(ErrorKind),
}

impl From<AllocError> for ReadFault {
    ghost from_gives = { λ _ e. e ≡ OutOfMemory };

    fn from(_e: AllocError) -> ReadFault {
        ReadFault::OutOfMemory
    }
}

impl<T: Drop> From<AllocFailed<T>> for ReadFault {
    ghost from_gives = { λ _ e. e ≡ OutOfMemory };

    fn from(_e: AllocFailed<T>) -> ReadFault {
        ReadFault::OutOfMemory
    }
}

/// The writer failed: a call of `write` or `flush` failed, or `write` took nothing, of which the kind is `WriteZero`.
#[derive(Drop)]
pub struct WriteFault {
    /// The reason for which the call failed.
    pub kind: ErrorKind,
}

/// The bytes of a reader up to its end, but no more than one over a script's limit. Each call of `read` gives a byte or
/// is the last, so there are at most 1,048,577. No clause says that `Reader` comes only where a call failed,
/// nor that its kind is that call's.
pub fn read_bytes<R: Read>(alloc: Global, reader: &mut R) -> Result<Vec<u8>, ReadFault>
    ensures input { IfOk result (λ bytes. TakesInput (R.remaining reader.old) (R.remaining reader.new) bytes.items) }
    ensures part { OnErr result (TakesPart (R.remaining reader.old) (R.remaining reader.new)) }
{
    let mut bytes = Vec::new(alloc);
    let mut piece = [0u8; PIECE];
    while bytes.len() < MOST_BYTES {
        let most = (MOST_BYTES - bytes.len()).min(PIECE);
        let count = match reader.read(&mut piece[..most]) {
            Ok(count) => count,
            Err(e) => return Err(ReadFault::Reader(e.kind())),
        };
        if count == 0 {
            return Ok(bytes);
        }
        bytes.extend_from_slice(&piece[..count])?;
    }
    Ok(bytes)
}

/// Writes all bytes and flushes, or the first of them. No clause says that it fails only where the writer does, nor that the kind is
/// the writer's.
pub fn write_bytes<W: Write>(writer: &mut W, bytes: &[u8]) -> Result<(), WriteFault>
    ensures whole { OnOk result (Appends (W.contents writer.old) (W.contents writer.new) bytes.now) }
    ensures first { OnErr result ((n : ℕ) × Appends (W.contents writer.old) (W.contents writer.new) (take n bytes.now)) }
{
    let mut done = 0;
    while done < bytes.len() {
        let count = match writer.write(&bytes[done..]) {
            Ok(count) => count,
            Err(e) => return Err(WriteFault { kind: e.kind() }),
        };
        if count == 0 {
            return Err(WriteFault {
                kind: ErrorKind::WriteZero,
            });
        }
        done += count;
    }
    match writer.flush() {
        Ok(()) => Ok(()),
        Err(e) => Err(WriteFault { kind: e.kind() }),
    }
}
