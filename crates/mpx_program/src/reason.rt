//! Why a stream failed, by the kind of the system's error.

use join_core::OutOfMemory;
use mpx_run::RunError;
use std::alloc::Global;
use std::io::ErrorKind;

/// Adds the line of the system's reason, where the reader or the writer failed.
pub(crate) fn push_reason(
    alloc: Global,
    error: &RunError,
    told: &mut Vec<u8>,
) -> Result<(), OutOfMemory> {
    match error {
        RunError::Read(kind) | RunError::Write(kind) => push_kind(alloc, *kind, told),
        RunError::Script(_) => Ok(()),
        RunError::TooManyProcesses => Ok(()),
        RunError::Memory => Ok(()),
        RunError::GateGaveUp => Ok(()),
    }
}

fn push_kind(alloc: Global, kind: ErrorKind, told: &mut Vec<u8>) -> Result<(), OutOfMemory> {
    if kind == ErrorKind::Uncategorized {
        told.extend_from_slice(
            b"the system gives no reason that has a name here: a closed stream, perhaps\n",
        )?;
        return Ok(());
    }
    let line = format!(in alloc; "the system says: {kind}\n")?;
    told.extend_from_slice(line.as_bytes())?;
    Ok(())
}
