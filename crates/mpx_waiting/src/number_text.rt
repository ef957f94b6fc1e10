//! Numbers as text.
ghost use Rattle.std.specs.Prelude.{◌≡◌, ◌++◌, OnOk};
ghost use Rattle.std.specs.Fmt.{decimal};

use join_core::OutOfMemory;
use std::alloc::Global;

/// Adds the digits of a number.
pub fn push_decimal(alloc: Global, told: &mut Vec<u8>, number: u32) -> Result<(), OutOfMemory>
    ensures { OnOk result (told.new.items ≡ told.old.items ++ decimal number) }
{
    let digits = format!(in alloc; "{number}")?;
    told.extend_from_slice(digits.as_bytes())?;
    Ok(())
}
