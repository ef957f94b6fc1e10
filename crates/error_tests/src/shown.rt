//! Whether an error prints so.
use std::alloc::Global;
use std::fmt::Display;
use std::test::Fail;

/// Nothing, where the error prints so; else a failure that names the text that was wanted.
pub fn shows<E: Display>(alloc: Global, error: &E, text: &'static str) -> Result<(), Fail> {
    let shown = format!(in alloc; "{error}")?;
    let is_so = shown.as_str() == text;
    drop(shown);
    if is_so { Ok(()) } else { Err(Fail::from(text)) }
}
