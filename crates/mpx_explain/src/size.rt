//! Numbers of things, and how many ranks `world` has, in words.

use join_core::OutOfMemory;
use mpx_num::push_number;

/// Adds so many of what this word names, as `1 item` and `2 items`.
pub(crate) fn push_counted(
    number: usize,
    noun: &str,
    told: &mut String,
) -> Result<(), OutOfMemory> {
    push_number(told, number as i128)?;
    told.push_str(" ")?;
    told.push_str(noun)?;
    told.push_str(if number == 1 { "" } else { "s" })?;
    Ok(())
}

/// Adds the ranks of `world`, of which there are so many.
pub(crate) fn push_world_ranks(ranks: u8, told: &mut String) -> Result<(), OutOfMemory> {
    if ranks == 1 {
        return Ok(told.push_str("world has only rank 0")?);
    }
    told.push_str("world has ranks 0 to ")?;
    push_number(told, i128::from(ranks.saturating_sub(1)))?;
    Ok(())
}

/// Adds a number between two texts.
pub(crate) fn push_value(
    before: &str,
    value: i128,
    behind: &str,
    told: &mut String,
) -> Result<(), OutOfMemory> {
    told.push_str(before)?;
    push_number(told, value)?;
    told.push_str(behind)?;
    Ok(())
}
