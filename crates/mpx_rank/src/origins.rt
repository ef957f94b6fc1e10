//! Which statement each line belongs to.
ghost use Rattle.std.specs.Prelude.{◌≡◌, ◌≤◌, ◌+◌, ◌++◌, OnOk, length};
ghost use Rattle.mpx_meaning.specs.Ranks.{origins_of};

use join_core::OutOfMemory;
use mpx_meaning::Origin;
use mpx_statement::Statement;

/// Adds so many lines of one statement, of which one or none is awaited and behind which these are left.
pub(crate) fn push_origins(
    origins: &mut Vec<Origin>,
    awaited: usize,
    todo: &[Statement],
    lines: usize,
) -> Result<(), OutOfMemory>
    requires { awaited ≤ 1 }
    ensures { OnOk result (origins.new.items ≡ origins.old.items ++ origins_of (awaited + length todo.now) lines) }
{
    let left = awaited + todo.len();
    for nth in 0..lines {
        origins.push(Origin { left, nth })?;
    }
    Ok(())
}
