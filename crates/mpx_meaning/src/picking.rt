//! What is picked by a test, as numbers of ranks.
ghost use Rattle.std.specs.Prelude.{◌≡◌, ◌++◌, ◌∷◌, [], IsTrue, OnErr, OnOk, cond};

use join_core::OutOfMemory;

/// Adds the item where the test holds.
pub fn push_where<T: Drop>(items: &mut Vec<T>, item: T, test: bool) -> Result<(), OutOfMemory>
    ensures items { OnOk result (items.new.items ≡ items.old.items ++ cond test (item ∷ []) []) }
    ensures memory { OnErr result (IsTrue test) }
{
    if !test {
        return Ok(());
    }
    items.push(item)?;
    Ok(())
}
