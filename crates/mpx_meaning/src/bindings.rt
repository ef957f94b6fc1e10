//! What a rank's words stand for, in a map.
ghost use Rattle.std.specs.Prelude.{◌≡◌, ℕ, IsTrue, List, OnErr, OnOk};
ghost use Rattle.std.specs.Option.{option_copied};
ghost use Rattle.mpx_meaning.specs.Standing.{binds, is_new, looked_up};

use join_core::OutOfMemory;
use mpx_statement::Word;
use std::alloc::Global;
use std::collections::BTreeMap;

/// Binds a word, where there is one. A word that is bound already stays bound as it was, and takes no memory.
pub fn bind<V: Drop>(
    alloc: Global,
    bound: &mut BTreeMap<Word, V>,
    target: Option<&Word>,
    to: V,
) -> Result<(), OutOfMemory>
    ensures bound { OnOk result ((word : List ℕ) → looked_up bound.new word ≡ binds (option_copied target.entry) to (looked_up bound.old) word) }
    ensures memory { OnErr result (IsTrue (is_new (option_copied target.entry) (looked_up bound.old))) }
{
    let Some(word) = target else {
        return Ok(());
    };
    if bound.contains_key(word) {
        return Ok(());
    }
    bound.insert(word.copy(alloc)?, to)?;
    Ok(())
}
