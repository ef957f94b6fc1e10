//! A join with entries, made at their keys before it is put in, so that this takes no memory.
ghost use Rattle.std.specs.Prelude.{◌≡◌, IsTrue, IfOk, OnOk, ◌++◌, ◌∷◌, [], ◌+◌, ◌<◌, ◌≤◌};
ghost use Rattle.std.specs.Option.{option_copied, option_map};
ghost use Rattle.std.specs.Vec.{vec_len, vec_capacity};
ghost use Rattle.std.specs.FinMap.{is_sorted, put};
ghost use Rattle.join_nest.specs.Entries.{put_all};
ghost use Rattle.join_nest.specs.Prepared.{entries_there, joined_to};
ghost use Rattle.join_nest.specs.Seen.{seen};

use crate::entries::{lookup, place_of_key, push_copy, push_joined};
use join_core::{Join, Key, OutOfMemory};
use std::alloc::Global;

// Each of the others, joined with what stands at its key in the entries.
pub fn joined_there<K: Key, J: Join>(
    alloc: Global,
    entries: &[(K, J)],
    others: &[(K, J)],
) -> Result<Vec<(K, J)>, OutOfMemory>
    requires { IsTrue (is_sorted K.cmp entries.now) }
    ensures { IfOk result (λ made. seen J.view made.items ≡ entries_there K.cmp J.view J.joining others.now entries.now) }
{
    let mut made = Vec::new(alloc);
    made.reserve(others.len())?;
    for other in others {
        push_there(alloc, &mut made, other, lookup(entries, &other.0))?;
    }
    Ok(made)
}

// Adds the entry at the end, joined with the old value, if there is one.
fn push_there<K: Key, J: Join>(
    alloc: Global,
    made: &mut Vec<(K, J)>,
    entry: &(K, J),
    old: Option<&J>,
) -> Result<(), OutOfMemory>
    ensures { OnOk result (seen J.view made.new.items
        ≡ seen J.view made.old.items ++ (entry.now.0, joined_to J.joining (J.view entry.now.1) (option_map J.view (option_copied old.entry))) ∷ []) }
{
    match old {
        None => push_copy(alloc, made, entry),
        Some(old) => push_joined(alloc, made, entry, old),
    }
}

// Sets these values in entries that have room for them.
pub fn put_reserved<K: Key, J: Drop>(entries: &mut Vec<(K, J)>, mut changes: Vec<(K, J)>)
    requires entries { IsTrue (is_sorted K.cmp entries.old.items) }
    requires room { vec_len entries.old + vec_len changes ≤ vec_capacity entries.old }
    ensures { entries.new.items ≡ put_all K.cmp changes.items entries.old.items }
{
    while let Some((key, value)) = changes.pop() {
        put_one(entries, key, value);
    }
}

// Sets the value of a key in entries that have room for one more.
fn put_one<K: Key, J: Drop>(entries: &mut Vec<(K, J)>, key: K, value: J)
    requires entries { IsTrue (is_sorted K.cmp entries.old.items) }
    requires room { vec_len entries.old < vec_capacity entries.old }
    ensures put { entries.new.items ≡ put K.cmp key value entries.old.items }
    ensures len { vec_len entries.new ≤ vec_len entries.old + 1 }
    ensures capacity { vec_capacity entries.new ≡ vec_capacity entries.old }
{
    match place_of_key(entries, &key) {
        Ok(at) => entries[at] = (key, value),
        Err(at) => {
            let Ok(()) = entries.insert(at, (key, value)) else {
                unreachable!();
            };
        }
    }
}
