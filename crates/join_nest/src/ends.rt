//! A key that is looked for at both ends before it is searched.
ghost use Rattle.std.specs.Prelude.{◌≡◌, IfSome, IsTrue};
ghost use Rattle.std.specs.FinMap.{find, is_sorted};
ghost use Rattle.std.specs.Option.{option_copied};
ghost use Rattle.join_nest.specs.Place.{IsAt};

use crate::entries::lookup;
use std::cmp::Ordering;

// Where the key is, if it is the last or the first.
fn place_at_end<K: Ord, J>(entries: &[(K, J)], key: &K) -> Option<usize>
    ensures { IfSome result (IsAt K.cmp entries.now key.now) }
{
    if entries.is_empty() {
        return None;
    }
    let last = entries.len() - 1;
    if entries[last].0.cmp(key) == Ordering::Equal {
        return Some(last);
    }
    if entries[0].0.cmp(key) == Ordering::Equal {
        return Some(0);
    }
    None
}

// The value at the key, which is looked for at both ends before it is searched.
pub fn lookup_from_ends<'a, K: Ord, J>(entries: &'a [(K, J)], key: &K) -> Option<&'a J>
    requires { IsTrue (is_sorted K.cmp entries.now) }
    ensures { option_copied result ≡ find K.cmp key.now entries.now }
{
    match place_at_end(entries, key) {
        Some(at) => Some(&entries[at].1),
        None => lookup(entries, key),
    }
}
