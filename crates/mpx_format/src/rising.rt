//! Entries in the rising order of their keys.
ghost use Rattle.std.specs.Prelude.{◌≡◌};
ghost use Rattle.mpx_format.specs.Rising.{last_of, may_come};

use std::cmp::Ordering;

/// Whether the key may come after these entries: above the last one, and where there is none, not below the least key, if such
/// is told.
pub fn may_come<K: Ord, J>(least: &Option<K>, before: &[(K, J)], key: &K) -> bool
    ensures { result ≡ may_come K.cmp least.now (last_of before.now) key.now }
{
    match before.last() {
        Some(last) => last.0.cmp(key) == Ordering::Less,
        None => match least {
            Some(least) => key.cmp(least) != Ordering::Less,
            None => true,
        },
    }
}
