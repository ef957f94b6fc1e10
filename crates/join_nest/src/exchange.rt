//! Values exchanged at their places, so that a map is changed, and changed back, without a copy of it.
ghost use Rattle.std.specs.Prelude.{◌≡◌, ◌++◌, true, IsTrue, IfOk, IfSome, OnOk};
ghost use Rattle.std.specs.FinMap.{from_sorted, is_sorted};
ghost use Rattle.join_nest.specs.Keyed.{keyed_joining};
ghost use Rattle.join_nest.specs.Placed.{raised_at, rise_from, set_value, set_values, taken, taken_at};
ghost use Rattle.join_nest.specs.Seen.{keyed_view, seen};

use crate::entries::place_of_key;
use join_core::{Join, Key, OutOfMemory};
use std::alloc::Global;
use std::mem;

/// Values of a map, each with its place among the entries, in the rising order of their keys: no place comes twice.
#[derive(Debug, Drop)]
pub struct Changes<J> {
    values: Vec<(usize, J)>,
    ghost rising: { rise_from 0 values.items ≡ true },
}

impl<J> Changes<J> {
    /// These values.
    pub fn of(values: Vec<(usize, J)>) -> Changes<J>
        requires { rise_from 0 values.items ≡ true }
        ensures { result.values.items ≡ values.items }
    {
        Changes { values }
    }

    /// The values with their places, in the order of these.
    pub fn values(&self) -> &[(usize, J)]
        ensures { result.now ≡ self.now.values.items }
    {
        &self.values
    }

    /// Exchanges these values with those at their places. Where there is no such place nothing is exchanged.
    pub fn exchange<K>(&mut self, entries: &mut Vec<(K, J)>)
        ensures entries { entries.new.items ≡ set_values entries.old.items self.old.values.items }
        ensures changes { self.new.values.items ≡ taken entries.old.items self.old.values.items }
    {
        exchange_values(entries, &mut self.values)
    }
}

// Of each of the others that isn't below what stands at its key the place and both joined. None where a key isn't there.
pub fn joined_places<K: Key, J: Join>(
    alloc: Global,
    entries: &[(K, J)],
    others: &[(K, J)],
) -> Result<Option<Vec<(usize, J)>>, OutOfMemory>
    requires entries { IsTrue (is_sorted K.cmp entries.now) }
    requires others { IsTrue (is_sorted K.cmp others.now) }
    ensures joined { IfOk result (λ made. IfSome made (λ changes. from_sorted (set_values (seen J.view entries.now) (seen J.view changes.items))
        ≡ (keyed_joining J.joining).join (keyed_view K.cmp J.view entries.now) (keyed_view K.cmp J.view others.now))) }
    ensures rising { IfOk result (λ made. IfSome made (λ changes. rise_from 0 (seen J.view changes.items) ≡ true)) }
{
    let mut made = Vec::new(alloc);
    let mut from = 0;
    for other in others {
        let Ok(off) = place_of_key(&entries[from..], &other.0) else {
            return Ok(None);
        };
        let at = from + off;
        push_raised(alloc, &mut made, at, &entries[at].1, &other.1)?;
        from = at + 1;
    }
    Ok(Some(made))
}

// Adds the place with both joined at the end, where the other isn't below what stands there.
fn push_raised<J: Join>(
    alloc: Global,
    made: &mut Vec<(usize, J)>,
    at: usize,
    value: &J,
    other: &J,
) -> Result<(), OutOfMemory>
    ensures { OnOk result (seen J.view made.new.items ≡ seen J.view made.old.items ++ raised_at J.joining at (J.view value.now) (J.view other.now)) }
{
    if other.leq(value) {
        return Ok(());
    }
    let joined = value.joined(alloc, other)?;
    made.push((at, joined))?;
    Ok(())
}

// Exchanges these values with those at their places, one after the other. Where there is no such place nothing is exchanged.
pub fn exchange_values<K, J>(entries: &mut Vec<(K, J)>, changes: &mut Vec<(usize, J)>)
    ensures entries { entries.new.items ≡ set_values entries.old.items changes.old.items }
    ensures changes { changes.new.items ≡ taken entries.old.items changes.old.items }
{
    for i in 0..changes.len() {
        exchange_value(entries, &mut changes[i]);
    }
}

// Exchanges the value with the one at its place.
fn exchange_value<K, J>(entries: &mut Vec<(K, J)>, change: &mut (usize, J))
    ensures entries { entries.new.items ≡ set_value entries.old.items change.old.0 change.old.1 }
    ensures change { change.new ≡ (change.old.0, taken_at entries.old.items change.old.0 change.old.1) }
{
    let at = change.0;
    if at < entries.len() {
        mem::swap(&mut entries[at].1, &mut change.1);
    }
}
