//! Finite maps, joined key by key.
ghost use Rattle.std.specs.Prelude.{◌≡◌, nat_eq, IsTrue, IfOk, IfSome, OnOk, OnErr};
ghost use Rattle.std.specs.FinMap.{FinMap, is_sorted, empty, get, entries, len, insert, from_sorted};
ghost use Rattle.std.specs.Option.{option_map, option_copied};
ghost use Rattle.join_nest.specs.Between.{keyed_between};
ghost use Rattle.join_nest.specs.laws.Between.{keyed_between_laws};
ghost use Rattle.join_nest.specs.Keyed.{keyed_equal, keyed_joining, replaced};
ghost use Rattle.join_nest.specs.laws.Keyed.{keyed_deltas, keyed_equality, keyed_laws};
ghost use Rattle.join_nest.specs.Placed.{with_values, with_values_under};
ghost use Rattle.join_nest.specs.Prepared.{joined_there, put_over};
ghost use Rattle.join_nest.specs.Seen.{keyed_view, seen};

use crate::ends::lookup_from_ends;
use crate::entries::{
    all_below, join_entries, lacking, lookup, merged, place_of_key, push_copies, put_entry,
    replace_entry, same_entries,
};
use crate::exchange::{Changes, joined_places};
use crate::prepared::{joined_there, put_reserved};
use join_core::{EmptyDelta, Exact, Join, Key, OutOfMemory};
use std::alloc::Global;

/// A finite map, joined key by key: an absent key is below each entry.
#[derive(Debug, Drop)]
pub struct Keyed<K: Ord, J> {
    entries: Vec<(K, J)>,
    ghost sorted: { IsTrue (is_sorted K.cmp entries.items) },
}

impl<K: Key, J: Exact> Exact for Keyed<K, J> {
    ghost View = { FinMap K.cmp J.View };

    ghost view = { λ m. keyed_view K.cmp J.view m.entries.items };

    ghost equal = { keyed_equal J.equal };

    ghost joining = { keyed_joining J.joining };

    ghost between = { keyed_between J.between };

    fn same(&self, other: &Keyed<K, J>) -> bool {
        same_entries(&self.entries, &other.entries)
    }

    fn copy(&self, alloc: Global) -> Result<Keyed<K, J>, OutOfMemory> {
        let mut entries = Vec::new(alloc);
        push_copies(alloc, &mut entries, &self.entries)?;
        Ok(Keyed { entries })
    }

    ghost equality = { keyed_equality K.total K.exact_order J.equality };
}

impl<K: Key, J: Join> Join for Keyed<K, J> {
    fn leq(&self, other: &Keyed<K, J>) -> bool {
        all_below(&self.entries, &other.entries)
    }

    fn joined(&self, alloc: Global, other: &Keyed<K, J>) -> Result<Keyed<K, J>, OutOfMemory> {
        let entries = merged(alloc, &self.entries, &other.entries)?;
        Ok(Keyed { entries })
    }

    fn delta(&self, alloc: Global, known: &Keyed<K, J>) -> Result<Keyed<K, J>, OutOfMemory> {
        let entries = lacking(alloc, &self.entries, &known.entries)?;
        Ok(Keyed { entries })
    }

    fn join_in(&mut self, alloc: Global, other: &Keyed<K, J>) -> Result<(), OutOfMemory> {
        join_entries(alloc, &mut self.entries, &other.entries)
    }

    ghost laws = { keyed_laws K.total K.exact_order J.laws };

    ghost between_laws = { keyed_between_laws K.total K.exact_order J.laws J.between_laws };
}

impl<K: Key, J: Join> EmptyDelta for Keyed<K, J> {
    ghost empty_deltas = { keyed_deltas K.total J.joining };
}

impl<K: Key, J: Exact> Keyed<K, J> {
    ghost use Rattle.join_nest.specs.Room.{HasRoom};

    /// The map with no entry.
    pub fn new(alloc: Global) -> Keyed<K, J>
        ensures { ⟦<Keyed<K, J> as Exact>⟧.view result ≡ empty }
    {
        Keyed {
            entries: Vec::new(alloc),
        }
    }

    /// The map with these entries, whose keys strictly rise. It takes no memory.
    pub fn from_rising(entries: Vec<(K, J)>) -> Keyed<K, J>
        requires { IsTrue (is_sorted K.cmp entries.items) }
        ensures { ⟦<Keyed<K, J> as Exact>⟧.view result ≡ from_sorted (seen J.view entries.items) }
    {
        Keyed { entries }
    }

    /// The value at the key.
    pub fn get(&self, key: &K) -> Option<&J>
        ensures { option_map J.view (option_copied result) ≡ get (⟦<Keyed<K, J> as Exact>⟧.view self.now) key.now }
    {
        lookup(&self.entries, key)
    }

    /// The value at the key, as [`Keyed::get`] answers. The last key and the first are looked at before the others: for a map in which most that
    /// is asked for stands there, and whose keys are dear to compare.
    pub fn get_from_ends(&self, key: &K) -> Option<&J>
        ensures { option_map J.view (option_copied result) ≡ get (⟦<Keyed<K, J> as Exact>⟧.view self.now) key.now }
    {
        lookup_from_ends(&self.entries, key)
    }

    /// The entries in the rising order of their keys.
    pub fn entries(&self) -> &[(K, J)]
        ensures entries { seen J.view result.now ≡ entries (⟦<Keyed<K, J> as Exact>⟧.view self.now) }
        ensures rising { IsTrue (is_sorted K.cmp result.now) }
    {
        &self.entries
    }

    /// The entries, moved out of the map: [`Keyed::from_rising`] makes it of them again. It takes no memory.
    pub fn into_entries(self) -> Vec<(K, J)>
        ensures entries { ⟦<Keyed<K, J> as Exact>⟧.view self ≡ from_sorted (seen J.view result.items) }
        ensures rising { IsTrue (is_sorted K.cmp result.items) }
    {
        self.entries
    }

    /// How many keys have an entry.
    pub fn len(&self) -> usize
        ensures { result ≡ len (⟦<Keyed<K, J> as Exact>⟧.view self.now) }
    {
        self.entries.len()
    }

    /// Whether no key has an entry.
    pub fn is_empty(&self) -> bool
        ensures { result ≡ nat_eq (len (⟦<Keyed<K, J> as Exact>⟧.view self.now)) 0 }
    {
        self.entries.is_empty()
    }

    /// Sets the value of a key, in place of the entry that is there. An `Err` changes nothing.
    pub fn put(&mut self, key: K, value: J) -> Result<(), OutOfMemory>
        ensures ok { OnOk result (⟦<Keyed<K, J> as Exact>⟧.view self.new
            ≡ insert (⟦<Keyed<K, J> as Exact>⟧.view self.old) key (J.view value)) }
        ensures err { OnErr result (⟦<Keyed<K, J> as Exact>⟧.view self.new ≡ ⟦<Keyed<K, J> as Exact>⟧.view self.old) }
    {
        put_entry(&mut self.entries, key, value)
    }

    /// Puts the value in place of the one at the key, which it gives back. A key without an entry stays so, and the answer
    /// is none. It takes no memory.
    pub fn replace(&mut self, key: &K, value: J) -> Option<J>
        ensures old { option_map J.view result ≡ get (⟦<Keyed<K, J> as Exact>⟧.view self.old) key.now }
        ensures new { ⟦<Keyed<K, J> as Exact>⟧.view self.new
            ≡ replaced (⟦<Keyed<K, J> as Exact>⟧.view self.old) key.now (J.view value) }
    {
        replace_entry(&mut self.entries, key, value)
    }

    /// Puts the entries of `made` over those at their keys: of what [`Keyed::prepare`] made of this map as it stands, or of another map for
    /// which there is room. It takes no memory and can't fail.
    pub fn put_prepared(&mut self, made: Keyed<K, J>)
        requires { HasRoom self.old made }
        ensures { (q : K) → get (⟦<Keyed<K, J> as Exact>⟧.view self.new) q
            ≡ put_over (get (⟦<Keyed<K, J> as Exact>⟧.view made) q) (get (⟦<Keyed<K, J> as Exact>⟧.view self.old) q) }
    {
        put_reserved(&mut self.entries, made.entries)
    }
}

impl<K: Key, J: Join> Keyed<K, J> {
    ghost use Rattle.join_nest.specs.Room.{HasRoom};

    /// Makes what joins the other map once [`Keyed::put_prepared`] puts it in: each entry of the other, joined with what stands at
    /// its key; and makes room for that. The map stays the same.
    pub fn prepare(
        &mut self,
        alloc: Global,
        other: &Keyed<K, J>,
    ) -> Result<Keyed<K, J>, OutOfMemory>
        ensures same { ⟦<Keyed<K, J> as Exact>⟧.view self.new ≡ ⟦<Keyed<K, J> as Exact>⟧.view self.old }
        ensures made { IfOk result (λ made. (q : K) → get (⟦<Keyed<K, J> as Exact>⟧.view made) q
            ≡ joined_there J.joining (get (⟦<Keyed<K, J> as Exact>⟧.view other.now) q) (get (⟦<Keyed<K, J> as Exact>⟧.view self.old) q)) }
        ensures room { IfOk result (λ made. HasRoom self.new made) }
    {
        let entries = joined_there(alloc, &self.entries, &other.entries)?;
        self.entries.reserve(entries.len())?;
        Ok(Keyed { entries })
    }

    /// Of each entry of the other that isn't below what stands at its key: the place of that among the entries here, and both joined. None where
    /// the other has a key that this map lacks. [`Keyed::exchange_under`] puts them in.
    pub fn joined_places(
        &self,
        alloc: Global,
        other: &Keyed<K, J>,
    ) -> Result<Option<Changes<J>>, OutOfMemory>
        ensures { IfOk result (λ made. IfSome made (λ changes. with_values (⟦<Keyed<K, J> as Exact>⟧.view self.now) (seen J.view changes.values.items)
            ≡ (keyed_joining J.joining).join (⟦<Keyed<K, J> as Exact>⟧.view self.now) (⟦<Keyed<K, J> as Exact>⟧.view other.now))) }
    {
        match joined_places(alloc, &self.entries, &other.entries)? {
            None => Ok(None),
            Some(values) => Ok(Some(Changes::of(values))),
        }
    }
}

impl<K: Key, L: Key, J: Exact> Keyed<K, Keyed<L, J>> {
    /// Exchanges these values with those at their places in the map at the key. Where there is no such key or place nothing is exchanged. It
    /// takes no memory. Done once more it takes itself back.
    pub fn exchange_under(&mut self, key: &K, changes: &mut Changes<J>)
        ensures new { ⟦<Keyed<K, Keyed<L, J>> as Exact>⟧.view self.new
            ≡ with_values_under (⟦<Keyed<K, Keyed<L, J>> as Exact>⟧.view self.old) key.now (seen J.view changes.old.values.items) }
        ensures back { with_values_under (⟦<Keyed<K, Keyed<L, J>> as Exact>⟧.view self.new) key.now (seen J.view changes.new.values.items)
            ≡ ⟦<Keyed<K, Keyed<L, J>> as Exact>⟧.view self.old }
    {
        if let Ok(at) = place_of_key(&self.entries, key) {
            changes.exchange(&mut self.entries[at].1.entries);
        }
    }
}
