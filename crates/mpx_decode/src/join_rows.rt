//! Values joined as their bytes are read. The bytes are known to be spelled, so a refusal is want of memory.
ghost use Rattle.std.specs.Prelude.{◌≡◌, ◌++◌, ◌∷◌, ◌<◌, ℕ, IfOk, List, IfSome, IsTrue, Ok, OnErr, length, ◌≤◌};
ghost use Rattle.std.specs.FinMap.{is_sorted};
ghost use Rattle.join_core.specs.Joins.{BetweenLaws, JoinLaws, Joining};
ghost use Rattle.join_nest.specs.Keyed.{keyed_joining};
ghost use Rattle.join_nest.specs.Between.{keyed_between};
ghost use Rattle.join_nest.specs.Seen.{keyed_view};
ghost use Rattle.mpx_format.specs.declared.versions.Version.{Version};
ghost use Rattle.mpx_format.specs.Format.{Format};
ghost use Rattle.mpx_decode.specs.Raising.{IsChangedAt, JoinsFront, RaisesRow, StandsInFront, StopsBetween, StopsRow, row, rows};

use crate::entries::WireKey;
use join_core::{Exact, Key, OutOfMemory};
use join_nest::{Keyed, place_of_key};
use mpx_format::{ReadError, Version};
use mpx_rope::Beyond;
use std::mem;

/// A key that is known without being read.
pub trait FrontKey: WireKey {
    /// The bytes behind this key, where it stands at the front, whatever follows.
    fn behind<'a>(&self, bytes: &'a [u8]) -> Option<&'a [u8]>
        ensures { IfSome result (λ rest. (more : List ℕ) → Self.format.read (bytes.now ++ more) ≡ Ok (self.now, rest.now ++ more)) };
}

/// A value that is joined as its bytes are read. Its ghost members are those of `Join`, which types of others can't name.
pub trait WireJoin: Drop {
    ghost View: { Type 0 };

    ghost view: { Self → View };

    ghost joining: { Joining View };

    ghost between: { View → View → View → Type 0 };

    /// How each version spells what it says.
    ghost wire: { Version → Format View };

    /// The value at the front, and the bytes after it.
    fn read_new<'a>(
        version: Version,
        beyond: &mut Beyond<'a>,
        bytes: &'a [u8],
    ) -> Result<(Self, &'a [u8]), ReadError>
        requires { StandsInFront (wire version) (bytes.now ++ beyond.old) }
        ensures read { IfOk result (λ x. (wire version).read (bytes.now ++ beyond.old) ≡ Ok (view x.0, x.1.now ++ beyond.new)) }
        ensures less { length beyond.new ≤ length beyond.old };

    /// Joins the value at the front to this one, and gives the bytes after it. An `Err` leaves a value between.
    fn raise<'a>(
        &mut self,
        version: Version,
        beyond: &mut Beyond<'a>,
        bytes: &'a [u8],
    ) -> Result<&'a [u8], OutOfMemory>
        requires { StandsInFront (wire version) (bytes.now ++ beyond.old) }
        ensures ok { IfOk result (λ rest. JoinsFront (wire version) joining (bytes.now ++ beyond.old) (rest.now ++ beyond.new) (view self.old) (view self.new)) }
        ensures err { OnErr result (StopsBetween (wire version) between (bytes.now ++ beyond.old) (view self.old) (view self.new)) }
        ensures less { length beyond.new ≤ length beyond.old };

    /// The byte that is all its spelling, where that is known: joined to this one, it changes nothing.
    fn only_byte(&self, version: Version) -> Option<u8>
        ensures { IfSome result (λ byte. (more : List ℕ) → JoinsFront (wire version) joining (byte ∷ more) more (view self.now) (view self.now)) }
    {
        None
    }

    ghost laws: { JoinLaws joining };

    ghost between_laws: { BetweenLaws joining between };
}

// Joins so many entries at the front to those of the map. They are taken out of it, and put back whatever is answered. A `Keyed` tells what
// `Exact` sees of its values: what is seen of them here has to follow from that.
pub fn raise_map<'a, K: Key + FrontKey, J: WireJoin + Exact>(
    version: Version,
    beyond: &mut Beyond<'a>,
    map: &mut Keyed<K, J>,
    count: usize,
    bytes: &'a [u8],
) -> Result<&'a [u8], OutOfMemory>
    requires follows { (of : J.Exact.View → J.WireJoin.View) × ((x : J) → J.WireJoin.view x ≡ of (J.Exact.view x)) }
    requires spelled { StandsInFront (rows K.cmp K.format (J.wire version) count) (bytes.now ++ beyond.old) }
    ensures ok { IfOk result (λ rest. JoinsFront (rows K.cmp K.format (J.wire version) count) (keyed_joining J.WireJoin.joining) (bytes.now ++ beyond.old) (rest.now ++ beyond.new)
        (keyed_view K.cmp J.WireJoin.view map.old.entries.items) (keyed_view K.cmp J.WireJoin.view map.new.entries.items)) }
    ensures err { OnErr result (StopsBetween (rows K.cmp K.format (J.wire version) count) (keyed_between J.WireJoin.between) (bytes.now ++ beyond.old)
        (keyed_view K.cmp J.WireJoin.view map.old.entries.items) (keyed_view K.cmp J.WireJoin.view map.new.entries.items)) }
    ensures some { OnErr result (0 < count) }
    ensures less { length beyond.new ≤ length beyond.old }
{
    let mut entries = mem::replace(map, Keyed::new(beyond.alloc())).into_entries();
    let raised = raise_entries(version, beyond, &mut entries, count, bytes);
    *map = Keyed::from_rising(entries);
    raised
}

// Joins so many entries at the front, one after the other. Where the taker has the same keys, each is found at once.
pub fn raise_entries<'a, K: Key + FrontKey, J: WireJoin>(
    version: Version,
    beyond: &mut Beyond<'a>,
    entries: &mut Vec<(K, J)>,
    count: usize,
    bytes: &'a [u8],
) -> Result<&'a [u8], OutOfMemory>
    requires rising { IsTrue (is_sorted K.cmp entries.old.items) }
    requires spelled { StandsInFront (rows K.cmp K.format (J.wire version) count) (bytes.now ++ beyond.old) }
    ensures ok { IfOk result (λ rest. JoinsFront (rows K.cmp K.format (J.wire version) count) (keyed_joining J.joining) (bytes.now ++ beyond.old) (rest.now ++ beyond.new)
        (keyed_view K.cmp J.view entries.old.items) (keyed_view K.cmp J.view entries.new.items)) }
    ensures err { OnErr result (StopsBetween (rows K.cmp K.format (J.wire version) count) (keyed_between J.between) (bytes.now ++ beyond.old)
        (keyed_view K.cmp J.view entries.old.items) (keyed_view K.cmp J.view entries.new.items)) }
    ensures rising { IsTrue (is_sorted K.cmp entries.new.items) }
    ensures some { OnErr result (0 < count) }
    ensures less { length beyond.new ≤ length beyond.old }
{
    let mut next = 0usize;
    let mut rest = bytes;
    for _ in 0..count {
        if let Some(after) = behind_same(version, entries.as_slice(), next, rest) {
            next += 1;
            rest = after;
            continue;
        }
        let (after, left) = raise_entry(version, beyond, entries, next, rest)?;
        next = after;
        rest = left;
    }
    Ok(rest)
}

// The bytes behind the entry at the front, where it has the key at this place, and its value there is spelled by a byte that stands behind.
fn behind_same<'a, K: Key + FrontKey, J: WireJoin>(
    version: Version,
    entries: &[(K, J)],
    at: usize,
    bytes: &'a [u8],
) -> Option<&'a [u8]>
    requires rising { IsTrue (is_sorted K.cmp entries.now) }
    ensures within { IfSome result (λ rest. at < length entries.now) }
    ensures same { IfSome result (λ rest. (more : List ℕ)
        → RaisesRow K.cmp J.view (row K.format (J.wire version)) J.joining (bytes.now ++ more) (rest.now ++ more) entries.now entries.now) }
{
    if entries.len() <= at {
        return None;
    }
    let entry = &entries[at];
    let byte = entry.1.only_byte(version)?;
    let after = entry.0.behind(bytes)?;
    let (first, rest) = after.split_first()?;
    if *first == byte { Some(rest) } else { None }
}

// Joins the entry at the front, whose key stands at this place, or where else it may. Tells the place after it.
pub fn raise_entry<'a, K: Key + FrontKey, J: WireJoin>(
    version: Version,
    beyond: &mut Beyond<'a>,
    entries: &mut Vec<(K, J)>,
    next: usize,
    bytes: &'a [u8],
) -> Result<(usize, &'a [u8]), OutOfMemory>
    requires rising { IsTrue (is_sorted K.cmp entries.old.items) }
    requires spelled { StandsInFront (row K.format (J.wire version)) (bytes.now ++ beyond.old) }
    ensures ok { IfOk result (λ x. RaisesRow K.cmp J.view (row K.format (J.wire version)) J.joining (bytes.now ++ beyond.old) (x.1.now ++ beyond.new) entries.old.items entries.new.items) }
    ensures err { OnErr result (StopsRow K.cmp J.view (row K.format (J.wire version)) J.between (bytes.now ++ beyond.old) entries.old.items entries.new.items) }
    ensures rising { IsTrue (is_sorted K.cmp entries.new.items) }
    ensures changed { IfOk result (λ x. IsChangedAt x.0 entries.old.items entries.new.items) }
    ensures less { length beyond.new ≤ length beyond.old }
{
    if next < entries.len() {
        if let Some(after) = entries[next].0.behind(bytes) {
            let rest = entries[next].1.raise(version, beyond, after)?;
            return Ok((next + 1, rest));
        }
    }
    raise_placed(version, beyond, entries, bytes)
}

// Joins the entry at the front to the one with its key, found by a search, or puts it in. Tells the place after it.
pub fn raise_placed<'a, K: Key + FrontKey, J: WireJoin>(
    version: Version,
    beyond: &mut Beyond<'a>,
    entries: &mut Vec<(K, J)>,
    bytes: &'a [u8],
) -> Result<(usize, &'a [u8]), OutOfMemory>
    requires rising { IsTrue (is_sorted K.cmp entries.old.items) }
    requires spelled { StandsInFront (row K.format (J.wire version)) (bytes.now ++ beyond.old) }
    ensures ok { IfOk result (λ x. RaisesRow K.cmp J.view (row K.format (J.wire version)) J.joining (bytes.now ++ beyond.old) (x.1.now ++ beyond.new) entries.old.items entries.new.items) }
    ensures err { OnErr result (StopsRow K.cmp J.view (row K.format (J.wire version)) J.between (bytes.now ++ beyond.old) entries.old.items entries.new.items) }
    ensures rising { IsTrue (is_sorted K.cmp entries.new.items) }
    ensures changed { IfOk result (λ x. IsChangedAt x.0 entries.old.items entries.new.items) }
    ensures less { length beyond.new ≤ length beyond.old }
{
    let Ok((key, rest)) = K::read(beyond.alloc(), bytes) else {
        return Err(OutOfMemory);
    };
    match place_of_key(entries, &key) {
        Ok(at) => {
            let rest = entries[at].1.raise(version, beyond, rest)?;
            Ok((at + 1, rest))
        }
        Err(at) => {
            let Ok((value, rest)) = J::read_new(version, beyond, rest) else {
                return Err(OutOfMemory);
            };
            entries.insert(at, (key, value))?;
            Ok((at + 1, rest))
        }
    }
}
