//! Contexts that have no post held, and what a process says of them.
ghost use Rattle.std.specs.Prelude.{◌≡◌};
ghost use Rattle.std.specs.FinMap.{get};
ghost use Rattle.std.specs.Option.{option_copied, option_map};
ghost use Rattle.join_core.specs.FlatSeen.{flat_view};
ghost use Rattle.mpx_board.specs.Boards.{told};
ghost use Rattle.mpx_board.specs.Views.{view_of_acks, view_of_lifted, view_of_numbers};
ghost use Rattle.mpx_digest.specs.Beyond.{have_all, says_all, says_dropped, says_members};
ghost use Rattle.mpx_digest.specs.Digest.{number_at};

use join_core::{Exact, Flat, Key};
use join_nest::{Keyed, Lift};
use mpx_birth::Birth;
use mpx_board::{Digest, Lifted, VersionVector};
use mpx_group::Proc;
use mpx_name::Name;
use std::cmp::Ordering;

// Whether these say as much of the context as its digest, where it has no post held. Its name is looked for at the place first.
pub fn says_all(said: &Digest, near: usize, name: &Name, known: &Lifted) -> bool
    ensures { result ≡ says_all (view_of_acks said.now) name.now (view_of_lifted known.now) }
{
    match known {
        Lift::Dead => true,
        Lift::Live(entry) => match entry.second.second.entries() {
            [] => says_dropped(
                said,
                near,
                name,
                &entry.first,
                entry.second.second.dropped(),
            ),
            _ => false,
        },
    }
}

// Whether these say of each member, where members are known, that so many of its calls are known.
fn says_dropped(said: &Digest, near: usize, name: &Name, birth: &Flat<Birth>, dropped: u32) -> bool
    ensures { result ≡ says_dropped (get (view_of_acks said.now) name.now) dropped (told (flat_view (λ v. v) birth.now)) }
{
    match birth {
        Flat::Unknown => true,
        Flat::Clash => true,
        Flat::Known(birth) => {
            dropped == 0 || says_members(said, near, name, birth.members(), dropped)
        }
    }
}

fn says_members(said: &Digest, near: usize, name: &Name, members: &[Proc], dropped: u32) -> bool
    ensures { result ≡ says_members (get (view_of_acks said.now) name.now) dropped members.now }
{
    match value_near(said, near, name) {
        None => false,
        Some(numbers) => have_all(numbers, dropped, members),
    }
}

// Whether none of the members' numbers is less.
fn have_all(numbers: &VersionVector, least: u32, members: &[Proc]) -> bool
    ensures { result ≡ have_all (view_of_numbers numbers.now) least members.now }
{
    for i in 0..members.len() {
        if number_near(numbers, i, members[i]) < least {
            return false;
        }
    }
    true
}

/// The value at the key: it is looked for at the place first.
pub fn value_near<'a, K: Key, J: Exact>(map: &'a Keyed<K, J>, at: usize, key: &K) -> Option<&'a J>
    ensures { option_map J.view (option_copied result) ≡ get (⟦<Keyed<K, J> as Exact>⟧.view map.now) key.now }
{
    let entries = map.entries();
    if at < entries.len() {
        let entry = &entries[at];
        if let Ordering::Equal = entry.0.cmp(key) {
            return Some(&entry.1);
        }
    }
    map.get(key)
}

/// The number of the process, which is looked for at the place first: 0 where there is none.
pub fn number_near(numbers: &VersionVector, at: usize, process: Proc) -> u32
    ensures { result ≡ number_at (view_of_numbers numbers.now) process }
{
    match value_near(numbers, at, &process) {
        None => 0,
        Some(number) => number.0,
    }
}
