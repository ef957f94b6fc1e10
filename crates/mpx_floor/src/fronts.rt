//! Version vectors, and the least number of a context's members.
ghost use Rattle.std.specs.Prelude.{◌≡◌, map};
ghost use Rattle.std.specs.FinMap.{get};
ghost use Rattle.mpx_floor.specs.Fronts.{front_in, minimum, or_zero, view_of_numbers};

use join_core::Max;
use join_nest::Keyed;
use mpx_birth::Birth;
use mpx_group::Proc;

/// A version vector: a number of calls for each process.
pub type VersionVector = Keyed<Proc, Max>;

/// The number of the process: 0 where there is none.
pub fn number_of(numbers: &VersionVector, process: Proc) -> u32
    ensures { result ≡ or_zero (get (view_of_numbers numbers.now) process) }
{
    match numbers.get(&process) {
        None => 0,
        Some(number) => number.0,
    }
}

/// The least number of calls that a member has harvested. A member that the numbers don't name has harvested none.
pub fn floor(birth: &Birth, fronts: &VersionVector) -> u32
    ensures { result ≡ minimum (map (front_in (view_of_numbers fronts.now)) birth.now.members) }
{
    let members = birth.members();
    let mut least = number_of(fronts, members[0]);
    for member in &members[1..] {
        least = least.min(number_of(fronts, *member));
    }
    least
}
