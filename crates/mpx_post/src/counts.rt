//! Numbers of items.
ghost use lib.Pointwise.{pointwise};
ghost use Rattle.std.specs.Prelude.{◌≡◌, ◌≤◌, ◌*◌, ℕ, IfOk, [], length, nat_eq, take, true};
ghost use Rattle.std.specs.List.{All, list_all, sum};
ghost use Rattle.mpx_post.specs.Drafts.{is_count, natural as natural_of, naturals};
ghost use Rattle.mpx_post.specs.Posts.{AreCounts, most_counts, most_items};

use join_core::OutOfMemory;
use std::alloc::Global;
use std::marker::Model;
use std::sync::Arc;

/// Numbers of items, each at most 4,096. There are at most 65,535 of them. None or one take no memory, and copies of more share
/// them.
#[derive(Debug, Drop)]
pub struct Counts {
    list: KeptCounts,
}

// How the counts are kept.
#[derive(Debug, Drop)]
enum KeptCounts {
    None,
    One([u16; 1]),
    Shared(Arc<Vec<u16>>),
}

impl Model for Counts {
    ghost use Rattle.std.specs.Prelude.{List, ℕ};
    ghost use Rattle.mpx_post.specs.Posts.{AreCounts};
    ghost use Rattle.mpx_post.specs.KeptCounts.{kept_counts};

    ghost Value = { List ℕ };

    ghost view = { λ c. kept_counts c.list };

    ghost invariant = { λ c. AreCounts (kept_counts c.list) };
}

impl Counts {
    /// No counts. It takes no memory.
    pub fn none() -> Counts
        ensures { result ≡ [] }
    {
        Counts {
            list: KeptCounts::None,
        }
    }

    /// These counts.
    pub fn of(alloc: Global, list: Vec<u16>) -> Result<Counts, OutOfMemory>
        requires { AreCounts list.items }
        ensures { IfOk result (λ counts. counts ≡ list.items) }
    {
        match list.as_slice() {
            [] => Ok(Counts::none()),
            [count] => Ok(Counts {
                list: KeptCounts::One([*count]),
            }),
            _ => match Arc::new(alloc, list) {
                Ok(list) => Ok(Counts {
                    list: KeptCounts::Shared(list),
                }),
                Err(_) => Err(OutOfMemory),
            },
        }
    }

    /// These numbers, which are counts.
    pub(crate) fn new(alloc: Global, numbers: &[i128]) -> Result<Counts, OutOfMemory>
        requires counts { list_all is_count numbers.now ≡ true }
        requires few { length numbers.now ≤ most_counts }
        ensures { IfOk result (λ counts. counts ≡ naturals numbers.now) }
    {
        let mut list = Vec::new(alloc);
        for &number in numbers {
            list.push(natural(number))?;
        }
        Counts::of(alloc, list)
    }

    /// The counts.
    pub fn as_slice(&self) -> &[u16]
        ensures value { result.now ≡ self.now }
        ensures small { All (λ count. count ≤ most_items) result.now }
        ensures few { length result.now ≤ most_counts }
    {
        match &self.list {
            KeptCounts::None => &[],
            KeptCounts::One(one) => one,
            KeptCounts::Shared(list) => list.as_slice(),
        }
    }

    /// The sum of the first so many of them.
    pub fn sum_before(&self, place: usize) -> usize
        ensures value { result ≡ sum (take place self.now) }
        ensures small { result ≤ most_counts * most_items }
    {
        let list = self.as_slice();
        sum_of(&list[..place.min(list.len())])
    }

    /// The sum of all of them.
    pub fn sum(&self) -> usize
        ensures value { result ≡ sum self.now }
        ensures small { result ≤ most_counts * most_items }
    {
        self.sum_before(self.as_slice().len())
    }

    // Whether they are the same.
    pub(crate) fn same(&self, other: &Counts) -> bool
        ensures { result ≡ pointwise nat_eq self.now other.now }
    {
        match (&self.list, &other.list) {
            (KeptCounts::None, KeptCounts::None) => true,
            _ => self.as_slice() == other.as_slice(),
        }
    }

    // A copy, which shares the list of counts.
    pub(crate) fn copy(&self) -> Result<Counts, OutOfMemory>
        ensures { IfOk result (λ copied. copied ≡ self.now) }
    {
        let list = match &self.list {
            KeptCounts::None => KeptCounts::None,
            KeptCounts::One(one) => KeptCounts::One(*one),
            KeptCounts::Shared(list) => KeptCounts::Shared(Arc::try_clone(list)?),
        };
        Ok(Counts { list })
    }
}

// The number, which is a count.
fn natural(number: i128) -> u16
    requires { is_count number ≡ true }
    ensures value { result ≡ natural_of number }
    ensures small { result ≤ most_items }
{
    number as u16
}

fn sum_of(counts: &[u16]) -> usize
    requires small { All (λ count. count ≤ most_items) counts.now }
    requires few { length counts.now ≤ most_counts }
    ensures value { result ≡ sum counts.now }
    ensures small { result ≤ length counts.now * most_items }
{
    let mut total: usize = 0;
    for &count in counts {
        total += count as usize;
    }
    total
}

pub(crate) fn are_counts(numbers: &[i128]) -> bool
    ensures { result ≡ list_all is_count numbers.now }
{
    numbers.iter().all(|&number| 0 <= number && number <= 4096)
}

// The sum of numbers, which are counts.
pub(crate) fn total(numbers: &[i128]) -> usize
    requires counts { list_all is_count numbers.now ≡ true }
    requires few { length numbers.now ≤ most_counts }
    ensures value { result ≡ sum (naturals numbers.now) }
    ensures small { result ≤ most_counts * most_items }
{
    let mut total: usize = 0;
    for &number in numbers {
        total += natural(number) as usize;
    }
    total
}
