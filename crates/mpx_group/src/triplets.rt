//! Ranges of ranks with a stride.
ghost use Rattle.std.specs.Prelude.{◌≡◌, ◌+ℤ◌, ◌≤ℤ◌, pos, false, if◌then◌else◌};
ghost use Rattle.std.specs.List.{list_any};
ghost use Rattle.mpx_group.specs.Triplet.{is_past, is_bad};

/// The ranks first, first + stride, .. that don't pass last: upwards where the stride is positive,
/// downwards where it is negative.
#[derive(Clone, Copy, Debug, PartialEq, Eq)]
pub struct Triplet {
    pub first: i128,
    pub last: i128,
    pub stride: i128,
}

impl Triplet {
    /// Whether its stride is 0, or points away from its last rank.
    pub fn is_bad(&self) -> bool
        ensures { result ≡ is_bad self.now }
    {
        self.stride == 0
            || (0 < self.stride && self.last < self.first)
            || (self.stride < 0 && self.first < self.last)
    }

    /// The rank after this one, where it isn't past the last.
    pub(crate) fn after(&self, rank: i128) -> Option<i128>
        requires good { is_bad self.now ≡ false }
        requires natural { pos 0 ≤ℤ rank }
        requires within { is_past self.now rank ≡ false }
        ensures { let next = rank +ℤ self.now.stride in
            result ≡ (if is_past self.now next then None else Some next) }
    {
        if 0 < self.stride {
            if self.last - self.stride < rank {
                None
            } else {
                Some(rank + self.stride)
            }
        } else if rank + self.stride < self.last {
            None
        } else {
            Some(rank + self.stride)
        }
    }
}

/// Whether one of them is bad.
pub(crate) fn any_bad(triplets: &[Triplet]) -> bool
    ensures { result ≡ list_any is_bad triplets.now }
{
    triplets.iter().any(|triplet| triplet.is_bad())
}
