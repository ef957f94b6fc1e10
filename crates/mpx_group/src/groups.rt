//! Groups of processes, and the calls that make one of others.
ghost use Rattle.std.specs.Prelude.{◌≡◌, ◌<◌, ◌↔◌, ℕ, nat_eq, List, All, map, length, slice_index, IfOk, IfSome, IfNone, IsOkUnless, Ok, Err, if◌then◌else◌};
ghost use Rattle.std.specs.Bool.{OnTrue, OnFalse};
ghost use Rattle.std.specs.List.{list_all};
ghost use Rattle.std.specs.Cmp.Lexicographic.{pointwise};
ghost use Rattle.join_core.specs.Joins.{never_between, never_joined};
ghost use Rattle.mpx_group.specs.Group.{numbers_equality, IsGroup, has, has_twice, union_of, intersection_of, difference_of, rank_in, comparison_of};
ghost use Rattle.mpx_group.specs.Choice.{ranks_refusal, triplets_refusal, incl_of, excl_of, ranks_of};
ghost use Rattle.mpx_group.specs.Translation.{translated};

use crate::picks::Picks;
use crate::triplets::any_bad;
use crate::{Comparison, GroupError, Proc, Rank, Triplet};
use join_core::{Exact, OutOfMemory};
use std::alloc::{AllocError, Global};
use std::marker::Model;

/// An ordered list of distinct processes; rank i is the i-th.
#[derive(Debug, Drop)]
pub struct Group {
    members: Vec<Proc>,
}

impl Model for Group {
    ghost Value = { List ℕ };

    ghost view = { λ g. g.members.items };

    ghost invariant = { λ g. IsGroup g.members.items };
}

impl Group {
    /// The group of these processes in this order. A process that stands twice is refused as `RankTwice`.
    pub fn new(members: Vec<Proc>) -> Result<Group, GroupError>
        ensures { result ≡ (if has_twice members.items then Err GroupError.RankTwice else Ok members.items) }
    {
        for (i, member) in members.iter().enumerate() {
            if members[..i].contains(member) {
                return Err(GroupError::RankTwice);
            }
            // so that the proof knows it to be below 64
            let _number = member.number();
        }
        Ok(Group { members })
    }

    /// The group of these processes in this order, which are those of a group. It takes no memory, and asks nothing of them.
    pub fn of(members: Vec<Proc>) -> Group
        requires { IsGroup members.items }
        ensures { result ≡ members.items }
    {
        Group { members }
    }

    /// How many members it has.
    pub fn size(&self) -> u8
        ensures size { result ≡ length self.now }
        ensures group { IsGroup self.now }
    {
        self.members.len() as u8
    }

    /// The members in rank order.
    pub fn members(&self) -> &[Proc]
        ensures { result.now ≡ self.now }
    {
        self.members.as_slice()
    }

    /// The rank of a process, where it is a member.
    pub fn rank_of(&self, process: Proc) -> Option<u8>
        ensures { result ≡ rank_in process self.now }
    {
        for (rank, member) in self.members.iter().enumerate() {
            if *member == process {
                return Some(rank as u8);
            }
        }
        None
    }

    /// All of this group, then those of the other that aren't in this one, in the other's order.
    pub fn union(&self, alloc: Global, other: &Group) -> Result<Group, OutOfMemory>
        ensures { IfOk result (λ made. made ≡ union_of self.now other.now) }
    {
        let mut members = Vec::from_slice(alloc, &self.members)?;
        members.extend_from_slice(&lacking(alloc, &other.members, &self.members)?)?;
        Ok(Group { members })
    }

    /// Those of this group that are in the other, in this one's order.
    pub fn intersection(&self, alloc: Global, other: &Group) -> Result<Group, OutOfMemory>
        ensures { IfOk result (λ made. made ≡ intersection_of self.now other.now) }
    {
        let members = shared(alloc, &self.members, &other.members)?;
        Ok(Group { members })
    }

    /// Those of this group that aren't in the other, in this one's order.
    pub fn difference(&self, alloc: Global, other: &Group) -> Result<Group, OutOfMemory>
        ensures { IfOk result (λ made. made ≡ difference_of self.now other.now) }
    {
        let members = lacking(alloc, &self.members, &other.members)?;
        Ok(Group { members })
    }

    /// How it compares with the other (MPI 4.1, section 7.3.1).
    pub fn compare(&self, other: &Group) -> Comparison
        ensures comparison { result ≡ comparison_of self.now other.now }
        ensures ident { (result ≡ Comparison.Ident) ↔ (self.now ≡ other.now) }
    {
        if self.members == other.members {
            Comparison::Ident
        } else if all_in(&self.members, &other.members) && all_in(&other.members, &self.members) {
            Comparison::Similar
        } else {
            Comparison::Unequal
        }
    }

    /// The rank in the other group of the process at each rank here. A rank here that is no member's, and one
    /// whose process isn't in the other group, give `Undefined`; `ProcNull` gives `ProcNull` and `Undefined`
    /// gives `Undefined`.
    pub fn translate(
        &self,
        alloc: Global,
        ranks: &[Rank],
        to: &Group,
    ) -> Result<Vec<Rank>, OutOfMemory>
        ensures { IfOk result (λ found. found.items ≡ map (translated self.now to.now) ranks.now) }
    {
        let mut found = Vec::new(alloc);
        for rank in ranks {
            found.push(self.translated(*rank, to))?;
        }
        Ok(found)
    }

    fn translated(&self, rank: Rank, to: &Group) -> Rank
        ensures { result ≡ translated self.now to.now rank }
    {
        match rank {
            Rank::At(rank) => match self.members.get(rank as usize) {
                Some(member) => match to.rank_of(*member) {
                    Some(found) => Rank::At(found),
                    None => Rank::Undefined,
                },
                None => Rank::Undefined,
            },
            Rank::ProcNull => Rank::ProcNull,
            Rank::Undefined => Rank::Undefined,
        }
    }

    /// The group whose rank i is the process at `ranks[i]`; no ranks give the empty group. Ranks that are none
    /// of the group's are `RankOutOfRange`, and those listed twice `RankTwice`.
    pub fn incl(&self, alloc: Global, ranks: &[i128]) -> Result<Group, GroupError>
        ensures refused { IfSome (ranks_refusal self.now ranks.now) (λ e. result ≡ Err e) }
        ensures memory { IfNone (ranks_refusal self.now ranks.now) (IsOkUnless result GroupError.OutOfMemory) }
        ensures made { IfOk result (λ made. made ≡ incl_of self.now ranks.now) }
    {
        let mut picks = Picks::new();
        for rank in ranks {
            if !picks.pick(self.size(), *rank) {
                return Err(GroupError::RankOutOfRange);
            }
        }
        self.picked(alloc, &picks)
    }

    /// This group without the processes at these ranks, in its own order. The refusals are those of `incl`.
    pub fn excl(&self, alloc: Global, ranks: &[i128]) -> Result<Group, GroupError>
        ensures refused { IfSome (ranks_refusal self.now ranks.now) (λ e. result ≡ Err e) }
        ensures memory { IfNone (ranks_refusal self.now ranks.now) (IsOkUnless result GroupError.OutOfMemory) }
        ensures made { IfOk result (λ made. made ≡ excl_of self.now ranks.now) }
    {
        let excluded = self.incl(alloc, ranks)?;
        Ok(self.difference(alloc, &excluded)?)
    }

    /// `incl` of the ranks of all triplets, one after another; a triplet that stands for no ranks is `BadTriplet`.
    pub fn range_incl(&self, alloc: Global, triplets: &[Triplet]) -> Result<Group, GroupError>
        ensures refused { IfSome (triplets_refusal self.now triplets.now) (λ e. result ≡ Err e) }
        ensures memory { IfNone (triplets_refusal self.now triplets.now) (IsOkUnless result GroupError.OutOfMemory) }
        ensures made { IfOk result (λ made. made ≡ incl_of self.now (ranks_of triplets.now)) }
    {
        if any_bad(triplets) {
            return Err(GroupError::BadTriplet);
        }
        let mut picks = Picks::new();
        for triplet in triplets {
            if !picks.pick_triplet(self.size(), triplet) {
                return Err(GroupError::RankOutOfRange);
            }
        }
        self.picked(alloc, &picks)
    }

    /// `excl` of the ranks of all triplets. The refusals are those of `range_incl`.
    pub fn range_excl(&self, alloc: Global, triplets: &[Triplet]) -> Result<Group, GroupError>
        ensures refused { IfSome (triplets_refusal self.now triplets.now) (λ e. result ≡ Err e) }
        ensures memory { IfNone (triplets_refusal self.now triplets.now) (IsOkUnless result GroupError.OutOfMemory) }
        ensures made { IfOk result (λ made. made ≡ excl_of self.now (ranks_of triplets.now)) }
    {
        let excluded = self.range_incl(alloc, triplets)?;
        Ok(self.difference(alloc, &excluded)?)
    }

    /// The members at the ranks that were picked.
    fn picked(&self, alloc: Global, picks: &Picks) -> Result<Group, GroupError>
        requires { All (λ r. r < length self.now) picks.now.0 }
        ensures twice { OnTrue picks.now.1 (result ≡ Err GroupError.RankTwice) }
        ensures memory { OnFalse picks.now.1 (IsOkUnless result GroupError.OutOfMemory) }
        ensures made { IfOk result (λ made. made ≡ map (λ r. slice_index self.now r) picks.now.0) }
    {
        if picks.has_twice() {
            return Err(GroupError::RankTwice);
        }
        let mut members = Vec::new(alloc);
        for rank in picks.ranks() {
            members.push(self.members[*rank as usize])?;
        }
        Ok(Group { members })
    }
}

impl Exact for Group {
    ghost View = { List ℕ };

    ghost view = { λ g. g };

    ghost equal = { pointwise nat_eq };

    ghost joining = { never_joined };

    ghost between = { never_between };

    fn same(&self, other: &Group) -> bool {
        self.members() == other.members()
    }

    fn copy(&self, alloc: Global) -> Result<Group, OutOfMemory> {
        let members = Vec::from_slice(alloc, &self.members)?;
        Ok(Group { members })
    }

    ghost equality = { numbers_equality };
}

fn shared(alloc: Global, members: &[Proc], others: &[Proc]) -> Result<Vec<Proc>, AllocError>
    ensures { IfOk result (λ made. made.items ≡ intersection_of members.now others.now) }
{
    members
        .iter()
        .copied()
        .filter(|member| others.contains(member))
        .collect(alloc)
}

fn lacking(alloc: Global, members: &[Proc], others: &[Proc]) -> Result<Vec<Proc>, AllocError>
    ensures { IfOk result (λ made. made.items ≡ difference_of members.now others.now) }
{
    members
        .iter()
        .copied()
        .filter(|member| !others.contains(member))
        .collect(alloc)
}

/// Whether each of these processes is among the others.
pub fn all_in(members: &[Proc], others: &[Proc]) -> bool
    ensures { result ≡ list_all (λ p. has others.now p) members.now }
{
    members.iter().all(|member| others.contains(member))
}
