//! Groups of processes. No function owns more than it looks at: each exit of a function walks the drop of all that it owns.
use join_core::{Exact, OutOfMemory};
use mpx_group::{Comparison, Group, GroupError, Proc, Rank, Triplet};
use std::alloc::Global;
use std::test::Fail;

fn group(alloc: Global, numbers: &[u8]) -> Result<Group, GroupError> {
    let mut members = Vec::new(alloc);
    for number in numbers {
        if *number < 64 {
            members.push(Proc::new(*number))?;
        }
    }
    Group::new(members)
}

// Whether the members have these numbers.
fn has_members(group: &Group, numbers: &[u8]) -> bool {
    let mut same = usize::from(group.size()) == numbers.len();
    for (member, number) in group.members().iter().zip(numbers) {
        same &= member.number() == *number;
    }
    same
}

// Whether ranks of the groups 3, 1 and 1, 2, 0 are translated.
fn translates(alloc: Global, a: &Group, b: &Group) -> Result<bool, OutOfMemory> {
    let asked = [Rank::At(1), Rank::At(0), Rank::ProcNull, Rank::Undefined];
    let wanted = [
        Rank::At(0),
        Rank::Undefined,
        Rank::ProcNull,
        Rank::Undefined,
    ];
    let found = a.translate(alloc, &asked, b)?;
    Ok((found.as_slice() == wanted.as_slice()) & (b.rank_of(Proc::new(2)) == Some(1)))
}

fn is_copied(alloc: Global, group: &Group) -> Result<bool, OutOfMemory> {
    let copy = group.copy(alloc)?;
    Ok(copy.same(group))
}

// Whether the groups 3, 1 and 1, 2, 0 are joined, filtered and translated.
fn combine(alloc: Global, a: &Group, b: &Group) -> Result<bool, OutOfMemory> {
    let united = has_members(&a.union(alloc, b)?, &[3, 1, 2, 0]);
    let shared = has_members(&a.intersection(alloc, b)?, &[1]);
    let lacking = has_members(&a.difference(alloc, b)?, &[3]);
    Ok(united & shared & lacking & translates(alloc, a, b)? & is_copied(alloc, a)?)
}

#[test]
fn joins_filters_and_translates(rt: HostRuntime) -> Result<(), Fail> {
    let a = group(rt.alloc(), &[3, 1])?;
    let b = group(rt.alloc(), &[1, 2, 0])?;
    assert!(rt; combine(rt.alloc(), &a, &b)?);
    Ok(())
}

fn triplet(first: i128, last: i128, stride: i128) -> Triplet {
    Triplet {
        first,
        last,
        stride,
    }
}

// Whether members of the group 5, 6, 7 are chosen.
fn chooses(alloc: Global, g: &Group) -> Result<bool, GroupError> {
    let two = has_members(&g.incl(alloc, &[2, 0])?, &[7, 5]);
    let none = has_members(&g.incl(alloc, &[])?, &[]);
    let others = has_members(&g.excl(alloc, &[1])?, &[5, 7]);
    let between = has_members(&g.range_excl(alloc, &[triplet(0, 2, 2)])?, &[6]);
    Ok(two & none & others & between)
}

fn refusal_of_ranks(alloc: Global, g: &Group, ranks: &[i128]) -> Option<GroupError> {
    match g.incl(alloc, ranks) {
        Ok(_) => None,
        Err(refusal) => Some(refusal),
    }
}

// Whether ranks of three members are refused.
fn refuses_ranks(alloc: Global, g: &Group) -> bool {
    let mut refused = true;
    for (ranks, error) in [
        ([2, 2], GroupError::RankTwice),
        ([2, 3], GroupError::RankOutOfRange),
        ([-1, 0], GroupError::RankOutOfRange),
        ([i128::MAX, i128::MAX], GroupError::RankOutOfRange),
    ] {
        refused &= refusal_of_ranks(alloc, g, &ranks) == Some(error);
    }
    refused
}

#[test]
fn chooses_by_rank(rt: HostRuntime) -> Result<(), Fail> {
    let g = group(rt.alloc(), &[5, 6, 7])?;
    assert!(rt; chooses(rt.alloc(), &g)?);
    assert!(rt; refuses_ranks(rt.alloc(), &g));
    Ok(())
}

// Whether the group 5, 6 is told from others.
fn compares(alloc: Global, first: &Group) -> Result<bool, GroupError> {
    let similar = first.compare(&group(alloc, &[6, 5])?);
    let longer = first.compare(&group(alloc, &[5, 6, 7])?);
    Ok(
        (similar == Comparison::Similar)
            & (first.compare(first) == Comparison::Ident)
            & (longer == Comparison::Unequal),
    )
}

#[test]
fn compares_members(rt: HostRuntime) -> Result<(), Fail> {
    let first = group(rt.alloc(), &[5, 6])?;
    assert!(rt; compares(rt.alloc(), &first)?);
    Ok(())
}

#[test]
fn no_member_stands_twice(rt: HostRuntime) -> Result<(), Fail> {
    let repeated = vec![in rt.alloc(); Proc::new(5), Proc::new(6), Proc::new(5)]?;
    assert!(rt; matches!(Group::new(repeated), Err(GroupError::RankTwice)));
    Ok(())
}

// Whether the triplet chooses the members with these numbers.
fn walks(alloc: Global, g: &Group, triplet: Triplet, numbers: &[u8]) -> Result<bool, GroupError> {
    Ok(has_members(&g.range_incl(alloc, &[triplet])?, numbers))
}

// Whether triplets walk through eight members.
fn walks_all(alloc: Global, g: &Group) -> Result<bool, GroupError> {
    let mut walked = true;
    for (first, last, stride, numbers) in [
        (1, 7, 3, [1, 4, 7].as_slice()),
        (6, 1, -2, [6, 4, 2].as_slice()),
        (5, 5, -9, [5].as_slice()),
        (3, i128::MAX, i128::MAX, [3].as_slice()),
        (4, i128::MIN + 5, i128::MIN, [4].as_slice()),
    ] {
        walked &= walks(alloc, g, triplet(first, last, stride), numbers)?;
    }
    Ok(walked)
}

fn refusal_of_walk(alloc: Global, g: &Group, triplets: &[Triplet]) -> Option<GroupError> {
    match g.range_incl(alloc, triplets) {
        Ok(_) => None,
        Err(refusal) => Some(refusal),
    }
}

// Whether triplets are refused that don't.
fn refuses_walks(alloc: Global, g: &Group) -> bool {
    let twice = [triplet(1, 3, 1), triplet(7, 3, -2)];
    let mut refused = refusal_of_walk(alloc, g, &twice) == Some(GroupError::RankTwice);
    for (first, last, stride, error) in [
        (5, 3, 1, GroupError::BadTriplet),
        (3, 5, 0, GroupError::BadTriplet),
        (6, 9, 1, GroupError::RankOutOfRange),
        (0, i128::MAX, i128::MAX - 1, GroupError::RankOutOfRange),
        (4, i128::MIN, i128::MIN, GroupError::RankOutOfRange),
        (i128::MIN, i128::MAX, 1, GroupError::RankOutOfRange),
        (i128::MAX, i128::MIN, i128::MIN, GroupError::RankOutOfRange),
    ] {
        let walk = [triplet(first, last, stride)];
        refused &= refusal_of_walk(alloc, g, &walk) == Some(error);
    }
    refused
}

#[test]
fn walks_triplets(rt: HostRuntime) -> Result<(), Fail> {
    let g = group(rt.alloc(), &[0, 1, 2, 3, 4, 5, 6, 7])?;
    assert!(rt; walks_all(rt.alloc(), &g)?);
    assert!(rt; refuses_walks(rt.alloc(), &g));
    Ok(())
}
