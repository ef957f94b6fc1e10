//! Who gathers for calls of `create_group`.
ghost use Rattle.std.specs.Prelude.{◌≡◌, ◌≢◌, ◌<◌, ◌≤◌, ◌^◌, [], length, true, false, IfOk};
ghost use Rattle.std.specs.List.{list_all};
ghost use Rattle.mpx_group.specs.Group.{has_twice};
ghost use Rattle.mpx_birth.specs.Births.{of_members};
ghost use Rattle.mpx_post.specs.Drafts.{is_rank as is_rank_of};
ghost use Rattle.mpx_post.specs.Gatherings.{ChecksGathering, gathering, is_bad_group, members_at};

use crate::draft::PostError;
use crate::making_fields::{given_tag, is_tag};
use crate::post_fields::place_of;
use join_core::OutOfMemory;
use mpx_birth::Birth;
use mpx_group::{Group, Proc};
use std::alloc::Global;
use std::marker::Model;

/// Who gathers below a communicator for calls of `create_group`, and under which tag (`MPI_COMM_CREATE_GROUP`, MPI 4.1
/// section 7.4.2): 1 to 64 members in their order, a tag from 0 to 32,767.
#[derive(Debug, Drop)]
pub struct Gathering {
    tag: u16,
    members: Group,
}

impl Model for Gathering {
    ghost use Rattle.std.specs.Prelude.{◌<◌, ◌≤◌, ◌≢◌, ◌^◌, [], length};
    ghost use Rattle.mpx_post.specs.Gatherings.{GatheringView};

    ghost Value = { GatheringView };

    ghost view = { λ g. record { tag = g.tag; members = g.members } };

    ghost invariant = { λ g. (g.tag < 2 ^ 15) × (g.members ≢ []) × (length g.members ≤ 64) };
}

impl Gathering {
    /// The gathering of the members with these ranks, or the first reason why a member may not open it below a
    /// communicator whose name has so many steps, and where it has posted a free or not: `NotMember`, `Closed`,
    /// `DepthUsedUp`, `BadGroup`, `BadTag`, `OutOfMemory`.
    pub fn check(
        alloc: Global,
        birth: &Birth,
        me: Proc,
        depth: usize,
        closed: bool,
        tag: i128,
        ranks: &[i128],
    ) -> Result<Gathering, PostError>
        ensures { ChecksGathering (gathering birth.now me depth closed tag ranks.now) result }
    {
        let Some(_rank) = birth.rank_of(me) else {
            return Err(PostError::NotMember);
        };
        if closed {
            return Err(PostError::Closed);
        }
        if 8 <= depth {
            return Err(PostError::DepthUsedUp);
        }
        if is_bad_group(birth.members(), me, ranks) {
            return Err(PostError::BadGroup);
        }
        if !is_tag(tag) {
            return Err(PostError::BadTag);
        }
        match members_at(alloc, birth.members(), ranks) {
            Ok(members) => Ok(Gathering {
                tag: given_tag(tag),
                members,
            }),
            Err(_) => Err(PostError::OutOfMemory),
        }
    }

    /// The tag.
    pub fn tag(&self) -> u16
        ensures value { result ≡ self.now.tag }
        ensures small { result < 2 ^ 15 }
    {
        self.tag
    }

    /// The members, of which there is one at least.
    pub fn members(&self) -> &Group
        ensures value { result.now ≡ self.now.members }
        ensures some { result.now ≢ [] }
    {
        &self.members
    }

    /// How a communicator of these members comes to be.
    pub fn birth(&self, alloc: Global) -> Result<Birth, OutOfMemory>
        ensures { IfOk result (λ birth. birth ≡ of_members self.now.members) }
    {
        // so that the proof knows that no member stands twice
        let _size = self.members.size();
        let members = Vec::from_slice(alloc, self.members.members())?;
        Birth::of_members(alloc, members)
    }
}

// Whether a rank is out of range, a member stands twice, or none of them is the caller.
fn is_bad_group(members: &[Proc], me: Proc, ranks: &[i128]) -> bool
    requires { length members.now ≤ 64 }
    ensures { result ≡ is_bad_group members.now me ranks.now }
{
    let mut seen = [false; 64];
    for &rank in ranks {
        let Some(place) = place_of(members.len(), rank) else {
            return true;
        };
        let member = members[place].number() as usize;
        if seen[member] {
            return true;
        }
        seen[member] = true;
    }
    !seen[me.number() as usize]
}

// The members at these ranks, which differ.
fn members_at(alloc: Global, members: &[Proc], ranks: &[i128]) -> Result<Group, OutOfMemory>
    requires ranks { list_all (is_rank_of (length members.now)) ranks.now ≡ true }
    requires distinct { has_twice (members_at members.now ranks.now) ≡ false }
    ensures value { IfOk result (λ group. group ≡ members_at members.now ranks.now) }
    ensures few { IfOk result (λ group. length group ≤ 64) }
{
    let mut list = Vec::new(alloc);
    for &rank in ranks {
        list.push(members[rank as usize])?;
    }
    match Group::new(list) {
        Ok(group) => {
            // so that the proof knows it to be of 64 at most
            let _size = group.size();
            Ok(group)
        }
        Err(_) => unreachable!(),
    }
}
