//! Questions that are answered at once: their lines, by how communicators came to be.
ghost use Rattle.std.specs.Prelude.{◌≡◌, IfOk, length};
ghost use Rattle.std.specs.Option.{option_map};
ghost use Rattle.mpx_group.specs.Group.{comparison_of};
ghost use Rattle.mpx_name.specs.Name.{same_name};
ghost use Rattle.mpx_birth.specs.Births.{rank_in};
ghost use Rattle.mpx_post.specs.Rows.{all_of};
ghost use Rattle.mpx_meaning.specs.Ranks.{Compared, comparison_in, found_map, line_of, line_of_two, neighbours_at, neighbours_in, rank_asked, relation_of, told_to, translated_told, translation_in};

use crate::line::{Line, NeighbourList, TranslatedRanks};
use join_core::OutOfMemory;
use mpx_birth::{Birth, Neighbour, Topology};
use mpx_graph::{destinations, sources};
use mpx_group::{Comparison, Group, Proc, Rank};
use mpx_name::Name;
use mpx_post::PostError;
use mpx_statement::Side;
use std::alloc::Global;

/// How two communicators compare (`MPI_COMM_COMPARE`, MPI 4.1 section 7.4.1).
#[derive(Clone, Copy, Debug, PartialEq, Eq)]
pub enum Relation {
    /// They are the same communicator: one context.
    Ident,
    /// The same members in the same order, in another context.
    Congruent,
    /// The same members in another order.
    Similar,
    /// Other members.
    Unequal,
}

/// What a word stands for that is asked about.
#[derive(Clone, Copy, Debug, Drop)]
pub enum Found<T> {
    /// No communicator.
    Null,
    /// A communicator on which the rank has posted a free.
    Freed,
    /// A communicator, by what is known of it.
    Open(T),
}

/// The line that tells process `me` its neighbours on one side in a communicator (`MPI_DIST_GRAPH_NEIGHBORS`, MPI 4.1 section
/// 8.5.5): `refused NotMember` where there is none, or it is no member, `refused Closed` where the process has freed it, and
/// `refused NoTopology` where there is no graph.
pub fn neighbours_answer(
    alloc: Global,
    me: Proc,
    side: Side,
    communicator: Found<(&Name, &Birth)>,
) -> Result<Line, OutOfMemory>
    ensures { IfOk result (λ line. line ≡ line_of (neighbours_in me side) (found_map (λ c. (c.0.now, c.1.now)) communicator.entry)) }
{
    match communicator {
        Found::Null => Ok(Line::Refused(PostError::NotMember)),
        Found::Freed => Ok(Line::Refused(PostError::Closed)),
        Found::Open((_name, birth)) => own_neighbours(alloc, me, side, birth),
    }
}

// The line of the own neighbours on this side, in a communicator with this birth.
fn own_neighbours(alloc: Global, me: Proc, side: Side, birth: &Birth) -> Result<Line, OutOfMemory>
    ensures { IfOk result (λ line. line ≡ told_to side birth.now (rank_in me birth.now.members)) }
{
    let Some(rank) = birth.rank_of(me) else {
        return Ok(Line::Refused(PostError::NotMember));
    };
    let Some(topology) = birth.topology() else {
        return Ok(Line::Refused(PostError::NoTopology));
    };
    let own = Vec::from_slice(alloc, neighbours(topology, rank, side))?;
    Ok(Line::Near {
        weighted: topology.weighted(),
        neighbours: NeighbourList::new(own),
    })
}

// The neighbours of a rank on one side.
fn neighbours(topology: &Topology, rank: u8, side: Side) -> &[Neighbour]
    ensures { result.now ≡ neighbours_at side topology.now rank }
{
    match side {
        Side::Sources => sources(topology, rank),
        Side::Destinations => destinations(topology, rank),
    }
}

/// The line that tells how two communicators compare, by their names and how they came to be (`MPI_COMM_COMPARE`, MPI 4.1
/// section 7.4.1): `refused NotMember` where one is missing, and `refused Closed` where the process has freed one.
pub fn comparison_answer(
    alloc: Global,
    first: Found<(&Name, &Birth)>,
    second: Found<(&Name, &Birth)>,
) -> Result<Line, OutOfMemory>
    ensures { IfOk result (λ line. line
        ≡ line_of_two comparison_in (found_map (λ c. (c.0.now, c.1.now)) first.entry) (found_map (λ c. (c.0.now, c.1.now)) second.entry)) }
{
    match first {
        Found::Null => Ok(Line::Refused(PostError::NotMember)),
        Found::Freed => match second {
            Found::Null => Ok(Line::Refused(PostError::NotMember)),
            Found::Freed => Ok(Line::Refused(PostError::Closed)),
            Found::Open(_) => Ok(Line::Refused(PostError::Closed)),
        },
        Found::Open((name, birth)) => match second {
            Found::Null => Ok(Line::Refused(PostError::NotMember)),
            Found::Freed => Ok(Line::Refused(PostError::Closed)),
            Found::Open((other_name, other)) => {
                comparison_line(alloc, name, birth, other_name, other)
            }
        },
    }
}

// The line of how two communicators with these names and births compare.
fn comparison_line(
    alloc: Global,
    name: &Name,
    birth: &Birth,
    other_name: &Name,
    other: &Birth,
) -> Result<Line, OutOfMemory>
    ensures { IfOk result (λ line. line
        ≡ Compared (relation_of (same_name name.now other_name.now) (comparison_of birth.now.members other.now.members))) }
{
    let groups = group_of(alloc, birth)?.compare(&group_of(alloc, other)?);
    Ok(Line::Compared(relation_by(name == other_name, groups)))
}

// How communicators compare, by whether their contexts are the same, and by their groups.
fn relation_by(same_context: bool, groups: Comparison) -> Relation
    ensures { result ≡ relation_of same_context groups }
{
    if same_context {
        return Relation::Ident;
    }
    match groups {
        Comparison::Ident => Relation::Congruent,
        Comparison::Similar => Relation::Similar,
        Comparison::Unequal => Relation::Unequal,
    }
}

/// The line that tells the ranks in the second communicator of the processes with these ranks in the first
/// (`MPI_GROUP_TRANSLATE_RANKS`, MPI 4.1 section 7.3.1), with one space between them: `undefined` where the process is no
/// member, `null` for None, which stands for `MPI_PROC_NULL`; `empty` where none are asked for. It is `refused NotMember` where
/// a communicator is missing, `refused Closed` where the process has freed one, and `refused RankOutOfRange` where a rank is
/// none of the first one's.
pub fn translation_answer(
    alloc: Global,
    ranks: &[Option<i128>],
    from: Found<(&Name, &Birth)>,
    to: Found<(&Name, &Birth)>,
) -> Result<Line, OutOfMemory>
    ensures { IfOk result (λ line. line
        ≡ line_of_two (translation_in ranks.now) (found_map (λ c. (c.0.now, c.1.now)) from.entry) (found_map (λ c. (c.0.now, c.1.now)) to.entry)) }
{
    match from {
        Found::Null => Ok(Line::Refused(PostError::NotMember)),
        Found::Freed => match to {
            Found::Null => Ok(Line::Refused(PostError::NotMember)),
            Found::Freed => Ok(Line::Refused(PostError::Closed)),
            Found::Open(_) => Ok(Line::Refused(PostError::Closed)),
        },
        Found::Open((_name, from)) => match to {
            Found::Null => Ok(Line::Refused(PostError::NotMember)),
            Found::Freed => Ok(Line::Refused(PostError::Closed)),
            Found::Open((_name, to)) => translation_between(alloc, ranks, from, to),
        },
    }
}

// The line of the ranks that members of the one birth have in the other.
fn translation_between(
    alloc: Global,
    ranks: &[Option<i128>],
    from: &Birth,
    to: &Birth,
) -> Result<Line, OutOfMemory>
    ensures { IfOk result (λ line. line ≡ translated_told from.now.members to.now.members (all_of (rank_asked (length from.now.members)) ranks.now)) }
{
    translation_line(alloc, ranks, &group_of(alloc, from)?, &group_of(alloc, to)?)
}

// The line of the ranks that members of the one group have in the other.
fn translation_line(
    alloc: Global,
    ranks: &[Option<i128>],
    from: &Group,
    to: &Group,
) -> Result<Line, OutOfMemory>
    ensures { IfOk result (λ line. line ≡ translated_told from.now to.now (all_of (rank_asked (length from.now)) ranks.now)) }
{
    let Some(asked) = ranks_asked(alloc, from.size(), ranks)? else {
        return Ok(Line::StrayRank);
    };
    let translated = from.translate(alloc, &asked, to)?;
    Ok(Line::Translated(TranslatedRanks::new(translated)))
}

// The ranks of a communicator of this size that are asked for, or None where one is out of range.
fn ranks_asked(
    alloc: Global,
    size: u8,
    ranks: &[Option<i128>],
) -> Result<Option<Vec<Rank>>, OutOfMemory>
    ensures { IfOk result (λ asked. option_map (λ found. found.items) asked ≡ all_of (rank_asked size) ranks.now) }
{
    let mut asked = Vec::new(alloc);
    for rank in ranks {
        let Some(rank) = rank_asked(size, *rank) else {
            return Ok(None);
        };
        asked.push(rank)?;
    }
    Ok(Some(asked))
}

fn rank_asked(size: u8, rank: Option<i128>) -> Option<Rank>
    ensures { result ≡ rank_asked size rank }
{
    let Some(rank) = rank else {
        return Some(Rank::ProcNull);
    };
    if 0 <= rank && rank < i128::from(size) {
        Some(Rank::At(rank as u8))
    } else {
        None
    }
}

// The members as a group.
fn group_of(alloc: Global, birth: &Birth) -> Result<Group, OutOfMemory>
    ensures { IfOk result (λ group. group ≡ birth.now.members) }
{
    match Group::new(Vec::from_slice(alloc, birth.members())?) {
        Ok(group) => Ok(group),
        Err(_) => unreachable!(),
    }
}
