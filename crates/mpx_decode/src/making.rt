//! Reading what posts say of new communicators.
ghost use Rattle.std.specs.Prelude.{◌≡◌, ◌<◌, IfOk};
ghost use Rattle.mpx_group.specs.Group.{has};
ghost use Rattle.mpx_num.specs.declared.types.Ty.TheVariants.{I32};
ghost use Rattle.mpx_post.specs.Posts.{IsColour, IsMaking};
ghost use Rattle.mpx_format.specs.Format.{Gives};
ghost use Rattle.mpx_format.specs.Fields.{member};
ghost use Rattle.mpx_format.specs.Posts.{choice, edges, group, integer, making_for, own, ranks, split};

use crate::big_endian::read_u8;
use crate::codes::read_flag;
use crate::fields::{read_colour, read_process};
use crate::lists::{Repeated, read_list};
use crate::neighbours::{EachEdge, read_edge_count, read_few_neighbours};
use mpx_birth::Neighbours;
use mpx_format::{ReadError, SHORT, out_of_limits};
use mpx_kind::Makes;
use mpx_post::{Edges, Making, OwnNeighbours, Ranks};
use std::alloc::Global;

// COLOUR AND KEY

// 0 where the colour is undefined, or 1 and the colour.
#[tactic(auto, unfolding(mpx_format::specs::Posts::choice))]
fn read_choice(bytes: &[u8]) -> Result<(Option<u32>, &[u8]), ReadError>
    ensures read { Gives (λ x. (x.0, x.1.now)) result (choice.read bytes.now) }
    ensures small { IfOk result (λ x. IsColour x.0) }
{
    let (form, rest) = read_u8(bytes)?;
    if form == 0 {
        Ok((None, rest))
    } else if form == 1 {
        let (colour, rest) = read_colour(rest)?;
        Ok((Some(colour), rest))
    } else {
        Err(out_of_limits(bytes))
    }
}

#[tactic(auto, unfolding(mpx_format::specs::Posts::integer))]
fn read_key(bytes: &[u8]) -> Result<(i32, &[u8]), ReadError>
    ensures { Gives (λ x. (x.0, x.1.now)) result ((integer I32).read bytes.now) }
{
    match bytes.split_first_chunk::<4>() {
        None => Err(SHORT),
        Some((number, rest)) => Ok((i32::from_be_bytes(*number), rest)),
    }
}

#[tactic(auto, unfolding(mpx_format::specs::Posts::split))]
fn read_split(bytes: &[u8]) -> Result<(Making, &[u8]), ReadError>
    ensures read { Gives (λ x. (x.0, x.1.now)) result (split.read bytes.now) }
    ensures is { IfOk result (λ x. IsMaking Makes.Colour x.0) }
{
    let (colour, rest) = read_choice(bytes)?;
    let (key, rest) = read_key(rest)?;
    Ok((Making::Split { colour, key }, rest))
}

// GROUPS

// Ranks, none twice.
struct EachRank;

impl Repeated for EachRank {
    type Value = u8;

    ghost format = { λ s before. member before };

    ghost Within = { λ s r. r < 64 };

    #[tactic(auto, unfolding(mpx_format::specs::Fields::member))]
    fn read<'a>(
        &self,
        _alloc: Global,
        before: &[u8],
        bytes: &'a [u8],
    ) -> Result<(u8, &'a [u8]), ReadError> {
        let (rank, rest) = read_process(bytes)?;
        if is_among(before, rank) {
            Err(out_of_limits(bytes))
        } else {
            Ok((rank, rest))
        }
    }
}

fn is_among(ranks: &[u8], rank: u8) -> bool
    ensures { result ≡ has ranks.now rank }
{
    ranks.iter().any(|other| *other == rank)
}

#[tactic(auto, unfolding(mpx_format::specs::Posts::ranks))]
fn read_ranks(alloc: Global, bytes: &[u8]) -> Result<(Ranks, &[u8]), ReadError>
    ensures { Gives (λ x. (x.0, x.1.now)) result (ranks.read bytes.now) }
{
    let (len, rest) = read_u8(bytes)?;
    let (list, rest) = read_list(&EachRank, alloc, len as usize, rest)?;
    Ok((Ranks::new(alloc, list)?, rest))
}

#[tactic(auto, unfolding(mpx_format::specs::Posts::group))]
fn read_group(alloc: Global, bytes: &[u8]) -> Result<(Making, &[u8]), ReadError>
    ensures read { Gives (λ x. (x.0, x.1.now)) result (group.read bytes.now) }
    ensures is { IfOk result (λ x. IsMaking Makes.Group x.0) }
{
    let (ranks, rest) = read_ranks(alloc, bytes)?;
    // so that the proof knows them to be ranks
    let _ranks = ranks.as_slice();
    Ok((Making::Group(ranks), rest))
}

// GRAPHS

// Any edges of a graph.
#[tactic(auto, unfolding(mpx_format::specs::Posts::edges))]
fn read_edges(alloc: Global, bytes: &[u8]) -> Result<(Edges, &[u8]), ReadError>
    ensures { Gives (λ x. (x.0, x.1.now)) result (edges.read bytes.now) }
{
    let (weighted, rest) = read_flag(bytes)?;
    let (count, rest) = read_edge_count(512, rest)?;
    let (list, rest) = read_list(&EachEdge { weighted }, alloc, count as usize, rest)?;
    Ok((Edges::new(alloc, weighted, list)?, rest))
}

// The member's own sources and destinations in a graph.
#[tactic(auto, unfolding(mpx_format::specs::Posts::own))]
fn read_own(alloc: Global, bytes: &[u8]) -> Result<(OwnNeighbours, &[u8]), ReadError>
    ensures { Gives (λ x. (x.0, x.1.now)) result (own.read bytes.now) }
{
    let (weighted, rest) = read_flag(bytes)?;
    let (sources, rest) = read_few_neighbours(weighted, 512, alloc, rest)?;
    let left = 512 - sources.len();
    let (destinations, rest) = read_few_neighbours(weighted, left, alloc, rest)?;
    let near = Neighbours::new(sources, destinations);
    Ok((OwnNeighbours::new(alloc, weighted, near)?, rest))
}

// What posts of such a kind say.
pub fn read_making(makes: Makes, alloc: Global, bytes: &[u8]) -> Result<(Making, &[u8]), ReadError>
    ensures read { Gives (λ x. (x.0, x.1.now)) result ((making_for makes).read bytes.now) }
    ensures is { IfOk result (λ x. IsMaking makes x.0) }
{
    match makes {
        Makes::Nothing => Ok((Making::Nothing, bytes)),
        Makes::Colour => read_split(bytes),
        Makes::Group => read_group(alloc, bytes),
        Makes::Edges => {
            let (edges, rest) = read_edges(alloc, bytes)?;
            // so that the proof knows them to be edges
            let _edges = edges.as_slice();
            Ok((Making::Edges(edges), rest))
        }
        Makes::Neighbours => {
            let (own, rest) = read_own(alloc, bytes)?;
            // so that the proof knows them to be neighbours
            let _sources = own.sources();
            Ok((Making::Neighbours(own), rest))
        }
    }
}
