//! Reading edges and neighbours, whose edges have weights or none.
ghost use Rattle.std.specs.Prelude.{◌≡◌, ◌≤◌, IfOk, length};
ghost use Rattle.std.specs.List.{All};
ghost use Rattle.mpx_post.specs.Graphs.{IsEdge, IsNeighbour, IsWeight};
ghost use Rattle.mpx_format.specs.Format.{Gives, many_read};
ghost use Rattle.mpx_format.specs.Births.{near, neighbour, neighbours, weight};
ghost use Rattle.mpx_format.specs.Posts.{edge, edge_count, few_neighbours};

use crate::big_endian::{read_u16, read_u32};
use crate::fields::{read_at_most, read_process};
use crate::lists::{Repeated, read_list};
use mpx_birth::{Edge, Neighbour, Neighbours};
use mpx_format::{ReadError, out_of_limits};
use std::alloc::Global;

// A weight below 2,147,483,648; 0, of no bytes, where edges have none.
#[tactic(auto, unfolding(mpx_format::specs::Births::weight))]
fn read_weight(weighted: bool, bytes: &[u8]) -> Result<(u32, &[u8]), ReadError>
    ensures read { Gives (λ x. (x.0, x.1.now)) result ((weight weighted).read bytes.now) }
    ensures within { IfOk result (λ x. IsWeight weighted x.0) }
{
    if !weighted {
        return Ok((0, bytes));
    }
    let (number, rest) = read_u32(bytes)?;
    if number < 2_147_483_648 {
        Ok((number, rest))
    } else {
        Err(out_of_limits(bytes))
    }
}

// EDGES

/// Edges, with weights or without.
#[derive(Drop)]
pub struct EachEdge {
    pub weighted: bool,
}

impl Repeated for EachEdge {
    type Value = Edge;

    ghost format = { λ s before. edge s.weighted };

    ghost Within = { λ s e. IsEdge s.weighted e };

    #[tactic(auto, unfolding(mpx_format::specs::Posts::edge))]
    fn read<'a>(
        &self,
        _alloc: Global,
        _before: &[Edge],
        bytes: &'a [u8],
    ) -> Result<(Edge, &'a [u8]), ReadError> {
        let (source, rest) = read_process(bytes)?;
        let (destination, rest) = read_process(rest)?;
        let (weight, rest) = read_weight(self.weighted, rest)?;
        let edge = Edge {
            source,
            destination,
            weight,
        };
        Ok((edge, rest))
    }
}

// How many edges there are, at most so many.
#[tactic(auto, unfolding(mpx_format::specs::Posts::edge_count))]
pub fn read_edge_count(most: usize, bytes: &[u8]) -> Result<(u16, &[u8]), ReadError>
    ensures read { Gives (λ x. (x.0, x.1.now)) result ((edge_count most).read bytes.now) }
    ensures few { IfOk result (λ x. x.0 ≤ most) }
{
    read_at_most(most, bytes)
}

// NEIGHBOURS

#[derive(Drop)]
struct EachNeighbour {
    weighted: bool,
}

impl Repeated for EachNeighbour {
    type Value = Neighbour;

    ghost format = { λ s before. neighbour s.weighted };

    ghost Within = { λ s n. IsNeighbour s.weighted n };

    #[tactic(auto, unfolding(mpx_format::specs::Births::neighbour))]
    fn read<'a>(
        &self,
        _alloc: Global,
        _before: &[Neighbour],
        bytes: &'a [u8],
    ) -> Result<(Neighbour, &'a [u8]), ReadError> {
        let (rank, rest) = read_process(bytes)?;
        let (weight, rest) = read_weight(self.weighted, rest)?;
        Ok((Neighbour { rank, weight }, rest))
    }
}

// Neighbours, at most so many.
#[tactic(auto, unfolding(mpx_format::specs::Posts::few_neighbours))]
pub fn read_few_neighbours(
    weighted: bool,
    most: usize,
    alloc: Global,
    bytes: &[u8],
) -> Result<(Vec<Neighbour>, &[u8]), ReadError>
    ensures read { Gives (λ x. (x.0.items, x.1.now)) result ((few_neighbours weighted most).read bytes.now) }
    ensures each { IfOk result (λ x. All (IsNeighbour weighted) x.0.items) }
    ensures few { IfOk result (λ x. length x.0.items ≤ most) }
{
    let (count, rest) = read_edge_count(most, bytes)?;
    let (list, rest) = read_list(&EachNeighbour { weighted }, alloc, count as usize, rest)?;
    Ok((list, rest))
}

#[tactic(auto, unfolding(mpx_format::specs::Births::neighbours))]
fn read_neighbours(
    weighted: bool,
    alloc: Global,
    bytes: &[u8],
) -> Result<(Vec<Neighbour>, &[u8]), ReadError>
    ensures { Gives (λ x. (x.0.items, x.1.now)) result ((neighbours weighted).read bytes.now) }
{
    let (count, rest) = read_u16(bytes)?;
    let (list, rest) = read_list(&EachNeighbour { weighted }, alloc, count as usize, rest)?;
    Ok((list, rest))
}

/// The neighbours of ranks, with weights or without.
#[derive(Drop)]
pub struct EachNear {
    pub weighted: bool,
}

impl Repeated for EachNear {
    type Value = Neighbours;

    ghost format = { λ s before. near s.weighted };

    ghost Within = { λ s n. Unit {0} };

    #[tactic(auto, unfolding(mpx_format::specs::Births::near))]
    fn read<'a>(
        &self,
        alloc: Global,
        _before: &[Neighbours],
        bytes: &'a [u8],
    ) -> Result<(Neighbours, &'a [u8]), ReadError> {
        let (sources, rest) = read_neighbours(self.weighted, alloc, bytes)?;
        let (destinations, rest) = read_neighbours(self.weighted, alloc, rest)?;
        Ok((Neighbours::new(sources, destinations), rest))
    }
}
