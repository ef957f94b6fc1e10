//! The graph that the words of a call say.
ghost use Rattle.std.specs.Prelude.{◌≡◌, ◌==◌, IfOk};
ghost use Rattle.std.specs.List.{list_any};
ghost use Rattle.std.specs.Option.{option_map};
ghost use Rattle.mpx_post.specs.Rows.{all_of};
ghost use Rattle.mpx_script.specs.Graphs.{edge_named, edges_graph, entries_in, has_no_entries, is_weighted, neighbour_named, neighbours_graph, parted, weighed};
ghost use Rattle.mpx_script.specs.laws.Parts.{graph_in};

use crate::syntax::NewSyntax;
use crate::words::front_len;
use join_core::OutOfMemory;
use mpx_num::parse_number;
use mpx_post::{DraftedEdge, DraftedGraph, DraftedNeighbour};
use std::alloc::{AllocError, Global};

/// What stands before the first such byte, and what behind it.
fn parted(byte: u8, word: &[u8]) -> Option<(&[u8], &[u8])>
    ensures { option_map (λ parts. (parts.0.now, parts.1.now)) result ≡ parted byte word.now }
{
    let place = front_len(byte, word);
    if place < word.len() {
        Some((&word[..place], &word[place + 1..]))
    } else {
        None
    }
}

/// An entry without its weight, and the weight, which is 0 in a list without weights.
fn weighed(weighted: bool, word: &[u8]) -> Option<(&[u8], i128)>
    ensures { option_map (λ entry. (entry.0.now, entry.1)) result ≡ weighed weighted word.now }
{
    if !weighted {
        return Some((word, 0));
    }
    let (front, weight) = parted(b':', word)?;
    let weight = parse_number(weight)?;
    Some((front, weight))
}

/// The edge of an entry, or None where it is none.
#[tactic(auto, unfolding(crate::specs::Graphs::edge_named))]
fn edge_named(weighted: bool, word: &[u8]) -> Option<DraftedEdge>
    ensures { result ≡ edge_named weighted word.now }
{
    let (ends, weight) = weighed(weighted, word)?;
    let (source, destination) = parted(b'>', ends)?;
    let source = parse_number(source)?;
    let destination = parse_number(destination)?;
    Some(DraftedEdge {
        source,
        destination,
        weight,
    })
}

/// The neighbour of an entry, or None where it is none.
#[tactic(auto, unfolding(crate::specs::Graphs::neighbour_named))]
fn neighbour_named(weighted: bool, word: &[u8]) -> Option<DraftedNeighbour>
    ensures { result ≡ neighbour_named weighted word.now }
{
    let (rank, weight) = weighed(weighted, word)?;
    let rank = parse_number(rank)?;
    Some(DraftedNeighbour { rank, weight })
}

/// Whether the list is one of no entries.
fn has_no_entries(word: &[u8]) -> bool
    ensures { result ≡ has_no_entries word.now }
{
    word == b"-".as_slice() || word == b"-w".as_slice()
}

/// Whether a `:` stands in the list.
fn has_colon(word: &[u8]) -> bool
    ensures { result ≡ list_any (λ byte. byte == 58) word.now }
{
    word.contains(&b':')
}

/// Whether the list has weights.
#[tactic(auto, unfolding(crate::specs::Graphs::is_weighted))]
fn is_weighted(word: &[u8]) -> bool
    ensures { result ≡ is_weighted word.now }
{
    word == b"-w".as_slice() || has_colon(word)
}

/// The edges of a list, or None where an entry is none.
fn edges_in(
    alloc: Global,
    weighted: bool,
    word: &[u8],
) -> Result<Option<Vec<DraftedEdge>>, AllocError>
    ensures { IfOk result (λ found. option_map (λ edges. edges.items) found ≡ all_of (edge_named weighted) (entries_in word.now)) }
{
    let mut edges = Vec::new(alloc);
    if has_no_entries(word) {
        return Ok(Some(edges));
    }
    for entry in word.split(|byte| *byte == b',') {
        let Some(edge) = edge_named(weighted, entry) else {
            return Ok(None);
        };
        edges.push(edge)?;
    }
    Ok(Some(edges))
}

/// The neighbours of a list, or None where an entry is none.
fn neighbours_in(
    alloc: Global,
    weighted: bool,
    word: &[u8],
) -> Result<Option<Vec<DraftedNeighbour>>, AllocError>
    ensures { IfOk result (λ found. option_map (λ neighbours. neighbours.items) found ≡ all_of (neighbour_named weighted) (entries_in word.now)) }
{
    let mut neighbours = Vec::new(alloc);
    if has_no_entries(word) {
        return Ok(Some(neighbours));
    }
    for entry in word.split(|byte| *byte == b',') {
        let Some(neighbour) = neighbour_named(weighted, entry) else {
            return Ok(None);
        };
        neighbours.push(neighbour)?;
    }
    Ok(Some(neighbours))
}

/// The graph of these edges, or None where they are no list of edges.
#[tactic(auto, unfolding(crate::specs::Graphs::edges_graph))]
fn edges_graph(alloc: Global, word: &[u8]) -> Result<Option<DraftedGraph>, OutOfMemory>
    ensures { IfOk result (λ found. found ≡ edges_graph word.now) }
{
    let weighted = is_weighted(word);
    let Some(edges) = edges_in(alloc, weighted, word)? else {
        return Ok(None);
    };
    let none = Vec::new(alloc);
    let graph = DraftedGraph::new(weighted, edges, none, Vec::new(alloc));
    Ok(Some(graph))
}

/// The graph of these neighbours, or None where they are no lists of neighbours or one alone has weights.
#[tactic(auto, unfolding(crate::specs::Graphs::neighbours_graph))]
fn neighbours_graph(
    alloc: Global,
    from: &[u8],
    to: &[u8],
) -> Result<Option<DraftedGraph>, OutOfMemory>
    ensures { IfOk result (λ found. found ≡ neighbours_graph from.now to.now) }
{
    let weighted = is_weighted(from);
    let Some(sources) = neighbours_in(alloc, weighted, from)? else {
        return Ok(None);
    };
    let Some(destinations) = neighbours_in(alloc, is_weighted(to), to)? else {
        return Ok(None);
    };
    if weighted != is_weighted(to) {
        return Ok(None);
    }
    let edges = Vec::new(alloc);
    let graph = DraftedGraph::new(weighted, edges, sources, destinations);
    Ok(Some(graph))
}

/// The graph of the words of a call, if it has them, or None where they are no lists of one.
#[tactic(auto, unfolding(crate::specs::laws::Parts::graph_in))]
pub fn graph_in(
    alloc: Global,
    new: &NewSyntax<'_>,
) -> Result<Option<Option<DraftedGraph>>, OutOfMemory>
    ensures { IfOk result (λ found. found ≡ graph_in new.now) }
{
    let found = match (new.edges, new.sources, new.destinations) {
        (Some(edges), _, _) => edges_graph(alloc, edges)?,
        (None, Some(sources), Some(destinations)) => {
            neighbours_graph(alloc, sources, destinations)?
        }
        _ => return Ok(Some(None)),
    };
    match found {
        Some(graph) => Ok(Some(Some(graph))),
        None => Ok(None),
    }
}
