//! What is wrong with the ranks, edges, colour, key or tag of a refused statement.

use crate::given::Place;
use crate::size::{push_counted, push_value, push_world_ranks};
use join_core::OutOfMemory;
use mpx_post::{Draft, DraftedEdge, DraftedGraph, DraftedNeighbour};

// The greatest colour, and the greatest weight of an edge.
const MOST: i128 = 2_147_483_647;

/// Adds which of colour and key is out of its limits.
pub(crate) fn push_bad_split(draft: &Draft, told: &mut String) -> Result<(), OutOfMemory> {
    match draft.colour {
        Some(colour) if colour < 0 || colour > MOST => {
            push_value(
                "COLOUR is ",
                colour,
                ", colours go from 0 to 2147483647",
                told,
            )
        }
        _ => push_value(
            "KEY is ",
            draft.key,
            ", keys go from -2147483648 to 2147483647",
            told,
        ),
    }
}

/// Adds that a tag is out of its limits.
pub(crate) fn push_bad_tag(tag: i128, told: &mut String) -> Result<(), OutOfMemory> {
    push_value("TAG is ", tag, ", tags go from 0 to 32767", told)
}

/// Adds what is wrong with the ranks of a new communicator, among which its caller has to be or not.
pub(crate) fn push_bad_group(
    at: &Place<'_>,
    ranks: &[i128],
    with_caller: bool,
    told: &mut String,
) -> Result<(), OutOfMemory> {
    for (nth, rank) in ranks.iter().enumerate() {
        if is_stray(at, *rank) {
            return push_stray(at, "RANKS", *rank, told);
        }
        if ranks.iter().take(nth).any(|before| before == rank) {
            return push_value("RANKS has ", *rank, " twice", told);
        }
    }
    if with_caller {
        return push_lacking(at, told);
    }
    push_greatest(at, ranks, told)
}

// Adds that the caller is lacking.
fn push_lacking(at: &Place<'_>, told: &mut String) -> Result<(), OutOfMemory> {
    if at.is_world() {
        let rank = i128::from(at.rank);
        return push_value("RANKS lacks rank ", rank, ", which calls", told);
    }
    told.push_str("RANKS lacks this rank, or has one that the communicator lacks")?;
    Ok(())
}

/// Adds which of these ranks is none of the communicator.
pub(crate) fn push_strange_rank(
    at: &Place<'_>,
    ranks: &[Option<i128>],
    told: &mut String,
) -> Result<(), OutOfMemory> {
    for rank in ranks {
        if let Some(rank) = rank {
            if is_stray(at, *rank) {
                return push_stray(at, "RANKS", *rank, told);
            }
        }
    }
    match greatest(ranks) {
        Some(rank) => push_stray(at, "RANKS", rank, told),
        None => Ok(()),
    }
}

// The greatest of these ranks.
fn greatest(ranks: &[Option<i128>]) -> Option<i128> {
    let mut most = None;
    for rank in ranks {
        if *rank > most {
            most = *rank;
        }
    }
    most
}

// Of ranks of which one is none of the communicator, though none is plainly so, the greatest isn't.
fn push_greatest(at: &Place<'_>, ranks: &[i128], told: &mut String) -> Result<(), OutOfMemory> {
    match ranks.iter().max() {
        Some(rank) => push_stray(at, "RANKS", *rank, told),
        None => Ok(()),
    }
}

// Whether a rank is plainly none of the communicator: of `world` all are known.
fn is_stray(at: &Place<'_>, rank: i128) -> bool {
    rank < 0 || (at.is_world() && rank >= i128::from(at.ranks))
}

// Adds that this word has a rank that is none of the communicator.
fn push_stray(
    at: &Place<'_>,
    word: &str,
    rank: i128,
    told: &mut String,
) -> Result<(), OutOfMemory> {
    told.push_str(word)?;
    push_value(" has ", rank, ", ", told)?;
    if at.is_world() {
        return push_world_ranks(at.ranks, told);
    }
    told.push_str("no rank of the communicator")?;
    Ok(())
}

/// Adds which edge goes from or to no rank of the communicator, or has a weight out of its limits.
pub(crate) fn push_bad_edge(
    at: &Place<'_>,
    draft: &Draft,
    told: &mut String,
) -> Result<(), OutOfMemory> {
    let Some(graph) = &draft.graph else {
        return Ok(());
    };
    push_bad_in(at, graph, told)?;
    if told.is_empty() {
        told.push_str("an end of an edge is no rank of the communicator")?;
    }
    Ok(())
}

fn push_bad_in(at: &Place<'_>, graph: &DraftedGraph, told: &mut String) -> Result<(), OutOfMemory> {
    let weighted = graph.weighted();
    for edge in graph.edges() {
        if told.is_empty() {
            push_bad_end(at, weighted, *edge, told)?;
        }
    }
    push_bad_among(at, weighted, "SOURCES", graph.sources(), told)?;
    push_bad_among(at, weighted, "DESTINATIONS", graph.destinations(), told)
}

// Adds what is wrong with the first of these neighbours, where nothing is told yet.
fn push_bad_among(
    at: &Place<'_>,
    weighted: bool,
    word: &str,
    neighbours: &[DraftedNeighbour],
    told: &mut String,
) -> Result<(), OutOfMemory> {
    for neighbour in neighbours {
        if told.is_empty() {
            push_bad_neighbour(at, weighted, word, *neighbour, told)?;
        }
    }
    Ok(())
}

// Adds what is wrong with an edge.
fn push_bad_end(
    at: &Place<'_>,
    weighted: bool,
    edge: DraftedEdge,
    told: &mut String,
) -> Result<(), OutOfMemory> {
    if is_stray(at, edge.source) {
        return push_stray(at, "EDGES", edge.source, told);
    }
    if is_stray(at, edge.destination) {
        return push_stray(at, "EDGES", edge.destination, told);
    }
    push_bad_weight("EDGES", weighted, edge.weight, told)
}

// Adds what is wrong with a neighbour.
fn push_bad_neighbour(
    at: &Place<'_>,
    weighted: bool,
    word: &str,
    neighbour: DraftedNeighbour,
    told: &mut String,
) -> Result<(), OutOfMemory> {
    if is_stray(at, neighbour.rank) {
        return push_stray(at, word, neighbour.rank, told);
    }
    push_bad_weight(word, weighted, neighbour.weight, told)
}

fn push_bad_weight(
    word: &str,
    weighted: bool,
    weight: i128,
    told: &mut String,
) -> Result<(), OutOfMemory> {
    if weighted && (weight < 0 || weight > MOST) {
        told.push_str(word)?;
        return push_value(
            " has the weight ",
            weight,
            ", weights go from 0 to 2147483647",
            told,
        );
    }
    Ok(())
}

/// Adds how many edges are too many.
pub(crate) fn push_too_many_edges(draft: &Draft, told: &mut String) -> Result<(), OutOfMemory> {
    let Some(graph) = &draft.graph else {
        return Ok(());
    };
    let given = graph
        .edges()
        .len()
        .saturating_add(graph.sources().len())
        .saturating_add(graph.destinations().len());
    told.push_str("gave ")?;
    push_counted(given, "edge", told)?;
    told.push_str(", at most 512 are taken")?;
    Ok(())
}
