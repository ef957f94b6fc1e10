//! What a draft says of a new communicator.
ghost use Rattle.std.specs.Prelude.{◌≡◌, ◌<◌, ◌≤◌, ◌^◌, true, unwrap_or, IfOk};
ghost use Rattle.std.specs.Option.{option_map_or};
ghost use Rattle.mpx_post.specs.Graphs.{most_edges, no_graph};
ghost use Rattle.mpx_post.specs.Drafts.{are_edges, are_ranks as are_ranks_of, edge_count, making_of, natural, naturals, is_colour as is_colour_of, is_key as is_key_of, is_rank as is_rank_of, is_tag as is_tag_of};

use crate::drafted_edges::DraftedGraph;
use crate::graph_fields::{given_edges, given_neighbours, given_rank};
use crate::making::Making;
use crate::post_fields::place_of;
use crate::ranks::Ranks;
use join_core::OutOfMemory;
use mpx_kind::Makes;
use std::alloc::Global;

// Whether these are ranks of so many, none twice.
pub(crate) fn are_ranks(size: usize, ranks: &[i128]) -> bool
    requires { size ≤ 64 }
    ensures { result ≡ are_ranks_of size ranks.now }
{
    let mut seen = [false; 64];
    for &rank in ranks {
        let Some(place) = place_of(size, rank) else {
            return false;
        };
        if seen[place] {
            return false;
        }
        seen[place] = true;
    }
    true
}

// Whether this is a colour, or undefined.
pub(crate) fn is_colour(colour: Option<i128>) -> bool
    ensures { result ≡ option_map_or is_colour_of colour true }
{
    match colour {
        None => true,
        Some(colour) => 0 <= colour && colour < 2_147_483_648,
    }
}

pub(crate) fn is_key(key: i128) -> bool
    ensures { result ≡ is_key_of key }
{
    -2_147_483_648 <= key && key <= 2_147_483_647
}

pub(crate) fn is_tag(tag: i128) -> bool
    ensures { result ≡ is_tag_of tag }
{
    0 <= tag && tag < 32_768
}

// The tag.
pub(crate) fn given_tag(tag: i128) -> u16
    requires { is_tag_of tag ≡ true }
    ensures value { result ≡ natural tag }
    ensures small { result < 2 ^ 15 }
{
    tag as u16
}

// What is said of a new communicator, where that is within its limits.
pub(crate) fn given_making(
    alloc: Global,
    makes: Makes,
    colour: Option<i128>,
    key: i128,
    group: &[i128],
    graph: &Option<DraftedGraph>,
) -> Result<Making, OutOfMemory>
    requires colour { makes ≡ Makes.Colour → option_map_or is_colour_of colour true ≡ true }
    requires key { makes ≡ Makes.Colour → is_key_of key ≡ true }
    requires group { makes ≡ Makes.Group → are_ranks_of 64 group.now ≡ true }
    requires edges { are_edges makes 64 (unwrap_or graph.now no_graph) ≡ true }
    requires few { edge_count makes (unwrap_or graph.now no_graph) ≤ most_edges }
    ensures { IfOk result (λ making. making ≡ making_of makes colour key group.now (unwrap_or graph.now no_graph)) }
{
    match makes {
        Makes::Nothing => Ok(Making::Nothing),
        Makes::Colour => Ok(Making::Split {
            colour: colour.map(given_colour),
            key: key as i32,
        }),
        Makes::Group => Ok(Making::Group(given_ranks(alloc, group)?)),
        Makes::Edges => Ok(Making::Edges(given_edges(alloc, graph)?)),
        Makes::Neighbours => Ok(Making::Neighbours(given_neighbours(alloc, graph)?)),
    }
}

// The colour.
fn given_colour(colour: i128) -> u32
    requires { is_colour_of colour ≡ true }
    ensures value { result ≡ natural colour }
    ensures small { result < 2 ^ 31 }
{
    colour as u32
}

fn given_ranks(alloc: Global, group: &[i128]) -> Result<Ranks, OutOfMemory>
    requires { are_ranks_of 64 group.now ≡ true }
    ensures { IfOk result (λ ranks. ranks ≡ naturals group.now) }
{
    let mut list = Vec::new(alloc);
    for &rank in group {
        list.push(given_rank(rank))?;
    }
    Ranks::new(alloc, list)
}
