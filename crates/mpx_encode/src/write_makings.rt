//! Writing what posts say of a new communicator.
ghost use Rattle.std.specs.Prelude.{◌≡◌, ◌≤◌, ◌+◌, ◌*◌, ◌++◌, true, OnOk, length};
ghost use Rattle.std.specs.List.{flat_map};
ghost use Rattle.mpx_kind.specs.Kinds.{fields_of};
ghost use Rattle.mpx_post.specs.Posts.{makes_of};
ghost use Rattle.mpx_post.specs.Graphs.{most_edges};
ghost use Rattle.mpx_post.specs.declared.making.Making.TheVariants.{Split};
ghost use Rattle.mpx_format.specs.Codes.{flag as flag_format};
ghost use Rattle.mpx_format.specs.Posts.{choice, edge as edge_format, edges as edges_format, making_for, own as own_format, ranks as ranks_format, split};

use crate::write_births::{neighbours_len, weight_len, write_neighbours, write_weight};
use crate::write_numbers::{write_u8, write_u16, write_u32};
use join_core::OutOfMemory;
use mpx_birth::Edge;
use mpx_post::{Edges, Making, OwnNeighbours, Post, Ranks};
use mpx_rope::Rope;

fn write_choice(colour: Option<u32>, out: &mut Rope) -> Result<(), OutOfMemory>
    ensures { OnOk result (out.new ≡ out.old ++ choice.spelling colour) }
{
    match colour {
        None => write_u8(0, out),
        Some(colour) => {
            write_u8(1, out)?;
            write_u32(colour, out)
        }
    }
}

fn write_split(colour: Option<u32>, key: i32, out: &mut Rope) -> Result<(), OutOfMemory>
    ensures { OnOk result (out.new ≡ out.old ++ split.spelling (Split colour key)) }
{
    write_choice(colour, out)?;
    write_u32(key.cast_unsigned(), out)
}

fn split_len(colour: Option<u32>, key: i32) -> usize
    ensures value { result ≡ length (split.spelling (Split colour key)) }
    ensures small { result ≤ 9 }
{
    match colour {
        None => 5,
        Some(_) => 9,
    }
}

fn write_ranks(ranks: &Ranks, out: &mut Rope) -> Result<(), OutOfMemory>
    requires { ranks_format.fits ranks.now ≡ true }
    ensures { OnOk result (out.new ≡ out.old ++ ranks_format.spelling ranks.now) }
{
    let list = ranks.as_slice();
    write_u8(list.len() as u8, out)?;
    out.extend_from_slice(list)?;
    Ok(())
}

fn ranks_len(ranks: &Ranks) -> usize
    requires { ranks_format.fits ranks.now ≡ true }
    ensures value { result ≡ length (ranks_format.spelling ranks.now) }
    ensures small { result ≤ 256 }
{
    1 + ranks.as_slice().len()
}

fn write_edge(weighted: bool, edge: &Edge, out: &mut Rope) -> Result<(), OutOfMemory>
    ensures { OnOk result (out.new ≡ out.old ++ (edge_format weighted).spelling edge.now) }
{
    write_u8(edge.source, out)?;
    write_u8(edge.destination, out)?;
    write_weight(weighted, edge.weight, out)
}

fn write_each_edge(weighted: bool, list: &[Edge], out: &mut Rope) -> Result<(), OutOfMemory>
    ensures { OnOk result (out.new ≡ out.old ++ flat_map (edge_format weighted).spelling list.now) }
{
    for edge in list {
        write_edge(weighted, edge, out)?;
    }
    Ok(())
}

#[tactic(auto, unfolding(mpx_format::specs::Codes::flag))]
fn write_flag(flag: bool, out: &mut Rope) -> Result<(), OutOfMemory>
    ensures { OnOk result (out.new ≡ out.old ++ flag_format.spelling flag) }
{
    if flag {
        write_u8(1, out)
    } else {
        write_u8(0, out)
    }
}

fn write_edges(edges: &Edges, out: &mut Rope) -> Result<(), OutOfMemory>
    ensures { OnOk result (out.new ≡ out.old ++ edges_format.spelling edges.now) }
{
    let list = edges.as_slice();
    write_flag(edges.weighted(), out)?;
    write_u16(list.len() as u16, out)?;
    write_each_edge(edges.weighted(), list, out)
}

fn edges_len(edges: &Edges) -> usize
    ensures value { result ≡ length (edges_format.spelling edges.now) }
    ensures small { result ≤ 3075 }
{
    3 + edges.as_slice().len() * (2 + weight_len(edges.weighted()))
}

fn write_own(own: &OwnNeighbours, out: &mut Rope) -> Result<(), OutOfMemory>
    requires sources { length own.now.sources ≤ most_edges }
    requires destinations { length own.now.destinations ≤ most_edges }
    ensures { OnOk result (out.new ≡ out.old ++ own_format.spelling own.now) }
{
    write_flag(own.weighted(), out)?;
    write_neighbours(own.weighted(), own.sources(), out)?;
    write_neighbours(own.weighted(), own.destinations(), out)
}

fn own_len(own: &OwnNeighbours) -> usize
    requires sources { length own.now.sources ≤ most_edges }
    requires destinations { length own.now.destinations ≤ most_edges }
    ensures value { result ≡ length (own_format.spelling own.now) }
    ensures small { result ≤ 327685 }
{
    1 + neighbours_len(own.weighted(), own.sources())
        + neighbours_len(own.weighted(), own.destinations())
}

// How many bytes it takes what the post says of a new communicator.
pub fn making_len(given: &Post) -> usize
    requires { (making_for (fields_of given.now.kind).makes).fits given.now.making ≡ true }
    ensures value { result ≡ length ((making_for (fields_of given.now.kind).makes).spelling given.now.making) }
    ensures small { result ≤ 327685 }
{
    given.limits();
    match given.making() {
        Making::Nothing => 0,
        Making::Split { colour, key } => split_len(*colour, *key),
        Making::Group(ranks) => ranks_len(ranks),
        Making::Edges(edges) => edges_len(edges),
        Making::Neighbours(own) => own_len(own),
    }
}

// Writes at the end what the post says of a new communicator.
pub fn write_making(given: &Post, out: &mut Rope) -> Result<(), OutOfMemory>
    requires { (making_for (fields_of given.now.kind).makes).fits given.now.making ≡ true }
    ensures { OnOk result (out.new ≡ out.old ++ (making_for (fields_of given.now.kind).makes).spelling given.now.making) }
{
    given.limits();
    match given.making() {
        Making::Nothing => Ok(()),
        Making::Split { colour, key } => write_split(*colour, *key, out),
        Making::Group(ranks) => write_ranks(ranks, out),
        Making::Edges(edges) => write_edges(edges, out),
        Making::Neighbours(own) => write_own(own, out),
    }
}
