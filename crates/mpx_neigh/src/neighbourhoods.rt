//! What neighbourhood exchanges give each member.
ghost use Rattle.std.specs.Prelude.{◌≡◌, ◌<◌, ◌≤◌, IfOk, Some, length, true};
ghost use Rattle.mpx_birth.specs.Topologies.{sources_at};
ghost use Rattle.mpx_post.specs.Agreement.{IsFineWith, first_of};
ghost use Rattle.mpx_kind.specs.Kinds.{fields_of};
ghost use Rattle.mpx_post.specs.Values.{GivesValue, as_items};
ghost use Rattle.mpx_neigh.specs.Cursors.{sends_blocks};
ghost use Rattle.mpx_neigh.specs.Neighbourhoods.{blocks_met, neigh_of, neigh_value, source_at, sources_joined};

use crate::cursors::Cursors;
use join_core::OutOfMemory;
use mpx_birth::{Birth, Topology};
use mpx_kind::{Kind, Neighbourhood};
use mpx_num::Items;
use mpx_post::{Row, Value};
use std::alloc::Global;

/// What a fine row of a neighbourhood exchange gives the member with this rank (MPI 4.1 section 8.6). A row of another kind,
/// and a communicator without a topology, give nothing. Memory is wanting only in the place of items.
pub fn neigh_value(
    alloc: Global,
    birth: &Birth,
    row: &Row<'_>,
    rank: u8,
) -> Result<Value, OutOfMemory>
    requires fine { IsFineWith birth.now.topology row.now }
    requires members { length row.now ≡ length birth.now.members }
    requires rank { rank < length row.now }
    ensures { GivesValue (neigh_value (first_of row.now).kind birth.now.topology row.now rank) result }
{
    let Some(topology) = birth.topology() else {
        return Ok(Value::Nothing);
    };
    match row.kind() {
        Kind::Neighbourhood(exchange) => value_of(alloc, topology, row, exchange, rank),
        _ => Ok(Value::Nothing),
    }
}

// What a row of this exchange gives the member.
fn value_of(
    alloc: Global,
    topology: &Topology,
    row: &Row<'_>,
    exchange: Neighbourhood,
    rank: u8,
) -> Result<Value, OutOfMemory>
    requires fine { IsFineWith (Some topology.now) row.now }
    requires size { length row.now ≡ length topology.now.ranks }
    requires kind { (first_of row.now).kind ≡ Kind.Neighbourhood exchange }
    requires rank { rank < length row.now }
    ensures { IfOk result (λ value. value ≡ as_items row.now (neigh_of exchange topology.now row.now rank)) }
{
    match exchange {
        Neighbourhood::Allgather | Neighbourhood::Allgatherv => {
            joined_value(alloc, topology, row, rank)
        }
        Neighbourhood::Alltoall | Neighbourhood::Alltoallv => {
            blocks_value(alloc, topology, row, exchange, rank)
        }
    }
}

// All that the member's sources give.
#[tactic(auto, using(crate::proofs::Sources::source_within))]
fn joined_value(
    alloc: Global,
    topology: &Topology,
    row: &Row<'_>,
    rank: u8,
) -> Result<Value, OutOfMemory>
    requires fine { IsFineWith (Some topology.now) row.now }
    requires size { length row.now ≡ length topology.now.ranks }
    requires items { (fields_of (first_of row.now).kind).items ≡ true }
    requires rank { rank < length row.now }
    ensures { IfOk result (λ value. value ≡ as_items row.now (sources_joined topology.now row.now rank)) }
{
    let mut items = Items::empty(row.given(0).ty());
    for source in topology.sources(rank) {
        let all = row.given(usize::from(source.rank));
        items.extend(alloc, all, 0, all.count())?;
    }
    Ok(Value::Items(items))
}

// The block for the member from each of its sources.
fn blocks_value(
    alloc: Global,
    topology: &Topology,
    row: &Row<'_>,
    exchange: Neighbourhood,
    rank: u8,
) -> Result<Value, OutOfMemory>
    requires fine { IsFineWith (Some topology.now) row.now }
    requires size { length row.now ≡ length topology.now.ranks }
    requires kind { (first_of row.now).kind ≡ Kind.Neighbourhood exchange }
    requires blocks { sends_blocks exchange ≡ true }
    requires rank { rank < length row.now }
    ensures { IfOk result (λ value. value ≡ as_items row.now (blocks_met topology.now row.now rank)) }
{
    prove!(topology.size() <= 64);
    let mut items = Items::empty(row.given(0).ty());
    let mut cursors = Cursors::new();
    for place in 0..topology.sources(rank).len() {
        let sender = source_at(topology, rank, place);
        let block = cursors.take(exchange, topology, row, rank, place, sender);
        items.extend(
            alloc,
            row.given(usize::from(sender)),
            block.first,
            block.count,
        )?;
    }
    Ok(Value::Items(items))
}

// Who stands at this place among the sources of the member with this rank.
#[tactic(auto, using(crate::proofs::Sources::source_within))]
fn source_at(topology: &Topology, rank: u8, place: usize) -> u8
    requires { place < length (sources_at topology.now rank) }
    ensures value { result ≡ source_at topology.now rank place }
    ensures rank { result < length topology.now.ranks }
    ensures few { length topology.now.ranks ≤ 64 }
{
    prove!(topology.size() <= 64);
    topology.sources(rank)[place].rank
}
