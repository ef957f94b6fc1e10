//! Writing births: the members, and the neighbours of each of them where there is a topology.
ghost use Rattle.std.specs.Prelude.{◌≡◌, ◌≤◌, ◌+◌, ◌*◌, ◌^◌, ◌++◌, cond, true, Some, OnOk, length, slice_index_or};
ghost use Rattle.std.specs.List.{flat_map};
ghost use Rattle.mpx_format.specs.Births.{birth as birth_format, code_of_weighted, near, neighbour as neighbour_format, neighbours as neighbours_format, weight as weight_format};
ghost use Rattle.mpx_birth.specs.Topologies.{most_neighbours, nobody};
ghost use Rattle.mpx_encode.specs.Entries.{topology_spelled};

use crate::write_names::write_members;
use crate::write_numbers::{write_u8, write_u16, write_u32};
use join_core::OutOfMemory;
use mpx_birth::{Birth, Neighbour, Topology};
use mpx_rope::Rope;

// Writes the weight at the end, where edges have one.
pub fn write_weight(weighted: bool, weight: u32, out: &mut Rope) -> Result<(), OutOfMemory>
    ensures { OnOk result (out.new ≡ out.old ++ (weight_format weighted).spelling weight) }
{
    if weighted {
        write_u32(weight, out)
    } else {
        Ok(())
    }
}

// How many bytes a weight takes.
pub fn weight_len(weighted: bool) -> usize
    ensures { result ≡ cond weighted 4 0 }
{
    if weighted { 4 } else { 0 }
}

fn write_neighbour(weighted: bool, neighbour: &Neighbour, out: &mut Rope) -> Result<(), OutOfMemory>
    ensures { OnOk result (out.new ≡ out.old ++ (neighbour_format weighted).spelling neighbour.now) }
{
    write_u8(neighbour.rank, out)?;
    write_weight(weighted, neighbour.weight, out)
}

// Writes neighbours at the end, one after the other.
fn write_each_neighbour(
    weighted: bool,
    list: &[Neighbour],
    out: &mut Rope,
) -> Result<(), OutOfMemory>
    ensures { OnOk result (out.new ≡ out.old ++ flat_map (neighbour_format weighted).spelling list.now) }
{
    for neighbour in list {
        write_neighbour(weighted, neighbour, out)?;
    }
    Ok(())
}

// How many bytes neighbours take, with their number before them.
pub fn neighbours_len(weighted: bool, list: &[Neighbour]) -> usize
    requires few { length list.now ≤ most_neighbours }
    ensures value { result ≡ length ((neighbours_format weighted).spelling list.now) }
    ensures small { result ≤ 163842 }
{
    2 + list.len() * (1 + weight_len(weighted))
}

pub fn write_neighbours(
    weighted: bool,
    list: &[Neighbour],
    out: &mut Rope,
) -> Result<(), OutOfMemory>
    requires few { length list.now ≤ most_neighbours }
    ensures { OnOk result (out.new ≡ out.old ++ (neighbours_format weighted).spelling list.now) }
{
    write_u16(list.len() as u16, out)?;
    write_each_neighbour(weighted, list, out)
}

// How many bytes the neighbours of all ranks take.
fn nears_len(topology: &Topology) -> usize
    ensures value { result ≡ length (flat_map (near topology.now.weighted).spelling topology.now.ranks) }
    ensures small { result ≤ 64 * 327684 }
{
    let weighted = topology.weighted();
    let size = topology.size();
    let mut total: usize = 0;
    for rank in 0..size {
        total += neighbours_len(weighted, topology.sources(rank as u8))
            + neighbours_len(weighted, topology.destinations(rank as u8));
    }
    total
}

fn write_nears(topology: &Topology, out: &mut Rope) -> Result<(), OutOfMemory>
    ensures { OnOk result (out.new ≡ out.old ++ flat_map (near topology.now.weighted).spelling topology.now.ranks) }
{
    let weighted = topology.weighted();
    let size = topology.size();
    for rank in 0..size {
        write_near(topology, weighted, rank as u8, out)?;
    }
    Ok(())
}

fn write_near(
    topology: &Topology,
    weighted: bool,
    rank: u8,
    out: &mut Rope,
) -> Result<(), OutOfMemory>
    ensures { OnOk result (out.new ≡ out.old ++ (near weighted).spelling (slice_index_or topology.now.ranks rank nobody)) }
{
    write_neighbours(weighted, topology.sources(rank), out)?;
    write_neighbours(weighted, topology.destinations(rank), out)
}

// How many bytes the birth takes.
pub fn birth_len(birth: &Birth) -> usize
    ensures value { result ≡ length (birth_format.spelling birth.now) }
    ensures small { result ≤ 2 ^ 25 }
    ensures fits { birth_format.fits birth.now ≡ true }
{
    let members = birth.members().len();
    match birth.topology() {
        None => 2 + members,
        Some(topology) => 2 + members + nears_len(topology),
    }
}

// Writes the topology at the end.
fn write_topology(topology: &Topology, out: &mut Rope) -> Result<(), OutOfMemory>
    ensures { OnOk result (out.new ≡ out.old ++ topology_spelled (Some topology.now)) }
{
    write_u8(code_of_weighted(topology.weighted()), out)?;
    write_nears(topology, out)
}

fn code_of_weighted(weighted: bool) -> u8
    ensures { result ≡ code_of_weighted weighted }
{
    if weighted { 2 } else { 1 }
}

// Writes the birth at the end.
pub fn write_birth(birth: &Birth, out: &mut Rope) -> Result<(), OutOfMemory>
    requires { birth_format.fits birth.now ≡ true }
    ensures { OnOk result (out.new ≡ out.old ++ birth_format.spelling birth.now) }
{
    write_members(birth.members(), out)?;
    match birth.topology() {
        None => write_u8(0, out),
        Some(topology) => write_topology(topology, out),
    }
}
