//! The topologies of rows that fit: values from MPI 4.1, sections 8.5.4 and 8.5.5. What neighbours ranks have is shown by scripts.
use crate::posted::Posted::{self, Edges, Near};
use crate::posted::{posts_of, row_of};
use join_core::OutOfMemory;
use mpx_birth::{Birth, Topology};
use mpx_graph::{NeighbourCounts, counts, topology_adjacent, topology_general};
use mpx_match::{Verdict, verdict};
use mpx_num::Ops;
use mpx_post::{Post, Row};
use std::alloc::Global;
use std::test::Fail;
use test_drafts::kinds;

// Whether the topology, without weights, has so many sources and destinations of each rank.
fn is_of(made: &Topology, wanted: &[(usize, usize)]) -> bool {
    let mut same = made.size() == wanted.len();
    for (rank, &(indegree, outdegree)) in (0..64).zip(wanted) {
        let counted = NeighbourCounts {
            indegree,
            outdegree,
            weighted: false,
        };
        same &= counts(made, rank) == counted;
    }
    same
}

// Whether the row fits the world, and makes a topology of these numbers.
fn makes(
    alloc: Global,
    world: &Birth,
    row: &Row<'_>,
    wanted: &[(usize, usize)],
) -> Result<bool, OutOfMemory> {
    match verdict(world, row, &Ops::none(alloc)) {
        Verdict::Fault(_) => Ok(false),
        Verdict::Fine => {
            if row.kind() == kinds::DIST_GRAPH {
                Ok(is_of(&topology_general(alloc, row)?, wanted))
            } else {
                Ok(is_of(&topology_adjacent(alloc, row)?, wanted))
            }
        }
    }
}

// Whether what the members of the world post does.
fn make_on(
    alloc: Global,
    world: &Birth,
    posts: &[Post],
    wanted: &[(usize, usize)],
) -> Result<bool, Fail> {
    let row = row_of(alloc, world, posts)?;
    Ok(makes(alloc, world, &row, wanted)?)
}

fn make(
    alloc: Global,
    members: u8,
    calls: &[Posted],
    wanted: &[(usize, usize)],
) -> Result<bool, Fail> {
    if members == 0 || members > 64 {
        return Ok(false);
    }
    let world = Birth::world(alloc, members)?;
    let posts = posts_of(alloc, calls)?;
    make_on(alloc, &world, &posts, wanted)
}

// The edge from rank 1 to rank 2 is given twice.
const GIVEN: [Posted; 3] = [
    Edges(&[(1, 2, 0), (2, 2, 0)]),
    Edges(&[]),
    Edges(&[(0, 2, 0), (1, 2, 0)]),
];

// One edge, that both ends name.
const NAMED: [Posted; 2] = [Near(&[], &[(1, 0)]), Near(&[(0, 0)], &[])];

// Rows, of so many members, and the sources and destinations of each rank.
const ROWS: [(u8, &[Posted], &[(usize, usize)]); 2] = [
    (3, &GIVEN, &[(0, 1), (0, 2), (4, 1)]),
    (2, &NAMED, &[(0, 1), (1, 0)]),
];

#[test]
fn rows_make_topologies(rt: HostRuntime) -> Result<(), Fail> {
    for (members, calls, wanted) in ROWS {
        assert!(rt; make(rt.alloc(), members, calls, wanted)?);
    }
    Ok(())
}
