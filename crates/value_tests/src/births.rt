//! Births of parts from outside: which are made, and each reason why others aren't.
use mpx_birth::{Birth, Neighbours, Topology};
use mpx_group::Proc;
use std::alloc::{AllocError, Global};
use std::test::Fail;
use test_drafts::proc;

// The processes with these numbers.
pub fn processes(alloc: Global, numbers: &[u8]) -> Result<Vec<Proc>, AllocError> {
    let mut list = Vec::new(alloc);
    for &number in numbers {
        list.push(proc(number))?;
    }
    Ok(list)
}

// A topology of so many ranks, without an edge.
fn edgeless(alloc: Global, ranks: usize) -> Result<Option<Topology>, Fail> {
    let mut list = Vec::new(alloc);
    for _ in 0..ranks {
        list.push(Neighbours::none(alloc))?;
    }
    Ok(Topology::new(alloc, false, list)?)
}

// Processes, of how many ranks their topology is, where they have one, and whether they make a birth.
const BIRTHS: [(&[u8], usize, bool); 6] = [
    (&[7], 0, true),
    (&[63, 5], 2, true),
    (&[], 0, false),
    (&[5, 5], 0, false),
    (&[4, 0, 4], 0, false),
    // The topology of another number of ranks.
    (&[4, 0], 1, false),
];

fn is_born(alloc: Global, numbers: &[u8], ranks: usize) -> Result<bool, Fail> {
    let members = processes(alloc, numbers)?;
    let topology = if ranks == 0 {
        None
    } else {
        edgeless(alloc, ranks)?
    };
    Ok(Birth::new(alloc, members, topology)?.is_some())
}

#[test]
fn births_of_members_and_topologies(rt: HostRuntime) -> Result<(), Fail> {
    for (i, row) in BIRTHS.iter().enumerate() {
        let (numbers, ranks, wanted) = *row;
        assert!(rt; is_born(rt.alloc(), numbers, ranks)? == wanted, "row {i}");
    }
    Ok(())
}
