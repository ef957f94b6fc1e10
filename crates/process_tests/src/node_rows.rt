//! A node alone: its posts are done at once.
use crate::looks::has_forgotten;
use join_core::OutOfMemory;
use mpx_group::Proc;
use mpx_name::Name;
use mpx_node::Node;
use mpx_num::Ops;
use std::alloc::Global;
use std::process::Abort;
use std::test::Fail;
use test_drafts::a_sum;

// What the one rank does on the context of all.
#[derive(Clone, Copy)]
enum Act {
    // It posts a sum.
    Posts,
    // It harvests up to this call, which is done then or not.
    HarvestsTo(u32, bool),
    // It lets go what it has of the calls below this one, and so many are let go then.
    Forgets(u32, u32),
}

// What it does, and how many calls are harvested then.
type Row = (Act, u32);

const ALONE: [Row; 15] = [
    (Act::HarvestsTo(0, false), 0),
    (Act::Forgets(1, 0), 0),
    (Act::Posts, 0),
    (Act::Posts, 0),
    (Act::Posts, 0),
    (Act::HarvestsTo(1, true), 2),
    (Act::Forgets(0, 0), 2),
    (Act::Forgets(9, 1), 2),
    (Act::HarvestsTo(0, true), 2),
    (Act::HarvestsTo(9, false), 3),
    (Act::HarvestsTo(2, true), 3),
    (Act::Forgets(1, 1), 3),
    (Act::Forgets(2, 2), 3),
    (Act::Posts, 3),
    (Act::HarvestsTo(3, true), 4),
];

fn posts(alloc: Global, node: &mut Node, world: &Name, ops: &Ops) -> Result<bool, OutOfMemory> {
    let draft = a_sum(alloc, 1)?;
    Ok(node.post(alloc, world, draft, ops).is_ok())
}

// Whether it comes out so.
fn does(
    alloc: Global,
    node: &mut Node,
    world: &Name,
    act: Act,
    ops: &Ops,
) -> Result<bool, OutOfMemory> {
    match act {
        Act::Posts => posts(alloc, node, world, ops),
        Act::HarvestsTo(call, done) => Ok(node.harvest_to(alloc, world, call, ops)? == done),
        Act::Forgets(below, gone) => {
            node.forget(world, below);
            Ok(has_forgotten(node, world, gone) || node.front(world) == 0)
        }
    }
}

// The place of the first row that comes out otherwise.
fn first_wrong(
    alloc: Global,
    node: &mut Node,
    world: &Name,
    rows: &[Row],
    ops: &Ops,
) -> Result<Option<usize>, OutOfMemory> {
    for (at, &(act, front)) in rows.iter().enumerate() {
        if !does(alloc, node, world, act, ops)? || node.front(world) != front {
            return Ok(Some(at));
        }
    }
    Ok(None)
}

#[test]
fn a_node_goes_so(rt: HostRuntime) -> Result<(), Fail> {
    let ops = Ops::none(rt.alloc());
    let mut node = Node::new(rt.alloc(), Proc::new(0), 1, 1)?;
    let wrong = first_wrong(
        rt.alloc(),
        &mut node,
        &Name::world(rt.alloc()),
        &ALONE,
        &ops,
    );
    drop(node);
    assert_eq!(rt; wrong, Ok(None));
    Ok(())
}
