//! Two nodes of the program's own, between which it carries boards itself.
ghost use Rattle.std.specs.Prelude.{IfOk, OnOk};
ghost use Rattle.mpx_node.specs.Shown.{node_of};
ghost use Rattle.mpx_world.specs.Networks.{IsNodeStep};
ghost use Rattle.programs.specs.Nodes.{AreOne, Carries, HasSum, StayOne};

use crate::desks::{board_of, number_of};
use crate::why::Why;
use mpx_group::Proc;
use mpx_name::Name;
use mpx_node::Node;
use mpx_num::{Listing, Numbers, Op, Ops, Ty};
use mpx_post::{Call, Draft, Kind, Reduction};
use std::alloc::Global;

/// The draft of a number for the sum of all.
pub fn sum_draft(number: i128) -> Draft {
    Draft {
        call: Call::blocking(Kind::Reduction(Reduction::Allreduce)),
        root: 0,
        op: Op::Sum,
        ty: Ty::I32,
        scounts: Numbers::none(),
        rcounts: Numbers::none(),
        items: Numbers::one(number),
        colour: None,
        key: 0,
        group: Numbers::none(),
        graph: None,
    }
}

/// What the node has of the first sum.
pub fn sum_at(alloc: Global, node: &Node) -> Result<i128, Why>
    ensures { IfOk result (λ sum. HasSum node.now) }
{
    match node.result(&Name::world(alloc), 0) {
        Some(finished) => number_of(finished),
        None => Err(Why::NoAnswer),
    }
}

// The rank posts its number to the sum of all.
fn post_number(alloc: Global, node: &mut Node, number: i128, ops: &Ops) -> Result<(), Why>
    ensures { IsNodeStep (⟦<Ops as Listing>⟧.operations ops.now) (node_of node.old) (node_of node.new) }
{
    node.post(alloc, &Name::world(alloc), sum_draft(number), ops)?;
    Ok(())
}

// The one's board comes to the other.
fn carry(alloc: Global, from: &Node, to: &mut Node) -> Result<(), Why>
    ensures { Carries (node_of from.now) (node_of to.old) (node_of to.new) }
{
    let part = board_of(alloc, from)?;
    let taken = to.take(alloc, &part);
    drop(part);
    Ok(taken?)
}

// The rank stores its next result, where it can be had.
fn harvest(alloc: Global, node: &mut Node, ops: &Ops) -> Result<(), Why>
    ensures { IsNodeStep (⟦<Ops as Listing>⟧.operations ops.now) (node_of node.old) (node_of node.new) }
{
    node.harvest(alloc, &Name::world(alloc), ops)?;
    Ok(())
}

// Both post, and boards go both ways.
fn post_and_swap(alloc: Global, left: &mut Node, right: &mut Node, ops: &Ops) -> Result<(), Why>
    ensures { OnOk result (StayOne (⟦<Ops as Listing>⟧.operations ops.now) left.old right.old left.new right.new) }
{
    post_number(alloc, left, 1, ops)?;
    post_number(alloc, right, 2, ops)?;
    carry(alloc, right, left)?;
    carry(alloc, left, right)?;
    Ok(())
}

// Both store the result of the sum.
fn sum_at_both(alloc: Global, left: &mut Node, right: &mut Node, ops: &Ops) -> Result<(), Why>
    ensures one { OnOk result (StayOne (⟦<Ops as Listing>⟧.operations ops.now) left.old right.old left.new right.new) }
    ensures sums { OnOk result (HasSum left.new × HasSum right.new) }
{
    post_and_swap(alloc, left, right, ops)?;
    harvest(alloc, left, ops)?;
    harvest(alloc, right, ops)?;
    sum_at(alloc, left)?;
    sum_at(alloc, right)?;
    Ok(())
}

/// Two nodes that are processes of one world, and have both finished a sum. What both have finished of any call is of one row.
pub fn own_nodes(alloc: Global, ops: &Ops) -> Result<(Node, Node), Why>
    ensures one { IfOk result (λ nodes. AreOne (⟦<Ops as Listing>⟧.operations ops.now) nodes.0 nodes.1) }
    ensures sums { IfOk result (λ nodes. HasSum nodes.0 × HasSum nodes.1) }
{
    let mut left = Node::new(alloc, Proc::new(0), 2, 2)?;
    let mut right = Node::new(alloc, Proc::new(1), 2, 2)?;
    sum_at_both(alloc, &mut left, &mut right, ops)?;
    Ok((left, right))
}

/// The sum at each of two own nodes.
pub fn sums_of_own_nodes(alloc: Global, ops: &Ops) -> Result<(i128, i128), Why> {
    let (left, right) = own_nodes(alloc, ops)?;
    let sums = sums_at(alloc, &left, &right);
    drop(left);
    drop(right);
    sums
}

fn sums_at(alloc: Global, left: &Node, right: &Node) -> Result<(i128, i128), Why> {
    Ok((sum_at(alloc, left)?, sum_at(alloc, right)?))
}
