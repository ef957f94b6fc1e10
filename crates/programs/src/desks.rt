//! Desks of nodes, and what goes between them.
ghost use Rattle.std.specs.Prelude.{◌≡◌, ◌<◌, ◌≤◌, IfOk};
ghost use Rattle.mpx_board.specs.Looks.{look};
ghost use Rattle.mpx_node.specs.Shown.{node_of};

use crate::nodes::sum_draft;
use crate::why::Why;
use join_core::OutOfMemory;
use mpx_board::Board;
use mpx_comm::{Comm, Desk};
use mpx_group::Proc;
use mpx_node::{Finished, Node, PartError};
use mpx_num::Ops;
use mpx_value::Outcome;
use std::alloc::Global;

/// The most bytes of a frame.
pub const LIMIT: usize = 1_048_576;

/// The desk of the rank `me` of so many.
pub fn desk_of(alloc: Global, me: u8, ranks: u8) -> Result<Desk<Node>, Why>
    requires me { me < ranks }
    requires few { ranks ≤ 64 }
{
    let node = Node::new(alloc, Proc::new(me), ranks, ranks)?;
    Ok(Desk::new(alloc, node))
}

// Each takes the other's board.
fn swap(alloc: Global, left: &mut Desk<Node>, right: &mut Desk<Node>) -> Result<(), Why> {
    left.take(alloc, right.host().board())?;
    right.take(alloc, left.host().board())?;
    Ok(())
}

/// The node's whole board, as one that can be sent.
pub fn board_of(alloc: Global, node: &Node) -> Result<Board, Why>
    ensures { IfOk result (λ board. look board ≡ (node_of node.now).board) }
{
    match node.part(alloc, LIMIT) {
        Ok(board) => Ok(board),
        Err(PartError::OutOfMemory) => Err(Why::Memory(OutOfMemory)),
        Err(PartError::DoesNotFit) => Err(Why::NoAnswer),
    }
}

/// The first number that a call gave.
pub fn number_of(finished: &Finished) -> Result<i128, Why> {
    match &finished.outcome {
        Outcome::Items(items) => items.nums().first().copied().ok_or(Why::NoAnswer),
        _ => Err(Why::NoAnswer),
    }
}

/// The first number that a call gave. The result is dropped here, so that no exit of a caller drops it.
pub fn number_in(finished: Finished) -> Result<i128, Why> {
    let number = number_of(&finished);
    drop(finished);
    number
}

// Both post a number, and have each other's board: the sum at the left one.
fn sum_of_both(
    alloc: Global,
    left: &mut Desk<Node>,
    right: &mut Desk<Node>,
    ops: &Ops,
) -> Result<i128, Why> {
    let sum = left.post(alloc, &Comm::world(alloc, 2, 0), sum_draft(1), ops)?;
    right.post(alloc, &Comm::world(alloc, 2, 1), sum_draft(2), ops)?;
    swap(alloc, left, right)?;
    number_in(left.wait(alloc, sum, 0, ops)?)
}

/// The sum of two ranks' numbers, whose boards the program carries by hand.
pub fn sum_by_hand(alloc: Global, ops: &Ops) -> Result<i128, Why> {
    let mut left = desk_of(alloc, 0, 2)?;
    let mut right = desk_of(alloc, 1, 2)?;
    let sum = sum_of_both(alloc, &mut left, &mut right, ops);
    drop(left);
    drop(right);
    sum
}
