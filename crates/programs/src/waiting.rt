//! Waits that make turns, over an inbox.
ghost use Rattle.std.specs.Prelude.{◌≡◌, ◌≤◌, ℕ, IfOk, drop};

use crate::calls::post_sum;
use crate::desks::{board_of, desk_of, number_in};
use crate::inbox::Inbox;
use crate::why::Why;
use mpx_board::Board;
use mpx_comm::{Comm, Desk, Request};
use mpx_group::Proc;
use mpx_node::{Finished, Node};
use mpx_num::Ops;
use std::alloc::Global;
use std::collections::VecDeque;

/// Waits over an inbox: what it took are the next boards, at most as many as the turns.
pub fn awaited(
    alloc: Global,
    desk: &mut Desk<Inbox>,
    request: Request,
    turns: u64,
    ops: &Ops,
) -> Result<Finished, Why>
    ensures { IfOk result (λ finished. (n : ℕ) × (n ≤ turns) × (desk.new.host.boards.items ≡ drop n desk.old.host.boards.items)) }
{
    Ok(desk.wait(alloc, request, turns, ops)?)
}

// One more board of the rank comes.
fn send(alloc: Global, desk: &Desk<Node>, boards: &mut VecDeque<Board>) -> Result<(), Why> {
    boards.push_back(board_of(alloc, desk.host())?)?;
    Ok(())
}

// Three boards of rank 1: its post of the sum is on the second and the third.
fn send_three(
    alloc: Global,
    other: &mut Desk<Node>,
    boards: &mut VecDeque<Board>,
    ops: &Ops,
) -> Result<(), Why> {
    send(alloc, other, boards)?;
    post_sum(alloc, other, &Comm::world(alloc, 2, 1), 20, ops)?;
    send(alloc, other, boards)?;
    send(alloc, other, boards)
}

// All that rank 1 sends.
fn sent(alloc: Global, other: &mut Desk<Node>, ops: &Ops) -> Result<VecDeque<Board>, Why> {
    let mut boards = VecDeque::new(alloc);
    match send_three(alloc, other, &mut boards, ops) {
        Ok(()) => Ok(boards),
        Err(why) => {
            drop(boards);
            Err(why)
        }
    }
}

// An inbox of rank 0 with that.
fn inbox(alloc: Global, ops: &Ops) -> Result<Inbox, Why> {
    let mut other = desk_of(alloc, 1, 2)?;
    let boards = sent(alloc, &mut other, ops);
    drop(other);
    let boards = boards?;
    let node = Node::new(alloc, Proc::new(0), 2, 2)?;
    Ok(Inbox { node, boards })
}

// The sum, and how many boards are left in the inbox.
fn sum_of(alloc: Global, desk: &mut Desk<Inbox>, ops: &Ops) -> Result<(i128, usize), Why> {
    let request = post_sum(alloc, desk, &Comm::world(alloc, 2, 0), 10, ops)?;
    let finished = awaited(alloc, desk, request, 5, ops)?;
    Ok((number_in(finished)?, desk.host().boards.len()))
}

/// The sum with the number of a rank whose boards come to an inbox, and how many of them are left there.
pub fn sum_from_inbox(alloc: Global, ops: &Ops) -> Result<(i128, usize), Why> {
    let mut desk = Desk::new(alloc, inbox(alloc, ops)?);
    let answer = sum_of(alloc, &mut desk, ops);
    drop(desk);
    answer
}
