//! What is seen of a node.
use join_core::{Exact, OutOfMemory};
use mpx_name::Name;
use mpx_node::{Finished, Node, PartError};
use mpx_value::Outcome;
use std::alloc::Global;
use std::test::Fail;
use test_drafts::contexts::{On, name_of};
use test_drafts::proc;

// What is seen, on a context.
#[derive(Clone, Copy)]
pub enum Look {
    // The first call gave this sum.
    Sum(i128),
    // The board has the post of a call by a process.
    Holds(u32, u8),
    Lacks(u32, u8),
    // The board doesn't tell how the context came to be.
    Unborn,
    Born,
    // So many results are let go, and no more.
    Forgotten(u32),
    // Of all contexts: the whole board is its one part.
    OnePart,
    // Of all contexts: ten bytes are too few for the board.
    DoesNotFit,
}

// The first number that a call gave.
pub fn sum_in(finished: &Finished) -> Option<i128> {
    match &finished.outcome {
        Outcome::Items(items) => items.nums().first().copied(),
        _ => None,
    }
}

fn sum_on(node: &Node, name: &Name) -> Option<i128> {
    sum_in(node.result(name, 0)?)
}

fn is_one_part(alloc: Global, node: &Node) -> Result<bool, OutOfMemory> {
    let made = node.parts(alloc, 524_288)?;
    let is_one = match made.as_slice() {
        [one] => one.same(node.board()),
        _ => false,
    };
    drop(made);
    Ok(is_one)
}

fn does_not_fit(alloc: Global, node: &Node, limit: usize) -> bool {
    let part = node.part(alloc, limit);
    let refused = matches!(&part, Err(PartError::DoesNotFit));
    drop(part);
    refused
}

// It has the result of the first call that isn't let go, and none of the one before it.
pub fn has_forgotten(node: &Node, name: &Name, below: u32) -> bool {
    node.forgotten(name) == below
        && node.result(name, below).is_some()
        && (below == 0 || node.result(name, below - 1).is_none())
}

// Whether this is seen of the node.
fn is_seen_on(alloc: Global, node: &Node, name: &Name, look: Look) -> Result<bool, OutOfMemory> {
    match look {
        Look::Sum(sum) => Ok(sum_on(node, name) == Some(sum)),
        Look::Holds(call, by) => Ok(node.board().holds(name, call, proc(by)).is_some()),
        Look::Lacks(call, by) => Ok(node.board().holds(name, call, proc(by)).is_none()),
        Look::Unborn => Ok(node.board().birth(name).is_none()),
        Look::Born => Ok(node.board().birth(name).is_some()),
        Look::Forgotten(below) => Ok(has_forgotten(node, name, below)),
        Look::OnePart => is_one_part(alloc, node),
        Look::DoesNotFit => Ok(does_not_fit(alloc, node, 10)),
    }
}

// Whether this is seen of the node on the context.
pub fn is_seen(alloc: Global, node: &Node, on: On, look: Look) -> Result<bool, Fail> {
    let name = name_of(alloc, on)?;
    let seen = is_seen_on(alloc, node, &name, look);
    drop(name);
    Ok(seen?)
}
