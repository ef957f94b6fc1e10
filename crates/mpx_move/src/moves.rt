//! What exchanges give each member.
ghost use Rattle.std.specs.Prelude.{◌≡◌, ◌<◌, ◌≤◌, ◌++◌, IfOk, OnOk, Some, None, ℕ, length, true};
ghost use Rattle.mpx_post.specs.Agreement.{IsFine, count_at, counts_sent, first_of, post_at};
ghost use Rattle.mpx_kind.specs.Kinds.{fields_of};
ghost use Rattle.mpx_post.specs.Posts.{most_items, numbers_of, type_of};
ghost use Rattle.mpx_post.specs.Blocks.{IsBlock};
ghost use Rattle.mpx_post.specs.Values.{GivesValue, as_items};
ghost use Rattle.mpx_move.specs.Moves.{block_for, blocks_for, joined, move_of, move_value};
ghost use Rattle.mpx_move.specs.Senders.{IsSender};

use join_core::OutOfMemory;
use mpx_kind::{Exchange, Kind};
use mpx_num::Items;
use mpx_post::{Block, Post, Row, Value};
use std::alloc::Global;

/// What a fine row of an exchange gives the member with this rank. A row of another kind gives nothing. Memory
/// is wanting only in the place of items.
pub fn move_value(alloc: Global, row: &Row<'_>, rank: u8) -> Result<Value, OutOfMemory>
    requires fine { IsFine row.now }
    requires rank { rank < length row.now }
    ensures { GivesValue (move_value (first_of row.now).kind row.now rank) result }
{
    match row.kind() {
        Kind::Exchange(exchange) => value_of(alloc, row, exchange, rank),
        _ => Ok(Value::Nothing),
    }
}

// What a row of this exchange gives the member.
fn value_of(
    alloc: Global,
    row: &Row<'_>,
    exchange: Exchange,
    rank: u8,
) -> Result<Value, OutOfMemory>
    requires fine { IsFine row.now }
    requires kind { (first_of row.now).kind ≡ Kind.Exchange exchange }
    requires rank { rank < length row.now }
    ensures { GivesValue (move_of exchange row.now rank) result }
{
    match exchange {
        Exchange::Barrier => Ok(Value::Nothing),
        Exchange::Bcast => {
            let items = Items::spelled(alloc, row.given(root(row)))?;
            Ok(Value::Items(items))
        }
        Exchange::Gather | Exchange::Gatherv => {
            if root(row) == usize::from(rank) {
                joined_value(alloc, row)
            } else {
                Ok(Value::Nothing)
            }
        }
        Exchange::Scatter | Exchange::Scatterv => block_value(alloc, row, root(row), rank),
        Exchange::Allgather | Exchange::Allgatherv => joined_value(alloc, row),
        Exchange::Alltoall | Exchange::Alltoallv => blocks_value(alloc, row, rank),
    }
}

// All that is given.
fn joined_value(alloc: Global, row: &Row<'_>) -> Result<Value, OutOfMemory>
    requires fine { IsFine row.now }
    requires items { (fields_of (first_of row.now).kind).items ≡ true }
    requires some { 0 < length row.now }
    ensures { IfOk result (λ value. value ≡ as_items row.now (joined row.now)) }
{
    let mut items = Items::empty(row.given(0).ty());
    for rank in 0..row.len() {
        let all = row.given(rank);
        items.extend(alloc, all, 0, all.count())?;
    }
    Ok(Value::Items(items))
}

// The blocks for the receiver of all senders.
fn blocks_value(alloc: Global, row: &Row<'_>, receiver: u8) -> Result<Value, OutOfMemory>
    requires fine { IsFine row.now }
    requires senders { (sender : ℕ) → sender < length row.now → IsSender row.now sender }
    requires receiver { receiver < length row.now }
    ensures { IfOk result (λ value. value ≡ as_items row.now (blocks_for row.now receiver)) }
{
    let mut items = Items::empty(row.given(0).ty());
    for sender in 0..row.len() {
        append_block(alloc, &mut items, row, sender, receiver)?;
    }
    Ok(Value::Items(items))
}

// The block for the receiver of one sender.
fn block_value(
    alloc: Global,
    row: &Row<'_>,
    sender: usize,
    receiver: u8,
) -> Result<Value, OutOfMemory>
    requires fine { IsFine row.now }
    requires sender { sender < length row.now }
    requires sends { IsSender row.now sender }
    requires receiver { receiver < length row.now }
    ensures { IfOk result (λ value. value ≡ as_items row.now (block_for row.now receiver sender)) }
{
    let mut items = Items::empty(row.given(0).ty());
    append_block(alloc, &mut items, row, sender, receiver)?;
    Ok(Value::Items(items))
}

// Appends the block for the receiver of what the sender sends.
fn append_block(
    alloc: Global,
    items: &mut Items,
    row: &Row<'_>,
    sender: usize,
    receiver: u8,
) -> Result<(), OutOfMemory>
    requires fine { IsFine row.now }
    requires sender { sender < length row.now }
    requires sends { IsSender row.now sender }
    requires receiver { receiver < length row.now }
    requires ty { items.old.ty ≡ type_of (first_of row.now) }
    ensures { OnOk result (items.new ≡ record { ty = items.old.ty; nums = items.old.nums ++ block_for row.now receiver sender }) }
{
    let block = block_of(row, sender, receiver);
    items.extend(alloc, row.given(sender), block.first, block.count)?;
    Ok(())
}

// Where the block for the receiver stands in what the sender sends.
fn block_of(row: &Row<'_>, sender: usize, receiver: u8) -> Block
    requires fine { IsFine row.now }
    requires sender { sender < length row.now }
    requires sends { IsSender row.now sender }
    requires receiver { receiver < length row.now }
    ensures { IsBlock (type_of (post_at row.now sender)) (counts_sent None row.now sender) receiver (length (numbers_of (post_at row.now sender))) result }
{
    let post = row.post(sender);
    let place = usize::from(receiver);
    if post.kind().fields().scounts.is_had() {
        let counts = post.scounts();
        Block {
            first: counts.sum_before(place),
            count: usize::from(counts.as_slice()[place]),
        }
    } else {
        let count = received(post);
        Block {
            first: place * count,
            count,
        }
    }
}

// The one receive count.
fn received(post: &Post) -> usize
    requires { length post.now.rcounts ≡ 1 }
    ensures value { result ≡ count_at post.now.rcounts 0 }
    ensures small { result ≤ most_items }
{
    usize::from(post.rcounts().as_slice()[0])
}

// The rank of the root.
fn root(row: &Row<'_>) -> usize
    requires fine { IsFine row.now }
    requires rooted { (fields_of (first_of row.now).kind).root ≡ true }
    requires some { 0 < length row.now }
    ensures value { (first_of row.now).root ≡ Some result }
    ensures rank { result < length row.now }
{
    usize::from(row.post(0).root().unwrap())
}
