//! What reductions and scans give each member.
ghost use Rattle.std.specs.Prelude.{◌≡◌, ◌+◌, ◌*◌, ◌<◌, ◌≤◌, IfOk, length, true};
ghost use Rattle.mpx_num.specs.ItemList.{AreItems};
ghost use Rattle.mpx_num.specs.Types.{item_len};
ghost use Rattle.mpx_post.specs.Agreement.{AllSuit, IsFine, first_of, post_at};
ghost use Rattle.mpx_post.specs.Blocks.{IsBlock, part, repeated};
ghost use Rattle.mpx_post.specs.Posts.{numbers_of, type_of};
ghost use Rattle.mpx_post.specs.Values.{GivesValue, as_items};
ghost use Rattle.mpx_fold.specs.Folds.{fold_of, fold_value, folded, reduces};

use join_core::OutOfMemory;
use mpx_kind::{Kind, Reduction};
use mpx_num::{Items, Listing, Ops, Spelled, apply};
use mpx_post::{Block, Row, Value};
use std::alloc::Global;

/// What a fine row of a reduction or a scan gives the member with this rank, by the job's own operations, which are for the
/// types of their items. A row of another kind gives nothing. Memory is wanting only in the place of items.
pub fn fold_value(alloc: Global, row: &Row<'_>, rank: u8, ops: &Ops) -> Result<Value, OutOfMemory>
    requires fine { IsFine row.now }
    requires suits { AllSuit (⟦<Ops as Listing>⟧.operations ops.now) row.now }
    requires rank { rank < length row.now }
    ensures { GivesValue (fold_value (first_of row.now).kind (⟦<Ops as Listing>⟧.operations ops.now) row.now rank) result }
{
    match row.kind() {
        Kind::Reduction(reduction) => value_of(alloc, row, reduction, rank, ops),
        _ => Ok(Value::Nothing),
    }
}

// What a row of this reduction gives the member.
fn value_of(
    alloc: Global,
    row: &Row<'_>,
    reduction: Reduction,
    rank: u8,
    ops: &Ops,
) -> Result<Value, OutOfMemory>
    requires fine { IsFine row.now }
    requires suits { AllSuit (⟦<Ops as Listing>⟧.operations ops.now) row.now }
    requires kind { (first_of row.now).kind ≡ Kind.Reduction reduction }
    requires reduces { reduces row.now ≡ true }
    requires rank { rank < length row.now }
    ensures { GivesValue (fold_of (⟦<Ops as Listing>⟧.operations ops.now) reduction row.now rank) result }
{
    let place = usize::from(rank);
    let first = row.post(0);
    match reduction {
        Reduction::Reduce => {
            if first.root() == Some(rank) {
                folded_value(alloc, row, row.len(), ops)
            } else {
                Ok(Value::Nothing)
            }
        }
        Reduction::Allreduce => folded_value(alloc, row, row.len(), ops),
        Reduction::ReduceScatterBlock => block_value(alloc, row, equal_block(row, rank), ops),
        Reduction::ReduceScatter => block_value(alloc, row, counted_block(row, rank), ops),
        Reduction::Scan => folded_value(alloc, row, place + 1, ops),
        Reduction::Exscan => {
            if rank == 0 {
                Ok(Value::Absent)
            } else {
                folded_value(alloc, row, place, ops)
            }
        }
    }
}

// The block of this rank, where each has as many items.
fn equal_block(row: &Row<'_>, rank: u8) -> Block
    requires fine { IsFine row.now }
    requires kind { (first_of row.now).kind ≡ Kind.Reduction Reduction.ReduceScatterBlock }
    requires rank { rank < length row.now }
    ensures { IsBlock (type_of (first_of row.now)) (repeated (length row.now) (first_of row.now).rcounts) rank (length (numbers_of (first_of row.now))) result }
{
    let count = usize::from(row.post(0).rcounts().as_slice()[0]);
    Block {
        first: usize::from(rank) * count,
        count,
    }
}

// The block of this rank, where each rank has a count.
fn counted_block(row: &Row<'_>, rank: u8) -> Block
    requires fine { IsFine row.now }
    requires kind { (first_of row.now).kind ≡ Kind.Reduction Reduction.ReduceScatter }
    requires rank { rank < length row.now }
    ensures { IsBlock (type_of (first_of row.now)) (first_of row.now).rcounts rank (length (numbers_of (first_of row.now))) result }
{
    let counts = row.post(0).rcounts();
    let place = usize::from(rank);
    Block {
        first: counts.sum_before(place),
        count: usize::from(counts.as_slice()[place]),
    }
}

// A block of what all give, combined.
fn block_value(alloc: Global, row: &Row<'_>, block: Block, ops: &Ops) -> Result<Value, OutOfMemory>
    requires fine { IsFine row.now }
    requires suits { AllSuit (⟦<Ops as Listing>⟧.operations ops.now) row.now }
    requires reduces { reduces row.now ≡ true }
    requires within { (block.first + block.count) * item_len (type_of (first_of row.now)) ≤ length (numbers_of (first_of row.now)) }
    ensures { IfOk result (λ value. value ≡ as_items row.now (part (type_of (first_of row.now)) block (folded (⟦<Ops as Listing>⟧.operations ops.now) row.now (length row.now)))) }
{
    let all = fold_upto(alloc, row, row.len(), ops)?;
    let items = all.block(alloc, block.first, block.count)?;
    Ok(Value::Items(items))
}

// What the first so many give, combined.
fn folded_value(alloc: Global, row: &Row<'_>, ranks: usize, ops: &Ops) -> Result<Value, OutOfMemory>
    requires fine { IsFine row.now }
    requires suits { AllSuit (⟦<Ops as Listing>⟧.operations ops.now) row.now }
    requires reduces { reduces row.now ≡ true }
    requires some { 0 < ranks }
    requires few { ranks ≤ length row.now }
    ensures { IfOk result (λ value. value ≡ as_items row.now (folded (⟦<Ops as Listing>⟧.operations ops.now) row.now ranks)) }
{
    Ok(Value::Items(fold_upto(alloc, row, ranks, ops)?))
}

// What the first so many give, combined in rank order.
fn fold_upto(alloc: Global, row: &Row<'_>, ranks: usize, ops: &Ops) -> Result<Items, OutOfMemory>
    requires fine { IsFine row.now }
    requires suits { AllSuit (⟦<Ops as Listing>⟧.operations ops.now) row.now }
    requires reduces { reduces row.now ≡ true }
    requires some { 0 < ranks }
    requires few { ranks ≤ length row.now }
    ensures value { IfOk result (λ items. items ≡ record { ty = type_of (first_of row.now); nums = folded (⟦<Ops as Listing>⟧.operations ops.now) row.now ranks }) }
    ensures len { IfOk result (λ items. length items.nums ≡ length (numbers_of (first_of row.now))) }
{
    let first = row.post(0);
    let op = first.op().unwrap();
    let mut folded = Items::spelled(alloc, given(row, 0))?;
    let ty = folded.ty();
    for rank in 1..ranks {
        apply(op, ty, &mut folded, given(row, rank), ops)?;
    }
    Ok(folded)
}

// What the member with this rank gives to a reduction.
fn given<'a>(row: &Row<'a>, rank: usize) -> &'a Spelled
    requires fine { IsFine row.now }
    requires reduces { reduces row.now ≡ true }
    requires rank { rank < length row.now }
    ensures value { result.now ≡ record { ty = type_of (first_of row.now); nums = numbers_of (post_at row.now rank) } }
    ensures whole { AreItems (type_of (first_of row.now)) (numbers_of (post_at row.now rank)) }
{
    let items = row.post(rank).items().unwrap();
    // The bytes tell that no item is cut.
    let _whole = items.bytes();
    items
}
