//! Lists of equal blocks, cut into parts and put together again.
ghost use Rattle.std.specs.Prelude.{◌≡◌, ◌++◌, IfOk, map, take, drop};
ghost use Rattle.std.specs.List.{flat_map};
ghost use Rattle.mpx_call.specs.Parts.{block_in, cut, put_together};

use crate::item::Item;
use std::alloc::{AllocError, Global};

/// Of each of so many blocks of `count` items so many items from a place on.
pub fn cut<T: Item>(
    alloc: Global,
    items: &[T],
    blocks: usize,
    count: usize,
    first: usize,
    each: usize,
) -> Result<Vec<T>, AllocError>
    ensures { IfOk result (λ part. part.items ≡ cut blocks count first each items.now) }
{
    let mut part = Vec::new(alloc);
    let mut rest = items;
    for _ in 0..blocks {
        let (block, after) = split(rest, count);
        part.extend_from_slice(items_from(block, first, each))?;
        rest = after;
    }
    Ok(part)
}

/// Parts of so many equal blocks, put together block by block.
pub fn put_together<T: Item>(
    alloc: Global,
    blocks: usize,
    parts: &[Vec<T>],
) -> Result<Vec<T>, AllocError>
    ensures { IfOk result (λ whole. whole.items ≡ put_together blocks (map (λ part. part.items) parts.now)) }
{
    let mut whole = Vec::new(alloc);
    for number in 0..blocks {
        put_block(&mut whole, blocks, number, parts)?;
    }
    Ok(whole)
}

// Of all parts the block with this number.
fn put_block<T: Item>(
    whole: &mut Vec<T>,
    blocks: usize,
    number: usize,
    parts: &[Vec<T>],
) -> Result<(), AllocError>
    ensures { IfOk result (λ u. whole.new.items ≡ whole.old.items ++ flat_map (λ part. block_in blocks number part.items) parts.now) }
{
    for part in parts {
        whole.extend_from_slice(block_in(part, blocks, number))?;
    }
    Ok(())
}

// Of a list of so many equal blocks the one with this number.
fn block_in<T: Item>(list: &[T], blocks: usize, number: usize) -> &[T]
    ensures { result.now ≡ block_in blocks number list.now }
{
    let each = list.len().checked_div(blocks).unwrap_or(0);
    items_from(list, number.saturating_mul(each), each)
}

// So many items from a place on, or as many as there are.
fn items_from<T: Item>(items: &[T], first: usize, each: usize) -> &[T]
    ensures { result.now ≡ take each (drop first items.now) }
{
    let (_, rest) = split(items, first);
    let (part, _) = split(rest, each);
    part
}

// The first so many items, or as many as there are, and the others.
fn split<T: Item>(items: &[T], count: usize) -> (&[T], &[T])
    ensures first { result.0.now ≡ take count items.now }
    ensures rest { result.1.now ≡ drop count items.now }
{
    items.split_at(count.min(items.len()))
}
