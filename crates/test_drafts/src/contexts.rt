//! Contexts, and a draft, a post and a frame on them, for the tests of boards and of processes.
use crate::{Drafted, bare, just, kinds, proc};
use mpx_group::Group;
use mpx_name::Name;
use mpx_num::Ty;
use mpx_post::Post;
use std::alloc::Global;
use std::test::Fail;

/// A context.
#[derive(Clone, Copy)]
pub enum On {
    /// So many steps below the context of all, each the first child.
    Below(u8),
    /// The gathering of ranks 0 and 2 with tag 9, below the context of all.
    Gathering,
    /// The gathering of ranks 2 and 0 with tag 9, below the context of all.
    Reversed,
    /// The first child of the gathering.
    OfGathering,
}

/// The context of all.
pub const WORLD: On = On::Below(0);

fn below(alloc: Global, depth: u8) -> Result<Name, Fail> {
    let mut name = Name::world(alloc);
    for _ in 0..depth {
        name = name.child(alloc, 0, 0)?;
    }
    Ok(name)
}

fn gathering(alloc: Global, one: u8, other: u8) -> Result<Name, Fail> {
    let members = Group::new(vec![in alloc; proc(one), proc(other)]?)?;
    if members.size() == 0 {
        return Err(Fail::from("no members"));
    }
    Ok(Name::world(alloc).gathering(alloc, 9, &members)?)
}

/// Its name.
pub fn name_of(alloc: Global, on: On) -> Result<Name, Fail> {
    match on {
        On::Below(depth) => below(alloc, depth),
        On::Gathering => gathering(alloc, 0, 2),
        On::Reversed => gathering(alloc, 2, 0),
        On::OfGathering => Ok(gathering(alloc, 0, 2)?.child(alloc, 0, 0)?),
    }
}

/// The sum over all ranks of these items of 64 bits.
pub fn sum_of(items: &[i128]) -> Drafted<'_> {
    Drafted {
        ty: Ty::I64,
        items,
        ..just(kinds::ALLREDUCE)
    }
}

/// A post of these numbers.
pub fn post_of(alloc: Global, items: &[i128]) -> Result<Post, Fail> {
    Ok(bare(alloc, &sum_of(items))?.ok_or("refused")?)
}

/// A frame: the world's name, which isn't dead, no birth, no fronts, nothing dropped, one call 0, in which process 0 posts a blocking
/// allreduce of the sum of one item 9 of type i32; no acknowledgements. The item is the four bytes before the last one.
pub const FRAME: &[u8] = &[
    0x4d, 0x50, 0x58, 0x47, 2, 0, 1, 0, 0, 0, 0, 0, 0, 0, 0, 0, 0, 0, 1, 0, 0, 0, 0, 1, 0, 1, 11,
    0, 3, 3, 0, 1, 0, 0, 0, 9, 0,
];
