//! Reading counts, and items where the kind has them.
ghost use Rattle.std.specs.Prelude.{◌≡◌, ◌++◌, ◌≤◌, IfOk, length};
ghost use Rattle.std.specs.Option.{option_map};
ghost use Rattle.mpx_num.specs.ItemList.{ItemList};
ghost use Rattle.mpx_post.specs.Posts.{AreCounts, NoneUnless, few_items};
ghost use Rattle.mpx_format.specs.Format.{Gives};
ghost use Rattle.mpx_format.specs.Posts.{count, counts, counts_if, items_for, nums_of};
ghost use Rattle.mpx_decode.specs.Near.{GivesNear};

use crate::big_endian::read_u16;
use crate::fields::read_at_most;
use crate::items::read_items;
use crate::lists::{Repeated, read_list};
use mpx_format::ReadError;
use mpx_num::{Spelled, Ty};
use mpx_post::Counts;
use mpx_rope::Beyond;
use std::alloc::Global;

// Counts, each at most 4,096.
struct EachCount;

impl Repeated for EachCount {
    type Value = u16;

    ghost format = { λ s before. count };

    ghost Within = { λ s n. n ≤ 4096 };

    fn read<'a>(
        &self,
        _alloc: Global,
        _before: &[u16],
        bytes: &'a [u8],
    ) -> Result<(u16, &'a [u8]), ReadError> {
        read_count(bytes)
    }
}

#[tactic(auto, unfolding(mpx_format::specs::Posts::count))]
pub fn read_count(bytes: &[u8]) -> Result<(u16, &[u8]), ReadError>
    ensures read { Gives (λ x. (x.0, x.1.now)) result (count.read bytes.now) }
    ensures small { IfOk result (λ x. x.0 ≤ 4096) }
{
    read_at_most(4096, bytes)
}

#[inline(never)]
#[tactic(auto, unfolding(mpx_format::specs::Posts::counts))]
fn read_some_counts(alloc: Global, bytes: &[u8]) -> Result<(Counts, &[u8]), ReadError>
    ensures { Gives (λ x. (x.0, x.1.now)) result (counts.read bytes.now) }
{
    let (len, rest) = read_u16(bytes)?;
    let (list, rest) = read_list(&EachCount, alloc, len as usize, rest)?;
    Ok((Counts::of(alloc, list)?, rest))
}

// The counts, where the kind has them; else none.
#[inline(always)]
pub fn read_counts(had: bool, alloc: Global, bytes: &[u8]) -> Result<(Counts, &[u8]), ReadError>
    ensures read { Gives (λ x. (x.0, x.1.now)) result ((counts_if had).read bytes.now) }
    ensures none { IfOk result (λ x. NoneUnless had x.0) }
{
    if had {
        read_some_counts(alloc, bytes)
    } else {
        Ok((Counts::none(), bytes))
    }
}

// The items, where there is a type.
pub fn read_items_for<'a>(
    ty: Option<Ty>,
    beyond: &mut Beyond<'a>,
    bytes: &'a [u8],
) -> Result<(Option<Spelled>, &'a [u8]), ReadError>
    ensures read { GivesNear beyond.old (λ x. (nums_of x.0, x.1.now ++ beyond.new)) result ((items_for ty).read (bytes.now ++ beyond.old)) }
    ensures ty { IfOk result (λ x. option_map (λ (items : ItemList). items.ty) x.0 ≡ ty) }
    ensures few { IfOk result (λ x. few_items x.0) }
    ensures less { length beyond.new ≤ length beyond.old }
{
    match ty {
        None => Ok((None, bytes)),
        Some(ty) => {
            let (items, rest) = read_items(ty, beyond, bytes)?;
            Ok((Some(items), rest))
        }
    }
}
