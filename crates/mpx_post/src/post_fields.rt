//! The fields of a post, made from those of a draft.
ghost use Rattle.std.specs.Prelude.{◌≡◌, ◌<◌, ◌≤◌, MatchOption, ◌*◌, ◌==◌, ◌&&◌, true, false, not, cond, nat_lt, length, [], ◌∷◌, IfOk};
ghost use Rattle.std.specs.List.{list_all, sum};
ghost use Rattle.mpx_num.specs.Types.{item_len};
ghost use Rattle.mpx_num.specs.ItemList.{is_whole};
ghost use Rattle.mpx_post.specs.Blocks.{repeated};
ghost use Rattle.mpx_post.specs.Posts.{most_counts, most_items};
ghost use Rattle.mpx_birth.specs.Topologies.{most_neighbours};
ghost use Rattle.mpx_post.specs.Drafts.{first_that_holds, is_count, is_of, is_rank as is_rank_of, natural, naturals, unless, where_had as where_had_of};
ghost use Rattle.mpx_post.specs.declared.draft.PostError.TheVariants.{ItemsLength, ItemOutOfRange, TooManyItems};

use crate::counts::{Counts, are_counts, total};
use crate::draft::PostError;
use join_core::OutOfMemory;
use mpx_num::{Items, ItemsError, Numbers, Op, Spelled, Ty, is_in_range};
use std::alloc::Global;

// The numbers of a list that the kind has, and none of one that it hasn't.
pub(crate) fn where_had(had: bool, numbers: &Numbers) -> &[i128]
    ensures { result.now ≡ cond had numbers.now [] }
{
    if had { numbers.as_slice() } else { &[] }
}

pub(crate) fn is_rank(size: usize, root: i128) -> bool
    ensures { result ≡ is_rank_of size root }
{
    0 <= root && root < size as i128
}

// Whether all are numbers of the type.
pub(crate) fn are_all_of(ty: Ty, numbers: &[i128]) -> bool
    ensures { result ≡ list_all (is_of ty) numbers.now }
{
    numbers.iter().all(|&number| is_in_range(ty, number))
}

// The place in a list of so many that a rank of them has.
pub(crate) fn place_of(size: usize, rank: i128) -> Option<usize>
    ensures { MatchOption result
        (is_rank_of size rank ≡ false)
        (λ place. (is_rank_of size rank ≡ true) × (place ≡ natural rank) × (place < size)) }
{
    if is_rank(size, rank) {
        Some(rank as usize)
    } else {
        None
    }
}

// Whether blocks of so many items each, all of them so many times over, have another number of numbers. It isn't so where
// a block's count is out of its limit.
pub(crate) fn is_misfill(counts: &[i128], times: usize, ty: Ty, numbers: usize) -> bool
    requires few { length counts.now ≤ most_neighbours }
    requires times { times ≤ most_neighbours }
    ensures { result ≡ (list_all is_count (repeated times counts.now) && not (sum (naturals (repeated times counts.now)) * item_len ty == numbers)) }
{
    if times == 0 {
        return numbers != 0;
    }
    if !are_counts(counts) {
        return false;
    }
    times * total(counts) * ty.item_len() != numbers
}

// The root, where the kind has one.
pub(crate) fn given_root(had: bool, root: i128) -> Option<u8>
    requires { cond had (is_rank_of 64 root) true ≡ true }
    ensures { result ≡ where_had_of had (natural root) }
{
    if had { Some(root as u8) } else { None }
}

// The operation, where the kind has one.
pub(crate) fn given_op(had: bool, op: Op) -> Option<Op>
    ensures { result ≡ where_had_of had op }
{
    if had { Some(op) } else { None }
}

// The items, where the kind has them, or why the numbers are none.
pub(crate) fn given_items(had: bool, ty: Ty, numbers: Numbers) -> Result<Option<Items>, PostError>
    ensures { let nums = cond had numbers [] in
        result ≡ unless (first_that_holds
        ((not (is_whole ty nums), ItemsLength)
        ∷ (not (list_all (is_of ty) nums), ItemOutOfRange)
        ∷ (nat_lt (most_items * item_len ty) (length nums), TooManyItems)
        ∷ [])) (where_had_of had (record { ty = ty; nums = numbers })) }
{
    if !had {
        return Ok(None);
    }
    match Items::new(ty, numbers) {
        Ok(items) => Ok(Some(items)),
        Err(ItemsError::ItemsLength) => Err(PostError::ItemsLength),
        Err(ItemsError::ItemOutOfRange) => Err(PostError::ItemOutOfRange),
        Err(ItemsError::TooManyItems) => Err(PostError::TooManyItems),
    }
}

// The items as posts keep them.
pub(crate) fn spelled(alloc: Global, items: Option<Items>) -> Result<Option<Spelled>, OutOfMemory>
    ensures { IfOk result (λ spelled. spelled ≡ items) }
{
    match items {
        None => Ok(None),
        Some(items) => Ok(Some(Spelled::of(alloc, &items)?)),
    }
}

// The counts of what is sent and of what is received.
pub(crate) fn given_counts(
    alloc: Global,
    sent: &[i128],
    received: &[i128],
) -> Result<(Counts, Counts), OutOfMemory>
    requires sent { list_all is_count sent.now ≡ true }
    requires received { list_all is_count received.now ≡ true }
    requires few_sent { length sent.now ≤ most_counts }
    requires few_received { length received.now ≤ most_counts }
    ensures { IfOk result (λ given. (given.0 ≡ naturals sent.now) × (given.1 ≡ naturals received.now)) }
{
    let scounts = Counts::new(alloc, sent)?;
    let rcounts = Counts::new(alloc, received)?;
    Ok((scounts, rcounts))
}
