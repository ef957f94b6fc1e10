//! Of which two ranks the one sends another number of items than the other awaits.

use crate::aspects::{Share, items_of};
use crate::size::push_value;
use join_core::OutOfMemory;
use mpx_kind::Exchange;

/// Adds the first two ranks of which the one sends what the other doesn't await.
pub(crate) fn push_unmet(
    exchange: Exchange,
    shares: &[Share<'_>],
    told: &mut String,
) -> Result<(), OutOfMemory> {
    for from in shares {
        if let Some((sent, to, awaited)) = unmet_from(exchange, from, shares) {
            push_value("rank ", i128::from(from.rank), " sends ", told)?;
            push_value("", sent, " to rank ", told)?;
            push_value("", i128::from(to), ", which awaits ", told)?;
            return push_value("", awaited, "", told);
        }
    }
    Ok(())
}

// What this one sends to the first rank that awaits something else, that rank, and what it awaits, where both numbers are there.
fn unmet_from(
    exchange: Exchange,
    from: &Share<'_>,
    shares: &[Share<'_>],
) -> Option<(i128, u8, i128)> {
    for to in shares {
        let sent = sent(exchange, from, to);
        let awaited = awaited(exchange, from, to);
        if sent != awaited {
            return Some((sent?, to.rank, awaited?));
        }
    }
    None
}

// How many items the one sends to the other; none where it sends none there by the kind of call.
fn sent(exchange: Exchange, from: &Share<'_>, to: &Share<'_>) -> Option<i128> {
    match exchange {
        Exchange::Gatherv if !is_root(to) => None,
        Exchange::Gatherv | Exchange::Allgatherv => Some(items_of(from.draft) as i128),
        Exchange::Scatterv if !is_root(from) => None,
        Exchange::Scatterv | Exchange::Alltoallv => {
            count_at(from.draft.scounts.as_slice(), to.rank)
        }
        _ => None,
    }
}

// How many items the other awaits of the one.
fn awaited(exchange: Exchange, from: &Share<'_>, to: &Share<'_>) -> Option<i128> {
    match exchange {
        Exchange::Gatherv if !is_root(to) => None,
        Exchange::Gatherv | Exchange::Allgatherv | Exchange::Alltoallv => {
            count_at(to.draft.rcounts.as_slice(), from.rank)
        }
        Exchange::Scatterv if !is_root(from) => None,
        Exchange::Scatterv => count_at(to.draft.rcounts.as_slice(), 0),
        _ => None,
    }
}

fn is_root(share: &Share<'_>) -> bool {
    share.draft.root == i128::from(share.rank)
}

fn count_at(counts: &[i128], rank: u8) -> Option<i128> {
    counts.get(usize::from(rank)).copied()
}
