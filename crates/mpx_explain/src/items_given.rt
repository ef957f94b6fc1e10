//! What is wrong with the items of a refused call.

use crate::given::Place;
use crate::naming::type_word;
use crate::size::push_counted;
use join_core::OutOfMemory;
use mpx_kind::{Call, Exchange, Neighbourhood, Reduction};
use mpx_num::{is_in_range, push_number};
use mpx_post::Draft;

/// Adds how many items are given, and how many are expected, where that is known.
pub(crate) fn push_items(
    at: &Place<'_>,
    draft: &Draft,
    told: &mut String,
) -> Result<(), OutOfMemory> {
    let numbers = draft.items.as_slice().len();
    told.push_str("gave ")?;
    if draft.ty.item_len() == 2 && numbers % 2 == 1 {
        push_counted(numbers, "number", told)?;
        return Ok(told.push_str(", and two make an item")?);
    }
    push_counted(numbers / draft.ty.item_len().max(1), "item", told)?;
    push_expected(at, draft, told)
}

// How many items a call takes of a rank.
#[derive(Clone, Copy, Drop)]
enum Expectation<'s> {
    /// So many as the one count says, behind these words.
    Count(&'static str, &'s [i128]),
    /// So many as the counts add up to.
    Sum(&'s [i128]),
}

// Adds how many items the call takes of this rank, by its counts.
fn push_expected(at: &Place<'_>, draft: &Draft, told: &mut String) -> Result<(), OutOfMemory> {
    if let Some(wanted) = wanted(draft) {
        return push_wanted(wanted, told);
    }
    match wanted_of_root(draft) {
        Some(wanted) => push_of_root(at, draft, wanted, told),
        None => Ok(()),
    }
}

// What a call takes of each rank.
fn wanted(draft: &Draft) -> Option<Expectation<'_>> {
    let sent = draft.scounts.as_slice();
    let received = draft.rcounts.as_slice();
    match draft.call {
        Call::Exchange(Exchange::Alltoall, _) => {
            Some(Expectation::Count("COUNT for each rank is", received))
        }
        Call::Exchange(Exchange::Alltoallv, _) => Some(Expectation::Sum(sent)),
        Call::Reduction(Reduction::ReduceScatterBlock, _) => {
            Some(Expectation::Count("COUNT for each rank is", received))
        }
        Call::Reduction(Reduction::ReduceScatter, _) => Some(Expectation::Sum(received)),
        Call::Neighbourhood(Neighbourhood::Alltoall, _) => {
            Some(Expectation::Count("SCOUNT for each destination is", sent))
        }
        Call::Neighbourhood(Neighbourhood::Alltoallv, _) => Some(Expectation::Sum(sent)),
        _ => None,
    }
}

// What a call takes of its root alone.
fn wanted_of_root(draft: &Draft) -> Option<Expectation<'_>> {
    let received = draft.rcounts.as_slice();
    match draft.call {
        Call::Exchange(Exchange::Bcast, _) => Some(Expectation::Count("COUNT is", received)),
        Call::Exchange(Exchange::Scatter, _) => {
            Some(Expectation::Count("COUNT for each rank is", received))
        }
        Call::Exchange(Exchange::Scatterv, _) => Some(Expectation::Sum(draft.scounts.as_slice())),
        _ => None,
    }
}

// Adds what is expected of the root alone: on `world` it is known who that is, elsewhere both are told.
fn push_of_root(
    at: &Place<'_>,
    draft: &Draft,
    wanted: Expectation<'_>,
    told: &mut String,
) -> Result<(), OutOfMemory> {
    if !at.is_world() {
        push_wanted(wanted, told)?;
        return push_only_root(told);
    }
    if draft.root == i128::from(at.rank) {
        return push_wanted(wanted, told);
    }
    push_only_root(told)
}

fn push_only_root(told: &mut String) -> Result<(), OutOfMemory> {
    Ok(told.push_str("; only the root gives items")?)
}

fn push_wanted(wanted: Expectation<'_>, told: &mut String) -> Result<(), OutOfMemory> {
    match wanted {
        Expectation::Count(what, counts) => push_count(what, counts, told),
        Expectation::Sum(counts) => push_sum(counts, told),
    }
}

// Adds the one count, where there is one.
fn push_count(what: &str, counts: &[i128], told: &mut String) -> Result<(), OutOfMemory> {
    let [count] = counts else {
        return Ok(());
    };
    told.push_str(", ")?;
    told.push_str(what)?;
    told.push_str(" ")?;
    push_number(told, *count)?;
    Ok(())
}

// Adds what the counts add up to.
fn push_sum(counts: &[i128], told: &mut String) -> Result<(), OutOfMemory> {
    let mut sum: i128 = 0;
    for count in counts {
        sum = sum.saturating_add(*count);
    }
    told.push_str(", the counts add up to ")?;
    push_number(told, sum)?;
    Ok(())
}

/// Adds the first number that is outside its type.
pub(crate) fn push_outside(draft: &Draft, told: &mut String) -> Result<(), OutOfMemory> {
    let Some(number) = outside(draft) else {
        return Ok(());
    };
    push_number(told, number)?;
    told.push_str(" is outside ")?;
    told.push_str(type_word(draft.ty))?;
    Ok(())
}

fn outside(draft: &Draft) -> Option<i128> {
    for number in draft.items.as_slice() {
        if !is_in_range(draft.ty, *number) {
            return Some(*number);
        }
    }
    None
}
