//! What ranks may give differently to one call, and what each gives, in words.

use crate::naming::{call_word, type_word};
use crate::size::{push_counted, push_value};
use join_core::OutOfMemory;
use mpx_kind::{Exchange, Kind, Reduction};
use mpx_post::Draft;
use mpx_value::FaultKind;

/// What a rank gives to a call.
#[derive(Drop)]
pub(crate) struct Share<'s> {
    pub(crate) rank: u8,
    /// The place of its statement.
    pub(crate) statement: usize,
    pub(crate) draft: &'s Draft,
}

/// What ranks give differently at a fault.
#[derive(Clone, Copy)]
pub(crate) enum Aspect {
    Call,
    Root,
    Operation,
    ItemType,
    /// How many items.
    Items,
    /// The one COUNT of a statement.
    Count,
    /// RCOUNTS, which are to be alike.
    Counts,
    /// What the one sends and the other awaits.
    Between(Exchange),
}

/// In what the fault is of a call like the draft's, where more can be told of it.
pub(crate) fn aspect_of(what: FaultKind, draft: &Draft) -> Option<Aspect> {
    match what {
        FaultKind::Kind => Some(Aspect::Call),
        FaultKind::Root => Some(Aspect::Root),
        FaultKind::Op => Some(Aspect::Operation),
        FaultKind::ItemType => Some(Aspect::ItemType),
        FaultKind::Amount => amounts_of(draft.call.kind()),
        FaultKind::Mode | FaultKind::Weights | FaultKind::Edges | FaultKind::Groups => None,
    }
}

// Which amounts a kind of call compares.
fn amounts_of(kind: Kind) -> Option<Aspect> {
    match kind {
        Kind::Exchange(exchange) => amounts_moved(exchange),
        Kind::Reduction(Reduction::ReduceScatterBlock) => Some(Aspect::Count),
        Kind::Reduction(Reduction::ReduceScatter) => Some(Aspect::Counts),
        Kind::Reduction(_) => Some(Aspect::Items),
        Kind::NewCommunicator(_) => None,
        Kind::Neighbourhood(_) => None,
        Kind::Free => None,
    }
}

fn amounts_moved(exchange: Exchange) -> Option<Aspect> {
    match exchange {
        Exchange::Barrier => None,
        Exchange::Gather | Exchange::Allgather => Some(Aspect::Items),
        Exchange::Bcast | Exchange::Scatter | Exchange::Alltoall => Some(Aspect::Count),
        _ => Some(Aspect::Between(exchange)),
    }
}

/// How many items the draft has.
pub(crate) fn items_of(draft: &Draft) -> usize {
    draft.items.as_slice().len() / draft.ty.item_len().max(1)
}

/// Adds what the draft gives, whose operation has this word.
pub(crate) fn push_says(
    aspect: Aspect,
    draft: &Draft,
    operation: &str,
    told: &mut String,
) -> Result<(), OutOfMemory> {
    match aspect {
        Aspect::Call => push_word("calls ", call_word(draft.call.kind()), told),
        Aspect::Root => push_value("gives root ", draft.root, "", told),
        Aspect::Operation => push_word("gives ", operation, told),
        Aspect::ItemType => push_word("gives ", type_word(draft.ty), told),
        Aspect::Items | Aspect::Between(_) => push_items(items_of(draft), told),
        Aspect::Count => push_value("gives COUNT ", first(draft.rcounts.as_slice()), "", told),
        Aspect::Counts => push_counts(draft.rcounts.as_slice(), told),
    }
}

fn push_word(verb: &str, word: &str, told: &mut String) -> Result<(), OutOfMemory> {
    told.push_str(verb)?;
    told.push_str(word)?;
    Ok(())
}

fn push_items(number: usize, told: &mut String) -> Result<(), OutOfMemory> {
    told.push_str("gives ")?;
    push_counted(number, "item", told)
}

fn first(counts: &[i128]) -> i128 {
    counts.first().copied().unwrap_or(0)
}

fn push_counts(counts: &[i128], told: &mut String) -> Result<(), OutOfMemory> {
    told.push_str("gives RCOUNTS")?;
    let mut between = " ";
    for count in counts {
        push_value(between, *count, "", told)?;
        between = ",";
    }
    Ok(())
}
