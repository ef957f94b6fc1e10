//! What is wrong with the counts of a refused call.

use crate::given::Place;
use crate::size::push_counted;
use join_core::OutOfMemory;
use mpx_kind::{Kind, Neighbourhood, Number};
use mpx_num::push_number;
use mpx_post::Draft;

// So many items a call has at most, and so great is a count.
const MOST: usize = 4096;

// A list of counts, by its name, what it has, and how many are asked for.
#[derive(Clone, Copy, Drop)]
struct List<'s> {
    name: &'static str,
    counts: &'s [i128],
    asked: Number,
}

/// Adds which list of counts has another length than the call asks for, and what that is: on `world` the list that is wrong, elsewhere each.
pub(crate) fn push_counts(
    at: &Place<'_>,
    draft: &Draft,
    told: &mut String,
) -> Result<(), OutOfMemory> {
    let sent = sent_list(draft);
    let received = received_list(draft);
    if at.is_world() {
        let is_root = draft.root == i128::from(at.rank);
        if let Some(wanted) = other_length(sent, at.ranks, is_root) {
            return push_wrong_length(at, sent, wanted, told);
        }
        if let Some(wanted) = other_length(received, at.ranks, is_root) {
            return push_wrong_length(at, received, wanted, told);
        }
    }
    push_asked(sent, told)?;
    push_asked(received, told)
}

// How many counts are wanted on `world` with so many ranks, at the root or elsewhere, where a list has another number.
fn other_length(list: List<'_>, ranks: u8, is_root: bool) -> Option<usize> {
    match wanted(list.asked, ranks, is_root) {
        Some(wanted) if list.counts.len() != wanted => Some(wanted),
        _ => None,
    }
}

fn sent_list(draft: &Draft) -> List<'_> {
    let kind = draft.call.kind();
    List {
        name: sent_name(kind),
        counts: draft.scounts.as_slice(),
        asked: kind.fields().scounts,
    }
}

fn received_list(draft: &Draft) -> List<'_> {
    let kind = draft.call.kind();
    List {
        name: received_name(kind),
        counts: draft.rcounts.as_slice(),
        asked: kind.fields().rcounts,
    }
}

fn sent_name(kind: Kind) -> &'static str {
    match kind.fields().scounts {
        Number::One => "SCOUNT",
        _ => "SCOUNTS",
    }
}

fn received_name(kind: Kind) -> &'static str {
    match kind {
        Kind::Neighbourhood(Neighbourhood::Alltoall) => "RCOUNT",
        _ => match kind.fields().rcounts {
            Number::One => "COUNT",
            _ => "RCOUNTS",
        },
    }
}

// How many counts are wanted on `world` with so many ranks, at the root or elsewhere; none where neighbours tell that.
fn wanted(asked: Number, ranks: u8, is_root: bool) -> Option<usize> {
    match asked {
        Number::Zero => Some(0),
        Number::One => Some(1),
        Number::OneAtRoot => Some(usize::from(is_root)),
        Number::Members => Some(usize::from(ranks)),
        Number::MembersAtRoot if is_root => Some(usize::from(ranks)),
        Number::MembersAtRoot => Some(0),
        Number::Indegree | Number::Outdegree => None,
    }
}

// Adds what is wrong with a list, of which so many counts are wanted.
fn push_wrong_length(
    at: &Place<'_>,
    list: List<'_>,
    wanted: usize,
    told: &mut String,
) -> Result<(), OutOfMemory> {
    push_length(list, told)?;
    if wanted == 0 {
        return Ok(told.push_str("; only the root gives counts")?);
    }
    told.push_str(", world has ")?;
    push_counted(usize::from(at.ranks), "rank", told)
}

// Adds the list's name, and how many counts it has.
fn push_length(list: List<'_>, told: &mut String) -> Result<(), OutOfMemory> {
    told.push_str(list.name)?;
    told.push_str(" has ")?;
    if list.counts.is_empty() {
        return Ok(told.push_str("no count")?);
    }
    push_counted(list.counts.len(), "count", told)
}

// Adds how many counts a list has, and what is asked for, where it is no single count, behind another.
fn push_asked(list: List<'_>, told: &mut String) -> Result<(), OutOfMemory> {
    let Some(asked) = asked_of(list.asked) else {
        return Ok(());
    };
    if !told.is_empty() {
        told.push_str("; ")?;
    }
    push_length(list, told)?;
    told.push_str(asked)?;
    Ok(())
}

fn asked_of(asked: Number) -> Option<&'static str> {
    match asked {
        Number::Zero | Number::One | Number::OneAtRoot => None,
        Number::Members => Some(", one for each rank is asked for"),
        Number::MembersAtRoot => {
            Some(", one for each rank is asked for at the root, none elsewhere")
        }
        Number::Indegree => Some(", one for each source is asked for"),
        Number::Outdegree => Some(", one for each destination is asked for"),
    }
}

/// Adds how many items are too many, or which count is too great or below 0.
pub(crate) fn push_too_many(draft: &Draft, told: &mut String) -> Result<(), OutOfMemory> {
    let items = draft.items.as_slice().len() / draft.ty.item_len().max(1);
    if items > MOST {
        told.push_str("gave ")?;
        push_number(told, items as i128)?;
        return Ok(told.push_str(" items, at most 4096 are taken")?);
    }
    let sent = sent_list(draft);
    if let Some(count) = strange_in(sent.counts) {
        return push_strange(sent, count, told);
    }
    let received = received_list(draft);
    match strange_in(received.counts) {
        Some(count) => push_strange(received, count, told),
        None => Ok(()),
    }
}

// The first of these counts that is too great or below 0.
fn strange_in(counts: &[i128]) -> Option<i128> {
    for count in counts {
        if *count < 0 || *count > MOST as i128 {
            return Some(*count);
        }
    }
    None
}

fn push_strange(list: List<'_>, count: i128, told: &mut String) -> Result<(), OutOfMemory> {
    told.push_str(list.name)?;
    told.push_str(if is_one(list.asked) { " is " } else { " has " })?;
    push_number(told, count)?;
    told.push_str(", counts go from 0 to 4096")?;
    Ok(())
}

fn is_one(asked: Number) -> bool {
    match asked {
        Number::One => true,
        _ => false,
    }
}
