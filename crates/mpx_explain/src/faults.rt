//! Who gives something else at a fault.

use crate::amounts::push_unmet;
use crate::aspects::{Aspect, Share, aspect_of, push_says};
use crate::naming::operation_in;
use crate::reasons::Telling;
use crate::size::push_value;
use join_core::OutOfMemory;
use mpx_eval::Complaint;
use mpx_meaning::Line;
use mpx_num::Op;
use mpx_post::Draft;
use mpx_script::{Posting, Script, Statement, statement_lines};
use mpx_value::Fault;
use mpx_waiting::line_at;
use std::alloc::Global;

// So many ranks are all told where none of what they give is given by most.
const FEW_RANKS: usize = 8;

// What a rank gives, in words.
#[derive(Drop)]
struct Saying {
    rank: u8,
    text: String,
}

/// Adds which ranks give something else than the most to the call of a fault, or of which two ranks the one sends another number of items than
/// the other awaits, to an empty text. It is told of blocking calls on `world` alone, and only where each rank has a line that tells this fault
/// of its call with the same number there.
pub(crate) fn push_minority(
    alloc: Global,
    telling: &Telling<'_>,
    complaint: &Complaint,
    fault: Fault,
    told: &mut String,
) -> Result<(), OutOfMemory> {
    let script = telling.script;
    let Some(draft) = posted_on_world(script, complaint) else {
        return Ok(());
    };
    let Some(aspect) = aspect_of(fault.what, draft) else {
        return Ok(());
    };
    let shares = shares_of(alloc, script, complaint, telling.calls)?;
    let pushed = push_differing(alloc, telling.text, script.ranks(), aspect, &shares, told);
    drop(shares);
    pushed
}

// The same of what these ranks give, where they are so many.
fn push_differing(
    alloc: Global,
    text: &[u8],
    ranks: u8,
    aspect: Aspect,
    shares: &[Share<'_>],
    told: &mut String,
) -> Result<(), OutOfMemory> {
    if shares.len() != usize::from(ranks) {
        return Ok(());
    }
    match aspect {
        Aspect::Between(exchange) => push_unmet(exchange, shares, told),
        _ => push_by_most(alloc, text, aspect, shares, told),
    }
}

// Adds what the ranks give that don't give what most do; what each gives, where few ranks give nothing by most.
fn push_by_most(
    alloc: Global,
    text: &[u8],
    aspect: Aspect,
    shares: &[Share<'_>],
    told: &mut String,
) -> Result<(), OutOfMemory> {
    let said = all_said(alloc, text, aspect, shares)?;
    let pushed = push_unusual(&said, told);
    drop(said);
    pushed
}

fn push_unusual(said: &[Saying], told: &mut String) -> Result<(), OutOfMemory> {
    let usual = usual(said);
    if usual.is_none() && said.len() > FEW_RANKS {
        return Ok(());
    }
    let is_alone = said.len().saturating_sub(alike(said, usual)) == 1;
    for saying in said {
        if usual != Some(saying.text.as_str()) {
            push_saying(saying, is_alone, told)?;
        }
    }
    Ok(())
}

// How many say what is usual.
fn alike(said: &[Saying], usual: Option<&str>) -> usize {
    match usual {
        Some(text) => times(said, text),
        None => 0,
    }
}

fn all_said(
    alloc: Global,
    text: &[u8],
    aspect: Aspect,
    shares: &[Share<'_>],
) -> Result<Vec<Saying>, OutOfMemory> {
    let mut said = Vec::new(alloc);
    match push_said(alloc, text, aspect, shares, &mut said) {
        Ok(()) => Ok(said),
        Err(e) => {
            drop(said);
            Err(e)
        }
    }
}

fn push_said(
    alloc: Global,
    text: &[u8],
    aspect: Aspect,
    shares: &[Share<'_>],
    said: &mut Vec<Saying>,
) -> Result<(), OutOfMemory> {
    let mut named: Option<(Op, &str)> = None;
    for share in shares {
        let word = match named {
            Some((op, word)) if op == share.draft.op => word,
            _ => operation_of(alloc, text, share)?,
        };
        named = Some((share.draft.op, word));
        said.push(saying_of(alloc, aspect, share, word)?)?;
    }
    Ok(())
}

// The word of the operation that a rank gives.
fn operation_of<'t>(
    alloc: Global,
    text: &'t [u8],
    share: &Share<'_>,
) -> Result<&'t str, OutOfMemory> {
    let line = match share.draft.op {
        Op::Own(_) => line_of(alloc, text, share)?,
        _ => 0,
    };
    Ok(operation_in(text, line, share.draft))
}

fn line_of(alloc: Global, text: &[u8], share: &Share<'_>) -> Result<u32, OutOfMemory> {
    let lines = statement_lines(alloc, text, share.rank)?;
    let line = line_at(&lines, share.statement);
    drop(lines);
    Ok(line)
}

fn saying_of(
    alloc: Global,
    aspect: Aspect,
    share: &Share<'_>,
    operation: &str,
) -> Result<Saying, OutOfMemory> {
    let mut text = String::new(alloc);
    push_says(aspect, share.draft, operation, &mut text)?;
    Ok(Saying {
        rank: share.rank,
        text,
    })
}

// What most say; none where two things are said by as many ranks.
fn usual(said: &[Saying]) -> Option<&str> {
    let mut best = 0usize;
    let mut found = None;
    let mut is_clear = false;
    for saying in said {
        let text = saying.text.as_str();
        let count = times(said, text);
        if count > best {
            best = count;
            found = Some(text);
            is_clear = true;
        } else if count == best && found != Some(text) {
            is_clear = false;
        }
    }
    if is_clear { found } else { None }
}

fn times(said: &[Saying], text: &str) -> usize {
    said.iter()
        .filter(|saying| saying.text.as_str() == text)
        .count()
}

// Adds what a rank says, which is alone in that or not, behind others.
fn push_saying(saying: &Saying, is_alone: bool, told: &mut String) -> Result<(), OutOfMemory> {
    let between = if told.is_empty() { "" } else { ", " };
    told.push_str(between)?;
    let who = if is_alone { "only rank " } else { "rank " };
    push_value(who, i128::from(saying.rank), " ", told)?;
    told.push_str(saying.text.as_str())?;
    Ok(())
}

// What each rank gives to the complaint's call on `world`, where a line of it tells the outcome of that call.
fn shares_of<'s>(
    alloc: Global,
    script: &'s Script,
    complaint: &Complaint,
    all: &[Complaint],
) -> Result<Vec<Share<'s>>, OutOfMemory> {
    let mut shares: Vec<Share<'s>> = Vec::new(alloc);
    for other in all {
        if !is_same_call(&complaint.line, &other.line) {
            continue;
        }
        if let Some(draft) = posted_on_world(script, other) {
            shares.push(Share {
                rank: other.rank,
                statement: other.statement,
                draft,
            })?;
        }
    }
    Ok(shares)
}

// Whether both lines tell the outcome of one call.
fn is_same_call(one: &Line, other: &Line) -> bool {
    match (one, other) {
        (
            Line::Told { name, call, .. },
            Line::Told {
                name: other_name,
                call: other_call,
                ..
            },
        ) => *call == *other_call && *name == *other_name,
        _ => false,
    }
}

// The draft of the statement of a line's blocking call, where that is on `world`.
fn posted_on_world<'s>(script: &'s Script, complaint: &Complaint) -> Option<&'s Draft> {
    let (on, draft) = posted(script, complaint)?;
    if on == b"world".as_slice() {
        Some(draft)
    } else {
        None
    }
}

// The communicator's word and the draft of the statement of a line's blocking call. Lines of requests may tell of different calls.
fn posted<'s>(script: &'s Script, complaint: &Complaint) -> Option<(&'s [u8], &'s Draft)> {
    match script.statements(complaint.rank).get(complaint.statement) {
        Some(Statement::Post(Posting::Call { on, draft })) => Some((on.as_bytes(), draft)),
        Some(Statement::Post(Posting::New { on, draft, .. })) => Some((on.as_bytes(), draft)),
        Some(Statement::Post(Posting::Start { .. })) => None,
        Some(Statement::Post(Posting::CreateGroup { .. })) => None,
        Some(Statement::Wait(_)) => None,
        Some(Statement::Ask(_)) => None,
        None => None,
    }
}
