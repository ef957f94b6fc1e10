//! What a refused statement gives, in words.

use crate::counts_given::{push_counts, push_too_many};
use crate::items_given::{push_items, push_outside};
use crate::making_given::{
    push_bad_edge, push_bad_group, push_bad_split, push_bad_tag, push_strange_rank,
    push_too_many_edges,
};
use crate::naming::{operation_in, type_word};
use crate::pair_given::push_of_two;
use crate::size::push_world_ranks;
use join_core::OutOfMemory;
use mpx_eval::Complaint;
use mpx_num::push_number;
use mpx_post::{Draft, PostError};
use mpx_script::{Posting, Question, Script, Statement};

/// Why a statement was refused.
#[derive(Clone, Copy)]
pub(crate) enum Refusal {
    Post(PostError),
    /// A rank that it asks for is out of range.
    StrayRank,
}

/// Which rank's statement was refused, and on which communicator by its word.
#[derive(Clone, Copy, Drop)]
pub(crate) struct Place<'s> {
    /// The script's text, and the statement's line in it.
    pub(crate) text: &'s [u8],
    pub(crate) line: u32,
    /// How many ranks there are.
    pub(crate) ranks: u8,
    pub(crate) rank: u8,
    pub(crate) on: &'s [u8],
}

impl Place<'_> {
    /// Whether the communicator is `world`, of which the ranks are known.
    pub(crate) fn is_world(&self) -> bool {
        self.on == b"world".as_slice()
    }
}

/// Adds what a refused call gives, and what was expected, as far as its statement in this line tells it, to an empty text.
pub(crate) fn push_given(
    text: &[u8],
    line: u32,
    script: &Script,
    call: &Complaint,
    refusal: Refusal,
    told: &mut String,
) -> Result<(), OutOfMemory> {
    let Some(statement) = script.statements(call.rank).get(call.statement) else {
        return Ok(());
    };
    match (statement, refusal) {
        (Statement::Ask(Question::Compare { first, second }), Refusal::Post(refusal)) => {
            push_of_two(script, call, first, second, refusal, told)
        }
        (Statement::Ask(Question::Translate { from, to, .. }), Refusal::Post(refusal)) => {
            push_of_two(script, call, from, to, refusal, told)
        }
        _ => {
            let Some(on) = communicator_of(statement) else {
                return Ok(());
            };
            let at = Place {
                text,
                line,
                ranks: script.ranks(),
                rank: call.rank,
                on,
            };
            push_of_one(&at, statement, refusal, told)
        }
    }
}

// The same of a statement that names one communicator, or asks for ranks of its first.
fn push_of_one(
    at: &Place<'_>,
    statement: &Statement,
    refusal: Refusal,
    told: &mut String,
) -> Result<(), OutOfMemory> {
    match refusal {
        Refusal::Post(refusal) => push_refused(at, statement, refusal, told),
        Refusal::StrayRank => push_stray(at, statement, told),
    }
}

// Adds which rank that it asks for is out of range.
fn push_stray(at: &Place<'_>, statement: &Statement, told: &mut String) -> Result<(), OutOfMemory> {
    match statement {
        Statement::Ask(Question::Translate { ranks, .. }) => {
            push_strange_rank(at, ranks.as_slice(), told)
        }
        Statement::Ask(_) => Ok(()),
        Statement::Post(_) => Ok(()),
        Statement::Wait(_) => Ok(()),
    }
}

fn push_refused(
    at: &Place<'_>,
    statement: &Statement,
    refusal: PostError,
    told: &mut String,
) -> Result<(), OutOfMemory> {
    match meaning_of(refusal) {
        Some(meaning) => Ok(told.push_str(meaning)?),
        None => push_statement(at, statement, refusal, told),
    }
}

// The word of the one communicator of a statement, or the first of a translation.
fn communicator_of(statement: &Statement) -> Option<&[u8]> {
    match statement {
        Statement::Post(posting) => Some(posting.on().as_bytes()),
        Statement::Ask(Question::Neighbours { on, .. }) => Some(on.as_bytes()),
        Statement::Ask(Question::Translate { from, .. }) => Some(from.as_bytes()),
        Statement::Ask(Question::Compare { .. }) => None,
        Statement::Wait(_) => None,
    }
}

fn push_statement(
    at: &Place<'_>,
    statement: &Statement,
    refusal: PostError,
    told: &mut String,
) -> Result<(), OutOfMemory> {
    match statement {
        Statement::Post(Posting::Call { draft, .. }) => push_draft(at, draft, refusal, told),
        Statement::Post(Posting::Start { draft, .. }) => push_draft(at, draft, refusal, told),
        Statement::Post(Posting::New { draft, .. }) => push_new(at, draft, refusal, told),
        Statement::Post(Posting::CreateGroup { tag, ranks, .. }) => {
            push_gathering(at, *tag, ranks.as_slice(), refusal, told)
        }
        Statement::Ask(_) => Ok(()),
        Statement::Wait(_) => Ok(()),
    }
}

// The refusals that a call tells more of, each by what it gives.
fn push_draft(
    at: &Place<'_>,
    draft: &Draft,
    refusal: PostError,
    told: &mut String,
) -> Result<(), OutOfMemory> {
    match refusal {
        PostError::RootOutOfRange => push_root(at, draft, told),
        PostError::OpNotForType => push_operation(at, draft, told),
        PostError::ItemsLength => push_items(at, draft, told),
        PostError::ItemOutOfRange => push_outside(draft, told),
        PostError::CountsLength => push_counts(at, draft, told),
        PostError::TooManyItems => push_too_many(draft, told),
        _ => Ok(()),
    }
}

// Those of a call that makes a communicator.
fn push_new(
    at: &Place<'_>,
    draft: &Draft,
    refusal: PostError,
    told: &mut String,
) -> Result<(), OutOfMemory> {
    match refusal {
        PostError::BadTag => push_bad_split(draft, told),
        PostError::BadGroup => push_bad_group(at, draft.group.as_slice(), false, told),
        PostError::BadEdge => push_bad_edge(at, draft, told),
        PostError::TooManyEdges => push_too_many_edges(draft, told),
        _ => Ok(()),
    }
}

// Those of a gathering.
fn push_gathering(
    at: &Place<'_>,
    tag: i128,
    ranks: &[i128],
    refusal: PostError,
    told: &mut String,
) -> Result<(), OutOfMemory> {
    match refusal {
        PostError::BadTag => push_bad_tag(tag, told),
        PostError::BadGroup => push_bad_group(at, ranks, true, told),
        _ => Ok(()),
    }
}

// What is wrong, where the refusal's name alone tells it.
fn meaning_of(refusal: PostError) -> Option<&'static str> {
    match refusal {
        PostError::NoTopology => Some(
            "the communicator has no topology: dist_graph and dist_graph_adjacent make one",
        ),
        PostError::Closed => Some("this rank has freed the communicator"),
        PostError::NotMember => Some(
            "the communicator is null here: its call was refused or a fault, or left this rank out",
        ),
        PostError::DepthUsedUp => {
            Some("the communicator would be more than eight steps from world")
        }
        _ => None,
    }
}

fn push_root(at: &Place<'_>, draft: &Draft, told: &mut String) -> Result<(), OutOfMemory> {
    told.push_str("root is ")?;
    push_number(told, draft.root)?;
    if at.is_world() {
        told.push_str(", ")?;
        return push_world_ranks(at.ranks, told);
    }
    told.push_str(", no rank of the communicator")?;
    Ok(())
}

fn push_operation(at: &Place<'_>, draft: &Draft, told: &mut String) -> Result<(), OutOfMemory> {
    told.push_str(operation_in(at.text, at.line, draft))?;
    told.push_str(" isn't for ")?;
    told.push_str(type_word(draft.ty))?;
    Ok(())
}
