//! Statements of a script, and the draft that each posts.
ghost use Rattle.std.specs.Prelude.{◌≡◌, ◌∷◌, IfOk};
ghost use Rattle.std.specs.Option.{option_copied, option_to_list};
ghost use Rattle.mpx_statement.specs.declared.statement.Posting.TheVariants.{Call as BlockingCall, CreateGroup, New, Start};
ghost use Rattle.mpx_statement.specs.declared.statement.Question.TheVariants.{Compare, Translate};

use crate::rank_list::RankList;
use crate::word::{Word, WordList};
use join_core::OutOfMemory;
use mpx_kind::{Call, NewCommunicator};
use mpx_num::Numbers;
use mpx_post::Draft;
use std::alloc::Global;

/// A statement that posts.
#[derive(Debug, Drop)]
pub enum Posting {
    /// A blocking call on the communicator of this name.
    Call {
        on: Word,
        draft: Draft,
    },
    /// A nonblocking call on the communicator of this name; the other name stands for its request.
    Start {
        on: Word,
        draft: Draft,
        request: Word,
    },
    /// A call on the communicator of this name; the other name stands for the communicator that it gives the rank.
    New {
        on: Word,
        draft: Draft,
        to: Word,
    },
    /// `create_group` by the members with these ranks of the communicator of this name, under a tag; the other name stands
    /// for the communicator that it gives the rank.
    CreateGroup {
        on: Word,
        tag: i128,
        ranks: Numbers,
        to: Word,
    },
}

/// One of the two sides of a rank's neighbours.
#[derive(Clone, Copy, Debug, PartialEq, Eq)]
pub enum Side {
    /// From whom edges come.
    Sources,
    /// To whom edges go.
    Destinations,
}

/// A statement that is answered at once, by what the rank knows of its communicators.
#[derive(Debug, Drop)]
pub enum Question {
    /// The rank's own neighbours on one side in the communicator of this name (`MPI_DIST_GRAPH_NEIGHBORS`, MPI 4.1 section
    /// 8.5.5).
    Neighbours {
        on: Word,
        side: Side,
    },
    /// How the communicators of these names compare (`MPI_COMM_COMPARE`, MPI 4.1 section 7.4.1).
    Compare {
        first: Word,
        second: Word,
    },
    /// The ranks in the second communicator of the processes with these ranks in the first; None stands for
    /// `MPI_PROC_NULL` (`MPI_GROUP_TRANSLATE_RANKS`, MPI 4.1 section 7.3.1).
    Translate {
        from: Word,
        to: Word,
        ranks: RankList,
    },
}

/// A statement of a script.
#[derive(Debug, Drop)]
pub enum Statement {
    /// One that posts.
    Post(Posting),
    /// One that waits until the calls of these requests are done, and then tells their outcomes in this order (`MPI_WAIT`,
    /// `MPI_WAITALL`, MPI 4.1 sections 3.7.3 and 3.7.5).
    Wait(WordList),
    /// One that is answered at once.
    Ask(Question),
}

impl Posting {
    ghost use Rattle.mpx_statement.specs.Statements.{bound_to, draft_of, communicator_word, started_as};

    /// The draft that the statement posts: on its communicator, or for `create_group` on the gathering.
    pub fn draft(&self) -> Result<Draft, OutOfMemory>
        ensures { IfOk result (λ draft. draft ≡ draft_of self.now) }
    {
        match self {
            Posting::Call { draft, .. } => draft.copy(),
            Posting::Start { draft, .. } => draft.copy(),
            Posting::New { draft, .. } => draft.copy(),
            Posting::CreateGroup { .. } => Ok(Draft::of(Call::NewCommunicator(
                NewCommunicator::CreateGroup,
            ))),
        }
    }

    /// The name of its communicator.
    pub fn on(&self) -> &Word
        ensures { result.now ≡ communicator_word self.now }
    {
        match self {
            Posting::Call { on, .. } => on,
            Posting::Start { on, .. } => on,
            Posting::New { on, .. } => on,
            Posting::CreateGroup { on, .. } => on,
        }
    }

    /// The name for the new communicator, where the statement has one.
    pub fn target(&self) -> Option<&Word>
        ensures { option_copied result ≡ bound_to self.now }
    {
        match self {
            Posting::New { to, .. } => Some(to),
            Posting::CreateGroup { to, .. } => Some(to),
            _ => None,
        }
    }

    /// The name for its request, where it is nonblocking.
    pub fn request(&self) -> Option<&Word>
        ensures { option_copied result ≡ started_as self.now }
    {
        match self {
            Posting::Start { request, .. } => Some(request),
            _ => None,
        }
    }

    fn copy(&self, alloc: Global) -> Result<Posting, OutOfMemory>
        ensures { IfOk result (λ copied. copied ≡ self.now) }
    {
        match self {
            Posting::Call { on, draft } => call_copied(alloc, on, draft),
            Posting::Start { on, draft, request } => start_copied(alloc, on, draft, request),
            Posting::New { on, draft, to } => new_copied(alloc, on, draft, to),
            Posting::CreateGroup { on, tag, ranks, to } => {
                create_group_copied(alloc, on, *tag, ranks, to)
            }
        }
    }
}

impl Question {
    ghost use Rattle.mpx_statement.specs.Statements.{asked_about};

    /// The names of the communicators that it asks about: one or two.
    pub fn communicators(&self) -> (&Word, Option<&Word>)
        ensures { result.0.now ∷ option_to_list (option_copied result.1) ≡ asked_about self.now }
    {
        match self {
            Question::Neighbours { on, .. } => (on, None),
            Question::Compare { first, second } => (first, Some(second)),
            Question::Translate { from, to, .. } => (from, Some(to)),
        }
    }

    fn copy(&self, alloc: Global) -> Result<Question, OutOfMemory>
        ensures { IfOk result (λ copied. copied ≡ self.now) }
    {
        match self {
            Question::Neighbours { on, side } => Ok(Question::Neighbours {
                on: on.copy(alloc)?,
                side: *side,
            }),
            Question::Compare { first, second } => compare_copied(alloc, first, second),
            Question::Translate { from, to, ranks } => translate_copied(alloc, from, to, ranks),
        }
    }
}

impl Statement {
    ghost use Rattle.mpx_statement.specs.Statements.{drafted_by, request_of, target_of};

    /// The draft that it posts, where it posts one.
    pub fn draft(&self) -> Result<Option<Draft>, OutOfMemory>
        ensures { IfOk result (λ draft. draft ≡ drafted_by self.now) }
    {
        match self {
            Statement::Post(posting) => Ok(Some(posting.draft()?)),
            _ => Ok(None),
        }
    }

    /// The name for the new communicator, where the statement has one.
    pub fn target(&self) -> Option<&Word>
        ensures { option_copied result ≡ target_of self.now }
    {
        match self {
            Statement::Post(posting) => posting.target(),
            _ => None,
        }
    }

    /// The name for its request, where it starts a nonblocking call.
    pub fn request(&self) -> Option<&Word>
        ensures { option_copied result ≡ request_of self.now }
    {
        match self {
            Statement::Post(posting) => posting.request(),
            _ => None,
        }
    }

    /// A copy of the statement.
    pub fn copy(&self, alloc: Global) -> Result<Statement, OutOfMemory>
        ensures { IfOk result (λ copied. copied ≡ self.now) }
    {
        match self {
            Statement::Post(posting) => Ok(Statement::Post(posting.copy(alloc)?)),
            Statement::Wait(requests) => Ok(Statement::Wait(requests.copy(alloc)?)),
            Statement::Ask(question) => Ok(Statement::Ask(question.copy(alloc)?)),
        }
    }
}

// Two words once more.
fn words_copied(alloc: Global, first: &Word, second: &Word) -> Result<(Word, Word), OutOfMemory>
    ensures { IfOk result (λ copied. (copied.0 ≡ first.now) × (copied.1 ≡ second.now)) }
{
    let first = first.copy(alloc)?;
    let second = second.copy(alloc)?;
    Ok((first, second))
}

// A blocking call like this one.
fn call_copied(alloc: Global, on: &Word, draft: &Draft) -> Result<Posting, OutOfMemory>
    ensures { IfOk result (λ copied. copied ≡ BlockingCall on.now draft.now) }
{
    let on = on.copy(alloc)?;
    let draft = draft.copy()?;
    Ok(Posting::Call { on, draft })
}

// A nonblocking call like this one.
fn start_copied(
    alloc: Global,
    on: &Word,
    draft: &Draft,
    request: &Word,
) -> Result<Posting, OutOfMemory>
    ensures { IfOk result (λ copied. copied ≡ Start on.now draft.now request.now) }
{
    let (on, request) = words_copied(alloc, on, request)?;
    let draft = draft.copy()?;
    Ok(Posting::Start { on, draft, request })
}

// A call like this one, which gives a communicator.
fn new_copied(alloc: Global, on: &Word, draft: &Draft, to: &Word) -> Result<Posting, OutOfMemory>
    ensures { IfOk result (λ copied. copied ≡ New on.now draft.now to.now) }
{
    let (on, to) = words_copied(alloc, on, to)?;
    let draft = draft.copy()?;
    Ok(Posting::New { on, draft, to })
}

// A `create_group` like this one.
fn create_group_copied(
    alloc: Global,
    on: &Word,
    tag: i128,
    ranks: &Numbers,
    to: &Word,
) -> Result<Posting, OutOfMemory>
    ensures { IfOk result (λ copied. copied ≡ CreateGroup on.now tag ranks.now to.now) }
{
    let (on, to) = words_copied(alloc, on, to)?;
    let ranks = ranks.copy()?;
    Ok(Posting::CreateGroup { on, tag, ranks, to })
}

// A comparison like this one.
fn compare_copied(alloc: Global, first: &Word, second: &Word) -> Result<Question, OutOfMemory>
    ensures { IfOk result (λ copied. copied ≡ Compare first.now second.now) }
{
    let (first, second) = words_copied(alloc, first, second)?;
    Ok(Question::Compare { first, second })
}

// A translation like this one.
fn translate_copied(
    alloc: Global,
    from: &Word,
    to: &Word,
    ranks: &RankList,
) -> Result<Question, OutOfMemory>
    ensures { IfOk result (λ copied. copied ≡ Translate from.now to.now ranks.now) }
{
    let (from, to) = words_copied(alloc, from, to)?;
    let ranks = ranks.copy(alloc)?;
    Ok(Question::Translate { from, to, ranks })
}
