//! What is posted on a context, and what its calls give.
ghost use Rattle.std.specs.Prelude.{◌≡◌, ◌<◌, ◌≤◌, ◌++◌, ◌∷◌, [], IfOk, IfSome, OnOk, false, length, is_some, slice_get};
ghost use Rattle.std.specs.List.{list_any};
ghost use Rattle.std.specs.Option.{option_copied, option_map};
ghost use Rattle.mpx_group.specs.Group.{has_twice};
ghost use Rattle.mpx_post.specs.Drafts.{most_calls};
ghost use Rattle.mpx_post.specs.Posts.{is_free};
ghost use Rattle.mpx_value.specs.Children.{children, named_children};
ghost use Rattle.mpx_value.specs.Histories.{born_by};
ghost use Rattle.mpx_eval.specs.Contexts.{births_by, found};
ghost use Rattle.mpx_rank.specs.Answered.{answer_of};

use crate::missing::MissingMember;
use join_core::{Exact, OutOfMemory};
use mpx_birth::Birth;
use mpx_group::Proc;
use mpx_meaning::push_where;
use mpx_name::Name;
use mpx_num::{Listing, Ops};
use mpx_post::{Draft, Post, PostError, Row};
use mpx_rank::Answered;
use mpx_value::{Outcome, children, outcome};
use std::alloc::Global;
use std::marker::Model;

// The posts of one member, in their order, and whether one of them is a free.
#[derive(Drop)]
struct Column {
    posts: Vec<Post>,
    freed: bool,
}

impl Model for Column {
    ghost use Rattle.std.specs.Prelude.{List, ◌≡◌, ◌≤◌, length};
    ghost use Rattle.std.specs.List.{list_any};
    ghost use Rattle.mpx_post.specs.Drafts.{most_calls};
    ghost use Rattle.mpx_post.specs.Posts.{Given, is_free};

    ghost Value = { List Given };

    ghost view = { λ c. c.posts.items };

    ghost invariant = { λ c. (length c.posts.items ≤ most_calls) × (c.freed ≡ list_any is_free c.posts.items) };
}

impl Column {
    fn new(alloc: Global) -> Column
        ensures { result ≡ [] }
    {
        Column {
            posts: Vec::new(alloc),
            freed: false,
        }
    }

    // How many there are.
    fn count(&self) -> u32
        ensures { result ≡ length self.now }
    {
        self.posts.len() as u32
    }

    // Whether one of them is a free.
    fn has_freed(&self) -> bool
        ensures { result ≡ list_any is_free self.now }
    {
        self.freed
    }

    // The post of the call with this number.
    fn get(&self, call: u32) -> Option<&Post>
        ensures value { option_copied result ≡ slice_get self.now call }
        ensures room { IfSome result (λ post. call < most_calls) }
    {
        self.posts.get(call as usize)
    }

    #[tactic(auto, using(crate::proofs::Contexts::freed_more))]
    fn push(&mut self, post: Post) -> Result<(), OutOfMemory>
        requires { length self.old < most_calls }
        ensures { OnOk result (self.new ≡ self.old ++ post ∷ []) }
    {
        let freed = self.freed | post.is_free();
        self.posts.push(post)?;
        self.freed = freed;
        Ok(())
    }
}

/// A context: how it came to be, and the posts of each member, in rank order.
#[derive(Drop)]
pub(crate) struct Context {
    birth: Birth,
    columns: Vec<Column>,
}

impl Model for Context {
    ghost use Rattle.std.specs.Prelude.{◌≡◌, length};
    ghost use Rattle.mpx_eval.specs.Contexts.{ContextView};

    ghost Value = { ContextView };

    ghost view = { λ c. record { birth = c.birth; posts = c.columns.items } };

    ghost invariant = { λ c. length c.columns.items ≡ length c.birth.members };
}

impl Context {
    ghost use Rattle.mpx_eval.specs.Contexts.{ContextPosts, answer_in, freed_in, fresh, is_answered_in, row_in};
    ghost use Rattle.mpx_eval.specs.Lacking.{lacking};

    /// Before any post.
    pub(crate) fn new(alloc: Global, birth: Birth) -> Result<Context, OutOfMemory>
        ensures { IfOk result (λ context. context ≡ fresh birth) }
    {
        let mut columns = Vec::new(alloc);
        for _member in birth.members() {
            columns.push(Column::new(alloc))?;
        }
        Ok(Context { birth, columns })
    }

    /// A context before any post, with a copy of this birth.
    pub(crate) fn of_copy(alloc: Global, birth: &Birth) -> Result<Context, OutOfMemory>
        ensures { IfOk result (λ context. context ≡ fresh birth.now) }
    {
        Context::new(alloc, birth.copy(alloc)?)
    }

    /// Posts the draft as the next call of a process on this context, which has this name, and gives its number. The refusals
    /// are those of [`Draft::check`].
    pub(crate) fn post(
        &mut self,
        alloc: Global,
        me: Proc,
        name: &Name,
        draft: Draft,
        ops: &Ops,
    ) -> Result<u32, PostError>
        ensures posts { ContextPosts (⟦<Ops as Listing>⟧.operations ops.now) me name.now draft result self.old self.new }
        ensures distinct { has_twice self.old.birth.members ≡ false }
    {
        // so that the proof knows that no member stands twice
        let _members = self.birth.members();
        let Some(rank) = self.birth.rank_of(me) else {
            drop(draft);
            return Err(PostError::NotMember);
        };
        let rank = usize::from(rank);
        let call = self.columns[rank].count();
        let closed = self.columns[rank].has_freed();
        let post = draft.check_call(alloc, &self.birth, me, name, call, closed, ops)?;
        if self.columns[rank].push(post).is_err() {
            return Err(PostError::OutOfMemory);
        }
        Ok(call)
    }

    /// Whether a process has posted a free.
    pub(crate) fn has_freed(&self, me: Proc) -> bool
        ensures { result ≡ freed_in self.now me }
    {
        let Some(rank) = self.birth.rank_of(me) else {
            return false;
        };
        let rank = usize::from(rank);
        self.columns[rank].has_freed()
    }

    /// Whether all members have posted to a call, of which the process is one.
    pub(crate) fn has_answer(&self, me: Proc, call: u32) -> bool
        ensures { result ≡ is_answered_in self.now me call }
    {
        self.birth.rank_of(me).is_some() && self.has_row(call)
    }

    /// The members that have not posted to a call.
    pub(crate) fn missing(
        &self,
        alloc: Global,
        call: u32,
    ) -> Result<Vec<MissingMember>, OutOfMemory>
        ensures { IfOk result (λ missing. missing.items ≡ lacking self.now.birth.members self.now.posts call) }
    {
        let members = self.birth.members();
        let mut missing = Vec::new(alloc);
        for i in 0..members.len() {
            let lacks = self.columns[i].count() <= call;
            let member = MissingMember {
                rank: members[i].number(),
                closed: self.columns[i].has_freed(),
            };
            push_where(&mut missing, member, lacks)?;
        }
        Ok(missing)
    }

    // Whether all members have posted to a call.
    fn has_row(&self, call: u32) -> bool
        ensures { result ≡ is_some (row_in self.now call) }
    {
        self.columns.iter().all(|column| column.get(call).is_some())
    }

    // The posts of all members to a call, where all are there.
    fn row(&self, alloc: Global, call: u32) -> Result<Option<Row<'_>>, OutOfMemory>
        ensures row { IfOk result (λ row. row ≡ row_in self.now call) }
        ensures members { IfOk result (λ row. IfSome row (λ posts. length posts ≡ length self.now.birth.members)) }
        ensures room { IfOk result (λ row. IfSome row (λ posts. call < most_calls)) }
    {
        let size = self.birth.members().len();
        prove!(0 < size && size <= 64);
        let mut posts = Vec::new(alloc);
        for column in &self.columns {
            match column.get(call) {
                Some(post) => posts.push(post)?,
                None => return Ok(None),
            }
        }
        Ok(Some(Row::new(posts)))
    }

    /// What a call on this context, which has this name, gives a process, where all members have posted to it.
    pub(crate) fn answer(
        &self,
        alloc: Global,
        me: Proc,
        name: &Name,
        call: u32,
        ops: &Ops,
    ) -> Result<Option<Answered>, OutOfMemory>
        ensures { IfOk result (λ answer. option_map answer_of answer ≡ answer_in (⟦<Ops as Listing>⟧.operations ops.now) self.now me name.now call) }
    {
        let Some(row) = self.row(alloc, call)? else {
            return Ok(None);
        };
        let Some(rank) = self.birth.rank_of(me) else {
            drop(row);
            return Ok(None);
        };
        let outcome = outcome(alloc, &self.birth, &row, name, call, rank, ops)?;
        match born(alloc, &self.birth, &row, name, call, &outcome, ops) {
            Ok(born) => Ok(Some(Answered { outcome, born })),
            Err(e) => {
                drop(outcome);
                Err(e)
            }
        }
    }
}

// How the communicator came to be that an outcome of this call names.
fn born(
    alloc: Global,
    birth: &Birth,
    row: &Row<'_>,
    name: &Name,
    call: u32,
    outcome: &Outcome,
    ops: &Ops,
) -> Result<Option<Birth>, OutOfMemory>
    requires members { length row.now ≡ length birth.now.members }
    requires call { call < most_calls }
    ensures { IfOk result (λ born. born ≡ born_by (births_by (⟦<Ops as Listing>⟧.operations ops.now) birth.now row.now name.now call) outcome.now) }
{
    match outcome {
        Outcome::NewComm { name: new, .. } => {
            Ok(found(new, children(alloc, birth, row, name, call, ops)?))
        }
        Outcome::Nothing => Ok(None),
        Outcome::Absent => Ok(None),
        Outcome::Items(_) => Ok(None),
        Outcome::Null => Ok(None),
        Outcome::Fault(_) => Ok(None),
    }
}

// The first with this name.
fn found(name: &Name, made: Vec<(Name, Birth)>) -> Option<Birth>
    ensures { result ≡ found name.now made.items }
{
    for (new, birth) in made {
        if new == *name {
            return Some(birth);
        }
    }
    None
}
