//! The contexts on which somebody has posted.
ghost use Rattle.std.specs.Prelude.{◌≡◌, IfOk, OnOk, None, Some, is_some, true};
ghost use Rattle.std.specs.Option.{option_map};
ghost use Rattle.mpx_name.specs.Name.{Name as NameView};
ghost use Rattle.mpx_rank.specs.Answered.{answer_of};
ghost use Rattle.mpx_eval.specs.Contexts.{ContextView};
ghost use Rattle.mpx_eval.specs.Lacking.{missing_there};
ghost use Rattle.mpx_eval.specs.Tables.{PostsOn, TriesOn, answer_on, freed_on, is_answered, opened, table_of};

use crate::context::Context;
use crate::missing::MissingMember;
use join_core::{Exact, OutOfMemory};
use mpx_birth::Birth;
use mpx_group::Proc;
use mpx_name::Name;
use mpx_num::{Listing, Ops};
use mpx_post::{Draft, PostError};
use mpx_rank::Answered;
use std::alloc::Global;
use std::collections::BTreeMap;

/// The contexts on which somebody has posted, or would have, by their names.
#[derive(Drop)]
pub(crate) struct Table {
    contexts: BTreeMap<Name, Context>,
}

impl Table {
    /// Before any post.
    pub(crate) fn new(alloc: Global) -> Table
        ensures { (name : NameView) → table_of result name ≡ None }
    {
        Table {
            contexts: BTreeMap::new(alloc),
        }
    }

    /// Posts the draft of a process as its next call on the context of this name, which came to be so, and gives the name and
    /// the number of the call. The refusals are those of [`Draft::check`].
    pub(crate) fn post(
        &mut self,
        alloc: Global,
        me: Proc,
        name: Name,
        birth: &Birth,
        draft: Draft,
        ops: &Ops,
    ) -> Result<(Name, u32), PostError>
        ensures { TriesOn (⟦<Ops as Listing>⟧.operations ops.now) me draft name birth.now result (table_of self.old) (table_of self.new) }
    {
        match self.open(alloc, &name, birth) {
            Ok(()) => match self.post_on(alloc, me, &name, draft, ops) {
                Ok(call) => Ok((name, call)),
                Err(refusal) => {
                    drop(name);
                    Err(refusal)
                }
            },
            Err(_) => {
                drop(draft);
                drop(name);
                Err(PostError::OutOfMemory)
            }
        }
    }

    /// What a call gives a process, where all members have posted to it.
    pub(crate) fn answer(
        &self,
        alloc: Global,
        me: Proc,
        name: &Name,
        call: u32,
        ops: &Ops,
    ) -> Result<Option<Answered>, OutOfMemory>
        ensures { IfOk result (λ answer. option_map answer_of answer ≡ answer_on (⟦<Ops as Listing>⟧.operations ops.now) (table_of self.now) me name.now call) }
    {
        match self.contexts.get(name) {
            Some(context) => context.answer(alloc, me, name, call, ops),
            None => Ok(None),
        }
    }

    /// Whether all members have posted to a call, of which the process is one.
    pub(crate) fn has_answer(&self, me: Proc, name: &Name, call: u32) -> bool
        ensures { result ≡ is_answered (table_of self.now) me name.now call }
    {
        match self.contexts.get(name) {
            Some(context) => context.has_answer(me, call),
            None => false,
        }
    }

    /// Whether a process has posted a free on a context.
    pub(crate) fn has_freed(&self, me: Proc, name: &Name) -> bool
        ensures { result ≡ freed_on (table_of self.now) me name.now }
    {
        match self.contexts.get(name) {
            Some(context) => context.has_freed(me),
            None => false,
        }
    }

    /// The members of a context that have not posted to a call.
    pub(crate) fn missing(
        &self,
        alloc: Global,
        name: &Name,
        call: u32,
    ) -> Result<Vec<MissingMember>, OutOfMemory>
        ensures { IfOk result (λ missing. missing.items ≡ missing_there (table_of self.now name.now) call) }
    {
        match self.contexts.get(name) {
            Some(context) => context.missing(alloc, call),
            None => Ok(Vec::new(alloc)),
        }
    }

    // Puts in a context without posts, where there is none of this name.
    fn open(&mut self, alloc: Global, name: &Name, birth: &Birth) -> Result<(), OutOfMemory>
        ensures { OnOk result ((q : NameView) → table_of self.new q ≡ opened name.now birth.now (table_of self.old) q) }
    {
        if self.contexts.contains_key(name) {
            return Ok(());
        }
        let context = Context::of_copy(alloc, birth)?;
        match name.copy(alloc) {
            Ok(name) => {
                self.contexts.insert(name, context)?;
                Ok(())
            }
            Err(e) => {
                drop(context);
                Err(e)
            }
        }
    }

    // Posts on a context that is there.
    fn post_on(
        &mut self,
        alloc: Global,
        me: Proc,
        name: &Name,
        draft: Draft,
        ops: &Ops,
    ) -> Result<u32, PostError>
        requires { is_some (table_of self.old name.now) ≡ true }
        ensures { (c : ContextView) → table_of self.old name.now ≡ Some c → PostsOn (⟦<Ops as Listing>⟧.operations ops.now) me name.now draft result c (table_of self.old) (table_of self.new) }
    {
        let Some(context) = self.contexts.get_mut(name) else {
            unreachable!();
        };
        context.post(alloc, me, name, draft, ops)
    }
}
