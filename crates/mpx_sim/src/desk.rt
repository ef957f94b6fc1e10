//! The desk of a run's process: it carries the posts of the process's rank, and looks at contexts.
ghost use Rattle.std.specs.Prelude.{◌≡◌, ◌<◌, ◌≤◌, IfOk, List, OnOk, Some, false, true};
ghost use Rattle.std.specs.Option.{option_copied};
ghost use Rattle.mpx_num.specs.declared.own.Operation.{Operation};
ghost use Rattle.mpx_node.specs.Nodes.{checked_on, has_next, start_node};
ghost use Rattle.mpx_node.specs.Shown.{node_of};
ghost use Rattle.mpx_meaning.specs.declared.line.Line.TheVariants.{Told as TellsOutcome};
ghost use Rattle.mpx_statement.specs.Statements.{draft_of, gathers_of};
ghost use Rattle.mpx_rank.specs.declared.carrier.Heard.TheVariants.{Told as TellsCall};
ghost use Rattle.mpx_rank.specs.Shown.{requests_of};
ghost use Rattle.mpx_request.specs.declared.request.Request.{Request as RequestView};
ghost use Rattle.mpx_sim.specs.Carrying.{Harvests, IsContext, Tries, context_in, new_name, tried_on, tried_post};
ghost use Rattle.mpx_sim.specs.Ends.{IsOpen, OneIsOpen};
ghost use Rattle.mpx_sim.specs.Running.{KeepsNode};
ghost use Rattle.mpx_sim.specs.Shown.{call_in, call_of};
ghost use Rattle.mpx_sim.specs.Turns.{Alone};

use crate::contexts::{contexts_at_start, look_at_gathering, look_at_given};
use crate::posts::Posts;
use join_core::{Exact, OutOfMemory};
use mpx_birth::Birth;
use mpx_comm::{Desk, Request};
use mpx_group::Proc;
use mpx_meaning::Line;
use mpx_name::Name;
use mpx_node::{Finished, Node};
use mpx_num::{Listing, Ops};
use mpx_post::PostError;
use mpx_rank::{Carrier, Heard};
use mpx_statement::{Posting, Statement, Word};
use mpx_value::Outcome;
use std::alloc::Global;
use std::collections::BTreeMap;

/// A process's desk over its node, the contexts that it looks at, and its posts, for an observer.
#[derive(Drop)]
pub(crate) struct RunDesk {
    pub(crate) desk: Desk<Node>,
    contexts: Vec<Name>,
    pub(crate) posts: Posts,
}

impl RunDesk {
    /// The desk of process `me` of so many, of which the first are ranks, with these statements, before any post. It looks at the world, and notes
    /// posts where that is asked for.
    pub(crate) fn new(
        alloc: Global,
        me: Proc,
        ranks: u8,
        processes: u8,
        todo: &[Statement],
        notes: bool,
    ) -> Result<RunDesk, OutOfMemory>
        requires some { 0 < ranks }
        requires ranks { ranks ≤ processes }
        requires few { processes ≤ 64 }
        requires me { me < processes }
        ensures { IfOk result (λ desk. node_of desk.desk.host ≡ start_node me ranks processes) }
    {
        let contexts = contexts_at_start(alloc)?;
        match Node::new(alloc, me, ranks, processes) {
            Ok(node) => Ok(RunDesk {
                desk: Desk::new(alloc, node),
                contexts,
                posts: Posts::new(alloc, todo, notes),
            }),
            Err(e) => {
                drop(contexts);
                Err(e)
            }
        }
    }

    /// Its node.
    pub(crate) fn node(&self) -> &Node
        ensures { result.now ≡ self.now.desk.host }
    {
        self.desk.host()
    }

    /// Its node, for good.
    pub(crate) fn into_node(self) -> Node
        ensures { result ≡ self.desk.host }
    {
        let RunDesk {
            desk,
            contexts,
            posts,
        } = self;
        drop(contexts);
        drop(posts);
        desk.into_host()
    }

    /// Stores the results of each context that it looks at, until no further one can be had.
    pub(crate) fn harvest(&mut self, alloc: Global, ops: &Ops) -> Result<(), OutOfMemory>
        ensures { OnOk result (Harvests (⟦<Ops as Listing>⟧.operations ops.now) (node_of self.old.desk.host) (node_of self.new.desk.host)) }
    {
        for name in &self.contexts {
            harvest_all(alloc, &mut self.desk, name, ops)?;
        }
        Ok(())
    }

    /// Whether a call isn't done, and can't be by what the board has.
    pub(crate) fn is_open(
        &mut self,
        alloc: Global,
        call: &Request,
        ops: &Ops,
    ) -> Result<bool, OutOfMemory>
        ensures harvested { OnOk result (Harvests (⟦<Ops as Listing>⟧.operations ops.now) (node_of self.old.desk.host) (node_of self.new.desk.host)) }
        ensures pending { IfOk result (λ pends. pends ≡ true → IsOpen (node_of self.new.desk.host) call.now.name call.now.call) }
    {
        let all = harvest_to(alloc, &mut self.desk, call, ops)?;
        if all {
            return Ok(false);
        }
        Ok(self.desk.host().result(call.name(), call.call()).is_none())
    }

    // Whether a call is, where there is one.
    fn some_is_open(
        &mut self,
        alloc: Global,
        call: Option<&Request>,
        ops: &Ops,
    ) -> Result<bool, OutOfMemory>
        ensures harvested { OnOk result (Harvests (⟦<Ops as Listing>⟧.operations ops.now) (node_of self.old.desk.host) (node_of self.new.desk.host)) }
        ensures pending { IfOk result (λ pends. pends ≡ true → (c : RequestView) × (option_copied call.entry ≡ Some c) × IsOpen (node_of self.new.desk.host) c.name c.call) }
    {
        match call {
            None => Ok(false),
            Some(call) => self.is_open(alloc, call, ops),
        }
    }

    /// Whether that of a request of one of these words is.
    pub(crate) fn one_is_open(
        &mut self,
        alloc: Global,
        requests: &BTreeMap<Word, Request>,
        words: &[Word],
        ops: &Ops,
    ) -> Result<bool, OutOfMemory>
        ensures harvested { OnOk result (Harvests (⟦<Ops as Listing>⟧.operations ops.now) (node_of self.old.desk.host) (node_of self.new.desk.host)) }
        ensures pending { IfOk result (λ pends. pends ≡ true → OneIsOpen (node_of self.new.desk.host) (requests_of call_of requests.now) words.now) }
    {
        for word in words {
            let pends = self.some_is_open(alloc, requests.get(word), ops)?;
            if pends {
                return Ok(true);
            }
        }
        Ok(false)
    }

    /// Drops the posts that every member has harvested, of each context that it looks at, by what its board knows of that. It
    /// answers whether there were any. Contexts that are dead then are looked at no more.
    pub(crate) fn prune(&mut self) -> bool
        ensures { (operations : List Operation) → KeepsNode Alone operations (node_of self.old.desk.host) (node_of self.new.desk.host) }
    {
        let changed = prune_all(&mut self.desk, &self.contexts);
        if changed {
            let board = self.desk.host().board();
            self.contexts.retain(|name| !board.is_dead(name));
        }
        changed
    }
}

impl Carrier for RunDesk {
    ghost use Rattle.mpx_sim.specs.Carrying.{desk_terms, hears_more, hears_nothing, stays_told};

    type Communicator = Name;

    type Call = Request;

    ghost place = { call_of };

    ghost terms = { desk_terms };

    fn into_place(call: Request) -> (Name, u32) {
        call.into_parts()
    }

    fn post(
        &mut self,
        alloc: Global,
        _me: Proc,
        on: Option<&Name>,
        posting: &Posting,
        ops: &Ops,
    ) -> Result<Option<Request>, PostError> {
        self.posts.tries();
        let posted = attempt(alloc, &mut self.desk, on, posting, ops)?;
        self.posts.note(alloc, posted.name(), posted.call());
        match look_at_gathering(alloc, &mut self.contexts, &posted) {
            Ok(()) => Ok(Some(posted)),
            Err(_) => {
                drop(posted);
                Err(PostError::OutOfMemory)
            }
        }
    }

    fn is_told(
        &mut self,
        alloc: Global,
        _me: Proc,
        call: &Request,
        ops: &Ops,
    ) -> Result<bool, OutOfMemory> {
        harvest_to(alloc, &mut self.desk, call, ops)?;
        Ok(self.desk.host().result(call.name(), call.call()).is_some())
    }

    fn hear(
        &mut self,
        alloc: Global,
        _me: Proc,
        call: Request,
        ops: &Ops,
    ) -> Result<Heard<Request, Name>, OutOfMemory> {
        harvest_to(alloc, &mut self.desk, &call, ops)?;
        let Some(finished) = self.desk.host().result(call.name(), call.call()) else {
            return Ok(Heard::NotYet(call));
        };
        let outcome = finished.outcome.copy(alloc)?;
        self.desk.close(&call);
        told(alloc, call, outcome, &mut self.contexts)
    }

    fn known<'m>(&'m self, communicator: &'m Name, _ops: &Ops) -> Option<(&'m Name, &'m Birth)> {
        let birth = self.desk.host().board().birth(communicator)?;
        Some((communicator, birth))
    }

    fn is_closed(&mut self, _me: Proc, communicator: &Name, _ops: &Ops) -> bool {
        self.desk.host().has_freed(communicator)
    }

    ghost hears_nothing = { hears_nothing };

    ghost hears_more = { hears_more };

    ghost stays_told = { stays_told };
}

// What is told of a call with this outcome: its line, and the name of the communicator that it gave, which is looked at from now on.
fn told(
    alloc: Global,
    call: Request,
    outcome: Outcome,
    contexts: &mut Vec<Name>,
) -> Result<Heard<Request, Name>, OutOfMemory>
    ensures { IfOk result (λ heard. heard ≡ TellsCall (TellsOutcome call.name call.call outcome) (new_name outcome)) }
{
    let given = new_name(alloc, &outcome)?;
    look_at_given(alloc, contexts, &given)?;
    let (name, call) = call.into_parts();
    let line = Line::Told {
        name,
        call,
        outcome,
    };
    Ok(Heard::Told { line, given })
}

// The name of the communicator that a call gave, where it gave one.
fn new_name(alloc: Global, outcome: &Outcome) -> Result<Option<Name>, OutOfMemory>
    ensures { IfOk result (λ name. name ≡ new_name outcome.now) }
{
    match outcome {
        Outcome::NewComm { name, .. } => Ok(Some(name.copy(alloc)?)),
        Outcome::Nothing => Ok(None),
        Outcome::Absent => Ok(None),
        Outcome::Items(_) => Ok(None),
        Outcome::Null => Ok(None),
        Outcome::Fault(_) => Ok(None),
    }
}

// The call of a statement that posts, on what its word is bound to, or the refusal.
fn attempt(
    alloc: Global,
    desk: &mut Desk<Node>,
    on: Option<&Name>,
    posting: &Posting,
    ops: &Ops,
) -> Result<Request, PostError>
    ensures { Tries (tried_on (⟦<Ops as Listing>⟧.operations ops.now) posting.now (option_copied on.entry) (node_of desk.old.host)) (call_in result) (node_of desk.new.host) }
{
    let Some(on) = on else {
        return Err(PostError::NotMember);
    };
    match gathering_of(alloc, desk, on, posting)? {
        None => post_there(alloc, desk, on, posting, ops),
        Some(gathering) => post_there(alloc, desk, &gathering, posting, ops),
    }
}

// The call of a statement that posts, on the context of this name, or the refusal.
fn post_there(
    alloc: Global,
    desk: &mut Desk<Node>,
    name: &Name,
    posting: &Posting,
    ops: &Ops,
) -> Result<Request, PostError>
    ensures { Tries (tried_post name.now (checked_on (⟦<Ops as Listing>⟧.operations ops.now) (node_of desk.old.host) name.now (draft_of posting.now)) (node_of desk.old.host)) (call_in result) (node_of desk.new.host) }
{
    let Ok(draft) = posting.draft() else {
        return Err(PostError::OutOfMemory);
    };
    desk.post_by_name(alloc, name, draft, ops)
}

// The gathering that a statement opens below its communicator, where it opens one.
fn gathering_of(
    alloc: Global,
    desk: &mut Desk<Node>,
    on: &Name,
    posting: &Posting,
) -> Result<Option<Name>, PostError>
    ensures { IsContext on.now (gathers_of posting.now) (context_in on.now result) (node_of desk.old.host) (node_of desk.new.host) }
{
    match posting {
        Posting::CreateGroup { tag, ranks, .. } => {
            let gathering = desk.open_gathering_by_name(alloc, on, *tag, ranks.as_slice())?;
            Ok(Some(gathering))
        }
        _ => Ok(None),
    }
}

// Stores the results of a call and of those before it on its context, as far as they can be had. It answers whether all are stored.
fn harvest_to(
    alloc: Global,
    desk: &mut Desk<Node>,
    call: &Request,
    ops: &Ops,
) -> Result<bool, OutOfMemory>
    ensures harvested { OnOk result (Harvests (⟦<Ops as Listing>⟧.operations ops.now) (node_of desk.old.host) (node_of desk.new.host)) }
    ensures last { IfOk result (λ all. all ≡ false → has_next (node_of desk.new.host) call.now.name ≡ false) }
{
    desk.harvest_to(alloc, call, ops)
}

// Stores the results of a context until no further one can be had.
fn harvest_all(
    alloc: Global,
    desk: &mut Desk<Node>,
    name: &Name,
    ops: &Ops,
) -> Result<(), OutOfMemory>
    ensures { OnOk result (Harvests (⟦<Ops as Listing>⟧.operations ops.now) (node_of desk.old.host) (node_of desk.new.host)) }
{
    desk.harvest_all(alloc, name, ops)
}

// Drops on each context what all members have harvested. It answers whether there was anything.
fn prune_all(desk: &mut Desk<Node>, contexts: &[Name]) -> bool
    ensures { (operations : List Operation) → KeepsNode Alone operations (node_of desk.old.host) (node_of desk.new.host) }
{
    let mut changed = false;
    for name in contexts {
        let pruned = prune_on(desk, name);
        changed |= pruned;
    }
    changed
}

// Drops what every member has harvested, where that is more than is dropped. Where it is past a free, the context is dead then, whatever
// others had dropped before.
fn prune_on(desk: &mut Desk<Node>, name: &Name) -> bool
    ensures { (operations : List Operation) → KeepsNode Alone operations (node_of desk.old.host) (node_of desk.new.host) }
{
    desk.prune_to_floor(name)
}
