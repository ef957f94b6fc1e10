//! One process, and its steps.
ghost use Rattle.std.specs.Prelude.{◌≡◌, ◌<◌, ◌≤◌, [], None, OnOk, OnErr, IfOk, is_some};
ghost use Rattle.std.specs.Option.{option_copied};
ghost use Rattle.mpx_post.specs.Drafts.{most_calls, refusal_of};
ghost use Rattle.mpx_board.specs.Looks.{look, parts_of};
ghost use Rattle.mpx_node.specs.Keeping.{IsKept, IsKept-prop};

use crate::finished::Finished;
use crate::opened::{Opened, opened_on};
use crate::opening::{open, store_and_open};
use crate::results::{children_on, finished, has_result, prepared_harvest};
use crate::starting::{board_at_start, opened_at_start, prepared_gathering};
use join_core::OutOfMemory;
use mpx_birth::Birth;
use mpx_board::Board;
use mpx_format::Kept;
use mpx_group::Proc;
use mpx_name::Name;
use mpx_num::{Listing, Ops};
use mpx_post::{At, Draft, Gathering, PostError};
use std::alloc::Global;
use std::collections::BTreeMap;

/// One process. The first `ranks` processes are the members of `world`, the others relays, which only carry boards.
/// What processes acknowledge is also kept as frames spell it.
#[derive(Debug, Drop)]
pub struct Node {
    pub(crate) me: Proc,
    pub(crate) processes: u8,
    pub(crate) board: Board,
    pub(crate) opened: BTreeMap<Name, Opened>,
    pub(crate) kept: Kept,
    ghost some: { 0 < processes },
    ghost few: { processes ≤ 64 },
    ghost kept_right: { IsKept kept.of.items (parts_of board).1 } by { IsKept-prop kept.of.items (parts_of board).1 },
}

/// What a harvest came to.
#[derive(Clone, Copy, Debug, PartialEq, Eq)]
pub enum Harvest {
    /// The call with this number is done.
    Done(u32),
    /// The next call isn't posted here, or a member's post of it isn't on the board.
    NotYet,
    /// The process has not opened the context.
    NotOpened,
}

/// Drops nodes. A crate that drops one by itself proves once more how each of its parts is dropped; one that calls this doesn't.
pub fn drop_nodes(nodes: Vec<Node>) {
    drop(nodes);
}

impl Node {
    ghost use Rattle.mpx_node.specs.Nodes.{Opens, Posts, add_result, NodeView, start_node, checked_on, children_on, gathering_name, gathers_on, next_result, open_gathering_node, posted_on, result_on, front_on, freed_on};
    ghost use Rattle.mpx_node.specs.Shown.{node_of};
    ghost use Rattle.mpx_node.specs.Opened.{HasUnfinished};
    ghost use Rattle.mpx_node.specs.Harvests.{Harvests};

    /// The process `me` of `processes`, of which the first `ranks` are the world's members, before any post: its board has just the
    /// birth of the world, which a rank has opened. There are 1 rank or more and 64 processes at most, and `me` is one of them.
    pub fn new(alloc: Global, me: Proc, ranks: u8, processes: u8) -> Result<Node, OutOfMemory>
        requires some { 0 < ranks }
        requires ranks { ranks ≤ processes }
        requires few { processes ≤ 64 }
        requires me { me < processes }
        ensures { IfOk result (λ node. node_of node ≡ start_node me ranks processes) }
    {
        let board = board_at_start(alloc, ranks)?;
        match opened_at_start(alloc, me, ranks) {
            Ok(opened) => Ok(Node {
                me,
                processes,
                board,
                opened,
                kept: Kept::new(alloc),
            }),
            Err(e) => {
                drop(board);
                Err(e)
            }
        }
    }

    /// Posts the draft as the next call on a context and gives its number, from 0 on. `ops` are the job's own operations. A context that
    /// isn't opened here is refused as `NotMember`, one on which the process has posted a free as `Closed`, and one whose birth isn't known
    /// as `NotMember`; then the refusals are those of [`Draft::check`], before anything else. An `Err` changes nothing.
    pub fn post(
        &mut self,
        alloc: Global,
        name: &Name,
        draft: Draft,
        ops: &Ops,
    ) -> Result<u32, PostError>
        ensures { Posts name.now (checked_on (⟦<Ops as Listing>⟧.operations ops.now) (node_of self.old) name.now draft) result (node_of self.old) (node_of self.new) }
    {
        let Some(opened) = self.opened.get_mut(name) else {
            drop(draft);
            return Err(PostError::NotMember);
        };
        if opened.freed {
            drop(draft);
            return Err(PostError::Closed);
        }
        let Some(birth) = self.board.birth(name) else {
            drop(draft);
            return Err(PostError::NotMember);
        };
        let call = opened.posted;
        let post = draft.check_call(alloc, birth, self.me, name, call, false, ops)?;
        let frees = post.is_free();
        match self.board.join_post(alloc, name, call, self.me, post) {
            Ok(()) => {
                opened.posted = call + 1;
                opened.freed = frees;
                Ok(call)
            }
            Err(_) => Err(PostError::OutOfMemory),
        }
    }

    /// Why [`Node::post`] would refuse the draft, where it would. It takes no memory.
    pub fn refusal(&self, name: &Name, draft: &Draft, ops: &Ops) -> Option<PostError>
        ensures { result ≡ refusal_of (checked_on (⟦<Ops as Listing>⟧.operations ops.now) (node_of self.now) name.now draft.now) }
    {
        let Some(opened) = opened_on(&self.opened, name) else {
            return Some(PostError::NotMember);
        };
        if opened.freed {
            return Some(PostError::Closed);
        }
        let Some(birth) = self.board.birth(name) else {
            return Some(PostError::NotMember);
        };
        draft.refusal(birth, self.me, &At::on(name, opened.posted, false), ops)
    }

    /// Stores the result of the next call on a context, raises the own front, tells how the communicators came to be that
    /// the call makes, and opens the one that has the process, where that call is posted here and the birth and all
    /// members' posts of it are on the board. Elsewhere it answers [`Harvest::NotYet`] or
    /// [`Harvest::NotOpened`], takes no memory and is no `Err`. An `Err` changes nothing.
    pub fn harvest(&mut self, alloc: Global, name: &Name, ops: &Ops) -> Result<Harvest, OutOfMemory>
        ensures { Harvests (⟦<Ops as Listing>⟧.operations ops.now) (is_some ((node_of self.old).opened name.now)) name.now (next_result (⟦<Ops as Listing>⟧.operations ops.now) (node_of self.old) name.now)
            result (node_of self.old) (node_of self.new) }
    {
        let Some(opened) = opened_on(&self.opened, name) else {
            return Ok(Harvest::NotOpened);
        };
        let call = opened.front();
        if call >= opened.posted {
            return Ok(Harvest::NotYet);
        }
        if !has_result(&self.board, name, self.me, call) {
            return Ok(Harvest::NotYet);
        }
        match finished(alloc, &self.board, name, self.me, call, ops)? {
            None => Ok(Harvest::NotYet),
            Some(finished) => {
                self.add_result(alloc, name, call, finished, ops)?;
                Ok(Harvest::Done(call))
            }
        }
    }

    /// Opens the gathering with this tag of the members of the parent with these ranks, in this order, and gives its name
    /// (`MPI_COMM_CREATE_GROUP`, MPI 4.1 section 7.4.2). What is open already stays as it is. A parent that isn't opened
    /// here is refused as `NotMember`, one on which the process has posted a free as `Closed`, and one whose birth isn't known
    /// as `NotMember`; then the refusals are those of [`Gathering::check`]. An `Err` changes nothing.
    pub fn open_gathering(
        &mut self,
        alloc: Global,
        parent: &Name,
        tag: i128,
        ranks: &[i128],
    ) -> Result<Name, PostError>
        ensures { Opens parent.now (gathers_on (node_of self.old) parent.now tag ranks.now) result (node_of self.old) (node_of self.new) }
    {
        let Some(opened) = opened_on(&self.opened, parent) else {
            return Err(PostError::NotMember);
        };
        if opened.freed {
            return Err(PostError::Closed);
        }
        let Some(birth) = self.board.birth(parent) else {
            return Err(PostError::NotMember);
        };
        let depth = parent.depth();
        let gathering = Gathering::check(alloc, birth, self.me, depth, false, tag, ranks)?;
        match self.gather(alloc, parent, &gathering) {
            Ok(name) => Ok(name),
            Err(_) => Err(PostError::OutOfMemory),
        }
    }

    /// The result of a call on a context that was harvested, kept until [`Node::forget`] lets it go; none of one that wasn't, and
    /// none of a call below [`Node::forgotten`].
    pub fn result(&self, name: &Name, call: u32) -> Option<&Finished>
        ensures { option_copied result ≡ result_on (node_of self.now) name.now call }
    {
        match opened_on(&self.opened, name) {
            None => None,
            Some(opened) => opened.result(call),
        }
    }

    /// How many calls the process has posted on a context: 0 where it hasn't opened it.
    pub fn posted(&self, name: &Name) -> u32
        ensures { result ≡ posted_on (node_of self.now) name.now }
    {
        match opened_on(&self.opened, name) {
            None => 0,
            Some(opened) => opened.posted,
        }
    }

    /// How many calls the process has harvested on a context: 0 where it hasn't opened it.
    pub fn front(&self, name: &Name) -> u32
        ensures { result ≡ front_on (node_of self.now) name.now }
    {
        match opened_on(&self.opened, name) {
            None => 0,
            Some(opened) => opened.front(),
        }
    }

    /// Whether the process has posted a free on a context.
    pub fn has_freed(&self, name: &Name) -> bool
        ensures { result ≡ freed_on (node_of self.now) name.now }
    {
        match opened_on(&self.opened, name) {
            None => false,
            Some(opened) => opened.freed,
        }
    }

    /// The process's board.
    pub fn board(&self) -> &Board
        ensures { look result.now ≡ (node_of self.now).board }
    {
        &self.board
    }

    // Stores the result of the next call on an opened context, tells of it, and opens what the call made. An `Err` changes
    // nothing.
    fn add_result(
        &mut self,
        alloc: Global,
        name: &Name,
        call: u32,
        finished: Finished,
        ops: &Ops,
    ) -> Result<(), OutOfMemory>
        requires unfinished { HasUnfinished (node_of self.old).opened name.now }
        requires front { call ≡ front_on (node_of self.old) name.now }
        requires call { call < most_calls }
        ensures ok { OnOk result (node_of self.new
            ≡ add_result name.now finished (children_on (⟦<Ops as Listing>⟧.operations ops.now) (node_of self.old).board name.now call) (node_of self.old)) }
        ensures err { OnErr result (node_of self.new ≡ node_of self.old) }
    {
        let made = match children_on(alloc, &self.board, name, call, ops) {
            Ok(made) => made,
            Err(e) => {
                drop(finished);
                return Err(e);
            }
        };
        if made.as_slice().is_empty() {
            return self.add_plain_result(alloc, name, call, finished);
        }
        self.add_made_result(alloc, name, call, finished, made.as_slice())
    }

    // Stores the result of a call that makes these communicators, adds their births, and opens those of which the process is a member:
    // the part with the births is made ready first, and joined without memory once they are opened.
    fn add_made_result(
        &mut self,
        alloc: Global,
        name: &Name,
        call: u32,
        finished: Finished,
        made: &[(Name, Birth)],
    ) -> Result<(), OutOfMemory>
        requires unfinished { HasUnfinished (node_of self.old).opened name.now }
        requires front { call ≡ front_on (node_of self.old) name.now }
        requires call { call < most_calls }
        ensures ok { OnOk result (node_of self.new ≡ add_result name.now finished made.now (node_of self.old)) }
        ensures err { OnErr result (node_of self.new ≡ node_of self.old) }
    {
        let prepared = match prepared_harvest(
            alloc,
            &mut self.board,
            name,
            self.me,
            call + 1,
            made,
        ) {
            Ok(prepared) => prepared,
            Err(e) => {
                drop(finished);
                return Err(e);
            }
        };
        match store_and_open(&mut self.opened, alloc, self.me, name, finished, made) {
            Ok(()) => {
                self.board.put_prepared(prepared);
                Ok(())
            }
            Err(e) => {
                drop(prepared);
                Err(e)
            }
        }
    }

    // Stores the result of a call that makes no communicator: the front is raised in place.
    fn add_plain_result(
        &mut self,
        alloc: Global,
        name: &Name,
        call: u32,
        finished: Finished,
    ) -> Result<(), OutOfMemory>
        requires unfinished { HasUnfinished (node_of self.old).opened name.now }
        requires front { call ≡ front_on (node_of self.old) name.now }
        requires call { call < most_calls }
        ensures ok { OnOk result (node_of self.new ≡ add_result name.now finished [] (node_of self.old)) }
        ensures err { OnErr result (node_of self.new ≡ node_of self.old) }
    {
        let Some(opened) = self.opened.get_mut(name) else {
            unreachable!();
        };
        if opened.results.reserve(1).is_err() {
            drop(finished);
            return Err(OutOfMemory);
        }
        match self.board.raise_front(alloc, name, self.me, call + 1) {
            Ok(()) => {
                opened.results.push_back_reserved(finished);
                Ok(())
            }
            Err(e) => {
                drop(finished);
                Err(e)
            }
        }
    }

    // Opens a gathering, and tells of it. An `Err` changes nothing.
    fn gather(
        &mut self,
        alloc: Global,
        parent: &Name,
        gathering: &Gathering,
    ) -> Result<Name, OutOfMemory>
        ensures ok { IfOk result (λ name. (name ≡ gathering_name parent.now gathering.now)
            × (node_of self.new ≡ open_gathering_node parent.now gathering.now (node_of self.old))) }
        ensures err { OnErr result (node_of self.new ≡ node_of self.old) }
    {
        let Ok(name) = parent.gathering(alloc, gathering.tag(), gathering.members()) else {
            return Err(OutOfMemory);
        };
        let prepared = match prepared_gathering(alloc, &mut self.board, &name, gathering) {
            Ok(prepared) => prepared,
            Err(e) => {
                drop(name);
                return Err(e);
            }
        };
        match open(&mut self.opened, alloc, &name) {
            Ok(_) => {
                self.board.put_prepared(prepared);
                Ok(name)
            }
            Err(e) => {
                drop(prepared);
                drop(name);
                Err(e)
            }
        }
    }
}
