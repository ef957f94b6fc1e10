//! A rank's attempt to post what a statement says, over the port that it shares with its gossip.
ghost use Rattle.std.specs.Prelude.{◌≡◌, ◌+◌};
ghost use Rattle.mpx_statement.specs.Statements.{draft_of};
ghost use Rattle.mpx_shared.specs.LawfulPorts.{IsNext};
ghost use Rattle.mpx_threads.specs.ToldCalls.{CanPost, IsNextGathered, IsNextIn, PostsAs, on_context, on_either, on_gathering};

use crate::looks::Looks;
use mpx_name::Name;
use mpx_num::{Listing, Ops};
use mpx_post::PostError;
use mpx_shared::{PortLock, Poster, SharedPort, Ticket};
use mpx_statement::Posting;
use std::alloc::Global;
use std::sync::Wait;

/// What a statement says, and the port over which it is to be posted.
#[derive(Drop)]
pub(crate) struct Attempt<'a, L: PortLock, R: Wait> {
    pub(crate) rt: &'a R,
    pub(crate) alloc: Global,
    pub(crate) port: &'a SharedPort<L>,
    pub(crate) posting: &'a Posting,
    pub(crate) ops: &'a Ops,
}

impl<'a, L: PortLock, R: Wait> Attempt<'a, L, R> {
    /// What the statement comes to on a context, once it isn't refused since the board doesn't know yet that the rank is a member: until
    /// then it looks.
    pub(crate) fn make(
        &self,
        looks: &Looks<'_>,
        poster: &mut Poster<L>,
        name: &Name,
    ) -> Result<Option<Ticket>, PostError>
        requires can { CanPost (⟦<Ops as Listing>⟧.operations self.now.ops.now) L.setup L.all L.parts }
        requires next { IsNextIn L.setup L.me (L.before + poster.old.share.amount) name.now self.now.posting.now }
        ensures { PostsAs L.setup L.me L.before name.now (on_either L.setup.operations L.me self.now.posting.now name.now) result poster.old.share.amount poster.new.share.amount }
    {
        for _look in 0..looks.count {
            let look = looks.begin();
            match self.make_now(poster, name)? {
                Some(ticket) => {
                    looks.has_posted();
                    return Ok(Some(ticket));
                }
                None => {}
            }
            if !looks.goes_on(self.rt, look) {
                return Ok(None);
            }
        }
        Ok(None)
    }

    // A post there, or on a gathering of its members.
    fn make_now(&self, poster: &mut Poster<L>, name: &Name) -> Result<Option<Ticket>, PostError>
        requires can { CanPost (⟦<Ops as Listing>⟧.operations self.now.ops.now) L.setup L.all L.parts }
        requires next { IsNextIn L.setup L.me (L.before + poster.old.share.amount) name.now self.now.posting.now }
        ensures { PostsAs L.setup L.me L.before name.now (on_either L.setup.operations L.me self.now.posting.now name.now) result poster.old.share.amount poster.new.share.amount }
    {
        match self.posting {
            Posting::CreateGroup { tag, ranks, .. } => {
                self.post_gathered(poster, name, tag, ranks.as_slice())
            }
            Posting::Call { .. } => self.post_on(poster, name),
            Posting::Start { .. } => self.post_on(poster, name),
            Posting::New { .. } => self.post_on(poster, name),
        }
    }

    // The next post on a context, by what the statement says. A rank is a member of the context: so a board that doesn't know that yet
    // means not now.
    fn post_on(&self, poster: &mut Poster<L>, name: &Name) -> Result<Option<Ticket>, PostError>
        requires can { CanPost (⟦<Ops as Listing>⟧.operations self.now.ops.now) L.setup L.all L.parts }
        requires next { IsNext L.setup L.me (L.before + poster.old.share.amount) name.now (draft_of self.now.posting.now) }
        ensures { PostsAs L.setup L.me L.before name.now (on_context L.setup.operations L.me self.now.posting.now name.now) result poster.old.share.amount poster.new.share.amount }
    {
        let Ok(draft) = self.posting.draft() else {
            return Err(PostError::OutOfMemory);
        };
        match self
            .port
            .post(self.rt, self.alloc, poster, name, draft, self.ops)
        {
            Ok(ticket) => Ok(Some(ticket)),
            Err(refusal) => {
                if refusal.is_no_member() {
                    return Ok(None);
                }
                Err(refusal)
            }
        }
    }

    // Opens the gathering of these ranks below a context, and posts there.
    fn post_gathered(
        &self,
        poster: &mut Poster<L>,
        parent: &Name,
        tag: &i128,
        ranks: &[i128],
    ) -> Result<Option<Ticket>, PostError>
        requires can { CanPost (⟦<Ops as Listing>⟧.operations self.now.ops.now) L.setup L.all L.parts }
        requires next { IsNextGathered L.setup L.me (L.before + poster.old.share.amount) parent.now tag.now ranks.now (draft_of self.now.posting.now) }
        ensures { PostsAs L.setup L.me L.before parent.now (on_gathering L.setup.operations L.me self.now.posting.now parent.now tag.now ranks.now) result poster.old.share.amount poster.new.share.amount }
    {
        match self
            .port
            .open_gathering(self.rt, self.alloc, poster, parent, *tag, ranks)
        {
            Ok(name) => self.post_on(poster, &name),
            Err(refusal) => {
                if refusal.is_no_member() {
                    return Ok(None);
                }
                Err(refusal)
            }
        }
    }
}
