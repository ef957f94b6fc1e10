//! What a process would post, and whether it may.
ghost use Rattle.std.specs.Prelude.{◌≡◌, ◌<◌, ◌≤◌, ◌&&◌, cond, None, Some, length, true, IfOk, IfErr, OnOk, Err};
ghost use Rattle.std.specs.List.{list_all};
ghost use Rattle.std.specs.Option.{option_or};
ghost use Rattle.mpx_num.specs.Operations.{fits};
ghost use Rattle.mpx_kind.specs.Kinds.{fields_of, kind_of};
ghost use Rattle.mpx_post.specs.Seats.{lacks_topology};
ghost use Rattle.mpx_birth.specs.Topologies.{most_neighbours};
ghost use Rattle.mpx_post.specs.Drafts.{empty_draft, is_count, naturals, making_of, graph_of, Checks, refusal_of, at, given_by, has_making, most_calls, numbers_refusal, checked, checked_in, is_rank as is_rank_of, is_drafted_root, drafted_seat, sent_counts, received_counts, unless};
ghost use Rattle.mpx_post.specs.declared.draft.PostError.TheVariants.{TooManyItems};
ghost use Rattle.mpx_post.specs.Posts.{most_counts};

use crate::counts::{Counts, are_counts};
use crate::drafted_edges::DraftedGraph;
use crate::making::Making;
use crate::making_fields::given_making;
use crate::post::Post;
use crate::post_fields::{given_counts, given_items, given_op, given_root, spelled, where_had};
use join_core::OutOfMemory;
use mpx_birth::Birth;
use mpx_group::Proc;
use mpx_kind::{Call, Fields, Seat};
use mpx_name::Name;
use mpx_num::{Listing, Numbers, Op, Ops, Ty, op_fits};
use std::alloc::Global;
use thiserror::Error;

/// What a process would post, with numbers that nobody has checked yet. The fields that the kind hasn't are not looked at.
#[derive(Debug, Drop)]
pub struct Draft {
    /// The kind of call, and its mode.
    pub call: Call,
    /// The rank of the root.
    pub root: i128,
    pub op: Op,
    /// The type of the items.
    pub ty: Ty,
    /// How many items each block that is sent has.
    pub scounts: Numbers,
    /// How many items each block that is received has.
    pub rcounts: Numbers,
    /// The numbers of the items that are sent.
    pub items: Numbers,
    /// Which of the new communicators the member wants, none for `MPI_UNDEFINED`.
    pub colour: Option<i128>,
    /// The key by which the members of a new communicator are ordered.
    pub key: i128,
    /// The ranks of a new communicator's members.
    pub group: Numbers,
    /// The edges of a new graph, or the caller's neighbours in it; none stands for no edges, and none weighted.
    pub graph: Option<DraftedGraph>,
}

/// Where a post would stand.
#[derive(Clone, Copy, Debug, PartialEq, Eq)]
pub struct At {
    /// The number of its call, from 0: how many calls are made before it.
    pub call: u32,
    /// How many steps the name of its context has.
    pub depth: usize,
    /// Whether the caller has posted a free on its context, and posts no more there (`MPI_COMM_FREE`, MPI 4.1 section 7.4.3).
    pub closed: bool,
    /// Whether its context is a gathering, on which only calls of `create_group` are made.
    pub gathering: bool,
}

impl At {
    /// The call with this number on this context, where the caller has posted a free or not.
    pub fn on(name: &Name, call: u32, closed: bool) -> At
        ensures { result ≡ at name.now call closed }
    {
        At {
            call,
            depth: name.depth(),
            closed,
            gathering: name.is_gathering(),
        }
    }
}

/// Why a post is refused. Where several reasons hold, it is the first of them in this order.
#[derive(Clone, Copy, Debug, PartialEq, Eq, Error)]
pub enum PostError {
    /// The process is no member of the communicator.
    NotMember,
    /// The process has posted a free there.
    Closed,
    /// The root is no rank of the communicator.
    RootOutOfRange,
    /// The operation isn't for the type.
    OpNotForType,
    /// A list of counts has another length than the kind asks for.
    CountsLength,
    /// There are more or fewer items than the counts tell, or an item of two numbers is cut.
    ItemsLength,
    /// A number is outside its type.
    ItemOutOfRange,
    /// There are over 4,096 items, or a count is outside 0 to 4,096.
    TooManyItems,
    /// The communicator has no topology, along whose edges the kind's calls go.
    NoTopology,
    /// 4,294,967,295 calls are made.
    CallsUsedUp,
    /// The name of a new communicator would have over 8 steps.
    DepthUsedUp,
    /// A rank of a group is none of the communicator or stands twice; for `create_group` also a list without the caller.
    /// Calls of `create_group` are made on gatherings, and no others.
    BadGroup,
    /// An edge goes from or to no rank of the communicator, or its weight is out of its limit.
    BadEdge,
    /// There are over 512 edges.
    TooManyEdges,
    /// A tag, a colour or a key is out of its limit.
    BadTag,
    /// A growth was refused.
    OutOfMemory,
}

/// So many calls may be made on a communicator.
pub const MOST_CALLS: u32 = 4_294_967_295;

impl Draft {
    /// The draft of this call that tells nothing else: it has no items, no counts and no graph. It takes no memory.
    pub fn of(call: Call) -> Draft
        ensures { result ≡ empty_draft call }
    {
        Draft {
            call,
            root: 0,
            op: Op::Sum,
            ty: Ty::I8,
            scounts: Numbers::none(),
            rcounts: Numbers::none(),
            items: Numbers::none(),
            colour: None,
            key: 0,
            group: Numbers::none(),
            graph: None,
        }
    }

    /// The post of this draft, or the first reason why the process may not post it as its next call.
    pub fn check(
        self,
        alloc: Global,
        birth: &Birth,
        me: Proc,
        at: &At,
        ops: &Ops,
    ) -> Result<Post, PostError>
        ensures { Checks (checked (⟦<Ops as Listing>⟧.operations ops.now) birth.now me at.now self) result }
    {
        match birth.rank_of(me) {
            None => Err(PostError::NotMember),
            Some(rank) => {
                if at.closed {
                    return Err(PostError::Closed);
                }
                if self.lacks_topology(birth) {
                    return Err(self.stray_refusal());
                }
                let seat = self.seat(birth, rank);
                let for_type = op_fits(self.op, self.ty, ops);
                self.check_in(alloc, &seat, at, for_type)
            }
        }
    }

    /// Checks the draft as the process's post to the call with this number on the context with this name, where the process has
    /// posted a free there or not: what [`Draft::check`] answers at that place. A number past the last gives no post.
    pub fn check_call(
        self,
        alloc: Global,
        birth: &Birth,
        me: Proc,
        name: &Name,
        call: u32,
        closed: bool,
        ops: &Ops,
    ) -> Result<Post, PostError>
        ensures value { Checks (checked (⟦<Ops as Listing>⟧.operations ops.now) birth.now me (at name.now call closed) self) result }
        ensures room { OnOk result (call < most_calls) }
    {
        self.check(alloc, birth, me, &At::on(name, call, closed), ops)
    }

    /// The first reason why [`Draft::check`] would refuse this draft. It takes no memory.
    pub fn refusal(&self, birth: &Birth, me: Proc, at: &At, ops: &Ops) -> Option<PostError>
        ensures { result ≡ refusal_of (checked (⟦<Ops as Listing>⟧.operations ops.now) birth.now me at.now self.now) }
    {
        match birth.rank_of(me) {
            None => Some(PostError::NotMember),
            Some(rank) => {
                if at.closed {
                    return Some(PostError::Closed);
                }
                if self.lacks_topology(birth) {
                    return Some(self.stray_refusal());
                }
                let seat = self.seat(birth, rank);
                let for_type = op_fits(self.op, self.ty, ops);
                self.refusal_in(&seat, at, for_type)
            }
        }
    }

    /// A copy, which shares the lists of numbers, but for those of a graph.
    pub fn copy(&self) -> Result<Draft, OutOfMemory>
        ensures { IfOk result (λ copied. copied ≡ self.now) }
    {
        let (scounts, rcounts) = copied_pair(&self.scounts, &self.rcounts)?;
        let (items, group) = copied_pair(&self.items, &self.group)?;
        let graph = copied(&self.graph)?;
        Ok(Draft {
            call: self.call,
            root: self.root,
            op: self.op,
            ty: self.ty,
            scounts,
            rcounts,
            items,
            colour: self.colour,
            key: self.key,
            group,
            graph,
        })
    }

    // Whether its calls go along edges, and the communicator has none.
    fn lacks_topology(&self, birth: &Birth) -> bool
        ensures { result ≡ lacks_topology birth.now.topology (kind_of self.now.call) }
    {
        self.call.kind().needs_topology() & birth.topology().is_none()
    }

    // What the numbers of its counts depend on, as the draft of the member with this rank.
    fn seat(&self, birth: &Birth, rank: u8) -> Seat
        ensures value { result ≡ drafted_seat birth.now rank self.now }
        ensures size { result.size ≤ 64 }
        ensures sources { result.indegree ≤ most_neighbours }
        ensures destinations { result.outdegree ≤ most_neighbours }
    {
        Seat {
            size: birth.members().len(),
            at_root: self.is_root(rank),
            indegree: birth.indegree(rank),
            outdegree: birth.outdegree(rank),
        }
    }

    // The post of this draft, whose operation is for its type or not, or why the member may not post it.
    fn check_in(
        self,
        alloc: Global,
        seat: &Seat,
        at: &At,
        for_type: bool,
    ) -> Result<Post, PostError>
        requires op { for_type ≡ true → fits self.op self.ty ≡ true }
        requires size { seat.now.size ≤ 64 }
        requires sources { seat.now.indegree ≤ most_neighbours }
        requires destinations { seat.now.outdegree ≤ most_neighbours }
        ensures { Checks (checked_in for_type seat.now at.now self) result }
    {
        if let Some(refusal) = self.shape_refusal(seat, for_type) {
            return Err(refusal);
        }
        let refusal = self.place_refusal(seat.size, at);
        self.posted(alloc, refusal)
    }

    // Why the member may not post this draft, whose operation is for its type or not.
    fn refusal_in(&self, seat: &Seat, at: &At, for_type: bool) -> Option<PostError>
        requires size { seat.now.size ≤ 64 }
        requires sources { seat.now.indegree ≤ most_neighbours }
        requires destinations { seat.now.outdegree ≤ most_neighbours }
        ensures { result ≡ refusal_of (checked_in for_type seat.now at.now self.now) }
    {
        if let Some(refusal) = self.shape_refusal(seat, for_type) {
            return Some(refusal);
        }
        if let Some(refusal) = self.numbers_refusal() {
            return Some(refusal);
        }
        self.place_refusal(seat.size, at)
    }

    // The post of this draft, or why its numbers are none of a post, or else this refusal.
    pub(crate) fn posted(self, alloc: Global, refusal: Option<PostError>) -> Result<Post, PostError>
        requires root { cond (fields_of (kind_of self.call)).root (is_rank_of 64 self.root) true ≡ true }
        requires op { cond (fields_of (kind_of self.call)).op (fits self.op self.ty) true ≡ true }
        requires sent { length (sent_counts self) ≤ most_counts }
        requires received { length (received_counts self) ≤ most_counts }
        requires making { refusal ≡ None → has_making (fields_of (kind_of self.call)).makes self ≡ true }
        ensures { Checks (unless (option_or (numbers_refusal self) refusal) (given_by self)) result }
    {
        let (kind, mode) = (self.call.kind(), self.call.mode());
        let fields = kind.fields();
        let root = given_root(fields.root, self.root);
        let op = given_op(fields.op, self.op);
        let ty = self.ty;
        // before the items are moved out of the draft
        let rest = self.rest(alloc, &fields, refusal);
        match given_items(fields.items, ty, self.into_items()) {
            Ok(items) => match rest {
                Ok((scounts, rcounts, making)) => match spelled(alloc, items) {
                    Ok(items) => Ok(Post::new(
                        kind, mode, root, op, scounts, rcounts, items, making,
                    )),
                    Err(_) => Err(PostError::OutOfMemory),
                },
                Err(refusal) => Err(refusal),
            },
            Err(refusal) => Err(refusal),
        }
    }

    // The numbers of the items that are sent.
    fn into_items(self) -> Numbers
        ensures { result ≡ self.items }
    {
        self.items
    }

    // The counts of the post, and what it says of a new communicator; or why its counts are none, or else this refusal.
    fn rest(
        &self,
        alloc: Global,
        fields: &Fields,
        refusal: Option<PostError>,
    ) -> Result<(Counts, Counts, Making), PostError>
        requires fields { fields.now ≡ fields_of (kind_of self.now.call) }
        requires sent { length (sent_counts self.now) ≤ most_counts }
        requires received { length (received_counts self.now) ≤ most_counts }
        requires making { refusal ≡ None → has_making (fields_of (kind_of self.now.call)).makes self.now ≡ true }
        ensures ok { IfOk result (λ rest.
            ((list_all is_count (sent_counts self.now) && list_all is_count (received_counts self.now)) ≡ true)
            × (refusal ≡ None)
            × (rest.0 ≡ naturals (sent_counts self.now))
            × (rest.1 ≡ naturals (received_counts self.now))
            × (rest.2 ≡ making_of (fields_of (kind_of self.now.call)).makes self.now.colour self.now.key self.now.group (graph_of self.now))) }
        ensures err { IfErr result (λ e. Checks
            (unless (cond (list_all is_count (sent_counts self.now) && list_all is_count (received_counts self.now)) refusal (Some TooManyItems)) (given_by self.now))
            (Err e)) }
    {
        let sent = self.sent_counts(fields);
        let received = self.received_counts(fields);
        if !(are_counts(sent) & are_counts(received)) {
            return Err(PostError::TooManyItems);
        }
        if let Some(refusal) = refusal {
            return Err(refusal);
        }
        let group = self.group.as_slice();
        let (colour, key) = (self.colour, self.key);
        match given_making(alloc, fields.makes, colour, key, group, &self.graph) {
            Ok(making) => match given_counts(alloc, sent, received) {
                Ok((scounts, rcounts)) => Ok((scounts, rcounts, making)),
                Err(_) => Err(PostError::OutOfMemory),
            },
            Err(_) => Err(PostError::OutOfMemory),
        }
    }

    fn is_root(&self, rank: u8) -> bool
        ensures { result ≡ is_drafted_root rank self.now }
    {
        self.call.kind().fields().root & (self.root == i128::from(rank))
    }

    pub(crate) fn sent_counts(&self, fields: &Fields) -> &[i128]
        requires fields { fields.now ≡ fields_of (kind_of self.now.call) }
        ensures { result.now ≡ sent_counts self.now }
    {
        where_had(fields.scounts.is_had(), &self.scounts)
    }

    pub(crate) fn received_counts(&self, fields: &Fields) -> &[i128]
        requires fields { fields.now ≡ fields_of (kind_of self.now.call) }
        ensures { result.now ≡ received_counts self.now }
    {
        where_had(fields.rcounts.is_had(), &self.rcounts)
    }
}

// Both lists once more, with shared numbers.
fn copied_pair(first: &Numbers, second: &Numbers) -> Result<(Numbers, Numbers), OutOfMemory>
    ensures { IfOk result (λ copied. copied ≡ (first.now, second.now)) }
{
    let first = first.copy()?;
    let second = second.copy()?;
    Ok((first, second))
}

// A copy of the graph, where there is one.
fn copied(graph: &Option<DraftedGraph>) -> Result<Option<DraftedGraph>, OutOfMemory>
    ensures { IfOk result (λ copied. copied ≡ graph.now) }
{
    match graph {
        None => Ok(None),
        Some(graph) => Ok(Some(graph.copy()?)),
    }
}
