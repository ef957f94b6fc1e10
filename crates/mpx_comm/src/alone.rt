//! A desk over a node alone, whose user carries the boards.
ghost use Rattle.std.specs.Prelude.{ℕ, ◌≡◌, ◌≢◌, ◌<◌, ◌≤◌, ◌+◌, ◌-◌, All, IfOk, OnOk, OnErr, false, map, nat_lt, true};
ghost use Rattle.mpx_board.specs.Boards.{IsBoardBelow, empty, join_all};
ghost use Rattle.mpx_board.specs.Changes.{pruned_on};
ghost use Rattle.mpx_board.specs.Looks.{look, parts_of};
ghost use Rattle.mpx_board.specs.Parts.{PartsView};
ghost use Rattle.mpx_format.specs.Decoding.{IsSpelled, decoded, shown};
ghost use Rattle.mpx_format.specs.Encoding.{length_told};
ghost use Rattle.mpx_delta.specs.Facts.{OnlyFactsOf};
ghost use Rattle.mpx_delta.specs.Pieces.{NoNeighboursFit};
ghost use Rattle.mpx_node.specs.Deltas.{AreLacked, LackFrames, SaysWhatItHas, lacking_on};
ghost use Rattle.mpx_node.specs.Harvests.{harvested};
ghost use Rattle.mpx_node.specs.Nodes.{Opens, StopsTaking, front_on, gathers_on, has_next, learn, learn_some, prune_part};
ghost use Rattle.mpx_node.specs.Settling.{Drops, HarvestsAll, WantsResult};
ghost use Rattle.mpx_request.specs.Harvested.{HarvestsNext};
ghost use Rattle.mpx_request.specs.Requests.{close};

use crate::desk::Desk;
use join_core::OutOfMemory;
use mpx_board::{Board, PruneError};
use mpx_delta::NewFrames;
use mpx_name::Name;
use mpx_node::{Harvest, Node};
use mpx_num::{Listing, Ops};
use mpx_post::{Draft, PostError};
use mpx_request::Request;
use mpx_rope::{Rope, RopeRef};
use std::alloc::Global;

/// What the user of a node alone does for it between the calls.
impl Desk<Node> {
    ghost use Rattle.mpx_node.specs.Shown.{node_of};
    ghost use Rattle.mpx_comm.specs.Desks.{DeskAsks};

    /// Posts the draft as the next call on the context of this name, as [`Desk::post`] does on a communicator: for who knows contexts by
    /// their names, as scripts do. An `Err` changes nothing.
    pub fn post_by_name(
        &mut self,
        alloc: Global,
        name: &Name,
        draft: Draft,
        ops: &Ops,
    ) -> Result<Request, PostError>
        ensures { DeskAsks (⟦<Ops as Listing>⟧.operations ops.now) node_of name.now draft result self.old self.new }
    {
        self.post_on(alloc, name, draft, ops)
    }

    /// Opens the gathering with this tag of the parent's members with these ranks, as [`Desk::open_gathering`] does, and gives its name. An
    /// `Err` changes nothing.
    pub fn open_gathering_by_name(
        &mut self,
        alloc: Global,
        parent: &Name,
        tag: i128,
        ranks: &[i128],
    ) -> Result<Name, PostError>
        ensures opens { Opens parent.now (gathers_on (node_of self.old.host) parent.now tag ranks.now) result (node_of self.old.host) (node_of self.new.host) }
        ensures requests { self.new.requests.keys ≡ self.old.requests.keys }
    {
        self.host.open_gathering(alloc, parent, tag, ranks)
    }

    /// Joins a part to the node's board, as [`Node::take`] does: an `Err` leaves a board between the old one and the join.
    pub fn take(&mut self, alloc: Global, part: &Board) -> Result<(), OutOfMemory>
        ensures ok { OnOk result (node_of self.new.host ≡ learn (look part.now) (node_of self.old.host)) }
        ensures err { OnErr result (StopsTaking (look part.now) (node_of self.old.host) (node_of self.new.host)) }
        ensures more { OnErr result (¬ (IsBoardBelow (look part.now) (node_of self.old.host).board)) }
        ensures requests { self.new.requests.keys ≡ self.old.requests.keys }
    {
        self.host.take(alloc, part)
    }

    /// Joins the board that a frame spells, as [`Node::take_rope`] does; that it spells one is the caller's condition. An `Err` leaves what
    /// it leaves there; a frame that tells nothing wants no memory.
    pub fn take_rope(&mut self, alloc: Global, frame: &RopeRef<'_>) -> Result<(), OutOfMemory>
        requires spelled { (parts : PartsView) × IsSpelled frame.now parts }
        ensures ok { OnOk result (node_of self.new.host ≡ learn (shown (decoded frame.now)) (node_of self.old.host)) }
        ensures err { OnErr result (StopsTaking (shown (decoded frame.now)) (node_of self.old.host) (node_of self.new.host)) }
        ensures some { OnErr result (shown (decoded frame.now) ≢ empty) }
        ensures requests { self.new.requests.keys ≡ self.old.requests.keys }
    {
        self.host.take_rope(alloc, frame)
    }

    /// Harvests the next call on a context, as [`Node::harvest`] does. An `Err`, for want of memory, changes nothing.
    pub fn harvest(&mut self, alloc: Global, name: &Name, ops: &Ops) -> Result<Harvest, OutOfMemory>
        ensures harvests { HarvestsNext (⟦<Ops as Listing>⟧.operations ops.now) name.now result (node_of self.old.host) (node_of self.new.host) }
        ensures requests { self.new.requests.keys ≡ self.old.requests.keys }
    {
        self.host.harvest(alloc, name, ops)
    }

    /// Harvests on a context until no further result can be had, as [`Node::harvest_all`] does. An `Err` is want of memory for a result that
    /// can be had.
    pub fn harvest_all(&mut self, alloc: Global, name: &Name, ops: &Ops) -> Result<(), OutOfMemory>
        ensures ok { OnOk result (HarvestsAll (⟦<Ops as Listing>⟧.operations ops.now) name.now (node_of self.old.host) (node_of self.new.host)) }
        ensures err { OnErr result (WantsResult (⟦<Ops as Listing>⟧.operations ops.now) name.now (node_of self.old.host) (node_of self.new.host)) }
        ensures requests { self.new.requests.keys ≡ self.old.requests.keys }
    {
        self.host.harvest_all(alloc, name, ops)
    }

    /// Harvests on a request's context until its call is done or no further result can be had, as [`Node::harvest_to`] does, and answers
    /// whether it is done. It closes no request, and copies no result. An `Err` is want of memory for a result that can be had.
    pub fn harvest_to(
        &mut self,
        alloc: Global,
        request: &Request,
        ops: &Ops,
    ) -> Result<bool, OutOfMemory>
        ensures ok { OnOk result (node_of self.new.host ≡ harvested (⟦<Ops as Listing>⟧.operations ops.now) (request.now.call + 1 - front_on (node_of self.old.host) request.now.name) request.now.name (node_of self.old.host)) }
        ensures done { IfOk result (λ done. done ≡ nat_lt request.now.call (front_on (node_of self.new.host) request.now.name)) }
        ensures rest { IfOk result (λ done. done ≡ false → has_next (node_of self.new.host) request.now.name ≡ false) }
        ensures err { OnErr result ((n : ℕ) × (n < request.now.call + 1 - front_on (node_of self.old.host) request.now.name)
            × (node_of self.new.host ≡ harvested (⟦<Ops as Listing>⟧.operations ops.now) n request.now.name (node_of self.old.host))) }
        ensures wanted { OnErr result (has_next (node_of self.new.host) request.now.name ≡ true) }
        ensures requests { self.new.requests.keys ≡ self.old.requests.keys }
    {
        self.host
            .harvest_to(alloc, request.name(), request.call(), ops)
    }

    /// Closes an open request, as a test does whose call is done: for who has read the result at the host. Nothing else is changed.
    pub fn close(&mut self, request: &Request)
        ensures host { self.new.host ≡ self.old.host }
        ensures closed { self.new.requests.keys ≡ close self.old.requests.keys request.now }
    {
        self.requests.shift_remove(request);
    }

    /// Drops the posts of a context that every member has harvested, as far as the board knows, as [`Node::prune_to_floor`] does. It
    /// answers whether there were any, and takes no memory.
    pub fn prune_to_floor(&mut self, name: &Name) -> bool
        ensures drops { Drops name.now result (node_of self.old.host) (node_of self.new.host) }
        ensures requests { self.new.requests.keys ≡ self.old.requests.keys }
    {
        self.host.prune_to_floor(name)
    }

    /// Drops the posts of calls below the number on a context, which is at most the floor; past a free that every member has
    /// harvested the context is dead, as [`Node::prune`] says, with its errors. It takes no memory.
    pub fn prune(&mut self, name: &Name, number: u32) -> Result<(), PruneError>
        ensures answer { result ≡ pruned_on (node_of self.old.host).board name.now number }
        ensures ok { OnOk result (node_of self.new.host ≡ learn_some (prune_part (node_of self.old.host) name.now number) (node_of self.old.host)) }
        ensures err { OnErr result (node_of self.new.host ≡ node_of self.old.host) }
        ensures requests { self.new.requests.keys ≡ self.old.requests.keys }
    {
        self.host.prune(name, number)
    }

    /// Says what the process has, and gives what others may lack of its board in parts whose frames have at most `limit` bytes, from
    /// 524,288 to 1,048,576, and the join of no two beside each other would fit, as [`Node::deltas`] does. An `Err`, for want of memory, changes nothing.
    pub fn deltas(&mut self, alloc: Global, limit: usize) -> Result<Vec<Board>, OutOfMemory>
        requires least { 524288 ≤ limit }
        requires most { limit ≤ 1048576 }
        ensures own { OnOk result (SaysWhatItHas (node_of self.old.host) (node_of self.new.host)) }
        ensures facts { IfOk result (λ made. All (λ part. OnlyFactsOf (look part) (node_of self.new.host).board) made.items) }
        ensures fit { IfOk result (λ made. All (λ part. length_told (parts_of part) ≤ limit) made.items) }
        ensures join { IfOk result (λ made. join_all (map look made.items) ≡ lacking_on (node_of self.new.host)) }
        ensures few { IfOk result (λ made. NoNeighboursFit limit made.items) }
        ensures err { OnErr result (node_of self.new.host ≡ node_of self.old.host) }
        ensures requests { self.new.requests.keys ≡ self.old.requests.keys }
    {
        self.host.deltas(alloc, limit)
    }

    /// The frames of what [`Desk::deltas`] gives, as [`Node::framed_deltas`] makes them. An `Err` changes nothing.
    pub fn framed_deltas(
        &mut self,
        alloc: Global,
        limit: usize,
        spare: &mut Vec<Rope>,
    ) -> Result<Vec<Rope>, OutOfMemory>
        requires least { 524288 ≤ limit }
        requires most { limit ≤ 1048576 }
        ensures own { OnOk result (SaysWhatItHas (node_of self.old.host) (node_of self.new.host)) }
        ensures frames { IfOk result (λ made. AreLacked limit (node_of self.new.host) made.items) }
        ensures err { OnErr result (node_of self.new.host ≡ node_of self.old.host) }
        ensures requests { self.new.requests.keys ≡ self.old.requests.keys }
    {
        self.host.framed_deltas(alloc, limit, spare)
    }

    /// What [`Desk::framed_deltas`] stores and gives, made ahead from the desk as it stands, as [`Node::lacking_frames`] makes it.
    /// [`Desk::say`] stores it. An `Err` is want of memory.
    pub fn lacking_frames(
        &mut self,
        alloc: Global,
        limit: usize,
        spare: &mut Vec<Rope>,
    ) -> Result<NewFrames, OutOfMemory>
        requires least { 524288 ≤ limit }
        requires most { limit ≤ 1048576 }
        ensures node { node_of self.new.host ≡ node_of self.old.host }
        ensures made { IfOk result (λ made. LackFrames limit (node_of self.old.host) made.said made.frames.items) }
        ensures requests { self.new.requests.keys ≡ self.old.requests.keys }
    {
        self.host.lacking_frames(alloc, limit, spare)
    }

    /// Stores what [`Desk::lacking_frames`] made from the desk as it stands, and gives its frames. It takes no memory and can't fail.
    pub fn say(&mut self, made: NewFrames) -> Vec<Rope>
        requires made { (limit : ℕ) × LackFrames limit (node_of self.old.host) made.said made.frames.items }
        ensures own { SaysWhatItHas (node_of self.old.host) (node_of self.new.host) }
        ensures frames { (limit : ℕ) → LackFrames limit (node_of self.old.host) made.said made.frames.items → AreLacked limit (node_of self.new.host) result.items }
        ensures requests { self.new.requests.keys ≡ self.old.requests.keys }
    {
        let NewFrames { said, frames } = made;
        self.host.acknowledge(said);
        frames
    }
}
