//! Why a draft is refused: what is asked of it, in the order in which it is told.
ghost use Rattle.std.specs.Prelude.{◌≡◌, ◌≤◌, ◌&&◌, nat_le, Some, not, length};
ghost use Rattle.std.specs.List.{list_all};
ghost use Rattle.mpx_post.specs.Drafts.{asked_first, first_that_holds, has_bad_group, has_colour_and_key, has_its_counts, is_count, is_misfilled, is_rank as is_rank_of, most_steps, numbers_refusal, place_refusals, ranks_in, received_counts, sent_counts, stray_refusals};
ghost use Rattle.mpx_kind.specs.Kinds.{fields_of, kind_of, makes_communicators};
ghost use Rattle.mpx_birth.specs.Topologies.{most_neighbours};

use crate::counts::are_counts;
use crate::draft::{At, Draft, MOST_CALLS, PostError};
use crate::graph_fields::{are_edges, edge_count};
use crate::making_fields::{are_ranks, is_colour, is_key};
use crate::post_fields::{are_all_of, is_misfill, is_rank, where_had};
use mpx_kind::{Fields, Makes, Seat, Sent};

impl Draft {
    // Why it is refused where it lacks a topology.
    pub(crate) fn stray_refusal(&self) -> PostError
        ensures { first_that_holds (stray_refusals self.now) ≡ Some result }
    {
        let fields = self.call.kind().fields();
        let numbers = where_had(fields.items, &self.items);
        if !are_all_of(self.ty, numbers) {
            return PostError::ItemOutOfRange;
        }
        let many = 4096 * self.ty.item_len() < numbers.len();
        if many || !self.are_counts(&fields) {
            return PostError::TooManyItems;
        }
        PostError::NoTopology
    }

    // Why its numbers are no items, or its counts no counts.
    pub(crate) fn numbers_refusal(&self) -> Option<PostError>
        ensures { result ≡ numbers_refusal self.now }
    {
        let fields = self.call.kind().fields();
        let numbers = where_had(fields.items, &self.items);
        let item_len = self.ty.item_len();
        if numbers.len() / item_len * item_len != numbers.len() {
            return Some(PostError::ItemsLength);
        }
        if !are_all_of(self.ty, numbers) {
            return Some(PostError::ItemOutOfRange);
        }
        if 4096 * item_len < numbers.len() {
            return Some(PostError::TooManyItems);
        }
        if !self.are_counts(&fields) {
            return Some(PostError::TooManyItems);
        }
        None
    }

    // Whether its counts are counts.
    fn are_counts(&self, fields: &Fields) -> bool
        requires fields { fields.now ≡ fields_of (kind_of self.now.call) }
        ensures { result ≡ (list_all is_count (sent_counts self.now) && list_all is_count (received_counts self.now)) }
    {
        are_counts(self.sent_counts(fields)) & are_counts(self.received_counts(fields))
    }

    // Why its root, its operation, which is for its type or not, or its counts refuse it.
    pub(crate) fn shape_refusal(&self, seat: &Seat, for_type: bool) -> Option<PostError>
        requires size { seat.now.size ≤ 64 }
        requires sources { seat.now.indegree ≤ most_neighbours }
        requires destinations { seat.now.outdegree ≤ most_neighbours }
        ensures { result ≡ first_that_holds (asked_first for_type seat.now self.now (is_misfilled seat.now self.now)) }
    {
        let fields = self.call.kind().fields();
        if self.has_wrong_root(&fields, seat.size) {
            return Some(PostError::RootOutOfRange);
        }
        if has_wrong_op(&fields, for_type) {
            return Some(PostError::OpNotForType);
        }
        if self.has_wrong_lengths(&fields, seat) {
            return Some(PostError::CountsLength);
        }
        if self.is_misfilled(&fields, seat) {
            return Some(PostError::ItemsLength);
        }
        None
    }

    // Why it may not be posted there, or makes no communicator there.
    pub(crate) fn place_refusal(&self, size: usize, at: &At) -> Option<PostError>
        requires { size ≤ 64 }
        ensures { result ≡ first_that_holds (place_refusals size at.now self.now) }
    {
        if at.call == MOST_CALLS {
            return Some(PostError::CallsUsedUp);
        }
        if self.is_too_deep(at) {
            return Some(PostError::DepthUsedUp);
        }
        let makes = self.call.kind().fields().makes;
        if self.has_bad_group(makes, size, at) {
            return Some(PostError::BadGroup);
        }
        if !are_edges(makes, size, &self.graph) {
            return Some(PostError::BadEdge);
        }
        if 512 < edge_count(makes, &self.graph) {
            return Some(PostError::TooManyEdges);
        }
        if !self.has_colour_and_key(makes) {
            return Some(PostError::BadTag);
        }
        None
    }

    pub(crate) fn has_wrong_root(&self, fields: &Fields, size: usize) -> bool
        ensures { result ≡ (fields.now.root && not (is_rank_of size self.now.root)) }
    {
        fields.root & !is_rank(size, self.root)
    }

    fn has_wrong_lengths(&self, fields: &Fields, seat: &Seat) -> bool
        requires fields { fields.now ≡ fields_of (kind_of self.now.call) }
        ensures { result ≡ not (has_its_counts seat.now self.now) }
    {
        let sent = self.sent_counts(fields).len() == fields.scounts.of(seat);
        let received = self.received_counts(fields).len() == fields.rcounts.of(seat);
        !(sent & received)
    }

    // Whether there are more or fewer items than its counts tell.
    fn is_misfilled(&self, fields: &Fields, seat: &Seat) -> bool
        requires fields { fields.now ≡ fields_of (kind_of self.now.call) }
        requires size { seat.now.size ≤ 64 }
        requires sources { seat.now.indegree ≤ most_neighbours }
        requires destinations { seat.now.outdegree ≤ most_neighbours }
        requires sent { length (sent_counts self.now) ≤ most_neighbours }
        requires received { length (received_counts self.now) ≤ most_neighbours }
        ensures { result ≡ is_misfilled seat.now self.now }
    {
        let numbers = where_had(fields.items, &self.items).len();
        match fields.sent {
            Sent::Any => false,
            Sent::Scounts(number) => {
                is_misfill(self.sent_counts(fields), number.of(seat), self.ty, numbers)
            }
            Sent::Rcounts(number) => {
                is_misfill(
                    self.received_counts(fields),
                    number.of(seat),
                    self.ty,
                    numbers,
                )
            }
        }
    }

    // Whether the new communicator's name would have too many steps.
    fn is_too_deep(&self, at: &At) -> bool
        ensures { result ≡ (makes_communicators (kind_of self.now.call) && nat_le most_steps at.now.depth) }
    {
        self.call.kind().makes_communicators() & (8 <= at.depth)
    }

    // Whether the call isn't made on such a context, or the group has a rank out of range or twice.
    fn has_bad_group(&self, makes: Makes, size: usize, at: &At) -> bool
        requires makes { makes ≡ (fields_of (kind_of self.now.call)).makes }
        requires size { size ≤ 64 }
        ensures { result ≡ has_bad_group size at.now self.now }
    {
        let misplaced = at.gathering != self.call.kind().is_gathered();
        misplaced | !are_ranks(size, self.ranks(makes))
    }

    // The ranks of the group, where the kind has one.
    pub(crate) fn ranks(&self, makes: Makes) -> &[i128]
        ensures { result.now ≡ ranks_in makes self.now }
    {
        match makes {
            Makes::Group => self.group.as_slice(),
            _ => &[],
        }
    }

    // Whether the colour and the key are within their limits, where the kind has them.
    pub(crate) fn has_colour_and_key(&self, makes: Makes) -> bool
        ensures { result ≡ has_colour_and_key makes self.now }
    {
        match makes {
            Makes::Colour => is_colour(self.colour) & is_key(self.key),
            _ => true,
        }
    }
}

// Whether the kind has an operation, and that isn't for the type.
pub(crate) fn has_wrong_op(fields: &Fields, for_type: bool) -> bool
    ensures { result ≡ (fields.now.op && not for_type) }
{
    fields.op & !for_type
}
