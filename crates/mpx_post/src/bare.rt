//! Drafts without a communicator.
ghost use Rattle.std.specs.Prelude.{◌≡◌, ◌&&◌, MatchOption, IfOk, OnErr, nat_le, length, true, false};
ghost use Rattle.mpx_kind.specs.Kinds.{fields_of, kind_of};
ghost use Rattle.mpx_post.specs.Drafts.{given_by, has_making, has_spelling, received_counts, sent_counts};
ghost use Rattle.mpx_post.specs.Posts.{most_counts};

use crate::draft::{Draft, PostError};
use crate::draft_refusals::has_wrong_op;
use crate::graph_fields::{are_edges, edge_count};
use crate::making_fields::are_ranks;
use crate::post::Post;
use join_core::OutOfMemory;
use mpx_kind::{Fields, Makes};
use mpx_num::may_stand;
use std::alloc::Global;

impl Draft {
    /// The post of this draft, whatever the communicator: ranks are below 64, and the numbers of counts and of items, which
    /// depend on the communicator, aren't compared. None where a field that the kind has is out of its limit: the root,
    /// the operation beside its type, items (at most 4,096), counts (each at most 4,096, at most 65,535 in a list), the ranks
    /// of a group, edges (at most 512), a colour or a key. Memory is wanting only where no field is.
    pub fn bare(self, alloc: Global) -> Result<Option<Post>, OutOfMemory>
        ensures made { IfOk result (λ made. MatchOption made
            (has_spelling self ≡ false)
            (λ post. (has_spelling self ≡ true) × (post ≡ given_by self))) }
        ensures memory { OnErr result (has_spelling self ≡ true) }
    {
        let stands = may_stand(self.op, self.ty);
        let fields = self.call.kind().fields();
        let wrong = self.has_wrong_root(&fields, 64) | has_wrong_op(&fields, stands);
        if wrong | !self.has_few_counts(&fields) | !self.has_making(fields.makes) {
            return Ok(None);
        }
        match self.posted(alloc, None) {
            Ok(post) => Ok(Some(post)),
            Err(refusal) => match refusal {
                PostError::OutOfMemory => Err(OutOfMemory),
                _ => Ok(None),
            },
        }
    }

    // Whether there are not too many counts.
    fn has_few_counts(&self, fields: &Fields) -> bool
        requires fields { fields.now ≡ fields_of (kind_of self.now.call) }
        ensures { result ≡ (nat_le (length (sent_counts self.now)) most_counts && nat_le (length (received_counts self.now)) most_counts) }
    {
        let sent = self.sent_counts(fields).len();
        let received = self.received_counts(fields).len();
        (sent <= 65_535) & (received <= 65_535)
    }

    // Whether what it says of a new communicator is within its limits.
    fn has_making(&self, makes: Makes) -> bool
        ensures { result ≡ has_making makes self.now }
    {
        are_ranks(64, self.ranks(makes))
            && are_edges(makes, 64, &self.graph)
            && edge_count(makes, &self.graph) <= 512
            && self.has_colour_and_key(makes)
    }
}
