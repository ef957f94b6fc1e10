//! A port's calls by a list of operations, whose type the caller picks.
ghost use Rattle.std.specs.Prelude.{◌≡◌};
ghost use Rattle.mpx_bus.specs.Ports.{IsSamePort, node_in};
ghost use Rattle.mpx_request.specs.Harvested.{HarvestsNext};
ghost use Rattle.mpx_node.specs.Nodes.{Posts, checked_on};
ghost use Rattle.mpx_node.specs.Shown.{node_of};
ghost use Rattle.mpx_post.specs.Drafts.{refusal_of};
ghost use Rattle.mpx_ranks.specs.Had.{DoesMore};

use join_core::OutOfMemory;
use mpx_bus::Port;
use mpx_name::Name;
use mpx_node::{Harvest, Node};
use mpx_num::{Listing, Ops};
use mpx_post::{Draft, PostError};
use std::alloc::Global;

/// A list of a job's own operations, by which a port posts and harvests. A type with facts about a port can't hold the list itself.
pub(crate) trait Folds: Listing {
    /// Posts the draft as the port's next call on a context.
    fn post_to(
        &self,
        alloc: Global,
        port: &mut Port,
        name: &Name,
        draft: Draft,
    ) -> Result<u32, PostError>
        requires { Self.operations self.now ≡ port.old.setup.operations }
        ensures same { IsSamePort port.old port.new }
        ensures more { DoesMore port.old port.new }
        ensures posts { Posts name.now (checked_on port.old.setup.operations (node_in port.old) name.now draft) result (node_in port.old) (node_in port.new) };

    /// Harvests the port's next call on a context.
    fn harvest_at(
        &self,
        alloc: Global,
        port: &mut Port,
        name: &Name,
    ) -> Result<Harvest, OutOfMemory>
        requires { Self.operations self.now ≡ port.old.setup.operations }
        ensures same { IsSamePort port.old port.new }
        ensures more { DoesMore port.old port.new }
        ensures harvests { HarvestsNext port.old.setup.operations name.now result (node_in port.old) (node_in port.new) };

    /// Why a node would refuse the draft.
    fn refusal_at(&self, node: &Node, name: &Name, draft: &Draft) -> Option<PostError>
        ensures { result ≡ refusal_of (checked_on (Self.operations self.now) (node_of node.now) name.now draft.now) };
}

impl Folds for Ops {
    fn post_to(
        &self,
        alloc: Global,
        port: &mut Port,
        name: &Name,
        draft: Draft,
    ) -> Result<u32, PostError> {
        port.post(alloc, name, draft, self)
    }

    fn harvest_at(
        &self,
        alloc: Global,
        port: &mut Port,
        name: &Name,
    ) -> Result<Harvest, OutOfMemory> {
        port.harvest(alloc, name, self)
    }

    fn refusal_at(&self, node: &Node, name: &Name, draft: &Draft) -> Option<PostError> {
        node.refusal(name, draft, self)
    }
}
