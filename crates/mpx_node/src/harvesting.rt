//! Harvests of a context's calls one after the other.
ghost use Rattle.std.specs.Prelude.{◌≡◌, ◌+◌, ◌-◌, ◌<◌, ℕ, OnOk, OnErr, IfOk, false, true, nat_lt};

use crate::node::{Harvest, Node};
use join_core::OutOfMemory;
use mpx_name::Name;
use mpx_num::{Listing, Ops};
use std::alloc::Global;

impl Node {
    ghost use Rattle.mpx_node.specs.Nodes.{front_on, has_next};
    ghost use Rattle.mpx_node.specs.Harvests.{harvested};
    ghost use Rattle.mpx_node.specs.Shown.{node_of};

    /// Harvests on a context, call by call, until this one is harvested or the next one can't be, and tells whether this one is. Its result
    /// is then [`Node::result`]'s, unless it was let go ([`Node::forget`]). Where it was harvested before, nothing is. An `Err` is want of
    /// memory for a result that can be had: what was harvested before it stays so.
    pub fn harvest_to(
        &mut self,
        alloc: Global,
        name: &Name,
        call: u32,
        ops: &Ops,
    ) -> Result<bool, OutOfMemory>
        ensures ok { OnOk result (node_of self.new ≡ harvested (⟦<Ops as Listing>⟧.operations ops.now) (call + 1 - front_on (node_of self.old) name.now) name.now (node_of self.old)) }
        ensures done { IfOk result (λ done. done ≡ nat_lt call (front_on (node_of self.new) name.now)) }
        ensures rest { IfOk result (λ done. done ≡ false → has_next (node_of self.new) name.now ≡ false) }
        ensures err { OnErr result ((n : ℕ) × (n < call + 1 - front_on (node_of self.old) name.now)
            × (node_of self.new ≡ harvested (⟦<Ops as Listing>⟧.operations ops.now) n name.now (node_of self.old))) }
        ensures wanted { OnErr result (has_next (node_of self.new) name.now ≡ true) }
    {
        loop {
            if call < self.front(name) {
                return Ok(true);
            }
            match self.harvest(alloc, name, ops)? {
                Harvest::Done(_) => {}
                Harvest::NotYet => return Ok(false),
                Harvest::NotOpened => return Ok(false),
            }
        }
    }
}
