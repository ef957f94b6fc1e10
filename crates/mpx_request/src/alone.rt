//! A node alone as a host.
ghost use Rattle.std.specs.Prelude.{◌≡◌, ℕ, refl};
ghost use Rattle.mpx_node.specs.laws.Bounded.{node_bounded};

use crate::answers::TurnError;
use crate::host::Host;
use join_core::OutOfMemory;
use mpx_board::Board;
use mpx_name::Name;
use mpx_node::{Finished, Harvest, Node};
use mpx_num::Ops;
use mpx_post::{Draft, PostError};
use std::alloc::Global;

/// A node that hears of nobody in a turn: whoever has it takes the others' boards.
impl Host for Node {
    ghost use Rattle.mpx_node.specs.Shown.{node_of};

    ghost node = { node_of };

    // By those that are lent.
    ghost goes_by = { λ h lent. lent };

    ghost turned = { λ a n b. Unit {0} };

    // None is refused.
    ghost turn_refused = { λ a why b. ⊥ };

    // It remembers none.
    ghost has_had = { λ h name call finished. Unit {0} };

    fn post(
        &mut self,
        alloc: Global,
        name: &Name,
        draft: Draft,
        ops: &Ops,
    ) -> Result<u32, PostError> {
        Node::post(self, alloc, name, draft, ops)
    }

    fn refusal(&self, name: &Name, draft: &Draft, ops: &Ops) -> Option<PostError> {
        Node::refusal(self, name, draft, ops)
    }

    fn open_gathering(
        &mut self,
        alloc: Global,
        parent: &Name,
        tag: i128,
        ranks: &[i128],
    ) -> Result<Name, PostError> {
        Node::open_gathering(self, alloc, parent, tag, ranks)
    }

    fn harvest(&mut self, alloc: Global, name: &Name, ops: &Ops) -> Result<Harvest, OutOfMemory> {
        Node::harvest(self, alloc, name, ops)
    }

    fn result(&self, name: &Name, call: u32) -> Option<&Finished> {
        Node::result(self, name, call)
    }

    fn front(&self, name: &Name) -> u32 {
        Node::front(self, name)
    }

    fn forget(&mut self, name: &Name, below: u32) {
        Node::forget(self, name, below)
    }

    fn board(&self) -> &Board {
        Node::board(self)
    }

    fn turn(&mut self, _alloc: Global) -> Result<(), TurnError> {
        Ok(())
    }

    ghost bounded = { node_bounded };

    ghost stays_by = { λ a b n x. refl };

    ghost turns_none = { λ h. tt };

    ghost turns_more = { λ a b c m n x y. tt };

    ghost had_now = { λ h name call finished x. tt };

    ghost had_later = { λ a b n name call finished x y. tt };

    ghost had_refused = { λ a b why name call finished x y. tt };
}
