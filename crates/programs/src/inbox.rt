//! A host of the program's own.
ghost use Rattle.std.specs.Prelude.{◌≡◌, refl, drop};
ghost use Rattle.mpx_node.specs.laws.Bounded.{node_bounded};
ghost use Rattle.programs.specs.Turns.{take_more};

use join_core::OutOfMemory;
use mpx_board::Board;
use mpx_comm::{Host, TurnError};
use mpx_name::Name;
use mpx_node::{Finished, Harvest, Node};
use mpx_num::Ops;
use mpx_post::{Draft, PostError};
use std::alloc::Global;
use std::collections::VecDeque;

/// A node and the boards that came for it. A turn takes the next one.
#[derive(Debug, Drop)]
pub struct Inbox {
    pub node: Node,
    pub boards: VecDeque<Board>,
}

impl Host for Inbox {
    ghost use Rattle.mpx_node.specs.Shown.{node_of};

    ghost node = { λ h. node_of h.node };

    // It goes by the operations that are lent, as its node.
    ghost goes_by = { λ h lent. lent };

    // So many turns take so many boards out of the inbox.
    ghost turned = { λ a n b. b.boards.items ≡ drop n a.boards.items };

    // One that is refused takes none.
    ghost turn_refused = { λ a why b. b.boards.items ≡ a.boards.items };

    // It remembers no result that was let go.
    ghost has_had = { λ h name call finished. Unit {0} };

    fn post(
        &mut self,
        alloc: Global,
        name: &Name,
        draft: Draft,
        ops: &Ops,
    ) -> Result<u32, PostError> {
        self.node.post(alloc, name, draft, ops)
    }

    fn refusal(&self, name: &Name, draft: &Draft, ops: &Ops) -> Option<PostError> {
        self.node.refusal(name, draft, ops)
    }

    fn open_gathering(
        &mut self,
        alloc: Global,
        parent: &Name,
        tag: i128,
        ranks: &[i128],
    ) -> Result<Name, PostError> {
        self.node.open_gathering(alloc, parent, tag, ranks)
    }

    fn harvest(&mut self, alloc: Global, name: &Name, ops: &Ops) -> Result<Harvest, OutOfMemory> {
        self.node.harvest(alloc, name, ops)
    }

    fn result(&self, name: &Name, call: u32) -> Option<&Finished> {
        self.node.result(name, call)
    }

    fn front(&self, name: &Name) -> u32 {
        self.node.front(name)
    }

    fn forget(&mut self, name: &Name, below: u32) {
        self.node.forget(name, below);
    }

    fn board(&self) -> &Board {
        self.node.board()
    }

    fn turn(&mut self, alloc: Global) -> Result<(), TurnError> {
        if let Some(board) = self.boards.front() {
            self.node.take(alloc, board)?;
            self.boards.pop_front();
        }
        Ok(())
    }

    ghost bounded = { λ h name. node_bounded h.node name };

    ghost stays_by = { λ a b n x. refl };

    ghost turns_none = { λ h. refl };

    ghost turns_more = { λ a b c m n x y. take_more m n a.boards.items b.boards.items c.boards.items x y };

    ghost had_now = { λ h name call finished x. tt };

    ghost had_later = { λ a b n name call finished x y. tt };

    ghost had_refused = { λ a b why name call finished x y. tt };
}
