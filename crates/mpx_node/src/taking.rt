//! What a node takes: parts, and the frames of parts.
ghost use Rattle.std.specs.Prelude.{◌≡◌, ◌≢◌, OnOk, OnErr};
ghost use Rattle.mpx_board.specs.Boards.{IsBoardBelow, empty};
ghost use Rattle.mpx_board.specs.Looks.{look};
ghost use Rattle.mpx_board.specs.Parts.{PartsView};
ghost use Rattle.mpx_format.specs.Decoding.{IsSpelled, decoded, shown};

use crate::node::Node;
use join_core::OutOfMemory;
use mpx_board::Board;
use mpx_rope::RopeRef;
use mpx_wire::take_rope;
use std::alloc::Global;

impl Node {
    ghost use Rattle.mpx_node.specs.Nodes.{StopsTaking, learn};
    ghost use Rattle.mpx_node.specs.Shown.{node_of};

    /// Joins a part to the board, in place: only what is new takes memory. An `Err` leaves a board between the old one and
    /// the join, each fact of which is one of the board, of the part or of their join, and changes nothing else.
    pub fn take(&mut self, alloc: Global, part: &Board) -> Result<(), OutOfMemory>
        ensures ok { OnOk result (node_of self.new ≡ learn (look part.now) (node_of self.old)) }
        ensures err { OnErr result (StopsTaking (look part.now) (node_of self.old) (node_of self.new)) }
        ensures more { OnErr result (¬ (IsBoardBelow (look part.now) (node_of self.old).board)) }
    {
        self.kept.forget_all();
        self.board.take(alloc, part)
    }

    /// Joins the board that a frame spells, as [`Node::take`] joins a part, with no board of its own for what it says. Its items may be
    /// shared. That it spells one is the caller's condition. An `Err` leaves what it leaves there; a frame that tells nothing wants no
    /// memory.
    pub fn take_rope(&mut self, alloc: Global, frame: &RopeRef<'_>) -> Result<(), OutOfMemory>
        requires spelled { (parts : PartsView) × IsSpelled frame.now parts }
        ensures ok { OnOk result (node_of self.new ≡ learn (shown (decoded frame.now)) (node_of self.old)) }
        ensures err { OnErr result (StopsTaking (shown (decoded frame.now)) (node_of self.old) (node_of self.new)) }
        ensures some { OnErr result (shown (decoded frame.now) ≢ empty) }
    {
        take_rope(alloc, &mut self.board, &mut self.kept, frame)
    }
}
