//! What a node says that it has, and what it gives of its board: all of it, or what others may lack.
ghost use Rattle.std.specs.Prelude.{◌≡◌, ◌↔◌, ◌≤◌, ◌∷◌, [], false, map, All, OnOk, OnErr, IfOk, IsErrOf, IsTrue};
ghost use Rattle.mpx_board.specs.Boards.{join_all};
ghost use Rattle.mpx_board.specs.Looks.{look, parts_of};
ghost use Rattle.mpx_format.specs.Encoding.{length_told};
ghost use Rattle.mpx_delta.specs.Facts.{OnlyFactsOf};
ghost use Rattle.mpx_delta.specs.Pieces.{NoNeighboursFit};
ghost use Rattle.mpx_node.specs.Nodes.{NodeView};

use crate::node::Node;
use crate::part::{PartError, whole_part};
use join_core::OutOfMemory;
use mpx_board::{Board, Raised};
use mpx_delta::{NewFrames, NewList, new_frames, new_list, parts};
use mpx_rope::Rope;
use std::alloc::Global;

impl Node {
    ghost use Rattle.mpx_node.specs.Deltas.{AreLacked, LackFrames, LacksOn, SaysWhatItHas, Stores, lacking_on};
    ghost use Rattle.mpx_node.specs.Shown.{node_of};
    ghost use Rattle.mpx_node.specs.Parts.{fits_in, parts_on};

    /// The whole board, where it has a frame of at most `limit` bytes.
    ///
    /// # Errors
    /// `DoesNotFit` where it has none, before anything else; `OutOfMemory` where memory is refused.
    pub fn part(&self, alloc: Global, limit: usize) -> Result<Board, PartError>
        ensures whole { IfOk result (λ part. look part ≡ (node_of self.now).board) }
        ensures fits { IfOk result (λ part. IsTrue (fits_in limit (parts_of part))) }
        ensures refused { IsErrOf result PartError.DoesNotFit ↔ (fits_in limit (parts_on self.now) ≡ false) }
    {
        whole_part(alloc, &self.board, limit)
    }

    /// The board in parts, each of which has only facts of the board and a frame of at most `limit` bytes, and whose join is the
    /// board: the board itself where it fits, and else no two parts beside each other whose join would. The limit is from 524,288
    /// to 1,048,576 bytes, here and in all calls that have one. An `Err` is want of memory.
    pub fn parts(&self, alloc: Global, limit: usize) -> Result<Vec<Board>, OutOfMemory>
        requires least { 524288 ≤ limit }
        requires most { limit ≤ 1048576 }
        ensures facts { IfOk result (λ made. All (λ part. OnlyFactsOf (look part) (node_of self.now).board) made.items) }
        ensures fit { IfOk result (λ made. All (λ part. length_told (parts_of part) ≤ limit) made.items) }
        ensures join { IfOk result (λ made. join_all (map look made.items) ≡ (node_of self.now).board) }
        ensures whole { IfOk result (λ made. length_told (parts_on self.now) ≤ limit → map look made.items ≡ (node_of self.now).board ∷ []) }
        ensures few { IfOk result (λ made. NoNeighboursFit limit made.items) }
    {
        parts(alloc, &self.board, limit)
    }

    /// What [`Node::deltas`] stores and gives, made from the node as it stands: what the process says, and what others lack of
    /// the board with that, in parts whose frames have at most `limit` bytes. [`Node::acknowledge`] stores what it says. An `Err` is want
    /// of memory.
    pub fn lacking(&self, alloc: Global, limit: usize) -> Result<NewList, OutOfMemory>
        requires least { 524288 ≤ limit }
        requires most { limit ≤ 1048576 }
        ensures { IfOk result (λ made. LacksOn limit (node_of self.now) made.said made.parts.items) }
    {
        new_list(alloc, &self.board, self.me, self.processes, limit)
    }

    /// Makes what [`Node::lacking`] makes, with frames in place of the parts. The node stays as it is, also where memory is
    /// refused. A frame is written over the last of the `spare` ones, where there are such.
    pub fn lacking_frames(
        &mut self,
        alloc: Global,
        limit: usize,
        spare: &mut Vec<Rope>,
    ) -> Result<NewFrames, OutOfMemory>
        requires least { 524288 ≤ limit }
        requires most { limit ≤ 1048576 }
        ensures node { node_of self.new ≡ node_of self.old }
        ensures made { IfOk result (λ made. LackFrames limit (node_of self.old) made.said made.frames.items) }
    {
        new_frames(
            alloc,
            &mut self.board,
            self.me,
            self.processes,
            limit,
            spare,
            &mut self.kept,
        )
    }

    /// Stores what [`Node::lacking`] or [`Node::lacking_frames`] made from this node as it stands. It takes no memory and can't
    /// fail.
    pub fn acknowledge(&mut self, said: Raised)
        requires made { (new : NodeView) × Stores said (node_of self.old) new }
        ensures gives { (new : NodeView) → Stores said (node_of self.old) new → node_of self.new ≡ new }
    {
        self.kept.forget_said(&said);
        self.board.store(said);
    }

    /// Says that the process has all that its board has, and gives the board without the posts below what all processes say, in
    /// parts, each of which has only facts of the board and a frame of at most `limit` bytes. An `Err`, for want of memory, changes
    /// nothing.
    pub fn deltas(&mut self, alloc: Global, limit: usize) -> Result<Vec<Board>, OutOfMemory>
        requires least { 524288 ≤ limit }
        requires most { limit ≤ 1048576 }
        ensures own { OnOk result (SaysWhatItHas (node_of self.old) (node_of self.new)) }
        ensures facts { IfOk result (λ made. All (λ part. OnlyFactsOf (look part) (node_of self.new).board) made.items) }
        ensures fit { IfOk result (λ made. All (λ part. length_told (parts_of part) ≤ limit) made.items) }
        ensures join { IfOk result (λ made. join_all (map look made.items) ≡ lacking_on (node_of self.new)) }
        ensures few { IfOk result (λ made. NoNeighboursFit limit made.items) }
        ensures err { OnErr result (node_of self.new ≡ node_of self.old) }
    {
        let NewList { said, parts } = self.lacking(alloc, limit)?;
        self.acknowledge(said);
        Ok(parts)
    }

    /// The frames of what [`Node::deltas`] gives, which stores the same. Each frame has at most `limit` bytes. An `Err`, for want of
    /// memory, changes nothing of the node; a `spare` one may be gone.
    pub fn framed_deltas(
        &mut self,
        alloc: Global,
        limit: usize,
        spare: &mut Vec<Rope>,
    ) -> Result<Vec<Rope>, OutOfMemory>
        requires least { 524288 ≤ limit }
        requires most { limit ≤ 1048576 }
        ensures own { OnOk result (SaysWhatItHas (node_of self.old) (node_of self.new)) }
        ensures frames { IfOk result (λ made. AreLacked limit (node_of self.new) made.items) }
        ensures err { OnErr result (node_of self.new ≡ node_of self.old) }
    {
        let NewFrames { said, frames } = self.lacking_frames(alloc, limit, spare)?;
        self.acknowledge(said);
        Ok(frames)
    }
}
