//! A port's list of frames of what others may lack.
ghost use Rattle.std.specs.Prelude.{◌≡◌, ◌≢◌, ◌≤◌, [], OnOk, OnErr};
ghost use Rattle.mpx_bus.specs.Ports.{PortGoesOn, HasListed};
ghost use Rattle.mpx_bus.specs.Answers.{Lists};

use crate::frame::frames_with;
use crate::port::Port;
use crate::trace::acknowledged;
use join_core::OutOfMemory;
use mpx_delta::NewFrames;
use std::alloc::Global;
use std::marker::Brand;

impl Port {
    // Makes a new list, where all frames of the last one were sent.
    pub(crate) fn lists(&mut self, alloc: Global, limit: usize) -> Result<(), OutOfMemory>
        requires least { 524288 ≤ limit }
        requires most { limit ≤ 1048576 }
        ensures port { PortGoesOn self.old self.new }
        ensures ok { OnOk result (Lists limit self.old self.new) }
        ensures some { OnOk result (self.new.kept ≢ []) }
        ensures err { OnErr result (self.new ≡ self.old) }
        ensures memory { OnErr result (self.old.kept ≡ []) }
    {
        if self.kept.as_slice().is_empty() {
            self.new_list(alloc, limit)
        } else {
            Ok(())
        }
    }

    // Says what the process has, and keeps the frames of what others may lack of its board.
    fn new_list(&mut self, alloc: Global, limit: usize) -> Result<(), OutOfMemory>
        requires none { self.old.kept ≡ [] }
        requires least { 524288 ≤ limit }
        requires most { limit ≤ 1048576 }
        ensures port { PortGoesOn self.old self.new }
        ensures ok { OnOk result (HasListed limit self.old self.new) }
        ensures some { OnOk result (self.new.kept ≢ []) }
        ensures err { OnErr result (self.new ≡ self.old) }
    {
        // what the queue's frames share can't serve once more
        let mut spare = Vec::new(alloc);
        let NewFrames { said, frames } = self.node.lacking_frames(alloc, limit, &mut spare)?;
        let frames = frames_with(alloc, frames)?;
        self.node.acknowledge(said);
        acknowledged::<Brand>(&self.empty, &mut self.line, self.node.board());
        self.kept = frames;
        Ok(())
    }
}
