//! What a process notes of its steps.
ghost use Rattle.std.specs.Prelude.{◌≡◌, None};

use crate::frame_under_way::FrameUnderWay;
use mpx_delta::NewFrames;
use mpx_rope::Rope;
use std::alloc::Global;

/// What a process notes of the steps that it makes beside others, for who looks at all of them between: whether it changed anything, whether
/// memory was wanting, how many of its lines and posts are told, the frames of its next list where they are made ahead, the one frame of its last list where
/// the next list is the same, and those that are to go out. The next ones are written into the room of spare ones.
#[derive(Drop)]
pub(crate) struct Notes {
    pub(crate) changed: bool,
    pub(crate) failed: bool,
    pub(crate) told: usize,
    pub(crate) posts: usize,
    pub(crate) ahead: Option<NewFrames>,
    pub(crate) last: Option<Rope>,
    pub(crate) made: Vec<FrameUnderWay>,
    pub(crate) spare: Vec<Rope>,
}

impl Notes {
    /// Nothing is noted yet.
    pub(crate) fn new(alloc: Global) -> Notes
        ensures ahead { result.ahead ≡ None }
        ensures last { result.last ≡ None }
    {
        Notes {
            changed: false,
            failed: false,
            told: 0,
            posts: 0,
            ahead: None,
            last: None,
            made: Vec::new(alloc),
            spare: Vec::new(alloc),
        }
    }
}
