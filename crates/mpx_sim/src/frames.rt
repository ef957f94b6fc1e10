//! Frames, by the bytes of boards.
ghost use Rattle.std.specs.Prelude.{◌≡◌, ◌<◌, All, IfOk, map};
ghost use Rattle.mpx_format.specs.Decoding.{decoded, shown};
ghost use Rattle.mpx_sim.specs.Frames.{IsFrame};
ghost use Rattle.mpx_sim.specs.Shown.{frame_of};
ghost use Rattle.mpx_sim.specs.Turns.{one_a_turn};

use crate::frame_under_way::FrameUnderWay;
use join_core::OutOfMemory;
use mpx_rope::Rope;
use std::alloc::Global;

/// Frames with these bytes, one for each, from a process to another: they come in this turn and those after it, one in each.
pub(crate) fn frames_with(
    alloc: Global,
    lists: Vec<Rope>,
    from: u8,
    to: usize,
    turn: u64,
) -> Result<Vec<FrameUnderWay>, OutOfMemory>
    requires turn { turn < 4294967296 }
    requires frames { All IsFrame lists.items }
    ensures { IfOk result (λ made. map frame_of made.items ≡ one_a_turn from to turn (map (λ bytes. shown (decoded bytes)) lists.items)) }
{
    let mut made = Vec::new(alloc);
    for bytes in lists {
        let frame = FrameUnderWay {
            from,
            to,
            turn: turn + made.len() as u64,
            again: false,
            bytes,
        };
        made.push(frame)?;
    }
    Ok(made)
}
