//! A frame on its way.
ghost use Rattle.std.specs.Prelude.{◌≡◌};
ghost use Rattle.mpx_sim.specs.Frames.{IsFrame};

use crate::observer::FrameSeen;
use mpx_rope::Rope;

/// The bytes of a board on their way: from which process to which, in which turn they come, and whether they have come before.
#[derive(Drop)]
pub struct FrameUnderWay {
    pub(crate) from: u8,
    pub(crate) to: usize,
    pub(crate) turn: u64,
    pub(crate) again: bool,
    pub(crate) bytes: Rope,
    ghost spelled: { IsFrame bytes },
}

impl FrameUnderWay {
    ghost use Rattle.mpx_sim.specs.SideBySide.{comes};

    /// Whether it comes to the process of this number in this turn.
    pub(crate) fn comes_to(&self, place: usize, turn: u64) -> bool
        ensures { result ≡ comes place turn self.now }
    {
        self.to == place && self.turn == turn
    }

    /// As whoever looks on is told of it.
    pub(crate) fn seen(&self) -> FrameSeen {
        FrameSeen {
            turn: u32::try_from(self.turn.saturating_add(1)).unwrap_or(u32::MAX),
            from: self.from,
            to: u8::try_from(self.to).unwrap_or(u8::MAX),
            bytes: self.bytes.len(),
        }
    }
}
