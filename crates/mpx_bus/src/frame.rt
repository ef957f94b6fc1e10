//! Frames on the queue.
ghost use Rattle.std.specs.Prelude.{◌≡◌, IfOk};

use join_core::OutOfMemory;
use mpx_rope::{FrozenRope, Rope, RopeRef};
use std::alloc::Global;
use std::marker::Model;

/// The bytes of a part on its way. Its copies share them. One is made by [`Bus::pop`](crate::Bus::pop), by a push that is refused,
/// and by [`Frame::copy`].
#[derive(Drop)]
pub struct Frame {
    bytes: FrozenRope,
}

impl Model for Frame {
    ghost use Rattle.std.specs.Prelude.{List, ℕ};

    ghost Value = { List ℕ };

    ghost view = { λ f. f.bytes };
}

impl Frame {
    // A frame of these bytes, which it takes over.
    pub(crate) fn from_rope(bytes: Rope) -> Result<Frame, OutOfMemory>
        ensures { IfOk result (λ f. f ≡ bytes) }
    {
        Ok(Frame {
            bytes: bytes.freeze()?,
        })
    }

    /// A copy, which shares the bytes. It takes memory for a list of long items, where there are such; an `Err` is want of that, or a
    /// count of copies that is too high.
    pub fn copy(&self) -> Result<Frame, OutOfMemory>
        ensures { IfOk result (λ f. f ≡ self.now) }
    {
        Ok(Frame {
            bytes: self.bytes.copy()?,
        })
    }

    // Its bytes.
    pub(crate) fn lent(&self) -> RopeRef<'_>
        ensures { result ≡ self.now }
    {
        self.bytes.lent()
    }
}

// Frames of these bytes, one for each.
pub(crate) fn frames_with(alloc: Global, lists: Vec<Rope>) -> Result<Vec<Frame>, OutOfMemory>
    ensures { IfOk result (λ made. made.items ≡ lists.items) }
{
    let mut made = Vec::new(alloc);
    for bytes in lists {
        made.push(Frame::from_rope(bytes)?)?;
    }
    Ok(made)
}
