//! What a pull comes to.
use mpx_bus::Frame;

/// What a pull came to.
#[derive(Drop)]
pub enum Pull {
    /// The part of a frame is on the port's board.
    Took,
    /// The queue was empty.
    Empty,
    /// Memory was wanting: to join the part of this frame, which the queue has lost, or else to store a result.
    OutOfMemory(Option<Frame>),
}
