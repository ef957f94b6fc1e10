//! Frames: boards as bytes.
//!
//! Which bytes spell a board is said in `mpx_format`; [`encode`] writes them and [`frame_len`] tells how many there are, both handed
//! on from `mpx_encode`, and [`decode`] reads them, by the readers of `mpx_decode`; [`take_rope`] joins what they say to a board
//! as it reads them, and shares their items where these are shared. That what one writes the other reads back as the same board is said by [`boards_are_read_back`].
#![tactic(auto)]

mod decoding;
mod laws;

pub use decoding::{decode, take_rope};
pub use laws::boards_are_read_back;
pub use mpx_encode::{EncodeError, encode, frame_len};
pub use mpx_format::WireError;
