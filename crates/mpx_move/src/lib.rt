//! Exchanges of blocks: what a row of posts gives each member (MPI 4.1, sections 6.3 to 6.8).
//!
//! Each kind's value stands in `specs/Moves.antt`, over whole lists: all that is given, in rank order, or the block of it
//! that is for one receiver. Where such a block stands is in mpx_post's `specs/Blocks.antt`.
#![tactic(auto)]

mod moves;

pub use moves::move_value;
