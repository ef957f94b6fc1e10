//! The board, of which every process keeps a replica: what it knows of each context, joined as state-based replicated
//! values are.
//!
//! In the order of reading: [`Board`] with its calls, [`Parts`], the maps inside it, and the laws
//! [`joining_boards_is_a_semilattice`], [`joining_parts_is_a_semilattice`], [`boards_are_joined_by_their_facts`],
//! [`boards_are_their_facts`] and [`dead_contexts_stay_dead`]. Contracts see a board by look-ups (`specs/Boards.antt`, `specs/Looks.antt`).
#![tactic(auto)]

mod acks;
mod board;
mod copies;
mod errors;
mod fact;
mod joins;
mod laws;
mod looks;
mod nested;
mod prepared;
mod saying;

pub use acks::Raised;
pub use board::Board;
pub use errors::{AddPostError, KillError, PruneError};
pub use laws::{
    boards_are_joined_by_their_facts, boards_are_their_facts, boards_stay_tidy,
    dead_contexts_stay_dead, joining_boards_is_a_semilattice, joining_parts_is_a_semilattice,
};
pub use mpx_floor::VersionVector;
pub use nested::{CallPosts, Digest, Entry, Lifted, Parts, is_said, is_told, says_something};
pub use prepared::Prepared;
