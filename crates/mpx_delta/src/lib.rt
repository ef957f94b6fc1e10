//! A board in parts that each fit a frame, and what of it others lack: parts without the posts that all of them acknowledge.
//!
//! A board is taken apart into pieces, each of which has a short frame: runs of contexts, and runs of what processes
//! acknowledge (`src/entry_runs.rt`), which are found by halves (`src/walk.rt`). Only a context that is too long alone is taken apart
//! into single posts and what is said of it beside them (`src/pieces.rt`). Pieces are joined again, half by half, as far as
//! frames reach ([`parts`]). Contracts see what a piece says by its facts (`specs/Facts.antt`, `specs/Pieces.antt`).
//!
//! A digest says, for each context and process, how many of that process's calls are known in order ([`digest_of`], of
//! `mpx_digest`), as acknowledgements do; the least that all processes acknowledge is [`common`]; and [`delta_for`] gives the rest of a board in
//! parts, which serve each board that has what the digest says. [`new_list`] makes all of that for one process from its board
//! as it stands, and [`deltas`] also stores what the process says.
#![tactic(auto)]

mod bounds;
mod delta;
mod entry_runs;
mod framed;
mod lacking;
mod least;
mod limits;
mod packing;
mod pieces;
mod places;
mod posted;
mod walk;

pub use delta::delta_for;
pub use framed::{NewFrames, new_frames};
pub use lacking::{NewList, deltas, new_list};
pub use least::common;
pub use mpx_digest::digest_of;
pub use packing::parts;
