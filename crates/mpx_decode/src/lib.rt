//! What stands in frames, read: [`read_version`], [`read_parts`] and [`take_parts`], which joins the parts to a board as they are read.
//!
//! Below them stands a reader for each field. Which bytes spell what, and which refusal other bytes get, is said in `mpx_format`;
//! whole frames are read in `mpx_wire`.
#![tactic(auto)]

mod acks;
mod big_endian;
mod births;
mod codes;
mod contexts;
mod counts;
mod entries;
mod fields;
mod front_posts;
mod items;
mod join_acks;
mod join_births;
mod join_contexts;
mod join_kept;
mod join_numbers;
mod join_posts;
mod join_rows;
mod lists;
mod making;
mod names;
mod neighbours;
mod posts;
mod process_numbers;
mod taking;
mod told_rows;

pub use codes::read_version;
pub use contexts::read_parts;
pub use taking::{take_apart, take_parts};
