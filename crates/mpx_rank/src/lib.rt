//! A rank that carries out its statements, whoever carries its posts.
//!
//! An [`Interpreter`] goes on with its statements until an outcome is missing. What it leaves then is a
//! [`RankEnd`](mpx_meaning::RankEnd). What it needs of others a [`Carrier`] does for it: one
//! posts for it, tells whether a call is done, what came of it, how communicators came to be and which of them the rank freed. The table of an evaluation
//! is one, and the desk over a node another. What a carrier says of itself stands in `specs/Carriers.antt`, and what a rank's
//! moves do in `specs/Moves.antt`.
#![tactic(auto)]

mod answered;
mod asking;
mod carrier;
mod ending;
mod interpreter;
mod origins;
mod posting_words;
mod waiting;

pub use answered::Answered;
pub use carrier::{Carrier, Heard};
pub use interpreter::Interpreter;
