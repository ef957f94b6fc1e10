//! Processes that share one queue of frames, each with a [`Port`] of its own: a node, whose calls wait for nobody, and its place at
//! the queue, the [`Bus`]. What all ports do, in whatever threads, is one list of what can happen in a world, and two ports that
//! [`meet`](Bus::meet) have what they have from one such world.
#![tactic(auto)]

mod act;
mod both;
mod frame;
mod lists;
mod meeting;
mod port;
mod rule;
mod steps;
mod trace;

pub use frame::Frame;
pub use port::{Bus, Met, Pop, Port, Push, drop_ports};
pub use rule::Named;
