//! One process: its board, how many calls it has posted, and what it has harvested.
//!
//! In the order of reading: [`Finished`], [`Node`], [`PartError`], [`newest_results_stay`].
#![tactic(auto)]

mod deltas;
mod finished;
mod forgetting;
mod harvesting;
mod laws;
mod node;
mod opened;
mod opening;
mod part;
mod pruning;
mod results;
mod settling;
mod starting;
mod taking;

pub use finished::Finished;
pub use laws::newest_results_stay;
pub use node::{Harvest, Node, drop_nodes};
pub use part::PartError;
