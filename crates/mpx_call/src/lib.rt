//! What the calls of a rank are given and give: items, cut into parts and put together again.
#![tactic(auto)]

mod cutting;
mod item;

pub use cutting::{cut, put_together};
pub use item::Item;
