//! Tasks that are done at once, each in a thread of its own, and all of them joined.
//!
//! In the order of reading: [`Task`] and [`Calling`], what a thread does and what is known of what it gives; [`Stop`], who stands
//! by, and is told where not all of them can begin or be heard; [`all_at_once`], [`map_at_once`] and [`both`]; how those that work in turns
//! rest and wake each other, [`Pace`] and [`Sleepers`].
#![tactic(auto)]

mod at_once;
mod pace;
mod task;

pub use at_once::{AtOnceError, Stop, all_at_once, both, map_at_once};
pub use pace::{Pace, Sleepers};
pub use task::{Calling, Task, TaskPromise};
