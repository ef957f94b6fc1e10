//! Running a script over a lossy interconnect: ranks go on as far as they can, the bytes of boards are lost, repeated and
//! reordered, and what each rank writes begins what it writes in the script's evaluation.
//!
//! In the order of reading: [`run_sim`], which answers a [`Run`]; its processes are `Process`es, each a rank
//! whose posts a `RunDesk` carries, or a relay; [`Workers`] have them go on side by side, in threads where they are many; what they send is a `FrameUnderWay`
//! each, which a `Network` carries.
#![tactic(auto)]

mod contexts;
mod desk;
mod frame_under_way;
mod frames;
mod lists;
mod network;
mod notes;
mod observer;
mod posts;
mod process;
mod report;
mod schedule;
mod sender;
mod shares;
mod side_by_side;
mod start;
mod turns;
mod workers;

pub use observer::{FrameSeen, Observer, Progress, Unobserved};
pub use report::{Run, run_sim};
pub use workers::{InOneThread, InThreads, Workers};
