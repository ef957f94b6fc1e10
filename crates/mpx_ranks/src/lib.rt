//! Ranks in threads of one program, each with a desk whose calls block: what every MPI program does.
//!
//! In the order of reading: [`Program`], what every rank runs; [`ranks`], which runs it, and [`Ran`], what comes of it; how a rank goes
//! on in its thread (`work.rt`), over a `Member`, the host of its desk (`member.rt`), whose turns gossip (`gossip.rt`) and rest
//! (`news.rt`); where the threads meet before any of them begins (`start.rt`), and what they tell each other (`crew.rt`); what
//! [`numbers_of`] of `mpx_comm` reads of a call; and what follows of the answers, [`one_row_for_all`], and of what a rank has had, let go since
//! or not, [`waits_keep_what_was_had`].
#![tactic(auto)]

mod crew;
mod folds;
mod gossip;
mod job;
mod laws;
mod member;
mod news;
mod program;
mod seat;
mod start;
mod work;

pub use job::{Ran, RanksError, ranks};
pub use laws::{one_row_for_all, waits_keep_what_was_had};
pub use mpx_comm::numbers_of;
pub use program::Program;
