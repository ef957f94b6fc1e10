//! The ranks of a script and the processes of a world together, as a run has them: what is so of them after every list of
//! doings, and what each step of a process keeps of a run under way.
#![tactic(auto)]

mod laws;

pub use laws::{every_run_begins_the_evaluation, who_rests_has_ended};
