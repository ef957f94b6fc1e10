//! What is wrong with a script, in more words than its refusal or its transcript has.
//!
//! [`word_to_blame`] finds the word of a refused line that is to blame. [`explain_refusals`] tells each refused line of a script, and which
//! word is missing, one too many or wrong. [`explain_calls`] tells each call that was refused or is a fault, with its line and what its
//! statement gives, and [`explain_unheard`] each fault that no line tells: `specs/Findings.antt` says which. [`explain_results`] tells each
//! result that is past its signed type. [`explain_run`] tells where ranks wait in a run that ended early, by what
//! is left of it (an [`EndedRun`]): `specs/RunEnds.antt`.
#![tactic(auto)]

mod amounts;
mod aspects;
mod blame;
mod blocks;
mod calls;
mod counts_given;
mod detail;
mod end_lines;
mod ended;
mod ends;
mod exact;
mod faults;
mod firsts;
mod forms;
mod given;
mod items_given;
mod lacking;
mod left_out;
mod lines;
mod made;
mod making_given;
mod meant;
mod named;
mod naming;
mod overflows;
mod pair_given;
mod past;
mod posts;
mod reasons;
mod size;
mod summed;
mod trials;
mod unknown_names;

pub use blame::{Blamed, word_to_blame};
pub use calls::{explain_calls, explain_unheard};
pub use end_lines::explain_run;
pub use ended::EndedRun;
pub use ends::RunEnd;
pub use firsts::EarlierCall;
pub use lines::explain_refusals;
pub use overflows::explain_results;
