//! The user's calls: posts, requests, tests and waits over a host, by their names in MPI.
//!
//! In the order of reading: [`Host`], [`Comm`], [`Request`], [`Desk`], [`numbers_of`], and the laws
//! [`calls_keep_posts_and_results`], [`results_say_what_was_posted`], [`answers_are_stored_results`] and
//! [`results_stay_until_they_are_let_go`]. Contracts see a desk by its host's node and the list of its open requests in order
//! of posting. What a post and a blocking call come to is said in `specs/Calls.antt`, by the cases of its answer, and which draft it posts
//! in `specs/Lines.antt`, one row a call; `specs/Forgetting.antt` says what a desk lets go. Hosts, requests, tests and waits are
//! `mpx_request`'s: its `specs/Requests.antt` and `specs/Any.antt`.
#![tactic(auto)]

mod alone;
mod answers;
mod asking;
mod comm;
mod communicators;
mod desk;
mod exchanges;
mod forgetting;
mod given;
mod laws;
mod lines;
mod neighbourhoods;
mod progress;
mod reductions;
mod rooted;

pub use answers::CallError;
pub use asking::{AskError, Relation};
pub use comm::{Comm, OpenedGathering};
pub use desk::Desk;
pub use given::{GivenError, integer_of, integers_of, numbers_of};
pub use laws::{
    answers_are_stored_results, calls_keep_posts_and_results, results_say_what_was_posted,
    results_stay_until_they_are_let_go,
};
pub use mpx_request::{Host, Request, Tested, TurnError, WaitError};
