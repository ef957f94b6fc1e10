//! What a rank's program calls: a [`Rank`] has the rank's desk, its allocator, the job's operations and its turns, so that a call is given
//! a communicator and a slice, and answers a vector.
//!
//! In the order of reading: [`Item`], what slices are of; [`Rank`], and its calls by their names in MPI; [`CallError`], which says of
//! which call it is; [`Pending`], the request of a call that doesn't block. Each call is the call of [`Desk`] with its name, of the numbers of the
//! slice (`specs/Gives.antt`).
#![tactic(auto)]

mod call_error;
mod called;
mod communicators;
mod exchanges;
mod lengths;
mod neighbourhoods;
mod ones;
mod pending;
mod rank;
mod reading;
mod reductions;
mod rooted;

pub use call_error::{CallError, Cause};
pub use called::{Called, Detail};
pub use mpx_call::Item;
pub use mpx_comm::{Comm, Desk, Host, Request, Tested};
pub use pending::{Done, Pending};
pub use rank::Rank;
