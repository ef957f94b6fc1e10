//! Requests of a host: tests and waits, and what they answer.
//!
//! In the order of reading: [`Host`], [`Request`], [`look`], [`test_all`] and the `await_` functions. What each comes to is said in
//! `specs/Requests.antt` and `specs/Any.antt`, by the cases of its answer; `specs/Later.antt` says what stays of a node meanwhile,
//! `specs/Harvested.antt` what a test does to it, and `specs/Turns.antt` what a wait does. The open requests are a set in order of posting.
//! Who posts has it: `mpx_comm`'s desk.
#![tactic(auto)]

mod all;
mod alone;
mod answers;
mod host;
mod let_go;
mod looking;
mod request;
mod some;

pub use all::test_all;
pub use answers::{Tested, TurnError, WaitError};
pub use host::Host;
pub use let_go::{one_was_let_go, was_let_go};
pub use looking::{await_all, await_any, await_one, close_each, look, look_any, make_turns};
pub use request::Request;
pub use some::{await_some, close_done, look_some};
