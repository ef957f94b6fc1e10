//! The words of a call of the program, and what they ask for: a [`mpx_statement::Job`], and what is to be told beside it.
//!
//! In the order of reading: [`Invocation`], [`call_of`], and its parts [`invocation_in`] and [`flags_behind`]; [`advice_of`] and [`complaint_of`] for words that ask for none; [`not_text`] for words of
//! which one is no text.
#![tactic(auto)]

mod advice;
mod command;
mod invocation;
mod program;
mod refusal;

pub use advice::advice_of;
pub use command::{call_of, flags_behind, invocation_in};
pub use invocation::{Flags, Invocation};
pub use refusal::{complaint_of, not_text};
