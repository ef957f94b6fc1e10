//! The statements of a job's script, the words that they are made of, and what a call of the program asks for.
//!
//! A [`Statement`] posts ([`Posting`]), waits for requests, or asks a [`Question`]. Contracts see a [`Word`] as its bytes;
//! which draft a statement posts, and which names it uses and binds, stands in `specs/Statements.antt`. A [`Job`] is a [`Command`] and
//! the [`Options`] of a run.
#![tactic(auto)]

mod job;
mod rank_list;
mod statement;
mod word;

pub use job::{Command, Job, Options};
pub use rank_list::RankList;
pub use statement::{Posting, Question, Side, Statement};
pub use word::{Word, WordList};
