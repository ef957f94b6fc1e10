//! Scripts: what each rank of a job is to call, read from text line by line.
//!
//! [`read_script`] gives a [`Script`], which contracts see as the number of ranks and the list of each rank's
//! [`Statement`]s, or a [`ReadScriptError`]: want of memory, or the [`ScriptError`] of the least line that is refused,
//! with the first [`ScriptFault`] that holds of it. The grammar stands in `specs/Grammar.antt` (the words of
//! statements), `specs/Syntax.antt` (their places), `specs/Fields.antt` and `specs/Graphs.antt` (what words mean), what a line is
//! refused for in `specs/Refusals.antt` and what it says in `specs/Meanings.antt`; which names are bound in `specs/Naming.antt`, and
//! what a whole text is read as in `specs/Reading.antt`. [`statement_lines`] tells which
//! lines give a rank its statements (`specs/LinesGiven.antt`), and [`words_of_line`] and [`later_words_of_line`] which words stand in one.
//!
//! The statements themselves are those of `mpx_statement`, whose public items are handed on here. What a script's ranks print
//! is the evaluation of `mpx_meaning`, on which the reader doesn't stand.
#![tactic(auto)]

mod calls;
mod faults;
mod fields;
mod grammar;
mod graphs;
mod lines_given;
mod naming;
mod postings;
mod rank_statements;
mod reader;
mod script;
mod script_line;
mod syntax;
mod words;

pub use faults::{ReadScriptError, ScriptError, ScriptFault};
pub use lines_given::{later_words_of_line, statement_lines, words_of_line};
pub use mpx_statement::{Posting, Question, RankList, Side, Statement, Word, WordList};
pub use reader::read_script;
pub use script::Script;
