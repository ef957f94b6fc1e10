//! A simulated run as it goes, told line by line or as a table: who looks on at a run by [`Trace`] or [`Table`] writes what happens, and
//! by [`Progress`](mpx_sim::Progress) alone how far the run is.
//!
//! In the order of reading: [`Trace`], a line an event; [`Table`], a row a turn. What a board holds is told by
//! `holding.rt`, and of a table's rank by `cells.rt`. What can't be written, for want of memory or since the writer fails, is let go, and a run goes on as if
//! nobody looked on: `is_whole` says whether something was.
#![tactic(auto)]

mod cells;
mod columns;
mod holding;
mod news;
mod script_lines;
mod table;
mod trace;

pub use table::Table;
pub use trace::Trace;
