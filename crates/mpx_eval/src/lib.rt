//! The evaluation of a script, computed: one table carries the posts of all its ranks.
//!
//! [`eval`] answers a [`Report`](mpx_meaning::Report): the transcripts of the one evaluation that the script has, and the ranks
//! that wait at its end. It keeps one table of what all ranks have posted (`table.rt`, a context each in `context.rt`, posts in
//! `posting.rt`), which carries the posts of each [`Rank`](mpx_rank::Rank) (`carrying.rt`); and these go on in rounds
//! (`rounds.rt`). What it comes to stands in `specs/Evaluated.antt`, which posts a table shows in `specs/Tables.antt`, and where
//! a rank stands in its statements in `specs/Places.antt`.
//!
//! [`examine`] tells of the ranks that wait at its end at which statement each does, for which calls, and whose posts to
//! them are missing, also since they have freed the context (`who_waits.rt`, `missing.rt`); what that is stands in
//! `specs/Waiting.antt`. And it tells which lines say that a call was refused or is a fault, and at which statement each of these
//! calls is made (`complaints.rt`); what that is stands in `specs/Complaints.antt`. Faults that no line tells, as nobody has waited
//! for them, stand beside these (`unheard.rt`, `specs/Unheard.antt`).
//!
//! [`certain_refusals`] evaluates nothing: it tells which calls on `world` are refused in any case (`specs/Certain.antt`).
#![tactic(auto)]

mod carrying;
mod certain;
mod complaints;
mod context;
mod evaluation;
mod findings;
mod missing;
mod posting;
mod rounds;
mod table;
mod unheard;
mod who_waits;

pub use certain::certain_refusals;
pub use complaints::{Complaint, started_at};
pub use evaluation::eval;
pub use findings::{Findings, examine};
pub use missing::{MissingCall, MissingMember};
pub use who_waits::{WaitingRank, waits_are_for_what_the_next_move_asks};
