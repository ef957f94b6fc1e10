//! Who waits at the end of a script's evaluation, as lines of text: at which line, for which calls, and for which ranks.
//!
//! [`push_waiting`] writes them. [`lines_of`] finds the lines of a rank's statements, [`first_of`] takes those that are told, and [`push_start`],
//! [`push_decimal`], [`push_members`] and [`push_more`] write parts of lines, for those that tell more of a call.
#![tactic(auto)]

mod lines;
mod members;
mod number_text;
mod places;
mod told;

pub use lines::{RankLines, lines_now, lines_of};
pub use members::push_members;
pub use number_text::push_decimal;
pub use places::{line_at, places_of};
pub use told::{first_of, push_more, push_start, push_waiting};
