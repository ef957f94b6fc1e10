//! What the evaluation of a script is, as definitions with their laws: the lines that each of its ranks prints.
//!
//! Each rank is an automaton over the outcomes that it asks for (`specs/Ranks.antt`), and the evaluation is where any moves
//! of all ranks end (`specs/Evaluation.antt`). Its laws are [`every_script_has_an_evaluation`], [`evaluations_are_one`],
//! [`whatever_is_reached_is_a_beginning`], [`ranks_carry_out_their_statements`] and [`lines_tell_the_values_of_all_posts`],
//! and of one rank alone (`specs/Going.antt`) [`a_rank_goes_its_own_way`]. Its posts fit: [`checked_posts_fit`].
//! A [`Line`] of a transcript is a value, whose text [`Line::push_to`] alone makes (`specs/Transcripts.antt`); [`push_lines`]
//! writes a rank's.
//! [`neighbours_answer`], [`comparison_answer`] and [`translation_answer`] give the line that answers a question about what a
//! word is [`Found`] to stand for. A [`RankEnd`] is what a rank leaves (`specs/Ends.antt`): its lines, the [`Origin`] of each, and
//! where it waits. A [`Report`] has the ends of all ranks. Who carries out a rank's statements keeps what its words stand for
//! in a map, into which [`bind`] binds one (`specs/Standing.antt`).
#![tactic(auto)]

mod asking;
mod bindings;
mod end;
mod evaluation;
mod fitting;
mod line;
mod origin;
mod own_way;
mod picking;
mod report;
mod told;
mod transcript;

pub use asking::{Found, Relation, comparison_answer, neighbours_answer, translation_answer};
pub use bindings::bind;
pub use end::{AskedCall, RankEnd, WaitsAt};
pub use evaluation::{
    evaluations_are_one, every_script_has_an_evaluation, whatever_is_reached_is_a_beginning,
};
pub use fitting::checked_posts_fit;
pub use line::{Line, NeighbourList, TranslatedRanks};
pub use origin::Origin;
pub use own_way::a_rank_goes_its_own_way;
pub use picking::push_where;
pub use report::Report;
pub use told::{lines_tell_the_values_of_all_posts, ranks_carry_out_their_statements};
pub use transcript::push_lines;
