//! Tests of boards, of their frames and of what deltas leave out, with values from outside. They stand in a crate of their own, so
//! that the crates below are proved once. All are rows of what is done to boards and then seen of them; functions with many exits own
//! no board, since each exit of a function walks the drop of all that it owns.
#![tactic(auto)]

#[cfg(test)]
mod board_rows;
#[cfg(test)]
mod deltas;
#[cfg(test)]
mod frames;
#[cfg(test)]
mod joins;
