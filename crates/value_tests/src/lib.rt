//! What scripts don't show of births, posts, rows and the communicators that calls make, with values from outside, as rows
//! of tables. No function owns more than it looks at: each exit of a function walks the drop of all that it owns.
#![tactic(auto)]

#[cfg(test)]
mod births;
#[cfg(test)]
mod children;
#[cfg(test)]
mod graphs;
#[cfg(test)]
mod own_lists;
#[cfg(test)]
mod posted;
#[cfg(test)]
mod refusals;
#[cfg(test)]
mod verdicts;
