//! What each error of the libraries prints, as a table of errors and texts. The crate stands above all libraries whose errors it has.
#![tactic(auto)]

#[cfg(test)]
mod answers;
#[cfg(test)]
mod shown;
#[cfg(test)]
mod texts;
