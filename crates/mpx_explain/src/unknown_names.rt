//! Which word of a line names what isn't bound at a rank of its label.

use join_core::OutOfMemory;
use mpx_num::{Ops, parse_number};
use mpx_script::{ReadScriptError, Script, Statement, read_script};
use std::alloc::Global;

/// A word of a line that stands for nothing.
#[derive(Clone, Copy, Drop)]
pub(crate) struct UnknownName {
    /// Its place, from 0 on.
    pub(crate) place: usize,
    /// The first rank of the line's label that has nothing of that name.
    pub(crate) rank: u8,
    /// Whether another rank of the label has it.
    pub(crate) is_known_elsewhere: bool,
    /// Whether it is to stand for a request, and not for a communicator.
    pub(crate) is_request: bool,
}

/// The first word of a line that is bound to nothing behind these lines, at some rank of its label.
pub(crate) fn unknown_name(
    alloc: Global,
    before: &str,
    words: &[&str],
    ops: &Ops,
) -> Result<Option<UnknownName>, OutOfMemory> {
    match read_script(alloc, before.as_bytes(), ops) {
        Ok(script) => {
            let found = unknown_in(&script, words);
            drop(script);
            Ok(found)
        }
        Err(ReadScriptError::Refused(_)) => Ok(None),
        Err(ReadScriptError::OutOfMemory) => Err(OutOfMemory),
    }
}

fn unknown_in(script: &Script, words: &[&str]) -> Option<UnknownName> {
    let [label, statement, names @ ..] = words else {
        return None;
    };
    let is_request = *statement == "wait" || *statement == "waitall";
    for (nth, name) in names.iter().take(most_names(statement)).enumerate() {
        if let Some((rank, is_known_elsewhere)) = lacking(script, label, name, is_request) {
            return Some(UnknownName {
                place: nth.saturating_add(2),
                rank,
                is_known_elsewhere,
                is_request,
            });
        }
    }
    None
}

// So many words behind a statement's word name what is bound, at most.
fn most_names(statement: &str) -> usize {
    if statement == "waitall" {
        return usize::MAX;
    }
    if statement == "compare" || statement == "translate" {
        return 2;
    }
    1
}

// The first rank of a label that has nothing of this name, and whether another one has it.
fn lacking(script: &Script, label: &str, name: &str, is_request: bool) -> Option<(u8, bool)> {
    let mut found = None;
    let mut is_known = false;
    for rank in 0..script.ranks() {
        if !names_rank(label, rank) {
            continue;
        }
        if is_bound(script.statements(rank), name, is_request) {
            is_known = true;
        } else {
            found = found.or(Some(rank));
        }
    }
    match found {
        Some(rank) => Some((rank, is_known)),
        None => None,
    }
}

fn names_rank(label: &str, rank: u8) -> bool {
    match label.strip_suffix(":") {
        Some(number) => {
            number == "*" || parse_number(number.as_bytes()) == Some(i128::from(rank))
        }
        None => false,
    }
}

// Whether one of a rank's statements gives this name to a request, or to a communicator.
fn is_bound(statements: &[Statement], name: &str, is_request: bool) -> bool {
    if !is_request && name == "world" {
        return true;
    }
    statements
        .iter()
        .any(|statement| gives(statement, name.as_bytes(), is_request))
}

fn gives(statement: &Statement, name: &[u8], is_request: bool) -> bool {
    let Statement::Post(posting) = statement else {
        return false;
    };
    let word = if is_request {
        posting.request()
    } else {
        posting.target()
    };
    match word {
        Some(word) => word.as_bytes() == name,
        None => false,
    }
}
