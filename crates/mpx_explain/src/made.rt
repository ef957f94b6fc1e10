//! Which statement of a rank has made a call whose outcome no line tells. Nothing is claimed of it.

use mpx_meaning::{Line, Origin, RankEnd};
use mpx_name::Name;
use mpx_script::{Posting, Statement};
use mpx_value::Outcome;

/// The place of the statement that has made the call with this number on a context: of those that post on its communicator and weren't refused
/// the one with this number. No line may tell the call's outcome.
pub(crate) fn made_at(
    statements: &[Statement],
    end: &RankEnd,
    name: &Name,
    call: u32,
) -> Option<usize> {
    let word = word_of(statements, end, name)?;
    let mut number = 0u32;
    let mut at = 0usize;
    for (place, statement) in statements.iter().enumerate() {
        at = passed(&end.origins, at, statements.len().saturating_sub(place));
        if !posts_on(statement, word) || is_refused(end, at, statements.len(), place) {
            continue;
        }
        if number == call {
            return Some(place);
        }
        number = number.saturating_add(1);
    }
    None
}

// The first from this one on that isn't of a statement at which more were left.
fn passed(origins: &[Origin], from: usize, left: usize) -> usize {
    let mut at = from;
    for origin in origins.iter().skip(from) {
        if origin.left <= left {
            return at;
        }
        at = at.saturating_add(1);
    }
    at
}

// Whether this line is of the statement with this place, and says that it was refused.
fn is_refused(end: &RankEnd, at: usize, count: usize, place: usize) -> bool {
    match (end.origins.get(at), end.lines.get(at)) {
        (Some(origin), Some(Line::Refused(_))) => origin.left == count.saturating_sub(place),
        _ => false,
    }
}

// The word that stands for a communicator.
fn word_of<'s>(statements: &'s [Statement], end: &RankEnd, name: &Name) -> Option<&'s [u8]> {
    if name.depth() == 0 {
        return Some(b"world".as_slice());
    }
    for (line, origin) in end.lines.iter().zip(&end.origins) {
        if gives(line, name) {
            let place = statements.len().saturating_sub(origin.left);
            return target_of(statements.get(place)?);
        }
    }
    None
}

// Whether a line tells that its call has given this communicator.
fn gives(line: &Line, name: &Name) -> bool {
    match line {
        Line::Told {
            outcome: Outcome::NewComm { name: new, .. },
            ..
        } => *new == *name,
        _ => false,
    }
}

// The word that stands for the communicator that a statement makes.
fn target_of(statement: &Statement) -> Option<&[u8]> {
    match statement {
        Statement::Post(posting) => Some(posting.target()?.as_bytes()),
        _ => None,
    }
}

// Whether a statement posts on the communicator of this word: that of a gathering posts on the gathering.
fn posts_on(statement: &Statement, word: &[u8]) -> bool {
    match statement {
        Statement::Post(Posting::CreateGroup { .. }) => false,
        Statement::Post(posting) => posting.on().as_bytes() == word,
        Statement::Wait(_) => false,
        Statement::Ask(_) => false,
    }
}
