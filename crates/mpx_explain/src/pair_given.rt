//! Which communicator of a question that names two is null or freed.

use join_core::OutOfMemory;
use mpx_eval::Complaint;
use mpx_kind::Kind;
use mpx_post::PostError;
use mpx_script::{Posting, Script, Statement, Word};

/// Adds which of both communicators is null or freed, where that is plain: `world` is never null.
pub(crate) fn push_of_two(
    script: &Script,
    call: &Complaint,
    first: &Word,
    second: &Word,
    refusal: PostError,
    told: &mut String,
) -> Result<(), OutOfMemory> {
    match refusal {
        PostError::NotMember => {
            push_one_of(first, is_made(first), second, is_made(second), told)?;
            Ok(told.push_str(
                " is null here: its call was refused or a fault, or left this rank out",
            )?)
        }
        PostError::Closed => {
            let before = script
                .statements(call.rank)
                .get(..call.statement)
                .unwrap_or(&[]);
            told.push_str("this rank has freed ")?;
            push_one_of(
                first,
                is_freed(first, before),
                second,
                is_freed(second, before),
                told,
            )
        }
        _ => Ok(()),
    }
}

// Adds the one of both words that is such a one, or that one of them is.
fn push_one_of(
    first: &Word,
    is_first: bool,
    second: &Word,
    is_second: bool,
    told: &mut String,
) -> Result<(), OutOfMemory> {
    if is_first && (!is_second || first == second) {
        return push_communicator(first, told);
    }
    if is_second && !is_first {
        return push_communicator(second, told);
    }
    Ok(told.push_str("one of the communicators")?)
}

fn push_communicator(word: &Word, told: &mut String) -> Result<(), OutOfMemory> {
    match str::from_utf8(word.as_bytes()) {
        Ok(word) => Ok(told.push_str(word)?),
        Err(_) => Ok(told.push_str("one of the communicators")?),
    }
}

// Whether a word stands for a communicator that a call has made.
fn is_made(word: &Word) -> bool {
    word.as_bytes() != b"world".as_slice()
}

// Whether one of these statements frees the communicator of this word.
fn is_freed(word: &Word, statements: &[Statement]) -> bool {
    statements.iter().any(|statement| frees(statement, word))
}

fn frees(statement: &Statement, word: &Word) -> bool {
    match statement {
        Statement::Post(Posting::Call { on, draft }) => {
            draft.call.kind() == Kind::Free && on == word
        }
        _ => false,
    }
}
