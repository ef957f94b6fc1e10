//! What the names of a statement are refused for.
ghost use Rattle.std.specs.Prelude.{◌≡◌, ◌-◌, ◌++◌, ◌||◌, not, map};
ghost use Rattle.std.specs.List.{list_any, range_with_len};
ghost use Rattle.std.specs.Option.{option_copied, option_to_list};
ghost use Rattle.mpx_statement.specs.Statements.{communicators_of, requests_of};
ghost use Rattle.mpx_num.specs.OwnWords.{is_name};
ghost use Rattle.mpx_script.specs.Naming.{at_some_rank, is_bound, lacks_name, misnames, names_at, names_bound, takes_name};
ghost use Rattle.mpx_script.specs.Sentences.{names_refusal};

use crate::faults::ScriptFault;
use crate::script::Script;
use mpx_num::is_name;
use mpx_statement::{Statement, Word};

// The names of the communicators that a statement is on or asks about.
fn communicators(statement: &Statement) -> (Option<&Word>, Option<&Word>)
    ensures { option_to_list (option_copied result.0) ++ option_to_list (option_copied result.1) ≡ communicators_of statement.now }
{
    match statement {
        Statement::Post(posting) => (Some(posting.on()), None),
        Statement::Wait(_) => (None, None),
        Statement::Ask(question) => {
            let (first, second) = question.communicators();
            (Some(first), second)
        }
    }
}

// The names of the requests that a statement waits for.
fn requests(statement: &Statement) -> &[Word]
    ensures { result.now ≡ requests_of statement.now }
{
    match statement {
        Statement::Post(_) => &[],
        Statement::Wait(requests) => requests.as_slice(),
        Statement::Ask(_) => &[],
    }
}

// Whether the word is there and is no name.
fn is_misnamed(word: Option<&Word>) -> bool
    ensures { result ≡ list_any (λ word. not (is_name word)) (option_to_list (option_copied word.entry)) }
{
    match word {
        Some(word) => !is_name(word.as_bytes()),
        None => false,
    }
}

// Whether one of the words is no name.
fn are_misnamed(words: &[Word]) -> bool
    ensures { result ≡ list_any (λ word. not (is_name word)) words.now }
{
    words.iter().any(|word| !is_name(word.as_bytes()))
}

// Whether a word of the statement is no name.
#[tactic(auto, using(crate::proofs::Names::any_of_names, crate::proofs::Names::last_of_names))]
fn misnames(statement: &Statement) -> bool
    ensures { result ≡ misnames statement.now }
{
    let (first, second) = communicators(statement);
    is_misnamed(first)
        || is_misnamed(second)
        || are_misnamed(requests(statement))
        || is_misnamed(statement.target())
        || is_misnamed(statement.request())
}

// Whether the word is there and the rank hasn't bound it to a communicator.
fn is_unbound(script: &Script, rank: u8, word: Option<&Word>) -> bool
    ensures { result ≡ list_any (λ word. not (is_bound (names_at script.now.statements rank).communicators word)) (option_to_list (option_copied word.entry)) }
{
    match word {
        Some(word) => !script.has_communicator(rank, word.as_bytes()),
        None => false,
    }
}

// Whether the rank hasn't bound one of the words to a request.
fn are_unbound(script: &Script, rank: u8, words: &[Word]) -> bool
    ensures { result ≡ list_any (λ word. not (is_bound (names_at script.now.statements rank).requests word)) words.now }
{
    words
        .iter()
        .any(|word| !script.has_request(rank, word.as_bytes()))
}

// Whether the rank hasn't bound a name that the statement uses, or to the other sort.
#[tactic(auto, using(crate::proofs::Names::any_of_two, crate::proofs::Names::none_of_two))]
fn lacks_name_at(script: &Script, rank: u8, statement: &Statement) -> bool
    ensures { result ≡ lacks_name statement.now (names_at script.now.statements rank) }
{
    let (first, second) = communicators(statement);
    is_unbound(script, rank, first)
        || is_unbound(script, rank, second)
        || are_unbound(script, rank, requests(statement))
}

// Whether the word is there and the rank has bound it, to a communicator or to a request.
fn is_taken(script: &Script, rank: u8, word: Option<&Word>) -> bool
    ensures { result ≡ list_any (λ word. is_bound (names_at script.now.statements rank).communicators word
        || is_bound (names_at script.now.statements rank).requests word) (option_to_list (option_copied word.entry)) }
{
    match word {
        Some(word) => {
            let word = word.as_bytes();
            script.has_communicator(rank, word) || script.has_request(rank, word)
        }
        None => false,
    }
}

// Whether the rank has bound a name already that the statement binds.
#[tactic(auto, using(crate::proofs::Names::any_of_two))]
fn takes_name_at(script: &Script, rank: u8, statement: &Statement) -> bool
    ensures { result ≡ takes_name statement.now (names_at script.now.statements rank) }
{
    is_taken(script, rank, statement.target()) || is_taken(script, rank, statement.request())
}

// Whether that is so at one of the ranks from the one on and below the other.
fn lacks_name(script: &Script, from: u8, to: u8, statement: &Statement) -> bool
    ensures { result ≡ at_some_rank (map names_bound script.now.statements) (range_with_len from (to - from)) (lacks_name statement.now) }
{
    (from..to).any(|rank| lacks_name_at(script, rank, statement))
}

fn takes_name(script: &Script, from: u8, to: u8, statement: &Statement) -> bool
    ensures { result ≡ at_some_rank (map names_bound script.now.statements) (range_with_len from (to - from)) (takes_name statement.now) }
{
    (from..to).any(|rank| takes_name_at(script, rank, statement))
}

/// What the names of a statement are refused for at the ranks from the one on and below the other.
pub fn names_fault(script: &Script, from: u8, to: u8, statement: &Statement) -> Option<ScriptFault>
    ensures { result ≡ names_refusal (map names_bound script.now.statements) (range_with_len from (to - from)) statement.now }
{
    if misnames(statement) {
        return Some(ScriptFault::BadName);
    }
    if lacks_name(script, from, to, statement) {
        return Some(ScriptFault::NameUnknown);
    }
    if takes_name(script, from, to, statement) {
        return Some(ScriptFault::NameTaken);
    }
    None
}
